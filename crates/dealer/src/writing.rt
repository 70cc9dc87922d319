//! The writing of runs of leaves, with their public values, and with the commitments to their masks if they are asked
//! for.

ghost use Rattle.std.specs.Prelude.{◌≡◌, ◌+◌, ◌^◌, ◌<◌, ◌≤◌, length};
ghost use Rattle.mask_prf.specs.Lengths.{leaf_length};
ghost use Rattle.reference_value.specs.Dealing.{leaf_part};
ghost use Rattle.dealer.specs.Material.{AreAllBuilt, HasAllRoom, HasRoomOfRun, IsBuiltRun, are_asked, dealing_with};
ghost use Rattle.dealer.specs.Runs.{asked_length, dealt_leaf_key, leaf_asked};

use crate::material::KeyMaterial;
use crate::runs::Run;
use lms_bytes::Val;
use lms_bytes::bytes::put;
use reference_value::{build_committed_leaf, build_leaf, leaf_bytes};
use share_files::{HEAD, leaf_commits_bytes};

/// Writes the leaves of the masked reference value, the commitments to their masks after the head of their file, if
/// there is one, and the public values of the leaves, `n` bytes each.
pub(crate) fn write_leaves(material: &KeyMaterial, out: &mut [u8], file: &mut [u8], keys: &mut [u8])
    requires { HasAllRoom material.now out.old file.old keys.old }
    ensures { AreAllBuilt material.now out.new file.new keys.new }
{
    let (_, commits) = file.split_at_mut(file.len().min(HEAD));
    write_run(material, Run::whole(&material.params), out, commits, keys);
}

/// Writes the leaves of a run, one after the other, the commitments to their masks if they are asked for, and the
/// public values of the leaves, `n` bytes each.
pub(crate) fn write_run(
    material: &KeyMaterial,
    run: Run,
    out: &mut [u8],
    commits: &mut [u8],
    keys: &mut [u8],
)
    requires within { run.first + run.count ≤ 2 ^ material.now.params.h }
    requires rooms { HasRoomOfRun material.now run.count out.old commits.old keys.old }
    ensures { IsBuiltRun material.now run out.new commits.new keys.new }
{
    let KeyMaterial { params, plan, .. } = material;
    let size = leaf_bytes(params, plan.k());
    let row = asked_bytes(material);
    let n = params.n as usize;
    'leaves: for i in 0..run.count {
        let place = size * i as usize;
        let leaf = &mut out[place..place + size];
        let start = row * i as usize;
        let part = &mut commits[start..start + row];
        let key = write_leaf(material, run.first + i, leaf, part);
        put(keys, n * i as usize, key.bytes());
    }
}

/// How many bytes the commitments to the masks of a leaf have, or 0 if they are not asked for.
pub(crate) fn asked_bytes(material: &KeyMaterial) -> usize
    ensures { result ≡ asked_length (are_asked material.now) material.now.params material.now.plan.k }
{
    if material.macs.is_some() {
        leaf_commits_bytes(&material.params, material.plan.k())
    } else {
        0
    }
}

/// Writes leaf `q`, and the commitments to its masks if they are asked for. Gives its public value, `n` bytes.
fn write_leaf(material: &KeyMaterial, q: u32, out: &mut [u8], commits: &mut [u8]) -> Val
    requires leaf { q < 2 ^ material.now.params.h }
    requires room { length out.old ≡ leaf_length material.now.params material.now.plan.k }
    requires asked { length commits.old
        ≡ asked_length (are_asked material.now) material.now.params material.now.plan.k }
    ensures leaf { out.new ≡ leaf_part (dealing_with material.now) q }
    ensures asked { commits.new ≡ leaf_asked (are_asked material.now) (dealing_with material.now) q }
    ensures leaf_key { result ≡ dealt_leaf_key (dealing_with material.now) q }
    ensures length { length result ≡ material.now.params.n }
{
    let KeyMaterial {
        params,
        plan,
        id,
        seed,
        random_key,
        keys,
        macs,
    } = material;
    match macs {
        Some(macs) => {
            build_committed_leaf(params, id, plan, q, seed, random_key, macs, out, commits)
        }
        None => build_leaf(params, id, plan, q, seed, random_key, keys, out),
    }
}
