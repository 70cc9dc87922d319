//! The dealing with its leaves built by several threads.

ghost use Rattle.std.specs.Prelude.{◌≡◌, ◌+◌, ◌^◌, ◌≤◌, ⊤, IfOk, false};
ghost use Rattle.std.specs.Thread.{IsSync};
ghost use Rattle.lms_bytes.specs.Bytes.{joined};
ghost use Rattle.reference_value.specs.Dealing.{reference};
ghost use Rattle.dealer.specs.Entropy.{dealing_of};
ghost use Rattle.dealer.specs.Faults.{IsDealable};
ghost use Rattle.dealer.specs.Material.{AreAllBuilt, HasAllRoom, HasRoomOfRun, IsBuiltRun, are_asked, dealing_with};
ghost use Rattle.dealer.specs.Runs.{IsBuilt, joined_keys, leaf_asked};
ghost use Rattle.dealer.specs.Told.{TellsLeaves, told_of};

use crate::building::finish;
use crate::dealing::Dealt;
use crate::entropy::read_entropy;
use crate::leaves::{Rows, room_for_rows};
use crate::material::KeyMaterial;
use crate::runs::{Run, thread_count};
use crate::writing::{asked_bytes, write_run};
use coalition_map::Plan;
use lms_bytes::Params;
use memory::NoMemory;
use reference_value::leaf_bytes;
use share_files::HEAD;
use std::alloc::Global;
use std::thread::{Threads, join_mut};
use stream_io::Progress;

/// How many leaves are built as one part, if there are that many.
const PART: u32 = 512;

/// Deals the key that the entropy stands for, which has been tested, with its commitment file if it is asked for. The
/// largest memory is taken before the first thread is made, since the C library keeps the room of the stacks.
pub(crate) fn build_beside<R: Threads + Sync, P: Progress>(
    rt: &R,
    progress: &mut P,
    alloc: Global,
    params: &Params,
    plan: &Plan,
    entropy: &[u8],
    commit: bool,
) -> Result<(Dealt, Vec<u8>), NoMemory>
    requires height { plan.now.h ≡ params.now.h }
    requires dealable { IsDealable false params.now plan.now entropy.now }
    ensures built { IfOk result (IsBuilt commit (dealing_of params.now plan.now entropy.now)) }
    ensures told { TellsLeaves P.told params.now.h (λ _. ⊤) result progress.old progress.new }
{
    let material = read_entropy(alloc, params, plan, entropy, commit)?;
    let Rows { leaves, file, keys } = leaves_beside(rt, progress, alloc, &material)?;
    let dealt = finish(alloc, &material, &keys, leaves)?;
    Ok((dealt, file))
}

/// What is built of all leaves.
fn leaves_beside<R: Threads + Sync, P: Progress>(
    rt: &R,
    progress: &mut P,
    alloc: Global,
    material: &KeyMaterial,
) -> Result<Rows, NoMemory>
    ensures built { IfOk result (λ rows. AreAllBuilt material.now rows.leaves.items rows.file.items rows.keys.items) }
    ensures told { TellsLeaves P.told material.now.params.h (λ _. ⊥) result progress.old progress.new }
{
    let mut rows = room_for_rows(alloc, material)?;
    let (leaves, file, keys) = (&mut rows.leaves, &mut rows.file, &mut rows.keys);
    write_leaves_beside(rt, progress, material, leaves, file, keys);
    Ok(rows)
}

/// Writes the leaves of the masked reference value, the commitments to their masks after the head of their file, if
/// there is one, and the public values of the leaves, `n` bytes each.
fn write_leaves_beside<R: Threads + Sync, P: Progress>(
    rt: &R,
    progress: &mut P,
    material: &KeyMaterial,
    out: &mut [u8],
    file: &mut [u8],
    keys: &mut [u8],
)
    requires room { HasAllRoom material.now out.old file.old keys.old }
    ensures built { AreAllBuilt material.now out.new file.new keys.new }
    ensures told { progress.new ≡ told_of P.told material.now.params.h progress.old }
{
    let (_, commits) = file.split_at_mut(file.len().min(HEAD));
    write_parts(rt, progress, material, out, commits, keys);
}

/// Writes the leaves of the masked reference value, one after the other, the commitments to their masks if they are
/// asked for, and the public values of the leaves, `n` bytes each. It builds them part by part, each part by all
/// threads, and tells after each how many are built.
fn write_parts<R: Threads + Sync, P: Progress>(
    rt: &R,
    progress: &mut P,
    material: &KeyMaterial,
    out: &mut [u8],
    commits: &mut [u8],
    keys: &mut [u8],
)
    requires rooms { HasRoomOfRun material.now (2 ^ material.now.params.h) out.old commits.old keys.old }
    ensures leaves { out.new ≡ reference (dealing_with material.now) }
    ensures commits { commits.new
        ≡ joined (leaf_asked (are_asked material.now) (dealing_with material.now)) (2 ^ material.now.params.h) }
    ensures keys { keys.new ≡ joined_keys (dealing_with material.now) }
    ensures told { progress.new ≡ told_of P.told material.now.params.h progress.old }
{
    let KeyMaterial { params, plan, .. } = material;
    let (all, threads) = (params.leaves(), thread_count(rt));
    let count = PART.min(all);
    let size = leaf_bytes(params, plan.k()) * count as usize;
    let row = asked_bytes(material) * count as usize;
    let width = params.n as usize * count as usize;
    'parts: for i in 0..all / count {
        let place = size * i as usize;
        let leaves = &mut out[place..place + size];
        let start = row * i as usize;
        let asked = &mut commits[start..start + row];
        let front = width * i as usize;
        let values = &mut keys[front..front + width];
        let first = i * count;
        let run = Run { first, count };
        write_beside(rt, material, run, threads, leaves, asked, values);
        progress.built(first + count, all);
    }
}

/// Writes the leaves of a run, one after the other, the commitments to their masks if they are asked for, and the
/// public values of the leaves, `n` bytes each, by at most `threads` threads.
pub(crate) fn write_beside<R: Threads + Sync>(
    rt: &R,
    material: &KeyMaterial,
    run: Run,
    threads: usize,
    out: &mut [u8],
    commits: &mut [u8],
    keys: &mut [u8],
)
    requires within { run.first + run.count ≤ 2 ^ material.now.params.h }
    requires rooms { HasRoomOfRun material.now run.count out.old commits.old keys.old }
    ensures { IsBuiltRun material.now run out.new commits.new keys.new }
{
    if threads < 2 || run.count < 2 {
        write_run(material, run, out, commits, keys);
        return;
    }
    let KeyMaterial { params, plan, .. } = material;
    let some = threads / 2;
    let others = threads - some;
    let (first, next) = run.cut(some, threads);
    let (front, back) = out.split_at_mut(leaf_bytes(params, plan.k()) * first.count as usize);
    let row = asked_bytes(material);
    let (ahead, behind) = commits.split_at_mut(row * first.count as usize);
    let (lower, upper) = keys.split_at_mut(params.n as usize * first.count as usize);
    join_mut(
        rt,
        &mut ||
            requires { IsSync R.row × (first.first + first.count ≤ 2 ^ material.now.params.h)
                × HasRoomOfRun material.now first.count front.now ahead.now lower.now }
            ensures { IsBuiltRun material.entry.now first front.exit.now ahead.exit.now lower.exit.now }
        { write_beside(rt, material, first, some, front, ahead, lower) },
        &mut ||
            requires { IsSync R.row × (next.first + next.count ≤ 2 ^ material.now.params.h)
                × HasRoomOfRun material.now next.count back.now behind.now upper.now }
            ensures { IsBuiltRun material.entry.now next back.exit.now behind.exit.now upper.exit.now }
        { write_beside(rt, material, next, others, back, behind, upper) },
    );
}
