//! What a dealing is made of.

ghost use Rattle.std.specs.Prelude.{◌≡◌, ◌<◌, ◌≤◌, IfOk, false, length};
ghost use Rattle.reference_value.specs.Dealing.{reference};
ghost use Rattle.dealer.specs.Dealt.{IsDealt};
ghost use Rattle.dealer.specs.Entropy.{dealing_of};
ghost use Rattle.dealer.specs.Faults.{IsDealable};
ghost use Rattle.dealer.specs.Runs.{IsBuilt, joined_keys};
ghost use Rattle.dealer.specs.Material.{AreAllBuilt, IsPublic, dealing_with};

use crate::dealing::Dealt;
use crate::entropy::read_entropy;
use crate::leaves::{Rows, build_tree, room_for_rows};
use crate::material::KeyMaterial;
use crate::shares::build_shares;
use crate::writing::write_leaves;
use coalition_map::Plan;
use lms_bytes::{Params, PublicKey};
use memory::NoMemory;
use merkle_path::Tree;
use std::alloc::Global;

/// Deals the key that the entropy stands for, which has been tested, with its commitment file if it is asked for.
pub(crate) fn build(
    alloc: Global,
    params: &Params,
    plan: &Plan,
    entropy: &[u8],
    commit: bool,
) -> Result<(Dealt, Vec<u8>), NoMemory>
    requires height { plan.now.h ≡ params.now.h }
    requires dealable { IsDealable false params.now plan.now entropy.now }
    ensures { IfOk result (IsBuilt commit (dealing_of params.now plan.now entropy.now)) }
{
    let material = read_entropy(alloc, params, plan, entropy, commit)?;
    let Rows { leaves, file, keys } = build_leaves(alloc, &material)?;
    let dealt = finish(alloc, &material, &keys, leaves)?;
    Ok((dealt, file))
}

/// What is built of all leaves.
fn build_leaves(alloc: Global, material: &KeyMaterial) -> Result<Rows, NoMemory>
    ensures { IfOk result (λ rows. AreAllBuilt material.now rows.leaves.items rows.file.items rows.keys.items) }
{
    let mut rows = room_for_rows(alloc, material)?;
    write_leaves(material, &mut rows.leaves, &mut rows.file, &mut rows.keys);
    Ok(rows)
}

/// The dealing with these public values of the leaves, `n` bytes each, and these leaves of the masked reference value.
pub(crate) fn finish(
    alloc: Global,
    material: &KeyMaterial,
    keys: &[u8],
    leaves: Vec<u8>,
) -> Result<Dealt, NoMemory>
    requires low { material.now.params.h ≤ 20 }
    requires keys { keys.now ≡ joined_keys (dealing_with material.now) }
    requires leaves { leaves.items ≡ reference (dealing_with material.now) }
    ensures dealt { IfOk result (IsDealt (dealing_with material.now)) }
    ensures shares { IfOk result (λ dealt. 0 < length dealt.shares.items) }
{
    let (public, tree) = build_public(alloc, material, keys)?;
    Ok(Dealt {
        public,
        tree,
        reference: leaves,
        shares: build_shares(alloc, material)?,
    })
}

/// The public key and the tree over these public values of the leaves, `n` bytes each.
pub(crate) fn build_public(
    alloc: Global,
    material: &KeyMaterial,
    keys: &[u8],
) -> Result<(PublicKey, Tree), NoMemory>
    requires low { material.now.params.h ≤ 20 }
    requires keys { keys.now ≡ joined_keys (dealing_with material.now) }
    ensures { IfOk result (λ both. IsPublic (dealing_with material.now) both.0 both.1) }
{
    let tree = build_tree(alloc, material, keys)?;
    let public = PublicKey {
        params: material.params,
        id: material.id,
        root: tree.root(),
    };
    Ok((public, tree))
}
