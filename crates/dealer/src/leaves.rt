//! What is made of all leaves: room for the masked reference value, for the commitments to its masks and for the public
//! values, and the tree over these.

ghost use Rattle.std.specs.Prelude.{◌≡◌, ◌+◌, ◌*◌, ◌^◌, ◌≤◌, All, IfOk, length, map, take, vec_capacity};
ghost use Rattle.std.specs.List.{range_with_len};
ghost use Rattle.lms_bytes.specs.Bytes.{bytes_at};
ghost use Rattle.merkle_path.specs.Tree.{tree_of};
ghost use Rattle.mask_prf.specs.Lengths.{leaves_length};
ghost use Rattle.share_files.specs.Commits.{commits_head_of, commits_length};
ghost use Rattle.dealer.specs.Material.{HasAllRoom, are_asked, dealing_with};
ghost use Rattle.dealer.specs.Runs.{HasRoom, dealt_leaf_key, joined_keys};

use crate::material::KeyMaterial;
use coalition_map::Plan;
use lms_bytes::bytes::part;
use lms_bytes::{Params, Val};
use memory::NoMemory;
use merkle_path::Tree;
use reference_value::leaf_bytes;
use share_files::{HEAD, RefHeader, length_of_commits, write_commits_head};
use std::alloc::Global;

/// What is built of all leaves of a key.
#[derive(Drop)]
pub(crate) struct Rows {
    /// The leaves of the masked reference value, with room for the head of their file.
    pub(crate) leaves: Vec<u8>,
    /// The commitment file, or nothing if it is not asked for.
    pub(crate) file: Vec<u8>,
    /// The public values of the leaves, `n` bytes each.
    pub(crate) keys: Vec<u8>,
}

/// Room for what is built of all leaves, with the head of the commitment file, if it is asked for.
pub(crate) fn room_for_rows(alloc: Global, material: &KeyMaterial) -> Result<Rows, NoMemory>
    ensures { IfOk result (λ rows. HasAllRoom material.now rows.leaves.items rows.file.items rows.keys.items) }
{
    let KeyMaterial { params, plan, .. } = material;
    let leaves = room_for_leaves(alloc, params, plan)?;
    let file = room_asked(alloc, material)?;
    let keys = vec![in alloc; 0; params.n as usize * params.leaves() as usize]?;
    Ok(Rows { leaves, file, keys })
}

/// The tree over these public values of the leaves, `n` bytes each.
pub(crate) fn build_tree(
    alloc: Global,
    material: &KeyMaterial,
    keys: &[u8],
) -> Result<Tree, NoMemory>
    requires height { material.now.params.h ≤ 20 }
    requires keys { keys.now ≡ joined_keys (dealing_with material.now) }
    ensures { IfOk result (λ tree. tree
        ≡ tree_of material.now.params material.now.id (dealt_leaf_key (dealing_with material.now))) }
{
    let leaf_keys = split_keys(alloc, &material.params, keys)?;
    Tree::build(alloc, &material.params, &material.id, &leaf_keys)
}

/// These public values of all leaves, `n` bytes each, one by one.
fn split_keys(alloc: Global, params: &Params, keys: &[u8]) -> Result<Vec<Val>, NoMemory>
    requires { length keys.now ≡ params.now.n * 2 ^ params.now.h }
    ensures keys { IfOk result (λ values. values.items
        ≡ map (λ q. bytes_at keys.now (params.now.n * q) params.now.n) (range_with_len 0 (2 ^ params.now.h))) }
    ensures length { IfOk result (λ values. All (λ key. length key ≡ params.now.n) values.items) }
{
    let n = params.n as usize;
    let mut values = Vec::with_capacity(alloc, params.leaves() as usize)?;
    'leaves: for q in 0..params.leaves() {
        values.push(Val::of(part(keys, n * q as usize, n)))?;
    }
    Ok(values)
}

/// Room for the leaves of the masked reference value, with more for the head of their file.
fn room_for_leaves(alloc: Global, params: &Params, plan: &Plan) -> Result<Vec<u8>, NoMemory>
    requires { plan.now.h ≡ params.now.h }
    ensures length { IfOk result (λ leaves. length leaves.items ≡ leaves_length params.now plan.now) }
    ensures room { IfOk result (λ leaves. length leaves.items + 32 ≤ vec_capacity leaves) }
{
    let length = leaf_bytes(params, plan.k()) * params.leaves() as usize;
    let mut leaves = Vec::with_capacity(alloc, length + HEAD)?;
    leaves.resize(length, 0)?;
    Ok(leaves)
}

/// Room for the commitment file with its head, if commitments are asked for.
fn room_asked(alloc: Global, material: &KeyMaterial) -> Result<Vec<u8>, NoMemory>
    ensures { IfOk result (λ file.
        HasRoom (are_asked material.now) material.now.params material.now.plan material.now.id file.items) }
{
    if material.macs.is_some() {
        room_for_commits(alloc, material)
    } else {
        Ok(Vec::new(alloc))
    }
}

/// Room for the commitment file of a key, with its head.
fn room_for_commits(alloc: Global, material: &KeyMaterial) -> Result<Vec<u8>, NoMemory>
    ensures head { IfOk result (λ file. take 32 file.items
        ≡ commits_head_of material.now.params material.now.plan material.now.id) }
    ensures length { IfOk result (λ file.
        length file.items ≡ commits_length material.now.params material.now.plan) }
{
    let KeyMaterial { params, plan, .. } = material;
    let mut file = vec![in alloc; 0; length_of_commits(params, plan.k()) as usize]?;
    let (head, _) = file.split_at_mut(HEAD);
    head.copy_from_slice(&head_of_commits(material));
    Ok(file)
}

/// The head of the commitment file of a key.
fn head_of_commits(material: &KeyMaterial) -> [u8; HEAD]
    ensures { result ≡ commits_head_of material.now.params material.now.plan material.now.id }
{
    let header = RefHeader {
        params: material.params,
        plan: material.plan,
        id: material.id,
    };
    let mut head = [0; HEAD];
    write_commits_head(&header, &mut head);
    head
}
