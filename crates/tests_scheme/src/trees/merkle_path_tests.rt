//! Tests of what no contract says: that the definitions are the standard's, by another implementation's values.

ghost use Rattle.std.specs.Prelude.{◌≡◌, All, length};
ghost use Rattle.lms_bytes.specs.HashLength.{IsHashLength};

use crate::values::{ID, front, holds, set_of};
use lms_bytes::{Params, Val};
use memory::NoMemory;
use merkle_path::{Tree, root_from};
use std::alloc::Global;
use std::process::Abort;

/// Typecodes, and nodes of the tree by their first eight bytes.
const SETS: [(u32, u32, [(u32, u64); 5]); 2] = [
    (
        10,
        8,
        [
            (1, 0x2ce90281dd8c360f),
            (2, 0x47e23563f3be11bc),
            (3, 0x1a601f67da050d4b),
            (44, 0x27fabf767fd04516),
            (63, 0x8c2fc71c5014532c),
        ],
    ),
    (
        5,
        3,
        [
            (1, 0xbb458022e7b1d81c),
            (2, 0xc1329b215e42884e),
            (3, 0x80b7dfdf1a3a1627),
            (44, 0x7a19d6c68b38cf99),
            (63, 0x509752a8af5ad9b3),
        ],
    ),
];

/// A parameter set of height 5.
fn low_set_of(rt: &impl Abort, lms: u32, ots: u32) -> Params
    ensures { result.h ≡ 5 }
{
    let params = set_of(rt, lms, ots);
    assert!(rt; params.h == 5);
    params
}

/// A public value of leaf `q`: `n` bytes `q`.
fn leaf_key(q: u8, n: u8) -> Val
    requires { IsHashLength n }
    ensures { length result ≡ n }
{
    Val::cut(&[q; 32], n)
}

/// The public values of 32 leaves.
fn leaf_keys(n: u8) -> [Val; 32]
    requires { IsHashLength n }
    ensures { All (λ key. length key ≡ n) result }
{
    let mut keys = [leaf_key(0, n); 32];
    for q in 1..32 {
        keys[q as usize] = leaf_key(q, n);
    }
    keys
}

/// Whether the tree has these nodes.
fn has_nodes(tree: &Tree, nodes: &[(u32, u64); 5]) -> bool
    requires { tree.now.h ≡ 5 }
{
    for (r, want) in nodes {
        if *r == 0 || *r > 63 || front(&tree.node(*r)) != *want {
            return false;
        }
    }
    true
}

/// Whether the path of leaf 11 has the right nodes.
fn has_path(tree: &Tree) -> bool
    requires { tree.now.h ≡ 5 }
{
    for (level, r) in &[(0, 42), (1, 20), (2, 11), (3, 4), (4, 3)] {
        if tree.path(11, *level) != tree.node(*r) {
            return false;
        }
    }
    true
}

/// Whether the path of leaf 11 leads to the root.
fn leads_to_root(params: &Params, tree: &Tree) -> bool
    requires height { params.now.h ≡ 5 }
    requires same { (tree.now.n ≡ params.now.n) × (tree.now.h ≡ params.now.h) }
{
    let length = 5 * params.n as usize;
    let mut path = [0; 160];
    tree.write_path(11, &mut path[..length]);
    let key = leaf_key(11, params.n);
    root_from(params, &ID, 11, &key, &path[..length]) == tree.root()
}

/// Whether a tree of the nodes of this one has the same nodes.
fn is_of_its_nodes(alloc: Global, params: &Params, tree: &Tree) -> Result<bool, NoMemory>
    requires height { params.now.h ≡ 5 }
    requires same { (tree.now.n ≡ params.now.n) × (tree.now.h ≡ params.now.h) }
{
    let same = Tree::of_nodes(alloc, params, tree.nodes())?;
    Ok(same.nodes() == tree.nodes())
}

/// Whether the tree of a set has these nodes, and all that follows from them.
fn has_tree(alloc: Global, params: &Params, nodes: &[(u32, u64); 5]) -> Result<bool, NoMemory>
    requires { params.now.h ≡ 5 }
{
    let tree = Tree::build(alloc, params, &ID, &leaf_keys(params.n))?;
    let has = has_nodes(&tree, nodes) && has_path(&tree) && leads_to_root(params, &tree);
    Ok(has && is_of_its_nodes(alloc, params, &tree)?)
}

#[test]
fn nodes_and_paths_are_those_of_another_implementation(rt: HostRuntime) {
    for (lms, ots, nodes) in &SETS {
        let params = low_set_of(&rt, *lms, *ots);
        holds(&rt, *lms, has_tree(rt.alloc(), &params, nodes) == Ok(true));
    }
}
