//! Trees with all their nodes.

ghost use Rattle.std.specs.Prelude.{◌≡◌, ◌+◌, ◌-◌, ◌*◌, ◌^◌, ◌<◌, ◌≤◌, [], All, IfOk, drop, length, slice_index_or};
ghost use Rattle.lms_bytes.specs.Bytes.{bytes_at};
ghost use Rattle.lms_bytes.specs.HashLength.{IsHashLength};
ghost use Rattle.merkle_path.specs.Nodes.{leaf_node, inner_node, root};
ghost use Rattle.merkle_path.specs.Tree.{IsWhole, TreeNodes, node_at, path_at, path_node_at, tree_of};

use crate::nodes::{hash_inner, hash_leaf};
use lms_bytes::bytes::{part, put};
use lms_bytes::{KeyId, Params, Val};
use memory::NoMemory;
use std::alloc::Global;
use std::marker::Model;

/// The tree of a key of height at most 20, with all its nodes.
#[derive(Drop)]
pub struct Tree {
    n: u8,
    h: u8,
    /// Where the nodes begin among the bytes.
    front: usize,
    bytes: Vec<u8>,
}

impl Model for Tree {
    ghost use Rattle.std.specs.Prelude.{◌≤◌, drop, length};
    ghost use Rattle.merkle_path.specs.Tree.{IsWhole, TreeNodes};

    ghost Value = { TreeNodes };

    ghost view = { λ t. record { n = t.n; h = t.h; nodes = drop t.front t.bytes.items } };

    ghost invariant = { λ t. (t.front ≤ length t.bytes.items)
        × IsWhole (record { n = t.n; h = t.h; nodes = drop t.front t.bytes.items }) };
}

impl Tree {
    /// The tree over leaves with these public values: `2^h` of them, of `n` bytes each (RFC 8554 section 5.3).
    pub fn build(alloc: Global, params: &Params, id: &KeyId, keys: &[Val]) -> Result<Tree, NoMemory>
        requires height { params.now.h ≤ 20 }
        requires leaves { length keys.now ≡ 2 ^ params.now.h }
        requires keys { All (λ key. length key ≡ params.now.n) keys.now }
        ensures { IfOk result (λ tree. tree ≡ tree_of params.now id.now (λ q. slice_index_or keys.now q [])) }
    {
        let n = params.n as usize;
        let mut nodes = vec![in alloc; 0; n * (2 * params.leaves() as usize - 1)]?;
        fill_nodes(params, id, keys, &mut nodes);
        Ok(Tree::behind(params, nodes, 0))
    }

    /// The tree with these nodes: T[1], T[2] and so on, of `n` bytes each, as they stand.
    pub fn of_nodes(alloc: Global, params: &Params, nodes: &[u8]) -> Result<Tree, NoMemory>
        requires height { params.now.h ≤ 20 }
        requires nodes { length nodes.now ≡ params.now.n * (2 ^ (params.now.h + 1) - 1) }
        ensures { IfOk result (λ tree. tree ≡ record { n = params.now.n; h = params.now.h; nodes = nodes.now }) }
    {
        Ok(Tree::behind(params, Vec::from_slice(alloc, nodes)?, 0))
    }

    /// The tree whose nodes T[1], T[2] and so on, of `n` bytes each, are everything after the first `front` bytes. It
    /// takes no memory.
    pub fn behind(params: &Params, bytes: Vec<u8>, front: usize) -> Tree
        requires height { params.now.h ≤ 20 }
        requires length { length bytes.items ≡ front + params.now.n * (2 ^ (params.now.h + 1) - 1) }
        ensures { result ≡ record { n = params.now.n; h = params.now.h; nodes = drop front bytes.items } }
    {
        Tree {
            n: params.n,
            h: params.h,
            front,
            bytes,
        }
    }

    /// Its nodes T[1], T[2] and so on, as they stand.
    pub fn nodes(&self) -> &[u8]
        ensures nodes { result.now ≡ self.now.nodes }
        ensures whole { IsWhole self.now }
    {
        &self.bytes[self.front..]
    }

    /// Node `r`.
    pub fn node(&self, r: u32) -> Val
        requires first { 1 ≤ r }
        requires last { r < 2 ^ (self.now.h + 1) }
        ensures node { result ≡ node_at self.now r }
        ensures length { length result ≡ self.now.n }
    {
        node_in(self.nodes(), self.n, r)
    }

    /// The root, node 1.
    pub fn root(&self) -> Val
        ensures node { result ≡ node_at self.now 1 }
        ensures length { length result ≡ self.now.n }
    {
        self.node(1)
    }

    /// The node of leaf `q`'s path that is `level` levels above the leaves (RFC 8554 section 5.4).
    pub fn path(&self, q: u32, level: u8) -> Val
        requires leaf { q < 2 ^ self.now.h }
        requires level { level < self.now.h }
        ensures node { result ≡ path_node_at self.now q level }
        ensures length { length result ≡ self.now.n }
    {
        let above = (self.leaves() + q) >> level;
        self.node(above ^ 1)
    }

    /// Writes path[0] to path[h - 1] of leaf `q` into `out`, `h` nodes of `n` bytes (RFC 8554 section 5.4).
    pub fn write_path(&self, q: u32, out: &mut [u8])
        requires leaf { q < 2 ^ self.now.h }
        requires room { length out.old ≡ self.now.n * self.now.h }
        ensures { out.new ≡ path_at self.now q }
    {
        let n = self.n as usize;
        'levels: for level in 0..self.h {
            let node = self.path(q, level);
            put(out, n * level as usize, node.bytes());
        }
    }

    /// The number of leaves.
    fn leaves(&self) -> u32
        ensures number { result ≡ 2 ^ self.now.h }
        ensures bound { result ≤ 1048576 }
        ensures height { self.now.h ≤ 20 }
    {
        1 << self.h
    }
}

/// Writes all nodes of the tree over leaves with these public values.
fn fill_nodes(params: &Params, id: &KeyId, keys: &[Val], nodes: &mut [u8])
    requires leaves { length keys.now ≡ 2 ^ params.now.h }
    requires keys { All (λ key. length key ≡ params.now.n) keys.now }
    requires room { length nodes.old ≡ params.now.n * (2 ^ (params.now.h + 1) - 1) }
    ensures { nodes.new ≡ (tree_of params.now id.now (λ q. slice_index_or keys.now q [])).nodes }
{
    let n = params.n as usize;
    // A node's children have greater numbers than the node.
    'nodes: for r in (1..2 * params.leaves()).rev() {
        let node = node_from(params, id, keys, nodes, r);
        put(nodes, n * (r as usize - 1), node.bytes());
    }
}

/// Node `r` from its leaf's public value, or from its children.
fn node_from(params: &Params, id: &KeyId, keys: &[Val], nodes: &[u8], r: u32) -> Val
    requires leaves { length keys.now ≡ 2 ^ params.now.h }
    requires keys { All (λ key. length key ≡ params.now.n) keys.now }
    requires room { length nodes.now ≡ params.now.n * (2 ^ (params.now.h + 1) - 1) }
    requires first { 1 ≤ r }
    requires last { r < 2 ^ (params.now.h + 1) }
    ensures leaf { 2 ^ params.now.h ≤ r
        → result ≡ leaf_node params.now id.now r (slice_index_or keys.now (r - 2 ^ params.now.h) []) }
    ensures inner { r < 2 ^ params.now.h → result ≡ inner_node params.now id.now r
        (bytes_at nodes.now (params.now.n * (2 * r - 1)) params.now.n)
        (bytes_at nodes.now (params.now.n * (2 * r)) params.now.n) }
    ensures length { length result ≡ params.now.n }
{
    let leaves = params.leaves();
    if r >= leaves {
        hash_leaf(params, id, r, &keys[(r - leaves) as usize])
    } else {
        let left = node_in(nodes, params.n, 2 * r);
        let right = node_in(nodes, params.n, 2 * r + 1);
        hash_inner(params, id, r, &left, &right)
    }
}

/// Node `r` of nodes of `n` bytes that stand one after the other from node 1 on.
fn node_in(nodes: &[u8], n: u8, r: u32) -> Val
    requires hash_length { IsHashLength n }
    requires first { 1 ≤ r }
    requires inside { n * r ≤ length nodes.now }
    ensures node { result ≡ bytes_at nodes.now (n * (r - 1)) n }
    ensures length { length result ≡ n }
{
    let n = n as usize;
    Val::of(part(nodes, n * (r as usize - 1), n))
}
