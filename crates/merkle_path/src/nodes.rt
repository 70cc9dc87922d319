//! The hashes of a tree.

ghost use Rattle.std.specs.Prelude.{◌≡◌, ◌/◌, length};
ghost use Rattle.merkle_path.specs.Nodes.{leaf_node, inner_node, parent_node};

use crate::{D_INTR, D_LEAF};
use lms_bytes::{KeyId, Params, Val};
use sha2::{Digest, Sha256};

/// Node `r`, which is a leaf with the public value `key`.
pub(crate) fn hash_leaf(params: &Params, id: &KeyId, r: u32, key: &Val) -> Val
    requires { length key.now ≡ params.now.n }
    ensures node { result ≡ leaf_node params.now id.now r key.now }
    ensures length { length result ≡ params.now.n }
{
    let mut hasher = Sha256::new();
    hasher.update(id.as_slice());
    hasher.update(r.to_be_bytes().as_slice());
    hasher.update(D_LEAF.to_be_bytes().as_slice());
    hasher.update(key.bytes());
    Val::cut(&hasher.finalize(), params.n)
}

/// Node `r` from the nodes below it.
pub(crate) fn hash_inner(params: &Params, id: &KeyId, r: u32, left: &Val, right: &Val) -> Val
    ensures node { result ≡ inner_node params.now id.now r left.now right.now }
    ensures length { length result ≡ params.now.n }
{
    let mut hasher = Sha256::new();
    hasher.update(id.as_slice());
    hasher.update(r.to_be_bytes().as_slice());
    hasher.update(D_INTR.to_be_bytes().as_slice());
    hasher.update(left.bytes());
    hasher.update(right.bytes());
    Val::cut(&hasher.finalize(), params.n)
}

/// The node above node `r` and its sibling.
pub(crate) fn hash_parent(params: &Params, id: &KeyId, r: u32, value: &Val, sibling: &Val) -> Val
    ensures node { result ≡ parent_node params.now id.now r value.now sibling.now }
    ensures length { length result ≡ params.now.n }
{
    if r % 2 == 0 {
        hash_inner(params, id, r / 2, value, sibling)
    } else {
        hash_inner(params, id, r / 2, sibling, value)
    }
}
