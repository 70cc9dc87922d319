//! The candidate for the root of a tree.

ghost use Rattle.std.specs.Prelude.{◌≡◌, ◌+◌, ◌*◌, ◌<◌, ◌^◌, length};
ghost use Rattle.merkle_path.specs.Nodes.{candidate_root};

use crate::nodes::{hash_leaf, hash_parent};
use lms_bytes::bytes::part;
use lms_bytes::{KeyId, Params, Val};

/// The candidate root, from the candidate K of leaf `q` and its path of `h` nodes of `n` bytes
/// (RFC 8554 section 5.4.2, Algorithm 6a).
pub fn root_from(params: &Params, id: &KeyId, q: u32, key: &Val, path: &[u8]) -> Val
    requires leaf { q < 2 ^ params.now.h }
    requires key { length key.now ≡ params.now.n }
    requires path { length path.now ≡ params.now.n * params.now.h }
    ensures root { result ≡ candidate_root params.now id.now q key.now path.now }
    ensures length { length result ≡ params.now.n }
{
    let n = params.n as usize;
    let mut r = params.leaves() + q;
    let mut node = hash_leaf(params, id, r, key);
    'levels: for level in 0..params.h {
        let sibling = Val::of(part(path, n * level as usize, n));
        node = hash_parent(params, id, r, &node, &sibling);
        r /= 2;
    }
    node
}
