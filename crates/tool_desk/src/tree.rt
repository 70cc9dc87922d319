//! The tree of a dealing.

ghost use Rattle.std.specs.Prelude.{◌≡◌, length};

use lms_bytes::{KeyId, Params};
use merkle_path::Tree;

/// What a tree file holds.
#[derive(Drop)]
pub struct DealtTree {
    /// The parameter set.
    pub params: Params,
    /// The identifier of the key.
    pub id: KeyId,
    /// The tree with all its nodes.
    pub nodes: Tree,
    pub ghost hash_length: { nodes.n ≡ params.n },
    pub ghost height: { nodes.h ≡ params.h },
    pub ghost id_length: { length id ≡ 16 },
}
