//! Merkle trees over the leaves of a key, and the paths from a leaf to the root.
#![tactic(auto)]

pub mod laws;
mod nodes;
mod root;
mod tree;

pub use root::root_from;
pub use tree::Tree;

/// The tag of what is hashed for a leaf of the tree (RFC 8554 section 5.3).
pub const D_LEAF: u16 = 0x8282;

/// The tag of what is hashed for an inner node of the tree (RFC 8554 section 5.3).
pub const D_INTR: u16 = 0x8383;
