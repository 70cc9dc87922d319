//! One-time signatures: hash chains, message digests, and the public values of leaves.
#![tactic(auto)]

mod chains;
mod leaf_key;
mod message_hash;

pub use chains::{chain, secret};
pub use leaf_key::{LeafKeyHash, leaf_key_from, leaf_key_of};
pub use message_hash::MessageHash;

/// The tag of what is hashed for the public value of a leaf (RFC 8554 section 4.3).
pub const D_PBLC: u16 = 0x8080;

/// The tag of what is hashed for the digest of a message (RFC 8554 section 4.5).
pub const D_MESG: u16 = 0x8181;
