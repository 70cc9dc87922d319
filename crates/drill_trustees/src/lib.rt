//! The trustees of a drill: three trustees of a key with 32 leaves, whose journals are on disks in memory.
#![tactic(auto)]

mod living;
mod member;
mod trustees;

pub use member::{Answer, Member};
pub use trustees::Trustees;
