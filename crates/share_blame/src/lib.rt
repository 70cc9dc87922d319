//! Commitments to the masks of a dealing, and the members whose replies differ from them.
#![tactic(auto)]

mod blame;
mod commit_file;
mod commits;
mod faults;
pub mod laws;
mod places;

pub use blame::blamed;
pub use commit_file::commitments;
pub use commits::Commits;
pub use faults::{CommitFault, CommitsFault};
