//! The reference value: the chain values of every leaf, masked for its members, and how masks are joined to them.
#![tactic(auto)]

mod cells;
mod committed;
mod joins;
pub mod laws;
mod layout;
mod leaf;
mod paged;
mod whole;

pub use cells::{Cells, RefFault};
pub use committed::build_committed_leaf;
pub use joins::{join_chains, join_randomizer};
pub use layout::rank;
pub use leaf::build_leaf;
pub use mask_prf::leaf_bytes;
pub use paged::{Paged, read_behind_header};
pub use whole::Whole;
