//! Coalitions: the sets of k of n trustees in lexicographic order, their numbers, and the leaves of each.
#![tactic(auto)]

pub mod laws;
mod members;
mod plan;

pub use members::Members;
pub use plan::{Plan, PlanFault};
