//! The leaf table of an aggregator: which leaf is leased for which message, and which is burnt.
#![tactic(auto)]

mod bodies;
mod faults;
mod index;
pub mod laws;
mod lease;
mod listing;
mod table;

pub use faults::TableFault;
pub use lease::Lease;
pub use table::{Table, TableName};
