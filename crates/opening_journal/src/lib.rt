//! The journal of a trustee: which leaf is bound to which message, and which was opened with which randomizer and
//! digest.
#![tactic(auto)]

mod answers;
mod bodies;
mod entry;
mod faults;
mod journal;
mod listing;
mod steps;

pub use entry::Entry;
pub use faults::{Entered, JournalFault, JournalLoad};
pub use journal::Journal;
