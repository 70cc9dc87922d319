//! The messages that a trustee may answer for, in a book on a disk.
#![tactic(auto)]

mod book;
mod faults;

pub use book::Book;
pub use faults::BookFault;
pub use trustee_core::laws::only_approved;
pub use trustee_core::{Approved, Denial, decide_approved};
