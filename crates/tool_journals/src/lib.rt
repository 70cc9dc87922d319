//! Commands that make, copy and write files of slots: a trustee's journal, an aggregator's leaf table, and a book of
//! approved messages.
#![tactic(auto)]

mod blank;
mod book;
mod commands;
mod faults;
mod old_journal;

pub use commands::{approve_message, enrol_file, migrate_journal};
