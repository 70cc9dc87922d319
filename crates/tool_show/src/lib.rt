//! The command `show`: what a file holds, as lines of text.
#![tactic(auto)]

mod any_key;
mod bytes_shown;
mod counts;
mod head_shown;
mod kind;
mod lines;
mod listing;
mod loading;
mod moment;
mod show;
mod slot_lines;
mod words;

pub use kind::SlotKind;
pub use listing::{ListingFault, list_slots};
pub use show::show_file;
