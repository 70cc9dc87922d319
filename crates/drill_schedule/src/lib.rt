//! The schedule of a drill, drawn from a number, and its outcome.
#![tactic(auto)]

mod draws;
mod event;
mod summary;

pub use draws::{ENTROPY, Schedule, draw_entropy, message_of};
pub use event::Event;
pub use summary::Summary;
