//! A lock round one value, whose turns are drawn by number. Its passes keep what they have seen of the value, and
//! passes that have met have one log.
#![tactic(auto)]

mod kept;
mod lock;
mod patience;
mod plays;
mod steps;
mod turns_only;
mod view;

pub use kept::Kept;
pub use lock::{Pass, TurnLock, Worn};
pub use turns_only::TurnsOnly;
