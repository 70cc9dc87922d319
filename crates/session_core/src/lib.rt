//! One session of an aggregator: the replies of a leaf's coalition in two rounds, and the signature that they give.
#![tactic(auto)]

mod faults;
mod joining;
mod judging;
pub mod laws;
mod rounds;
mod seat;
mod session;
mod step;

pub use faults::{KeptValue, SessionFault};
pub use session::Session;
pub use step::Step;
