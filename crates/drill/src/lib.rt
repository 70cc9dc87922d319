//! A drill: sessions of an aggregator and the trustees that they ask, through losses, repeats, crashes and restarts
//! that are drawn from a number, all in memory.
#![tactic(auto)]

mod asks;
mod dealing;
mod desk;
mod events;
mod openings;
mod replies;
mod run;
mod seat;
mod start;
mod state;
mod steps;
mod tally;

pub use drill_schedule::Summary;
pub use run::{Drilled, run_drill};
