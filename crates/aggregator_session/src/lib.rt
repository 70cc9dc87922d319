//! The sessions of an aggregator over links that it dials, each with a leaf that is leased in a table.
#![tactic(auto)]

mod asks;
mod desk;
mod fault;
pub mod laws;
mod session;
mod sign;

pub use desk::{Address, Desk};
pub use fault::{SignFault, Why};
pub use session::run_session;
pub use sign::{Ended, Signed, run_leased, run_on, sign_leased, signed_with, spent_by};
