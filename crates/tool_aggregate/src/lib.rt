//! The command that signs for clients over the ports of a net.
#![tactic(auto)]

mod command;
pub mod laws;
mod serving;

pub use command::aggregate;
