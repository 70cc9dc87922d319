//! The command that signs and names the members whose replies are not what the dealer committed to.
#![tactic(auto)]

mod command;
mod commits;
pub mod laws;
mod names;

pub use command::blame;
pub use commits::view_commits;
pub use names::name_blamed;
