//! What is left of any command of the tool if nothing outside fails, and what follows from serving clients.
#![tactic(auto)]

pub mod clients;
pub mod laws;
