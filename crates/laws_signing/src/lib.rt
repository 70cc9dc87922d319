//! That a signature comes if all is well, and runs for which premises hold.
#![tactic(auto)]

pub mod laws;
pub mod witness;
