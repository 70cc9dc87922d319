//! Commands that serve: a trustee over the ports of a net, and its clocks.
#![tactic(auto)]

mod clocks;
mod keeping;
pub mod laws;
mod loads;
mod nets;
mod trustee;

pub use clocks::{Clocks, MemClock, MemClocks, SystemClock, SystemClocks};
pub use trustee::serve_trustee;
