//! Verification of LMS signatures.
#![tactic(auto)]

pub mod laws;
mod verification;

pub use verification::{Verdict, verify, verify_digest};
