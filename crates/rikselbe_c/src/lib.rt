//! Verification of LMS and HSS signatures, for programs in C: `include/rikselbe.h` says the same in C's words.
#![tactic(auto)]

mod answers;
mod hss_stream;
mod lms_stream;
pub mod streaming;
pub mod whole;
