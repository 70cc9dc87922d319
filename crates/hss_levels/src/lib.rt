//! HSS keys and signatures: levels of LMS keys, each signed by the one above it (RFC 8554 section 6).
#![tactic(auto)]

mod faults;
mod hss_key;
mod joining;
mod key_layout;
pub mod laws;
mod parts;
mod verification;

pub use faults::{HssFault, HssKeyFault};
pub use hss_key::HssKey;
pub use joining::join_two;
pub use key_layout::read_hss_key;
pub use verification::{HssVerdict, hss_verify};
