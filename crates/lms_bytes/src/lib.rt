//! The LMS parameter sets, and how keys, digests and signatures lie in bytes.
#![tactic(auto)]

mod ask;
pub mod bytes;
mod digits;
mod faults;
mod key_layout;
mod message;
mod params;
mod public_key;
mod signature_layout;
mod val;

pub use ask::{Ask, ReplyHead, Second};
pub use digits::digit;
pub use faults::{KeyFault, SigFault};
pub use key_layout::{read_public, write_public};
pub use message::{IdHash, LIMIT, MessageId};
pub use params::{LmotsRow, LmsRow, Params};
pub use public_key::{KeyId, PublicKey};
pub use signature_layout::{SigView, read_signature, write_layout};
pub use val::Val;
