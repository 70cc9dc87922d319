//! The decisions of a trustee, alone or with a list of approved messages, and the clock by which it dates them.
#![tactic(auto)]

mod approval;
mod approved;
mod clock;
mod denial;
mod grant;
mod keeper;
mod kept;
pub mod laws;
mod masks;
mod note;
mod refusal;
mod trustee;

pub use approval::decide_approved;
pub use approved::Approved;
pub use clock::Clock;
pub use denial::Denial;
pub use grant::{Grant, mask_count, release};
pub use keeper::KeyKeeper;
pub use kept::TrusteeName;
pub use masks::GrantMasks;
pub use note::{Note, NoteLog};
pub use refusal::Refusal;
pub use trustee::Trustee;

/// The longest message that a trustee answers for, in bytes.
pub const MESSAGE_LIMIT: u32 = lms_bytes::LIMIT;
