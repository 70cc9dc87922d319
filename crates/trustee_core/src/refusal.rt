//! Why a trustee grants nothing.

ghost use Rattle.std.specs.Prelude.{◌≡◌};

use crate::MESSAGE_LIMIT;
use opening_journal::JournalFault;
use thiserror::Error;

/// Why an ask is refused, in the order of the tests.
#[derive(Clone, Copy, Debug, PartialEq, Eq, Error)]
pub enum Refusal {
    /// The ask is for another key.
    #[error("the ask is for another key than the trustee's")]
    ForeignKey,
    /// The key has no such leaf.
    #[error("the key has no such leaf")]
    NoSuchLeaf,
    /// The trustee is not in the leaf's coalition.
    #[error("the trustee is not in the leaf's coalition")]
    NotMember,
    /// The message is longer than `MESSAGE_LIMIT`.
    #[error("the message has {got} bytes, and at most {max} are signed", max = MESSAGE_LIMIT)]
    TooLong {
        /// Its length in bytes.
        got: u32,
    },
    /// The check tag is not this trustee's for the randomizer.
    #[error("the check tag is not that of the randomizer for this trustee")]
    BadCheck,
    /// The journal makes no entry.
    #[error("{0}")]
    Journal(JournalFault),
}

impl Refusal {
    ghost use Rattle.trustee_core.specs.Codes.{refusal_code};

    /// The number by which an aggregator knows it: its place in the order of the tests, from 1 on.
    pub fn code(&self) -> u8
        ensures { result ≡ refusal_code self.now }
    {
        match self {
            Refusal::ForeignKey => 1,
            Refusal::NoSuchLeaf => 2,
            Refusal::NotMember => 3,
            Refusal::TooLong { .. } => 4,
            Refusal::BadCheck => 5,
            Refusal::Journal(JournalFault::Device) => 6,
            Refusal::Journal(JournalFault::Damaged { .. }) => 7,
            Refusal::Journal(JournalFault::NotBound) => 8,
            Refusal::Journal(JournalFault::Spent { .. }) => 9,
            Refusal::Journal(JournalFault::OtherDigest { .. }) => 10,
        }
    }
}
