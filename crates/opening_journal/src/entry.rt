//! The entries of a journal.

ghost use Rattle.std.specs.Prelude.{◌≡◌};
ghost use Rattle.opening_journal.specs.Entries.{leaf_of};

use lms_bytes::{MessageId, Val};

/// An entry of a journal.
#[derive(Clone, Copy, Debug, PartialEq, Eq)]
pub enum Entry {
    /// The leaf answers for this message alone.
    Bound {
        /// The leaf.
        leaf: u32,
        /// The message's id.
        message: MessageId,
    },
    /// The leaf was opened for its message with this randomizer C and digest Q.
    Opened {
        /// The leaf.
        leaf: u32,
        /// The message's id.
        message: MessageId,
        /// The randomizer.
        c: Val,
        /// The digest.
        digest: Val,
        /// When it was opened, in seconds since the start of 1970.
        moment: u64,
    },
}

/// The leaf of an entry.
pub(crate) fn leaf_of(entry: &Entry) -> u32
    ensures { result ≡ leaf_of entry.now }
{
    match *entry {
        Entry::Bound { leaf, .. } | Entry::Opened { leaf, .. } => leaf,
    }
}
