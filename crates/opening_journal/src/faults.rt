//! The answers of a journal.

ghost use Rattle.std.specs.Prelude.{◌≡◌};
ghost use Rattle.opening_journal.specs.Faults.{journal_fault, journal_load};

use lms_bytes::{MessageId, Val};
use slot_file::{CacheLoad, LoadFault, SettleFault};
use thiserror::Error;

/// Whether an entry was made.
#[derive(Clone, Copy, Debug, PartialEq, Eq)]
pub enum Entered {
    /// It was made now.
    New,
    /// It was there.
    Old,
}

/// Why no entry was made, in the order of the tests.
#[derive(Clone, Copy, Debug, PartialEq, Eq, Error)]
pub enum JournalFault {
    /// The disk failed. The entry may or may not have been made; the next call finds out.
    #[error("a call of the journal's disk failed")]
    Device,
    /// The slot of a leaf is neither as before its entry nor as after it: its two gates.
    #[error("the slot of leaf {leaf} is neither as before its entry nor as after it: gates {a:#04x} and {b:#04x}")]
    Damaged {
        /// The leaf.
        leaf: u32,
        /// The byte of gate A, 0 if it is closed and the slot is not damaged.
        a: u8,
        /// The byte of gate B, 0 if it is closed.
        b: u8,
    },
    /// The leaf is free, and so is not opened.
    #[error("the leaf is bound to no message")]
    NotBound,
    /// The leaf is bound to another message.
    #[error("the leaf is bound to another message, of {} bytes", kept.length)]
    Spent {
        /// The id of the message that it is bound to.
        kept: MessageId,
    },
    /// The leaf was opened with another randomizer or digest.
    #[error("the leaf was opened with another randomizer or digest")]
    OtherDigest {
        /// The randomizer that it was opened with.
        c: Val,
        /// The digest.
        digest: Val,
    },
}

/// Why a journal was not loaded, in the order of the tests.
#[derive(Clone, Copy, Debug, PartialEq, Eq, Error)]
pub enum JournalLoad {
    /// The file is no file of this header and these slots. The fault is not `LoadFault::Device`.
    #[error("the journal's file does not open: {0}")]
    Slots(LoadFault),
    /// The first slot whose gate B is open and gate A is not, by its leaf and its two gates.
    #[error("the slot of leaf {leaf} is damaged: gate A is {a:#04x}, and gate B is open with {b:#04x}")]
    Damaged {
        /// The leaf.
        leaf: u32,
        /// The byte of gate A.
        a: u8,
        /// The byte of gate B.
        b: u8,
    },
    /// The disk failed.
    #[error("a call of the journal's disk failed while it was loaded")]
    Device,
    /// Want of memory.
    #[error("out of memory")]
    NoMemory,
}

/// Why the entry in doubt is not settled.
pub(crate) fn journal_fault(fault: SettleFault) -> JournalFault
    ensures { result ≡ journal_fault fault }
{
    match fault {
        SettleFault::Device => JournalFault::Device,
        SettleFault::Damaged { slot, a, b } => JournalFault::Damaged { leaf: slot, a, b },
    }
}

/// Why a journal is not loaded if its slots are not.
pub(crate) fn journal_load(fault: CacheLoad) -> JournalLoad
    ensures { result ≡ journal_load fault }
{
    match fault {
        CacheLoad::Slots(fault) => JournalLoad::Slots(fault),
        CacheLoad::NoMemory => JournalLoad::NoMemory,
        CacheLoad::Damaged { slot, a, b } => JournalLoad::Damaged { leaf: slot, a, b },
        CacheLoad::Device => JournalLoad::Device,
    }
}
