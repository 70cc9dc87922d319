//! The answers of a book.

ghost use Rattle.std.specs.Prelude.{◌≡◌};
ghost use Rattle.approval_book.specs.Listed.{unsettled_by};

use slot_file::SettleFault;
use thiserror::Error;

/// Why a message is not listed, in the order of the tests.
#[derive(Clone, Copy, Debug, PartialEq, Eq, Error)]
pub enum BookFault {
    /// The disk failed. The message may or may not be listed; the next call finds out.
    #[error("a call of the disk failed")]
    Device,
    /// A slot is neither as before its put nor as after it: its two gates.
    #[error("slot {slot} of the book is damaged: its gates are {a:#04x} and {b:#04x}")]
    Damaged {
        /// The slot.
        slot: u32,
        /// The byte of gate A.
        a: u8,
        /// The byte of gate B.
        b: u8,
    },
    /// The message is not listed, and no slot is free.
    #[error("the book is full")]
    Full,
}

/// Why a book is not settled.
pub(crate) fn unsettled(fault: SettleFault) -> BookFault
    ensures { result ≡ unsettled_by fault }
{
    match fault {
        SettleFault::Device => BookFault::Device,
        SettleFault::Damaged { slot, a, b } => BookFault::Damaged { slot, a, b },
    }
}
