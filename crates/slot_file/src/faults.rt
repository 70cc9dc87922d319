//! The answers of a cache of slots.

use crate::LoadFault;
use std::fmt::{self, Formatter, Write};
use thiserror::Error;

/// Writes that a slot is damaged, with the bytes of its gates.
pub(crate) fn show_damaged<W: Write>(
    slot: &u32,
    a: &u8,
    b: &u8,
    f: &mut Formatter<W>,
) -> fmt::Result {
    write!(
        f,
        "slot {slot} is damaged: gate A is {a:#04x}, and gate B is open with {b:#04x}"
    )
}

/// What settling has found.
#[derive(Clone, Copy, PartialEq, Eq)]
pub enum Settled {
    /// No put was in doubt.
    Nothing,
    /// The put in doubt was made.
    Made,
    /// It was not made.
    NotMade,
}

/// Why a put is still in doubt.
#[derive(Clone, Copy, PartialEq, Eq, Error)]
pub enum SettleFault {
    /// The disk failed.
    #[error("a call of the disk failed while a put was settled")]
    Device,
    /// The slot is neither as before the put nor as after it.
    #[error("slot {slot} is neither as before its put nor as after it: its gates are {a:#04x} and {b:#04x}")]
    Damaged {
        /// The slot.
        slot: u32,
        /// The byte of gate A, 0 if it is closed and the slot is not damaged.
        a: u8,
        /// The byte of gate B, 0 if it is closed.
        b: u8,
    },
}

impl fmt::Debug for SettleFault {
    /// Writes the line that is displayed.
    fn fmt<W: Write>(&self, f: &mut Formatter<W>) -> fmt::Result {
        fmt::Display::fmt(self, f)
    }
}

/// Why a file of slots was not loaded, in the order of the tests.
#[derive(Clone, Copy, PartialEq, Eq, Error)]
pub enum CacheLoad {
    /// The file is not one of this header and these slots. The fault is not `LoadFault::Device`.
    #[error("the file of slots does not open: {0}")]
    Slots(LoadFault),
    /// Memory ran out.
    #[error("out of memory")]
    NoMemory,
    /// The first slot whose gate B is open and whose gate A is closed.
    #[error(fmt = show_damaged)]
    Damaged {
        /// The slot.
        slot: u32,
        /// The byte of gate A.
        a: u8,
        /// The byte of gate B.
        b: u8,
    },
    /// The disk failed.
    #[error("a call of the disk failed while its slots were loaded")]
    Device,
}

impl fmt::Debug for CacheLoad {
    /// Writes the line that is displayed.
    fn fmt<W: Write>(&self, f: &mut Formatter<W>) -> fmt::Result {
        fmt::Display::fmt(self, f)
    }
}
