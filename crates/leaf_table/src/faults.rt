//! The answers of a leaf table.

ghost use Rattle.std.specs.Prelude.{◌≡◌};

use slot_file::SettleFault;
use std::fmt::{self, Formatter, Write};
use thiserror::Error;

/// Why no leaf is leased or burnt, in the order of the tests.
#[derive(Clone, Copy, PartialEq, Eq, Error)]
pub enum TableFault {
    /// The members are no coalition of the plan.
    #[error("the members are no coalition of the plan")]
    NotACoalition,
    /// The disk failed. The entry may or may not have been made; the next call finds out.
    #[error("a call of the table's disk failed")]
    Device,
    /// The slot of a leaf is neither as before its entry nor as after it: its two gates.
    #[error("the slot of leaf {leaf} is neither as before its entry nor as after it: gates {a:#04x} and {b:#04x}")]
    Damaged {
        /// The leaf.
        leaf: u32,
        /// The byte of gate A, 0 if it is closed and the slot is not damaged.
        a: u8,
        /// The byte of gate B, 0 if it is closed.
        b: u8,
    },
    /// No leaf of the coalition is leased for the message, and none is free.
    #[error("coalition {coalition} has no leaf for the message")]
    NoLeaf {
        /// The coalition's number.
        coalition: u32,
    },
}

impl fmt::Debug for TableFault {
    /// Writes the line that is displayed.
    fn fmt<W: Write>(&self, f: &mut Formatter<W>) -> fmt::Result {
        fmt::Display::fmt(self, f)
    }
}

impl TableFault {
    ghost use Rattle.leaf_table.specs.Faults.{table_fault};

    /// Why the entry in doubt is not settled.
    pub(crate) fn of_settling(fault: SettleFault) -> TableFault
        ensures { result ≡ table_fault fault }
    {
        match fault {
            SettleFault::Device => TableFault::Device,
            SettleFault::Damaged { slot, a, b } => TableFault::Damaged { leaf: slot, a, b },
        }
    }
}
