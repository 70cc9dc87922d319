//! Faults of slot files as ends.

ghost use Rattle.std.specs.Prelude.{◌≡◌};
ghost use Rattle.tool_base.specs.Endings.{ending};
ghost use Rattle.tool_journals.specs.Faults.{end_of_add, end_of_copy, end_of_load, end_of_prepare};

use approval_book::BookFault;
use opening_journal::Entered;
use slot_file::{CopyFault, LoadFault, PrepareFault};
use tool_base::{Ending, load_fault_number};

/// The end if a blank file was not made on a disk. No disk that was just made holds bytes, if it tells them.
pub(crate) fn end_of_prepare(fault: PrepareFault) -> Ending
    ensures { ending result ≡ end_of_prepare fault }
{
    match fault {
        PrepareFault::NotEmpty { .. } => Ending::NotLoaded { fault: 7 },
        PrepareFault::Device => Ending::DeviceFailed,
    }
}

/// The end if a file of slots was not opened.
pub(crate) fn end_of_load(fault: LoadFault) -> Ending
    ensures { ending result ≡ end_of_load fault }
{
    match fault {
        LoadFault::Device => Ending::DeviceFailed,
        other => Ending::NotLoaded {
            fault: load_fault_number(other),
        },
    }
}

/// The end if slots were not copied. No disk that was just made holds bytes, if it tells them.
pub(crate) fn end_of_copy(fault: CopyFault) -> Ending
    ensures { ending result ≡ end_of_copy fault }
{
    match fault {
        CopyFault::NotEmpty { .. } => Ending::NotLoaded { fault: 7 },
        CopyFault::Damaged { .. } => Ending::NotLoaded { fault: 6 },
        CopyFault::Device => Ending::DeviceFailed,
    }
}

/// The end after a message was added to a book that was just loaded, and in which `slots` slots are then not free.
pub(crate) fn end_of_add(added: Result<Entered, BookFault>, slots: u32) -> Ending
    ensures { ending result ≡ end_of_add added slots }
{
    match added {
        Ok(_) => Ending::Approved { slots },
        Err(BookFault::Device) => Ending::DeviceFailed,
        Err(BookFault::Damaged { .. }) => Ending::NotLoaded { fault: 6 },
        Err(BookFault::Full) => Ending::BookFull,
    }
}
