//! Faults of loading a journal as ends.

ghost use Rattle.std.specs.Prelude.{◌≡◌};
ghost use Rattle.tool_base.specs.Endings.{ending};
ghost use Rattle.tool_trustee.specs.Loads.{end_of_journal};

use opening_journal::JournalLoad;
use tool_base::{DAMAGED, Ending, load_fault_number};

/// The end if a journal is not loaded.
pub(crate) fn end_of_journal(fault: JournalLoad) -> Ending
    ensures { ending result ≡ end_of_journal fault }
{
    match fault {
        JournalLoad::Slots(fault) => Ending::NotLoaded {
            fault: load_fault_number(fault),
        },
        JournalLoad::Damaged { .. } => Ending::NotLoaded { fault: DAMAGED },
        JournalLoad::Device => Ending::DeviceFailed,
        JournalLoad::NoMemory => Ending::NoMemory,
    }
}
