//! Faults of loading as ends.

ghost use Rattle.std.specs.Prelude.{◌≡◌};
ghost use Rattle.tool_base.specs.Endings.{ending};
ghost use Rattle.tool_base.specs.Loads.{end_of_slots, load_fault_number};

use crate::Ending;
use slot_file::{CacheLoad, LoadFault};

/// The number that users see of a damaged slot.
pub const DAMAGED: u8 = 6;

/// The number that users see of a fault of a file's header or length.
pub fn load_fault_number(fault: LoadFault) -> u8
    ensures { result ≡ load_fault_number fault }
{
    match fault {
        LoadFault::Length { .. } => 1,
        LoadFault::NotReady { .. } => 2,
        LoadFault::Version { .. } => 3,
        LoadFault::Foreign { .. } => 4,
        LoadFault::Device => 5,
    }
}

/// The end if a leaf table or a book is not loaded.
pub fn end_of_slots(fault: CacheLoad) -> Ending
    ensures { ending result ≡ end_of_slots fault }
{
    match fault {
        CacheLoad::Slots(fault) => Ending::NotLoaded {
            fault: load_fault_number(fault),
        },
        CacheLoad::Damaged { .. } => Ending::NotLoaded { fault: DAMAGED },
        CacheLoad::Device => Ending::DeviceFailed,
        CacheLoad::NoMemory => Ending::NoMemory,
    }
}
