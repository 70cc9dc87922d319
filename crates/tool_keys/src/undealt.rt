//! Faults of a dealing as ends.

ghost use Rattle.std.specs.Prelude.{◌≡◌};
ghost use Rattle.tool_base.specs.Endings.{ending};
ghost use Rattle.tool_keys.specs.Undealt.{end_of_fault, end_of_onto};

use dealer::{DealFault, OntoFault};
use tool_base::{Ending, Undealt};

/// The end for a fault of a dealing.
pub(crate) fn end_of_fault(fault: DealFault) -> Ending
    ensures { ending result ≡ end_of_fault fault }
{
    match fault {
        DealFault::TooHigh { h } => Ending::NotDealt(Undealt::Height { h }),
        DealFault::TooWide => Ending::NotDealt(Undealt::Width),
        DealFault::BadEntropy { got, want } => Ending::NotDealt(Undealt::Entropy { got, want }),
        DealFault::SameKeys { t, u } => Ending::NotDealt(Undealt::Keys { t, u }),
        DealFault::NoMemory => Ending::NoMemory,
    }
}

/// The end for a fault of a dealing onto a disk.
pub(crate) fn end_of_onto(fault: OntoFault) -> Ending
    ensures { ending result ≡ end_of_onto fault }
{
    match fault {
        OntoFault::Deal(fault) => end_of_fault(fault),
        OntoFault::Device => Ending::DeviceFailed,
    }
}
