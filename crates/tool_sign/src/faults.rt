//! Why a session gives no signature, as ends.

ghost use Rattle.std.specs.Prelude.{◌≡◌};
ghost use Rattle.tool_base.specs.Endings.{ending};
ghost use Rattle.tool_sign.specs.Faults.{end_of_fault, end_of_session, end_of_table};

use aggregator_session::SignFault;
use leaf_table::TableFault;
use session_core::SessionFault;
use tool_base::{DAMAGED, Ending, Unsigned};

/// The end if a session gave no signature. A command's table has no lock, so no turn of it is ever used up: that is
/// told as want of memory, which claims nothing about store, net or members.
pub(crate) fn end_of_fault(fault: SignFault) -> Ending
    ensures { ending result ≡ end_of_fault fault }
{
    match fault {
        SignFault::TooLong { got } => Ending::TooLong { got: got as u64 },
        SignFault::Worn | SignFault::NoMemory => Ending::NoMemory,
        SignFault::Table(fault) => end_of_table(fault),
        SignFault::Lost { member, round, .. } => {
            Ending::NotSigned(Unsigned::Missing { member, round })
        }
        SignFault::Stray { member, round } => Ending::NotSigned(Unsigned::Stray { member, round }),
        SignFault::Session(fault) => end_of_session(fault),
    }
}

/// The end if no leaf was leased.
fn end_of_table(fault: TableFault) -> Ending
    ensures { ending result ≡ end_of_table fault }
{
    match fault {
        TableFault::NotACoalition => Ending::NotSigned(Unsigned::NotACoalition),
        TableFault::Device => Ending::DeviceFailed,
        TableFault::Damaged { .. } => Ending::NotLoaded { fault: DAMAGED },
        TableFault::NoLeaf { coalition } => Ending::NotSigned(Unsigned::NoLeaf { coalition }),
    }
}

/// The end if a session has this fault. A session that is run over links never misses a reply without losing its
/// member first; should it, the member gave no reply, and the end says so.
fn end_of_session(fault: SessionFault) -> Ending
    ensures { ending result ≡ end_of_session fault }
{
    match fault {
        SessionFault::Missing { member, round } => {
            Ending::NotSigned(Unsigned::Missing { member, round })
        }
        SessionFault::SpentLeaf { leaf, member, .. } => {
            Ending::NotSigned(Unsigned::SpentLeaf { leaf, member })
        }
        SessionFault::WrongCheck { leaf, member } => {
            Ending::NotSigned(Unsigned::WrongCheck { leaf, member })
        }
        SessionFault::WrongRoot { leaf, got, want } => {
            Ending::NotSigned(Unsigned::WrongRoot { leaf, got, want })
        }
        SessionFault::MemberRefused { member, code } => {
            Ending::NotSigned(Unsigned::Refused { member, code })
        }
        SessionFault::Reference => Ending::DeviceFailed,
        SessionFault::NoMemory => Ending::NoMemory,
    }
}
