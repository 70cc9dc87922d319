//! Faults of signing, as a client is told them.

ghost use Rattle.std.specs.Prelude.{◌≡◌};
ghost use Rattle.aggregator_node.specs.Failures.{failure, failure_of, session_failure, table_failure};

use aggregator_session::SignFault;
use leaf_table::TableFault;
use round_frames::Failure;
use session_core::SessionFault;

/// What a client is told about a fault: the status with which a run of the tool would have ended, and what it names.
pub fn failure_of(fault: &SignFault) -> Failure
    ensures { result ≡ failure_of fault.now }
{
    match fault {
        SignFault::TooLong { .. } => failure(12, 0, 0, 0),
        SignFault::Worn => failure(16, 0, 0, 0),
        SignFault::Table(fault) => table_failure(fault),
        SignFault::Lost { member, round, .. } => failure(6, *member, *round, 0),
        SignFault::Stray { member, round } => failure(11, *member, *round, 0),
        SignFault::Session(fault) => session_failure(fault),
        SignFault::NoMemory => failure(14, 0, 0, 0),
    }
}

/// What a client is told if no leaf was leased.
fn table_failure(fault: &TableFault) -> Failure
    ensures { result ≡ table_failure fault.now }
{
    match fault {
        TableFault::NotACoalition => failure(18, 0, 0, 0),
        TableFault::Device => failure(10, 0, 0, 0),
        TableFault::Damaged { .. } => failure(13, 0, 0, 0),
        TableFault::NoLeaf { .. } => failure(9, 0, 0, 0),
    }
}

/// What a client is told about a session's fault.
fn session_failure(fault: &SessionFault) -> Failure
    ensures { result ≡ session_failure fault.now }
{
    match fault {
        SessionFault::Missing { member, round } => failure(6, *member, *round, 0),
        SessionFault::SpentLeaf { leaf, member, .. } => failure(7, *member, 0, *leaf),
        SessionFault::WrongCheck { leaf, member } => failure(8, *member, 0, *leaf),
        SessionFault::WrongRoot { leaf, .. } => failure(8, 0, 0, *leaf),
        SessionFault::MemberRefused { member, .. } => failure(11, *member, 0, 0),
        SessionFault::Reference => failure(10, 0, 0, 0),
        SessionFault::NoMemory => failure(14, 0, 0, 0),
    }
}

/// A failure of this status, with what it names.
fn failure(status: u8, member: u8, round: u8, leaf: u32) -> Failure
    ensures { result ≡ failure status member round leaf }
{
    Failure {
        status,
        member,
        round,
        leaf,
    }
}
