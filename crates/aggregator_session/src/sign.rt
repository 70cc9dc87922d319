//! A leaf is leased, a session is run with it, and it is burnt if a member has spent it.

ghost use Rattle.std.specs.Prelude.{◌≡◌, ◌≤◌, ◌<◌, ◌^◌, length, IfErr, IfOk, Err, None, Ok};
ghost use Rattle.aggregator_session.specs.Runs.{bytes_in, reads_of};
ghost use Rattle.leaf_table.specs.Entries.{IsLeased, map_of};
ghost use Rattle.leaf_table.specs.Table.{Stays, plan_of, state_of};
ghost use Rattle.aggregator_session.specs.Causes.{PortCauses, ReferenceCauses};
ghost use Rattle.aggregator_session.specs.Desks.{ReadsFor, desk_state};
ghost use Rattle.aggregator_session.specs.Ended.{LeasedTo, RunsTo};
ghost use Rattle.aggregator_session.specs.Signing.{SignsLeased, Spends, signature_in, signed_with, spent_by};
ghost use Rattle.aggregator_session.specs.Signing.{to_sign};
ghost use Rattle.aggregator_session.specs.Tables.{table_seen};
ghost use Rattle.lms_bytes.specs.MessageId.{message_id, message_id_bytes};
ghost use Rattle.lms_verify.specs.Accepts.{AcceptsAt};

use crate::{Desk, SignFault, run_session};
use coalition_map::Members;
use disk_trait::Disk;
use leaf_table::Table;
use lms_bytes::{LIMIT, MessageId};
use reference_value::Cells;
use session_core::{Session, SessionFault};
use std::alloc::Global;
use stream_io::Port;

/// A signature, and the leaf that signed.
#[derive(Debug, Drop)]
pub struct Signed {
    /// The leaf.
    pub leaf: u32,
    /// The bytes of the signature.
    pub bytes: Vec<u8>,
}

/// What came of a message that was to be signed, and the session as it stands at its end.
#[derive(Drop)]
pub struct Ended<T> {
    /// What came of it.
    pub outcome: T,
    /// The session with all that it kept, if one was begun.
    pub session: Option<Session>,
}

/// Leases a leaf of these members for the message, runs a session with it, and burns it if a member has spent it. A
/// lease that was made stays. What comes of the burning does not change the answer: a leaf that could not be burnt is
/// burnt by the next session that meets it.
pub fn sign_leased<R: Cells, D: Disk, P: Port>(
    alloc: Global,
    desk: &Desk,
    cells: &mut R,
    table: &mut Table<D>,
    port: &mut P,
    members: Members,
    message: &[u8],
) -> Result<Signed, SignFault>
    requires plan { plan_of table.old ≡ desk.now.plan.now }
    requires cells { ReadsFor R.Cells.own desk.now cells.old }
    ensures signs { SignsLeased (to_sign R.Cells.own R.Faults desk.now cells.old cells.new members message.now)
        (table_seen table.old) (P.state port.old) (table_seen table.new) (P.state port.new) (signature_in result) }
    ensures accepted { IfOk result (λ signed.
        AcceptsAt desk.now.key.now message.now signed.bytes.items signed.leaf) }
    ensures port { PortCauses message.now (P.state port.old) (P.state port.new) result }
    ensures cells { ReferenceCauses R.Cells.own R.Faults cells.old cells.new result }
    ensures table { Stays table.old table.new }
{
    let Ended { outcome, .. } = run_leased(alloc, desk, cells, table, port, members, message);
    outcome
}

/// Does what `sign_leased` does, and also gives the session as it stands at its end, if one was begun.
pub fn run_leased<R: Cells, D: Disk, P: Port>(
    alloc: Global,
    desk: &Desk,
    cells: &mut R,
    table: &mut Table<D>,
    port: &mut P,
    members: Members,
    message: &[u8],
) -> Ended<Result<Signed, SignFault>>
    requires plan { plan_of table.old ≡ desk.now.plan.now }
    requires cells { ReadsFor R.Cells.own desk.now cells.old }
    ensures signs { LeasedTo (to_sign R.Cells.own R.Faults desk.now cells.old cells.new members message.now)
        (table_seen table.old) (P.state port.old) (table_seen table.new) (P.state port.new)
        (signature_in result.outcome) result.session }
    ensures accepted { IfOk result.outcome (λ signed.
        AcceptsAt desk.now.key.now message.now signed.bytes.items signed.leaf) }
    ensures port { PortCauses message.now (P.state port.old) (P.state port.new) result.outcome }
    ensures cells { ReferenceCauses R.Cells.own R.Faults cells.old cells.new result.outcome }
    ensures table { Stays table.old table.new }
{
    if message.len() > LIMIT as usize {
        return not_begun(SignFault::TooLong { got: message.len() });
    }
    let id = MessageId::of(message);
    let leaf = match table.lease(members, &id) {
        Ok(leaf) => leaf,
        Err(fault) => return not_begun(SignFault::Table(fault)),
    };
    let Ended { outcome, session } = run_on(alloc, desk, cells, port, leaf, &id, message);
    burn_spent(table, leaf, &id, spent_by(&outcome));
    Ended {
        outcome: signed_with(leaf, outcome),
        session,
    }
}

/// The end if no session was begun.
fn not_begun(fault: SignFault) -> Ended<Result<Signed, SignFault>>
    ensures { (result.outcome ≡ Err fault) × (result.session ≡ None) }
{
    Ended {
        outcome: Err(fault),
        session: None,
    }
}

/// A signature with the leaf that signed, or the fault.
pub fn signed_with(leaf: u32, outcome: Result<Vec<u8>, SignFault>) -> Result<Signed, SignFault>
    ensures answer { signature_in result ≡ signed_with leaf (bytes_in outcome) }
    ensures ok { IfOk result (λ signed. (outcome ≡ Ok signed.bytes) × (signed.leaf ≡ leaf)) }
    ensures err { IfErr result (λ fault. outcome ≡ Err fault) }
{
    match outcome {
        Ok(bytes) => Ok(Signed { leaf, bytes }),
        Err(fault) => Err(fault),
    }
}

/// Runs a session with a leaf that was leased for the message, and also gives it as it stands at its end, if one was
/// begun.
pub fn run_on<R: Cells, P: Port>(
    alloc: Global,
    desk: &Desk,
    cells: &mut R,
    port: &mut P,
    leaf: u32,
    id: &MessageId,
    message: &[u8],
) -> Ended<Result<Vec<u8>, SignFault>>
    requires leaf { leaf < 2 ^ desk.now.plan.now.h }
    requires id { id.now ≡ message_id message.now }
    requires limit { length message.now ≤ 16777216 }
    requires cells { ReadsFor R.Cells.own desk.now cells.old }
    ensures runs { RunsTo (desk_state desk.now) (reads_of R.Cells.own R.Faults cells.old cells.new) leaf message.now
        (P.state port.old) (P.state port.new) (bytes_in result.outcome) result.session }
    ensures accepted { IfOk result.outcome (λ bytes. AcceptsAt desk.now.key.now message.now bytes.items leaf) }
    ensures port { PortCauses message.now (P.state port.old) (P.state port.new) result.outcome }
    ensures cells { ReferenceCauses R.Cells.own R.Faults cells.old cells.new result.outcome }
{
    let Ok(mut session) = Session::start(alloc, desk.key, desk.plan, leaf, id) else {
        return Ended {
            outcome: Err(SignFault::NoMemory),
            session: None,
        };
    };
    let outcome = run_session(alloc, desk, cells, port, &mut session, message);
    Ended {
        outcome,
        session: Some(session),
    }
}

/// The member that has spent the leaf of a session for something else, if this is what came of the session.
pub fn spent_by(outcome: &Result<Vec<u8>, SignFault>) -> Option<u8>
    ensures { result ≡ spent_by (bytes_in outcome.now) }
{
    match outcome {
        Err(SignFault::Session(SessionFault::SpentLeaf { member, .. })) => Some(*member),
        _ => None,
    }
}

/// Burns a leaf that was leased for this message, if a member has spent it.
fn burn_spent<D: Disk>(table: &mut Table<D>, leaf: u32, id: &MessageId, spent: Option<u8>)
    requires within { leaf < 2 ^ (plan_of table.old).h }
    requires leased { map_of (state_of table.old).entries leaf ≡ IsLeased (message_id_bytes id.now) }
    ensures spends { Spends (table_seen table.old) leaf id.now spent (table_seen table.new) }
    ensures stays { Stays table.old table.new }
{
    if let Some(member) = spent {
        let _ = table.burn(leaf, id, member);
    }
}
