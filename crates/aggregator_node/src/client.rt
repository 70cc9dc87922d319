//! Connections of clients.

ghost use Rattle.std.specs.Prelude.{◌≡◌, ◌+◌, ◌≤◌, ◌<◌, ◌^◌, ◌++◌, Some, length, IfOk, IsOk, IsTrue};
ghost use Rattle.std.specs.Prelude.{Err, MatchResult};
ghost use Rattle.aggregator_node.specs.Clients.{HasAnswered, HasEnded, HasServed, IsUnread, StepEnds, end_after};
ghost use Rattle.aggregator_node.specs.Clients.{longest_reply, reply_frame};
ghost use Rattle.aggregator_node.specs.Ports.{reference_state};
ghost use Rattle.aggregator_node.specs.Turns.{IsIdle};
ghost use Rattle.aggregator_node.specs.Workers.{IsReady};
ghost use Rattle.disk_trait.specs.Faults.{HasCause};
ghost use Rattle.aggregator_session.specs.Desks.{desk_state};
ghost use Rattle.aggregator_session.specs.Signing.{signature_in};
ghost use Rattle.reference_value.specs.Stay.{CellsStay};
ghost use Rattle.stream_io.specs.Talk.{OnlyWrote, WrotePart};

use crate::failure::failure_of;
use crate::sign::sign_in_turns;
use aggregator_session::{Desk, SignFault, Signed};
use disk_trait::{Disk, Faults};
use leaf_table::Table;
use node_workers::{MOST_FRAMES, Served, ServedEnd, end_by};
use reference_value::Cells;
use round_frames::{FrameFault, next_request, write_failure, write_signature};
use session_core::SessionFault;
use std::alloc::Global;
use std::sync::Wait;
use stream_io::{Failed, Port, Sink, Source, Stream};
use turn_lock::{Pass, TurnLock, TurnsOnly};

/// What came of one request.
#[derive(Clone, Copy)]
struct Step {
    /// How many replies were written whole: one or none.
    replies: u32,
    /// How the connection ended after it, if it did.
    ended: Option<ServedEnd>,
}

/// Serves a client's connection: reads requests one after the other, signs each over the port, and writes the signature
/// or why there is none. The table's lock is held for leases and burnings alone, each in a turn of its own: neither
/// while a request is read or answered, nor while talking to a member. If there is no memory or no turn for a request,
/// that is the answer, and the connection ends.
pub fn serve_client<R: Cells, D: Disk, P: Port, L: Source + Sink>(
    rt: &impl Wait,
    alloc: Global,
    desk: &Desk,
    cells: &mut R,
    lock: &TurnLock<Table<D>>,
    pass: &mut Pass<Table<D>>,
    port: &mut P,
    link: &mut L,
) -> Served
    requires ready { IsReady R.Cells.own lock.now desk.now pass.old cells.old }
    ensures serves { HasServed (desk_state desk.now) (reference_state R.Cells.own R.Faults cells.old)
        (record { pass = pass.old; port = P.state port.old; faults = R.count cells.old; talk = L.talk link.old })
        (record { pass = pass.new; port = P.state port.new; faults = R.count cells.new; talk = L.talk link.new })
        result.frames result.ended }
    ensures ends { HasEnded desk.now.key.now.params (L.steady link.old) (L.room link.old) result }
    ensures takes { (L.talk link.old).room ≡ L.room link.old }
    ensures steady { L.steady link.new ≡ L.steady link.old }
    ensures cells { CellsStay R.Cells.own R.Faults cells.old cells.new }
    ensures pass { IsIdle lock.now desk.now.plan.now pass.new }
{
    answer_requests(
        &TurnsOnly::of(rt),
        alloc,
        desk,
        cells,
        lock,
        pass,
        port,
        link,
    )
}

/// Serves a client's connection as `serve_client` does. It may wait for turns of a lock, and for nothing else.
pub(crate) fn answer_requests<R: Cells, D: Disk, P: Port, L: Source + Sink>(
    turns: &TurnsOnly<impl Wait>,
    alloc: Global,
    desk: &Desk,
    cells: &mut R,
    lock: &TurnLock<Table<D>>,
    pass: &mut Pass<Table<D>>,
    port: &mut P,
    link: &mut L,
) -> Served
    requires ready { IsReady R.Cells.own lock.now desk.now pass.old cells.old }
    ensures serves { HasServed (desk_state desk.now) (reference_state R.Cells.own R.Faults cells.old)
        (record { pass = pass.old; port = P.state port.old; faults = R.count cells.old; talk = L.talk link.old })
        (record { pass = pass.new; port = P.state port.new; faults = R.count cells.new; talk = L.talk link.new })
        result.frames result.ended }
    ensures ends { HasEnded desk.now.key.now.params (L.steady link.old) (L.room link.old) result }
    ensures takes { (L.talk link.old).room ≡ L.room link.old }
    ensures steady { L.steady link.new ≡ L.steady link.old }
    ensures cells { CellsStay R.Cells.own R.Faults cells.old cells.new }
    ensures pass { IsIdle lock.now desk.now.plan.now pass.new }
{
    let mut frames = 0;
    'requests: for _ in 0..MOST_FRAMES {
        let step = answer_next(turns, alloc, desk, cells, lock, pass, port, link);
        frames += step.replies;
        if let Some(ended) = step.ended {
            return Served { frames, ended };
        }
    }
    Served {
        frames,
        ended: ServedEnd::Full,
    }
}

/// Reads a request, signs its message, and answers it.
fn answer_next<R: Cells, D: Disk, P: Port, L: Source + Sink>(
    turns: &TurnsOnly<impl Wait>,
    alloc: Global,
    desk: &Desk,
    cells: &mut R,
    lock: &TurnLock<Table<D>>,
    pass: &mut Pass<Table<D>>,
    port: &mut P,
    link: &mut L,
) -> Step
    requires ready { IsReady R.Cells.own lock.now desk.now pass.old cells.old }
    ensures ends { StepEnds (IsTrue (L.steady link.old))
        (longest_reply desk.now.key.now.params ≤ L.room link.old) result.replies result.ended }
    ensures room { L.room link.old ≤ L.room link.new + longest_reply desk.now.key.now.params }
    ensures answers { HasAnswered (desk_state desk.now) (reference_state R.Cells.own R.Faults cells.old)
        (record { pass = pass.old; port = P.state port.old; faults = R.count cells.old; talk = L.talk link.old })
        (record { pass = pass.new; port = P.state port.new; faults = R.count cells.new; talk = L.talk link.new })
        result.replies result.ended }
    ensures steady { L.steady link.new ≡ L.steady link.old }
    ensures cells { CellsStay R.Cells.own R.Faults cells.old cells.new }
    ensures pass { IsIdle lock.now desk.now.plan.now pass.new }
{
    let (members, message) = match next_request(alloc, link) {
        Ok(request) => request,
        Err(fault) => return unread(fault, link),
    };
    let outcome = sign_in_turns(
        turns, alloc, desk, cells, lock, pass, port, members, &message,
    );
    answered(&outcome, write_outcome(&outcome, link))
}

/// What comes of a request that was not read because of this fault: if there was no memory for it, that is answered.
fn unread<K: Sink>(fault: FrameFault, sink: &mut K) -> Step
    ensures step { IsUnread fault (K.talk sink.old) (K.talk sink.new) (IsTrue (K.steady sink.old)
        × (length (reply_frame (Err SignFault.NoMemory)) ≤ K.room sink.old)) result.replies result.ended }
    ensures room { K.room sink.old ≤ K.room sink.new + length (reply_frame (Err SignFault.NoMemory)) }
    ensures steady { K.steady sink.new ≡ K.steady sink.old }
{
    if fault == FrameFault::NoMemory {
        let outcome = Err(SignFault::NoMemory);
        return answered(&outcome, write_outcome(&outcome, sink));
    }
    Step {
        replies: 0,
        ended: Some(end_by(fault)),
    }
}

/// What came of a request with this outcome, by whether the answer was written whole.
fn answered(outcome: &Result<Signed, SignFault>, written: Result<(), Failed>) -> Step
    ensures { MatchResult written
        (λ _. (result.replies ≡ 1) × (result.ended ≡ end_after (signature_in outcome.now)))
        (λ _. (result.replies ≡ 0) × (result.ended ≡ Some ServedEnd.WriteFailed)) }
{
    match written {
        Ok(()) => Step {
            replies: 1,
            ended: end_after(outcome),
        },
        Err(Failed) => Step {
            replies: 0,
            ended: Some(ServedEnd::WriteFailed),
        },
    }
}

/// How a connection ends after a request with this outcome, if it does.
fn end_after(outcome: &Result<Signed, SignFault>) -> Option<ServedEnd>
    ensures { result ≡ end_after (signature_in outcome.now) }
{
    match outcome {
        Err(SignFault::Worn) => Some(ServedEnd::Worn),
        Err(SignFault::NoMemory | SignFault::Session(SessionFault::NoMemory)) => {
            Some(ServedEnd::Frame(FrameFault::NoMemory))
        }
        _ => None,
    }
}

/// Writes the frame that answers a request.
fn write_outcome<K: Sink>(outcome: &Result<Signed, SignFault>, sink: &mut K) -> Result<(), Failed>
    requires { IfOk outcome.now (λ signed. length signed.bytes.items < 2 ^ 32) }
    ensures wrote { IsTrue (K.talk sink.old).told → MatchResult result
        (λ _. (K.talk sink.new).written ≡ (K.talk sink.old).written ++ reply_frame (signature_in outcome.now))
        (λ _. WrotePart (K.talk sink.old) (K.talk sink.new) (reply_frame (signature_in outcome.now))) }
    ensures only { OnlyWrote (K.talk sink.old) (K.talk sink.new) }
    ensures cause { HasCause (K.talk sink.old).count (K.talk sink.new).count result }
    ensures succeeds { IsTrue (K.steady sink.old)
        → length (reply_frame (signature_in outcome.now)) ≤ K.room sink.old → IsOk result }
    ensures room { K.room sink.old ≤ K.room sink.new + length (reply_frame (signature_in outcome.now)) }
    ensures steady { K.steady sink.new ≡ K.steady sink.old }
{
    match outcome {
        Ok(signed) => write_signature(&signed.bytes, sink),
        Err(fault) => write_failure(&failure_of(fault), sink),
    }
}
