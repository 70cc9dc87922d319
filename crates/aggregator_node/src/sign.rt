//! One message, signed with a leaf that is leased for it in a turn of a table's lock.

ghost use Rattle.std.specs.Prelude.{IfOk};
ghost use Rattle.aggregator_node.specs.Logs.{Shown};
ghost use Rattle.aggregator_node.specs.Signing.{SignsInTurns};
ghost use Rattle.aggregator_node.specs.Turns.{IsIdle};
ghost use Rattle.aggregator_node.specs.Workers.{IsReady};
ghost use Rattle.aggregator_session.specs.Causes.{PortCauses, ReferenceCauses};
ghost use Rattle.aggregator_session.specs.Signing.{signature_in, to_sign};
ghost use Rattle.lms_bytes.specs.MessageId.{message_id};
ghost use Rattle.lms_verify.specs.Accepts.{AcceptsAt};

use crate::turns::{burn_spent, lease_in_turn};
use aggregator_session::{Desk, Ended, SignFault, Signed, run_on, signed_with, spent_by};
use coalition_map::Members;
use disk_trait::Disk;
use leaf_table::Table;
use lms_bytes::{LIMIT, MessageId};
use reference_value::Cells;
use std::alloc::Global;
use std::sync::Wait;
use stream_io::Port;
use turn_lock::{Pass, TurnLock, TurnsOnly};

/// Signs a message: leases a leaf of these members for it in one turn of the table's lock, runs a session outside the
/// turn, and burns the leaf in a second turn if a member has spent it. A lease that was made stays. What comes of the
/// burning does not change the answer: a leaf that could not be burnt is burnt by the next session that meets it.
pub fn sign_one<R: Cells, D: Disk, P: Port>(
    rt: &impl Wait,
    alloc: Global,
    desk: &Desk,
    cells: &mut R,
    lock: &TurnLock<Table<D>>,
    pass: &mut Pass<Table<D>>,
    port: &mut P,
    members: Members,
    message: &[u8],
) -> Result<Signed, SignFault>
    requires ready { IsReady R.Cells.own lock.now desk.now pass.old cells.old }
    ensures signs { SignsInTurns (to_sign R.Cells.own R.Faults desk.now cells.old cells.new members message.now)
        pass.old (P.state port.old) pass.new (P.state port.new) (signature_in result) }
    ensures shows { Shown desk.now.plan.now members (message_id message.now) pass.old pass.new
        (signature_in result) }
    ensures accepted { IfOk result (λ signed.
        AcceptsAt desk.now.key.now message.now signed.bytes.items signed.leaf) }
    ensures port { PortCauses message.now (P.state port.old) (P.state port.new) result }
    ensures cells { ReferenceCauses R.Cells.own R.Faults cells.old cells.new result }
    ensures pass { IsIdle lock.now desk.now.plan.now pass.new }
{
    sign_in_turns(
        &TurnsOnly::of(rt),
        alloc,
        desk,
        cells,
        lock,
        pass,
        port,
        members,
        message,
    )
}

/// Signs a message as `sign_one` does. It may wait for turns of a lock, and for nothing else.
pub(crate) fn sign_in_turns<R: Cells, D: Disk, P: Port>(
    turns: &TurnsOnly<impl Wait>,
    alloc: Global,
    desk: &Desk,
    cells: &mut R,
    lock: &TurnLock<Table<D>>,
    pass: &mut Pass<Table<D>>,
    port: &mut P,
    members: Members,
    message: &[u8],
) -> Result<Signed, SignFault>
    requires ready { IsReady R.Cells.own lock.now desk.now pass.old cells.old }
    ensures signs { SignsInTurns (to_sign R.Cells.own R.Faults desk.now cells.old cells.new members message.now)
        pass.old (P.state port.old) pass.new (P.state port.new) (signature_in result) }
    ensures shows { Shown desk.now.plan.now members (message_id message.now) pass.old pass.new
        (signature_in result) }
    ensures accepted { IfOk result (λ signed.
        AcceptsAt desk.now.key.now message.now signed.bytes.items signed.leaf) }
    ensures port { PortCauses message.now (P.state port.old) (P.state port.new) result }
    ensures cells { ReferenceCauses R.Cells.own R.Faults cells.old cells.new result }
    ensures pass { IsIdle lock.now desk.now.plan.now pass.new }
{
    if message.len() > LIMIT as usize {
        return Err(SignFault::TooLong { got: message.len() });
    }
    let id = MessageId::of(message);
    let leaf = match lease_in_turn(turns, lock, pass, desk.plan, members, &id) {
        Ok(leaf) => leaf,
        Err(fault) => return Err(fault),
    };
    let Ended { outcome, .. } = run_on(alloc, desk, cells, port, leaf, &id, message);
    burn_spent(turns, lock, pass, desk.plan, leaf, &id, spent_by(&outcome));
    signed_with(leaf, outcome)
}
