//! The turns of the table's lock that signing a message takes.

ghost use Rattle.std.specs.Prelude.{◌≡◌, ◌<◌, ◌^◌, IfOk, Some};
ghost use Rattle.aggregator_node.specs.Signing.{Burning, LeaseTurn};
ghost use Rattle.aggregator_node.specs.Turns.{IsIdle};
ghost use Rattle.leaf_table.specs.Entries.{IsLeased, map_of};
ghost use Rattle.lms_bytes.specs.MessageId.{message_id_bytes};

use aggregator_session::SignFault;
use coalition_map::{Members, Plan};
use disk_trait::Disk;
use leaf_table::Table;
use lms_bytes::MessageId;
use std::sync::Wait;
use turn_lock::{Pass, TurnLock, TurnsOnly};

/// The leaf of the members' coalition for this message, leased in a turn of its own. The lock is held for the lease
/// alone. It takes no memory.
pub(crate) fn lease_in_turn<D: Disk>(
    turns: &TurnsOnly<impl Wait>,
    lock: &TurnLock<Table<D>>,
    pass: &mut Pass<Table<D>>,
    plan: &Plan,
    members: Members,
    id: &MessageId,
) -> Result<u32, SignFault>
    requires pass { IsIdle lock.now plan.now pass.old }
    ensures turn { LeaseTurn members id.now pass.old pass.new result }
    ensures within { IfOk result (λ leaf. leaf < 2 ^ plan.now.h) }
    ensures leased { IfOk result (λ leaf. map_of pass.new.log leaf ≡ IsLeased (message_id_bytes id.now)) }
    ensures pass { IsIdle lock.now plan.now pass.new }
{
    let Ok(mut table) = lock.take_turn(turns, pass) else {
        return Err(SignFault::Worn);
    };
    let leased = table.lease(members, id);
    lock.give(pass, table);
    match leased {
        Ok(leaf) => Ok(leaf),
        Err(fault) => Err(SignFault::Table(fault)),
    }
}

/// Burns a leaf that was leased for this message, in a turn of its own, if a member has spent it. It takes no memory.
pub(crate) fn burn_spent<D: Disk>(
    turns: &TurnsOnly<impl Wait>,
    lock: &TurnLock<Table<D>>,
    pass: &mut Pass<Table<D>>,
    plan: &Plan,
    leaf: u32,
    id: &MessageId,
    spent: Option<u8>,
)
    requires pass { IsIdle lock.now plan.now pass.old }
    requires within { leaf < 2 ^ plan.now.h }
    requires leased { map_of pass.old.log leaf ≡ IsLeased (message_id_bytes id.now) }
    ensures turn { Burning pass.old pass.new leaf id.now spent }
    ensures pass { IsIdle lock.now plan.now pass.new }
{
    if let Some(member) = spent {
        burn_in_turn(turns, lock, pass, plan, leaf, id, member);
    }
}

/// Burns a leaf that was leased for this message, since this member reported it spent, in a turn of its own. What comes
/// of it changes no answer. It takes no memory.
fn burn_in_turn<D: Disk>(
    turns: &TurnsOnly<impl Wait>,
    lock: &TurnLock<Table<D>>,
    pass: &mut Pass<Table<D>>,
    plan: &Plan,
    leaf: u32,
    id: &MessageId,
    member: u8,
)
    requires pass { IsIdle lock.now plan.now pass.old }
    requires within { leaf < 2 ^ plan.now.h }
    requires leased { map_of pass.old.log leaf ≡ IsLeased (message_id_bytes id.now) }
    ensures turn { Burning pass.old pass.new leaf id.now (Some member) }
    ensures pass { IsIdle lock.now plan.now pass.new }
{
    let Ok(mut table) = lock.take_turn(turns, pass) else {
        return;
    };
    let _ = table.burn(leaf, id, member);
    lock.give(pass, table);
}
