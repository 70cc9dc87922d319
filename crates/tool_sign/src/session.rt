//! Signing with a leaf of a table that a store has, over a port of a net.

ghost use Rattle.std.specs.Prelude.{◌≡◌, Err, None};
ghost use Rattle.leaf_table.specs.Table.{Stays, plan_of};
ghost use Rattle.aggregator_session.specs.Desks.{ReadsFor};
ghost use Rattle.aggregator_session.specs.Signing.{signature_in};
ghost use Rattle.aggregator_session.specs.Tables.{table_seen};
ghost use Rattle.reference_value.specs.Stay.{CellsStay};
ghost use Rattle.tool_base.specs.World.{IsNetBack, from_to};
ghost use Rattle.tool_sign.specs.Ended.{NetTo, TableTo};
ghost use Rattle.tool_sign.specs.Ports.{answer_of, over_net, signing_of};
ghost use Rattle.tool_sign.specs.Signs.{answer_in};
ghost use Rattle.tool_sign.specs.Tables.{table_header};

use crate::faults::end_of_fault;
use aggregator_session::{Desk, Ended, SignFault, Signed, run_leased};
use coalition_map::Members;
use disk_trait::Disk;
use leaf_table::Table;
use lms_bytes::PublicKey;
use reference_value::Cells;
use slot_file::Header;
use std::alloc::Global;
use stream_io::{CallFault, Net, Store};
use tool_base::{Ending, end_of_slots};

/// The header of the leaf table of a key.
pub fn table_header(key: &PublicKey) -> Header
    ensures { result ≡ table_header key.now }
{
    Header {
        version: 1,
        number: 0,
        lms: key.params.lms,
        ots: key.params.ots,
        id: key.id,
    }
}

/// Takes the leaf table of this name, signs with a leaf of it over a port that only dials, and gives both back. The
/// session is given as it stands at its end, if one was begun.
pub(crate) fn sign_with_table<R: Cells, S: Store, N: Net>(
    alloc: Global,
    desk: &Desk,
    cells: &mut R,
    table: &str,
    members: Members,
    message: &[u8],
    store: &mut S,
    net: &mut N,
) -> Ended<Result<Signed, Ending>>
    requires cells { ReadsFor R.Cells.own desk.now cells.old }
    ensures run { TableTo (signing_of R.Cells.own R.Faults desk.now cells.old cells.new members message.now)
        table.now (from_to (S.state store.old) (S.state store.new)) (over_net (N.state net.old) (N.state net.new))
        (answer_in result.outcome) result.session }
    ensures cells { CellsStay R.Cells.own R.Faults cells.old cells.new }
{
    let disk = match store.take_disk(table) {
        Ok(disk) => disk,
        Err(CallFault::Failed) => return not_begun(Ending::StoreFailed),
        Err(CallFault::NoMemory) => return not_begun(Ending::NoMemory),
    };
    let header = table_header(desk.key);
    let mut leaves = match Table::load(alloc, disk, &header, desk.plan) {
        Ok(leaves) => leaves,
        Err((disk, fault)) => {
            store.return_disk(table, disk);
            return not_begun(end_of_slots(fault));
        }
    };
    let ended = sign_over_net(alloc, desk, cells, &mut leaves, members, message, net);
    store.return_disk(table, leaves.end());
    ended
}

/// Makes a port that only dials, signs with a leaf of the table over it, and gives it back.
fn sign_over_net<R: Cells, D: Disk, N: Net>(
    alloc: Global,
    desk: &Desk,
    cells: &mut R,
    table: &mut Table<D>,
    members: Members,
    message: &[u8],
    net: &mut N,
) -> Ended<Result<Signed, Ending>>
    requires plan { plan_of table.old ≡ desk.now.plan.now }
    requires cells { ReadsFor R.Cells.own desk.now cells.old }
    ensures ends { NetTo (signing_of R.Cells.own R.Faults desk.now cells.old cells.new members message.now)
        (table.new ≡ table.old) (table_seen table.old) (table_seen table.new)
        (over_net (N.state net.old) (N.state net.new)) (answer_in result.outcome) result.session }
    ensures table { Stays table.old table.new }
    ensures net { IsNetBack (N.state net.old) (N.state net.new) }
    ensures cells { CellsStay R.Cells.own R.Faults cells.old cells.new }
{
    let mut ports = match net.ports(alloc, None, 1) {
        Ok(ports) => ports,
        Err(CallFault::Failed) => return not_begun(Ending::NetFailed),
        Err(CallFault::NoMemory) => return not_begun(Ending::NoMemory),
    };
    let Ended { outcome, session } = run_leased(
        alloc,
        desk,
        cells,
        table,
        &mut ports[0],
        members,
        message,
    );
    net.gather(ports);
    Ended {
        outcome: answer_of(outcome),
        session,
    }
}

/// The end if no session was begun.
fn not_begun(end: Ending) -> Ended<Result<Signed, Ending>>
    ensures { (result.outcome ≡ Err end) × (result.session ≡ None) }
{
    Ended {
        outcome: Err(end),
        session: None,
    }
}

/// A signature, or the end by which the fault is told.
fn answer_of(outcome: Result<Signed, SignFault>) -> Result<Signed, Ending>
    ensures { answer_in result ≡ answer_of (signature_in outcome) }
{
    match outcome {
        Ok(signed) => Ok(signed),
        Err(fault) => Err(end_of_fault(fault)),
    }
}
