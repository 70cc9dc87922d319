//! Clients, served with a table that a store has, over the ports of a net.

ghost use Rattle.std.specs.Prelude.{◌≡◌, All, vec_len};
ghost use Rattle.leaf_table.specs.Table.{plan_of};
ghost use Rattle.aggregator_session.specs.Desks.{ReadsFor, desk_state};
ghost use Rattle.aggregator_session.specs.Tables.{TableOnward, table_seen};
ghost use Rattle.tool_base.specs.Endings.{ending};
ghost use Rattle.tool_base.specs.World.{IsNetBack, from_to};
ghost use Rattle.tool_aggregate.specs.Aggregate.{TableRun};
ghost use Rattle.tool_aggregate.specs.Serving.{NetClientsEnd, ServesWith, cells_run};
ghost use Rattle.tool_sign.specs.Ports.{over_net};
ghost use Rattle.tool_words.specs.Rows.{aggregate_words};

use aggregator_node::serve_clients;
use aggregator_session::Desk;
use disk_trait::Disk;
use leaf_table::Table;
use reference_value::Cells;
use std::alloc::Global;
use std::sync::Wait;
use std::thread::Threads;
use stream_io::{CallFault, Net, Store};
use tool_base::{Ending, end_of_service, end_of_slots};
use tool_sign::table_header;
use tool_words::AggregateWords;
use turn_lock::TurnsOnly;

/// Takes the leaf table of the words, serves clients with it over ports, and gives it back.
pub(crate) fn serve_table<R: Threads + Wait + Sync, X: Cells + Send, S: Store, N: Net>(
    turns: &TurnsOnly<R>,
    alloc: Global,
    words: &AggregateWords,
    desk: &Desk,
    cells: &mut Vec<X>,
    store: &mut S,
    net: &mut N,
) -> Ending
    requires cells { All (ReadsFor X.Cells.own desk.now) cells.old.items }
    requires many { vec_len cells.old ≡ words.now.workers }
    ensures run { TableRun (aggregate_words words.now) (from_to (S.state store.old) (S.state store.new))
        (over_net (N.state net.old) (N.state net.new)) (desk_state desk.now)
        (ServesWith (aggregate_words words.now) (from_to (S.state store.old) (S.state store.new))
        (over_net (N.state net.old) (N.state net.new)) (desk_state desk.now)
        (cells_run X.Cells.own X.Faults cells.old.items cells.new.items))
        (ending result) }
    ensures count { vec_len cells.new ≡ vec_len cells.old }
{
    let disk = match store.take_disk(words.table) {
        Ok(disk) => disk,
        Err(CallFault::Failed) => return Ending::StoreFailed,
        Err(CallFault::NoMemory) => return Ending::NoMemory,
    };
    let header = table_header(desk.key);
    let table = match Table::load(alloc, disk, &header, desk.plan) {
        Ok(table) => table,
        Err((disk, fault)) => {
            store.return_disk(words.table, disk);
            return end_of_slots(fault);
        }
    };
    let (table, end) = serve_net(turns, alloc, words, desk, table, cells, net);
    store.return_disk(words.table, table.end());
    end
}

/// Makes ports, serves clients over them, and gives them back.
fn serve_net<R: Threads + Wait + Sync, X: Cells + Send, D: Disk + Send, N: Net>(
    turns: &TurnsOnly<R>,
    alloc: Global,
    words: &AggregateWords,
    desk: &Desk,
    table: Table<D>,
    cells: &mut Vec<X>,
    net: &mut N,
) -> (Table<D>, Ending)
    requires plan { plan_of table ≡ desk.now.plan.now }
    requires cells { All (ReadsFor X.Cells.own desk.now) cells.old.items }
    requires many { vec_len cells.old ≡ words.now.workers }
    ensures ends { NetClientsEnd (aggregate_words words.now) (desk_state desk.now)
        ((result.0 ≡ table) × (cells.new.items ≡ cells.old.items)) (table_seen table) (table_seen result.0)
        (cells_run X.Cells.own X.Faults cells.old.items cells.new.items)
        (over_net (N.state net.old) (N.state net.new)) (ending result.1) }
    ensures onward { TableOnward (table_seen table) (table_seen result.0) }
    ensures net { IsNetBack (N.state net.old) (N.state net.new) }
    ensures count { vec_len cells.new ≡ vec_len cells.old }
{
    let mut ports = match net.ports(alloc, Some(words.place), words.workers) {
        Ok(ports) => ports,
        Err(CallFault::Failed) => return (table, Ending::NetFailed),
        Err(CallFault::NoMemory) => return (table, Ending::NoMemory),
    };
    let connections = words.connections;
    let (table, totals) = serve_clients(turns, alloc, desk, table, cells, &mut ports, connections);
    let end = end_of_service(&ports, totals);
    net.gather(ports);
    (table, end)
}
