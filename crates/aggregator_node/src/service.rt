//! The whole run: a lock is made round a table, the clients at its ports are served, and the lock is ended.

ghost use Rattle.std.specs.Prelude.{◌≡◌, ◌≤◌, All, vec_len, IfOk, OnErr};
ghost use Rattle.aggregator_node.specs.Ports.{ServedClients, places_of};
ghost use Rattle.leaf_table.specs.Table.{plan_of};
ghost use Rattle.aggregator_session.specs.Desks.{ReadsFor, desk_state};
ghost use Rattle.aggregator_session.specs.Tables.{TableOnward, table_seen};

use crate::worker::run_workers;
use aggregator_session::Desk;
use disk_trait::{Disk, Faults};
use leaf_table::Table;
use memory::NoMemory;
use node_workers::{gather, make_workers};
use reference_value::Cells;
use std::alloc::Global;
use std::sync::Wait;
use std::thread::Threads;
use stream_io::{Port, Totals};
use turn_lock::{TurnLock, TurnsOnly};

/// Serves the clients of a leaf table over ports, with one worker for each port, all side by side, each with cells of
/// its own. A worker serves one link after the other, until it has served `connections`, there is no further link or
/// accepting fails; the members of the requests are dialled from the same port. The ports and the cells come back in
/// their order. If memory runs out before a link is accepted, nothing was served.
pub fn serve_clients<R: Threads + Wait + Sync, X: Cells + Send, D: Disk + Send, P: Port + Send>(
    turns: &TurnsOnly<R>,
    alloc: Global,
    desk: &Desk,
    table: Table<D>,
    cells: &mut Vec<X>,
    ports: &mut Vec<P>,
    connections: u32,
) -> (Table<D>, Result<Totals, NoMemory>)
    requires plan { plan_of table ≡ desk.now.plan.now }
    requires cells { All (ReadsFor X.Cells.own desk.now) cells.old.items }
    requires ports { (1 ≤ vec_len ports.old) × (vec_len ports.old ≤ 64) }
    requires many { vec_len cells.old ≡ vec_len ports.old }
    ensures served { IfOk result.1 (λ totals. ServedClients (desk_state desk.now) connections (table_seen table)
        (table_seen result.0) (places_of X.Cells.own X.Faults P.state ports.old.items cells.old.items)
        (places_of X.Cells.own X.Faults P.state ports.new.items cells.new.items) totals) }
    ensures refused { OnErr result.1 ((result.0 ≡ table) × (ports.new.items ≡ ports.old.items)
        × (cells.new.items ≡ cells.old.items)) }
    ensures count { (vec_len ports.new ≡ vec_len ports.old) × (vec_len cells.new ≡ vec_len cells.old) }
    ensures onward { TableOnward (table_seen table) (table_seen result.0) }
{
    let count = ports.len();
    let Ok(room) = Vec::with_capacity(alloc, count) else {
        return (table, Err(NoMemory));
    };
    let (lock, passes) = match TurnLock::new(alloc, table, count as u32, 0) {
        Ok(made) => made,
        Err((table, refused)) => {
            room.destroy_empty();
            return (table, Err(refused));
        }
    };
    let mut workers = make_workers(&lock, ports, cells, passes, room);
    run_workers(
        turns,
        alloc,
        desk,
        &lock,
        workers.as_mut_slice(),
        connections,
    );
    let (pass, totals) = gather(&lock, workers, ports, cells);
    (lock.close(pass), Ok(totals))
}
