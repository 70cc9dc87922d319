//! Workers, which serve the links of clients one after the other.

ghost use Rattle.aggregator_session.specs.Desks.{desk_state};
ghost use Rattle.std.specs.Prelude.{◌≡◌, ◌≤◌, ◌<◌, ℕ, All, length, slice_index_or};
ghost use Rattle.aggregator_node.specs.Ports.{reference_state};
ghost use Rattle.aggregator_node.specs.Workers.{HasServedLink, IsReady, WorkEnds, Worked, worker_state};
ghost use Rattle.reference_value.specs.Stay.{CellsStay};

use crate::client::answer_requests;
use aggregator_session::Desk;
use disk_trait::{Disk, Faults};
use leaf_table::Table;
use node_workers::{Served, Worker, next_link};
use reference_value::Cells;
use std::alloc::Global;
use std::sync::Wait;
use std::thread;
use std::thread::Threads;
use stream_io::{Port, Sink, Stream};
use turn_lock::{Pass, TurnLock, TurnsOnly};

/// Has each worker serve one link after the other, all workers side by side, until each has served `connections`, there
/// is no further link for it, accepting fails or its pass has no more turns.
pub fn serve<R: Threads + Wait + Sync, X: Cells + Send, D: Disk + Send, P: Port + Send>(
    rt: &R,
    alloc: Global,
    desk: &Desk,
    lock: &TurnLock<Table<D>>,
    workers: &mut [Worker<P, Table<D>, X>],
    connections: u32,
)
    requires ready { All (λ worker. IsReady X.Cells.own lock.now desk.now worker.pass worker.own)
        workers.old }
    ensures worked { (i : ℕ) (d : _) → i < length workers.old → Worked (desk_state desk.now)
        (worker_state P.state X.Cells.own X.Faults (slice_index_or workers.old i d))
        (worker_state P.state X.Cells.own X.Faults (slice_index_or workers.new i d)) }
    ensures ready { All (λ worker. IsReady X.Cells.own lock.now desk.now worker.pass worker.own)
        workers.new }
    ensures most { All (λ worker. worker.connections ≤ connections) workers.new }
    ensures ends { All (λ worker. WorkEnds connections (worker_state P.state X.Cells.own X.Faults worker))
        workers.new }
{
    run_workers(&TurnsOnly::of(rt), alloc, desk, lock, workers, connections);
}

/// Runs workers as `serve` does. They may wait for turns of a lock, and for nothing else.
pub(crate) fn run_workers<
    R: Threads + Wait + Sync,
    X: Cells + Send,
    D: Disk + Send,
    P: Port + Send,
>(
    turns: &TurnsOnly<R>,
    alloc: Global,
    desk: &Desk,
    lock: &TurnLock<Table<D>>,
    workers: &mut [Worker<P, Table<D>, X>],
    connections: u32,
)
    requires ready { All (λ worker. IsReady X.Cells.own lock.now desk.now worker.pass worker.own)
        workers.old }
    ensures worked { (i : ℕ) (d : _) → i < length workers.old → Worked (desk_state desk.now)
        (worker_state P.state X.Cells.own X.Faults (slice_index_or workers.old i d))
        (worker_state P.state X.Cells.own X.Faults (slice_index_or workers.new i d)) }
    ensures ready { All (λ worker. IsReady X.Cells.own lock.now desk.now worker.pass worker.own)
        workers.new }
    ensures most { All (λ worker. worker.connections ≤ connections) workers.new }
    ensures ends { All (λ worker. WorkEnds connections (worker_state P.state X.Cells.own X.Faults worker))
        workers.new }
{
    let threads = workers.len();
    if threads == 0 {
        return;
    }
    let serves = |_: usize, worker: &mut Worker<P, Table<D>, X>|
        requires { IsReady X.Cells.own lock.now desk.now worker.now.pass worker.now.own }
        ensures { Worked (desk_state desk.entry.now)
            (worker_state P.state X.Cells.own X.Faults worker.entry.now)
            (worker_state P.state X.Cells.own X.Faults worker.exit.now)
            × IsReady X.Cells.own lock.entry.now desk.entry.now worker.exit.now.pass worker.exit.now.own
            × (worker.exit.now.connections ≤ connections)
            × WorkEnds connections (worker_state P.state X.Cells.own X.Faults worker.exit.now) }
    { work(turns, alloc, desk, lock, worker, connections) };
    thread::for_each_mut(turns, workers, threads, &serves);
}

/// Serves one link after the other, until it has served `connections`, there is no further link, accepting fails or the
/// pass has no more turns.
fn work<X: Cells, D: Disk, P: Port>(
    turns: &TurnsOnly<impl Wait>,
    alloc: Global,
    desk: &Desk,
    lock: &TurnLock<Table<D>>,
    worker: &mut Worker<P, Table<D>, X>,
    connections: u32,
)
    requires ready { IsReady X.Cells.own lock.now desk.now worker.old.pass worker.old.own }
    ensures worked { Worked (desk_state desk.now) (worker_state P.state X.Cells.own X.Faults worker.old)
        (worker_state P.state X.Cells.own X.Faults worker.new) }
    ensures ready { IsReady X.Cells.own lock.now desk.now worker.new.pass worker.new.own }
    ensures most { worker.new.connections ≤ connections }
    ensures ends { WorkEnds connections (worker_state P.state X.Cells.own X.Faults worker.new) }
{
    worker.begin();
    for _ in 0..connections {
        let Some(link) = next_link(&mut worker.port, &mut worker.failed) else {
            return;
        };
        let served = serve_link(
            turns,
            alloc,
            desk,
            &mut worker.own,
            lock,
            &mut worker.pass,
            &mut worker.port,
            link,
        );
        if worker.count(served) {
            return;
        }
    }
}

/// Serves a link, and hangs it up.
fn serve_link<X: Cells, D: Disk, P: Port>(
    turns: &TurnsOnly<impl Wait>,
    alloc: Global,
    desk: &Desk,
    cells: &mut X,
    lock: &TurnLock<Table<D>>,
    pass: &mut Pass<Table<D>>,
    port: &mut P,
    mut link: P::Link,
) -> Served
    requires ready { IsReady X.Cells.own lock.now desk.now pass.old cells.old }
    ensures served { HasServedLink (desk_state desk.now) (reference_state X.Cells.own X.Faults cells.old)
        (record { pass = pass.old; port = P.state port.old; faults = X.count cells.old })
        (record { pass = pass.new; port = P.state port.new; faults = X.count cells.new })
        (P.Link.talk link) (P.Link.steady link) result }
    ensures takes { (P.Link.talk link).room ≡ P.Link.room link }
    ensures ready { IsReady X.Cells.own lock.now desk.now pass.new cells.new }
    ensures cells { CellsStay X.Cells.own X.Faults cells.old cells.new }
{
    let served = answer_requests(turns, alloc, desk, cells, lock, pass, port, &mut link);
    port.hang_up(link);
    served
}
