//! The whole run: a lock is made around a trustee, its ports are served, and the lock is ended.

ghost use Rattle.std.specs.Prelude.{◌≡◌, ◌≤◌, map, vec_len, IfOk, OnErr};
ghost use Rattle.std.specs.Option.{option_map};
ghost use Rattle.trustee_core.specs.Approved.{ids_of};
ghost use Rattle.trustee_core.specs.Trustee.{share_of};
ghost use Rattle.trustee_node.specs.Connections.{clock_state};
ghost use Rattle.trustee_node.specs.Ports.{ServedPorts, ports_run};
ghost use Rattle.trustee_node.specs.Trustees.{trustee_state};

use crate::worker::run_workers;
use disk_trait::Disk;
use memory::NoMemory;
use node_workers::{gather, make_workers};
use std::alloc::Global;
use std::sync::Wait;
use std::thread::Threads;
use stream_io::{Port, Totals};
use trustee_core::{Approved, Clock, KeyKeeper, Trustee};
use turn_lock::{TurnLock, TurnsOnly};

/// Serves a trustee over ports, with a worker for each port, all side by side, each with a clock of its own. A worker
/// serves one link after another, until it has served `connections`, there is no further link or accepting fails. A
/// trustee with a book grants round one only for the messages that the book lists. The ports come back in their order.
/// If memory runs out, nothing was served. No memory is taken while ports are served.
pub fn serve_ports<
    R: Threads + Wait + Sync,
    D: Disk + Send,
    C: Clock + Send + Drop,
    P: Port + Send,
>(
    turns: &TurnsOnly<R>,
    alloc: Global,
    trustee: Trustee<D>,
    share: &KeyKeeper,
    book: Option<&Approved>,
    ports: &mut Vec<P>,
    mut clocks: Vec<C>,
    connections: u32,
) -> (Trustee<D>, Result<Totals, NoMemory>)
    requires share { share_of trustee ≡ share.now }
    requires ports { (1 ≤ vec_len ports.old) × (vec_len ports.old ≤ 64) }
    requires clocks { vec_len clocks ≡ vec_len ports.old }
    ensures served { IfOk result.1 (λ totals. ServedPorts share.now (option_map (λ b. ids_of b.now) book.entry)
        connections (trustee_state trustee) (trustee_state result.0)
        (ports_run (map P.state ports.old.items) (map P.state ports.new.items)
        (map (clock_state C.told C.answers) clocks.items)) totals) }
    ensures refused { OnErr result.1 ((result.0 ≡ trustee) × (ports.new.items ≡ ports.old.items)) }
    ensures count { vec_len ports.new ≡ vec_len ports.old }
    ensures name { (trustee_state result.0).name ≡ (trustee_state trustee).name }
    ensures onward { (trustee_state trustee).faults ≤ (trustee_state result.0).faults }
{
    let count = ports.len();
    let Ok(room) = Vec::with_capacity(alloc, count) else {
        return (trustee, Err(NoMemory));
    };
    let (lock, passes) = match TurnLock::new(alloc, trustee, count as u32, 0) {
        Ok(made) => made,
        Err((trustee, refused)) => {
            room.destroy_empty();
            return (trustee, Err(refused));
        }
    };
    let mut workers = make_workers(&lock, ports, &mut clocks, passes, room);
    run_workers(
        turns,
        &lock,
        share,
        book,
        workers.as_mut_slice(),
        connections,
    );
    let (pass, totals) = gather(&lock, workers, ports, &mut clocks);
    (lock.close(pass), Ok(totals))
}
