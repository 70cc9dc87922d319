//! Workers before they are run.

ghost use Rattle.std.specs.Prelude.{◌≡◌, ◌≤◌, [], All, vec_len, vec_capacity};
ghost use Rattle.node_workers.specs.Starting.{fresh_workers};
ghost use Rattle.turn_lock.specs.Pass.{first_pass};

use crate::Worker;
use stream_io::Port;
use turn_lock::{Kept, Pass, TurnLock};

/// Makes a worker for each port, with what it alone uses, at the same place, and a pass of this lock, in the room
/// available. The worker of the first port is the last one.
pub fn make_workers<P: Port, T: Kept, X>(
    lock: &TurnLock<T>,
    ports: &mut Vec<P>,
    own: &mut Vec<X>,
    mut passes: Vec<Pass<T>>,
    mut workers: Vec<Worker<P, T, X>>,
) -> Vec<Worker<P, T, X>>
    requires many { (vec_len own.old ≡ vec_len ports.old) × (vec_len passes ≡ vec_len ports.old) }
    requires first { All (λ pass. pass ≡ first_pass lock.now) passes.items }
    requires room { (workers.items ≡ []) × (vec_len workers ≡ 0) × (vec_len ports.old ≤ vec_capacity workers) }
    ensures workers { result.items ≡ fresh_workers (first_pass lock.now) ports.old.items own.old.items }
    ensures count { vec_len result ≡ vec_len ports.old }
    ensures taken { ((ports.new.items ≡ []) × (vec_len ports.new ≡ 0))
        × ((own.new.items ≡ []) × (vec_len own.new ≡ 0)) }
    ensures home { (vec_capacity ports.new ≡ vec_capacity ports.old) × (vec_capacity own.new ≡ vec_capacity own.old) }
{
    while let Some(port) = ports.pop() {
        let Some(one) = own.pop() else { unreachable!() };
        let Some(pass) = passes.pop() else {
            unreachable!()
        };
        workers.push_reserved(Worker {
            port,
            pass,
            own: one,
            connections: 0,
            frames: 0,
            worn: false,
            failed: false,
        });
    }
    workers
}
