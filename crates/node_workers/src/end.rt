//! Workers after their run.

ghost use Rattle.std.specs.Prelude.{◌≡◌, ◌≤◌, ◌<◌, ◌+◌, ◌++◌, [], ◌∷◌, All, vec_len, vec_capacity};
ghost use Rattle.node_workers.specs.Joined.{Joined, numbers_of, with_numbers};
ghost use Rattle.node_workers.specs.Workers.{IsFree};
ghost use Rattle.turn_lock.specs.Pass.{Joins};

use crate::Worker;
use stream_io::{Port, Totals};
use turn_lock::{Kept, Pass, TurnLock};

/// Joins the passes of workers that were run, adds their numbers, and puts their ports and what each alone used into
/// the room available, the last worker's first.
pub fn gather<P: Port, T: Kept, X>(
    lock: &TurnLock<T>,
    mut workers: Vec<Worker<P, T, X>>,
    ports: &mut Vec<P>,
    own: &mut Vec<X>,
) -> (Pass<T>, Totals)
    requires some { 1 ≤ vec_len workers }
    requires free { All (λ worker. IsFree lock.now worker.pass) workers.items }
    requires ports { (ports.old.items ≡ []) × (vec_len ports.old ≡ 0) × (vec_len workers ≤ vec_capacity ports.old) }
    requires own { (own.old.items ≡ []) × (vec_len own.old ≡ 0) × (vec_len workers ≤ vec_capacity own.old) }
    ensures joined { Joined workers.items result.0 ports.new.items own.new.items result.1 }
    ensures pass { IsFree lock.now result.0 }
    ensures count { (vec_len ports.new ≡ vec_len workers) × (vec_len own.new ≡ vec_len workers) }
{
    let Some(last) = workers.pop() else {
        unreachable!()
    };
    let (mut pass, mut totals) = take_apart(last, ports, own);
    while let Some(worker) = workers.pop() {
        take_in(lock, &mut pass, worker, ports, own, &mut totals);
    }
    workers.destroy_empty();
    (pass, totals)
}

/// The pass and the numbers of a worker, whose port and own are put after the others.
fn take_apart<P: Port, T: Kept, X>(
    worker: Worker<P, T, X>,
    ports: &mut Vec<P>,
    own: &mut Vec<X>,
) -> (Pass<T>, Totals)
    requires room { (vec_len ports.old < vec_capacity ports.old) × (vec_len own.old < vec_capacity own.old) }
    ensures pass { result.0 ≡ worker.pass }
    ensures totals { result.1 ≡ numbers_of worker }
    ensures port { ports.new.items ≡ ports.old.items ++ worker.port ∷ [] }
    ensures own { own.new.items ≡ own.old.items ++ worker.own ∷ [] }
    ensures ports { (vec_len ports.new ≡ vec_len ports.old + 1) × (vec_capacity ports.new ≡ vec_capacity ports.old) }
    ensures owns { (vec_len own.new ≡ vec_len own.old + 1) × (vec_capacity own.new ≡ vec_capacity own.old) }
{
    let Worker {
        port,
        pass,
        own: one,
        connections,
        frames,
        worn: _,
        failed: _,
    } = worker;
    ports.push_reserved(port);
    own.push_reserved(one);
    let totals = Totals {
        connections,
        frames,
    };
    (pass, totals)
}

/// Joins the pass of one more worker, adds its numbers, and puts its port and its own after the others.
fn take_in<P: Port, T: Kept, X>(
    lock: &TurnLock<T>,
    pass: &mut Pass<T>,
    worker: Worker<P, T, X>,
    ports: &mut Vec<P>,
    own: &mut Vec<X>,
    totals: &mut Totals,
)
    requires free { IsFree lock.now pass.old × IsFree lock.now worker.pass }
    requires room { (vec_len ports.old < vec_capacity ports.old) × (vec_len own.old < vec_capacity own.old) }
    ensures joins { Joins pass.old worker.pass pass.new }
    ensures totals { totals.new ≡ with_numbers totals.old worker }
    ensures port { ports.new.items ≡ ports.old.items ++ worker.port ∷ [] }
    ensures own { own.new.items ≡ own.old.items ++ worker.own ∷ [] }
    ensures pass { IsFree lock.now pass.new }
    ensures ports { (vec_len ports.new ≡ vec_len ports.old + 1) × (vec_capacity ports.new ≡ vec_capacity ports.old) }
    ensures owns { (vec_len own.new ≡ vec_len own.old + 1) × (vec_capacity own.new ≡ vec_capacity own.old) }
{
    let (other, more) = take_apart(worker, ports, own);
    lock.meet(pass, other);
    totals.add(more.connections, more.frames);
}
