//! Workers, which serve one link after another.

ghost use Rattle.std.specs.Prelude.{◌≡◌, ◌≤◌, ◌<◌, ℕ, All, length};
ghost use Rattle.std.specs.Prelude.{slice_index_or};
ghost use Rattle.std.specs.Option.{option_map};
ghost use Rattle.trustee_core.specs.Approved.{ids_of};
ghost use Rattle.stream_io.specs.Net.{PortOnward};
ghost use Rattle.trustee_node.specs.Connections.{clock_state};
ghost use Rattle.trustee_node.specs.Turns.{IsIdle};
ghost use Rattle.trustee_node.specs.Workers.{ServesLink, WorkEnds, Worked, worker_state};

use crate::connection::answer_asks;
use disk_trait::Disk;
use node_workers::{Served, Worker, next_link};
use share_files::Share;
use std::sync::Wait;
use std::thread;
use std::thread::Threads;
use stream_io::{Port, Stream};
use trustee_core::{Approved, Clock, KeyKeeper, Trustee};
use turn_lock::{Pass, TurnLock, TurnsOnly};

/// Has each worker serve one link after another, all side by side, until each has served `connections`, there is no
/// further link for it, accepting fails or its pass has no more turns. It takes no memory.
pub fn serve<R: Threads + Wait + Sync, D: Disk + Send, C: Clock + Send, P: Port + Send>(
    rt: &R,
    lock: &TurnLock<Trustee<D>>,
    share: &Share,
    book: Option<&Approved>,
    workers: &mut [Worker<P, Trustee<D>, C>],
    connections: u32,
)
    requires { All (λ worker. IsIdle lock.now share.now worker.pass) workers.old }
    ensures worked { (i : ℕ) (d : _) → i < length workers.old
        → Worked share.now (option_map (λ b. ids_of b.now) book.entry)
        (worker_state P.state C.told C.answers (slice_index_or workers.old i d))
        (worker_state P.state C.told C.answers (slice_index_or workers.new i d)) }
    ensures pass { All (λ worker. IsIdle lock.now share.now worker.pass) workers.new }
    ensures most { All (λ worker. worker.connections ≤ connections) workers.new }
    ensures ends { All (λ worker. WorkEnds connections (worker_state P.state C.told C.answers worker)) workers.new }
{
    run_workers(
        &TurnsOnly::of(rt),
        lock,
        &KeyKeeper::of(share),
        book,
        workers,
        connections,
    );
}

/// Runs workers as `serve` does. They may wait for turns of a lock, and for nothing else, and they do not have the key.
pub(crate) fn run_workers<
    R: Threads + Wait + Sync,
    D: Disk + Send,
    C: Clock + Send,
    P: Port + Send,
>(
    turns: &TurnsOnly<R>,
    lock: &TurnLock<Trustee<D>>,
    share: &KeyKeeper,
    book: Option<&Approved>,
    workers: &mut [Worker<P, Trustee<D>, C>],
    connections: u32,
)
    requires { All (λ worker. IsIdle lock.now share.now worker.pass) workers.old }
    ensures worked { (i : ℕ) (d : _) → i < length workers.old
        → Worked share.now (option_map (λ b. ids_of b.now) book.entry)
        (worker_state P.state C.told C.answers (slice_index_or workers.old i d))
        (worker_state P.state C.told C.answers (slice_index_or workers.new i d)) }
    ensures pass { All (λ worker. IsIdle lock.now share.now worker.pass) workers.new }
    ensures most { All (λ worker. worker.connections ≤ connections) workers.new }
    ensures ends { All (λ worker. WorkEnds connections (worker_state P.state C.told C.answers worker)) workers.new }
{
    let threads = workers.len();
    if threads == 0 {
        return;
    }
    let serves = |_: usize, worker: &mut Worker<P, Trustee<D>, C>|
        requires { IsIdle lock.now share.now worker.now.pass }
        ensures { Worked share.entry.now (option_map (λ b. ids_of b.now) book.entry)
            (worker_state P.state C.told C.answers worker.entry.now)
            (worker_state P.state C.told C.answers worker.exit.now)
            × IsIdle lock.entry.now share.entry.now worker.exit.now.pass × (worker.exit.now.connections ≤ connections)
            × WorkEnds connections (worker_state P.state C.told C.answers worker.exit.now) }
    { work(turns, lock, share, book, worker, connections) };
    thread::for_each_mut(turns, workers, threads, &serves);
}

/// Serves one link after another, until it has served `connections`, there is no further link, accepting fails or the
/// pass has no more turns.
fn work<D: Disk, C: Clock, P: Port>(
    turns: &TurnsOnly<impl Wait>,
    lock: &TurnLock<Trustee<D>>,
    share: &KeyKeeper,
    book: Option<&Approved>,
    worker: &mut Worker<P, Trustee<D>, C>,
    connections: u32,
)
    requires { IsIdle lock.now share.now worker.old.pass }
    ensures worked { Worked share.now (option_map (λ b. ids_of b.now) book.entry)
        (worker_state P.state C.told C.answers worker.old) (worker_state P.state C.told C.answers worker.new) }
    ensures pass { IsIdle lock.now share.now worker.new.pass }
    ensures most { worker.new.connections ≤ connections }
    ensures ends { WorkEnds connections (worker_state P.state C.told C.answers worker.new) }
{
    worker.begin();
    for _ in 0..connections {
        let Some(link) = next_link(&mut worker.port, &mut worker.failed) else {
            return;
        };
        let served = serve_link(
            turns,
            lock,
            &mut worker.pass,
            share,
            book,
            &mut worker.own,
            &mut worker.port,
            link,
        );
        if worker.count(served) {
            return;
        }
    }
}

/// Serves a link, and hangs it up.
fn serve_link<D: Disk, C: Clock, P: Port>(
    turns: &TurnsOnly<impl Wait>,
    lock: &TurnLock<Trustee<D>>,
    pass: &mut Pass<Trustee<D>>,
    share: &KeyKeeper,
    book: Option<&Approved>,
    clock: &mut C,
    port: &mut P,
    mut link: P::Link,
) -> Served
    requires { IsIdle lock.now share.now pass.old }
    ensures served { ServesLink share.now (option_map (λ b. ids_of b.now) book.entry)
        (record { pass = pass.old; clock = clock_state C.told C.answers clock.old })
        (record { pass = pass.new; clock = clock_state C.told C.answers clock.new })
        (record { steady = P.Link.steady link; talk = P.Link.talk link }) (P.state port.old) (P.state port.new) result }
    ensures takes { (P.Link.talk link).room ≡ P.Link.room link }
    ensures pass { IsIdle lock.now share.now pass.new }
    ensures clock { C.told clock.new ≡ C.told clock.old }
    ensures onward { PortOnward (P.state port.old) (P.state port.new) }
{
    let served = answer_asks(turns, lock, pass, share, book, clock, &mut link);
    port.hang_up(link);
    served
}
