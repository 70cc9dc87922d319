//! Takes turns of one lock in many threads side by side, and prints how many were taken. `bench/turns` times it.

ghost use Rattle.std.specs.Prelude.{◌≡◌, ◌+◌, ◌-◌, ◌*◌, ◌^◌, ◌<◌, ◌≤◌, min, [], false, All, IfSome};
ghost use Rattle.turn_lock.specs.Pass.{first_pass};
ghost use Rattle.bench_calls.specs.Turns.{IsDone};

use crate::{lack, refuse};
use std::alloc::Global;
use std::sync::Wait;
use std::thread::Threads;
use std::{io, thread};
use turn_lock::{Kept, Pass, TurnLock};

/// The words after the first.
const WORDS: &str = "1 to 4096 threads, and turns of each";

/// The most passes of one lock.
const MOST: u32 = 4096;

/// A number that each turn raises.
#[derive(Drop)]
struct Count {
    turns: u64,
}

impl Kept for Count {
    type Entry = ();

    type Name = ();

    ghost entries = { λ _. [] };

    ghost number = { λ c. c.turns };

    ghost name = { λ _. tt };
}

impl Count {
    /// Raises the number, if it is not at its end.
    fn raise(&mut self)
        ensures { self.new.turns ≡ min (self.old.turns + 1) (2 ^ 64 - 1) }
    {
        self.turns = self.turns.saturating_add(1);
    }
}

/// Takes `each` turns, unless the pass is worn before.
fn count_each(rt: &impl Wait, lock: &TurnLock<Count>, pass: &mut Pass<Count>, each: u64)
    requires lock { pass.old.lock ≡ lock.now }
    requires idle { pass.old.in_turn ≡ false }
    ensures lock { pass.new.lock ≡ pass.old.lock }
    ensures idle { pass.new.in_turn ≡ false }
    ensures joined { pass.new.joined ≡ pass.old.joined }
    ensures draws { pass.new.draws ≤ pass.old.draws + each }
    ensures rises { pass.new.rises ≤ pass.old.rises + each }
    ensures all { pass.new.greatest < 2 ^ 62 → pass.new.floor < 2 ^ 64 - 1 → pass.new.rises ≡ pass.old.rises + each }
{
    for _ in 0..each {
        let Ok(mut count) = lock.take(rt, pass) else {
            return;
        };
        count.raise();
        lock.give(pass, count);
    }
}

/// Takes `each` turns with each pass, in threads side by side.
fn count_beside<R: Threads + Wait + Sync>(
    rt: &R,
    lock: &TurnLock<Count>,
    passes: &mut [Pass<Count>],
    each: u64,
)
    requires { All (λ p. p ≡ first_pass lock.now) passes.old }
    ensures { All (IsDone lock.now each) passes.new }
{
    let threads = passes.len();
    if threads > 0 {
        let count = |_: usize, pass: &mut Pass<Count>|
            requires { pass.now ≡ first_pass lock.now }
            ensures { IsDone lock.entry.now each pass.exit.now }
        { count_each(rt, lock, pass, each) };
        thread::for_each_mut(rt, passes, threads, &count);
    }
}

/// Joins a pass that has taken its turns to another.
fn meet(lock: &TurnLock<Count>, pass: &mut Pass<Count>, other: Pass<Count>, each: u64)
    requires pass { IsDone lock.now each pass.old }
    requires other { IsDone lock.now each other }
    ensures { IsDone lock.now each pass.new }
{
    lock.meet(pass, other);
}

/// Joins all passes to one, if there is one.
fn meet_all(lock: &TurnLock<Count>, mut passes: Vec<Pass<Count>>, each: u64) -> Option<Pass<Count>>
    requires { All (IsDone lock.now each) passes.items }
    ensures { IfSome result (IsDone lock.now each) }
{
    let mut pass = passes.pop()?;
    while let Some(other) = passes.pop() {
        meet(lock, &mut pass, other, each);
    }
    Some(pass)
}

/// Takes `each` turns in each of `threads` threads, and gives how many were taken, or nothing if memory ran out.
fn take_turns<R: Threads + Wait + Sync>(
    rt: &R,
    alloc: Global,
    threads: u32,
    each: u64,
) -> Option<u64>
    requires { (1 ≤ threads) × (threads ≤ 4096) }
    ensures { threads * each < 2 ^ 62 → IfSome result (λ turns. turns ≡ threads * each) }
{
    let Ok((lock, mut passes)) = TurnLock::new(alloc, Count { turns: 0 }, threads, 0) else {
        return None;
    };
    count_beside(rt, &lock, passes.as_mut_slice(), each);
    let pass = meet_all(&lock, passes, each)?;
    if TurnLock::joined(&pass) != threads {
        return None;
    }
    let count = lock.close(pass);
    Some(count.turns)
}

/// Prints how many turns were taken, and gives the status.
fn print_turns(rt: HostRuntime, turns: u64) -> io::Result<u8> {
    println!(rt; "{turns} turns")?;
    Ok(0)
}

/// The numbers of threads and of turns that two words stand for, if that many threads are allowed.
fn numbers_of(words: &[String]) -> Option<(u32, u64)>
    ensures { IfSome result (λ numbers. (1 ≤ numbers.0) × (numbers.0 ≤ 4096)) }
{
    let [threads, each] = words else {
        return None;
    };
    let threads: u32 = threads.parse().ok()?;
    let each: u64 = each.parse().ok()?;
    if threads == 0 || threads > MOST {
        return None;
    }
    Some((threads, each))
}

/// Takes turns in threads, as many of each as the words say, and gives the status.
pub(crate) fn run<R: Threads + Wait + Sync>(
    host: &R,
    rt: HostRuntime,
    words: &[String],
) -> io::Result<u8> {
    let Some((threads, each)) = numbers_of(words) else {
        return refuse(rt, WORDS);
    };
    match take_turns(host, rt.alloc(), threads, each) {
        Some(turns) => print_turns(rt, turns),
        None => lack(rt),
    }
}
