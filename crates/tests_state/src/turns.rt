//! Turns of one thread and of many.

ghost use Rattle.std.specs.Prelude.{◌≡◌, ◌+◌, ◌≤◌, ◌<◌, ◌^◌, false, All, IfSome, length, vec_len};
ghost use mathlib.Core.List.{IsPrefix};

use std::alloc::Global;
use std::process::Abort;
use std::sync::Wait;
use std::thread;
use std::thread::Threads;
use turn_lock::{Kept, Pass, TurnLock};

/// Numbers with room for more, and a count of the turns that added one.
#[derive(Drop)]
struct Numbers {
    items: Vec<u64>,
    turns: u64,
}

impl Kept for Numbers {
    type Entry = u64;

    type Name = ();

    ghost entries = { λ n. n.items.items };

    ghost number = { λ n. n.turns };

    ghost name = { λ _. tt };
}

impl Numbers {
    fn add(&mut self, number: u64)
        ensures entries { IsPrefix self.old.items.items self.new.items.items }
        ensures turns { self.old.turns ≤ self.new.turns }
    {
        if self.items.push(number).is_ok() {
            self.turns = self.turns.saturating_add(1);
        }
    }
}

/// A turn that adds a number. There is none if the pass is worn.
fn add_one(rt: &impl Wait, lock: &TurnLock<Numbers>, pass: &mut Pass<Numbers>, number: u64) -> bool
    requires { (pass.old.lock ≡ lock.now) × (pass.old.in_turn ≡ false) }
    ensures { (pass.new.lock ≡ lock.now) × (pass.new.in_turn ≡ false) }
{
    let Ok(mut numbers) = lock.take(rt, pass) else {
        return false;
    };
    numbers.add(number);
    lock.give(pass, numbers);
    true
}

/// Adds `count` numbers, each in a turn of its own.
fn add_each(
    rt: &impl Wait,
    lock: &TurnLock<Numbers>,
    pass: &mut Pass<Numbers>,
    from: u64,
    count: u64,
) -> bool
    requires idle { (pass.old.lock ≡ lock.now) × (pass.old.in_turn ≡ false) }
    requires small { from + count < 2 ^ 32 }
    ensures { (pass.new.lock ≡ lock.now) × (pass.new.in_turn ≡ false) }
{
    for i in 0..count {
        if !add_one(rt, lock, pass, from + i) {
            return false;
        }
    }
    true
}

/// Each pass in a thread of its own, if there are that many.
fn add_in_threads<R: Threads + Wait + Sync>(
    rt: &R,
    lock: &TurnLock<Numbers>,
    passes: &mut [Pass<Numbers>],
    each: u64,
)
    requires idle { All (λ p. (p.lock ≡ lock.now) × (p.in_turn ≡ false)) passes.old }
    requires some { (0 < length passes.old) × (length passes.old ≤ 4096) × (each ≤ 100) }
    ensures { All (λ p. (p.lock ≡ lock.now) × (p.in_turn ≡ false)) passes.new }
{
    let threads = passes.len();
    let add = |place: usize, pass: &mut Pass<Numbers>|
        requires { (place < 4096) × (each ≤ 100) × (pass.now.lock ≡ lock.now) × (pass.now.in_turn ≡ false) }
        ensures { (pass.exit.now.lock ≡ lock.entry.now) × (pass.exit.now.in_turn ≡ false) }
    {
        add_each(rt, lock, pass, place as u64 * 100, each);
    };
    thread::for_each_mut(rt, passes, threads, &add);
}

/// A pass in which another one is joined, or the other one in which this one is joined.
fn met_by(
    lock: &TurnLock<Numbers>,
    pass: Pass<Numbers>,
    other: Pass<Numbers>,
    forwards: bool,
) -> Pass<Numbers>
    requires idle { (pass.lock ≡ lock.now) × (pass.in_turn ≡ false) }
    requires other { (other.lock ≡ lock.now) × (other.in_turn ≡ false) }
    ensures { (result.lock ≡ lock.now) × (result.in_turn ≡ false) }
{
    if forwards {
        met(lock, other, pass)
    } else {
        met(lock, pass, other)
    }
}

/// A pass in which another one is joined.
fn met(lock: &TurnLock<Numbers>, pass: Pass<Numbers>, other: Pass<Numbers>) -> Pass<Numbers>
    requires idle { (pass.lock ≡ lock.now) × (pass.in_turn ≡ false) }
    requires other { (other.lock ≡ lock.now) × (other.in_turn ≡ false) }
    ensures { (result.lock ≡ lock.now) × (result.in_turn ≡ false) }
{
    let mut joined = pass;
    lock.meet(&mut joined, other);
    joined
}

/// Joins all passes: each in the next one, or all in the last one.
fn meet_all(
    lock: &TurnLock<Numbers>,
    mut passes: Vec<Pass<Numbers>>,
    forwards: bool,
) -> Option<Pass<Numbers>>
    requires { All (λ p. (p.lock ≡ lock.now) × (p.in_turn ≡ false)) passes.items }
    ensures { IfSome result (λ p. (p.lock ≡ lock.now) × (p.in_turn ≡ false)) }
{
    let mut joined = passes.pop()?;
    while let Some(other) = passes.pop() {
        joined = met_by(lock, joined, other, forwards);
    }
    Some(joined)
}

/// Closes the lock, whose passes are all joined in this one.
fn close(rt: &impl Abort, lock: TurnLock<Numbers>, pass: Pass<Numbers>, passes: u32) -> Numbers
    requires lock { (pass.lock ≡ lock) × (lock.passes ≡ passes) }
    requires idle { pass.in_turn ≡ false }
{
    assert!(rt; TurnLock::joined(&pass) == passes);
    lock.close(pass)
}

/// The numbers from `from` on that are below `from + 100` stand in their order, each once. Answers the next one.
fn next_after(rt: &impl Abort, numbers: &[u64], from: u64) -> u64
    requires { from < 2 ^ 32 }
{
    let mut next = from;
    for number in numbers {
        if from <= *number && *number < from + 100 {
            assert!(rt; *number == next);
            next = *number + 1;
        }
    }
    next
}

/// A lock around an empty list of numbers, with room for `room` of them, and its passes.
fn opened(
    rt: &impl Abort,
    alloc: Global,
    room: usize,
    passes: u32,
    first: u64,
) -> (TurnLock<Numbers>, Vec<Pass<Numbers>>)
    requires { (1 ≤ passes) × (passes ≤ 4096) × (first ≤ 2 ^ 62) }
    ensures passes { result.0.passes ≡ passes }
    ensures count { vec_len result.1 ≡ passes }
    ensures idle { All (λ p. (p.lock ≡ result.0) × (p.in_turn ≡ false)) result.1.items }
{
    let items = Vec::with_capacity(alloc, room).expect(rt, "memory");
    let numbers = Numbers { items, turns: 0 };
    match TurnLock::new(alloc, numbers, passes, first) {
        Ok(made) => made,
        Err(_) => panic!(rt; "memory"),
    }
}

/// Whether the first of two passes has one turn, after which neither has another.
fn wears(
    rt: &impl Wait,
    lock: &TurnLock<Numbers>,
    first: &mut Pass<Numbers>,
    second: &mut Pass<Numbers>,
) -> bool
    requires first { (first.old.lock ≡ lock.now) × (first.old.in_turn ≡ false) }
    requires second { (second.old.lock ≡ lock.now) × (second.old.in_turn ≡ false) }
{
    let has_one = add_one(rt, lock, first, 0);
    let other = add_one(rt, lock, second, 0);
    let again = add_one(rt, lock, second, 0);
    has_one & !other & !again & !add_one(rt, lock, first, 0)
}

#[test]
fn a_worn_pass_has_no_more_turns(rt: HostRuntime) {
    let (lock, mut passes) = opened(&rt, rt.alloc(), 4, 2, (1 << 62) - 1);
    let mut second = passes.pop().expect(&rt, "two passes");
    let mut first = passes.pop().expect(&rt, "two passes");
    assert!(rt; wears(&rt, &lock, &mut first, &mut second));
}

#[test]
fn one_pass_takes_turns(rt: HostRuntime) {
    let (lock, mut passes) = opened(&rt, rt.alloc(), 4, 1, 1 << 61);
    let mut pass = passes.pop().expect(&rt, "one pass");
    assert!(rt; passes.is_empty());
    assert!(rt; add_each(&rt, &lock, &mut pass, 7, 3));
    let numbers = close(&rt, lock, pass, 1);
    assert!(rt; numbers.turns == 3 && numbers.items.as_slice() == [7, 8, 9].as_slice());
}

/// Adds numbers in threads, and gives what finally stands in the lock.
fn added_in_threads<R: Threads + Wait + Sync + Abort>(
    rt: &R,
    alloc: Global,
    threads: u32,
    each: u64,
    forwards: bool,
) -> Numbers
    requires { (1 ≤ threads) × (threads ≤ 4096) × (each ≤ 100) }
{
    let (lock, mut passes) = opened(rt, alloc, 640, threads, 0);
    add_in_threads(rt, &lock, passes.as_mut_slice(), each);
    let pass = meet_all(&lock, passes, forwards).expect(rt, "passes");
    close(rt, lock, pass, threads)
}

/// Whether each of `threads` threads added `each` numbers, each in a turn of its own.
fn has_all(rt: &impl Abort, numbers: &Numbers, threads: u32, each: u64) -> bool
    requires { (threads ≤ 4096) × (each ≤ 100) }
{
    let all = u64::from(threads) * each;
    let mut right = numbers.turns == all && numbers.items.len() as u64 == all;
    for place in 0..u64::from(threads) {
        let next = next_after(rt, numbers.items.as_slice(), place * 100);
        right &= next == place * 100 + each;
    }
    right
}

#[test]
fn many_threads_take_turns(rt: HostRuntime) {
    for (threads, each, forwards) in [(2, 100, false), (64, 10, false), (64, 10, true)] {
        let numbers = added_in_threads(&rt, rt.alloc(), threads, each, forwards);
        assert!(rt; has_all(&rt, &numbers, threads, each));
    }
}
