//! The steps of a turn, on the words and the slot of a lock's table.
#![tactic(auto)]

ghost use Rattle.std.specs.Prelude.{◌≡◌, ◌≢◌, ℕ, ◌+◌, ◌%◌, ◌^◌, ◌<◌, ◌≤◌, [], ◌∷◌, None, Some, IfOk, IfErr};
ghost use mathlib.Core.List.{IsPrefix};
ghost use Rattle.turn_lock.specs.Known.{opening_of, starting, holding, given, rest_of, one_of, both_of, compared};
ghost use Rattle.turn_lock.specs.Known.{drawn_by};
ghost use Rattle.turn_lock.specs.Plays.{Finds, KnowsAll};
ghost use Rattle.turn_lock.specs.declared.view.Stage.TheVariants.{Idle, Waiting, Holding};

use crate::kept::Kept;
use crate::patience::Patience;
use crate::plays::{Call, Compare, Draw, Look, PassOn, SplitOff, TakeIn, Turns};
use crate::view::{Known, Start};
use atomic_table::{Seat, Shared, Table};
use std::alloc::Global;
use std::hint::spin_loop;
use std::sync::Wait;

/// The first ticket that is worn: it is drawn, and never served.
pub const WORN_FROM: u64 = 1 << 62;

/// The word of the next ticket.
const TICKET: usize = 0;

/// The word of the ticket that is served.
const SERVING: usize = 1;

/// The first of the words on which waiters are parked.
const PARKING: usize = 2;

/// How many of these words there are.
const PARKED: usize = 63;

/// The word on which those without a ticket are parked.
const GATE: usize = PARKING + PARKED;

/// What each sleeper adds to its word, above the bits that a sleep compares. A word that starts there, or whose turns
/// reach it, costs wakes that wake nobody.
const SLEEPER: u64 = 1 << 32;

/// How many tickets are out at once before anyone who wants another one sleeps at the gate. These few hand the turn on
/// to each other without a sleep. If all had a ticket, each turn would wait until one more sleeper is awake.
const ROOM: u64 = 3;

/// One sleeper at the gate is let in each time this many turns have passed, however many tickets are out.
const ROTATION: u64 = 8;

/// All words of a lock.
const WORDS: usize = GATE + 1;

/// The slot of the value.
const VALUE: usize = 0;

/// The words and the slot of a lock, as its passes share them.
pub type Words<T> = Shared<
    Option<T>,
    Known<<T as Kept>::Entry, <T as Kept>::Name>,
    Start<T>,
    Turns<T>,
>;

/// The same, with their memory.
pub type Home<T> = Table<
    Option<T>,
    Known<<T as Kept>::Entry, <T as Kept>::Name>,
    Start<T>,
    Turns<T>,
    Global,
>;

/// What a pass takes its steps with.
pub type Place<T> = Seat<Option<T>, Known<<T as Kept>::Entry, <T as Kept>::Name>>;

/// The table of a lock, and its first seat.
pub fn open<T: Kept>(alloc: Global, value: T, start: &Start<T>) -> Result<(Home<T>, Place<T>), T>
    requires value { start.now.value.value ≡ value }
    requires passes { (0 < start.now.passes) × (start.now.passes ≤ 4096) }
    requires first { start.now.first ≤ 2 ^ 62 }
    ensures table { IfOk result (λ r. (r.0.shared.table_id.words ≡ 66) × (r.0.shared.table_id.slots ≡ 1)
        × (r.0.shared.key ≡ start.now) × (r.1.table_id ≡ r.0.shared.table_id)) }
    ensures seat { IfOk result (λ r. r.1.me
        ≡ (starting (opening_of T.entries T.number T.name value start.now.first start.now.passes), [])) }
    ensures value { IfErr result (λ v. v ≡ value) }
{
    let mut slots = Vec::new(alloc);
    if let Err(failed) = slots.push(Some(value)) {
        slots.destroy_empty();
        let Some(value) = failed.value else {
            unreachable!()
        };
        return Err(value);
    }
    match Table::new(alloc, &[start.first; WORDS], slots, start) {
        Ok(made) => Ok(made),
        Err(mut refused) => {
            let Some(Some(value)) = refused.slots.pop() else {
                unreachable!()
            };
            refused.slots.destroy_empty();
            Err(value)
        }
    }
}

/// Sleeps at the gate if as many tickets are out as can be handed on without a sleep. The one that is woken there draws
/// next, so each is let in after some turns.
pub fn enter<T: Kept>(rt: &impl Wait, words: &Words<T>, seat: &mut Place<T>)
    requires table { (seat.old.table_id ≡ words.now.table_id) × (words.now.table_id.words ≡ 66) }
    ensures table { seat.new.table_id ≡ seat.old.table_id }
    ensures seat { seat.new.me ≡ seat.old.me }
{
    if !is_crowded(words) {
        return;
    }
    // The sleeper is counted before it looks again, and the one that lets it in raises the word after that. A turn that
    // ends with no ticket out lets one in, so if it looks crowded, there is a turn to come that does.
    let parked = words.fetch_add::<Call>(seat, GATE, SLEEPER);
    if is_crowded(words) {
        words.park(rt, GATE, (parked % SLEEPER) as u32);
    }
    words.fetch_sub::<Call>(seat, GATE, SLEEPER);
}

/// Whether as many tickets are out as can be handed on without a sleep. Worn ones are never served, so nobody waits for
/// those.
fn is_crowded<T: Kept>(words: &Words<T>) -> bool
    requires table { words.now.table_id.words ≡ 66 }
{
    // The ticket that is served is read first, so that the next one to draw is never below it.
    let served = words.peek(SERVING);
    let next = words.peek(TICKET);
    next < WORN_FROM && next.wrapping_sub(served) >= ROOM
}

/// Draws a ticket.
pub fn draw<T: Kept>(words: &Words<T>, seat: &mut Place<T>) -> u64
    requires table { (seat.old.table_id ≡ words.now.table_id) × (words.now.table_id.words ≡ 66) }
    requires idle { (seat.old.me.0.stage ≡ Idle) × (seat.old.me.0.greatest < 2 ^ 62) × (0 < seat.old.me.0.parts) }
    ensures table { seat.new.table_id ≡ seat.old.table_id }
    ensures slots { seat.new.me.1 ≡ seat.old.me.1 }
    ensures view { seat.new.me.0 ≡ drawn_by seat.old.me.0 result }
    ensures above { seat.old.me.0.greatest ≤ result }
    ensures next { seat.old.me.0.parts ≡ seat.old.me.0.opening.passes
        → result ≡ seat.old.me.0.opening.first + seat.old.me.0.draws }
{
    words.fetch_add::<Draw>(seat, TICKET, 1)
}

/// The word on which the waiter of this ticket is parked.
fn parking_of(ticket: u64) -> usize
    ensures { result ≡ 2 + ticket % 63 }
{
    PARKING + (ticket % PARKED as u64) as usize
}

/// Waits until the ticket is served, and takes the value out.
pub fn wait<T: Kept>(
    rt: &impl Wait,
    words: &Words<T>,
    seat: &mut Place<T>,
    patience: &mut Patience,
    ticket: u64,
) -> T
    requires table { (seat.old.table_id ≡ words.now.table_id) × (words.now.table_id.words ≡ 66) }
    requires waits { (seat.old.me.0.stage ≡ Waiting ticket) × (seat.old.me.1 ≡ []) }
    ensures table { seat.new.table_id ≡ seat.old.table_id }
    ensures out { seat.new.me.1 ≡ (0, None) ∷ [] }
    ensures view { seat.new.me.0 ≡ holding seat.old.me.0 ticket (T.entries result) (T.number result) }
    ensures begins { IsPrefix seat.old.me.0.log (T.entries result) }
    ensures reached { seat.old.me.0.floor ≤ T.number result }
    ensures named { Some (T.name result) ≡ seat.old.me.0.opening.name }
{
    await_turn(rt, words, seat, patience, ticket);
    let taken = words.exchange(seat, VALUE, None);
    let Some(value) = taken else { unreachable!() };
    value
}

/// Waits until the ticket is served: awake while it is one of the next and as long as its patience lasts, otherwise
/// asleep.
fn await_turn<T: Kept>(
    rt: &impl Wait,
    words: &Words<T>,
    seat: &mut Place<T>,
    patience: &mut Patience,
    ticket: u64,
)
    requires table { (seat.old.table_id ≡ words.now.table_id) × (words.now.table_id.words ≡ 66) }
    requires waits { (seat.old.me.0.stage ≡ Waiting ticket) × (seat.old.me.1 ≡ []) }
    ensures table { seat.new.table_id ≡ seat.old.table_id }
    ensures finds { Finds T.entries T.number T.name ticket seat.old.me ticket seat.new.me }
{
    let is_served = watch(words, seat, patience.looks(), ticket) == ticket;
    patience.note(is_served);
    if !is_served {
        sleep(rt, words, seat, ticket);
    }
}

/// Looks up to `looks` times, while the ticket is one of the next, and returns which was served at the last look. A
/// waiter with a later ticket looks once, since it would only keep a processor from those ahead of it.
fn watch<T: Kept>(words: &Words<T>, seat: &mut Place<T>, looks: u32, ticket: u64) -> u64
    requires table { (seat.old.table_id ≡ words.now.table_id) × (words.now.table_id.words ≡ 66) }
    requires waits { (seat.old.me.0.stage ≡ Waiting ticket) × (seat.old.me.1 ≡ []) }
    ensures table { seat.new.table_id ≡ seat.old.table_id }
    ensures finds { Finds T.entries T.number T.name ticket seat.old.me result seat.new.me }
{
    'looks: for _ in 0..looks {
        let served = look(words, seat, ticket);
        if served == ticket || ticket.wrapping_sub(served) >= ROOM {
            return served;
        }
        spin_loop();
    }
    look(words, seat, ticket)
}

/// Sleeps until the ticket is served.
fn sleep<T: Kept>(rt: &impl Wait, words: &Words<T>, seat: &mut Place<T>, ticket: u64)
    requires table { (seat.old.table_id ≡ words.now.table_id) × (words.now.table_id.words ≡ 66) }
    requires waits { (seat.old.me.0.stage ≡ Waiting ticket) × (seat.old.me.1 ≡ []) }
    ensures table { seat.new.table_id ≡ seat.old.table_id }
    ensures finds { Finds T.entries T.number T.name ticket seat.old.me ticket seat.new.me }
{
    let parking = parking_of(ticket);
    'sleeps: for _ in rt.forever() {
        // The sleeper is counted before the turn is looked at, and the one that makes it this ticket's turn raises the
        // word after that: so it sees a sleeper and wakes it, or the sleep finds another word and ends at once.
        let parked = words.fetch_add::<Call>(seat, parking, SLEEPER);
        let served = look(words, seat, ticket);
        if served != ticket {
            words.park(rt, parking, (parked % SLEEPER) as u32);
        }
        words.fetch_sub::<Call>(seat, parking, SLEEPER);
        if served == ticket {
            return;
        }
    }
    unreachable!()
}

/// Which ticket is served. If it is this one, the slot is out with the seat.
fn look<T: Kept>(words: &Words<T>, seat: &mut Place<T>, ticket: u64) -> u64
    requires table { (seat.old.table_id ≡ words.now.table_id) × (words.now.table_id.words ≡ 66) }
    requires waits { (seat.old.me.0.stage ≡ Waiting ticket) × (seat.old.me.1 ≡ []) }
    ensures table { seat.new.table_id ≡ seat.old.table_id }
    ensures finds { Finds T.entries T.number T.name ticket seat.old.me result seat.new.me }
{
    words.load::<Look<T>>(seat, SERVING)
}

/// Puts the value back, and passes the turn on.
pub fn pass_on<T: Kept>(words: &Words<T>, seat: &mut Place<T>, value: T)
    requires table { (seat.old.table_id ≡ words.now.table_id) × (words.now.table_id.words ≡ 66) }
    requires holds { ((t : ℕ) × (seat.old.me.0.stage ≡ Holding t)) × (seat.old.me.1 ≡ (0, None) ∷ [])
        × (0 < seat.old.me.0.parts) }
    requires begins { IsPrefix seat.old.me.0.log (T.entries value) }
    requires reached { seat.old.me.0.floor ≤ T.number value }
    requires named { Some (T.name value) ≡ seat.old.me.0.opening.name }
    ensures table { seat.new.table_id ≡ seat.old.table_id }
    ensures seat { seat.new.me ≡ (given seat.old.me.0 (T.entries value) (T.number value), []) }
{
    let empty = words.exchange(seat, VALUE, Some(value));
    let None = empty else { unreachable!() };
    let served = words.fetch_add::<PassOn<T>>(seat, SERVING, 1);
    let next = served.wrapping_add(1);
    call(words, seat, next);
    if next % ROTATION == 0 || words.peek(TICKET) == next {
        let_in(words, seat);
    }
}

/// Wakes one sleeper at the gate, if there is one.
pub fn let_in<T: Kept>(words: &Words<T>, seat: &mut Place<T>)
    requires table { (seat.old.table_id ≡ words.now.table_id) × (words.now.table_id.words ≡ 66) }
    ensures table { seat.new.table_id ≡ seat.old.table_id }
    ensures seat { seat.new.me ≡ seat.old.me }
{
    if words.peek(GATE) >= SLEEPER {
        words.fetch_add::<Call>(seat, GATE, 1);
        words.wake_one(GATE);
    }
}

/// Wakes the waiter of this ticket, and those whose tickets have the same word, if one of them sleeps.
fn call<T: Kept>(words: &Words<T>, seat: &mut Place<T>, ticket: u64)
    requires table { (seat.old.table_id ≡ words.now.table_id) × (words.now.table_id.words ≡ 66) }
    ensures table { seat.new.table_id ≡ seat.old.table_id }
    ensures seat { seat.new.me ≡ seat.old.me }
{
    let parking = parking_of(ticket);
    let parked = words.fetch_add::<Call>(seat, parking, 1);
    if parked >= SLEEPER {
        words.wake_all(parking);
    }
}

/// Splits a pass off.
pub fn split<T: Kept>(words: &Words<T>, seat: &mut Place<T>) -> Place<T>
    requires table { (seat.old.table_id ≡ words.now.table_id) × (words.now.table_id.words ≡ 66) }
    requires idle { (seat.old.me.0.stage ≡ Idle) × (seat.old.me.0.greatest < 2 ^ 62) × (1 < seat.old.me.0.parts) }
    ensures table { (seat.new.table_id ≡ seat.old.table_id) × (result.table_id ≡ seat.old.table_id) }
    ensures left { seat.new.me ≡ (rest_of seat.old.me.0, seat.old.me.1) }
    ensures right { result.me ≡ (one_of seat.old.me.0, []) }
{
    words.split_seat::<SplitOff>(seat)
}

/// Joins another pass, and compares the two logs.
pub fn join<T: Kept>(words: &Words<T>, seat: &mut Place<T>, other: Place<T>)
    requires table { (seat.old.table_id ≡ words.now.table_id) × (other.table_id ≡ words.now.table_id)
        × (words.now.table_id.words ≡ 66) }
    requires idle { (seat.old.me.0.stage ≡ Idle) × (seat.old.me.1 ≡ []) × (0 < seat.old.me.0.parts) }
    requires idle_too { (other.me.0.stage ≡ Idle) × (other.me.1 ≡ []) }
    ensures table { seat.new.table_id ≡ seat.old.table_id }
    ensures seat { seat.new.me ≡ (compared (both_of seat.old.me.0 other.me.0), []) }
    ensures begins { IsPrefix (both_of seat.old.me.0 other.me.0).beside (both_of seat.old.me.0 other.me.0).log }
    ensures few { seat.old.me.0.parts + other.me.0.parts ≤ 4096 }
    ensures all { seat.old.me.0.parts + other.me.0.parts ≡ seat.old.me.0.opening.passes
        → KnowsAll (both_of seat.old.me.0 other.me.0) }
{
    words.join_seat::<TakeIn>(seat, other);
    words.load::<Compare>(seat, TICKET);
}

/// Takes the value out of the table for good.
pub fn close<T: Kept>(table: Home<T>, seat: Place<T>) -> T
    requires table { (seat.table_id ≡ table.shared.table_id) × (table.shared.table_id.words ≡ 66)
        × (table.shared.table_id.slots ≡ 1) }
    requires all { (seat.me.0.parts ≡ table.shared.key.passes) × (0 < seat.me.0.parts) }
    requires idle { seat.me.0.stage ≡ Idle }
    ensures log { T.entries result ≡ seat.me.0.log }
    ensures number { T.number result ≡ seat.me.0.floor }
    ensures named { Some (T.name result) ≡ seat.me.0.opening.name }
    ensures all { KnowsAll seat.me.0 }
{
    let mut closed = table.close_with(seat);
    let slot = closed.take(VALUE);
    closed.free();
    let Some(value) = slot else { unreachable!() };
    value
}
