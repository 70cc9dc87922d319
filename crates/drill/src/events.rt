//! The events of a drill.

ghost use Rattle.std.specs.Prelude.{◌≡◌, ◌≢◌, ◌<◌, ◌≤◌, ◌+◌, ℕ, length, IfNone, IfOk, IfSome, IsTrue, if◌then◌else◌};
ghost use Rattle.drill.specs.Courses.{Awaits, Drops, HasNoNext, HaveShares, IsGood, IsNextOf, IsOnCourse, IsSettled};
ghost use Rattle.drill.specs.Courses.{MayStep, Opens, Plays, Stepped, Steps, uses_of, world};
ghost use Rattle.drill.specs.Drills.{AtMost, IsFor, IsSized, IsTableFor, StaysFor, StepsTo};
ghost use Rattle.drill.specs.Ids.{DifferentIds};
ghost use Rattle.drill.specs.Keys.{DealtTo};
ghost use Rattle.drill.specs.Openings.{AreOwn};
ghost use Rattle.drill.specs.Seats.{Fits, IsOf};
ghost use Rattle.drill_schedule.specs.Events.{is_cut};
ghost use Rattle.drill_trustees.specs.Trustees.{SameShares, leaf_at};
ghost use Rattle.leaf_table.specs.Entries.{LeafUse};

use crate::asks::{NextAsk, next_ask};
use crate::desk::Desk;
use crate::openings::Openings;
use crate::seat::Seat;
use crate::state::{Asks, Drill, NO_ASKS};
use crate::steps::{answered, lease, put_ask, put_cut};
use disk_trait::MemDisk;
use drill_schedule::{Event, message_of};
use drill_trustees::{Answer, Trustees};
use leaf_table::Table;
use memory::NoMemory;
use session_core::Session;
use std::alloc::Global;
use std::mem;

/// One more ask that is known to be granted or not.
fn one(granted: bool) -> Asks
    ensures bound { AtMost 1 result }
    ensures put { result.put ≡ 1 }
    ensures cut { result.cut ≡ 0 }
    ensures granted { IsTrue granted → result.granted + result.cut ≡ result.put }
{
    Asks {
        put: 1,
        granted: if granted { 1 } else { 0 },
        cut: 0,
    }
}

/// An ask that may have stopped a disk.
fn one_of(answer: &Answer) -> Asks
    ensures bound { AtMost 1 result }
    ensures put { result.put ≡ 1 }
    ensures parts { answer.now ≢ Answer.Refused → result.granted + result.cut ≡ result.put }
{
    match answer {
        Answer::Granted(_) => one(true),
        Answer::Refused => one(false),
        Answer::Stopped => Asks {
            put: 1,
            granted: 0,
            cut: 1,
        },
    }
}

/// Both together.
fn sum(first: &Asks, second: &Asks) -> Asks
    requires first { AtMost 1 first.now }
    requires second { AtMost 1 second.now }
    ensures bound { AtMost 2 result }
    ensures put { result.put ≡ first.now.put + second.now.put }
    ensures cut { result.cut ≡ first.now.cut + second.now.cut }
    ensures parts { first.now.granted + first.now.cut ≡ first.now.put
        → second.now.granted + second.now.cut ≡ second.now.put → result.granted + result.cut ≡ result.put }
{
    Asks {
        put: first.put + second.put,
        granted: first.granted + second.granted,
        cut: first.cut + second.cut,
    }
}

/// The next ask of a seat, if it has one.
fn next_of(desk: &Desk, seat: &Seat, i: u32) -> Option<NextAsk>
    requires fits { Fits desk.now.dealt.public desk.now.plan i seat.now }
    ensures within { IfSome result (λ next. (1 ≤ next.member) × (next.member ≤ 3)) }
    ensures sizes { IfSome result (λ next. IsSized next.ask) }
    ensures next { IfSome result (λ next. IsNextOf desk.now i next seat.now) }
    ensures none { IfNone result (HasNoNext seat.now) }
{
    match seat {
        Seat::Running(session) => next_ask(desk, session, &message_of(i)),
        Seat::Waiting | Seat::Signed(_) | Seat::Refused => None,
    }
}

/// A session with a leaf puts its next ask, and takes the answer.
fn step_running(
    alloc: Global,
    desk: &Desk,
    trustees: Trustees,
    openings: &mut Openings,
    session: Session,
    i: u32,
) -> Result<(Trustees, Seat, Asks), NoMemory>
    requires of { IsOf desk.now.dealt.public desk.now.plan i session }
    ensures to { IfOk result (λ all. StepsTo desk.now i all.1 all.2) }
    ensures shares { IfOk result (λ all. SameShares trustees all.0) }
    ensures goes { (own : DealtTo desk.now) (map : ℕ → LeafUse) → HaveShares own.dealing trustees
        → IsOnCourse desk.now own.dealing i map (leaf_at trustees) session → ((t : ℕ) × Awaits session t)
        → IfOk result (λ all. Steps desk.now own.dealing i (world map trustees) (world map all.0)
        (Seat.Running session) all.1 all.2) }
    ensures openings { (own : DealtTo desk.now) (map : ℕ → LeafUse) (count : ℕ)
        → i < count → DifferentIds count → HaveShares own.dealing trustees
        → IsOnCourse desk.now own.dealing i map (leaf_at trustees) session → ((t : ℕ) × Awaits session t)
        → AreOwn desk.now own.dealing count map openings.old.list.items → IfOk result (λ all.
        Opens desk.now own.dealing count map openings.old.list.items openings.new.list.items all.1) }
{
    let message = message_of(i);
    let Some(next) = next_ask(desk, &session, &message) else {
        return Ok((trustees, Seat::Running(session), NO_ASKS));
    };
    let (trustees, grant) = put_ask(trustees, openings, &next)?;
    let asks = one(grant.is_some());
    let seat = answered(alloc, desk, &trustees, session, &next, grant, i, &message)?;
    Ok((trustees, seat, asks))
}

/// A session takes a step.
fn step_seat(
    alloc: Global,
    desk: &Desk,
    trustees: Trustees,
    table: &mut Table<MemDisk>,
    openings: &mut Openings,
    seat: Seat,
    i: u32,
) -> Result<(Trustees, Seat, Asks), NoMemory>
    requires fits { Fits desk.now.dealt.public desk.now.plan i seat }
    requires table { IsTableFor desk.now table.old }
    ensures table { IsTableFor desk.now table.new }
    ensures to { IfOk result (λ all. StepsTo desk.now i all.1 all.2) }
    ensures goes { (own : DealtTo desk.now) → MayStep desk.now own.dealing i table.old trustees seat
        → IfOk result (λ all. IsSettled table.new × Steps desk.now own.dealing i (world (uses_of table.old) trustees)
        (world (uses_of table.new) all.0) seat all.1 all.2) }
    ensures openings { (own : DealtTo desk.now) (count : ℕ) → i < count → DifferentIds count
        → MayStep desk.now own.dealing i table.old trustees seat
        → Opens desk.now own.dealing count (uses_of table.old) openings.old.list.items openings.old.list.items seat
        → IfOk result (λ all. Opens desk.now own.dealing count (uses_of table.old) openings.old.list.items
        openings.new.list.items all.1) }
{
    match seat {
        Seat::Running(session) => step_running(alloc, desk, trustees, openings, session, i),
        Seat::Waiting => {
            let seat = lease(alloc, desk, table, i, &message_of(i))?;
            Ok((trustees, seat, NO_ASKS))
        }
        Seat::Signed(leaf) => Ok((trustees, Seat::Signed(leaf), NO_ASKS)),
        Seat::Refused => Ok((trustees, Seat::Refused, NO_ASKS)),
    }
}

/// Session `i` takes a step.
pub(crate) fn step(
    alloc: Global,
    desk: &Desk,
    drill: Drill,
    i: u32,
) -> Result<(Drill, Asks), NoMemory>
    requires is_for { IsFor desk.now drill }
    requires within { i < length drill.seats.items }
    ensures stays { IfOk result (λ pair. StaysFor desk.now drill pair.0 1 pair.1) }
    ensures cut { IfOk result (λ pair. pair.1.cut ≡ 0) }
    ensures goes { (own : DealtTo desk.now) → IsGood desk.now own.dealing drill
        → IfOk result (λ pair. Stepped desk.now own.dealing i drill pair.0 pair.1) }
{
    let Drill {
        trustees,
        mut table,
        mut seats,
        mut openings,
    } = drill;
    // Its place is filled again below.
    let seat = mem::replace(&mut seats[i as usize], Seat::Refused);
    let (trustees, seat, asks) = step_seat(
        alloc,
        desk,
        trustees,
        &mut table,
        &mut openings,
        seat,
        i,
    )?;
    seats[i as usize] = seat;
    let drill = Drill {
        trustees,
        table,
        seats,
        openings,
    };
    Ok((drill, asks))
}

/// The next ask of session `i` is put, and the answer is dropped.
fn ask_and_drop(desk: &Desk, drill: Drill, i: u32) -> Result<(Drill, Asks), NoMemory>
    requires is_for { IsFor desk.now drill }
    requires within { i < length drill.seats.items }
    ensures stays { IfOk result (λ pair. StaysFor desk.now drill pair.0 1 pair.1) }
    ensures cut { IfOk result (λ pair. pair.1.cut ≡ 0) }
    ensures goes { (own : DealtTo desk.now) → IsGood desk.now own.dealing drill
        → IfOk result (λ pair. Drops desk.now own.dealing i drill pair.0 pair.1) }
{
    let Some(next) = next_of(desk, &drill.seats[i as usize], i) else {
        return Ok((drill, NO_ASKS));
    };
    let Drill {
        trustees,
        table,
        seats,
        mut openings,
    } = drill;
    let (trustees, grant) = put_ask(trustees, &mut openings, &next)?;
    let drill = Drill {
        trustees,
        table,
        seats,
        openings,
    };
    Ok((drill, one(grant.is_some())))
}

/// The next ask of session `i` is put twice, and the second answer is taken.
fn ask_twice(alloc: Global, desk: &Desk, drill: Drill, i: u32) -> Result<(Drill, Asks), NoMemory>
    requires is_for { IsFor desk.now drill }
    requires within { i < length drill.seats.items }
    ensures stays { IfOk result (λ pair. StaysFor desk.now drill pair.0 2 pair.1) }
    ensures cut { IfOk result (λ pair. pair.1.cut ≡ 0) }
    ensures goes { (own : DealtTo desk.now) → IsGood desk.now own.dealing drill
        → IfOk result (λ pair. Plays desk.now own.dealing Event.Twice i drill pair.0 pair.1) }
{
    if next_of(desk, &drill.seats[i as usize], i).is_none() {
        return Ok((drill, NO_ASKS));
    }
    let (drill, first) = ask_and_drop(desk, drill, i)?;
    let (drill, second) = step(alloc, desk, drill, i)?;
    Ok((drill, sum(&first, &second)))
}

/// The next ask of session `i` is put while the trustee's disk stops, and the answer is dropped.
fn cut(
    alloc: Global,
    desk: &Desk,
    drill: Drill,
    i: u32,
    pick: u32,
) -> Result<(Drill, Asks), NoMemory>
    requires is_for { IsFor desk.now drill }
    requires within { i < length drill.seats.items }
    ensures stays { IfOk result (λ pair. StaysFor desk.now drill pair.0 1 pair.1) }
    ensures goes { (own : DealtTo desk.now) → IsGood desk.now own.dealing drill
        → IfOk result (λ pair. Drops desk.now own.dealing i drill pair.0 pair.1) }
{
    let Some(next) = next_of(desk, &drill.seats[i as usize], i) else {
        return Ok((drill, NO_ASKS));
    };
    let Drill {
        trustees,
        table,
        seats,
        mut openings,
    } = drill;
    let (trustees, answer) = put_cut(alloc, trustees, &mut openings, &next, pick)?;
    let drill = Drill {
        trustees,
        table,
        seats,
        openings,
    };
    Ok((drill, one_of(&answer)))
}

/// A trustee is loaded anew.
fn restarted(alloc: Global, desk: &Desk, drill: Drill, pick: u32) -> Result<Drill, NoMemory>
    requires is_for { IsFor desk.now drill }
    ensures is_for { IfOk result (IsFor desk.now) }
    ensures seats { IfOk result (λ after. after.seats.items ≡ drill.seats.items) }
    ensures good { (own : DealtTo desk.now) → IsGood desk.now own.dealing drill
        → IfOk result (IsGood desk.now own.dealing) }
{
    let Drill {
        trustees,
        table,
        seats,
        openings,
    } = drill;
    let member = (1 + pick % 3) as u8;
    Ok(Drill {
        trustees: trustees.restarted(alloc, member)?,
        table,
        seats,
        openings,
    })
}

/// An event of session `i`.
pub(crate) fn play(
    alloc: Global,
    desk: &Desk,
    drill: Drill,
    event: Event,
    i: u32,
    pick: u32,
) -> Result<(Drill, Asks), NoMemory>
    requires is_for { IsFor desk.now drill }
    requires within { i < length drill.seats.items }
    ensures stays { IfOk result (λ pair. StaysFor desk.now drill pair.0 2 pair.1) }
    ensures cut { IfOk result (λ pair. pair.1.cut ≤ (if is_cut event then 1 else 0)) }
    ensures goes { (own : DealtTo desk.now) → IsGood desk.now own.dealing drill
        → IfOk result (λ pair. Plays desk.now own.dealing event i drill pair.0 pair.1) }
{
    match event {
        Event::Step => step(alloc, desk, drill, i),
        Event::Twice => ask_twice(alloc, desk, drill, i),
        Event::Dropped => ask_and_drop(desk, drill, i),
        Event::Cut => cut(alloc, desk, drill, i, pick),
        Event::Restart => Ok((restarted(alloc, desk, drill, pick)?, NO_ASKS)),
    }
}
