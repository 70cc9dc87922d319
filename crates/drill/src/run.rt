//! The run of a drill.

ghost use Rattle.std.specs.Prelude.{◌≡◌, ◌≤◌, ◌<◌, ◌+◌, ℕ, length, slice_index_or, All, IfOk};
ghost use Rattle.dealer.specs.Dealt.{IsDealt};
ghost use Rattle.dealer.specs.Entropy.{dealing_of};
ghost use Rattle.drill.specs.Courses.{AreFinished, HasEnded, HasPlayed, HasSigned, IsFinished, IsGood, IsSettled};
ghost use Rattle.drill.specs.Courses.{IsWell, PlaysOn};
ghost use Rattle.drill.specs.Disks.{AreDisks};
ghost use Rattle.drill.specs.Drills.{HasTable, IsFor, Seats};
ghost use Rattle.drill.specs.Ids.{DifferentIds};
ghost use Rattle.drill.specs.Counts.{signed_in};
ghost use Rattle.drill.specs.Keys.{DealtTo};
ghost use Rattle.drill.specs.Seats.{AreWaiting};
ghost use Rattle.drill.specs.Summaries.{IsSummary, events_in};
ghost use Rattle.drill.specs.Tallies.{CountsOne, HasCounted, IsWithin};
ghost use Rattle.drill.specs.declared.seat.Seat.{Seat as Place};
ghost use Rattle.drill_schedule.specs.Draws.{entropy_of, event_at, state_at};
ghost use Rattle.drill_trustees.specs.Trustees.{AreJournals};
ghost use Rattle.leaf_table.specs.Table.{plan_of};

use crate::dealing::deal_drill;
use crate::desk::Desk;
use crate::events::{play, step};
use crate::seat::Seat;
use crate::start::start;
use crate::state::Drill;
use crate::tally::{NOTHING, Tally};
use disk_trait::{Generator, MemDisk};
use drill_schedule::{Schedule, Summary, draw_entropy};
use memory::NoMemory;
use std::alloc::Global;

/// What a drill leaves.
#[derive(Drop)]
pub struct Drilled {
    /// What came of its sessions and asks.
    pub summary: Summary,
    /// The disks of trustees 1, 2 and 3, in this order.
    pub journals: Vec<MemDisk>,
    /// The disk of the leaf table.
    pub table: MemDisk,
}

/// Plays the next event, and counts it.
fn play_next(
    alloc: Global,
    desk: &Desk,
    drill: Drill,
    generator: &mut Generator,
    tally: &mut Tally,
    sessions: u32,
) -> Result<Drill, NoMemory>
    requires seated { Seats desk.now sessions drill }
    requires some { 0 < sessions }
    requires room { IsWithin 900000 tally.old }
    requires few { tally.old.restarts ≤ 900000 }
    ensures seated { IfOk result (Seats desk.now sessions) }
    ensures state { (number i : ℕ) → generator.old.state ≡ state_at number i
        → generator.new.state ≡ state_at number (i + 3) }
    ensures counted { (number i : ℕ) → generator.old.state ≡ state_at number i
        → IfOk result (λ _. CountsOne (event_at number i).event tally.old tally.new) }
    ensures well { IfOk result (λ after.
        PlaysOn desk.now sessions generator.old.state drill tally.old after tally.new) }
{
    let schedule = Schedule::draw(generator);
    tally.add_restart(schedule.event);
    let i = schedule.session % sessions;
    let (played, asks) = play(alloc, desk, drill, schedule.event, i, schedule.pick)?;
    tally.add(&asks);
    Ok(played)
}

/// Plays this number of events.
fn play_all(
    alloc: Global,
    desk: &Desk,
    drill: Drill,
    generator: &mut Generator,
    sessions: u32,
    events: u32,
) -> Result<(Drill, Tally), NoMemory>
    requires seated { Seats desk.now sessions drill }
    requires some { 0 < sessions }
    requires few { events ≤ 100000 }
    ensures seated { IfOk result (λ pair. Seats desk.now sessions pair.0) }
    ensures within { IfOk result (λ pair. IsWithin 200000 pair.1) }
    ensures counted { (number : ℕ) → generator.old.state ≡ state_at number 176
        → IfOk result (λ pair. HasCounted number events pair.1) }
    ensures well { (own : DealtTo desk.now) (number : ℕ) → generator.old.state ≡ state_at number 176
        → IsGood desk.now own.dealing drill → AreWaiting drill.seats.items
        → IfOk result (λ pair. HasPlayed desk.now own.dealing number sessions events pair.0 pair.1) }
{
    let mut drill = drill;
    let mut tally = NOTHING;
    'events: for done in 0..events {
        drill = play_next(alloc, desk, drill, generator, &mut tally, sessions)?;
    }
    Ok((drill, tally))
}

/// Plays this number of events, or none if there is no session.
fn play_events(
    alloc: Global,
    desk: &Desk,
    drill: Drill,
    generator: &mut Generator,
    sessions: u32,
    events: u32,
) -> Result<(Drill, Tally), NoMemory>
    requires seated { Seats desk.now sessions drill }
    requires few { events ≤ 100000 }
    ensures seated { IfOk result (λ pair. Seats desk.now sessions pair.0) }
    ensures within { IfOk result (λ pair. IsWithin 200000 pair.1) }
    ensures counted { (number : ℕ) → generator.old.state ≡ state_at number 176
        → IfOk result (λ pair. HasCounted number (events_in sessions events) pair.1) }
    ensures well { (own : DealtTo desk.now) (number : ℕ) → generator.old.state ≡ state_at number 176
        → IsGood desk.now own.dealing drill → AreWaiting drill.seats.items
        → IfOk result (λ pair.
        HasPlayed desk.now own.dealing number sessions (events_in sessions events) pair.0 pair.1) }
{
    if sessions == 0 {
        return Ok((drill, NOTHING));
    }
    play_all(alloc, desk, drill, generator, sessions, events)
}

/// Lets session `i` take steps until it has ended: a lease and four asks.
fn finish_session(
    alloc: Global,
    desk: &Desk,
    drill: Drill,
    tally: &mut Tally,
    i: u32,
) -> Result<Drill, NoMemory>
    requires is_for { IsFor desk.now drill }
    requires within { i < length drill.seats.items }
    requires room { IsWithin 900000 tally.old }
    ensures seated { IfOk result (Seats desk.now (length drill.seats.items)) }
    ensures asks { tally.new.asks ≤ tally.old.asks + 5 }
    ensures within { IsWithin (tally.old.asks + 5) tally.new }
    ensures cuts { tally.new.cuts ≡ tally.old.cuts }
    ensures restarts { tally.new.restarts ≡ tally.old.restarts }
    ensures well { (own : DealtTo desk.now) (extra : ℕ)
        → IsWell desk.now own.dealing extra drill tally.old
        → IfOk result (λ after. IsFinished desk.now own.dealing extra i drill after tally.new) }
{
    let mut drill = drill;
    'steps: for taken in 0..5u32 {
        let (after, asks) = step(alloc, desk, drill, i)?;
        drill = after;
        tally.add(&asks);
    }
    Ok(drill)
}

/// Lets each session take steps until it has ended.
fn finish_all(
    alloc: Global,
    desk: &Desk,
    drill: Drill,
    tally: &mut Tally,
    sessions: u32,
) -> Result<Drill, NoMemory>
    requires seated { Seats desk.now sessions drill }
    requires few { sessions ≤ 10000 }
    requires room { IsWithin 200000 tally.old }
    ensures seated { IfOk result (Seats desk.now sessions) }
    ensures parts { tally.new.granted + tally.new.cuts ≤ tally.new.asks }
    ensures cuts { tally.new.cuts ≡ tally.old.cuts }
    ensures restarts { tally.new.restarts ≡ tally.old.restarts }
    ensures well { (own : DealtTo desk.now) (extra : ℕ)
        → IsWell desk.now own.dealing extra drill tally.old
        → IfOk result (λ after. AreFinished desk.now own.dealing extra sessions after tally.new) }
{
    let mut drill = drill;
    'sessions: for i in 0..sessions {
        drill = finish_session(alloc, desk, drill, tally, i)?;
    }
    Ok(drill)
}

/// How many sessions signed, and how many were refused.
fn count_ends(seats: &[Seat]) -> (u32, u32)
    requires { length seats.now ≤ 10000 }
    ensures within { result.0 + result.1 ≤ length seats.now }
    ensures signed { result.0 ≡ signed_in seats.now }
    ensures all { All HasEnded seats.now → result.0 + result.1 ≡ length seats.now }
    ensures none { All (λ (seat : Place). HasSigned seat → ⊥) seats.now → result.0 ≡ 0 }
    ensures some { (i : ℕ) (none : Place) → i < length seats.now → HasSigned (slice_index_or seats.now i none)
        → 0 < result.0 }
{
    let mut signed = 0;
    let mut refused = 0;
    'seats: for i in 0..seats.len() {
        match &seats[i] {
            Seat::Signed(_) => signed += 1,
            Seat::Refused => refused += 1,
            Seat::Waiting => {}
            Seat::Running(_) => {}
        }
    }
    (signed, refused)
}

/// What a drill leaves once it is over.
fn drilled_of(alloc: Global, summary: Summary, drill: Drill) -> Result<Drilled, NoMemory>
    ensures summary { IfOk result (λ drilled. drilled.summary ≡ summary) }
    ensures journals { IfOk result (λ drilled. AreJournals drill.trustees drilled.journals.items) }
    ensures table { IsSettled drill.table → (plan_of drill.table).h ≡ 5
        → IfOk result (λ drilled. HasTable drill.table drilled.table) }
{
    let Drill {
        trustees,
        table,
        ..
    } = drill;
    Ok(Drilled {
        summary,
        journals: trustees.end(alloc)?,
        table: table.end(),
    })
}

/// Runs the drill of a dealt key whose entropy the generator has drawn.
fn run_dealt(
    alloc: Global,
    desk: &Desk,
    generator: &mut Generator,
    sessions: u32,
    events: u32,
) -> Result<Drilled, NoMemory>
    requires sessions { sessions ≤ 10000 }
    requires events { events ≤ 100000 }
    ensures summary { (number : ℕ) → generator.old.state ≡ state_at number 176
        → IsDealt (dealing_of desk.now.dealt.public.params desk.now.plan (entropy_of number)) desk.now.dealt
        → IfOk result (λ drilled. IsSummary number sessions events drilled.summary) }
    ensures disks { (number : ℕ) → generator.old.state ≡ state_at number 176
        → IsDealt (dealing_of desk.now.dealt.public.params desk.now.plan (entropy_of number)) desk.now.dealt
        → DifferentIds sessions → IfOk result (AreDisks number sessions) }
{
    let drill = start(alloc, desk, sessions)?;
    let (drill, mut tally) = play_events(alloc, desk, drill, generator, sessions, events)?;
    let drill = finish_all(alloc, desk, drill, &mut tally, sessions)?;
    let (signed, refused) = count_ends(&drill.seats);
    let summary = Summary {
        sessions,
        signed,
        refused,
        asks: tally.asks,
        granted: tally.granted,
        cuts: tally.cuts,
        restarts: tally.restarts,
        most: drill.openings.most(),
    };
    let drilled = drilled_of(alloc, summary, drill)?;
    Ok(drilled)
}

/// Makes a schedule of asks, losses, repeats, cuts within writes and restarts from a number, and runs it: each session
/// signs a message of its own with a key that is dealt to three trustees, of whom two sign together.
pub fn run_drill(
    alloc: Global,
    number: u64,
    sessions: u32,
    events: u32,
) -> Result<Drilled, NoMemory>
    requires sessions { sessions ≤ 10000 }
    requires events { events ≤ 100000 }
    ensures summary { IfOk result (λ drilled. IsSummary number sessions events drilled.summary) }
    ensures disks { DifferentIds sessions → IfOk result (AreDisks number sessions) }
{
    let mut generator = Generator { state: number };
    let entropy = draw_entropy(&mut generator);
    let desk = deal_drill(alloc, &entropy)?;
    run_dealt(alloc, &desk, &mut generator, sessions, events)
}
