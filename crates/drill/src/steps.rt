//! The steps of one session.

ghost use Rattle.std.specs.Prelude.{◌≡◌, ◌≢◌, ◌⊎◌, ◌<◌, ◌≤◌, ℕ, suc, length, IfOk, IfSome, IfErr, IsErr, IsSome};
ghost use Rattle.std.specs.Prelude.{IsTrue, None, Ok, OnOk};
ghost use Rattle.drill.specs.Courses.{AllKept, AreFree, GoesTo, HasSigned, HaveShares, IsBare, IsGranted};
ghost use Rattle.drill.specs.Courses.{IsOnCourse, IsSettled, Steps, World, steps_in, uses_of, world};
ghost use Rattle.drill.specs.Drills.{IsSized, IsTableFor};
ghost use Rattle.drill.specs.Keys.{DealtTo};
ghost use Rattle.drill.specs.Openings.{Notes};
ghost use Rattle.drill.specs.Seats.{Fits, IsOf};
ghost use Rattle.drill_schedule.specs.Draws.{message_bytes};
ghost use Rattle.drill_trustees.specs.Members.{MayAsk, state_after};
ghost use Rattle.drill_trustees.specs.Trustees.{CutAt, SameShares, SetsAt, leaf_at, share_at};
ghost use Rattle.drill_trustees.specs.declared.trustees.Trustees.{Trustees};
ghost use Rattle.leaf_table.specs.Entries.{LeafUse};
ghost use Rattle.opening_journal.specs.Entries.{LeafState};
ghost use Rattle.trustee_core.specs.Grants.{ask_of};

use crate::asks::{NextAsk, next_member};
use crate::desk::Desk;
use crate::openings::Openings;
use crate::replies::take_masks;
use crate::seat::Seat;
use disk_trait::MemDisk;
use drill_trustees::{Answer, Trustees};
use leaf_table::Table;
use lms_bytes::MessageId;
use memory::NoMemory;
use reference_value::Whole;
use session_core::{Session, SessionFault};
use std::alloc::Global;
use trustee_core::Grant;

/// Leases a leaf of the coalition of session `i` for its message, and starts the session with it. If there is no leaf,
/// the session is refused.
pub(crate) fn lease(
    alloc: Global,
    desk: &Desk,
    table: &mut Table<MemDisk>,
    i: u32,
    message: &[u8],
) -> Result<Seat, NoMemory>
    requires table { IsTableFor desk.now table.old }
    requires message { message.now ≡ message_bytes i }
    ensures table { IsTableFor desk.now table.new }
    ensures fits { IfOk result (Fits desk.now.dealt.public desk.now.plan i) }
    ensures goes { (own : DealtTo desk.now) (old : Trustees) → HaveShares own.dealing old → IsSettled table.old
        → AreFree (uses_of table.old) (leaf_at old) → IsBare i (uses_of table.old) → IfOk result (λ seat.
        Steps desk.now own.dealing i (world (uses_of table.old) old) (world (uses_of table.new) old)
        Seat.Waiting seat (record { put = 0; granted = 0; cut = 0 })) }
    ensures settled { IsSettled table.old → IsBare i (uses_of table.old) → IsSettled table.new }
    ensures unsigned { IfOk result (λ seat. HasSigned seat → ⊥) }
{
    let members = desk.plan.members(i % 3);
    let id = MessageId::of(message);
    match table.lease(members, &id) {
        Ok(leaf) => {
            let session = Session::start(alloc, desk.key(), &desk.plan, leaf, &id)?;
            // What is true of every session.
            let _round = session.round();
            Ok(Seat::Running(session))
        }
        Err(_) => Ok(Seat::Refused),
    }
}

/// Goes on with a session whose reply was kept: after the last of round one to round two, and after the last of round
/// two to its end.
pub(crate) fn advance(
    alloc: Global,
    desk: &Desk,
    session: Session,
    i: u32,
    message: &[u8],
) -> Result<Seat, NoMemory>
    requires message { message.now ≡ message_bytes i }
    requires of { IsOf desk.now.dealt.public desk.now.plan i session }
    ensures fits { IfOk result (Fits desk.now.dealt.public desk.now.plan i) }
    ensures goes { (own : DealtTo desk.now) (map : ℕ → LeafUse) (leaves : ℕ → ℕ → LeafState)
        → IsOnCourse desk.now own.dealing i map leaves session
        → IfOk result (GoesTo desk.now own.dealing i map leaves (steps_in session)) }
{
    if next_member(&session).is_some() {
        return Ok(Seat::Running(session));
    }
    match session.randomizer() {
        None => Ok(turn(desk, session, i)),
        Some(_) => finish(alloc, desk, &session, i, message),
    }
}

/// Goes to round two.
fn turn(desk: &Desk, mut session: Session, i: u32) -> Seat
    requires round { session.c ≡ None }
    requires of { IsOf desk.now.dealt.public desk.now.plan i session }
    ensures fits { Fits desk.now.dealt.public desk.now.plan i result }
    ensures goes { (own : DealtTo desk.now) (map : ℕ → LeafUse) (leaves : ℕ → ℕ → LeafState)
        → IsOnCourse desk.now own.dealing i map leaves session → AllKept session
        → GoesTo desk.now own.dealing i map leaves (steps_in session) result }
{
    let mut cells = Whole::new(desk.params(), &desk.plan, &desk.dealt.reference);
    match session.turn(&mut cells) {
        Ok(()) => Seat::Running(session),
        Err(_) => Seat::Refused,
    }
}

/// Joins the signature.
fn finish(
    alloc: Global,
    desk: &Desk,
    session: &Session,
    i: u32,
    message: &[u8],
) -> Result<Seat, NoMemory>
    requires round { IsSome session.now.c }
    requires message { message.now ≡ message_bytes i }
    requires of { IsOf desk.now.dealt.public desk.now.plan i session.now }
    ensures fits { IfOk result (Fits desk.now.dealt.public desk.now.plan i) }
    ensures goes { (own : DealtTo desk.now) (map : ℕ → LeafUse) (leaves : ℕ → ℕ → LeafState)
        → IsOnCourse desk.now own.dealing i map leaves session.now → AllKept session.now
        → IfOk result (GoesTo desk.now own.dealing i map leaves (steps_in session.now)) }
{
    let mut cells = Whole::new(desk.params(), &desk.plan, &desk.dealt.reference);
    let signed = session.finish(alloc, &mut cells, &desk.dealt.tree, message);
    ended(session.leaf(), signed)
}

/// Where a session ends: it has signed with its leaf, or is refused.
fn ended(leaf: u32, signed: Result<Vec<u8>, SessionFault>) -> Result<Seat, NoMemory>
    ensures signed { OnOk signed (result ≡ Ok (Seat.Signed leaf)) }
    ensures memory { IfErr signed (λ fault. fault ≡ SessionFault.NoMemory → IsErr result) }
    ensures ended { IfOk result (λ seat. (seat ≡ Seat.Signed leaf) ⊎ (seat ≡ Seat.Refused)) }
{
    match signed {
        Ok(_) => Ok(Seat::Signed(leaf)),
        Err(SessionFault::NoMemory) => Err(NoMemory),
        Err(_) => Ok(Seat::Refused),
    }
}

/// Lets session `i` take the answer to its next ask, and go on. A refusal ends it.
pub(crate) fn answered(
    alloc: Global,
    desk: &Desk,
    trustees: &Trustees,
    mut session: Session,
    next: &NextAsk,
    grant: Option<Grant>,
    i: u32,
    message: &[u8],
) -> Result<Seat, NoMemory>
    requires member { (1 ≤ next.now.member) × (next.now.member ≤ 3) }
    requires digest { IfSome grant (λ grant. IfSome (ask_of grant).second (λ second. length second.digest ≡ 32)) }
    requires message { message.now ≡ message_bytes i }
    requires of { IsOf desk.now.dealt.public desk.now.plan i session }
    ensures fits { IfOk result (Fits desk.now.dealt.public desk.now.plan i) }
    ensures goes { (own : DealtTo desk.now) (old : World)
        → IsGranted desk.now own.dealing i old trustees.now session next.now grant
        → IfOk result (GoesTo desk.now own.dealing i old.uses (leaf_at trustees.now) (suc (steps_in session))) }
{
    let Some(grant) = grant else {
        return Ok(Seat::Refused);
    };
    take_masks(
        alloc,
        desk,
        trustees.share(next.member),
        &mut session,
        next,
        &grant,
    )?;
    advance(alloc, desk, session, i, message)
}

/// Puts an ask to its trustee, and notes what was granted.
pub(crate) fn put_ask(
    trustees: Trustees,
    openings: &mut Openings,
    next: &NextAsk,
) -> Result<(Trustees, Option<Grant>), NoMemory>
    requires member { (1 ≤ next.now.member) × (next.now.member ≤ 3) }
    requires sizes { IsSized next.now.ask }
    ensures shares { IfOk result (λ pair. SameShares trustees pair.0) }
    ensures ask { IfOk result (λ pair. IfSome pair.1 (λ grant. ask_of grant ≡ next.now.ask)) }
    ensures granted { MayAsk (share_at trustees next.now.member) (leaf_at trustees next.now.member) next.now.ask
        → IfOk result (λ pair. IsSome pair.1) }
    ensures sets { MayAsk (share_at trustees next.now.member) (leaf_at trustees next.now.member) next.now.ask
        → IfOk result (λ pair. SetsAt trustees pair.0 next.now.member next.now.ask.leaf (state_after next.now.ask)) }
    ensures notes { IfOk result (λ _.
        Notes openings.old.list.items next.now.member next.now.ask openings.new.list.items) }
    ensures some { IfOk result (λ pair. IsSome pair.1 → IsSome next.now.ask.second
        → 0 < length openings.new.list.items) }
{
    let (trustees, grant) = trustees.ask(next.member, &next.ask);
    openings.note(next.member, &next.ask, grant.is_some())?;
    Ok((trustees, grant))
}

/// Puts an ask to its trustee while the trustee's disk stops, and notes what was granted.
pub(crate) fn put_cut(
    alloc: Global,
    trustees: Trustees,
    openings: &mut Openings,
    next: &NextAsk,
    pick: u32,
) -> Result<(Trustees, Answer), NoMemory>
    requires member { (1 ≤ next.now.member) × (next.now.member ≤ 3) }
    requires sizes { IsSized next.now.ask }
    ensures shares { IfOk result (λ pair. SameShares trustees pair.0) }
    ensures sets { MayAsk (share_at trustees next.now.member) (leaf_at trustees next.now.member) next.now.ask
        → IfOk result (λ pair. CutAt trustees pair.0 next.now.member next.now.ask pair.1) }
    ensures notes { IfOk result (λ _.
        Notes openings.old.list.items next.now.member next.now.ask openings.new.list.items) }
{
    let (trustees, answer) = trustees.cut(alloc, next.member, &next.ask, pick)?;
    openings.note(next.member, &next.ask, is_granted(&answer))?;
    Ok((trustees, answer))
}

/// Whether an ask that may have stopped a disk was granted.
fn is_granted(answer: &Answer) -> bool
    ensures { IsTrue result → answer.now ≢ Answer.Refused }
{
    matches!(answer, Answer::Granted(_))
}
