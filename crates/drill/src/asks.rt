//! What a session asks next.

ghost use Rattle.std.specs.Prelude.{◌≡◌, ◌≢◌, ◌<◌, ◌≤◌, ℕ, Contains, None, IfNone, IfSome, IsTrue};
ghost use Rattle.coalition_map.specs.Coalitions.{leaf_members};
ghost use Rattle.drill.specs.Courses.{AllKept, IsNext};
ghost use Rattle.drill.specs.Drills.{IsSized};
ghost use Rattle.reference_value.specs.Places.{tag_in};
ghost use Rattle.session_core.specs.Asks.{ask_with, kept_masks};
ghost use Rattle.session_core.specs.State.{round_of};
ghost use Rattle.session_core.specs.Verdicts.{digest_of};

use crate::desk::Desk;
use lms_bytes::Ask;
use reference_value::Whole;
use session_core::Session;

/// The next ask of a session, and the member it is put to.
#[derive(Clone, Copy)]
pub(crate) struct NextAsk {
    pub(crate) member: u8,
    pub(crate) ask: Ask,
}

/// Whether the session keeps no reply of this member for the present round.
fn awaits(session: &Session, t: u8) -> bool
    ensures member { IsTrue result → Contains (leaf_members session.now.plan session.now.leaf) t }
    ensures none { IsTrue result → kept_masks session.now (round_of session.now) t ≡ None }
    ensures kept { Contains (leaf_members session.now.plan session.now.leaf) t
        → kept_masks session.now (round_of session.now) t ≡ None → IsTrue result }
{
    if !session.members().has(t) {
        return false;
    }
    session.kept_reply(session.round(), t).is_none()
}

/// The least member whose reply for the present round the session does not keep.
pub(crate) fn next_member(session: &Session) -> Option<u8>
    ensures within { IfSome result (λ t. (1 ≤ t) × (t ≤ 3)) }
    ensures member { IfSome result (Contains (leaf_members session.now.plan session.now.leaf)) }
    ensures none_kept { IfSome result (λ t. kept_masks session.now (round_of session.now) t ≡ None) }
    ensures least { IfSome result (λ t. (u : ℕ) → 1 ≤ u → u < t
        → Contains (leaf_members session.now.plan session.now.leaf) u
        → kept_masks session.now (round_of session.now) u ≢ None) }
    ensures none { IfNone result (AllKept session.now) }
{
    'trustees: for t in 1..4 {
        if awaits(session, t) {
            return Some(t);
        }
    }
    None
}

/// The ask of the present round to a member.
fn ask_of(desk: &Desk, session: &Session, member: u8, message: &[u8]) -> Ask
    requires key { session.now.key ≡ desk.now.dealt.public }
    requires plan { session.now.plan ≡ desk.now.plan }
    requires member { Contains (leaf_members session.now.plan session.now.leaf) member }
    ensures sizes { IsSized result }
    ensures ask { result ≡ ask_with session.now
        (tag_in session.now.key.params session.now.plan desk.now.dealt.reference.items session.now.leaf member)
        (digest_of session.now message.now) }
{
    let digest = session.digest(message);
    // A randomizer has the length of a hash value.
    let _round = session.round();
    let mut cells = Whole::new(desk.params(), &desk.plan, &desk.dealt.reference);
    match session.ask(&mut cells, member, &digest) {
        Ok(ask) => ask,
        Err(_) => unreachable!(),
    }
}

/// The next ask of a session, if it has one.
pub(crate) fn next_ask(desk: &Desk, session: &Session, message: &[u8]) -> Option<NextAsk>
    requires key { session.now.key ≡ desk.now.dealt.public }
    requires plan { session.now.plan ≡ desk.now.plan }
    ensures within { IfSome result (λ next. (1 ≤ next.member) × (next.member ≤ 3)) }
    ensures sizes { IfSome result (λ next. IsSized next.ask) }
    ensures next { IfSome result (IsNext desk.now session.now message.now) }
    ensures none { IfNone result (AllKept session.now) }
{
    match next_member(session) {
        Some(member) => Some(NextAsk {
            member,
            ask: ask_of(desk, session, member, message),
        }),
        None => None,
    }
}
