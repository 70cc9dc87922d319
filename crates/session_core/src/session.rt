//! Sessions.

ghost use Rattle.std.specs.Prelude.{◌≡◌, ◌<◌, ◌≤◌, ◌^◌, ◌+◌, length, All, Contains};
ghost use Rattle.std.specs.Prelude.{IfNone, IfOk, IfSome, IsOk, IsTrue, None, Some};
ghost use Rattle.coalition_map.specs.Coalitions.{leaf_members};
ghost use Rattle.disk_trait.specs.Faults.{HasCause};
ghost use Rattle.reference_value.specs.Places.{tag_in};
ghost use Rattle.reference_value.specs.Stay.{CellsStay};
ghost use Rattle.session_core.specs.Asks.{IsAskOf, ask_with, kept_masks, seats_in};
ghost use Rattle.session_core.specs.Replies.{IsWhole, answers, is_whole, names_ask, same_message};
ghost use Rattle.session_core.specs.Replies.{step_of, with_delivery};
ghost use Rattle.session_core.specs.State.{IsSeat, IsSession, SameAsk, asked_c, round_of, seats_of, started};
ghost use Rattle.session_core.specs.State.{body_length, body_room, masks_length};
ghost use Rattle.mask_prf.specs.Lengths.{leaves_length};

use crate::seat::{Seat, empty_seats, keep_first, place_of};
use crate::step::Step;
use coalition_map::{Members, Plan};
use lms_bytes::{Ask, MessageId, Params, PublicKey, ReplyHead, Second, Val};
use memory::NoMemory;
use reference_value::{Cells, RefFault};
use std::alloc::Global;
use std::marker::Model;

/// One session: a message that a coalition signs with a leaf. All memory for replies is taken at the start.
#[derive(Drop)]
pub struct Session {
    pub(crate) key: PublicKey,
    plan: Plan,
    pub(crate) leaf: u32,
    pub(crate) message: MessageId,
    pub(crate) c: Option<Val>,
    pub(crate) first: Vec<Seat>,
    pub(crate) second: Vec<Seat>,
}

impl Model for Session {
    ghost use Rattle.session_core.specs.State as state;
    ghost use Rattle.session_core.specs.SessionInside.{seen};

    ghost Value = { state.State };

    ghost view = { seen };

    ghost invariant = { λ s. state.IsSession (seen s) };
}

impl Session {
    /// A session of round one in which nothing is kept.
    pub fn start(
        alloc: Global,
        key: &PublicKey,
        plan: &Plan,
        leaf: u32,
        message: &MessageId,
    ) -> Result<Session, NoMemory>
        requires height { plan.now.h ≡ key.now.params.h }
        requires leaf { leaf < 2 ^ key.now.params.h }
        ensures { IfOk result (λ session. session ≡ started key.now plan.now leaf message.now) }
    {
        let members = plan.members_of(leaf);
        Ok(Session {
            key: *key,
            plan: *plan,
            leaf,
            message: *message,
            c: None,
            first: empty_seats(alloc, plan, members, body_room(&key.params, 1))?,
            second: empty_seats(alloc, plan, members, body_room(&key.params, 2))?,
        })
    }

    /// The present round, 1 or 2.
    pub fn round(&self) -> u8
        ensures round { result ≡ round_of self.now }
        ensures session { IsSession self.now }
    {
        match self.c {
            None => 1,
            Some(_) => 2,
        }
    }

    /// The leaf that signs.
    pub fn leaf(&self) -> u32
        ensures leaf { result ≡ self.now.leaf }
        ensures session { IsSession self.now }
    {
        self.leaf
    }

    /// The randomizer C, once it is joined: in round two.
    pub fn randomizer(&self) -> Option<Val>
        ensures { result ≡ self.now.c }
    {
        self.c
    }

    /// The members of the leaf's coalition.
    pub fn members(&self) -> Members
        ensures { result ≡ leaf_members self.now.plan self.now.leaf }
    {
        self.plan.members_of(self.leaf)
    }

    /// The ask of the present round to a member. The digest, of `n` bytes, is read in round two alone.
    pub fn ask<R: Cells>(&self, cells: &mut R, member: u8, digest: &Val) -> Result<Ask, RefFault>
        requires member { Contains (leaf_members self.now.plan self.now.leaf) member }
        requires cells { (R.set cells.old ≡ self.now.key.params) × (R.plan cells.old ≡ self.now.plan) }
        ensures ask { IfOk result (IsAskOf self.now digest.now) }
        ensures tag { IsTrue (R.told cells.old) → IfOk result (λ ask. ask
            ≡ ask_with self.now (tag_in self.now.key.params self.now.plan (R.leaves cells.old) self.now.leaf member)
            digest.now) }
        ensures first { self.now.c ≡ None → IsOk result × (cells.new ≡ cells.old) }
        ensures succeeds { IsTrue (R.steady cells.old) → IsTrue (R.told cells.old)
            → length (R.leaves cells.old) ≡ leaves_length self.now.key.params self.now.plan → IsOk result }
        ensures cause { HasCause (R.count cells.old) (R.count cells.new) result }
        ensures stays { CellsStay R.Cells.own R.Faults cells.old cells.new }
    {
        let second = match self.c {
            None => None,
            Some(c) => {
                let tag = cells.tag(self.leaf, member)?;
                Some(Second {
                    c,
                    tag,
                    digest: *digest,
                })
            }
        };
        Ok(Ask {
            key: self.key.id,
            leaf: self.leaf,
            message: self.message,
            second,
        })
    }

    /// The masks that are kept for a member in a round.
    pub fn kept_reply(&self, round: u8, member: u8) -> Option<&[u8]>
        ensures some { IfSome result (λ masks. kept_masks self.now round member ≡ Some masks.now) }
        ensures none { IfNone result (kept_masks self.now round member ≡ None) }
    {
        let seats = self.seats_in(round);
        let place = place_of(seats, member);
        if place < seats.len() && seats[place].code() == Some(0) {
            Some(seats[place].body())
        } else {
            None
        }
    }

    /// The seats of a round, or none if there is no such round.
    fn seats_in(&self, round: u8) -> &[Seat]
        ensures { result.now ≡ seats_in self.now round }
    {
        match round {
            1 => &self.first,
            2 => &self.second,
            _ => &[],
        }
    }

    /// Takes a reply: each member's first reply that answers the present round's ask is kept.
    pub fn take(&mut self, head: &ReplyHead, body: &[u8]) -> Step
        ensures step { result ≡ step_of self.old head.now body.now }
        ensures state { self.new ≡ with_delivery self.old head.now body.now }
        ensures ask { SameAsk self.old self.new }
    {
        if self.answers(head, body) {
            match self.c {
                None => keep_first(&mut self.first, head.member, head.code, body),
                Some(_) => keep_first(&mut self.second, head.member, head.code, body),
            }
        } else {
            Step::NotMine
        }
    }

    /// Whether a reply answers the present round's ask to a member.
    fn answers(&self, head: &ReplyHead, body: &[u8]) -> bool
        ensures answers { result ≡ answers self.now head.now body.now }
        ensures whole { IsTrue result → IsWhole self.now head.now body.now }
    {
        self.names_ask(head) && self.is_whole(head, body)
    }

    /// Whether a reply names the ask of the present round.
    fn names_ask(&self, head: &ReplyHead) -> bool
        ensures { result ≡ names_ask self.now head.now }
    {
        head.key.as_slice() == self.key.id.as_slice()
            && head.leaf == self.leaf
            && is_same_message(&head.message, &self.message)
            && head.round == self.round()
            && head.c == self.asked_c()
    }

    /// Whether a reply is from a member, and its body has the length of its code.
    fn is_whole(&self, head: &ReplyHead, body: &[u8]) -> bool
        ensures test { result ≡ is_whole self.now head.now body.now }
        ensures whole { IsTrue result → IsWhole self.now head.now body.now }
    {
        let seats = self.seats();
        place_of(seats, head.member) < seats.len()
            && head.code <= 12
            && body.len() == body_length(&self.key.params, self.round(), head.code)
    }

    /// The randomizer in the asks of the present round, zeros in round one.
    pub(crate) fn asked_c(&self) -> Val
        ensures c { result ≡ asked_c self.now }
        ensures length { length result ≡ self.now.key.params.n }
        ensures session { IsSession self.now }
    {
        match self.c {
            None => Val::cut(&[0; 32], self.key.params.n),
            Some(c) => c,
        }
    }

    /// The seats of the present round.
    pub(crate) fn seats(&self) -> &[Seat]
        ensures seats { result.now ≡ seats_of self.now }
        ensures each { All (IsSeat self.now.key.params (round_of self.now)) result.now }
    {
        match self.c {
            None => &self.first,
            Some(_) => &self.second,
        }
    }
}

/// Whether two messages have the same length and the same hash.
pub(crate) fn is_same_message(a: &MessageId, b: &MessageId) -> bool
    ensures { result ≡ same_message a.now b.now }
{
    a.length == b.length && a.hash.as_slice() == b.hash.as_slice()
}

/// The number of bytes in a body under a code.
fn body_length(params: &Params, round: u8, code: u8) -> usize
    ensures { result ≡ body_length params.now round code }
{
    match code {
        0 => masks_length(params, round),
        7 => 2,
        9 => 36,
        10 => 2 * params.n as usize,
        _ => 0,
    }
}

/// The number of bytes of a round's masks.
fn masks_length(params: &Params, round: u8) -> usize
    ensures length { result ≡ masks_length params.now round }
    ensures small { result ≤ 8480 }
{
    let n = params.n as usize;
    if round == 1 { n } else { n * params.p as usize }
}

/// Room for every body of a round, in bytes.
fn body_room(params: &Params, round: u8) -> usize
    ensures { result ≡ body_room params.now round }
{
    masks_length(params, round) + 64
}
