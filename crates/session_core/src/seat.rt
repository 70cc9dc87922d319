//! What is kept for the members of a coalition.

ghost use Rattle.std.specs.Prelude.{◌≡◌, ◌<◌, ◌≤◌, ◌+◌, Some, length, map, IfOk, if◌then◌else◌};
ghost use Rattle.coalition_map.specs.Coalitions.{IsSubset};
ghost use Rattle.session_core.specs.Seats.{empty_seat, filled_seat, is_filled, place_of, seat_of, with_reply};

use crate::step::Step;
use coalition_map::{Members, Plan};
use lms_bytes::bytes::put;
use memory::NoMemory;
use std::alloc::Global;
use std::marker::Model;

/// A member of a coalition, and the first of its replies in one round, at the front of a buffer.
#[derive(Drop)]
pub(crate) struct Seat {
    member: u8,
    code: Option<u8>,
    length: usize,
    buffer: Vec<u8>,
}

impl Model for Seat {
    ghost use Rattle.session_core.specs.Seats as seats;
    ghost use Rattle.session_core.specs.SeatInside.{fits, seen};

    ghost Value = { seats.Seat };

    ghost view = { seen };

    ghost invariant = { fits };
}

impl Seat {
    /// A seat that keeps nothing, with room for a body of `room` bytes.
    fn new(alloc: Global, member: u8, room: usize) -> Result<Seat, NoMemory>
        ensures { IfOk result (λ seat. seat ≡ empty_seat room member) }
    {
        Ok(Seat {
            member,
            code: None,
            length: 0,
            buffer: vec![in alloc; 0; room]?,
        })
    }

    /// The number of the member.
    pub(crate) fn member(&self) -> u8
        ensures { result ≡ self.now.member }
    {
        self.member
    }

    /// The code of the reply that is kept, if one is.
    pub(crate) fn code(&self) -> Option<u8>
        ensures { result ≡ self.now.code }
    {
        self.code
    }

    /// The body of the reply that is kept.
    pub(crate) fn body(&self) -> &[u8]
        ensures { result.now ≡ self.now.body }
    {
        &self.buffer[..self.length]
    }

    /// Keeps a reply.
    fn keep(&mut self, code: u8, body: &[u8])
        requires { length body.now ≤ self.old.room }
        ensures { self.new ≡ filled_seat self.old code body.now }
    {
        self.code = Some(code);
        self.length = body.len();
        put(&mut self.buffer, 0, body);
    }
}

/// Seats for these members of a plan, which keep nothing, each with room for a body of `room` bytes.
pub(crate) fn empty_seats(
    alloc: Global,
    plan: &Plan,
    members: Members,
    room: usize,
) -> Result<Vec<Seat>, NoMemory>
    requires { IsSubset 1 (plan.now.n + 1) plan.now.k members }
    ensures { IfOk result (λ seats. seats.items ≡ map (empty_seat room) members) }
{
    let mut seats = Vec::new(alloc);
    'trustees: for t in 1..plan.n() + 1 {
        if members.has(t) {
            seats.push(Seat::new(alloc, t, room)?)?;
        }
    }
    Ok(seats)
}

/// The place of member `t` among the seats, or the number of seats if it has none.
pub(crate) fn place_of(seats: &[Seat], t: u8) -> usize
    ensures { result ≡ place_of seats.now t }
{
    'seats: for i in 0..seats.len() {
        if seats[i].member() == t {
            return i;
        }
    }
    seats.len()
}

/// Keeps a reply of member `t` if none is kept.
pub(crate) fn keep_first(seats: &mut [Seat], t: u8, code: u8, body: &[u8]) -> Step
    requires member { place_of seats.old t < length seats.old }
    requires room { length body.now ≤ (seat_of seats.old t).room }
    ensures step { result ≡ (if is_filled (seat_of seats.old t) then Step.Repeat else Step.Kept) }
    ensures seats { seats.new ≡ (if is_filled (seat_of seats.old t) then seats.old else
        with_reply seats.old t code body.now) }
{
    let place = place_of(seats, t);
    let seat = &mut seats[place];
    if seat.code().is_some() {
        return Step::Repeat;
    }
    seat.keep(code, body);
    Step::Kept
}
