//! Ports at which one client is accepted each, and from which the trustees of a dealing are dialled. The last member of
//! the coalition answers nobody until it was dialled from both ports. The ports tell contracts nothing about their
//! bytes.

ghost use Rattle.std.specs.Prelude.{◌≡◌, ◌≤◌, Some, codes, length, refl, false, vec_len};
ghost use Rattle.disk_trait.specs.Faults.{Rose};
ghost use Rattle.stream_host.specs.Untold.{untold_port, untold_talk};

use crate::trustee::replies;
use disk_trait::Faults;
use share_files::Share;
use std::alloc::Global;
use std::sync::Wait;
use stream_io::{Accepted, Failed, Port, Sink, Source, Stream};
use stream_memory::Bell;

/// How often the last member is dialled before it answers.
const BOTH: u64 = 2;

/// The last member of the coalition.
const LAST: u8 = 5;

/// What the ports have in common: the shares of the trustees, that of trustee 1 first, and a bell that is rung each
/// time the last member is dialled.
#[derive(Drop)]
pub(crate) struct Meeting<'a, W: Wait> {
    pub(crate) waits: &'a W,
    pub(crate) alloc: Global,
    pub(crate) shares: &'a [Share],
    pub(crate) bell: Bell,
}

impl<'a, W: Wait> Meeting<'a, W> {
    /// The share of the trustee that has this place as its number, and is dialled.
    fn dial(&self, place: &str) -> Option<&'a Share> {
        let member: u8 = place.parse().ok()?;
        let share = self.shares.get(usize::from(member).checked_sub(1)?)?;
        if member == LAST {
            self.bell.ring();
        }
        Some(share)
    }

    /// What the trustee of this share replies to these asks, or nothing if it does not answer. It begins anew each
    /// time, and answers what it was asked before as it did then.
    fn replies(&self, share: &Share, asks: &[u8]) -> Option<Vec<u8>> {
        if share.member == LAST && !self.bell.hears(BOTH) {
            return None;
        }
        replies(self.waits, self.alloc, share, asks)
    }
}

/// A link to a trustee, whose share it has, or to a client: what the peer has given, how much of that was read, and
/// what was written to it.
#[derive(Drop)]
pub(crate) struct MeetingLink<'a, W: Wait> {
    meeting: &'a Meeting<'a, W>,
    share: Option<&'a Share>,
    given: Vec<u8>,
    place: usize,
    written: Vec<u8>,
    faults: u64,
    ghost read: { place ≤ vec_len given },
}

impl<'a, W: Wait> MeetingLink<'a, W> {
    /// A link whose peer has given these bytes.
    fn new(
        meeting: &'a Meeting<'a, W>,
        share: Option<&'a Share>,
        given: Vec<u8>,
    ) -> MeetingLink<'a, W>
        ensures { result.faults ≡ 0 }
    {
        MeetingLink {
            meeting,
            share,
            given,
            place: 0,
            written: Vec::new(meeting.alloc),
            faults: 0,
        }
    }

    /// Counts a fault.
    fn fail(&mut self) -> Failed
        ensures rose { Rose self.old.faults self.new.faults }
        ensures later { self.old.faults ≤ self.new.faults }
    {
        self.faults = self.faults.saturating_add(1);
        Failed
    }

    /// Makes a trustee answer if all that it gave was read, and returns whether it did. A client gives no more.
    fn hear(&mut self) -> bool
        ensures { self.new.faults ≡ self.old.faults }
    {
        let Some(share) = self.share else {
            return true;
        };
        if self.place < self.given.len() {
            return true;
        }
        match self.meeting.replies(share, &self.written) {
            Some(given) if self.place <= given.len() => {
                self.given = given;
                true
            }
            _ => false,
        }
    }

    /// Gives bytes to the front of the room, and returns how many.
    fn give(&mut self, out: &mut [u8]) -> usize
        ensures size { result ≤ length out.old }
        ensures faults { self.new.faults ≡ self.old.faults }
    {
        let left = self.given.len() - self.place;
        let count = out.len().min(left);
        out[..count].copy_from_slice(&self.given[self.place..self.place + count]);
        self.place += count;
        count
    }
}

impl<W: Wait> Faults for MeetingLink<'_, W> {
    ghost count = { λ s. s.faults };

    ghost steady = { λ _. false };

    fn faults(&self) -> u64 {
        self.faults
    }
}

impl<W: Wait> Stream for MeetingLink<'_, W> {
    ghost talk = { λ s. untold_talk s.faults };

    ghost counts = { λ _. refl };
}

impl<W: Wait> Source for MeetingLink<'_, W> {
    fn read(&mut self, out: &mut [u8]) -> Result<usize, Failed> {
        if !self.hear() {
            return Err(self.fail());
        }
        Ok(self.give(out))
    }
}

impl<W: Wait> Sink for MeetingLink<'_, W> {
    ghost room = { λ _. 0 };

    ghost rooms = { λ _. refl };

    fn write(&mut self, bytes: &[u8]) -> Result<usize, Failed> {
        match self.written.extend_from_slice(bytes) {
            Ok(()) => Ok(bytes.len()),
            Err(_) => Err(self.fail()),
        }
    }
}

/// A port at which one client is accepted: what it asks, and what it was answered once its link was hung up.
#[derive(Drop)]
pub(crate) struct MeetingPort<'a, W: Wait> {
    meeting: &'a Meeting<'a, W>,
    asked: Option<Vec<u8>>,
    answered: Vec<u8>,
    faults: u64,
}

impl<'a, W: Wait> MeetingPort<'a, W> {
    /// A port at which a client waits that asks this.
    pub(crate) fn new(meeting: &'a Meeting<'a, W>, asked: Vec<u8>) -> MeetingPort<'a, W> {
        MeetingPort {
            meeting,
            asked: Some(asked),
            answered: Vec::new(meeting.alloc),
            faults: 0,
        }
    }

    /// What the client was answered, nothing before its link was hung up.
    pub(crate) fn answered(&self) -> &[u8] {
        &self.answered
    }
}

impl<W: Wait> Faults for MeetingPort<'_, W> {
    ghost count = { λ s. s.faults };

    ghost steady = { λ _. false };

    fn faults(&self) -> u64 {
        self.faults
    }
}

impl<'a, W: Wait + Sync> Port for MeetingPort<'a, W> {
    type Link = MeetingLink<'a, W>;

    ghost state = { λ s. untold_port (Some (codes "here")) s.faults 0 };

    fn accept_faults(&self) -> u64 {
        0
    }

    fn accept(&mut self) -> Accepted<Self::Link> {
        match self.asked.take() {
            Some(asked) => Accepted::Link(MeetingLink::new(self.meeting, None, asked)),
            None => Accepted::End,
        }
    }

    fn dial(&mut self, place: &str) -> Result<Self::Link, Failed> {
        let Some(share) = self.meeting.dial(place) else {
            self.faults = self.faults.saturating_add(1);
            return Err(Failed);
        };
        let given = Vec::new(self.meeting.alloc);
        Ok(MeetingLink::new(self.meeting, Some(share), given))
    }

    #[tactic(auto, using(crate::proofs::HangingUp::hangs_up))]
    fn hang_up(&mut self, link: Self::Link) {
        if link.faults != 0 {
            self.faults = self.faults.saturating_add(1);
        }
        if link.share.is_none() {
            self.answered = link.written;
        }
    }

    ghost counts = { λ _. refl };

    ghost steadies = { λ _. refl };
}
