//! A link that waits until another one was answered.

ghost use Rattle.std.specs.Prelude.{◌≡◌, ◌&&◌, ◌+◌, ◌-◌, ◌<◌, ◌≤◌, ◌^◌, IfSome, IsSome, IsTrue, is_none, min};
ghost use Rattle.std.specs.Prelude.{refl};
ghost use Rattle.stream_memory.specs.Waiting.{with_vain};

use crate::hold::{Before, Hold, Ring};
use disk_trait::Faults;
use stream_io::{Failed, Sink, Source, Stream};

/// A link that may wait until a bell was rung, and may ring one. What goes over it goes over the link that it wraps. A
/// wait in vain is a fault, at which nothing was read or written.
#[derive(Drop)]
pub struct WaitingLink<'a, L> {
    link: L,
    hold: Option<Hold<'a>>,
    ring: Option<Ring<'a>>,
    // how many bytes were read, and how many were written
    read: usize,
    written: usize,
    // how many waits were in vain
    vain: u64,
}

impl<'a, L: Source + Sink> WaitingLink<'a, L> {
    /// A link that waits for `hold`, if there is one, and then rings `ring`, if there is one.
    pub fn new(link: L, hold: Option<Hold<'a>>, ring: Option<Ring<'a>>) -> WaitingLink<'a, L>
        ensures talk { ⟦<WaitingLink<'a, L> as Stream>⟧.talk result ≡ L.talk link }
        ensures room { ⟦<WaitingLink<'a, L> as Sink>⟧.room result ≡ L.room link }
        ensures steady { ⟦<WaitingLink<'a, L> as Faults>⟧.steady result ≡ (L.steady link && is_none hold.entry) }
    {
        prove!(link.faults() <= u64::MAX);
        WaitingLink {
            link,
            hold,
            ring,
            read: 0,
            written: 0,
            vain: 0,
        }
    }

    /// The link that it wraps, and how many waits were in vain.
    pub fn end(self) -> (L, u64)
        ensures { ⟦<WaitingLink<'a, L> as Stream>⟧.talk self.entry ≡ with_vain (L.talk result.0) result.1 }
    {
        (self.link, self.vain)
    }

    /// How many of `asked` bytes the link may give, after a wait if there is one, or none if that was in vain.
    fn readable(&self, asked: usize) -> Option<usize>
        ensures size { IfSome result (λ most. most ≤ asked) }
        ensures progress { IfSome result (λ most. 0 < asked → 0 < most) }
        ensures steady { IsTrue (is_none self.now.hold) → IsSome result }
    {
        let Some(hold) = self.hold else {
            return Some(asked);
        };
        match hold.before {
            Before::Reading(place) if self.read < place => Some(asked.min(place - self.read)),
            Before::Reading(_) if !hold.bell.hears(hold.rings) => None,
            _ => Some(asked),
        }
    }

    /// Whether the link may take bytes, after a wait if there is one.
    fn is_writable(&self) -> bool
        ensures { IsTrue (is_none self.now.hold) → IsTrue result }
    {
        let Some(hold) = self.hold else {
            return true;
        };
        match hold.before {
            Before::Reading(_) => true,
            Before::Writing => hold.bell.hears(hold.rings),
        }
    }

    /// Counts bytes that were written, and rings if they are enough.
    fn count_written(&mut self, count: usize)
        ensures link { self.new.link ≡ self.old.link }
        ensures hold { self.new.hold ≡ self.old.hold }
        ensures vain { self.new.vain ≡ self.old.vain }
    {
        let before = self.written;
        self.written = before.saturating_add(count);
        if let Some(ring) = self.ring {
            if before < ring.written && ring.written <= self.written {
                ring.bell.ring();
            }
        }
    }

    /// Counts a wait in vain.
    fn fail(&mut self) -> Failed
        ensures link { self.new.link ≡ self.old.link }
        ensures hold { self.new.hold ≡ self.old.hold }
        ensures vain { self.new.vain ≡ min (self.old.vain + 1) (2 ^ 64 - 1) }
    {
        self.vain = self.vain.saturating_add(1);
        Failed
    }
}

impl<L: Source + Sink> Faults for WaitingLink<'_, L> {
    ghost count = { λ s. (with_vain (L.talk s.link) s.vain).count };

    ghost steady = { λ s. L.steady s.link && is_none s.hold };

    fn faults(&self) -> u64 {
        self.link.faults().saturating_add(self.vain)
    }
}

impl<L: Source + Sink> Stream for WaitingLink<'_, L> {
    ghost talk = { λ s. with_vain (L.talk s.link) s.vain };

    ghost counts = { λ _. refl };
}

impl<L: Source + Sink> Source for WaitingLink<'_, L> {
    fn read(&mut self, out: &mut [u8]) -> Result<usize, Failed> {
        let Some(most) = self.readable(out.len()) else {
            return Err(self.fail());
        };
        let count = self.link.read(&mut out[..most])?;
        self.read = self.read.saturating_add(count);
        Ok(count)
    }
}

impl<L: Source + Sink> Sink for WaitingLink<'_, L> {
    ghost room = { λ s. L.room s.link };

    ghost rooms = { λ s. L.rooms s.link };

    fn write(&mut self, bytes: &[u8]) -> Result<usize, Failed> {
        if !self.is_writable() {
            return Err(self.fail());
        }
        let count = self.link.write(bytes)?;
        self.count_written(count);
        Ok(count)
    }
}
