//! Bytes on their way through a link: read before they are asked for, or written and held to go out together.

ghost use Rattle.std.specs.Prelude.{◌≡◌, ◌<◌, ◌++◌, ◌↔◌, [], length, take, drop, min, IsTrue, IfOk, MatchBool};
ghost use Rattle.disk_trait.specs.Faults.{HasCause};
ghost use Rattle.stream_host.specs.Buffered.{Passes, ReadsAhead};
ghost use Rattle.stream_io.specs.Talk.{OnlyRead};

use std::marker::Model;
use stream_io::{Failed, Sink, Source};

/// How many bytes it has room for: a page, which a reply with the masks of 67 chains leaves half free.
const ROOM: usize = 4096;

/// Bytes, the oldest first: those between two places of its room. They stand in their link and not in memory of their
/// own, since a link that is accepted or dialled takes no memory.
#[derive(Drop)]
pub(crate) struct Window {
    bytes: [u8; ROOM],
    place: usize,
    end: usize,
}

impl Model for Window {
    ghost use Rattle.std.specs.Prelude.{◌≤◌, ◌-◌, ℕ, List, take, drop};

    ghost Value = { List ℕ };

    ghost view = { λ a. take (a.end - a.place) (drop a.place a.bytes) };

    ghost invariant = { λ a. (a.place ≤ a.end) × (a.end ≤ 4096) };
}

impl Window {
    /// No bytes.
    pub(crate) fn new() -> Window
        ensures { result ≡ [] }
    {
        Window {
            bytes: [0; ROOM],
            place: 0,
            end: 0,
        }
    }

    /// Whether there are none.
    pub(crate) fn is_empty(&self) -> bool
        ensures { IsTrue result ↔ self.now ≡ [] }
    {
        self.place == self.end
    }

    /// Reads once from the source. A refusal has read nothing.
    pub(crate) fn fill<S: Source>(&mut self, source: &mut S) -> Result<(), Failed>
        requires { self.old ≡ [] }
        ensures ahead { ReadsAhead (S.talk source.old) (S.talk source.new) self.new result }
        ensures only { OnlyRead (S.talk source.old) (S.talk source.new) }
        ensures cause { HasCause (S.talk source.old).count (S.talk source.new).count result }
        ensures steady { S.steady source.new ≡ S.steady source.old }
    {
        self.place = 0;
        self.end = 0;
        let count = source.read(&mut self.bytes)?;
        self.end = count;
        Ok(())
    }

    /// Takes as many of the bytes as the room has place for.
    pub(crate) fn copy(&mut self, out: &mut [u8]) -> usize
        ensures size { result ≡ min (length out.old) (length self.old) }
        ensures bytes { take result out.new ≡ take result self.old }
        ensures rest { self.new ≡ drop result self.old }
    {
        let count = out.len().min(self.end - self.place);
        out[..count].copy_from_slice(&self.bytes[self.place..self.place + count]);
        self.place += count;
        count
    }

    /// Takes a whole piece after the others, if there is room for it, and answers whether it did.
    pub(crate) fn hold(&mut self, piece: &[u8]) -> bool
        ensures { MatchBool result (self.new ≡ self.old ++ piece.now) (self.new ≡ self.old) }
    {
        if piece.len() > ROOM - self.end {
            return false;
        }
        let end = self.end + piece.len();
        self.bytes[self.end..end].copy_from_slice(piece);
        self.end = end;
        true
    }

    /// Hands a beginning of what is held to the sink.
    fn pass<S: Sink>(&mut self, sink: &mut S) -> Result<(), Failed>
        requires { 0 < length self.old }
        ensures progress { IfOk result (λ _. length self.new < length self.old) }
        ensures passes { Passes (S.talk sink.old) (S.talk sink.new) self.old self.new }
        ensures cause { HasCause (S.talk sink.old).count (S.talk sink.new).count result }
        ensures steady { S.steady sink.new ≡ S.steady sink.old }
    {
        let count = sink.write(&self.bytes[self.place..self.end])?;
        self.place += count;
        Ok(())
    }

    /// Hands all that it holds to the sink. After a refusal it holds what the sink did not take.
    pub(crate) fn flush<S: Sink>(&mut self, sink: &mut S) -> Result<(), Failed>
        ensures none { IfOk result (λ _. self.new ≡ []) }
        ensures passes { Passes (S.talk sink.old) (S.talk sink.new) self.old self.new }
        ensures cause { HasCause (S.talk sink.old).count (S.talk sink.new).count result }
        ensures steady { S.steady sink.new ≡ S.steady sink.old }
    {
        'pieces: while !self.is_empty() {
            self.pass(sink)?;
        }
        self.begin();
        Ok(())
    }

    /// If nothing is held, all of the room is free again.
    fn begin(&mut self)
        ensures { self.new ≡ self.old }
    {
        if self.place == self.end {
            self.place = 0;
            self.end = 0;
        }
    }
}
