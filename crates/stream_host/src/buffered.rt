//! Links that read ahead and hold back what is written.

ghost use Rattle.std.specs.Prelude.{◌≡◌, ◌≢◌, ◌+◌, ◌-◌, ◌<◌, ◌≤◌, ◌++◌, [], length, take, min, refl, false, IsTrue};
ghost use Rattle.std.specs.Prelude.{IfOk, IsOk, MatchBool, OnErr};
ghost use Rattle.disk_trait.specs.Faults.{HasCause};
ghost use Rattle.stream_host.specs.Buffered.{Ends, Passes, ReadsAhead, SameBytes, buffered_talk};
ghost use Rattle.stream_io.specs.Talk.{HasRead, HasWritten, OnlyRead, OnlyWrote, TakesRoom, Took};

use crate::window::Window;
use disk_trait::Faults;
use std::marker::Model;
use stream_io::{Failed, Sink, Source, Stream};

/// A read of this length or more goes past what is read ahead, so that the pieces of a long message are not copied.
const LONG: usize = 4096;

/// A link over another one. What it reads ahead of its reads is read later, so that a frame takes one call of the link
/// below and not one for each of its parts. While some of that is not read yet, it also holds back what is written, so
/// that replies to asks that came together go out together: at the latest before it reads from the link below, or is
/// ended. Otherwise it keeps no byte back. A fault of the link below is one of the call that met it.
#[derive(Drop)]
pub struct Buffered<L: Source + Sink> {
    link: L,
    ahead: Window,
    behind: Window,
}

// A fact over the bound's members stands in the model and not in a ghost field, since a struct with such a field cannot
// be a link of a port that the runtime's types are given to.
impl<L: Source + Sink> Model for Buffered<L> {
    ghost use Rattle.stream_host.specs.Buffered.{IsAhead, WithAhead};

    ghost Value = { WithAhead L };

    ghost view = { λ s. record { link = s.link; ahead = s.ahead; behind = s.behind } };

    ghost invariant = { λ s. IsAhead (L.talk s.link) s.ahead };
}

impl<L: Source + Sink> Buffered<L> {
    /// A link over another.
    pub(crate) fn new(link: L) -> Buffered<L>
        ensures link { result.link ≡ link }
        ensures ahead { result.ahead ≡ [] }
        ensures behind { result.behind ≡ [] }
        ensures talk { IsTrue (L.talk link).told → buffered_talk (L.talk result.link) result.ahead result.behind
            ≡ L.talk link }
    {
        Buffered {
            link,
            ahead: Window::new(),
            behind: Window::new(),
        }
    }

    /// Ends it: what is held back is written to the link below, which is given back. What was read ahead was taken from
    /// that link.
    pub(crate) fn end(self) -> (L, Result<(), Failed>)
        ensures { Ends (buffered_talk (L.talk self.link) self.ahead self.behind) (L.talk result.0) self.ahead result.1 }
    {
        let Buffered {
            link,
            ahead: _ahead,
            behind,
        } = self;
        let mut link = link;
        let mut behind = behind;
        let flushed = behind.flush(&mut link);
        (link, flushed)
    }

    /// Writes what is held back to the link below. After a refusal it holds what that link did not take.
    fn flush(&mut self) -> Result<(), Failed>
        ensures sent { IfOk result (λ _. self.new.behind ≡ []) }
        ensures same { SameBytes (buffered_talk (L.talk self.old.link) self.old.ahead self.old.behind)
            (buffered_talk (L.talk self.new.link) self.new.ahead self.new.behind) }
        ensures ahead { self.new.ahead ≡ self.old.ahead }
        ensures passes { Passes (L.talk self.old.link) (L.talk self.new.link) self.old.behind self.new.behind }
        ensures cause { HasCause (L.talk self.old.link).count (L.talk self.new.link).count result }
        ensures steady { L.steady self.new.link ≡ L.steady self.old.link }
    {
        self.behind.flush(&mut self.link)
    }

    /// Holds a whole piece back, if bytes that were read ahead are left and there is room for it, and answers whether
    /// it did.
    fn hold(&mut self, piece: &[u8]) -> bool
        ensures held { MatchBool result (self.new.behind ≡ self.old.behind ++ piece.now)
            (self.new.behind ≡ self.old.behind) }
        ensures waits { IsTrue result → self.old.ahead ≢ [] }
        ensures link { self.new.link ≡ self.old.link }
        ensures ahead { self.new.ahead ≡ self.old.ahead }
    {
        !self.ahead.is_empty() && self.behind.hold(piece)
    }

    /// Reads ahead from the link below, with nothing held back.
    fn receive(&mut self) -> Result<(), Failed>
        requires nothing_held { self.old.behind ≡ [] }
        requires nothing_ahead { self.old.ahead ≡ [] }
        ensures behind { self.new.behind ≡ [] }
        ensures ahead { ReadsAhead (L.talk self.old.link) (L.talk self.new.link) self.new.ahead result }
        ensures only { OnlyRead (L.talk self.old.link) (L.talk self.new.link) }
        ensures cause { HasCause (L.talk self.old.link).count (L.talk self.new.link).count result }
        ensures steady { L.steady self.new.link ≡ L.steady self.old.link }
    {
        self.ahead.fill(&mut self.link)
    }

    /// If nothing is left of what was read ahead, reads ahead from the link below, once nothing is held back.
    fn ready(&mut self) -> Result<(), Failed>
        ensures same { IsTrue (L.talk self.old.link).told
            → SameBytes (buffered_talk (L.talk self.old.link) self.old.ahead self.old.behind)
            (buffered_talk (L.talk self.new.link) self.new.ahead self.new.behind) }
        ensures sent { self.old.ahead ≡ [] → IfOk result (λ _. self.new.behind ≡ []) }
        ensures kept { IfOk result (λ _. 0 < length self.old.ahead → self.new ≡ self.old) }
        ensures refused { OnErr result (self.new.ahead ≡ self.old.ahead) }
        ensures end { IsTrue (L.talk self.old.link).told → IfOk result (λ _. self.new.ahead ≡ []
            → self.old.ahead ++ (L.talk self.old.link).left ≡ []) }
        ensures only { OnlyRead (buffered_talk (L.talk self.old.link) self.old.ahead self.old.behind)
            (buffered_talk (L.talk self.new.link) self.new.ahead self.new.behind) }
        ensures cause { HasCause (L.talk self.old.link).count (L.talk self.new.link).count result }
        ensures steady { L.steady self.new.link ≡ L.steady self.old.link }
    {
        if self.ahead.is_empty() {
            self.flush()?;
            self.receive()?;
        }
        Ok(())
    }

    /// Takes as many of the bytes that were read ahead as the room has place for.
    fn serve(&mut self, out: &mut [u8]) -> usize
        ensures size { result ≡ min (length out.old) (length self.old.ahead) }
        ensures bytes { take result out.new ≡ take result self.old.ahead }
        ensures took { IsTrue (L.talk self.old.link).told
            → Took (buffered_talk (L.talk self.old.link) self.old.ahead self.old.behind)
            (buffered_talk (L.talk self.new.link) self.new.ahead self.new.behind) result }
        ensures link { self.new.link ≡ self.old.link }
        ensures behind { self.new.behind ≡ self.old.behind }
    {
        self.ahead.copy(out)
    }

    /// Reads from the link below into the room itself, once nothing is held back.
    fn read_through(&mut self, out: &mut [u8]) -> Result<usize, Failed>
        requires { self.old.ahead ≡ [] }
        ensures sent { IfOk result (λ _. self.new.behind ≡ []) }
        ensures read { HasRead (buffered_talk (L.talk self.old.link) self.old.ahead self.old.behind)
            (buffered_talk (L.talk self.new.link) self.new.ahead self.new.behind) (length out.old) out.new result }
        ensures ahead { self.new.ahead ≡ [] }
        ensures only { OnlyRead (buffered_talk (L.talk self.old.link) self.old.ahead self.old.behind)
            (buffered_talk (L.talk self.new.link) self.new.ahead self.new.behind) }
        ensures cause { HasCause (L.talk self.old.link).count (L.talk self.new.link).count result }
        ensures steady { L.steady self.new.link ≡ L.steady self.old.link }
    {
        self.flush()?;
        self.link.read(out)
    }
}

impl<L: Source + Sink> Faults for Buffered<L> {
    ghost count = { λ s. (L.talk s.link).count };

    // a read may write what is held back, and fails if that fails
    ghost steady = { λ _. false };

    fn faults(&self) -> u64 {
        self.link.faults()
    }
}

impl<L: Source + Sink> Stream for Buffered<L> {
    ghost talk = { λ s. buffered_talk (L.talk s.link) s.ahead s.behind };

    ghost counts = { λ _. refl };
}

impl<L: Source + Sink> Source for Buffered<L> {
    /// Reads what was read ahead, or from the link below, once nothing is held back. A refusal has read nothing ahead.
    fn read(&mut self, out: &mut [u8]) -> Result<usize, Failed>
        ensures read { HasRead (buffered_talk (L.talk self.old.link) self.old.ahead self.old.behind)
            (buffered_talk (L.talk self.new.link) self.new.ahead self.new.behind) (length out.old) out.new result }
        ensures only { OnlyRead (buffered_talk (L.talk self.old.link) self.old.ahead self.old.behind)
            (buffered_talk (L.talk self.new.link) self.new.ahead self.new.behind) }
        ensures cause { HasCause (L.talk self.old.link).count (L.talk self.new.link).count result }
        ensures succeeds { IsTrue false → IsOk result }
        ensures steady { false ≡ false }
        ensures sent { self.old.ahead ≡ [] → 0 < length out.old → IfOk result (λ _. self.new.behind ≡ []) }
        ensures refused { OnErr result (self.new.ahead ≡ self.old.ahead) }
    {
        if out.is_empty() {
            return Ok(0);
        }
        if out.len() >= LONG && self.ahead.is_empty() {
            return self.read_through(out);
        }
        self.ready()?;
        Ok(self.serve(out))
    }
}

impl<L: Source + Sink> Sink for Buffered<L> {
    ghost room = { λ s. (L.talk s.link).room - length s.behind };

    ghost rooms = { λ _. refl };

    /// Writes a beginning of the piece. It is held back only while bytes that were read ahead are left.
    fn write(&mut self, bytes: &[u8]) -> Result<usize, Failed>
        ensures written { HasWritten (buffered_talk (L.talk self.old.link) self.old.ahead self.old.behind)
            (buffered_talk (L.talk self.new.link) self.new.ahead self.new.behind) bytes.now result }
        ensures only { OnlyWrote (buffered_talk (L.talk self.old.link) self.old.ahead self.old.behind)
            (buffered_talk (L.talk self.new.link) self.new.ahead self.new.behind) }
        ensures cause { HasCause (L.talk self.old.link).count (L.talk self.new.link).count result }
        ensures succeeds { IsTrue false
            → length bytes.now ≤ (L.talk self.old.link).room - length self.old.behind → IsOk result }
        ensures room { TakesRoom ((L.talk self.old.link).room - length self.old.behind)
            ((L.talk self.new.link).room - length self.new.behind) result }
        ensures steady { false ≡ false }
        ensures sent { self.old.ahead ≡ [] → 0 < length bytes.now → IfOk result (λ _. self.new.behind ≡ []) }
    {
        if bytes.is_empty() {
            return Ok(0);
        }
        if self.hold(bytes) {
            return Ok(bytes.len());
        }
        self.flush()?;
        if self.hold(bytes) {
            return Ok(bytes.len());
        }
        self.link.write(bytes)
    }
}
