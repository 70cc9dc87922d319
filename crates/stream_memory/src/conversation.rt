//! What goes over a link in memory.

ghost use Rattle.std.specs.Prelude.{◌≡◌, ◌≤◌, ◌++◌, [], IsTrue, IsOk, IsSome, length, option_copied, option_map};
ghost use Rattle.std.specs.Prelude.{string_bytes, vec_capacity};
ghost use Rattle.disk_trait.specs.Faults.{HasCause};
ghost use Rattle.stream_io.specs.Talk.{HasRead, HasWritten, OnlyRead, OnlyWrote, TakesRoom};
ghost use Rattle.stream_memory.specs.Links.{is_steady_link, room_left, talk_of};

use crate::calls::Calls;
use crate::mem_sink::MemSink;
use crate::mem_source::MemSource;
use stream_io::{Failed, Sink, Source};

/// A hold on what a link gives: a read that would begin at or after `place` fails while fewer than `written` bytes were
/// written to the link.
#[derive(Clone, Copy)]
pub struct Gate {
    /// The number of the first byte that is held.
    pub place: usize,
    /// How many bytes have to be written.
    pub written: usize,
}

/// What has gone over a link in memory, and what it still has to give.
#[derive(Drop)]
pub struct Conversation {
    pub(crate) place: Option<String>,
    pub(crate) source: MemSource,
    pub(crate) sink: MemSink,
    pub(crate) gate: Option<Gate>,
    pub(crate) calls: Calls,
}

impl Conversation {
    /// The place that was dialled, or none.
    pub fn place(&self) -> Option<&str>
        ensures { option_copied result ≡ (talk_of self.now).place }
    {
        self.place.as_deref()
    }

    /// The bytes that were read.
    pub fn taken(&self) -> &[u8]
        ensures { result.now ≡ (talk_of self.now).taken }
    {
        self.source.taken()
    }

    /// The bytes that have not been read.
    pub fn left(&self) -> &[u8]
        ensures { result.now ≡ (talk_of self.now).left }
    {
        self.source.left()
    }

    /// The bytes that were written.
    pub fn written(&self) -> &[u8]
        ensures { result.now ≡ (talk_of self.now).written }
    {
        self.sink.written()
    }

    /// The count of faults.
    pub fn faults(&self) -> u64
        ensures { result ≡ (talk_of self.now).count }
    {
        self.calls.faults
    }

    /// Begins anew, as the conversation of a link to a place that was dialled or to none.
    pub(crate) fn begin(&mut self, place: Option<String>)
        ensures place { (talk_of self.new).place ≡ option_map string_bytes place }
        ensures taken { (talk_of self.new).taken ≡ [] }
        ensures left { (talk_of self.new).left ≡ (talk_of self.old).taken ++ (talk_of self.old).left }
        ensures written { (talk_of self.new).written ≡ [] }
        ensures count { (talk_of self.new).count ≡ 0 }
        ensures steady { is_steady_link self.new ≡ is_steady_link self.old }
        ensures room { room_left self.new ≡ vec_capacity self.old.sink.written }
    {
        self.place = place;
        self.source.begin();
        self.sink.begin();
        self.calls.begin();
    }

    /// Reads, as `Source` says.
    pub(crate) fn read(&mut self, out: &mut [u8]) -> Result<usize, Failed>
        ensures read { HasRead (talk_of self.old) (talk_of self.new) (length out.old) out.new result }
        ensures only { OnlyRead (talk_of self.old) (talk_of self.new) }
        ensures cause { HasCause (talk_of self.old).count (talk_of self.new).count result }
        ensures succeeds { IsTrue (is_steady_link self.old) → IsOk result }
        ensures steady { is_steady_link self.new ≡ is_steady_link self.old }
    {
        self.begin_read()?;
        let answer = self.source.read(out);
        self.calls.count(answer)
    }

    /// Writes, as `Sink` says.
    pub(crate) fn write(&mut self, bytes: &[u8]) -> Result<usize, Failed>
        ensures written { HasWritten (talk_of self.old) (talk_of self.new) bytes.now result }
        ensures only { OnlyWrote (talk_of self.old) (talk_of self.new) }
        ensures cause { HasCause (talk_of self.old).count (talk_of self.new).count result }
        ensures succeeds { IsTrue (is_steady_link self.old) → length bytes.now ≤ room_left self.old → IsOk result }
        ensures room { TakesRoom (room_left self.old) (room_left self.new) result }
        ensures steady { is_steady_link self.new ≡ is_steady_link self.old }
    {
        self.calls.make()?;
        let answer = self.sink.write(bytes);
        self.calls.count(answer)
    }

    /// Makes the call of a read. It fails if that is listed, and if the read is held.
    fn begin_read(&mut self) -> Result<(), Failed>
        ensures succeeds { IsTrue (is_steady_link self.old) → IsOk result }
        ensures cause { HasCause self.old.calls.faults self.new.calls.faults result }
        ensures failing { self.new.calls.failing ≡ self.old.calls.failing }
        ensures same { self.new ≡ record self.old { calls = self.new.calls } }
    {
        self.calls.make()?;
        if self.is_held() {
            return Err(self.calls.fail());
        }
        Ok(())
    }

    /// Whether a read that begins now is held.
    fn is_held(&self) -> bool
        ensures { IsTrue result → IsSome self.now.gate }
    {
        let gate = self.gate;
        gate.is_some_and(|gate| {
            gate.place <= self.taken().len() && self.written().len() < gate.written
        })
    }
}
