//! Sinks, which bytes are written to.

ghost use Rattle.std.specs.Prelude.{◌≡◌, ◌+◌, ◌≤◌, ◌++◌, ℕ, length, drop, IsTrue, IsOk, MatchResult};
ghost use Rattle.disk_trait.specs.Faults.{HasCause};
ghost use Rattle.stream_io.specs.Talk.{HasWritten, OnlyWrote, TakesRoom, WrotePart};

use crate::failed::Failed;
use crate::stream::Stream;
use disk_trait::Faults;

/// What bytes are written to.
pub trait Sink: Stream {
    /// How many more bytes it takes for sure, if it is steady.
    ghost room: { Self → ℕ };

    /// Writes a beginning of the piece, which is not empty unless the piece is, and answers its length.
    /// After a refusal nothing was written.
    fn write(&mut self, bytes: &[u8]) -> Result<usize, Failed>
        ensures written { HasWritten (Self.talk self.old) (Self.talk self.new) bytes.now result }
        ensures only { OnlyWrote (Self.talk self.old) (Self.talk self.new) }
        ensures cause { HasCause (Self.talk self.old).count (Self.talk self.new).count result }
        ensures succeeds { IsTrue (Self.steady self.old) → length bytes.now ≤ room self.old → IsOk result }
        ensures room { TakesRoom (room self.old) (room self.new) result }
        ensures steady { Self.steady self.new ≡ Self.steady self.old };

    /// The room of the talk is the sink's.
    ghost rooms: { (sink : Self) → (Self.talk sink).room ≡ room sink };
}

/// Writes all bytes. After a refusal some of them are left.
pub fn write_whole<K: Sink>(sink: &mut K, bytes: &[u8]) -> Result<(), Failed>
    ensures wrote { IsTrue (K.talk sink.old).told → MatchResult result
        (λ _. (K.talk sink.new).written ≡ (K.talk sink.old).written ++ bytes.now)
        (λ _. WrotePart (K.talk sink.old) (K.talk sink.new) bytes.now) }
    ensures only { OnlyWrote (K.talk sink.old) (K.talk sink.new) }
    ensures cause { HasCause (K.talk sink.old).count (K.talk sink.new).count result }
    ensures succeeds { IsTrue (K.steady sink.old) → length bytes.now ≤ K.room sink.old → IsOk result }
    ensures room { K.room sink.old ≤ K.room sink.new + length bytes.now }
    ensures steady { K.steady sink.new ≡ K.steady sink.old }
{
    let mut at = 0;
    'pieces: while at < bytes.len() {
        at += sink.write(after(bytes, at))?;
    }
    Ok(())
}

/// The bytes from a place on.
fn after(bytes: &[u8], at: usize) -> &[u8]
    requires { at ≤ length bytes.now }
    ensures { result.now ≡ drop at bytes.now }
{
    &bytes[at..]
}
