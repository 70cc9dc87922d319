//! Sources, which bytes are read from.

ghost use Rattle.std.specs.Prelude.{◌≡◌, ◌+◌, ◌<◌, ◌≤◌, ◌++◌, [], length, take, min, IsTrue, IsOk, IfOk};
ghost use Rattle.std.specs.Prelude.{MatchResult};
ghost use Rattle.disk_trait.specs.Faults.{HasCause};
ghost use Rattle.stream_io.specs.Talk.{HasRead, OnlyRead, Took, TookPart};

use crate::failed::Failed;
use crate::stream::Stream;
use disk_trait::Faults;

/// What bytes are read from.
pub trait Source: Stream {
    /// Reads bytes to the front of the room, and answers how many: 0 for a room that is not empty exactly at the end.
    /// After a refusal the room holds any bytes, and nothing was read.
    fn read(&mut self, out: &mut [u8]) -> Result<usize, Failed>
        ensures read { HasRead (Self.talk self.old) (Self.talk self.new) (length out.old) out.new result }
        ensures only { OnlyRead (Self.talk self.old) (Self.talk self.new) }
        ensures cause { HasCause (Self.talk self.old).count (Self.talk self.new).count result }
        ensures succeeds { IsTrue (Self.steady self.old) → IsOk result }
        ensures steady { Self.steady self.new ≡ Self.steady self.old };
}

/// Reads until the room is full or the source is at its end, and answers how many bytes there were.
pub fn read_whole<S: Source>(source: &mut S, out: &mut [u8]) -> Result<usize, Failed>
    ensures size { IsTrue (S.talk source.old).told
        → IfOk result (λ n. n ≡ min (length out.old) (length (S.talk source.old).left)) }
    ensures within { IfOk result (λ n. n ≤ length out.old) }
    ensures bytes { IsTrue (S.talk source.old).told
        → IfOk result (λ n. take n out.new ≡ take n (S.talk source.old).left) }
    ensures took { IsTrue (S.talk source.old).told → MatchResult result
        (λ n. Took (S.talk source.old) (S.talk source.new) n)
        (λ _. TookPart (S.talk source.old) (S.talk source.new) (length out.old)) }
    ensures only { OnlyRead (S.talk source.old) (S.talk source.new) }
    ensures cause { HasCause (S.talk source.old).count (S.talk source.new).count result }
    ensures succeeds { IsTrue (S.steady source.old) → IsOk result }
    ensures steady { S.steady source.new ≡ S.steady source.old }
{
    let mut at = 0;
    'pieces: while at < out.len() {
        let count = read_behind(source, out, at)?;
        if count == 0 {
            return Ok(at);
        }
        at += count;
    }
    Ok(at)
}

/// Reads once into the room from a place on.
fn read_behind<S: Source>(source: &mut S, out: &mut [u8], at: usize) -> Result<usize, Failed>
    requires { at < length out.old }
    ensures size { IfOk result (λ n. at + n ≤ length out.old) }
    ensures bytes { IsTrue (S.talk source.old).told
        → IfOk result (λ n. take (at + n) out.new ≡ take at out.old ++ take n (S.talk source.old).left) }
    ensures took { IsTrue (S.talk source.old).told → MatchResult result
        (λ n. Took (S.talk source.old) (S.talk source.new) n) (λ _. Took (S.talk source.old) (S.talk source.new) 0) }
    ensures end { IsTrue (S.talk source.old).told → IfOk result (λ n. n ≡ 0 → (S.talk source.old).left ≡ []) }
    ensures only { OnlyRead (S.talk source.old) (S.talk source.new) }
    ensures cause { HasCause (S.talk source.old).count (S.talk source.new).count result }
    ensures succeeds { IsTrue (S.steady source.old) → IsOk result }
    ensures steady { S.steady source.new ≡ S.steady source.old }
{
    source.read(&mut out[at..])
}
