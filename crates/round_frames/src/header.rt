//! Headers of frames.

ghost use Rattle.std.specs.Prelude.{◌≡◌, ◌≤◌, ◌≢◌, ◌∷◌, [], length, min, take, IsTrue, IfErr};
ghost use Rattle.std.specs.Prelude.{IfSome, OnOk};
ghost use Rattle.std.specs.Prelude.{Some, None, true, nat_lt, if◌then◌else◌};
ghost use Rattle.stream_io.specs.Store.{RisesWhere};
ghost use Rattle.stream_io.specs.Talk.{OnlyRead};
ghost use Rattle.round_frames.specs.Frames.{first_fault, header_in};
ghost use Rattle.round_frames.specs.Reads.{Reads};
ghost use Rattle.round_frames.specs.declared.fault.FrameFault.TheVariants.{ReadFault, NoMemory, Kind, TooLong, Shape};

use crate::fault::FrameFault;
use disk_trait::Faults;
use lms_bytes::bytes::u32_at;
use stream_io::{Source, Stream, read_whole};

/// The header of a frame.
#[derive(Clone, Copy, Debug, PartialEq, Eq)]
pub(crate) struct Header {
    /// The kind of the frame.
    pub(crate) kind: u8,
    /// The length of its payload in bytes.
    pub(crate) length: u32,
}

/// Reads the header of a frame.
pub(crate) fn next_header<S: Source>(source: &mut S) -> Result<Header, FrameFault>
    ensures told { IsTrue (S.talk source.old).told → Reads (S.talk source.old) (S.talk source.new) result
        (record {
          result = header_in (take 8 (S.talk source.old).left);
          size = min 8 (length (S.talk source.old).left);
        }) }
    ensures whole { IsTrue (S.talk source.old).told → OnOk result (8 ≤ length (S.talk source.old).left) }
    ensures only { OnlyRead (S.talk source.old) (S.talk source.new) }
    ensures cause { RisesWhere (result ≡ Err ReadFault) (S.talk source.old).count (S.talk source.new).count }
    ensures answers { IsTrue (S.steady source.old) → result ≢ Err ReadFault }
    ensures steady { S.steady source.new ≡ S.steady source.old }
    ensures no_memory { result ≢ Err NoMemory }
{
    let mut bytes = [0; 8];
    let Ok(there) = read_whole(source, &mut bytes) else {
        return Err(FrameFault::ReadFault);
    };
    header_of(&bytes[..there])
}

/// The header in at most eight bytes, or the first test that they fail. Fewer than eight are no header.
#[tactic(auto, unfolding(crate::specs::Frames::header_in))]
fn header_of(bytes: &[u8]) -> Result<Header, FrameFault>
    requires { length bytes.now ≤ 8 }
    ensures header { result ≡ header_in bytes.now }
    ensures whole { OnOk result (length bytes.now ≡ 8) }
    ensures test { IfErr result (λ fault. (fault ≢ ReadFault) × (fault ≢ NoMemory)) }
{
    match bytes {
        [] => Err(FrameFault::End),
        [0x54, 0x4C, 1, kind, _, _, _, _] => Ok(Header {
            kind: *kind,
            length: u32_at(bytes, 4),
        }),
        [0x54] | [0x54, 0x4C] | [0x54, 0x4C, 1, ..] => Err(FrameFault::Cut),
        _ => Err(FrameFault::Magic),
    }
}

/// The first fault of a header: by whether its kind is read, the greatest length that is read, and whether its length
/// is one of its kind's.
pub(crate) fn fault_of(header: &Header, reads: bool, most: u32, fits: bool) -> Option<FrameFault>
    ensures fault { result ≡ first_fault ((if reads then None else Some (Kind header.now.kind))
        ∷ (if nat_lt most header.now.length then Some (TooLong header.now.length) else None)
        ∷ (if fits then None else Some Shape) ∷ []) }
    ensures read { result ≡ None → (reads ≡ true) × (header.now.length ≤ most) × (fits ≡ true) }
    ensures test { IfSome result (λ fault. (fault ≢ ReadFault) × (fault ≢ NoMemory)) }
{
    if !reads {
        return Some(FrameFault::Kind { got: header.kind });
    }
    if header.length > most {
        return Some(FrameFault::TooLong { got: header.length });
    }
    if fits { None } else { Some(FrameFault::Shape) }
}
