//! Rooms that are filled from a source, and bytes that are taken from it as they come.

ghost use Rattle.std.specs.Prelude.{◌≡◌, ◌≢◌, ◌⊎◌, ◌+◌, ◌-◌, ◌<◌, ◌^◌, ◌++◌, length, take, min, max, IsTrue};
ghost use Rattle.std.specs.Prelude.{IfErr, IfOk, OnOk};
ghost use Rattle.stream_io.specs.Store.{RisesWhere};
ghost use Rattle.stream_io.specs.Talk.{OnlyRead};
ghost use Rattle.round_frames.specs.Reads.{Passed};
ghost use Rattle.round_frames.specs.declared.fault.FrameFault.TheVariants.{Cut, ReadFault, NoMemory};

use crate::fault::FrameFault;
use disk_trait::Faults;
use std::alloc::Global;
use stream_io::{Failed, Source, Stream, read_whole};

/// Fills the room from the source, or finds the end within it.
pub(crate) fn fill<S: Source>(source: &mut S, out: &mut [u8]) -> Result<(), FrameFault>
    ensures bytes { IsTrue (S.talk source.old).told
        → OnOk result (out.new ≡ take (length out.old) (S.talk source.old).left) }
    ensures passed { IsTrue (S.talk source.old).told
        → Passed (S.talk source.old) (S.talk source.new) result (length out.old) }
    ensures only { OnlyRead (S.talk source.old) (S.talk source.new) }
    ensures faults { IfErr result (λ fault. (fault ≡ Cut) ⊎ (fault ≡ ReadFault)) }
    ensures cause { RisesWhere (result ≡ Err ReadFault) (S.talk source.old).count (S.talk source.new).count }
    ensures answers { IsTrue (S.steady source.old) → result ≢ Err ReadFault }
    ensures steady { S.steady source.new ≡ S.steady source.old }
{
    match read_whole(source, out) {
        Ok(count) if count < out.len() => Err(FrameFault::Cut),
        Ok(_) => Ok(()),
        Err(Failed) => Err(FrameFault::ReadFault),
    }
}

/// How many bytes are asked for at first.
const PIECE: usize = 4096;

/// Takes `size` bytes from the source. Memory is taken for at most twice what was read, and a piece.
pub(crate) fn take_bytes<S: Source>(
    alloc: Global,
    source: &mut S,
    size: u32,
) -> Result<Vec<u8>, FrameFault>
    ensures bytes { IsTrue (S.talk source.old).told
        → IfOk result (λ bytes. bytes.items ≡ take size (S.talk source.old).left) }
    ensures passed { IsTrue (S.talk source.old).told
        → (result ≡ Err NoMemory) ⊎ Passed (S.talk source.old) (S.talk source.new) result size }
    ensures only { OnlyRead (S.talk source.old) (S.talk source.new) }
    ensures cause { RisesWhere (result ≡ Err ReadFault) (S.talk source.old).count (S.talk source.new).count }
    ensures answers { IsTrue (S.steady source.old) → result ≢ Err ReadFault }
    ensures steady { S.steady source.new ≡ S.steady source.old }
{
    let size = size as usize;
    let mut bytes = Vec::new(alloc);
    'pieces: while bytes.len() < size {
        let more = count_behind(bytes.len(), size);
        take_more(source, &mut bytes, more)?;
    }
    Ok(bytes)
}

/// How many more bytes of `size` memory is taken for, if `read` were read: at most as many again, or a piece.
fn count_behind(read: usize, size: usize) -> usize
    requires { read < size }
    ensures { result ≡ min (size - read) (max read 4096) }
{
    (size - read).min(read.max(PIECE))
}

/// Takes `more` more bytes from the source.
fn take_more<S: Source>(source: &mut S, bytes: &mut Vec<u8>, more: usize) -> Result<(), FrameFault>
    requires { length bytes.old.items + more < 2 ^ 32 }
    ensures bytes { IsTrue (S.talk source.old).told
        → OnOk result (bytes.new.items ≡ bytes.old.items ++ take more (S.talk source.old).left) }
    ensures length { OnOk result (length bytes.new.items ≡ length bytes.old.items + more) }
    ensures passed { IsTrue (S.talk source.old).told
        → (result ≡ Err NoMemory) ⊎ Passed (S.talk source.old) (S.talk source.new) result more }
    ensures only { OnlyRead (S.talk source.old) (S.talk source.new) }
    ensures cause { RisesWhere (result ≡ Err ReadFault) (S.talk source.old).count (S.talk source.new).count }
    ensures answers { IsTrue (S.steady source.old) → result ≢ Err ReadFault }
    ensures steady { S.steady source.new ≡ S.steady source.old }
{
    let at = bytes.len();
    let Ok(()) = bytes.resize(at + more, 0) else {
        return Err(FrameFault::NoMemory);
    };
    fill(source, &mut bytes[at..])
}
