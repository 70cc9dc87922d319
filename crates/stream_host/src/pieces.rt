//! Reads and writes of files as wholes, which the system may do in pieces.

ghost use Rattle.std.specs.Prelude.{◌≡◌, ◌+◌, ◌^◌, ◌<◌, ◌≤◌, ◌++◌, length, take, drop};
ghost use Rattle.std.specs.Prelude.{IsTrue, IsOk, IfOk, OnOk, OnErr};
ghost use Rattle.disk_trait.specs.Disks.{SameKind};
ghost use Rattle.disk_trait.specs.Images.{written, Torn, Follows};
ghost use Rattle.stream_io.specs.RawFiles.{SyncsAfterWrite, Untouched};

use disk_trait::{DiskFault, Faults};
use stream_io::RawFile;

/// Reads from a place on until the room is full. It fails if the file comes to its end before that.
pub(crate) fn read_pieces<F: RawFile>(
    file: &mut F,
    at: u64,
    out: &mut [u8],
) -> Result<(), DiskFault>
    requires { 0 < length out.old }
    ensures bytes { IsTrue (F.told file.old)
        → OnOk result (out.new ≡ take (length out.old) (drop at (F.reads file.old))) }
    ensures within { IsTrue (F.told file.old) → OnOk result (at + length out.old ≤ length (F.reads file.old)) }
    ensures succeeds { IsTrue (F.Faults.steady file.old) → IsTrue (F.told file.old)
        → at + length out.old ≤ length (F.reads file.old) → at + length out.old < 2 ^ 64 → IsOk result }
    ensures untouched { Untouched F.told F.honest F.reads F.may_leave F.grown F.sync_failed file.old file.new }
    ensures stays { SameKind F.told F.honest F.Faults.steady F.room file.old file.new }
{
    let mut done = 0;
    'pieces: while done < out.len() {
        let Some(place) = at.checked_add(done as u64) else {
            return Err(DiskFault);
        };
        let count = read_behind(file, place, out, done)?;
        if count == 0 {
            return Err(DiskFault);
        }
        done += count;
    }
    Ok(())
}

/// Reads once, into the room after what is done.
fn read_behind<F: RawFile>(
    file: &mut F,
    place: u64,
    out: &mut [u8],
    done: usize,
) -> Result<usize, DiskFault>
    requires { done < length out.old }
    ensures size { IfOk result (λ n. done + n ≤ length out.old) }
    ensures bytes { IsTrue (F.told file.old)
        → IfOk result (λ n. take (done + n) out.new ≡ take done out.old ++ take n (drop place (F.reads file.old))) }
    ensures within { IsTrue (F.told file.old) → IfOk result (λ n. n ≤ length (drop place (F.reads file.old))) }
    ensures end { IsTrue (F.told file.old) → IfOk result (λ n. n ≡ 0 → length (F.reads file.old) ≤ place) }
    ensures succeeds { IsTrue (F.Faults.steady file.old) → IsOk result }
    ensures untouched { Untouched F.told F.honest F.reads F.may_leave F.grown F.sync_failed file.old file.new }
    ensures stays { SameKind F.told F.honest F.Faults.steady F.room file.old file.new }
{
    file.read_at(place, &mut out[done..])
}

/// Writes all bytes from a place on.
pub(crate) fn write_pieces<F: RawFile>(file: &mut F, at: u64, bytes: &[u8]) -> Result<(), DiskFault>
    ensures bytes { IsTrue (F.told file.old) → at ≤ length (F.reads file.old)
        → OnOk result (F.reads file.new ≡ written (F.reads file.old) at bytes.now) }
    ensures torn { IsTrue (F.told file.old) → at ≤ length (F.reads file.old)
        → OnErr result (Torn at (length bytes.now) (F.reads file.old) (F.reads file.new)) }
    ensures images { IsTrue (F.honest file.old) → IsTrue (F.told file.old) → at ≤ length (F.reads file.old)
        → Follows (Torn at (length bytes.now)) (F.may_leave file.old) (F.may_leave file.new) }
    ensures syncs { SyncsAfterWrite F.told F.reads F.grown F.sync_failed at (length bytes.now) file.old file.new }
    ensures succeeds { IsTrue (F.Faults.steady file.old) → IsTrue (F.told file.old)
        → at ≤ length (F.reads file.old) → at + length bytes.now ≤ F.room file.old
        → at + length bytes.now < 2 ^ 64 → IsOk result }
    ensures stays { SameKind F.told F.honest F.Faults.steady F.room file.old file.new }
{
    let mut done = 0;
    'pieces: while done < bytes.len() {
        let Some(place) = at.checked_add(done as u64) else {
            return Err(DiskFault);
        };
        let count = file.write_at(place, after(bytes, done))?;
        done += count;
    }
    Ok(())
}

/// The bytes after what is done.
fn after(bytes: &[u8], done: usize) -> &[u8]
    requires { done ≤ length bytes.now }
    ensures { result.now ≡ drop done bytes.now }
{
    &bytes[done..]
}
