//! Files as a system gives them, with calls that do a part of what they are asked, and syncs that promise little.

ghost use Rattle.std.specs.Prelude.{◌≡◌, ◌+◌, ◌<◌, ◌≤◌, ℕ, Bool, List, length, take, drop};
ghost use Rattle.std.specs.Prelude.{IsTrue, IsFalse, IsOk, IfOk, OnOk, MatchResult};
ghost use Rattle.disk_trait.specs.Disks.{SameKind};
ghost use Rattle.disk_trait.specs.Faults.{HasCause};
ghost use Rattle.disk_trait.specs.Images.{Torn, Follows, Only};
ghost use Rattle.stream_io.specs.RawFiles.{HasWrittenAt, SyncsAfterWrite, Untouched};

use disk_trait::{DiskFault, Faults};

/// A file as a system gives it. A crash leaves of a write that succeeds or fails what it leaves of a write to a disk.
/// What a sync makes stable is less than one hopes: `sync_data` need not write the file's length, and after a sync that
/// failed the system may mark as clean what it could not write, so that a later one succeeds and has written nothing of
/// it.
pub trait RawFile: Faults {
    /// Whether the content is told.
    ghost told: { Self → Bool };

    /// What a read gives, if the content is told.
    ghost reads: { Self → List ℕ };

    /// How many bytes there is room for, if the content is told.
    ghost room: { Self → ℕ };

    /// Whether it keeps the model of crashes.
    ghost honest: { Self → Bool };

    /// What a crash now may leave.
    ghost may_leave: { Self → List ℕ → Type 0 };

    /// Whether it may have become longer since the last `sync_all` that succeeded. For a file that was just opened
    /// nobody knows when that was, so it may have.
    ghost grown: { Self → Bool };

    /// Whether a sync may have failed.
    ghost sync_failed: { Self → Bool };

    /// The length in bytes.
    fn len(&mut self) -> Result<u64, DiskFault>
        ensures length { IsTrue (told self.old) → IfOk result (λ n. n ≡ length (reads self.old)) }
        ensures succeeds { IsTrue (Self.steady self.old) → IsOk result }
        ensures cause { HasCause (Self.count self.old) (Self.count self.new) result }

        ensures untouched { Untouched told honest reads may_leave grown sync_failed self.old self.new }
        ensures stays { SameKind told honest Self.steady room self.old self.new };

    /// Reads bytes from a place on to the front of the room, and answers how many: 0 for a room that is not empty
    /// exactly at the end or past it. After these bytes the room holds any bytes, and after a refusal all of it does.
    fn read_at(&mut self, at: u64, out: &mut [u8]) -> Result<usize, DiskFault>
        ensures size { IfOk result (λ n. n ≤ length out.old) }
        ensures bytes { IsTrue (told self.old) → IfOk result (λ n. take n out.new ≡ take n (drop at (reads self.old))) }
        ensures within { IsTrue (told self.old) → IfOk result (λ n. n ≤ length (drop at (reads self.old))) }
        ensures end { IsTrue (told self.old)
            → IfOk result (λ n. n ≡ 0 → 0 < length out.old → length (reads self.old) ≤ at) }
        ensures succeeds { IsTrue (Self.steady self.old) → IsOk result }
        ensures cause { HasCause (Self.count self.old) (Self.count self.new) result }

        ensures untouched { Untouched told honest reads may_leave grown sync_failed self.old self.new }
        ensures stays { SameKind told honest Self.steady room self.old self.new };

    /// Writes a beginning of the bytes over what is there and past the end, and answers how many: at least one of a
    /// piece that is not empty. After a refusal a read may give any bytes in the range of all of them. What a write
    /// that begins past the end does is not said: it leaves a hole before it.
    fn write_at(&mut self, at: u64, bytes: &[u8]) -> Result<usize, DiskFault>
        ensures written { HasWrittenAt told reads at bytes.now result self.old self.new }
        ensures images { IsTrue (honest self.old) → IsTrue (told self.old) → at ≤ length (reads self.old)
            → Follows (Torn at (length bytes.now)) (may_leave self.old) (may_leave self.new) }
        ensures syncs { SyncsAfterWrite told reads grown sync_failed at (length bytes.now) self.old self.new }

        ensures succeeds { IsTrue (Self.steady self.old) → IsTrue (told self.old)
            → at ≤ length (reads self.old) → at + length bytes.now ≤ room self.old → IsOk result }
        ensures cause { HasCause (Self.count self.old) (Self.count self.new) result }
        ensures stays { SameKind told honest Self.steady room self.old self.new };

    /// Makes all that was written stable, the length too, unless a sync has failed before.
    fn sync_all(&mut self) -> Result<(), DiskFault>
        ensures stable { IsTrue (honest self.old) → IsTrue (told self.old) → IsFalse (sync_failed self.old)
            → OnOk result (Only (reads self.old) (may_leave self.new)) }
        ensures grown { IsTrue (told self.old) → OnOk result (IsFalse (grown self.new)) }
        ensures failed { IsTrue (told self.old) → MatchResult result
            (λ _. sync_failed self.new ≡ sync_failed self.old) (λ _. IsTrue (sync_failed self.new)) }

        ensures same { IsTrue (told self.old) → reads self.new ≡ reads self.old }
        ensures images { IsTrue (honest self.old)
            → (image : List ℕ) → may_leave self.new image → may_leave self.old image }
        ensures succeeds { IsTrue (Self.steady self.old) → IsOk result }
        ensures cause { HasCause (Self.count self.old) (Self.count self.new) result }
        ensures stays { SameKind told honest Self.steady room self.old self.new };

    /// Makes the bytes that were written stable if the file has not grown, unless a sync has failed before. It need not
    /// write the length.
    fn sync_data(&mut self) -> Result<(), DiskFault>
        ensures stable { IsTrue (honest self.old) → IsTrue (told self.old) → IsFalse (grown self.old)
            → IsFalse (sync_failed self.old) → OnOk result (Only (reads self.old) (may_leave self.new)) }
        ensures grown { IsTrue (told self.old) → OnOk result (grown self.new ≡ grown self.old) }
        ensures failed { IsTrue (told self.old) → MatchResult result
            (λ _. sync_failed self.new ≡ sync_failed self.old) (λ _. IsTrue (sync_failed self.new)) }

        ensures same { IsTrue (told self.old) → reads self.new ≡ reads self.old }
        ensures images { IsTrue (honest self.old)
            → (image : List ℕ) → may_leave self.new image → may_leave self.old image }
        ensures succeeds { IsTrue (Self.steady self.old) → IsOk result }
        ensures cause { HasCause (Self.count self.old) (Self.count self.new) result }
        ensures stays { SameKind told honest Self.steady room self.old self.new };

    /// What is there has room.
    ghost has_room: { (file : Self) → IsTrue (told file) → length (reads file) ≤ room file };

    /// What a read gives is an image, so a file that was all stable leaves just that.
    ghost leaves_reads: { (file : Self) → IsTrue (honest file) → IsTrue (told file)
        → may_leave file (reads file) };

    /// No image is longer than what is there.
    ghost leaves_no_longer: { (file : Self) (image : List ℕ) → IsTrue (honest file)
        → IsTrue (told file) → may_leave file image → length image ≤ length (reads file) };
}
