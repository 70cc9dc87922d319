//! Pages and disks: what their calls give, when they fail, and what a crash may leave.

ghost use Rattle.std.specs.Prelude.{◌≡◌, ◌↔◌, ◌+◌, ◌≤◌, ℕ, Bool, false, List, length, take, drop, IsTrue, IsOk, IfOk};
ghost use Rattle.std.specs.Prelude.{OnOk, OnErr};
ghost use Rattle.disk_trait.specs.Disks.{SameKind};
ghost use Rattle.disk_trait.specs.Faults.{HasCause};
ghost use Rattle.disk_trait.specs.Images.{written, Torn, Follows, Only};

use crate::Faults;
use thiserror::Error;

/// A call of pages or of a disk failed.
#[derive(Clone, Copy, Debug, PartialEq, Eq, Error)]
#[error("a call of the disk failed")]
pub struct DiskFault;

/// Pages that are read. What is said of room and crashes is for disks, which are pages too.
pub trait Pages: Faults {
    /// Whether the content is told.
    ghost told: { Self → Bool };

    /// What a read gives, if the content is told.
    ghost reads: { Self → List ℕ };

    /// How many bytes a disk has room for, if its content is told.
    ghost room: { Self → ℕ } = { λ _. 0 };

    /// Whether a disk keeps the model of crashes.
    ghost honest: { Self → Bool } = { λ _. false };

    /// What a crash now may leave of a disk.
    ghost may_leave: { Self → List ℕ → Type 0 } = { λ _ _. ⊥ };

    /// The length in bytes.
    fn len(&mut self) -> Result<u64, DiskFault>
        ensures length { IsTrue (told self.old) → IfOk result (λ n. n ≡ length (reads self.old)) }
        ensures succeeds { IsTrue (Self.steady self.old) → IsOk result }
        ensures cause { HasCause (Self.count self.old) (Self.count self.new) result }

        ensures same { IsTrue (told self.old) → reads self.new ≡ reads self.old }
        ensures images { IsTrue (honest self.old)
            → (image : List ℕ) → may_leave self.new image ↔ may_leave self.old image }
        ensures stays { SameKind told honest Self.steady room self.old self.new };

    /// The bytes from a place on, as many as `out` has. A read past the end fails.
    /// After a failed read `out` holds any bytes.
    fn read_at(&mut self, at: u64, out: &mut [u8]) -> Result<(), DiskFault>
        ensures bytes { IsTrue (told self.old)
            → OnOk result (out.new ≡ take (length out.old) (drop at (reads self.old))) }
        ensures within { IsTrue (told self.old)
            → OnOk result (at + length out.old ≤ length (reads self.old)) }
        ensures succeeds { IsTrue (Self.steady self.old) → IsTrue (told self.old)
            → at + length out.old ≤ length (reads self.old) → IsOk result }
        ensures cause { HasCause (Self.count self.old) (Self.count self.new) result }

        ensures same { IsTrue (told self.old) → reads self.new ≡ reads self.old }
        ensures images { IsTrue (honest self.old)
            → (image : List ℕ) → may_leave self.new image ↔ may_leave self.old image }
        ensures stays { SameKind told honest Self.steady room self.old self.new };
}

/// A disk that is read and written. Until a sync succeeds, a crash may leave any bytes in each
/// range that a write named, even a failed one, and any length from that of the last sync to the
/// present one. After a sync that succeeds a crash leaves what a read gives. An honest disk keeps
/// this model, and may stop at any of its calls and fail each later one: so what a function says of
/// the images of every honest disk after it returns is said of a crash at any moment within it.
pub trait Disk: Pages {
    /// Writes over what is there, and past the end. A write that begins past the end, or ends past
    /// the room, fails. After a failed write a read may give any bytes in its range.
    fn write_at(&mut self, at: u64, bytes: &[u8]) -> Result<(), DiskFault>
        ensures bytes { IsTrue (Self.told self.old)
            → OnOk result (Self.reads self.new ≡ written (Self.reads self.old) at bytes.now) }
        ensures torn { IsTrue (Self.told self.old)
            → OnErr result (Torn at (length bytes.now) (Self.reads self.old) (Self.reads self.new)) }
        ensures images { IsTrue (Self.honest self.old)
            → Follows (Torn at (length bytes.now)) (Self.may_leave self.old) (Self.may_leave self.new) }

        ensures within { IsTrue (Self.told self.old) → OnOk result (at ≤ length (Self.reads self.old)) }
        ensures fits { IsTrue (Self.told self.old) → OnOk result (at + length bytes.now ≤ Self.room self.old) }
        ensures succeeds { IsTrue (Self.steady self.old) → IsTrue (Self.told self.old)
            → at ≤ length (Self.reads self.old) → at + length bytes.now ≤ Self.room self.old → IsOk result }
        ensures cause { HasCause (Self.count self.old) (Self.count self.new) result }

        ensures stays { SameKind Self.told Self.honest Self.steady Self.room self.old self.new };

    /// Makes what was written stable. What is there has room, even after a failed sync.
    fn sync(&mut self) -> Result<(), DiskFault>
        ensures stable { IsTrue (Self.honest self.old) → IsTrue (Self.told self.old)
            → OnOk result (Only (Self.reads self.old) (Self.may_leave self.new)) }
        ensures images { IsTrue (Self.honest self.old)
            → (image : List ℕ) → Self.may_leave self.new image → Self.may_leave self.old image }
        ensures same { IsTrue (Self.told self.old) → Self.reads self.new ≡ Self.reads self.old }
        ensures has_room { IsTrue (Self.told self.old)
            → length (Self.reads self.old) ≤ Self.room self.old }

        ensures succeeds { IsTrue (Self.steady self.old) → IsOk result }
        ensures cause { HasCause (Self.count self.old) (Self.count self.new) result }

        ensures stays { SameKind Self.told Self.honest Self.steady Self.room self.old self.new };

    /// What a read gives is an image, so a disk that was all stable leaves just that.
    ghost leaves_reads: { (disk : Self) → IsTrue (Self.honest disk) → IsTrue (Self.told disk)
        → Self.may_leave disk (Self.reads disk) };

    /// No image is longer than what is there.
    ghost leaves_no_longer: { (disk : Self) (image : List ℕ) → IsTrue (Self.honest disk)
        → IsTrue (Self.told disk) → Self.may_leave disk image
        → length image ≤ length (Self.reads disk) };
}
