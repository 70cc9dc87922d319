//! The steps by which a file is made. Its first byte is a gate, which is shut until all else is stable.

ghost use Rattle.std.specs.Prelude.{◌≡◌, ◌≢◌, ◌≤◌, ◌<◌, ◌+◌, ℕ, List, [], ◌∷◌, ◌++◌, length, IsTrue, IsOk, OnOk};
ghost use Rattle.disk_trait.specs.SameDisk.{SameDisk};
ghost use Rattle.disk_trait.specs.Faults.{HasCause};
ghost use Rattle.disk_trait.specs.Gate.{AreUnready, IsShut, OpensLast, StaysShut};
ghost use Rattle.disk_trait.specs.Images.{Only, Follows, Torn, written};

use crate::{Disk, DiskFault};

/// Writes bytes, and syncs.
pub fn write_stable<D: Disk>(disk: &mut D, at: u64, bytes: &[u8]) -> Result<(), DiskFault>
    ensures bytes { IsTrue (D.told disk.old)
        → OnOk result (D.reads disk.new ≡ written (D.reads disk.old) at bytes.now) }
    ensures torn { IsTrue (D.told disk.old) → Torn at (length bytes.now) (D.reads disk.old) (D.reads disk.new) }
    ensures images { IsTrue (D.honest disk.old)
        → Follows (Torn at (length bytes.now)) (D.may_leave disk.old) (D.may_leave disk.new) }
    ensures stable { IsTrue (D.told disk.old) → IsTrue (D.honest disk.old)
        → OnOk result (Only (D.reads disk.new) (D.may_leave disk.new)) }

    ensures succeeds { IsTrue (D.steady disk.old) → IsTrue (D.told disk.old)
        → at ≤ length (D.reads disk.old) → at + length bytes.now ≤ D.room disk.old → IsOk result }
    ensures cause { HasCause (D.count disk.old) (D.count disk.new) result }
    ensures stays { SameDisk D.Pages.own D.Faults disk.old disk.new }
{
    disk.write_at(at, bytes)?;
    disk.sync()
}

/// Writes a shut gate onto an empty disk and syncs, and writes the rest of a head that begins with it.
pub fn write_shut<D: Disk>(disk: &mut D, head: &[u8]) -> Result<(), DiskFault>
    requires empty { IsTrue (D.told disk.old) → D.reads disk.old ≡ [] }
    requires shut { IsShut head.now }
    requires longer { 1 < length head.now }
    ensures bytes { IsTrue (D.told disk.old) → OnOk result (D.reads disk.new ≡ head.now) }
    ensures no_longer { IsTrue (D.told disk.old) → length (D.reads disk.new) ≤ length head.now }
    ensures unready { (gate : ℕ) → gate ≢ 0
        → AreUnready D.Pages.own gate (length head.now) disk.old disk.new }
    ensures shut { IsTrue (D.told disk.old) → IsTrue (D.honest disk.old)
        → OnOk result ((image : List ℕ) → D.may_leave disk.new image → IsShut image) }

    ensures succeeds { IsTrue (D.steady disk.old) → IsTrue (D.told disk.old)
        → length head.now ≤ D.room disk.old → IsOk result }
    ensures cause { HasCause (D.count disk.old) (D.count disk.new) result }
    ensures stays { SameDisk D.Pages.own D.Faults disk.old disk.new }
{
    write_stable(disk, 0, &[0])?;
    append(disk, 1, &head[1..])
}

/// Writes at the end of a file whose gate is shut.
pub fn append<D: Disk>(disk: &mut D, at: u64, bytes: &[u8]) -> Result<(), DiskFault>
    requires end { IsTrue (D.told disk.old) → length (D.reads disk.old) ≡ at }
    requires behind { 1 ≤ at }
    ensures bytes { IsTrue (D.told disk.old)
        → OnOk result (D.reads disk.new ≡ D.reads disk.old ++ bytes.now) }
    ensures torn { IsTrue (D.told disk.old) → Torn at (length bytes.now) (D.reads disk.old) (D.reads disk.new) }
    ensures shut { StaysShut D.Pages.own disk.old disk.new }

    ensures succeeds { IsTrue (D.steady disk.old) → IsTrue (D.told disk.old)
        → at + length bytes.now ≤ D.room disk.old → IsOk result }
    ensures cause { HasCause (D.count disk.old) (D.count disk.new) result }
    ensures stays { SameDisk D.Pages.own D.Faults disk.old disk.new }
{
    disk.write_at(at, bytes)
}

/// Opens the gate of a file that is otherwise written. The first sync makes the rest stable before the gate is written,
/// and the second makes the gate stable, so neither a crash nor a read shows an open gate before a file that is not
/// whole.
pub fn open_gate<D: Disk>(disk: &mut D, gate: u8) -> Result<(), DiskFault>
    ensures bytes { IsTrue (D.told disk.old)
        → OnOk result (D.reads disk.new ≡ written (D.reads disk.old) 0 (gate ∷ [])) }
    ensures stable { IsTrue (D.told disk.old) → IsTrue (D.honest disk.old)
        → OnOk result (Only (D.reads disk.new) (D.may_leave disk.new)) }
    ensures last { OpensLast D.Pages.own disk.old disk.new }

    ensures succeeds { IsTrue (D.steady disk.old) → IsTrue (D.told disk.old) → 1 ≤ D.room disk.old → IsOk result }
    ensures cause { HasCause (D.count disk.old) (D.count disk.new) result }
    ensures stays { SameDisk D.Pages.own D.Faults disk.old disk.new }
{
    disk.sync()?;
    write_stable(disk, 0, &[gate])
}
