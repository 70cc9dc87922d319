//! A body and then the gate before it, each made stable.

ghost use Rattle.std.specs.Prelude.{◌≡◌, ◌≤◌, ◌+◌, length, IsTrue, IsOk, OnOk};
ghost use Rattle.disk_trait.specs.Faults.{HasCause};
ghost use Rattle.disk_trait.specs.Images.{Only, Follows};
ghost use Rattle.disk_trait.specs.SameDisk.{SameDisk};
ghost use Rattle.slot_file.specs.Gated.{Gated, gated};

use disk_trait::{Disk, DiskFault, write_stable};

/// Writes a body, syncs, writes a gate of one byte, and syncs: the gate is never open before the
/// body is whole and stable.
pub(crate) fn write_gated<D: Disk>(
    disk: &mut D,
    at: u64,
    body: &[u8],
    gate_at: u64,
    gate: u8,
) -> Result<(), DiskFault>
    ensures bytes { IsTrue (D.told disk.old)
        → OnOk result (D.reads disk.new ≡ gated at body.now gate_at gate (D.reads disk.old)) }
    ensures file { IsTrue (D.told disk.old) → Gated at body.now gate_at (D.reads disk.old) (D.reads disk.new) }
    ensures images { IsTrue (D.told disk.old) → IsTrue (D.honest disk.old)
        → Follows (Gated at body.now gate_at) (D.may_leave disk.old) (D.may_leave disk.new) }
    ensures stable { IsTrue (D.told disk.old) → IsTrue (D.honest disk.old)
        → OnOk result (Only (D.reads disk.new) (D.may_leave disk.new)) }

    ensures succeeds { IsTrue (D.steady disk.old) → IsTrue (D.told disk.old)
        → at + length body.now ≤ length (D.reads disk.old) → gate_at + 1 ≤ length (D.reads disk.old)
        → length (D.reads disk.old) ≤ D.room disk.old → IsOk result }
    ensures cause { HasCause (D.count disk.old) (D.count disk.new) result }
    ensures stays { SameDisk D.Pages.own D.Faults disk.old disk.new }
{
    write_stable(disk, at, body)?;
    write_stable(disk, gate_at, &[gate])
}
