//! Making an empty file of slots.

ghost use Rattle.std.specs.Prelude.{◌≡◌, ◌≢◌, ◌≤◌, ◌<◌, ◌+◌, ◌*◌, ◌++◌, replicate, [], length};
ghost use Rattle.std.specs.Prelude.{Err, IsTrue, IsOk, OnOk};
ghost use Rattle.disk_trait.specs.Gate.{StaysShut};
ghost use Rattle.disk_trait.specs.Faults.{HasCause};
ghost use Rattle.disk_trait.specs.Images.{Only};
ghost use Rattle.disk_trait.specs.Faults.{RisesAt};
ghost use Rattle.disk_trait.specs.SameDisk.{SameDisk};
ghost use Rattle.slot_file.specs.Fresh.{IsNew, NeverHalf, RefusesFull};
ghost use Rattle.slot_file.specs.Layout.{file_size, slot_size};

use crate::Header;
use crate::header::OPEN;
use crate::slot::{slot_len, slot_start};
use disk_trait::{Disk, DiskFault, append, open_gate, write_shut};
use std::fmt::{self, Formatter, Write};
use thiserror::Error;

/// Why a file could not be made.
#[derive(Clone, Copy, PartialEq, Eq, Error)]
pub enum PrepareFault {
    /// The disk holds bytes.
    #[error("the disk holds {length} bytes, and must be empty")]
    NotEmpty {
        /// How many.
        length: u64,
    },
    /// The disk failed.
    #[error("a call of the disk failed")]
    Device,
}

impl fmt::Debug for PrepareFault {
    /// Writes the line that is displayed.
    fn fmt<W: Write>(&self, f: &mut Formatter<W>) -> fmt::Result {
        fmt::Display::fmt(self, f)
    }
}

impl From<DiskFault> for PrepareFault {
    ghost use Rattle.slot_file.specs.declared.prepared.PrepareFault.TheVariants.{Device};

    ghost from_gives = { λ _ fault. fault ≡ Device };

    fn from(_: DiskFault) -> Self {
        PrepareFault::Device
    }
}

/// Makes an empty file of `count` free slots on an empty disk. Its header's gate is opened last, so
/// no crash leaves a file that opens and is not whole.
pub fn prepare<D: Disk>(disk: &mut D, header: &Header, count: u32) -> Result<(), PrepareFault>
    ensures new { IsTrue (D.told disk.old) → OnOk result (IsNew header.now count (D.reads disk.new)) }
    ensures stable { IsTrue (D.told disk.old) → IsTrue (D.honest disk.old)
        → OnOk result (Only (D.reads disk.new) (D.may_leave disk.new)) }
    ensures half { (IsTrue (D.told disk.old) → D.reads disk.old ≡ [])
        → NeverHalf D.Pages.own (IsNew header.now count) disk.old disk.new }
    ensures full { RefusesFull D.Pages.own (λ held. Err (PrepareFault.NotEmpty held)) (Err PrepareFault.Device)
        disk.old disk.new result }
    ensures succeeds { IsTrue (D.steady disk.old) → IsTrue (D.told disk.old)
        → file_size header.now.version count ≤ D.room disk.old → result ≢ Err PrepareFault.Device }
    ensures cause { RisesAt (D.count disk.old) (D.count disk.new) result (Err PrepareFault.Device) }
    ensures stays { SameDisk D.Pages.own D.Faults disk.old disk.new }
{
    let length = disk.len()?;
    if length > 0 {
        return Err(PrepareFault::NotEmpty { length });
    }
    make_blank(disk, header, count)?;
    Ok(())
}

// Makes the file on an empty disk.
fn make_blank<D: Disk>(disk: &mut D, header: &Header, count: u32) -> Result<(), DiskFault>
    requires { IsTrue (D.told disk.old) → D.reads disk.old ≡ [] }
    ensures new { IsTrue (D.told disk.old) → OnOk result (IsNew header.now count (D.reads disk.new)) }
    ensures stable { IsTrue (D.told disk.old) → IsTrue (D.honest disk.old)
        → OnOk result (Only (D.reads disk.new) (D.may_leave disk.new)) }
    ensures half { NeverHalf D.Pages.own (IsNew header.now count) disk.old disk.new }
    ensures succeeds { IsTrue (D.steady disk.old) → IsTrue (D.told disk.old)
        → file_size header.now.version count ≤ D.room disk.old → IsOk result }
    ensures cause { HasCause (D.count disk.old) (D.count disk.new) result }
    ensures stays { SameDisk D.Pages.own D.Faults disk.old disk.new }
{
    let block = header.block(0);
    write_shut(disk, &block)?;
    write_free(disk, header.version, count)?;
    open_gate(disk, OPEN)
}

// Writes free slots after the header's block.
fn write_free<D: Disk>(disk: &mut D, version: u8, count: u32) -> Result<(), DiskFault>
    requires { IsTrue (D.told disk.old) → length (D.reads disk.old) ≡ 128 }
    ensures bytes { IsTrue (D.told disk.old)
        → OnOk result (D.reads disk.new ≡ D.reads disk.old ++ replicate (slot_size version * count) 0) }
    ensures shut { StaysShut D.Pages.own disk.old disk.new }
    ensures succeeds { IsTrue (D.steady disk.old) → IsTrue (D.told disk.old)
        → file_size version count ≤ D.room disk.old → IsOk result }
    ensures cause { HasCause (D.count disk.old) (D.count disk.new) result }
    ensures stays { SameDisk D.Pages.own D.Faults disk.old disk.new }
{
    let zeros = [0; 160];
    let size = slot_len(version);
    for slot in 0..count {
        append(disk, slot_start(version, slot), &zeros[..size])?;
    }
    Ok(())
}
