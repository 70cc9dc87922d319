//! Making a file from the slots of another.

ghost use Rattle.std.specs.Prelude.{◌≡◌, ◌≢◌, ◌≤◌, ◌<◌, ◌+◌, ℕ, [], length, Err, IsTrue, IfOk, IfErr, if◌then◌else◌};
ghost use Rattle.disk_trait.specs.Gate.{StaysShut};
ghost use Rattle.slot_file.specs.Copies.{IsCopy};
ghost use Rattle.slot_file.specs.Copying.{CopiesSlot, CopiesSlots, CopyCalls, FindsDamaged, FindsSlot, IsClosedCopy};
ghost use Rattle.slot_file.specs.Copying.{IsDamaged, IsStableCopy};
ghost use Rattle.slot_file.specs.Fresh.{AreUnready, NeverHalf, RefusesFull};
ghost use Rattle.slot_file.specs.Layout.{file_size, slot_start};
ghost use Rattle.slot_file.specs.Slots.{IsSteady, IsTold, count_of, file_of, header_of, slot_now};

use crate::faults::show_damaged;
use crate::header::OPEN;
use crate::slot::slot_start;
use crate::{Doubt, Header, Slot, Slots};
use disk_trait::{Disk, DiskFault, append, open_gate, write_shut};
use std::fmt::{self, Formatter, Write};
use thiserror::Error;

/// Why slots could not be copied.
#[derive(Clone, Copy, PartialEq, Eq, Error)]
pub enum CopyFault {
    /// The new disk holds bytes.
    #[error("the new disk holds {length} bytes, and must be empty")]
    NotEmpty {
        /// How many.
        length: u64,
    },
    /// The first slot that has gate B open and gate A closed.
    #[error(fmt = show_damaged)]
    Damaged {
        /// The slot.
        slot: u32,
        /// The byte of gate A.
        a: u8,
        /// The byte of gate B.
        b: u8,
    },
    /// One of the two disks failed.
    #[error("a call of one of the two disks failed")]
    Device,
}

impl fmt::Debug for CopyFault {
    /// Writes the line that is displayed.
    fn fmt<W: Write>(&self, f: &mut Formatter<W>) -> fmt::Result {
        fmt::Display::fmt(self, f)
    }
}

impl From<DiskFault> for CopyFault {
    ghost use Rattle.slot_file.specs.declared.copies.CopyFault.TheVariants.{Device};

    ghost from_gives = { λ _ fault. fault ≡ Device };

    fn from(_: DiskFault) -> Self {
        CopyFault::Device
    }
}

/// Makes a file from the slots of another, with moment 0, on an empty disk, and answers how many
/// are not free. Its header's gate is opened last, as in `prepare`.
pub fn copy_slots<D: Disk, E: Disk>(
    disk: &mut D,
    header: &Header,
    count: u32,
    from: &mut Slots<E>,
) -> Result<u32, CopyFault>
    requires version { header.now.version ≡ 2 }
    requires count { count_of from.old ≡ count }

    ensures copied { IfOk result (IsStableCopy from.old D.Pages.own header.now count disk.old disk.new) }
    ensures half { (IsTrue (D.told disk.old) → D.reads disk.old ≡ []) → IsTold from.old → NeverHalf D.Pages.own
        (IsCopy header.now count (header_of from.old).version (file_of from.old)) disk.old disk.new }
    ensures full { RefusesFull D.Pages.own (λ held. Err (CopyFault.NotEmpty held)) (Err CopyFault.Device)
        disk.old disk.new result }
    ensures damaged { IfErr result (FindsDamaged from.old count) }
    ensures shut { IfErr result (λ fault. IsDamaged fault → AreUnready D.Pages.own disk.old disk.new) }
    ensures succeeds { IsTrue (D.steady disk.old) → IsTrue (D.told disk.old) → IsSteady from.old → IsTold from.old
        → file_size 2 count ≤ D.room disk.old → result ≢ Err CopyFault.Device }
    ensures calls { CopyCalls D.Pages.own D.Faults disk.old disk.new from.old from.new result (Err CopyFault.Device) }
{
    let length = disk.len()?;
    if length > 0 {
        return Err(CopyFault::NotEmpty { length });
    }
    make_copy(disk, header, count, from)
}

// Copies one slot to the end of the new file, and answers whether it is taken.
fn copy_slot<D: Disk, E: Disk>(
    disk: &mut D,
    slot: u32,
    from: &mut Slots<E>,
) -> Result<bool, CopyFault>
    requires within { slot < count_of from.old }
    requires end { IsTrue (D.told disk.old) → length (D.reads disk.old) ≡ slot_start 2 slot }

    ensures copied { IfOk result (CopiesSlot from.old D.Pages.own slot disk.old disk.new) }
    ensures damaged { IfErr result (FindsSlot (IsTold from.old) slot (slot_now from.old slot)) }
    ensures not_empty { (held : ℕ) → result ≢ Err (CopyFault.NotEmpty held) }
    ensures shut { StaysShut D.Pages.own disk.old disk.new }
    ensures succeeds { IsTrue (D.steady disk.old) → IsTrue (D.told disk.old) → IsSteady from.old → IsTold from.old
        → slot_start 2 (slot + 1) ≤ D.room disk.old → result ≢ Err CopyFault.Device }
    ensures calls { CopyCalls D.Pages.own D.Faults disk.old disk.new from.old from.new result (Err CopyFault.Device) }
{
    let found = from.look(slot)?;
    if let Slot::Damaged { a, b } = found {
        return Err(CopyFault::Damaged { slot, a, b });
    }
    append(disk, slot_start(2, slot), &found.block())?;
    Ok(!found.is_free())
}

fn one_if(is_taken: bool) -> u32
    ensures value { result ≡ (if is_taken then 1 else 0) }
    ensures small { result ≤ 1 }
{
    if is_taken { 1 } else { 0 }
}

// Copies all slots to the end of the new file, and answers how many are taken.
fn write_copies<D: Disk, E: Disk>(
    disk: &mut D,
    count: u32,
    from: &mut Slots<E>,
) -> Result<u32, CopyFault>
    requires count { count_of from.old ≡ count }
    requires end { IsTrue (D.told disk.old) → length (D.reads disk.old) ≡ 128 }

    ensures copied { IfOk result (CopiesSlots from.old D.Pages.own count disk.old disk.new) }
    ensures damaged { IfErr result (FindsDamaged from.old count) }
    ensures not_empty { (held : ℕ) → result ≢ Err (CopyFault.NotEmpty held) }
    ensures shut { StaysShut D.Pages.own disk.old disk.new }
    ensures succeeds { IsTrue (D.steady disk.old) → IsTrue (D.told disk.old) → IsSteady from.old → IsTold from.old
        → slot_start 2 count ≤ D.room disk.old → result ≢ Err CopyFault.Device }
    ensures calls { CopyCalls D.Pages.own D.Faults disk.old disk.new from.old from.new result (Err CopyFault.Device) }
{
    let mut taken = 0;
    for slot in 0..count {
        match copy_slot(disk, slot, from) {
            Ok(is_taken) => taken += one_if(is_taken),
            Err(fault) => return Err(fault),
        }
    }
    Ok(taken)
}

// Writes the whole file onto an empty disk, except for its gate, which is closed.
fn write_closed<D: Disk, E: Disk>(
    disk: &mut D,
    header: &Header,
    count: u32,
    from: &mut Slots<E>,
) -> Result<u32, CopyFault>
    requires version { header.now.version ≡ 2 }
    requires count { count_of from.old ≡ count }
    requires empty { IsTrue (D.told disk.old) → D.reads disk.old ≡ [] }

    ensures copied { IfOk result (IsClosedCopy from.old D.Pages.own header.now count disk.old disk.new) }
    ensures damaged { IfErr result (FindsDamaged from.old count) }
    ensures not_empty { (held : ℕ) → result ≢ Err (CopyFault.NotEmpty held) }
    ensures unready { AreUnready D.Pages.own disk.old disk.new }
    ensures succeeds { IsTrue (D.steady disk.old) → IsTrue (D.told disk.old) → IsSteady from.old → IsTold from.old
        → file_size 2 count ≤ D.room disk.old → result ≢ Err CopyFault.Device }
    ensures calls { CopyCalls D.Pages.own D.Faults disk.old disk.new from.old from.new result (Err CopyFault.Device) }
{
    let block = header.block(0);
    write_shut(disk, &block)?;
    write_copies(disk, count, from)
}

// Makes the file on an empty disk.
fn make_copy<D: Disk, E: Disk>(
    disk: &mut D,
    header: &Header,
    count: u32,
    from: &mut Slots<E>,
) -> Result<u32, CopyFault>
    requires version { header.now.version ≡ 2 }
    requires count { count_of from.old ≡ count }
    requires empty { IsTrue (D.told disk.old) → D.reads disk.old ≡ [] }

    ensures copied { IfOk result (IsStableCopy from.old D.Pages.own header.now count disk.old disk.new) }
    ensures half { IsTold from.old → NeverHalf D.Pages.own
        (IsCopy header.now count (header_of from.old).version (file_of from.old)) disk.old disk.new }
    ensures damaged { IfErr result (FindsDamaged from.old count) }
    ensures not_empty { (held : ℕ) → result ≢ Err (CopyFault.NotEmpty held) }
    ensures shut { IfErr result (λ fault. IsDamaged fault → AreUnready D.Pages.own disk.old disk.new) }
    ensures succeeds { IsTrue (D.steady disk.old) → IsTrue (D.told disk.old) → IsSteady from.old → IsTold from.old
        → file_size 2 count ≤ D.room disk.old → result ≢ Err CopyFault.Device }
    ensures calls { CopyCalls D.Pages.own D.Faults disk.old disk.new from.old from.new result (Err CopyFault.Device) }
{
    let taken = match write_closed(disk, header, count, from) {
        Ok(taken) => taken,
        Err(fault) => return Err(fault),
    };
    open_gate(disk, OPEN)?;
    Ok(taken)
}
