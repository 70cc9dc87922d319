//! How many slots the disks of a drill hold, by what they hold.

use disk_trait::{Disk, MemDisk};
use slot_file::{Header, LoadFault, Slot, Slots};
use std::io;

/// How many leaves the key of a drill has.
const LEAVES: u32 = 32;

/// How many slots of a file hold one body, and how many hold both.
#[derive(Clone, Copy)]
struct Count {
    half: u32,
    full: u32,
}

/// The slots on a disk, whatever key they belong to.
fn slots_on<D: Disk + Drop>(disk: D, version: u8, number: u8) -> Option<Slots<D>> {
    let header = Header {
        version,
        number,
        lms: 5,
        ots: 3,
        id: [0; 16],
    };
    match Slots::load(disk, &header, LEAVES) {
        Ok(slots) => Some(slots),
        Err((disk, fault)) => match fault {
            LoadFault::Foreign { kept } => Slots::load(disk, &kept, LEAVES).ok(),
            _ => None,
        },
    }
}

/// What slots hold, if there are as many of them as leaves.
fn count_slots<D: Disk>(slots: &mut Slots<D>) -> Option<Count> {
    let mut count = Count { half: 0, full: 0 };
    for slot in 0..LEAVES {
        if slot >= slots.count() {
            return None;
        }
        match slots.look(slot).ok()? {
            Slot::Half(_) => count.half = count.half.saturating_add(1),
            Slot::Full(..) => count.full = count.full.saturating_add(1),
            Slot::Free | Slot::Damaged { .. } => {}
        }
    }
    Some(count)
}

/// What a disk holds, if it is a file of slots of that version.
fn counted(disk: MemDisk, version: u8, number: u8) -> Option<Count> {
    let mut slots = slots_on(disk, version, number)?;
    count_slots(&mut slots)
}

/// Prints how many leaves of a journal are opened, and how many are only bound.
fn print_journal(rt: HostRuntime, disk: MemDisk, number: u8) -> io::Result<()> {
    match counted(disk, 2, number) {
        Some(count) => println!(rt;
            "journal {number}: {} opened, {} bound",
            count.full, count.half
        ),
        None => println!(rt; "journal {number}: none"),
    }
}

/// Prints how many leaves of a table are leased, and how many are burnt.
fn print_table(rt: HostRuntime, disk: MemDisk) -> io::Result<()> {
    match counted(disk, 1, 0) {
        Some(count) => println!(rt; "table: {} leased, {} burnt", count.half, count.full),
        None => println!(rt; "table: none"),
    }
}

/// Prints what the disks of a drill hold: each journal, and the table.
pub fn print_disks(rt: HostRuntime, journals: Vec<MemDisk>, table: MemDisk) -> io::Result<()> {
    let mut number = 1;
    for disk in journals {
        print_journal(rt, disk, number)?;
        number = number.saturating_add(1);
    }
    print_table(rt, table)
}
