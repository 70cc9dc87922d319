//! Disks in memory: what they begin with, which of their calls fail, and what a crash leaves.

ghost use Rattle.std.specs.Prelude.{◌≡◌};

use disk_trait::{Disk, MemDisk};
use slot_file::{Header, PrepareFault, prepare};
use std::alloc::Global;
use std::process::Abort;

/// How many calls of the disk a load of 32 slots makes: one sync, the length, the header, and all slots by one read.
pub(crate) const LOAD_CALLS: u64 = 4;

/// The header of a file of typecodes 5 and 3.
pub(crate) fn header(version: u8, number: u8) -> Header
    ensures version { result.version ≡ version }
    ensures lms { result.lms ≡ 5 }
    ensures ots { result.ots ≡ 3 }
{
    Header {
        version,
        number,
        lms: 5,
        ots: 3,
        id: [0x1D; 16],
    }
}

/// An empty disk with room for a file of `count` slots.
pub(crate) fn empty(rt: &impl Abort, alloc: Global, count: u32) -> MemDisk {
    let room = 128 + 160 * count as usize;
    MemDisk::new(alloc, room, usize::MAX).expect(rt, "memory")
}

/// A disk with these bytes, and with room for no more.
pub(crate) fn holding(rt: &impl Abort, alloc: Global, bytes: &[u8]) -> MemDisk {
    MemDisk::of_bytes(alloc, bytes, bytes.len(), usize::MAX).expect(rt, "memory")
}

/// Makes a file of `count` free slots on an empty disk.
pub(crate) fn make(disk: &mut MemDisk, header: &Header, count: u32) -> Result<(), PrepareFault> {
    prepare(disk, header, count)
}

/// A file of `count` free slots, on a disk that has not been called yet.
pub(crate) fn free_file(rt: &impl Abort, alloc: Global, header: &Header, count: u32) -> MemDisk {
    let mut disk = empty(rt, alloc, count);
    make(&mut disk, header, count).expect(rt, "a file");
    holding(rt, alloc, disk.bytes())
}

/// Like `free_file`, on a disk whose call of this number fails.
pub(crate) fn failing_file(
    rt: &impl Abort,
    alloc: Global,
    header: &Header,
    count: u32,
    call: u64,
) -> MemDisk {
    let mut disk = free_file(rt, alloc, header, count);
    disk.fail_once(call);
    disk
}

/// Like `free_file`, on a disk whose calls fail from this number on.
pub(crate) fn stopping_file(
    rt: &impl Abort,
    alloc: Global,
    header: &Header,
    count: u32,
    call: u64,
) -> MemDisk {
    let mut disk = free_file(rt, alloc, header, count);
    disk.stop_at(call);
    disk
}

/// The disk with a different byte at one place.
pub(crate) fn with_byte(rt: &impl Abort, disk: MemDisk, place: u64, byte: u8) -> MemDisk {
    let mut disk = disk;
    disk.write_at(place, &[byte]).expect(rt, "a byte");
    disk
}

/// What a crash leaves, given this pick.
pub(crate) fn crashed(rt: &impl Abort, alloc: Global, disk: MemDisk, pick: u64) -> MemDisk {
    disk.crash(alloc, pick).ok().expect(rt, "memory")
}
