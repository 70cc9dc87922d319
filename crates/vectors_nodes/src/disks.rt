//! Disks in memory with empty files of slots.

use disk_trait::MemDisk;
use slot_file::{Header, prepare};
use std::alloc::Global;

/// How many leaves the keys here have.
const LEAVES: u32 = 32;

/// A disk of `size` bytes with a free slot for each leaf.
pub(crate) fn fresh_disk(alloc: Global, header: &Header, size: usize) -> Option<MemDisk> {
    let mut disk = MemDisk::new(alloc, size, usize::MAX).ok()?;
    prepare(&mut disk, header, LEAVES).ok()?;
    Some(disk)
}
