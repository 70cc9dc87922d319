//! Slots that are neither as before an entry nor as after it.

ghost use Rattle.std.specs.Prelude.{[], false};
ghost use Rattle.std.proofs.lemmas.Bool.{false≢true};

use super::{ONE, TWO, burns, leases, small};
use crate::disks::{LOAD_CALLS, failing_file, header};
use disk_trait::{Disk, DiskFault, Faults, Pages};
use leaf_table::{Table, TableFault};
use std::alloc::Global;
use std::process::Abort;

/// A disk about which nothing is known: once a call has failed, it shows a different byte at one place.
#[derive(Drop)]
struct Rotten<D: Disk> {
    disk: D,
    place: u64,
    byte: u8,
}

impl<D: Disk> Faults for Rotten<D> {
    ghost count = { λ r. D.count r.disk };

    ghost steady = { λ _. false };

    fn faults(&self) -> u64 {
        self.disk.faults()
    }
}

impl<D: Disk> Pages for Rotten<D> {
    ghost told = { λ _. false };

    ghost reads = { λ _. [] };

    fn len(&mut self) -> Result<u64, DiskFault> {
        self.disk.len()
    }

    fn read_at(&mut self, at: u64, out: &mut [u8]) -> Result<(), DiskFault> {
        let read = self.disk.read_at(at, out);
        let seen = self.place.wrapping_sub(at) as usize;
        if self.disk.faults() > 0 && seen < out.len() {
            out[seen] = self.byte;
        }
        read
    }
}

impl<D: Disk> Disk for Rotten<D> {
    fn write_at(&mut self, at: u64, bytes: &[u8]) -> Result<(), DiskFault> {
        self.disk.write_at(at, bytes)
    }

    fn sync(&mut self) -> Result<(), DiskFault> {
        self.disk.sync()
    }

    ghost leaves_reads = { λ _ honest _. absurd (false≢true honest) };

    ghost leaves_no_longer = { λ _ _ honest _ _. absurd (false≢true honest) };
}

/// Whether burning leaf 1 fails, and each later call tells the two gates of the leaf.
fn tells<D: Disk>(table: &mut Table<D>, gates: (u8, u8)) -> bool {
    let (leaf, a, b) = (1, gates.0, gates.1);
    let fails = burns(table, 3, Err(TableFault::Device));
    let two = leases(table, &TWO, Err(TableFault::Damaged { leaf, a, b }));
    fails & two & leases(table, &ONE, Err(TableFault::Damaged { leaf, a, b }))
}

/// Whether the table of a disk tells them.
fn tells_on<D: Disk + Drop>(rt: &impl Abort, alloc: Global, disk: D, gates: (u8, u8)) -> bool {
    tells(&mut small(rt, alloc, disk), gates)
}

/// Leases leaf 1 and burns it, until a call fails. From then on the byte at one place is a different one. Whether each
/// later call tells the two gates of the leaf.
fn is_told(
    rt: &impl Abort,
    alloc: Global,
    call: u64,
    place: u64,
    byte: u8,
    gates: (u8, u8),
) -> bool {
    let disk = failing_file(
        rt,
        alloc,
        &header(1, 0),
        32,
        LOAD_CALLS.saturating_add(call),
    );
    tells_on(rt, alloc, Rotten { disk, place, byte }, gates)
}

// Slot 1 begins at 256: gate A, body A at 260, gate B at 296.
#[test]
fn a_damaged_slot_is_told(rt: HostRuntime) {
    // Gate B is open before the lease is made: torn.
    let torn = is_told(&rt, rt.alloc(), 0, 296, 0xC2, (0, 0xC2));
    // The lease is for another message.
    let foreign = is_told(&rt, rt.alloc(), 3, 260, 0x77, (0xB1, 0));
    // The leaf is free when it should be burnt.
    let free = is_told(&rt, rt.alloc(), 4, 256, 0, (0, 0));
    // It is burnt by another member.
    let burnt = is_told(&rt, rt.alloc(), 7, 336, 0x77, (0xB1, 0xC2));
    assert!(rt; torn & foreign & free & burnt);
}
