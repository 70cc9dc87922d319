//! A disk that a store in memory hands out.

ghost use Rattle.std.specs.Prelude.{◌≡◌, ◌↔◌, ◌≤◌, ℕ, List, length, true};
ghost use Rattle.disk_trait.specs.Faults.{HasCause};
ghost use Rattle.disk_trait.specs.MemDisk.{MayLeave, is_steady};
ghost use Rattle.disk_trait.specs.MemDiskLaws.{leaves_bytes};

use disk_trait::{Disk, DiskFault, Faults, MemDisk, Pages};

/// A disk that a store in memory hands out, or a view. It counts the faults from then on, while its disk in memory
/// keeps the count of its whole life.
#[derive(Drop)]
pub struct StoredDisk {
    pub(crate) disk: MemDisk,
    pub(crate) faults: u64,
}

/// Counts the fault of a call that failed.
pub(crate) fn count<T>(faults: &mut u64, answer: Result<T, DiskFault>) -> Result<T, DiskFault>
    ensures same { result ≡ answer }
    ensures cause { HasCause faults.old faults.new result }
{
    if answer.is_err() {
        *faults = faults.saturating_add(1);
    }
    answer
}

impl StoredDisk {
    /// A disk with no fault.
    pub(crate) fn new(disk: MemDisk) -> StoredDisk
        ensures made { result ≡ record { disk = disk; faults = 0 } }
        ensures has_room { length disk.bytes ≤ disk.capacity }
    {
        prove!(disk.bytes().len() <= disk.capacity());
        StoredDisk { disk, faults: 0 }
    }

    /// The disk in memory, on which a crash may be tried.
    pub fn into_disk(self) -> MemDisk
        ensures bytes { result.bytes ≡ ⟦<StoredDisk as Pages>⟧.reads self }
        ensures capacity { result.capacity ≡ ⟦<StoredDisk as Pages>⟧.room self }
        ensures images { (image : List ℕ) → MayLeave result image ↔ ⟦<StoredDisk as Pages>⟧.may_leave self image }
        ensures steady { is_steady result ≡ ⟦<StoredDisk as Faults>⟧.steady self }
    {
        self.disk
    }
}

impl Faults for StoredDisk {
    ghost count = { λ it. it.faults };

    ghost steady = { λ it. is_steady it.disk };

    fn faults(&self) -> u64 {
        self.faults
    }
}

impl Pages for StoredDisk {
    ghost told = { λ _. true };

    ghost reads = { λ it. it.disk.bytes };

    ghost room = { λ it. it.disk.capacity };

    ghost honest = { λ _. true };

    ghost may_leave = { λ it. MayLeave it.disk };

    fn len(&mut self) -> Result<u64, DiskFault> {
        let answer = self.disk.len();
        count(&mut self.faults, answer)
    }

    fn read_at(&mut self, at: u64, out: &mut [u8]) -> Result<(), DiskFault> {
        let answer = self.disk.read_at(at, out);
        count(&mut self.faults, answer)
    }
}

impl Disk for StoredDisk {
    fn write_at(&mut self, at: u64, bytes: &[u8]) -> Result<(), DiskFault> {
        let answer = self.disk.write_at(at, bytes);
        count(&mut self.faults, answer)
    }

    fn sync(&mut self) -> Result<(), DiskFault> {
        let answer = self.disk.sync();
        count(&mut self.faults, answer)
    }

    ghost leaves_reads = { λ it. leaves_bytes it.disk };

    ghost leaves_no_longer = { λ _ _ _ _ leaves. leaves.no_longer };
}
