//! A disk that stops.

ghost use Rattle.std.specs.Prelude.{◌≡◌, ◌↔◌, ◌+◌, ◌≤◌, ℕ, List, false, length, take, drop, IsTrue, IfOk, OnOk, OnErr};
ghost use Rattle.disk_trait.specs.Disks.{SameKind};
ghost use Rattle.disk_trait.specs.Faults.{HasCause};
ghost use Rattle.disk_trait.specs.Images.{written, Torn, Follows, Only};
ghost use Rattle.disk_trait.specs.Rooms.{room_from};

use crate::{Disk, DiskFault, Faults, Pages};
use std::snapshot::Snapshot;

/// A disk that makes a number of calls of the disk under it, and then fails each call and changes nothing. Until it
/// stops, whoever calls it cannot tell it from the disk under it. It is honest where that one is, and once it has
/// stopped, a crash leaves what it may leave of that disk as it then is. So what a contract says of the images of each
/// honest disk, at the end of a call, holds of a crash at each of the calls of the disk that were made by then.
#[derive(Drop)]
pub struct Stopped<D: Disk> {
    disk: D,
    began: Snapshot<D>,
    left: u64,
    faults: u64,
    ghost within: { IsTrue (D.told disk) → length (D.reads disk) ≤ room_from (length (D.reads began.value)) },
}

impl<D: Disk> Stopped<D> {
    ghost use Rattle.disk_trait.specs.Stopped.{disk_of, calls_left};

    /// A disk that makes this many calls of `disk`, and stops.
    pub fn after(disk: D, calls: u64) -> Stopped<D>
        ensures disk { disk_of result ≡ disk }
        ensures calls { calls_left result ≡ calls }
    {
        Stopped {
            began: Snapshot::of(&disk),
            disk,
            left: calls,
            faults: 0,
        }
    }

    /// The disk under it.
    pub fn into_disk(self) -> D
        ensures { result ≡ disk_of self }
    {
        self.disk
    }
}

/// Takes one of the calls that are left, if there is one.
fn take_call(left: &mut u64) -> Result<(), DiskFault>
    ensures taken { OnOk result (left.new + 1 ≡ left.old) }
    ensures none { OnErr result ((left.old ≡ 0) × (left.new ≡ 0)) }
{
    if *left == 0 {
        return Err(DiskFault);
    }
    *left -= 1;
    Ok(())
}

/// Counts the fault of a call that failed.
fn counted<T>(faults: &mut u64, answer: Result<T, DiskFault>) -> Result<T, DiskFault>
    ensures same { result ≡ answer }
    ensures cause { HasCause faults.old faults.new result }
{
    if answer.is_err() {
        *faults = faults.saturating_add(1);
    }
    answer
}

impl<D: Disk> Faults for Stopped<D> {
    ghost count = { λ stopped. stopped.faults };

    ghost steady = { λ _. false };

    fn faults(&self) -> u64 {
        self.faults
    }
}

impl<D: Disk> Pages for Stopped<D> {
    ghost use Rattle.disk_trait.specs.Stopped.{Goes, disk_of};

    ghost told = { λ stopped. D.told stopped.disk };

    ghost reads = { λ stopped. D.reads stopped.disk };

    ghost room = { λ stopped. room_from (length (D.reads stopped.began.value)) };

    ghost honest = { λ stopped. D.honest stopped.disk };

    ghost may_leave = { λ stopped. D.may_leave stopped.disk };

    fn len(&mut self) -> Result<u64, DiskFault>
        ensures length { IsTrue (D.told (disk_of self.old))
            → IfOk result (λ n. n ≡ length (D.reads (disk_of self.old))) }
        ensures same { IsTrue (D.told (disk_of self.old))
            → D.reads (disk_of self.new) ≡ D.reads (disk_of self.old) }
        ensures images { IsTrue (D.honest (disk_of self.old)) → (image : List ℕ)
            → D.may_leave (disk_of self.new) image ↔ D.may_leave (disk_of self.old) image }
        ensures cause { HasCause self.old.faults self.new.faults result }
        ensures goes { Goes self.old self.new result }
    {
        let answer = match take_call(&mut self.left) {
            Ok(()) => self.disk.len(),
            Err(fault) => Err(fault),
        };
        counted(&mut self.faults, answer)
    }

    fn read_at(&mut self, at: u64, out: &mut [u8]) -> Result<(), DiskFault>
        ensures bytes { IsTrue (D.told (disk_of self.old))
            → OnOk result (out.new ≡ take (length out.old) (drop at (D.reads (disk_of self.old)))) }
        ensures within { IsTrue (D.told (disk_of self.old))
            → OnOk result (at + length out.old ≤ length (D.reads (disk_of self.old))) }
        ensures same { IsTrue (D.told (disk_of self.old))
            → D.reads (disk_of self.new) ≡ D.reads (disk_of self.old) }
        ensures images { IsTrue (D.honest (disk_of self.old)) → (image : List ℕ)
            → D.may_leave (disk_of self.new) image ↔ D.may_leave (disk_of self.old) image }
        ensures cause { HasCause self.old.faults self.new.faults result }
        ensures goes { Goes self.old self.new result }
    {
        let answer = match take_call(&mut self.left) {
            Ok(()) => self.disk.read_at(at, out),
            Err(fault) => Err(fault),
        };
        counted(&mut self.faults, answer)
    }
}

impl<D: Disk> Stopped<D> {
    ghost use Rattle.disk_trait.specs.Stopped.{Goes, disk_of};

    /// Writes, unless it has stopped.
    fn write_next(&mut self, at: u64, bytes: &[u8]) -> Result<(), DiskFault>
        ensures bytes { IsTrue (D.told (disk_of self.old))
            → OnOk result (D.reads (disk_of self.new) ≡ written (D.reads (disk_of self.old)) at bytes.now) }
        ensures torn { IsTrue (D.told (disk_of self.old))
            → OnErr result (Torn at (length bytes.now) (D.reads (disk_of self.old)) (D.reads (disk_of self.new))) }
        ensures images { IsTrue (D.honest (disk_of self.old)) → Follows (Torn at (length bytes.now))
            (D.may_leave (disk_of self.old)) (D.may_leave (disk_of self.new)) }
        ensures within { IsTrue (D.told (disk_of self.old))
            → OnOk result (at ≤ length (D.reads (disk_of self.old))) }
        ensures faults { self.new.faults ≡ self.old.faults }
        ensures goes { Goes self.old self.new result }
    {
        take_call(&mut self.left)?;
        self.disk.write_at(at, bytes)
    }
}

impl<D: Disk> Disk for Stopped<D> {
    ghost use Rattle.disk_trait.specs.Stopped.{Goes, disk_of};

    fn write_at(&mut self, at: u64, bytes: &[u8]) -> Result<(), DiskFault>
        ensures bytes { IsTrue (D.told (disk_of self.old))
            → OnOk result (D.reads (disk_of self.new) ≡ written (D.reads (disk_of self.old)) at bytes.now) }
        ensures torn { IsTrue (D.told (disk_of self.old))
            → OnErr result (Torn at (length bytes.now) (D.reads (disk_of self.old)) (D.reads (disk_of self.new))) }
        ensures images { IsTrue (D.honest (disk_of self.old)) → Follows (Torn at (length bytes.now))
            (D.may_leave (disk_of self.old)) (D.may_leave (disk_of self.new)) }
        ensures within { IsTrue (D.told (disk_of self.old))
            → OnOk result (at ≤ length (D.reads (disk_of self.old))) }
        ensures fits { at + length bytes.now ≤ room_from (length (D.reads self.old.began.value)) }
        ensures cause { HasCause self.old.faults self.new.faults result }
        ensures goes { Goes self.old self.new result }
    {
        let answer = self.write_next(at, bytes);
        counted(&mut self.faults, answer)
    }

    fn sync(&mut self) -> Result<(), DiskFault>
        ensures stable { IsTrue (D.honest (disk_of self.old)) → IsTrue (D.told (disk_of self.old))
            → OnOk result (Only (D.reads (disk_of self.old)) (D.may_leave (disk_of self.new))) }
        ensures images { IsTrue (D.honest (disk_of self.old)) → (image : List ℕ)
            → D.may_leave (disk_of self.new) image → D.may_leave (disk_of self.old) image }
        ensures same { IsTrue (D.told (disk_of self.old))
            → D.reads (disk_of self.new) ≡ D.reads (disk_of self.old) }
        ensures has_room { IsTrue (D.told (disk_of self.old))
            → length (D.reads (disk_of self.old)) ≤ room_from (length (D.reads self.old.began.value)) }
        ensures cause { HasCause self.old.faults self.new.faults result }
        ensures goes { Goes self.old self.new result }
    {
        let answer = match take_call(&mut self.left) {
            Ok(()) => self.disk.sync(),
            Err(fault) => Err(fault),
        };
        counted(&mut self.faults, answer)
    }

    ghost leaves_reads = { λ stopped. D.leaves_reads stopped.disk };

    ghost leaves_no_longer = { λ stopped. D.leaves_no_longer stopped.disk };
}
