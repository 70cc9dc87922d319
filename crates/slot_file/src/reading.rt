//! Reading the slots of a file.

ghost use Rattle.std.specs.Prelude.{◌≡◌, ◌≢◌, ◌≤◌, ◌<◌, ◌+◌, ◌^◌, ℕ, length, Err, IsOk, IfOk, IfErr, OnOk};
ghost use Rattle.disk_trait.specs.Faults.{HasCause};
ghost use Rattle.slot_file.specs.Reading.{IsReadRefused, IsRunRefused, LooksOnly, refused_by};
ghost use Rattle.slot_file.specs.State.{IsWhole, slot_in};
ghost use Rattle.disk_trait.specs.Faults.{RisesAt};
ghost use Rattle.slot_file.specs.Disks.{Unwritten};
ghost use Rattle.slot_file.specs.Doubts.{looked, settled};
ghost use Rattle.slot_file.specs.Layout.{IsShown};
ghost use Rattle.slot_file.specs.Runs.{IsRun};
ghost use Rattle.slot_file.specs.Slots.{IsSteady, IsTold, Stays, count_of, disk_of, doubt_of, faults_of, file_of};
ghost use Rattle.slot_file.specs.Slots.{header_of, slot_now};

use crate::faults::CacheLoad;
use crate::slot_list::SlotList;
use crate::{Doubt, LoadFault, MOST_IN_RUN, Slot, Slots};
use disk_trait::{Disk, DiskFault};

/// Why slots are not loaded if their file is refused.
pub(crate) fn refused_by(fault: LoadFault) -> CacheLoad
    ensures { result ≡ refused_by fault }
{
    match fault {
        LoadFault::Device => CacheLoad::Device,
        LoadFault::Length { .. }
        | LoadFault::NotReady { .. }
        | LoadFault::Version { .. }
        | LoadFault::Foreign { .. } => CacheLoad::Slots(fault),
    }
}

/// Refuses the first damaged slot of a run, which begins at slot `first`.
fn check_run(first: u32, run: &[Slot]) -> Result<(), CacheLoad>
    requires { first + length run.now < 2 ^ 32 }
    ensures whole { OnOk result (IsWhole run.now) }
    ensures refused { IfErr result (IsRunRefused first run.now) }
{
    for place in 0..run.len() {
        if let Slot::Damaged { a, b } = run[place] {
            return Err(CacheLoad::Damaged {
                slot: first + place as u32,
                a,
                b,
            });
        }
    }
    Ok(())
}

/// Reads the slots from `first` on with one read, at most 32 of them. The first that is damaged is refused.
fn read_run<D: Disk>(slots: &mut Slots<D>, first: u32, out: &mut [Slot]) -> Result<(), CacheLoad>
    requires within { first + length out.old ≤ count_of slots.old }
    requires few { length out.old ≤ MOST_IN_RUN }
    requires small { first + length out.old < 2 ^ 32 }
    ensures shows { IsTold slots.old
        → OnOk result (IsRun (header_of slots.old).version first (file_of slots.old) out.new) }
    ensures whole { OnOk result (IsWhole out.new) }
    ensures refused { IsTold slots.old → IfErr result
        (IsReadRefused (header_of slots.old).version first (length out.old) (file_of slots.old)) }
    ensures looks { LooksOnly slots.old slots.new }
    ensures succeeds { IsSteady slots.old → IsTold slots.old → result ≢ Err CacheLoad.Device }
    ensures cause { RisesAt (faults_of slots.old) (faults_of slots.new) result (Err CacheLoad.Device) }
{
    match slots.look_run(first, out) {
        Ok(()) => check_run(first, out),
        Err(DiskFault) => Err(CacheLoad::Device),
    }
}

/// Reads all slots, a run of them with each read.
pub(crate) fn read_slots<D: Disk>(slots: &mut Slots<D>, out: &mut SlotList) -> Result<(), CacheLoad>
    requires count { count_of slots.old ≡ length out.old }
    ensures shows { IsTold slots.old
        → OnOk result ((slot : ℕ) → slot < length out.old → slot_now slots.old slot ≡ slot_in out.new slot) }
    ensures whole { OnOk result (IsWhole out.new) }
    ensures refused { IsTold slots.old
        → IfErr result (IsReadRefused (header_of slots.old).version 0 (length out.old) (file_of slots.old)) }
    ensures size { length out.new ≡ length out.old }
    ensures looks { LooksOnly slots.old slots.new }
    ensures succeeds { IsSteady slots.old → IsTold slots.old → result ≢ Err CacheLoad.Device }
    ensures cause { RisesAt (faults_of slots.old) (faults_of slots.new) result (Err CacheLoad.Device) }
{
    let mut run = [Slot::Free; MOST_IN_RUN];
    let count = slots.count() as usize;
    let mut first = 0;
    'runs: while first < count {
        let end = count.min(first + MOST_IN_RUN);
        let part = &mut run[..end - first];
        read_run(slots, first as u32, part)?;
        out.set_run(first, part);
        first = end;
    }
    Ok(())
}

/// Settles the slots, and looks at one.
pub(crate) fn look_settled<D: Disk>(slots: &mut Slots<D>, slot: u32) -> Result<Slot, DiskFault>
    requires { slot < count_of slots.old }
    ensures slot { IsTold slots.old → IfOk result (λ found. found ≡ slot_now slots.old slot) }
    ensures shown { IfOk result (IsShown (header_of slots.old).version) }
    ensures doubt { OnOk result (doubt_of slots.new ≡ looked slot (settled (doubt_of slots.old))) }
    ensures doubt_refused { looked slot (settled (doubt_of slots.old)) ≡ Doubt.Nowhere
        → looked slot (settled (doubt_of slots.new)) ≡ Doubt.Nowhere }
    ensures unwritten { Unwritten D.Pages.own D.Faults (disk_of slots.old) (disk_of slots.new) }
    ensures succeeds { IsSteady slots.old → IsTold slots.old → IsOk result }
    ensures cause { HasCause (faults_of slots.old) (faults_of slots.new) result }
    ensures stays { Stays slots.old slots.new }
{
    slots.settle()?;
    slots.look(slot)
}
