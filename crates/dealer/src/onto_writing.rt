//! The writing of a reference onto a disk, part by part, behind a shut gate.

ghost use Rattle.std.specs.Prelude.{◌≡◌, ◌+◌, ◌*◌, ◌^◌, ◌<◌, ◌≤◌, ◌++◌, ℕ, [], false, length, IsOk, IsTrue};
ghost use Rattle.std.specs.Prelude.{OnErr, OnOk};
ghost use Rattle.disk_trait.specs.Faults.{HasCause};
ghost use Rattle.disk_trait.specs.Gate.{AreUnready, StaysShut};
ghost use Rattle.disk_trait.specs.SameDisk.{SameDisk};
ghost use Rattle.mask_prf.specs.Lengths.{leaf_length, leaves_length};
ghost use Rattle.reference_value.specs.Dealing.{reference};
ghost use Rattle.dealer.specs.Material.{are_asked, dealing_with};
ghost use Rattle.dealer.specs.Onto.{BeginsWith, IsWritten, Stops, StopsBehind, part_length, shut_head, told_all};
ghost use Rattle.dealer.specs.Runs.{joined_keys, run_keys, run_leaves};

use crate::beside::write_beside;
use crate::material::KeyMaterial;
use crate::onto_room::part_count;
use crate::runs::{Run, thread_count};
use disk_trait::{Disk, DiskFault, append, write_shut};
use reference_value::leaf_bytes;
use share_files::{HEAD, RefHeader, write_ref_head};
use std::thread::Threads;
use stream_io::Progress;

/// Writes the reference onto an empty disk, with its gate shut, and syncs. The leaves are built in the room of one
/// part, and `keys` gets their public values, `n` bytes each.
pub(crate) fn write_reference<R: Threads + Sync, P: Progress, D: Disk>(
    rt: &R,
    progress: &mut P,
    material: &KeyMaterial,
    leaves: &mut [u8],
    keys: &mut [u8],
    disk: &mut D,
) -> Result<(), DiskFault>
    requires alone { are_asked material.now ≡ false }
    requires leaves_room { length leaves.old ≡ part_length material.now.params material.now.plan }
    requires keys_room { length keys.old ≡ material.now.params.n * 2 ^ material.now.params.h }
    requires empty { IsTrue (D.told disk.old) → D.reads disk.old ≡ [] }
    ensures keys { OnOk result (keys.new ≡ joined_keys (dealing_with material.now)) }
    ensures written { OnOk result (IsWritten D.Pages.own P.told (dealing_with material.now)
        disk.old disk.new progress.old progress.new) }
    ensures stops { OnErr result (Stops D.Pages.own P.told (dealing_with material.now)
        disk.old disk.new progress.old progress.new) }
    ensures unready { AreUnready D.Pages.own 0x54 32 disk.old disk.new }

    ensures succeeds { IsTrue (D.steady disk.old) → IsTrue (D.told disk.old)
        → 32 + leaves_length material.now.params material.now.plan ≤ D.room disk.old → IsOk result }
    ensures cause { HasCause (D.count disk.old) (D.count disk.new) result }
    ensures stays { SameDisk D.Pages.own D.Faults disk.old disk.new }
{
    write_shut(disk, &head_of_reference(material))?;
    write_leaves_onto(rt, progress, material, leaves, keys, disk)?;
    disk.sync()
}

/// The head of the reference, with its gate shut.
fn head_of_reference(material: &KeyMaterial) -> [u8; HEAD]
    ensures { result ≡ shut_head (dealing_with material.now) }
{
    let header = RefHeader {
        params: material.params,
        plan: material.plan,
        id: material.id,
    };
    let mut head = [0; HEAD];
    write_ref_head(&header, &mut head);
    head[0] = 0;
    head
}

/// Writes all leaves behind the head, part by part, each built by all threads, and tells after each how many are
/// written.
fn write_leaves_onto<R: Threads + Sync, P: Progress, D: Disk>(
    rt: &R,
    progress: &mut P,
    material: &KeyMaterial,
    leaves: &mut [u8],
    keys: &mut [u8],
    disk: &mut D,
) -> Result<(), DiskFault>
    requires alone { are_asked material.now ≡ false }
    requires leaves_room { length leaves.old ≡ part_length material.now.params material.now.plan }
    requires keys_room { length keys.old ≡ material.now.params.n * 2 ^ material.now.params.h }
    requires head { IsTrue (D.told disk.old) → length (D.reads disk.old) ≡ 32 }
    ensures keys { OnOk result (keys.new ≡ joined_keys (dealing_with material.now)) }
    ensures bytes { IsTrue (D.told disk.old)
        → OnOk result (D.reads disk.new ≡ D.reads disk.old ++ reference (dealing_with material.now)) }
    ensures told { OnOk result (progress.new ≡ told_all P.told material.now.params progress.old) }
    ensures stops { OnErr result ((k : ℕ) × StopsBehind D.Pages.own P.told (dealing_with material.now)
        (D.reads disk.old) k disk.old disk.new progress.old progress.new) }
    ensures shut { StaysShut D.Pages.own disk.old disk.new }

    ensures succeeds { IsTrue (D.steady disk.old) → IsTrue (D.told disk.old)
        → 32 + leaves_length material.now.params material.now.plan ≤ D.room disk.old → IsOk result }
    ensures cause { HasCause (D.count disk.old) (D.count disk.new) result }
    ensures stays { SameDisk D.Pages.own D.Faults disk.old disk.new }
{
    let (all, threads) = (material.params.leaves(), thread_count(rt));
    let count = part_count(&material.params);
    let width = material.params.n as usize * count as usize;
    'parts: for i in 0..all / count {
        let front = width * i as usize;
        let values = &mut keys[front..front + width];
        let first = i * count;
        let run = Run { first, count };
        write_part(rt, material, run, threads, leaves, values, disk)?;
        progress.built(first + count, all);
    }
    Ok(())
}

/// Builds the leaves of a run, by at most `threads` threads, and writes them behind the leaves before them.
fn write_part<R: Threads + Sync, D: Disk>(
    rt: &R,
    material: &KeyMaterial,
    run: Run,
    threads: usize,
    leaves: &mut [u8],
    keys: &mut [u8],
    disk: &mut D,
) -> Result<(), DiskFault>
    requires alone { are_asked material.now ≡ false }
    requires within { run.first + run.count ≤ 2 ^ material.now.params.h }
    requires leaves_room { length leaves.old
        ≡ leaf_length material.now.params material.now.plan.k * run.count }
    requires keys_room { length keys.old ≡ material.now.params.n * run.count }
    requires end { IsTrue (D.told disk.old) → length (D.reads disk.old)
        ≡ 32 + leaf_length material.now.params material.now.plan.k * run.first }
    ensures keys { keys.new ≡ run_keys (dealing_with material.now) run }
    ensures bytes { IsTrue (D.told disk.old)
        → OnOk result (D.reads disk.new ≡ D.reads disk.old ++ run_leaves (dealing_with material.now) run) }
    ensures more { IsTrue (D.told disk.old) → BeginsWith (D.reads disk.old)
        (leaf_length material.now.params material.now.plan.k * run.count) (D.reads disk.new) }
    ensures shut { StaysShut D.Pages.own disk.old disk.new }

    ensures succeeds { IsTrue (D.steady disk.old) → IsTrue (D.told disk.old)
        → 32 + leaf_length material.now.params material.now.plan.k * (run.first + run.count) ≤ D.room disk.old
        → IsOk result }
    ensures cause { HasCause (D.count disk.old) (D.count disk.new) result }
    ensures stays { SameDisk D.Pages.own D.Faults disk.old disk.new }
{
    write_beside(rt, material, run, threads, leaves, &mut [], keys);
    let place = HEAD + leaf_bytes(&material.params, material.plan.k()) * run.first as usize;
    append(disk, place as u64, leaves)
}
