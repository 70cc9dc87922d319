//! The slots of an old journal, copied into a new one.

ghost use Rattle.std.specs.Prelude.{◌≡◌, None, IsTrue};
ghost use Rattle.slot_file.specs.Layout.{load_fault};
ghost use Rattle.slot_file.specs.Disks.{Unwritten};
ghost use Rattle.slot_file.specs.Slots.{IsSteady, IsTold, OnlyLooked, count_of, faults_of, file_of};
ghost use Rattle.slot_file.specs.Slots.{header_of as slots_header};
ghost use Rattle.tool_base.specs.Disks.{OneFails};
ghost use Rattle.tool_base.specs.Endings.{ending};
ghost use Rattle.tool_base.specs.Outputs.{IsNew};
ghost use Rattle.tool_base.specs.Touched.{EndsTouching};
ghost use Rattle.tool_base.specs.World.{from_to};
ghost use Rattle.tool_journals.specs.Migrate.{CopyEnds, old_header, slot_count};

use crate::blank::file_length;
use crate::faults::{end_of_copy, end_of_load};
use disk_trait::Disk;
use share_files::Share;
use slot_file::{Slots, copy_slots};
use std::alloc::Global;
use stream_io::{Readers, Store};
use tool_base::{Ending, end_of_new, header_of};

/// Opens the disk of the old journal and copies its slots into the new one.
pub(crate) fn copy_disk<S: Store, D: Disk>(
    alloc: Global,
    store: &mut S,
    disk: D,
    share: &Share,
    new: &str,
) -> (D, Ending)
    requires told { IsTrue (S.state store.old).told → IsTrue (D.told disk) }
    requires steady { IsTrue (S.state store.old).steady → IsTrue (D.steady disk) }
    requires new { IsNew (from_to (S.state store.old) (S.state store.old)) new.now }
    ensures ended { let run = from_to (S.state store.old) (S.state store.new) in
        EndsTouching (CopyEnds (OneFails run.before run.after (D.count disk) (D.count result.0)) run share.now new.now
        (D.reads disk)) run (ending result.1) }
    ensures unwritten { Unwritten D.Pages.own D.Faults disk result.0 }
{
    match Slots::load(disk, &header_of(share, 1), share.params.leaves()) {
        Ok(mut slots) => {
            let end = copy_journal(alloc, store, &mut slots, share, new);
            (slots.end(), end)
        }
        Err((disk, fault)) => (disk, end_of_load(fault)),
    }
}

/// Copies the slots of the old journal into the new one.
fn copy_journal<S: Store, D: Disk>(
    alloc: Global,
    store: &mut S,
    slots: &mut Slots<D>,
    share: &Share,
    new: &str,
) -> Ending
    requires told { IsTrue (S.state store.old).told → IsTold slots.old }
    requires steady { IsTrue (S.state store.old).steady → IsSteady slots.old }
    requires new { IsNew (from_to (S.state store.old) (S.state store.old)) new.now }
    requires header { slots_header slots.old ≡ old_header share.now }
    requires count { count_of slots.old ≡ slot_count share.now }
    requires opens { IsTrue (S.state store.old).told
        → load_fault (old_header share.now) (slot_count share.now) (file_of slots.old) ≡ None }
    ensures ended { let run = from_to (S.state store.old) (S.state store.new) in
        EndsTouching (CopyEnds (OneFails run.before run.after (faults_of slots.old) (faults_of slots.new)) run
        share.now new.now (file_of slots.old)) run (ending result) }
    ensures looked { OnlyLooked slots.old slots.new }
{
    let count = share.params.leaves();
    let mut disk = match store.new_disk(alloc, new, file_length(2, count), Readers::OwnerAlone) {
        Ok(disk) => disk,
        Err(fault) => return end_of_new(alloc, new, fault),
    };
    let copied = copy_slots(&mut disk, &header_of(share, 2), count, slots);
    store.return_disk(new, disk);
    match copied {
        Ok(slots) => Ending::Migrated { slots },
        Err(fault) => end_of_copy(fault),
    }
}
