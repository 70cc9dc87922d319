//! What a journal does on its slots.

ghost use Rattle.std.specs.Prelude.{◌≡◌, ◌<◌, IsOk, None};
ghost use Rattle.disk_trait.specs.Faults.{HasCause};
ghost use Rattle.opening_journal.specs.Entries.{leaf_of};
ghost use Rattle.opening_journal.specs.EntrySlots.{slot_before, slot_with};
ghost use Rattle.slot_file.specs.Cache.{IsSteady, IsTold, Stays, count_of, faults_of, header_of, state_of};
ghost use Rattle.slot_file.specs.Calls.{Puts};
ghost use Rattle.slot_file.specs.State.{slot_in};

use crate::bodies::pair_bytes;
use crate::entry::Entry;
use disk_trait::{Disk, DiskFault};
use slot_file::CachedSlots;

/// Puts an entry into its slot, if no put is in doubt.
pub(crate) fn put_entry<D: Disk>(slots: &mut CachedSlots<D>, entry: &Entry) -> Result<(), DiskFault>
    requires version { (header_of slots.old).version ≡ 2 }
    requires within { leaf_of entry.now < count_of slots.old }
    requires settled { (state_of slots.old).doubt ≡ None }
    requires before { slot_in (state_of slots.old).slots (leaf_of entry.now) ≡ slot_before entry.now }
    ensures event { Puts (state_of slots.old) (leaf_of entry.now) (slot_with entry.now) result (state_of slots.new) }
    ensures succeeds { IsSteady slots.old → IsTold slots.old → IsOk result }
    ensures cause { HasCause (faults_of slots.old) (faults_of slots.new) result }
    ensures stays { Stays slots.old slots.new }
{
    match entry {
        Entry::Bound { leaf, message } => slots.put_a(*leaf, &message.to_bytes()),
        Entry::Opened {
            leaf,
            c,
            digest,
            moment,
            ..
        } => slots.put_b(*leaf, &pair_bytes(c, digest), *moment),
    }
}
