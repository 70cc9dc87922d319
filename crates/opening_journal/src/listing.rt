//! The list of a journal's entries.

ghost use Rattle.std.specs.Prelude.{◌≡◌, ◌≢◌, ◌*◌, ◌+◌, ◌<◌, ◌≤◌, ◌++◌, ℕ, length, false, vec_capacity, IfOk};
ghost use Rattle.lms_bytes.specs.HashLength.{IsHashLength};
ghost use Rattle.opening_journal.specs.Entries.{IsFree, IsLegalList, map_of, state_of_slot};
ghost use Rattle.slot_file.specs.Logs.{room_in};
ghost use Rattle.opening_journal.specs.Inside.{HaveEntries};
ghost use Rattle.opening_journal.specs.Loading.{entries_of, entries_of_slot};
ghost use Rattle.slot_file.specs.Cache.{count_of, state_of as cache_state};
ghost use Rattle.slot_file.specs.State.{IsWhole, slot_in};
ghost use Rattle.slot_file.specs.Copies.{is_damaged};

use crate::bodies::value_at;
use crate::entry::Entry;
use disk_trait::Disk;
use lms_bytes::MessageId;
use memory::NoMemory;
use slot_file::{CachedSlots, Slot};
use std::alloc::Global;

// Adds the entries that the slot of a leaf has. The leaf is free, and the slot is not damaged.
fn add_slot(entries: &mut Vec<Entry>, leaf: u32, slot: &Slot, n: u8)
    requires room { length entries.old.items + 2 ≤ vec_capacity entries.old }
    requires n { IsHashLength n }
    requires whole { is_damaged slot.now ≡ false }
    requires free { map_of entries.old.items leaf ≡ IsFree }
    requires legal { IsLegalList entries.old.items }
    ensures items { entries.new.items ≡ entries.old.items ++ entries_of_slot n leaf slot.now }
    ensures shown { map_of entries.new.items leaf ≡ state_of_slot n slot.now }
    ensures others { (other : ℕ) → other ≢ leaf → map_of entries.new.items other ≡ map_of entries.old.items other }
    ensures legal { IsLegalList entries.new.items }
    ensures room { vec_capacity entries.old ≤ vec_capacity entries.new }
{
    match slot {
        Slot::Free | Slot::Damaged { .. } => {}
        Slot::Half(a) => {
            let message = MessageId::of_bytes(a);
            entries.push_reserved(Entry::Bound { leaf, message });
        }
        Slot::Full(a, b, moment) => {
            let message = MessageId::of_bytes(a);
            entries.push_reserved(Entry::Bound { leaf, message });
            entries.push_reserved(Entry::Opened {
                leaf,
                message,
                c: value_at(b, 0, n),
                digest: value_at(b, 32, n),
                moment: *moment,
            });
        }
    }
}

/// The entries that the slots have, leaf by leaf, with room for all that may still be made.
pub(crate) fn entries_of<D: Disk>(
    alloc: Global,
    slots: &CachedSlots<D>,
    n: u8,
) -> Result<Vec<Entry>, NoMemory>
    requires n { IsHashLength n }
    requires whole { IsWhole (cache_state slots.now).slots }
    ensures items { IfOk result (λ entries.
        entries.items ≡ entries_of n (count_of slots.now) (slot_in (cache_state slots.now).slots)) }
    ensures have { IfOk result (λ entries. HaveEntries n (cache_state slots.now).slots entries.items) }
    ensures legal { IfOk result (λ entries. IsLegalList entries.items) }
    ensures room { IfOk result (λ entries.
        length entries.items + room_in (cache_state slots.now).slots ≤ vec_capacity entries) }
{
    let count = slots.count();
    let mut entries = Vec::with_capacity(alloc, 2 * count as usize)?;
    for leaf in 0..count {
        add_slot(&mut entries, leaf, slots.slot(leaf), n);
    }
    Ok(entries)
}
