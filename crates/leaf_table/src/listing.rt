//! The list of a table's entries.

ghost use Rattle.std.specs.Prelude.{◌≡◌, ◌≢◌, ◌+◌, ◌<◌, ◌≤◌, ◌++◌, ℕ, length, false, vec_capacity, IfOk};
ghost use Rattle.leaf_table.specs.Entries.{IsFree, OneLease, map_of};
ghost use Rattle.leaf_table.specs.Loading.{entries_of};
ghost use Rattle.leaf_table.specs.Slots.{entries_of_slot, use_of_slot};
ghost use Rattle.slot_file.specs.Logs.{room_in};
ghost use Rattle.slot_file.specs.Cache.{count_of, state_of as cache_state};
ghost use Rattle.slot_file.specs.State.{IsWhole, slot_in};
ghost use Rattle.slot_file.specs.Copies.{is_damaged};

use crate::lease::Lease;
use disk_trait::Disk;
use lms_bytes::MessageId;
use memory::NoMemory;
use slot_file::{CachedSlots, Slot};
use std::alloc::Global;

/// Adds the entries that the slot of a leaf has. The leaf is free, and the slot is not damaged.
fn add_slot(entries: &mut Vec<Lease>, leaf: u32, slot: &Slot)
    requires room { length entries.old.items + 2 ≤ vec_capacity entries.old }
    requires whole { is_damaged slot.now ≡ false }
    requires free { map_of entries.old.items leaf ≡ IsFree }
    requires legal { OneLease entries.old.items }
    ensures items { entries.new.items ≡ entries.old.items ++ entries_of_slot leaf slot.now }
    ensures shown { map_of entries.new.items leaf ≡ use_of_slot slot.now }
    ensures others { (other : ℕ) → other ≢ leaf → map_of entries.new.items other ≡ map_of entries.old.items other }
    ensures legal { OneLease entries.new.items }
    ensures room { vec_capacity entries.old ≤ vec_capacity entries.new }
{
    match slot {
        Slot::Free | Slot::Damaged { .. } => {}
        Slot::Half(a) => {
            let message = MessageId::of_bytes(a);
            entries.push_reserved(Lease::Leased { leaf, message });
        }
        Slot::Full(a, ..) => {
            let message = MessageId::of_bytes(a);
            entries.push_reserved(Lease::Leased { leaf, message });
            entries.push_reserved(Lease::Burnt { leaf });
        }
    }
}

/// The entries that the slots have, leaf by leaf, with room for all that may still be made.
pub(crate) fn entries_of<D: Disk>(
    alloc: Global,
    slots: &CachedSlots<D>,
) -> Result<Vec<Lease>, NoMemory>
    requires { IsWhole (cache_state slots.now).slots }
    ensures items { IfOk result (λ entries.
        entries.items ≡ entries_of (count_of slots.now) (slot_in (cache_state slots.now).slots)) }
    ensures have { IfOk result (λ entries. (leaf : ℕ) → leaf < count_of slots.now
        → use_of_slot (slot_in (cache_state slots.now).slots leaf) ≡ map_of entries.items leaf) }
    ensures legal { IfOk result (λ entries. OneLease entries.items) }
    ensures room { IfOk result (λ entries.
        length entries.items + room_in (cache_state slots.now).slots ≤ vec_capacity entries) }
{
    let count = slots.count();
    let mut entries = Vec::with_capacity(alloc, 2 * count as usize)?;
    'leaves: for leaf in 0..count {
        add_slot(&mut entries, leaf, slots.slot(leaf));
    }
    Ok(entries)
}
