//! The index of a table: the leases that are not burnt, in order, and the least free leaf of each coalition.

ghost use Rattle.std.specs.Prelude.{◌≡◌, ◌^◌, ◌%◌, ◌<◌, ◌≤◌, ℕ, List, length, slice_index_or, true, None, IfOk};
ghost use Rattle.std.specs.Prelude.{IfSome};
ghost use Rattle.coalition_map.specs.Coalitions.{PlanNumbers, count_of as coalition_count};
ghost use Rattle.leaf_table.specs.Entries.{IsFree, IsLeased};
ghost use Rattle.leaf_table.specs.Index.{AreFree, IsFound, IsIndex, IsPassed, Lists, WasIndex};
ghost use Rattle.leaf_table.specs.Slots.{may_become};
ghost use Rattle.slot_file.specs.Cache.{count_of, state_of as cache_state};
ghost use Rattle.slot_file.specs.declared.slot.Slot.{Slot as SlotValue};

use coalition_map::Plan;
use disk_trait::Disk;
use memory::NoMemory;
use slot_file::{CachedSlots, Slot};
use sorted_list::SortedList;
use std::alloc::Global;

/// A lease that is not burnt: its coalition and its message's id, and its leaf.
type Listed = ((u32, [u8; 36]), u32);

/// An index of the slots of a table.
#[derive(Drop)]
pub(crate) struct LeaseIndex {
    /// The leases that are not burnt.
    leases: SortedList<Listed>,
    /// By coalition, its least free leaf.
    free: Vec<Option<u32>>,
}

/// The leases that are not burnt, with room for one of each leaf.
fn leases_of<D: Disk>(
    alloc: Global,
    plan: &Plan,
    slots: &CachedSlots<D>,
) -> Result<SortedList<Listed>, NoMemory>
    requires { count_of slots.now ≡ 2 ^ plan.now.h }
    ensures leases { IfOk result (λ leases. Lists plan.now (cache_state slots.now).slots leases.items) }
    ensures room { IfOk result (λ leases. count_of slots.now ≤ leases.room) }
{
    let count = slots.count();
    let mut leases = Vec::with_capacity(alloc, count as usize)?;
    'leaves: for leaf in 0..count {
        if let Slot::Half(id) = slots.slot(leaf) {
            leases.push_reserved(((plan.coalition_of(leaf), *id), leaf));
        }
    }
    Ok(SortedList::of_items(leases))
}

/// The least free leaf of coalition `c`, by a walk over its leaves above `after`, up to which none is free. A leaf that
/// is taken is never free again, and each walk begins after the leaf where the last one of its coalition ended: so all
/// walks of a table's life in memory look at each leaf at most once.
fn next_free<D: Disk>(
    plan: &Plan,
    slots: &CachedSlots<D>,
    c: u32,
    after: Option<u32>,
) -> Option<u32>
    requires count { count_of slots.now ≡ 2 ^ plan.now.h }
    requires coalition { c < coalition_count plan.now }
    requires passed { IfSome after (IsPassed plan.now (cache_state slots.now).slots c) }
    ensures { IsFound plan.now (cache_state slots.now).slots c IsFree result }
{
    let mut next = plan.next_leaf(c, after);
    'leaves: while let Some(leaf) = next {
        if slots.slot(leaf).is_free() {
            return next;
        }
        next = plan.next_leaf(c, next);
    }
    None
}

/// The least free leaf of each coalition.
fn free_leaves<D: Disk>(
    alloc: Global,
    plan: &Plan,
    slots: &CachedSlots<D>,
) -> Result<Vec<Option<u32>>, NoMemory>
    requires { count_of slots.now ≡ 2 ^ plan.now.h }
    ensures count { IfOk result (λ free. length free.items ≡ coalition_count plan.now) }
    ensures free { IfOk result (λ free.
        AreFree plan.now (cache_state slots.now).slots (coalition_count plan.now) free.items) }
{
    let mut free = vec![in alloc; None; plan.count() as usize]?;
    'coalitions: for c in 0..plan.count() {
        free[c as usize] = next_free(plan, slots, c, None);
    }
    Ok(free)
}

impl LeaseIndex {
    /// The index of a table's slots, with all the memory that it will need.
    pub(crate) fn of_slots<D: Disk>(
        alloc: Global,
        plan: &Plan,
        slots: &CachedSlots<D>,
    ) -> Result<LeaseIndex, NoMemory>
        requires { count_of slots.now ≡ 2 ^ plan.now.h }
        ensures { IfOk result (IsIndex plan.now (cache_state slots.now).slots) }
    {
        let free = free_leaves(alloc, plan, slots)?;
        let leases = leases_of(alloc, plan, slots)?;
        Ok(LeaseIndex { leases, free })
    }

    /// The least leaf of coalition `c` that is leased for this message and not burnt.
    pub(crate) fn leased(&self, c: u32, id: &[u8; 36]) -> Option<u32>
        ensures { (plan : PlanNumbers) (slots : List SlotValue) → length slots ≡ 2 ^ plan.h
            → IsIndex plan slots self.now → IsFound plan slots c (IsLeased id.now) result }
    {
        // They ascend.
        let _leases = self.leases.items();
        match self.leases.least_from(&((c, *id), 0)) {
            Some((key, leaf)) if key == (c, *id) => Some(leaf),
            _ => None,
        }
    }

    /// The least free leaf of coalition `c`.
    pub(crate) fn free(&self, c: u32) -> Option<u32>
        requires { c < length self.now.free.items }
        ensures { result ≡ slice_index_or self.now.free.items c None }
    {
        self.free[c as usize]
    }

    /// The least free leaf of the coalition of this one, which was leased just now. If this was the least, the walk
    /// goes on to the next.
    fn free_after<D: Disk>(&self, plan: &Plan, slots: &CachedSlots<D>, leaf: u32) -> Option<u32>
        requires count { count_of slots.now ≡ 2 ^ plan.now.h }
        requires index { (id : List ℕ)
            × WasIndex plan.now self.now leaf Slot.Free (Slot.Half id) (cache_state slots.now).slots }
        ensures { IsFound plan.now (cache_state slots.now).slots (leaf % coalition_count plan.now) IsFree result }
    {
        let c = plan.coalition_of(leaf);
        let least = self.free(c);
        if least == Some(leaf) {
            return next_free(plan, slots, c, least);
        }
        least
    }

    /// Lists the lease that was made of a free leaf.
    pub(crate) fn list<D: Disk>(
        &mut self,
        plan: &Plan,
        slots: &CachedSlots<D>,
        leaf: u32,
        id: &[u8; 36],
    )
        requires count { count_of slots.now ≡ 2 ^ plan.now.h }
        requires index { WasIndex plan.now self.old leaf Slot.Free (Slot.Half id.now) (cache_state slots.now).slots }
        ensures { IsIndex plan.now (cache_state slots.now).slots self.new }
    {
        let c = plan.coalition_of(leaf);
        let free = self.free_after(plan, slots, leaf);
        self.free[c as usize] = free;
        self.leases.insert(((c, *id), leaf));
    }

    /// Takes out the lease of a leaf that was burnt.
    pub(crate) fn unlist(&mut self, plan: &Plan, leaf: u32, id: &[u8; 36])
        requires { leaf < 2 ^ plan.now.h }
        ensures { (a b : List ℕ) (moment : ℕ) (slots : List SlotValue)
            → WasIndex plan.now self.old leaf (Slot.Half id.now) (Slot.Full a b moment) slots
            → IsIndex plan.now slots self.new }
    {
        // They ascend, so that no lease is there twice.
        let _leases = self.leases.items();
        self.leases.remove(&((plan.coalition_of(leaf), *id), leaf));
    }

    /// Takes in what the slot of a leaf has become.
    pub(crate) fn enter<D: Disk>(
        &mut self,
        plan: &Plan,
        slots: &CachedSlots<D>,
        leaf: u32,
        before: &Slot,
        after: &Slot,
    )
        requires count { count_of slots.now ≡ 2 ^ plan.now.h }
        requires next { may_become before.now after.now ≡ true }
        requires index { WasIndex plan.now self.old leaf before.now after.now (cache_state slots.now).slots }
        ensures { IsIndex plan.now (cache_state slots.now).slots self.new }
    {
        match (before, after) {
            (Slot::Free, Slot::Half(id)) => self.list(plan, slots, leaf, id),
            (Slot::Half(id), Slot::Full(..)) => self.unlist(plan, leaf, id),
            _ => {}
        }
    }
}
