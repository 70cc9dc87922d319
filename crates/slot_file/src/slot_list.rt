//! The slots of a file in memory.

ghost use Rattle.std.specs.Prelude.{◌≡◌, ◌<◌, ◌+◌, ◌≤◌, ◌^◌, ℕ, IfOk, length, replicate, slice_set};
ghost use Rattle.slot_file.specs.Lists.{IsFront};
ghost use Rattle.slot_file.specs.State.{slot_in};

use crate::Slot;
use memory::NoMemory;
use std::alloc::Global;
use std::marker::Model;

/// A slot behind the front of a list.
static FREE: Slot = Slot::Free;

/// A number of slots. Those behind the front are free, and nothing is written to memory for them.
#[derive(Drop)]
pub(crate) struct SlotList {
    /// Slots from the first on, with room for all.
    front: Vec<Slot>,
    /// How many slots there are.
    count: usize,
}

impl Model for SlotList {
    ghost use Rattle.std.specs.Prelude.{◌≤◌, List, length, vec_capacity};
    ghost use Rattle.slot_file.specs.Lists.{filled};
    ghost use Rattle.slot_file.specs.declared.slot.Slot.{Slot as SlotValue};

    ghost Value = { List SlotValue };

    ghost view = { λ list. filled list.count list.front.items };

    ghost invariant = { λ list. (length list.front.items ≤ list.count) × (list.count ≤ vec_capacity list.front) };
}

impl SlotList {
    /// `count` free slots.
    pub(crate) fn free(alloc: Global, count: u32) -> Result<SlotList, NoMemory>
        ensures { IfOk result (λ list. list ≡ replicate count Slot.Free) }
    {
        let count = count as usize;
        let front = Vec::with_capacity(alloc, count)?;
        Ok(SlotList { front, count })
    }

    /// A slot.
    pub(crate) fn slot(&self, slot: usize) -> &Slot
        ensures { result.now ≡ slot_in self.now slot }
    {
        match self.front.get(slot) {
            Some(slot) => slot,
            None => &FREE,
        }
    }

    /// Slots from the first on. Those behind them are free.
    pub(crate) fn front(&self) -> &[Slot]
        ensures { IsFront self.now result.now }
    {
        self.front.as_slice()
    }

    /// Puts a value into a slot.
    pub(crate) fn set(&mut self, slot: usize, value: Slot)
        requires { slot < length self.old }
        ensures { self.new ≡ slice_set self.old slot value }
    {
        if slot >= self.front.len() {
            if value.is_free() {
                return;
            }
            // There is room for all.
            self.front.resize(slot + 1, Slot::Free).unwrap();
        }
        self.front[slot] = value;
    }

    /// Puts values into the slots from `first` on.
    pub(crate) fn set_run(&mut self, first: usize, run: &[Slot])
        requires within { first + length run.now ≤ length self.old }
        requires small { length self.old < 2 ^ 32 }
        ensures before { (slot : ℕ) → slot < first → slot_in self.new slot ≡ slot_in self.old slot }
        ensures run { (place : ℕ) → place < length run.now
            → slot_in self.new (first + place) ≡ slot_in run.now place }
        ensures count { length self.new ≡ length self.old }
    {
        'places: for place in 0..run.len() {
            self.set(first + place, run[place]);
        }
    }
}
