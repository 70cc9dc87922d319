//! The list.

ghost use Rattle.std.specs.Prelude.{◌≡◌, ◌≢◌, ◌+◌, ◌≤◌, ◌<◌, ◌↔◌, ◌∷◌, [], false, length, IsTrue, IfOk, IfErr};
ghost use Rattle.std.specs.Prelude.{MatchOption, All};
ghost use Rattle.std.specs.List.{AllWithin, Contains, HoldsAt};
ghost use Rattle.std.specs.List.Sorted.{IsPermutation, IsPartitionPoint};
ghost use Rattle.sorted_list.specs.Sorted.{Holds, IsAscending, IsLeastFrom, Takes};

use memory::NoMemory;
use std::alloc::Global;
use std::cmp::Ordering;
use std::marker::Model;

/// Items in ascending order, no two of which are equal. It takes memory only when it is made.
#[derive(Drop)]
pub struct SortedList<T: Ord + Copy> {
    items: Vec<T>,
}

impl<T: Ord + Copy> Model for SortedList<T> {
    ghost use Rattle.std.specs.Prelude.{vec_capacity};
    ghost use Rattle.sorted_list.specs.Sorted.{SortedItems, IsAscending};

    ghost Value = { SortedItems T };

    ghost view = { λ list. record { items = list.items.items; room = vec_capacity list.items } };

    ghost invariant = { λ list. IsAscending T.cmp list.items.items };
}

impl<T: Ord + Copy> SortedList<T> {
    ghost use Rattle.std.specs.Prelude.{vec_capacity};

    /// A list with no item, and with room for `room` items.
    pub fn with_room(alloc: Global, room: usize) -> Result<SortedList<T>, NoMemory>
        ensures empty { IfOk result (λ list. list.items ≡ []) }
        ensures room { IfOk result (λ list. room ≤ list.room) }
    {
        Ok(SortedList {
            items: Vec::with_capacity(alloc, room)?,
        })
    }

    /// The list of these items, of equal ones one, by one sort. It takes no memory.
    pub fn of_items(mut items: Vec<T>) -> SortedList<T>
        ensures among { (item : T) → Contains result.items item → Contains items.items item }
        ensures complete { (item : T) → Contains items.items item → Holds T.cmp result.items item }
        ensures length { length result.items ≤ length items.items }
        ensures room { result.room ≡ vec_capacity items }
    {
        items.sort_unstable();
        items.dedup();
        SortedList { items }
    }

    /// The items, in ascending order.
    pub fn items(&self) -> &[T]
        ensures items { result.now ≡ self.now.items }
        ensures ascending { IsAscending T.cmp result.now }
    {
        self.items.as_slice()
    }

    /// Whether an item is there, by a binary search.
    pub fn holds(&self, item: &T) -> bool
        ensures { IsTrue result ↔ Holds T.cmp self.now.items item.now }
    {
        self.search(item).is_ok()
    }

    /// Adds an item if no equal one is there, and tells whether it did.
    pub fn insert(&mut self, item: T) -> bool
        requires { length self.old.items < self.old.room }
        ensures added { IsTrue result → (Holds T.cmp self.old.items item → ⊥)
            × IsPermutation (item ∷ self.old.items) self.new.items }
        ensures there { result ≡ false → Holds T.cmp self.old.items item × (self.new ≡ self.old) }
        ensures length { length self.new.items ≤ length self.old.items + 1 }
        ensures room { self.new.room ≡ self.old.room }
    {
        match self.search(&item) {
            Ok(_) => false,
            Err(place) => {
                // There is room.
                self.items.insert(place, item).unwrap();
                true
            }
        }
    }

    /// The least item that is not below this one.
    pub fn least_from(&self, low: &T) -> Option<T>
        ensures { MatchOption result (All (λ item. T.cmp item low.now ≡ Ordering.Less) self.now.items)
            (IsLeastFrom T.cmp self.now.items low.now) }
    {
        let place = self.place_from(low);
        if place == self.items.len() {
            return None;
        }
        Some(self.items[place])
    }

    // The place of the first item that is not below this one.
    fn place_from(&self, low: &T) -> usize
        ensures within { result ≤ length self.now.items }
        ensures lower { AllWithin (λ item. T.cmp item low.now ≡ Ordering.Less) self.now.items 0 result }
        ensures reaches { result < length self.now.items
            → HoldsAt (λ item. T.cmp item low.now ≢ Ordering.Less) self.now.items result }
    {
        match self.search(low) {
            Ok(place) => place,
            Err(place) => place,
        }
    }

    /// Takes out the item that is equal to this one, if there is one.
    pub fn remove(&mut self, item: &T)
        ensures absent { (Holds T.cmp self.old.items item.now → ⊥) → self.new ≡ self.old }
        ensures removed { Holds T.cmp self.old.items item.now → Takes T.cmp self.old.items item.now self.new.items }
        ensures length { length self.new.items ≤ length self.old.items }
        ensures room { self.new.room ≡ self.old.room }
    {
        if let Ok(place) = self.search(item) {
            self.items.remove(place);
        }
    }

    // Where an item is, or the place between those below it and those above.
    fn search(&self, item: &T) -> Result<usize, usize>
        ensures ascending { IsAscending T.cmp self.now.items }
        ensures found { IfOk result (λ place. (place < length self.now.items)
            × HoldsAt (λ other. T.cmp other item.now ≡ Ordering.Equal) self.now.items place) }
        ensures absent { IfErr result (λ place. (place ≤ length self.now.items)
            × IsPartitionPoint (λ other. T.cmp other item.now ≡ Ordering.Less)
            (λ other. T.cmp other item.now ≡ Ordering.Greater) self.now.items place) }
    {
        self.items.binary_search(item)
    }
}
