//! Sorted lists: items that are taken in, found and taken out.

ghost use Rattle.std.specs.Prelude.{◌≡◌, ◌≤◌, []};

use sorted_list::SortedList;
use std::alloc::Global;

/// Takes three items into an empty list, the greatest first.
fn take_in<T: Ord + Copy>(list: &mut SortedList<T>, items: &[T; 3])
    requires empty { list.old.items ≡ [] }
    requires room { 4 ≤ list.old.room }
{
    list.insert(items[2]);
    list.insert(items[0]);
    list.insert(items[1]);
}

/// A list with room for four items into which three were taken, the greatest first.
fn list_of<T: Ord + Copy>(alloc: Global, items: &[T; 3]) -> Option<SortedList<T>> {
    let mut list = SortedList::with_room(alloc, 4).ok()?;
    take_in(&mut list, items);
    Some(list)
}

/// Whether these are the items.
fn has<T: Ord + Copy>(list: &SortedList<T>, items: &[T]) -> bool {
    list.items() == items
}

/// Whether a list finds an item, on its own and as the least that is not below another item, and finds nothing from
/// `behind` on.
fn finds<T: Ord + Copy>(list: &SortedList<T>, item: T, below: T, behind: T) -> bool {
    let held = list.holds(&item) & !list.holds(&below);
    let least = list.least_from(&below) == Some(item);
    held & least & (list.least_from(&behind) == None)
}

/// Whether a list of three ascending items has them in their order, finds the one in the middle, on its own and as the
/// least that is not below another item, finds nothing from `behind` on, and has the others once that one is taken out.
fn keeps<T: Ord + Copy>(alloc: Global, items: &[T; 3], below: T, behind: T) -> bool {
    let Some(mut list) = list_of(alloc, items) else {
        return false;
    };
    let taken = has(&list, items);
    let found = finds(&list, items[1], below, behind);
    list.remove(&items[1]);
    taken & found & has(&list, &[items[0], items[2]])
}

#[test]
fn items_are_ascending_and_each_is_there_once(rt: HostRuntime) {
    assert!(rt; keeps(rt.alloc(), &[3, 5, 7], 4, 8));
}

/// Whether the list of these items has those, in this order, and finds an item of them.
fn sorts<T: Ord + Copy>(alloc: Global, items: &[T], sorted: &[T; 4]) -> bool {
    let Ok(items) = Vec::from_slice(alloc, items) else {
        return false;
    };
    let list = SortedList::of_items(items);
    has(&list, sorted) & list.holds(&sorted[2])
}

#[test]
fn items_are_put_in_order_and_equal_ones_become_one(rt: HostRuntime) {
    assert!(rt; sorts(rt.alloc(), &[7, 3, 5, 3, 9, 5], &[3, 5, 7, 9]));
}
