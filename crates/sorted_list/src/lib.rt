//! Items in ascending order, in memory that is taken once.
#![tactic(auto)]

mod sorted_list;

pub use sorted_list::SortedList;
