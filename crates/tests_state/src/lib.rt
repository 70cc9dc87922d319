//! Tests of the crates that keep state: files of slots, caches, journals, tables, trustees, and a lock.
#![tactic(auto)]

#[cfg(test)]
mod disks;
#[cfg(test)]
mod entries;
#[cfg(test)]
mod slots;
#[cfg(test)]
mod stops;
#[cfg(test)]
mod trustees;
#[cfg(test)]
mod turns;
