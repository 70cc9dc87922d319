//! Files of slots, and such files with what their slots hold in memory.
#![tactic(auto)]

mod cache;
mod copies;
mod doubted;
mod faults;
mod gated;
mod header;
mod prepared;
mod reading;
mod slot;
mod slot_list;
mod slots;

pub use cache::CachedSlots;
pub use copies::{CopyFault, copy_slots};
pub use doubted::Doubted;
pub use faults::{CacheLoad, SettleFault, Settled};
pub use header::{Header, LoadFault};
pub use prepared::{PrepareFault, prepare};
pub use slot::Slot;
pub use slots::{Doubt, MOST_IN_RUN, Slots};
