//! What the code above knows of the outside: counts of faults, pages that are read, and disks with a crash model.
#![tactic(auto)]

mod disk;
mod faults;
mod gate;
mod generator;
mod mem_disk;
mod stopped;

pub use disk::{Disk, DiskFault, Pages};
pub use faults::Faults;
pub use gate::{append, open_gate, write_shut, write_stable};
pub use generator::Generator;
pub use mem_disk::MemDisk;
pub use stopped::Stopped;
