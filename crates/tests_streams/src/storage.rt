//! Disks and stores: in memory, over files that are made up, and over the machine's own.

mod disks;
mod fake_files;
mod files;
mod kept_files;
mod stores;
