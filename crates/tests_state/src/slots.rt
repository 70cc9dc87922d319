//! Files of slots, and caches of them.

mod caches;
mod files;
