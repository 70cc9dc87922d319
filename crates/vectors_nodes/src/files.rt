//! The files that the program reads.

use std::fs;

/// The bytes of a file, or nothing if it cannot be read.
pub(crate) fn file(rt: HostRuntime, name: &str) -> Option<Vec<u8>> {
    fs::read(&rt, name).ok()
}
