//! Stores and nets in memory.

use crate::given::words_of;
use memory::NoMemory;
use std::alloc::{AllocError, Global};
use std::io::{self, ErrorKind};
use stream_memory::{MemNet, MemStore, PortScript};

/// Files, each a name and its bytes.
pub type Files = Vec<(String, Vec<u8>)>;

/// Room for any lines of the tool that are printed by scripts.
pub(crate) const LINE: usize = 1000;

/// What was made, if there was memory for it.
pub fn made<T>(value: Result<T, NoMemory>) -> io::Result<T> {
    value.map_err(|_| io::Error::from(ErrorKind::OutOfMemory))
}

/// The same, with the error that every allocation here has, so that it is passed on as it is.
pub(crate) fn held<T>(value: Result<T, NoMemory>) -> Result<T, AllocError> {
    value.map_err(|_| AllocError)
}

/// A store with these files. The listed calls fail.
pub(crate) fn store_of(
    alloc: Global,
    files: Files,
    failing: &[u64],
) -> Result<MemStore, AllocError> {
    let failing = Vec::from_slice(alloc, failing)?;
    held(MemStore::of_files(alloc, files, failing))
}

/// The bytes of a file of a store, or nothing if it is not there.
pub fn file<'a>(store: &'a MemStore, name: &str) -> &'a [u8] {
    store.bytes(name).unwrap_or_default()
}

/// A net that offers the place `here`, with these ports.
pub(crate) fn net_at_here(alloc: Global, ports: Vec<PortScript>) -> Result<MemNet, NoMemory> {
    let places = words_of(alloc, "here")?;
    Ok(MemNet::new(places, ports, Vec::new(alloc)))
}
