//! Tests of what no contract says: that a store in memory is asked, and for what.

use memory::NoMemory;
use std::alloc::Global;
use stream_memory::MemStore;
use tool_base::Ending;
use tool_journals::enrol_file;

/// A store of one file `share`.
fn store_of(alloc: Global, bytes: &[u8]) -> Result<MemStore, NoMemory> {
    let mut files = Vec::new(alloc);
    let file = (
        String::from_str(alloc, "share")?,
        Vec::from_slice(alloc, bytes)?,
    );
    files.push(file)?;
    MemStore::of_files(alloc, files, Vec::new(alloc))
}

/// The fault of a file that is neither a share nor a reference file.
fn fault_of(end: Ending) -> Option<u8> {
    match end {
        Ending::Unreadable { fault, .. } => Some(fault),
        _ => None,
    }
}

#[test]
fn a_file_of_three_bytes_has_another_magic(rt: HostRuntime) {
    let alloc = rt.alloc();
    let mut store = store_of(alloc, b"TLS").expect(&rt, "memory");
    let end = enrol_file(alloc, &mut store, "share", "journal");
    assert!(rt; fault_of(end) == Some(1));
}
