//! Links in memory.

use std::alloc::Global;
use stream_memory::{MemLink, MemSink, MemSource};

/// No link here is written more bytes, and each write takes all that it is given.
const ROOM: usize = 8192;

/// A link that gives these bytes. Each of its reads gives everything that is asked for.
pub(crate) fn link(alloc: Global, given: &[u8]) -> Option<MemLink> {
    let given = Vec::from_slice(alloc, given).ok()?;
    let source = MemSource::new(given, Vec::new(alloc), Vec::new(alloc));
    let sink = MemSink::new(alloc, ROOM, ROOM, Vec::new(alloc)).ok()?;
    MemLink::new(alloc, source, sink, Vec::new(alloc), None).ok()
}
