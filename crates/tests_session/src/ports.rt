//! Ports in memory, at which services are tested.

ghost use Rattle.std.specs.Prelude.{◌≡◌, IfOk, vec_len};

use memory::NoMemory;
use std::alloc::Global;
use stream_memory::{MemLink, MemPort, MemSink, MemSource, PortScript};

/// A link that gives these bytes.
fn link(alloc: Global, bytes: &[u8]) -> Result<MemLink, NoMemory> {
    let given = Vec::from_slice(alloc, bytes)?;
    let source = MemSource::new(given, Vec::new(alloc), Vec::new(alloc));
    let sink = MemSink::new(alloc, 256, 256, Vec::new(alloc))?;
    MemLink::new(alloc, source, sink, Vec::new(alloc), None)
}

/// A port at which links wait that give these bytes, one link for each string.
fn port(alloc: Global, links: &[&[u8]]) -> Result<MemPort, NoMemory> {
    let mut script = PortScript::new(alloc);
    for bytes in links {
        script.waiting.push(link(alloc, bytes)?)?;
    }
    let place = Some(String::from_str(alloc, "here")?);
    MemPort::new(alloc, place, script)
}

/// A port at which no link waits, and one at which links wait that give these bytes, one link for each string.
pub fn two_ports(alloc: Global, links: &[&[u8]]) -> Result<Vec<MemPort>, NoMemory>
    ensures { IfOk result (λ ports. vec_len ports ≡ 2) }
{
    let mut ports = Vec::new(alloc);
    ports.push(port(alloc, &[])?)?;
    ports.push(port(alloc, links)?)?;
    Ok(ports)
}

/// Whether no link came to the first of two ports, and these bytes were written to the first link of the second.
pub fn have_written(ports: &[MemPort], bytes: &[u8]) -> bool {
    ports.len() == 2
        && ports[0].kept().talk(0).is_none()
        && ports[1]
            .kept()
            .talk(0)
            .is_some_and(|talk| talk.written() == bytes)
}
