//! Links in memory, and what went over them.

use crate::files::{calls_of, with_call};
use crate::scene::{held, net_at_here};
use crate::world::World;
use memory::NoMemory;
use std::alloc::{AllocError, Global};
use std::mem;
use stream_memory::{KeptPort, MemLink, MemNet, MemSink, MemSource, PortScript};

/// More conversations than a port here has.
pub(crate) const TALKS: usize = 32;

/// How many bytes the reads of `length` bytes give, one after the other: as many as `sizes` says, again and again, or
/// all of them if `sizes` is empty.
fn pieces_of(alloc: Global, length: usize, sizes: &[u8]) -> Result<Vec<usize>, AllocError> {
    let mut pieces = Vec::new(alloc);
    for index in 0..length {
        if let Some(size) = sizes.get(index % sizes.len().max(1)) {
            pieces.push(usize::from(*size))?;
        }
    }
    Ok(pieces)
}

/// A source that gives these bytes in these pieces.
fn source_of(alloc: Global, bytes: &[u8], pieces: &[u8]) -> Result<MemSource, AllocError> {
    let pieces = pieces_of(alloc, bytes.len(), pieces)?;
    let bytes = Vec::from_slice(alloc, bytes)?;
    Ok(MemSource::new(bytes, pieces, Vec::new(alloc)))
}

/// A link that gives these bytes in these pieces, with this much room in all and in one write. The call of this number
/// fails, if there is one.
fn link_of(
    alloc: Global,
    bytes: &[u8],
    pieces: &[u8],
    room: (usize, usize),
    call: Option<u64>,
) -> Result<MemLink, NoMemory> {
    let failing = calls_of(alloc, call)?;
    let source = source_of(alloc, bytes, pieces)?;
    let sink = MemSink::new(alloc, room.0, room.1.max(1), Vec::new(alloc))?;
    MemLink::new(alloc, source, sink, failing, None)
}

/// A link that gives a file in pieces whose lengths are the bytes of another.
fn file_link(
    world: &mut World,
    name: &str,
    pieces: &str,
    call: Option<u64>,
) -> Result<MemLink, AllocError> {
    world.load(name)?;
    world.load(pieces)?;
    held(link_of(
        world.alloc,
        world.bytes(name),
        world.bytes(pieces),
        (world.rooms.0, world.rooms.1),
        call,
    ))
}

/// Adds a port to the next run.
pub(crate) fn add_port(world: &mut World) -> Result<(), AllocError> {
    let port = PortScript::new(world.alloc);
    Ok(world.ports.push(port)?)
}

/// Makes a call of the last port fail.
pub(crate) fn deafen(world: &mut World, call: &str) -> Result<(), AllocError> {
    let call = world.number(call) as u64;
    match world.ports.last_mut() {
        Some(port) => port.failing.push(call)?,
        None => world.wrong = true,
    }
    Ok(())
}

/// The net of the next run.
pub(crate) fn take_net(world: &mut World) -> Result<MemNet, AllocError> {
    let alloc = world.alloc;
    let ports = mem::replace(&mut world.ports, Vec::new(alloc));
    held(net_at_here(alloc, ports))
}

/// Makes a link to a file wait at the last port.
pub(crate) fn wait(world: &mut World, rest: &str) -> Result<(), AllocError> {
    let (name, pieces) = rest.split_once(' ').unwrap_or((rest, "empty"));
    let (name, call) = with_call(world, name);
    let link = file_link(world, name, pieces, call)?;
    match world.ports.last_mut() {
        Some(port) => port.waiting.push(link)?,
        None => world.wrong = true,
    }
    Ok(())
}

/// Adds a link that can be dialled at a place from the last port.
fn push_dialled(world: &mut World, place: &str, link: MemLink) -> Result<(), AllocError> {
    let entry = (String::from_str(world.alloc, place)?, link);
    match world.ports.last_mut() {
        Some(port) => port.dialled.push(entry)?,
        None => world.wrong = true,
    }
    Ok(())
}

/// Adds a link to a file that can be dialled from the last port.
pub(crate) fn dial(world: &mut World, word: &str) -> Result<(), AllocError> {
    let (place, name) = word.split_once('=').unwrap_or((word, ""));
    let (name, call) = with_call(world, name);
    let link = file_link(world, name, "empty", call)?;
    push_dialled(world, place, link)
}

/// What was sent over a port to the peer that was dialled at a place, or nothing if none was.
pub(crate) fn asked<'a>(port: Option<&'a KeptPort>, place: &str) -> &'a [u8] {
    let Some(port) = port else {
        return &[];
    };
    for index in 0..TALKS {
        if let Some(talk) = port.talk(index) {
            if talk.place() == Some(place) {
                return talk.written();
            }
        }
    }
    &[]
}
