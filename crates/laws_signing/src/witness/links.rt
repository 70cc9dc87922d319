//! Nets in memory that do not fail, and whose links have room.

ghost use Rattle.std.specs.Prelude.{◌≤◌, IsTrue, IfOk};
ghost use Rattle.stream_memory.specs.Ports.{is_steady_waiting, room_of_waiting};
ghost use Rattle.laws_signing.specs.Witness.{IsNewNet, IsRoomyScript};

use memory::NoMemory;
use std::alloc::Global;
use stream_io::Net;
use stream_memory::{MemLink, MemNet, MemSink, MemSource, PortScript};

/// The most bytes that one write takes.
const MOST: usize = 4096;

/// A peer that can be dialled at a place, and the bytes that are sent from there.
#[derive(Clone, Copy)]
pub struct Peer<'a> {
    /// The place.
    pub place: &'a str,
    /// The bytes.
    pub bytes: &'a [u8],
}

/// A link that gives these bytes, and takes `room` bytes.
fn link_of(alloc: Global, bytes: &[u8], room: usize) -> Result<MemLink, NoMemory>
    ensures steady { IfOk result (λ link. IsTrue (is_steady_waiting link)) }
    ensures room { IfOk result (λ link. room ≤ room_of_waiting link) }
{
    let bytes = Vec::from_slice(alloc, bytes)?;
    let source = MemSource::new(bytes, Vec::new(alloc), Vec::new(alloc));
    let sink = MemSink::new(alloc, room, MOST, Vec::new(alloc))?;
    MemLink::new(alloc, source, sink, Vec::new(alloc), None)
}

/// A net that offers the place, and makes a port where a link waits that gives these bytes and takes `room` bytes.
pub(crate) fn waiting_net(
    alloc: Global,
    place: &str,
    bytes: &[u8],
    room: usize,
) -> Result<MemNet, NoMemory>
    ensures { IfOk result (λ net. IsNewNet room (⟦<MemNet as Net>⟧.state net)) }
{
    let mut script = PortScript::new(alloc);
    script.waiting.push(link_of(alloc, bytes, room)?)?;
    let mut places = Vec::new(alloc);
    places.push(String::from_str(alloc, place)?)?;
    net_of(alloc, places, script, room)
}

/// A net that makes a port from which these peers can be dialled, over links that take `room` bytes.
pub(crate) fn dialled_net(alloc: Global, peers: &[Peer], room: usize) -> Result<MemNet, NoMemory>
    ensures { IfOk result (λ net. IsNewNet room (⟦<MemNet as Net>⟧.state net)) }
{
    let mut script = PortScript::new(alloc);
    for peer in peers {
        push_peer(alloc, peer, room, &mut script)?;
    }
    net_of(alloc, Vec::new(alloc), script, room)
}

/// Lets this peer be dialled too.
fn push_peer(
    alloc: Global,
    peer: &Peer,
    room: usize,
    script: &mut PortScript,
) -> Result<(), NoMemory>
    ensures { IsRoomyScript room script.old → IsRoomyScript room script.new }
{
    let place = String::from_str(alloc, peer.place)?;
    let link = link_of(alloc, peer.bytes, room)?;
    script.dialled.push((place, link))?;
    Ok(())
}

/// A net of these places that makes one port of this script.
fn net_of(
    alloc: Global,
    places: Vec<String>,
    script: PortScript,
    room: usize,
) -> Result<MemNet, NoMemory>
    requires { IsRoomyScript room script }
    ensures { IfOk result (λ net. IsNewNet room (⟦<MemNet as Net>⟧.state net)) }
{
    let mut scripts = Vec::new(alloc);
    scripts.push(script)?;
    Ok(MemNet::new(places, scripts, Vec::new(alloc)))
}
