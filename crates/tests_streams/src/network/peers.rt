//! Links and ports in memory that are made of rows.

use crate::scripts::is_text;
use memory::NoMemory;
use std::alloc::{AllocError, Global};
use stream_memory::{Conversation, Gate, MemLink, MemSink, MemSource, PortScript};

/// What a link in memory is made of.
pub(crate) struct Peer {
    /// What it gives.
    pub(crate) text: &'static str,
    /// In pieces of these lengths.
    pub(crate) pieces: &'static [usize],
    /// How many bytes it takes.
    pub(crate) room: usize,
    /// How many of them in one write.
    pub(crate) most: usize,
    /// The numbers of the reads, of the writes, and of the calls of both kinds that fail.
    pub(crate) failing: [&'static [u64]; 3],
    /// What is held back.
    pub(crate) gate: Option<Gate>,
}

/// A peer that gives nothing, and takes eight bytes, three at a time.
pub(crate) const PEER: Peer = Peer {
    text: "",
    pieces: &[2, 2, 2, 2],
    room: 8,
    most: 3,
    failing: [&[], &[], &[]],
    gate: None,
};

/// What a port in memory is made of: the links that wait, those that are there to be dialled, each with its place,
/// and the numbers of the calls that fail.
pub(crate) struct Script {
    pub(crate) waiting: &'static [Peer],
    pub(crate) dialled: &'static [(&'static str, Peer)],
    pub(crate) failing: &'static [u64],
}

/// The source of a peer.
fn source(alloc: Global, peer: &Peer) -> Result<MemSource, AllocError> {
    let bytes = Vec::from_slice(alloc, peer.text.as_bytes())?;
    let pieces = Vec::from_slice(alloc, peer.pieces)?;
    let failing = Vec::from_slice(alloc, peer.failing[0])?;
    Ok(MemSource::new(bytes, pieces, failing))
}

/// The sink of a peer.
fn sink(alloc: Global, peer: &Peer) -> Result<MemSink, NoMemory> {
    let failing = Vec::from_slice(alloc, peer.failing[1])?;
    MemSink::new(alloc, peer.room, peer.most.max(1), failing)
}

/// A link to a peer.
fn link(alloc: Global, peer: &Peer) -> Result<MemLink, NoMemory> {
    let source = source(alloc, peer)?;
    let sink = sink(alloc, peer)?;
    let failing = Vec::from_slice(alloc, peer.failing[2])?;
    MemLink::new(alloc, source, sink, failing, peer.gate)
}

/// Links to these peers.
fn waiting(alloc: Global, peers: &[Peer]) -> Result<Vec<MemLink>, NoMemory> {
    let mut links = Vec::new(alloc);
    for peer in peers {
        links.push(link(alloc, peer)?)?;
    }
    Ok(links)
}

/// A link to a peer at a place.
fn entry(alloc: Global, place: &str, peer: &Peer) -> Result<(String, MemLink), NoMemory> {
    let link = link(alloc, peer)?;
    Ok((String::from_str(alloc, place)?, link))
}

/// Links to peers at these places.
fn dialled(
    alloc: Global,
    peers: &[(&'static str, Peer)],
) -> Result<Vec<(String, MemLink)>, NoMemory> {
    let mut links = Vec::new(alloc);
    for (place, peer) in peers {
        links.push(entry(alloc, place, peer)?)?;
    }
    Ok(links)
}

/// The script of a port.
pub(crate) fn port_script(alloc: Global, script: &Script) -> Result<PortScript, NoMemory> {
    let waiting = waiting(alloc, script.waiting)?;
    let dialled = dialled(alloc, script.dialled)?;
    let failing = Vec::from_slice(alloc, script.failing)?;
    Ok(PortScript {
        waiting,
        dialled,
        failing,
    })
}

/// What has gone over a link: the place that was dialled or none, the bytes taken, left and written, and the count of
/// faults.
pub(crate) type Talk = (Option<&'static str>, [&'static str; 3], u64);

/// Whether two places are the same, or neither is one.
pub(crate) fn is_same(one: Option<&str>, other: Option<&str>) -> bool {
    one == other
}

/// Whether a link is there over which this went.
pub(crate) fn is_talk(talk: Option<&Conversation>, want: &Talk) -> bool {
    let Some(talk) = talk else {
        return false;
    };
    let [taken, left, written] = want.1;
    let is_read = is_text(talk.taken(), taken);
    let is_left = is_text(talk.left(), left);
    let is_written = is_text(talk.written(), written);
    let is_place = is_same(talk.place(), want.0);
    is_read && is_left && is_written && is_place && talk.faults() == want.2
}
