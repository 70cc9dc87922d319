//! What peers gave over the links of a port in memory.

ghost use Rattle.std.specs.Prelude.{◌≡◌, IsTrue, Some, map, slice_get};
ghost use Rattle.stream_io.specs.Talk.{Talk};
ghost use Rattle.stream_memory.specs.Links.{talk_of};
ghost use Rattle.stream_memory.specs.Ports.{port_state};
ghost use Rattle.laws_signing.specs.Witness.{AllGaveJust, GaveFirst, GaveJust};

use crate::witness::links::Peer;
use stream_io::Net;
use stream_memory::{Conversation, KeptPort, MemNet};

/// Whether each conversation of a port with these peers gave just what its peer sends, without a fault.
pub(crate) fn all_gave(port: &KeptPort, peers: &[Peer]) -> bool
    ensures { IsTrue result → AllGaveJust (port_state port.now).talks (map (λ peer. peer.bytes.now) peers.now) }
{
    for (index, peer) in peers.iter().enumerate() {
        if !gave_at(port, index, peer.bytes) {
            return false;
        }
    }
    true
}

/// Whether the first link of the first port that a net kept gave just these bytes, without a fault.
pub(crate) fn first_gave(net: &MemNet, bytes: &[u8]) -> bool
    ensures { IsTrue result → GaveFirst (⟦<MemNet as Net>⟧.state net.now) bytes.now }
{
    match net.kept(0) {
        Some(port) => port_gave(port, bytes),
        None => false,
    }
}

/// Whether the first conversation of a port gave just these bytes, without a fault.
fn port_gave(port: &KeptPort, bytes: &[u8]) -> bool
    ensures { IsTrue result → (talk : Talk) × (slice_get (port_state port.now).talks 0 ≡ Some talk)
        × GaveJust bytes.now talk }
{
    match port.talk(0) {
        Some(talk) => gave(talk, bytes),
        None => false,
    }
}

/// Whether the conversation of this number, if there is one, gave just these bytes, without a fault.
fn gave_at(port: &KeptPort, index: usize, bytes: &[u8]) -> bool
    ensures { IsTrue result → (talk : Talk) → slice_get (port_state port.now).talks index ≡ Some talk
        → GaveJust bytes.now talk }
{
    match port.talk(index) {
        Some(talk) => gave(talk, bytes),
        None => true,
    }
}

/// Whether a conversation gave just these bytes, without a fault.
fn gave(talk: &Conversation, bytes: &[u8]) -> bool
    ensures { IsTrue result → GaveJust bytes.now (talk_of talk.now) }
{
    let taken = talk.taken();
    if bytes.len() < taken.len() {
        return false;
    }
    let (front, back) = bytes.split_at(taken.len());
    talk.faults() == 0 && front == taken && back == talk.left()
}
