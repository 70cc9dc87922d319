//! Runs of `sign` over objects in memory.

ghost use Rattle.std.specs.Prelude.{◌≡◌, ℕ, true, IsTrue, Ok, map};
ghost use Rattle.tool_base.specs.Ending.{NotSigned};
ghost use Rattle.tool_base.specs.Endings.{ending};
ghost use Rattle.tool_base.specs.World.{from_to};
ghost use Rattle.tool_base.specs.declared.unsigned.Unsigned.TheVariants.{Missing};
ghost use Rattle.tool_sign.specs.Ports.{over_net};
ghost use Rattle.tool_words.specs.Rows.{sign_words};
ghost use Rattle.laws_signing.specs.Witness.{HeardRun, IsNewNet, IsSteadyStore, SteadyLoss, WellRun, file_in};

use crate::witness::heard::all_gave;
use crate::witness::links::{Peer, dialled_net};
use disk_trait::Faults;
use memory::NoMemory;
use std::alloc::Global;
use stream_io::{Net, Store};
use stream_memory::{MemNet, MemStore};
use tool_base::{Ending, Unsigned};
use tool_sign::sign;
use tool_words::SignWords;

/// Room for the longest asks of a session.
const ROOM: usize = 16_777_372;

/// Signs over a store of these files and a net of these peers, and tells whether it ended because a member is missing.
/// If it did, the premises of the clause `peer` of `tool_sign::laws::causes` hold of the run: the net does not fail,
/// and its links have room for the longest asks.
pub fn lost_steadily(
    alloc: Global,
    words: &SignWords,
    files: Vec<(String, Vec<u8>)>,
    peers: &[Peer],
) -> Result<bool, NoMemory>
    ensures { result ≡ Ok true → (store : MemStore) × (later : MemStore) × (net : MemNet) × (after : MemNet)
        × SteadyLoss (sign_words words.now)
        (from_to (⟦<MemStore as Store>⟧.state store) (⟦<MemStore as Store>⟧.state later))
        (over_net (⟦<MemNet as Net>⟧.state net) (⟦<MemNet as Net>⟧.state after)) }
{
    let mut store = MemStore::of_files(alloc, files, Vec::new(alloc))?;
    let mut net = dialled_net(alloc, peers, ROOM)?;
    Ok(is_missing(alloc, words, &mut store, &mut net))
}

/// Signs over objects that do not fail, and tells whether it ended because a member is missing.
fn is_missing(alloc: Global, words: &SignWords, store: &mut MemStore, net: &mut MemNet) -> bool
    requires store { IsSteadyStore (⟦<MemStore as Store>⟧.state store.old) }
    requires net { IsNewNet 16777372 (⟦<MemNet as Net>⟧.state net.old) }
    ensures { IsTrue result → SteadyLoss (sign_words words.now)
        (from_to (⟦<MemStore as Store>⟧.state store.old) (⟦<MemStore as Store>⟧.state store.new))
        (over_net (⟦<MemNet as Net>⟧.state net.old) (⟦<MemNet as Net>⟧.state net.new)) }
{
    let end = sign(alloc, words, store, net);
    is_loss(&end)
}

/// Whether an end says that a member is missing.
fn is_loss(end: &Ending) -> bool
    ensures { IsTrue result → (member : ℕ) × (round : ℕ) × (ending end.now ≡ NotSigned (Missing member round)) }
{
    match end {
        Ending::NotSigned(Unsigned::Missing { .. }) => true,
        _ => false,
    }
}

/// Signs over a store of these files and a net of these peers, in the order of the members, and tells whether each of
/// them that was dialled was heard out without a fault. If so, the premise of
/// [`completeness`](crate::laws::completeness) holds of the run, for each dealing that these bytes are of: files and
/// table by their definitions, and what each peer sends as what that trustee replies when it grants both asks.
pub fn well_signed(
    alloc: Global,
    words: &SignWords,
    files: Vec<(String, Vec<u8>)>,
    peers: &[Peer],
) -> Result<bool, NoMemory>
    ensures { result ≡ Ok true → (store : MemStore) × (later : MemStore) × (net : MemNet) × (after : MemNet)
        × WellRun (sign_words words.now) (file_in files.items) (map (λ peer. peer.bytes.now) peers.now)
        (from_to (⟦<MemStore as Store>⟧.state store) (⟦<MemStore as Store>⟧.state later))
        (over_net (⟦<MemNet as Net>⟧.state net) (⟦<MemNet as Net>⟧.state after)) }
{
    let mut store = MemStore::of_files(alloc, files, Vec::new(alloc))?;
    let mut net = dialled_net(alloc, peers, ROOM)?;
    Ok(all_heard(alloc, words, peers, &mut store, &mut net))
}

/// Signs over objects that do not fail, and tells whether each peer that was dialled was heard out without a fault.
fn all_heard(
    alloc: Global,
    words: &SignWords,
    peers: &[Peer],
    store: &mut MemStore,
    net: &mut MemNet,
) -> bool
    requires store { IsSteadyStore (⟦<MemStore as Store>⟧.state store.old) }
    requires net { IsNewNet 16777372 (⟦<MemNet as Net>⟧.state net.old) }
    ensures { IsTrue result → HeardRun (sign_words words.now) (map (λ peer. peer.bytes.now) peers.now)
        (from_to (⟦<MemStore as Store>⟧.state store.old) (⟦<MemStore as Store>⟧.state store.new))
        (over_net (⟦<MemNet as Net>⟧.state net.old) (⟦<MemNet as Net>⟧.state net.new)) }
{
    let _ = sign(alloc, words, store, net);
    if net.faults() != 0 {
        return false;
    }
    match net.kept(0) {
        Some(port) => all_gave(port, peers),
        None => false,
    }
}
