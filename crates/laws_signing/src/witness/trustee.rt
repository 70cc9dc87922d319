//! A trustee that is served over objects in memory.

ghost use Rattle.std.specs.Prelude.{◌≡◌, ℕ, true, IsTrue, Ok};
ghost use Rattle.tool_base.specs.Ending.{Served};
ghost use Rattle.tool_base.specs.Endings.{ending};
ghost use Rattle.tool_trustee.specs.Steady.{outside};
ghost use Rattle.tool_words.specs.Rows.{trustee_words};
ghost use Rattle.laws_signing.specs.Witness.{IsNewNet, IsSteadyStore, SteadyTrustee, file_in};

use crate::witness::heard::first_gave;
use crate::witness::links::waiting_net;
use memory::NoMemory;
use std::alloc::Global;
use std::sync::Wait;
use std::thread::Threads;
use stream_io::{Net, Store};
use stream_memory::{MemNet, MemStore};
use tool_base::Ending;
use tool_trustee::{Clocks, MemClocks, serve_trustee};
use tool_words::TrusteeWords;
use turn_lock::TurnsOnly;

/// Room for 65,536 of the longest replies of any parameter set: each has at most 99 bytes beside 8,480 of masks.
const ROOM: usize = 562_233_344;

/// Serves a trustee of these words over a store of these files, at a port where a link waits that gives these asks, and
/// tells whether it came to its end and the asks were read or left at that link. If so, the premises of
/// `tool_trustee::laws::steady_trustee` hold of the run: store and net tell their content and do not fail, and the link
/// has room for all replies.
pub fn served_steadily<R: Threads + Wait + Sync>(
    turns: &TurnsOnly<R>,
    alloc: Global,
    words: &TrusteeWords,
    files: Vec<(String, Vec<u8>)>,
    asks: &[u8],
) -> Result<bool, NoMemory>
    ensures { result ≡ Ok true → (store : MemStore) × (later : MemStore) × (net : MemNet) × (after : MemNet)
        × (time : MemClocks) × SteadyTrustee (trustee_words words.now) (file_in files.items) asks.now
        (outside (⟦<MemStore as Store>⟧.state store) (⟦<MemNet as Net>⟧.state net) (⟦<MemClocks as Clocks>⟧.state time))
        (outside (⟦<MemStore as Store>⟧.state later) (⟦<MemNet as Net>⟧.state after)
        (⟦<MemClocks as Clocks>⟧.state time)) }
{
    let mut store = MemStore::of_files(alloc, files, Vec::new(alloc))?;
    let mut net = waiting_net(alloc, words.place, asks, ROOM)?;
    Ok(is_served(turns, alloc, words, asks, &mut store, &mut net))
}

/// Serves a trustee over objects that do not fail, and tells whether it came to its end, and the first link of the
/// first port that the net kept gave just these asks.
fn is_served<R: Threads + Wait + Sync>(
    turns: &TurnsOnly<R>,
    alloc: Global,
    words: &TrusteeWords,
    asks: &[u8],
    store: &mut MemStore,
    net: &mut MemNet,
) -> bool
    requires store { IsSteadyStore (⟦<MemStore as Store>⟧.state store.old) }
    requires net { IsNewNet 562233344 (⟦<MemNet as Net>⟧.state net.old) }
    ensures { IsTrue result → (time : MemClocks)
        × SteadyTrustee (trustee_words words.now) (⟦<MemStore as Store>⟧.state store.old).file asks.now
        (outside (⟦<MemStore as Store>⟧.state store.old) (⟦<MemNet as Net>⟧.state net.old)
        (⟦<MemClocks as Clocks>⟧.state time))
        (outside (⟦<MemStore as Store>⟧.state store.new) (⟦<MemNet as Net>⟧.state net.new)
        (⟦<MemClocks as Clocks>⟧.state time)) }
{
    let mut time = MemClocks::new(0);
    let end = serve_trustee(turns, alloc, words, store, net, &mut time);
    if !is_end(&end) {
        return false;
    }
    first_gave(net, asks)
}

/// Whether an end says what was served.
fn is_end(end: &Ending) -> bool
    ensures { IsTrue result → (connections : ℕ) × (frames : ℕ) × (ending end.now ≡ Served connections frames) }
{
    match end {
        Ending::Served { .. } => true,
        _ => false,
    }
}
