//! A run over objects in memory for which the premises of the law `laws_commands::laws::steady` hold. If a call of
//! `ran_steadily` answers true it has made one, so the premises can hold together.

ghost use Rattle.std.specs.Prelude.{◌≡◌, ◌≤◌, ℕ, true, IsSome, IsTrue, Ok, length, map, string_bytes};
ghost use Rattle.tool_base.specs.World.{output_run};
ghost use Rattle.tool_run.specs.Worlds.{outside_of, world_of};
ghost use Rattle.vectors_tool.specs.Witness.{SteadyRun};
ghost use Rattle.tool_words.specs.Words.{command_of};

use crate::tool::run_over;
use disk_trait::Faults;
use memory::NoMemory;
use std::alloc::Global;
use std::sync::Wait;
use std::thread::Threads;
use stream_io::{Net, Sink, Store, Stream};
use stream_memory::{MemNet, MemSink, MemStore};
use tool_run::{Clocks, MemClocks};
use tool_words::command_of;

/// Room for the line of a command here.
const ROOM: usize = 4096;

/// Runs the command of these words over a store of these files and a net that offers these places, whose ports have no
/// links, and tells whether the words are a command and its line was printed whole. If so, the premises of
/// `laws_commands::laws::steady` hold of the run.
pub(crate) fn ran_steadily<R: Threads + Wait + Sync>(
    rt: &R,
    alloc: Global,
    words: &[String],
    files: Vec<(String, Vec<u8>)>,
    places: Vec<String>,
) -> Result<bool, NoMemory>
    ensures { result ≡ Ok true → (store : MemStore) × (later : MemStore) × (net : MemNet) × (after : MemNet)
        × (time : MemClocks) × (now : MemClocks) × (out : MemSink) × (done : MemSink) × (status : ℕ)
        × SteadyRun (map string_bytes words.now) files.items
        (world_of (outside_of (⟦<MemStore as Store>⟧.state store) (⟦<MemNet as Net>⟧.state net)
        (⟦<MemClocks as Clocks>⟧.state time)) (outside_of (⟦<MemStore as Store>⟧.state later)
        (⟦<MemNet as Net>⟧.state after) (⟦<MemClocks as Clocks>⟧.state now))
        (output_run ⟦<MemSink as Faults>⟧.steady ⟦<MemSink as Sink>⟧.room ⟦<MemSink as Stream>⟧.talk out done))
        status }
{
    if !is_command(alloc, words) {
        return Ok(false);
    }
    let mut store = MemStore::of_files(alloc, files, Vec::new(alloc))?;
    let mut net = MemNet::new(places, Vec::new(alloc), Vec::new(alloc));
    let mut out = MemSink::new(alloc, ROOM, ROOM, Vec::new(alloc))?;
    let mut time = MemClocks::new(0);
    let _ = run_over(rt, alloc, words, &mut store, &mut net, &mut time, &mut out);
    Ok(is_whole(&out))
}

/// Whether the words are a command's.
fn is_command(alloc: Global, words: &[String]) -> bool
    ensures { IsTrue result → IsSome (command_of (map string_bytes words.now)) }
{
    command_of(alloc, words).is_some()
}

/// Whether no write to a sink failed, and what was written fits into the room here.
fn is_whole(out: &MemSink) -> bool
    ensures count { IsTrue result → ⟦<MemSink as Faults>⟧.count out.now ≡ 0 }
    ensures room { IsTrue result → length (⟦<MemSink as Stream>⟧.talk out.now).written ≤ 4096 }
{
    out.faults() == 0 && out.written().len() <= ROOM
}
