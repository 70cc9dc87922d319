//! The tool over objects in memory, for scripts and for witnesses: a call over these very types takes long to prove, so
//! there is only one.

ghost use Rattle.std.specs.Prelude.{map, string_bytes};
ghost use Rattle.tool_base.specs.World.{output_run};
ghost use Rattle.tool_run.specs.ToolRun.{ToolRun};
ghost use Rattle.tool_run.specs.Worlds.{outside_of, world_of};

use disk_trait::Faults;
use std::alloc::Global;
use std::sync::Wait;
use std::thread::Threads;
use stream_io::{Net, Silent, Sink, Store, Stream};
use stream_memory::{MemNet, MemSink, MemStore};
use tool_run::{Clocks, MemClocks, run_tool};

/// Does what the words ask for, over objects in memory, and answers the status.
pub(crate) fn run_over<R: Threads + Wait + Sync>(
    rt: &R,
    alloc: Global,
    words: &[String],
    store: &mut MemStore,
    net: &mut MemNet,
    time: &mut MemClocks,
    out: &mut MemSink,
) -> u8
    ensures { ToolRun (map string_bytes words.now)
        (world_of (outside_of (⟦<MemStore as Store>⟧.state store.old) (⟦<MemNet as Net>⟧.state net.old)
        (⟦<MemClocks as Clocks>⟧.state time.old)) (outside_of (⟦<MemStore as Store>⟧.state store.new)
        (⟦<MemNet as Net>⟧.state net.new) (⟦<MemClocks as Clocks>⟧.state time.new))
        (output_run ⟦<MemSink as Faults>⟧.steady ⟦<MemSink as Sink>⟧.room ⟦<MemSink as Stream>⟧.talk out.old out.new))
        result }
{
    run_tool(rt, &mut Silent, alloc, words, store, net, time, out)
}
