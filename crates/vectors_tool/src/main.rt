//! Runs the tool as a user does, over files and links in memory: `verify`, `rehearse` and `deal`; the commands of a
//! trustee; `sign`; `aggregate`; `hss check`; `drill`; and runs for which the premises of laws hold. The inputs and the
//! results expected are from another implementation. What is run stands in scripts, which are data, and which
//! `vectors_scripts` plays. It prints what each command prints, the status after it, and how the files and the bytes on
//! links compare with those expected.
#![tactic(auto)]

mod drills;
mod tool;
mod witnesses;

use std::io;
use std::sync::Wait;
use std::thread::Threads;
use stream_memory::{MemNet, MemSink, MemStore};
use tool::run_over;
use tool_run::MemClocks;
use vectors_scripts::{print_played, print_scripts, world_here};

/// The scripts, each a file of the system, in their order.
const SCRIPTS: &[&str] = &[
    "runs.keys",
    "runs.trustee",
    "runs.sign",
    "runs.aggregate",
    "runs.levels",
    "runs.faults",
];

/// The script that makes the files of the witnesses.
const WITNESSES: &str = "runs.witnesses";

/// The moment at which each clock of a script begins.
const START: u64 = 1000;

/// Plays all scripts with what runs a command, and runs what no script runs: the drills, and the witnesses over files
/// that a script makes.
fn print_all<
    R: Threads + Wait + Sync,
    F: Fn(&[String], &mut MemStore, &mut MemNet, &mut MemSink) -> u8,
>(threads: &R, rt: HostRuntime, run: &F) -> io::Result<()>
    requires { F.IsAlwaysCallable run.now }
{
    print_scripts(run, rt, SCRIPTS)?;
    drills::print_runs(rt)?;
    let mut world = world_here(rt)?;
    print_played(run, rt, &mut world, WITNESSES)?;
    witnesses::print_runs(threads, rt, &world.store)
}

/// Does so with the tool.
fn print_by_tool<R: Threads + Wait + Sync>(threads: &R, rt: HostRuntime) -> io::Result<()> {
    let run = |words: &[String], store: &mut MemStore, net: &mut MemNet, out: &mut MemSink| {
        let mut time = MemClocks::new(START);
        run_over(threads, rt.alloc(), words, store, net, &mut time, out)
    };
    print_all(threads, rt, &run)
}

fn main(rt: HostRuntime) -> io::Result<()> {
    print_by_tool(&rt, rt)
}
