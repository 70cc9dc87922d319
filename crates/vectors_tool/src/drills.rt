//! What the disks of a drill hold at its end, as another implementation found; and the largest possible drill, which is
//! run twice. The lines of drills are printed by scripts.

use drill::{Summary, run_drill};
use memory::NoMemory;
use std::alloc::Global;
use std::io;
use vectors_scripts::print_disks;

/// The outcome of the largest possible drill.
fn largest(alloc: Global) -> Result<Summary, NoMemory> {
    let drilled = run_drill(alloc, 9, 10_000, 100_000)?;
    Ok(drilled.summary)
}

/// Runs the largest possible drill twice, and prints how many of its sessions signed, how many were refused, and
/// whether both runs had the same outcome.
fn print_largest(rt: HostRuntime) -> io::Result<()> {
    let (Ok(first), Ok(second)) = (largest(rt.alloc()), largest(rt.alloc())) else {
        return println!(rt; "out of memory");
    };
    let again = if first == second {
        "the same again"
    } else {
        "otherwise again"
    };
    println!(rt;
        "signed {} refused {}, {again}",
        first.signed, first.refused
    )
}

/// Runs these drills, and prints their outcome.
pub(crate) fn print_runs(rt: HostRuntime) -> io::Result<()> {
    match run_drill(rt.alloc(), 7, 40, 0) {
        Ok(drilled) => print_disks(rt, drilled.journals, drilled.table)?,
        Err(NoMemory) => println!(rt; "out of memory")?,
    }
    print_largest(rt)
}
