//! Runs trustees and aggregators over links in memory, one of which waits for another: links of one trustee, and
//! sessions of two clients. Then it reads frames as another implementation did.
#![tactic(auto)]

mod beside;
mod disks;
mod files;
mod frames;
mod links;
mod meeting;
mod trustee;
mod turns;

use std::io;

fn main(rt: HostRuntime) -> io::Result<()> {
    beside::print_runs(&rt, rt)?;
    meeting::print_runs(&rt, rt)?;
    frames::print_runs(rt)
}
