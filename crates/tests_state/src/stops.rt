//! A disk that stops, beside a disk in memory whose calls are listed to fail.

use crate::disks::{empty, header, make};
use disk_trait::{Disk, Faults, Stopped};
use slot_file::prepare;
use std::alloc::Global;
use std::process::Abort;

/// Whether making a file over a disk that stops after this many calls ends as over one whose calls fail from this
/// number on, with the same bytes.
fn stops_alike(rt: &impl Abort, alloc: Global, calls: u64) -> bool {
    let mut stopped = Stopped::after(empty(rt, alloc, 32), calls);
    let mut failing = empty(rt, alloc, 32);
    failing.stop_at(calls);
    prepare(&mut stopped, &header(2, 3), 32) == make(&mut failing, &header(2, 3), 32)
        && stopped.into_disk().bytes() == failing.bytes()
}

#[test]
fn a_file_is_made_up_to_the_stop(rt: HostRuntime) {
    for calls in 0..12 {
        assert!(rt; stops_alike(&rt, rt.alloc(), calls));
    }
}

/// Whether a disk that is written and synced, and then stops, keeps what it had, and counts what it refuses.
fn keeps_what_it_had(rt: &impl Abort, alloc: Global) -> bool {
    let mut disk = Stopped::after(empty(rt, alloc, 0), 2);
    let is_written = disk.write_at(0, b"before").is_ok() && disk.sync().is_ok();
    let is_refused = disk.write_at(0, b"behind").is_err() && disk.sync().is_err();
    is_written
        && is_refused
        && disk.faults() == 2
        && disk.into_disk().bytes() == b"before".as_slice()
}

#[test]
fn what_was_there_at_the_stop_stays(rt: HostRuntime) {
    assert!(rt; keeps_what_it_had(&rt, rt.alloc()));
}
