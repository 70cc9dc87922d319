//! Tests of what no contract says about a store in memory: that calls succeed, which of them fail, and how often
//! failures are counted.

use crate::scripts::none_wrong;
use crate::scripts::store_calls::stores;
use memory::NoMemory;
use std::alloc::{AllocError, Global};
use stream_memory::MemStore;

/// A store of a file `a` of the bytes `first`, a file `b` of none, and a second file `a`: the numbers of its calls
/// that fail; from which call on the disks of new names stop, and which call of a view fails; and what is done with
/// it.
type Row = (&'static [u64], [Option<u64>; 2], &'static str);

static ROWS: [Row; 15] = [
    // It reads its files, and counts what fails.
    (
        &[3],
        [None, None],
        "ok read a 5 first; long read a 4 5; ok read b 0; ok faults 0; failed read b 9; ok faults 1; \
         ok read b 9; ok faults 1; failed read c 9; ok faults 2",
    ),
    // It takes a new file once.
    (
        &[0, 1, 8],
        [None, None],
        "failed has n; failed new n none; ok faults 2; no has n; ok new n first; yes has n; \
         exists secret n second; ok read n 9 first; failed read c 9; ok faults 3; failed new c none; \
         no has c; ok faults 4",
    ),
    // Each call fails if its number is listed.
    (
        &[0],
        [None, None],
        "failed has a; ok read a 9 first; ok new n; ok make m 1; ok write a 0 F; ok look b 0; ok faults 1",
    ),
    (
        &[1],
        [None, None],
        "yes has a; failed read a 9 first; ok new n; ok make m 1; ok write a 0 F; ok look b 0; ok faults 1",
    ),
    (
        &[2],
        [None, None],
        "yes has a; ok read a 9 first; failed new n; ok make m 1; ok write a 0 F; ok look b 0; ok faults 1",
    ),
    (
        &[3],
        [None, None],
        "yes has a; ok read a 9 first; ok new n; failed make m 1; ok write a 0 F; ok look b 0; ok faults 1",
    ),
    (
        &[4],
        [None, None],
        "yes has a; ok read a 9 first; ok new n; ok make m 1; failed write a 0 F; ok look b 0; ok faults 1",
    ),
    (
        &[5],
        [None, None],
        "yes has a; ok read a 9 first; ok new n; ok make m 1; ok write a 0 F; failed look b 0; ok faults 1",
    ),
    (
        &[6],
        [None, None],
        "yes has a; ok read a 9 first; ok new n; ok make m 1; ok write a 0 F; ok look b 0; ok faults 0",
    ),
    // A disk is taken, written and given back, and has the room with which it was made.
    (
        &[],
        [None, None],
        "ok make n 1234; ok write n 2 xy; ok read n 9 12xy; failed write n 4 5; failed write n 2 xyz; \
         ok disks 2; ok faults 0; failed write e 0 none; exists make n 1; ok faults 1; ok look n 4 12xy; \
         ok disks 2",
    ),
    (
        &[],
        [None, None],
        "failed look e; failed write e 0; ok faults 2; yes has b; exists make b 1; ok faults 2",
    ),
    // The disk of a new name stops where it was set to.
    (
        &[],
        [Some(0), None],
        "failed make n 1234; ok read n 4; ok disks 1; failed write n 0 5; ok write a 0 5; ok new w 1234; \
         failed write w 0 5",
    ),
    (
        &[],
        [Some(1), None],
        "failed make n 1234; ok read n 4 1234; ok disks 1; failed write n 0 5; ok write a 0 5; \
         ok new w 1234; failed write w 0 5",
    ),
    (
        &[],
        [Some(2), None],
        "ok make n 1234; ok read n 4 1234; ok disks 0; failed write n 0 5; ok write a 0 5; \
         ok new w 1234; ok write w 0 5",
    ),
    // A view fails where it was set to: at its second call, the one for the length.
    (
        &[],
        [None, Some(1)],
        "failed look a 5 fir; ok disks 1; failed look a 5 fir; ok disks 2; failed look e; ok faults 1",
    ),
];

/// A file of this name and these bytes.
fn file(alloc: Global, name: &str, text: &str) -> Result<(String, Vec<u8>), AllocError> {
    let bytes = Vec::from_slice(alloc, text.as_bytes())?;
    Ok((String::from_str(alloc, name)?, bytes))
}

/// The store whose calls of these numbers fail.
fn files(alloc: Global, failing: &[u64]) -> Result<MemStore, NoMemory> {
    let mut files = Vec::new(alloc);
    for (name, text) in &[("a", "first"), ("b", ""), ("a", "second file")] {
        files.push(file(alloc, name, text)?)?;
    }
    MemStore::of_files(alloc, files, Vec::from_slice(alloc, failing)?)
}

/// Makes a store stop the disks of new names, and fail views, if that is set.
fn set_up(store: &mut MemStore, stops: Option<u64>, fails: Option<u64>) {
    if let Some(call) = stops {
        store.stop_new_disks(call);
    }
    if let Some(call) = fails {
        store.fail_views(call);
    }
}

/// Does what a row says with a store in memory, and returns the first that went wrong, or nothing.
fn wrong_of(alloc: Global, row: &Row) -> &'static str {
    match files(alloc, row.0) {
        Ok(mut store) => {
            set_up(&mut store, row.1[0], row.1[1]);
            stores(&mut store, alloc, row.2)
        }
        Err(NoMemory) => "no memory",
    }
}

/// What stores in memory do.
#[test]
fn a_store_in_memory_does_what_it_is_set_to(rt: HostRuntime) {
    for row in &ROWS {
        none_wrong(&rt, wrong_of(rt.alloc(), row), row.2);
    }
}
