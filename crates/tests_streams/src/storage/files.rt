//! Tests of the store of files and of disks over files that are no files: which calls succeed, and what the system is
//! asked.

use crate::scripts::disk_calls::plays;
use crate::scripts::none_wrong;
use crate::storage::fake_files::{FakeFile, FakeFiles, Record};
use crate::storage::kept_files::{Out, wrong_in};
use std::alloc::{AllocError, Global};
use std::io;
use std::sync::Arc;
use stream_host::FileDisk;

/// Which names the files have, what is done with a store of them, and all that the system is asked.
type Row = (usize, &'static str, &'static str);

static ROWS: [Row; 40] = [
    // A new file is whole and stable, or not there.
    (
        0,
        "ok new in/a xyz; ok faults 0",
        "ma ncn  wnx wny wnz sn  la  rn  oi  si  ",
    ),
    (0, "failed new in/a xyz; ok faults 1", "ma x"),
    (0, "memory new in/a xyz; ok faults 0", "ma m"),
    (0, "failed new in/a xyz; ok faults 1", "ma ncn e"),
    (0, "memory new in/a xyz; ok faults 0", "ma ncn m"),
    (0, "failed new in/a xyz; ok faults 1", "ma ncn  wnxfrn  "),
    (
        0,
        "failed new in/a xyz; ok faults 1",
        "ma ncn  wnx wny wnz sn xrn  ",
    ),
    (
        0,
        "exists new in/a xyz; ok faults 0",
        "ma ncn  wnx wny wnz sn  la ern  ",
    ),
    (
        0,
        "failed new in/a xyz; ok faults 1",
        "ma ncn  wnx wny wnz sn  la xrn  ",
    ),
    (
        0,
        "ok new in/a xyz; ok faults 0",
        "ma ncn  wnx wny wnz sn  la lca  wax way waz sa  rn  oi  si  ",
    ),
    (
        0,
        "ok new in/a xyz; ok faults 0",
        "ma ncn  wnx wny wnz sn  la pca  wax way waz sa  rn  oi  si  ",
    ),
    (
        0,
        "failed new in/a xyz; ok faults 1",
        "ma ncn  wnx wny wnz sn  la  rn xra  ",
    ),
    (
        0,
        "failed new in/a xyz; ok faults 1",
        "ma ncn  wnx wny wnz sn  la  rn  oi xra  ",
    ),
    (
        0,
        "failed new in/a xyz; ok faults 1",
        "ma ncn  wnx wny wnz sn  la  rn  oi  si xra  ",
    ),
    // The folder that is synced is what stands before the last part of a name.
    (
        1,
        "ok new b xyz",
        "ma ncn  wnx wny wnz sn  la  rn  oi  si  ",
    ),
    (
        2,
        "ok new a/b xyz",
        "ma ncn  wnx wny wnz sn  la  rn  oi  si  ",
    ),
    (
        3,
        "ok new a/b/c xyz",
        "ma ncn  wnx wny wnz sn  la  rn  oi  si  ",
    ),
    (
        4,
        "ok new /b xyz",
        "ma ncn  wnx wny wnz sn  la  rn  oi  si  ",
    ),
    // A disk is locked, and a new one is stable before that. A disk and a view are of a regular file.
    (0, "ok make in/a x; ok faults 0", "ca  ka  oi  si  0ax sa  "),
    (0, "exists make in/a x; ok faults 0", "ca e"),
    (0, "memory make in/a x; ok faults 0", "ca m"),
    (0, "failed make in/a x; ok faults 1", "ca  ka wra  "),
    (0, "failed make in/a x; ok faults 1", "ca  ka  oi xra  "),
    (0, "failed make in/a x; ok faults 1", "ca  ka  oi  si xra  "),
    (
        0,
        "ok write in/a 0 x; ok faults 0; ok disks 0",
        "ma  ua  ma  ka  0ax sa  ",
    ),
    (0, "memory write in/a 0 x; ok faults 0", "ma m"),
    (0, "memory write in/a 0 x; ok faults 0", "ma  ua m"),
    (0, "failed write in/a 0 x; ok faults 1", "ma n"),
    (0, "failed write in/a 0 x; ok faults 1", "ma d"),
    (0, "failed write in/a 0 x; ok faults 1", "ma  ua  ma d"),
    (0, "failed write in/a 0 x; ok faults 1", "ma  ua  ma  ka w"),
    (
        0,
        "ok look in/a 3 xyz; ok faults 0; ok disks 0",
        "ma  oa  ma  ga0 ga1 ga2 ma  ",
    ),
    (0, "memory look in/a 3 xyz; ok faults 0", "ma  oa m"),
    (0, "failed look in/a 3 xyz; ok faults 1", "ma n"),
    (0, "failed look in/a 3 xyz; ok faults 1", "ma d"),
    // They bring their faults back.
    (
        0,
        "failed write in/a 0 x; ok disks 1; failed look in/a 3 xyzz; ok disks 2; ok faults 0",
        "ma  ua  ma  ka  0ax sa xma  oa  ma  ga0 ga1 ga2 ga30",
    ),
    // Running out of memory is no fault.
    (
        0,
        "yes has in/a; ok read in/a 3 xyz; ok faults 0",
        "ma  oa  ma  ga0 ga1 ga2 ga30",
    ),
    (
        0,
        "yes has in/a; memory read in/a 3 xyz; ok faults 0",
        "ma  oa m",
    ),
    (
        0,
        "memory has in/a; memory read in/a 3 xyz; ok faults 0",
        "ma moa  ma m",
    ),
    (
        0,
        "failed has in/a; failed read in/a 3 xyz; ok faults 2",
        "ma xoa  ma x",
    ),
];

/// Does what a row says with a store, and returns what went wrong, or nothing.
fn wrong_of(alloc: Global, row: &Row) -> Result<&'static str, AllocError> {
    let record = Record::new(alloc, row.0, 0, row.2)?;
    let wrong = wrong_in(FakeFiles(&record), alloc, &[(Out::Nothing, row.1)]);
    Ok(record.wrong(wrong, row.2))
}

/// What a store asks of files that are made up.
#[test]
fn a_store_asks_files_for_what_it_has_to(rt: HostRuntime) {
    for row in &ROWS {
        let wrong = wrong_of(rt.alloc(), row).unwrap_or("no memory");
        none_wrong(&rt, wrong, row.1);
    }
}

/// How many bytes lie before a file that somebody reads or writes, what is done on a disk over it, and what the file
/// is asked.
type Over = (u64, &'static str, &'static str);

static OVER: [Over; 6] = [
    // Short reads and writes go on, and a write that takes nothing fails.
    (
        0,
        "ok write 0 abcdef; ok read 0 xyz; failed read 1 xyz; failed write 6 gh; ok faults 2",
        "0aa 1ab 2ac 3ad 4ae 5af ga0 ga1 ga2 ga1 ga2 ga306ag 7ah0",
    ),
    // A call of a file is made again after a signal.
    (
        0,
        "ok write 0 ab; ok read 0 xy; ok faults 0",
        "0aai0aa 1abi1ab ga0iga0 ga1 ",
    ),
    // Offsets are passed on whole.
    (
        20_000_000_000,
        "ok write 20000000001 abc; ok length 20000000003; ok read 20000000001 yz; failed read 1 a; ok faults 1",
        "ma  1aa 2ab 3ac ma  ga1 ga2 ga?x",
    ),
    // After growth, a sync is of all.
    (
        0,
        "ok length 3; ok write 0 a; ok sync; ok write 1 b; ok sync; ok write 3 c; ok sync; \
         ok write 3 d; ok sync; failed write 7; ok sync; ok write 4 e; ok sync; \
         failed write 8 x; ok sync; ok write 5 f; ok sync; failed write 6 ghij; ok sync; ok faults 3",
        "ma  0aa sa  1ab da  3ac sa  3ad da  ma  da  4ae sa  ma  da  5af sa  6ag 7ah0sa  ",
    ),
    // A failed sync is never forgotten: no later one asks the file.
    (
        0,
        "ok faults 0; failed sync; failed sync; ok write 0 abc; failed sync; ok faults 3",
        "sa x0aa 1ab 2ac ",
    ),
    (
        0,
        "ok sync; failed sync; failed sync; ok write 0 abc; failed sync; ok faults 3",
        "sa  da x0aa 1ab 2ac ",
    ),
];

/// Does the calls of a script on a disk over the file of a record, and returns the first that went wrong, or nothing.
fn wrong_at(record: &Arc<Record>, script: &'static str) -> io::Result<&'static str> {
    let file = FakeFile::new(record, b'a')?;
    Ok(plays(&mut FileDisk::unlocked(file), script))
}

/// Does what a row says with a disk over a file, and returns what went wrong, or nothing.
fn wrong_over(alloc: Global, row: &Over) -> io::Result<&'static str> {
    let record = Record::new(alloc, 0, row.0, row.2)?;
    let wrong = wrong_at(&record, row.1)?;
    Ok(record.wrong(wrong, row.2))
}

/// What a disk asks of a file that is made up.
#[test]
fn a_disk_asks_a_file_for_what_it_has_to(rt: HostRuntime) {
    for row in &OVER {
        let wrong = wrong_over(rt.alloc(), row).unwrap_or("no memory");
        none_wrong(&rt, wrong, row.1);
    }
}
