//! Tests of disks over files of the machine, and over files in memory that do as little as a system may.

use crate::scripts::disk_calls::plays;
use crate::scripts::{is_text, none_wrong};
use disk_trait::MemDisk;
use memory::NoMemory;
use std::alloc::Global;
use std::fs::{File, OpenOptions, remove_file};
use std::io;
use std::test::Fail;
use stream_host::{FileDisk, HostFile};
use stream_memory::MemFile;

/// Opens a file for reading and writing, and makes it if it is not there.
fn open(rt: &HostRuntime, name: &str) -> io::Result<File> {
    let mut how = OpenOptions::new();
    how.read(true).write(true).create(true);
    how.open(rt, name)
}

/// A disk over a file of the machine, with its lock.
fn locked(rt: &HostRuntime, name: &str) -> io::Result<FileDisk<HostFile<File>>> {
    FileDisk::locked(open(rt, name)?)
}

/// Whether a file of the machine cannot be locked, though it can be opened.
fn is_locked(rt: &HostRuntime, name: &str) -> io::Result<bool> {
    Ok(FileDisk::locked(open(rt, name)?).is_err())
}

/// Does the calls of a script on a disk over a file of the machine, and returns the first that went wrong, or nothing.
fn wrong_at(mut disk: FileDisk<HostFile<File>>, script: &'static str) -> &'static str {
    plays(&mut disk, script)
}

/// The same with a disk that locks nothing.
fn wrong_without_lock(
    rt: &HostRuntime,
    name: &str,
    script: &'static str,
) -> io::Result<&'static str> {
    Ok(wrong_at(FileDisk::unlocked(open(rt, name)?), script))
}

/// A file of the machine as a disk, with its lock.
#[test]
fn a_file_is_a_disk(rt: HostRuntime) -> Result<(), Fail> {
    let name = "a_file_is_a_disk.bin";
    let disk = locked(&rt, name)?;
    assert!(rt; is_locked(&rt, name)?, "locked twice");
    let script = "ok write 0 abcdef; ok sync; ok write 4 XYZ; ok sync; ok length 7; ok read 4 XYZ";
    none_wrong(&rt, wrong_at(disk, script), script);
    let script = "ok read 4 XYZ; failed read 5 ...; ok faults 1";
    none_wrong(&rt, wrong_without_lock(&rt, name, script)?, script);
    Ok(remove_file(&rt, name)?)
}

/// How many bytes at most a call of a file moves, which call of it fails, what is done on a disk over it, and what a
/// crash of this pick then leaves.
type Crash = (usize, Option<u64>, &'static str, u64, &'static str);

static CRASHES: [Crash; 6] = [
    (
        1,
        None,
        "ok write 0 abcdef; ok sync; ok write 4 XYZ; ok read 3 dXYZ",
        0,
        "abcdef",
    ),
    (
        1,
        None,
        "ok write 0 abcdef; ok sync; ok write 4 XYZ; ok read 3 dXYZ",
        5,
        "abcda;t",
    ),
    (
        4,
        None,
        "ok write 0 abcdef; ok sync; ok write 4 XYZ; ok sync; ok length 7",
        0,
        "abcdXYZ",
    ),
    (
        4,
        None,
        "ok write 0 abcdef; ok sync; ok write 1 xy; ok sync; ok read 0 axydef",
        1,
        "axydef",
    ),
    (
        16,
        None,
        "ok write 0 abc; ok sync; ok write 3 de; ok write 0 h; ok sync; failed write 7 x; failed read 4 xy; \
         ok faults 2",
        7,
        "hbcde",
    ),
    // A failed sync is not forgotten.
    (
        2,
        Some(4),
        "ok write 0 abc; ok sync; ok write 0 x; failed sync; failed sync; ok faults 2",
        0,
        "abc",
    ),
];

/// A disk in memory whose call of this number fails, if there is one.
fn disk_of(alloc: Global, fails: Option<u64>) -> Result<MemDisk, NoMemory> {
    let mut disk = MemDisk::new(alloc, 16, usize::MAX)?;
    if let Some(call) = fails {
        disk.fail_once(call);
    }
    Ok(disk)
}

/// Whether a crash of this pick leaves these bytes.
fn leaves(alloc: Global, disk: MemDisk, pick: u64, want: &str) -> bool {
    match disk.crash(alloc, pick) {
        Ok(image) => is_text(image.bytes(), want),
        Err(_) => false,
    }
}

/// Does the calls of a row on a disk over a file, and returns what went wrong, or nothing.
fn wrong_over(alloc: Global, row: &Crash, below: MemDisk) -> &'static str {
    let mut disk = FileDisk::over(MemFile::new(below, row.0));
    let wrong = plays(&mut disk, row.2);
    let is_left = leaves(alloc, disk.into_file().into_disk(), row.3, row.4);
    if wrong.is_empty() && !is_left {
        "what is left"
    } else {
        wrong
    }
}

/// Does what a row says, and returns what went wrong, or nothing.
fn wrong_of(alloc: Global, row: &Crash) -> &'static str {
    match disk_of(alloc, row.1) {
        Ok(below) => wrong_over(alloc, row, below),
        Err(NoMemory) => "no memory",
    }
}

/// What a crash leaves below a disk over a file.
#[test]
fn a_disk_over_the_least_of_files_is_a_disk(rt: HostRuntime) {
    for row in &CRASHES {
        none_wrong(&rt, wrong_of(rt.alloc(), row), row.2);
    }
}
