//! Leases the leaves of a table over a disk in memory and asks for them again, or makes only the calls of the disk that
//! leasing makes. `bench/leases` times both.

ghost use Rattle.std.specs.Prelude.{◌≡◌, IfSome};
ghost use Rattle.leaf_table.specs.Table.{plan_of};

use crate::{lack, refuse, word_and_number};
use coalition_map::Plan;
use disk_trait::{Disk, DiskFault, MemDisk};
use leaf_table::Table;
use lms_bytes::MessageId;
use slot_file::{Header, prepare};
use std::alloc::Global;
use std::io;

/// The words after the first.
const WORDS: &str = "lease or call, and how often";

/// How many leaves there are.
const LEAVES: u32 = 1024;

/// The length of their file in bytes.
const ROOM: usize = 131_200;

/// The header of the file.
fn header() -> Header
    ensures { result.version ≡ 1 }
{
    Header {
        version: 1,
        number: 0,
        lms: 6,
        ots: 3,
        id: [0x1d; 16],
    }
}

/// A disk with the file of a table whose leaves are all free.
fn prepared(alloc: Global) -> Option<MemDisk> {
    let mut disk = MemDisk::new(alloc, ROOM, usize::MAX).ok()?;
    prepare(&mut disk, &header(), LEAVES).ok()?;
    Some(disk)
}

/// A message's id, by a number.
fn message(number: u32) -> MessageId {
    let mut hash = [0x4d; 32];
    hash[..4].copy_from_slice(&number.reverse_bits().to_be_bytes());
    MessageId { length: 3, hash }
}

/// Asks `times` times for the leaf of a message, going over and over as many messages as there are leaves, and tells
/// how often it was the leaf of the message's number.
fn lease(table: &mut Table<MemDisk>, plan: &Plan, times: u32) -> u32 {
    let mut right: u32 = 0;
    for time in 0..times {
        let number = time % LEAVES;
        let members = plan.members(number % plan.count());
        if table.lease(members, &message(number)) == Ok(number) {
            right = right.saturating_add(1);
        }
    }
    right
}

/// Makes the calls of a put of body A.
fn put(disk: &mut MemDisk, number: u32) -> Result<(), DiskFault> {
    let place = 128 * (u64::from(number) + 1);
    disk.write_at(place + 4, &message(number).to_bytes())?;
    disk.sync()?;
    disk.write_at(place, &[0xB1])?;
    disk.sync()
}

/// Makes the calls of `times` puts, and tells how many succeeded.
fn call(disk: &mut MemDisk, times: u32) -> u32 {
    let mut right: u32 = 0;
    for time in 0..times {
        if put(disk, time % LEAVES).is_ok() {
            right = right.saturating_add(1);
        }
    }
    right
}

/// Makes the calls of `times` puts on a new disk.
fn call_new(alloc: Global, times: u32) -> Option<u32> {
    let mut disk = prepared(alloc)?;
    Some(call(&mut disk, times))
}

/// A new table of coalitions of three of five trustees.
fn table_of(alloc: Global, plan: &Plan) -> Option<Table<MemDisk>>
    ensures { IfSome result (λ table. plan_of table ≡ plan.now) }
{
    Table::load(alloc, prepared(alloc)?, &header(), plan).ok()
}

/// Leases `times` times from a new table.
fn lease_new(alloc: Global, times: u32) -> Option<u32> {
    let plan = Plan::new(5, 3, 10).ok()?;
    let mut table = table_of(alloc, &plan)?;
    Some(lease(&mut table, &plan, times))
}

/// Does one or the other `times` times.
fn repeat(alloc: Global, way: &str, times: u32) -> Option<u32> {
    if way == "call" {
        call_new(alloc, times)
    } else {
        lease_new(alloc, times)
    }
}

/// Prints how often it went right, and gives the status.
fn print_right(rt: HostRuntime, right: u32, times: u32) -> io::Result<u8> {
    println!(rt; "{right} of {times}")?;
    Ok(0)
}

/// Leases or calls `times` times, and gives the status.
fn run_way(rt: HostRuntime, way: &str, times: u32) -> io::Result<u8> {
    match repeat(rt.alloc(), way, times) {
        Some(right) => print_right(rt, right, times),
        None => lack(rt),
    }
}

/// Leases or calls as the words say, and gives the status.
pub(crate) fn run(rt: HostRuntime, words: &[String]) -> io::Result<u8> {
    match word_and_number(words) {
        Some((way, times)) => run_way(rt, way, times),
        None => refuse(rt, WORDS),
    }
}
