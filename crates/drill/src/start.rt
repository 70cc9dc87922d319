//! The start of a drill.

ghost use Rattle.std.specs.Prelude.{◌≡◌, ◌<◌, ℕ, length, IfOk};
ghost use Rattle.drill.specs.Courses.{IsGood, IsSettled, uses_of};
ghost use Rattle.drill.specs.Ids.{DifferentIds};
ghost use Rattle.drill.specs.Drills.{IsFor, IsTableFor};
ghost use Rattle.drill.specs.Keys.{HasDealing};
ghost use Rattle.drill.specs.Seats.{AreWaiting};
ghost use Rattle.leaf_table.specs.Entries.{IsFree};

use crate::desk::Desk;
use crate::openings::Openings;
use crate::seat::Seat;
use crate::state::Drill;
use disk_trait::MemDisk;
use drill_trustees::Trustees;
use leaf_table::Table;
use memory::NoMemory;
use slot_file::{CacheLoad, Header, prepare};
use std::alloc::Global;

/// The bytes of a leaf table with a slot for each leaf.
const ROOM: usize = 4224;

/// How many leaves the key of a drill has.
const LEAVES: u32 = 32;

/// A table that has leased nothing.
fn new_table(alloc: Global, desk: &Desk) -> Result<Table<MemDisk>, NoMemory>
    ensures table { IfOk result (IsTableFor desk.now) }
    ensures settled { IfOk result (λ table. IsSettled table) }
    ensures free { IfOk result (λ table. (q : ℕ) → q < 32 → uses_of table q ≡ IsFree) }
{
    let header = Header {
        version: 1,
        number: 0,
        lms: desk.params().lms,
        ots: desk.params().ots,
        id: desk.key().id,
    };
    let mut disk = MemDisk::new(alloc, ROOM, usize::MAX)?;
    match prepare(&mut disk, &header, LEAVES) {
        Ok(()) => {}
        Err(_) => unreachable!(),
    }
    match Table::load(alloc, disk, &header, &desk.plan) {
        Ok(table) => Ok(table),
        Err((_, fault)) => Err(memory_fault(fault)),
    }
}

/// The one fault that loading a file that was just made may have, on a steady disk.
fn memory_fault(fault: CacheLoad) -> NoMemory
    requires { fault ≡ CacheLoad.NoMemory }
{
    match fault {
        CacheLoad::NoMemory => NoMemory,
        _ => unreachable!(),
    }
}

/// This number of sessions, all waiting.
fn waiting(alloc: Global, sessions: u32) -> Result<Vec<Seat>, NoMemory>
    ensures count { IfOk result (λ seats. length seats.items ≡ sessions) }
    ensures waiting { IfOk result (λ seats. AreWaiting seats.items) }
{
    let mut seats = Vec::with_capacity(alloc, sessions as usize)?;
    'sessions: for i in 0..sessions {
        seats.push(Seat::Waiting)?;
    }
    Ok(seats)
}

/// A drill in which nothing has happened yet.
pub(crate) fn start(alloc: Global, desk: &Desk, sessions: u32) -> Result<Drill, NoMemory>
    ensures is_for { IfOk result (IsFor desk.now) }
    ensures count { IfOk result (λ drill. length drill.seats.items ≡ sessions) }
    ensures waiting { IfOk result (λ drill. AreWaiting drill.seats.items) }
    ensures good { (own : HasDealing desk.now.plan desk.now.dealt) → DifferentIds sessions
        → IfOk result (IsGood desk.now own.dealing) }
{
    // The trustees hold the most, and are made last, so that no failure has to drop them.
    Ok(Drill {
        seats: waiting(alloc, sessions)?,
        table: new_table(alloc, desk)?,
        trustees: Trustees::new(alloc, &desk.dealt.shares)?,
        openings: Openings::new(alloc),
    })
}
