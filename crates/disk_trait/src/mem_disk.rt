//! A disk in memory, which tells its content and keeps the model of crashes.

ghost use Rattle.std.specs.Prelude.{◌≡◌, ◌≤◌, ◌+◌, ◌-◌, ◌^◌, ◌&&◌, true, false, [], length, vec_len, take};
ghost use Rattle.std.specs.Prelude.{drop, replicate, IfOk, IfErr, OnOk, Some, Err, Ok, if◌then◌else◌};
ghost use Rattle.disk_trait.specs.Images.{written, Torn, Follows};
ghost use Rattle.disk_trait.specs.MemDiskLaws.{leaves_bytes};
ghost use Rattle.disk_trait.specs.MemDisk.{stable_disk, is_steady, is_listed, sync_fails, read_fails, has_room};
ghost use Rattle.disk_trait.specs.MemDisk.{write_fails, called, changed, with_written, with_named, with_stable, named};
ghost use Rattle.disk_trait.specs.MemDisk.{MayLeave, filled, crash_image};

use crate::{Disk, DiskFault, Faults, Generator, Pages};
use memory::NoMemory;
use std::alloc::Global;
use std::marker::Model;

/// A disk in memory. It tells its content, it is honest, and it is steady while no call is listed
/// to fail and no bound on calls is set. It takes memory only when it is made.
#[derive(Drop)]
pub struct MemDisk {
    bytes: Vec<u8>,
    stable: Vec<u8>,
    pending: Vec<bool>,
    len: usize,
    stable_len: usize,
    bound: usize,
    changes: usize,
    calls: u64,
    fails: Option<u64>,
    stops: Option<u64>,
    faults: u64,
}

impl Model for MemDisk {
    ghost use Rattle.disk_trait.specs.MemDisk.{MemState};

    ghost Value = { MemState };

    ghost use Rattle.disk_trait.specs.MemDiskFields.{state_of, IsWhole};

    ghost view = { state_of };

    ghost invariant = { IsWhole };
}

// Writes over part of a buffer.
fn put(buffer: &mut Vec<u8>, at: usize, bytes: &[u8])
    requires { at + length bytes.now ≤ vec_len buffer.old }
    ensures items { buffer.new.items ≡ written buffer.old.items at bytes.now }
    ensures len { vec_len buffer.new ≡ vec_len buffer.old }
{
    buffer[at..at + bytes.len()].copy_from_slice(bytes);
}

// Marks part of a buffer.
fn mark(pending: &mut Vec<bool>, from: usize, to: usize, value: bool)
    requires order { from ≤ to }
    requires within { to ≤ vec_len pending.old }
    ensures items { pending.new.items ≡ written pending.old.items from (replicate (to - from) value) }
    ensures len { vec_len pending.new ≡ vec_len pending.old }
{
    pending[from..to].fill(value);
}

// Draws the bytes that are pending.
fn draw_pending(bytes: &mut [u8], pending: &[bool], pick: u64)
    requires { length pending.now ≡ length bytes.old }
    ensures { bytes.new ≡ filled bytes.old pending.now pick }
{
    let mut generator = Generator { state: pick };
    for i in 0..bytes.len() {
        if pending[i] {
            bytes[i] = (generator.draw() % 256) as u8;
        }
    }
}

// A buffer that begins with these bytes.
fn buffer_of(alloc: Global, bytes: &[u8], capacity: usize) -> Result<Vec<u8>, NoMemory>
    requires { length bytes.now ≤ capacity }
    ensures begins { IfOk result (λ buffer. take (length bytes.now) buffer.items ≡ bytes.now) }
    ensures size { IfOk result (λ buffer. length buffer.items ≡ capacity) }
{
    let mut buffer = vec![in alloc; 0; capacity]?;
    put(&mut buffer, 0, bytes);
    Ok(buffer)
}

impl MemDisk {
    /// An empty disk with room for `capacity` bytes, whose writes and syncs fail after `calls` of
    /// them; `usize::MAX` sets no such bound.
    pub fn new(alloc: Global, capacity: usize, calls: usize) -> Result<MemDisk, NoMemory>
        ensures { IfOk result (λ disk. disk ≡ stable_disk [] capacity calls) }
    {
        MemDisk::of_bytes(alloc, &[], capacity, calls)
    }

    /// As `new`, with these bytes, all of them stable.
    pub fn of_bytes(
        alloc: Global,
        bytes: &[u8],
        capacity: usize,
        calls: usize,
    ) -> Result<MemDisk, NoMemory>
        requires { length bytes.now ≤ capacity }
        ensures { IfOk result (λ disk. disk ≡ stable_disk bytes.now capacity calls) }
    {
        Ok(MemDisk {
            bytes: buffer_of(alloc, bytes, capacity)?,
            stable: buffer_of(alloc, bytes, capacity)?,
            pending: vec![in alloc; false; capacity]?,
            len: bytes.len(),
            stable_len: bytes.len(),
            bound: calls,
            changes: 0,
            calls: 0,
            fails: None,
            stops: None,
            faults: 0,
        })
    }

    /// Makes the call of this number fail, counted from 0 over the disk's life. A second number
    /// takes the place of the first.
    pub fn fail_once(&mut self, call: u64)
        ensures { self.new ≡ record self.old { fails = Some call } }
    {
        self.fails = Some(call);
    }

    /// Makes the call of this number and all later ones fail.
    pub fn stop_at(&mut self, call: u64)
        ensures { self.new ≡ record self.old { stops = Some call } }
    {
        self.stops = Some(call);
    }

    /// Whether no call is listed to fail and no bound on calls is set.
    pub fn is_steady(&self) -> bool
        ensures { result ≡ is_steady self.now }
    {
        self.fails.is_none() && self.stops.is_none() && self.bound == usize::MAX
    }

    /// How many bytes it has room for, no fewer than are there.
    pub fn capacity(&self) -> usize
        ensures value { result ≡ self.now.capacity }
        ensures has_room { length self.now.bytes ≤ self.now.capacity }
    {
        self.bytes.len()
    }

    /// What a read gives.
    pub fn bytes(&self) -> &[u8]
        ensures { result.now ≡ self.now.bytes }
    {
        &self.bytes[..self.len]
    }

    /// One image that a crash may leave, all stable and steady, with the same capacity: for pick 0
    /// what was stable, for pick 1 what a read gives, and for any other what a read gives with the
    /// pending bytes drawn from a generator that begins with the pick.
    pub fn crash(self, alloc: Global, pick: u64) -> Result<MemDisk, (MemDisk, NoMemory)>
        ensures image { IfOk result (λ disk.
            disk ≡ stable_disk (crash_image self pick) self.capacity (2 ^ 64 - 1)) }
        ensures allowed { MayLeave self (crash_image self pick) }
        ensures unchanged { IfErr result (λ e. e.0 ≡ self) }
    {
        let made = match pick {
            0 => self.with_image(alloc, &self.stable[..self.stable_len]),
            1 => self.with_image(alloc, &self.bytes[..self.len]),
            _ => self.with_drawn(alloc, pick),
        };
        match made {
            Ok(image) => Ok(image),
            Err(NoMemory) => Err((self, NoMemory)),
        }
    }

    // A disk of the same capacity with this image.
    fn with_image(&self, alloc: Global, image: &[u8]) -> Result<MemDisk, NoMemory>
        requires { length image.now ≤ self.now.capacity }
        ensures { IfOk result (λ disk. disk ≡ stable_disk image.now self.now.capacity (2 ^ 64 - 1)) }
    {
        MemDisk::of_bytes(alloc, image, self.bytes.len(), usize::MAX)
    }

    // A disk of the same capacity whose pending bytes are drawn.
    fn with_drawn(&self, alloc: Global, pick: u64) -> Result<MemDisk, NoMemory>
        ensures { IfOk result (λ disk.
            disk ≡ stable_disk (filled self.now.bytes self.now.pending pick) self.now.capacity (2 ^ 64 - 1)) }
    {
        let mut image = self.bytes[..self.len].to_vec(alloc)?;
        draw_pending(&mut image, &self.pending[..self.len], pick);
        self.with_image(alloc, &image)
    }

    // Whether the call that comes is listed to fail.
    fn is_listed(&self) -> bool
        ensures { result ≡ is_listed self.now }
    {
        self.fails == Some(self.calls) || self.stops.is_some_and(|from| from <= self.calls)
    }

    // Whether a write or a sync that comes fails whatever its arguments are.
    fn is_refusing(&self) -> bool
        ensures value { result ≡ sync_fails self.now }
        ensures has_room { length self.now.bytes ≤ self.now.capacity }
    {
        self.is_listed() || self.bound != usize::MAX && self.bound <= self.changes
    }

    // Whether a write of `n` bytes begins within what is there, and ends within the room.
    fn has_room(&self, at: u64, n: usize) -> bool
        ensures { result ≡ has_room self.now at n }
    {
        at <= self.len as u64 && n <= self.bytes.len() - at as usize
    }

    // Whether a write of `n` bytes fails.
    fn is_refusing_write(&self, at: u64, n: usize) -> bool
        ensures { result ≡ write_fails self.now at n }
    {
        self.is_refusing() || !self.has_room(at, n)
    }

    // Whether a read of `n` bytes fails.
    fn is_refusing_read(&self, at: u64, n: usize) -> bool
        ensures { result ≡ read_fails self.now at n }
    {
        let len = self.len as u64;
        self.is_listed() || len < at || len - at < n as u64
    }

    // Marks a range as named.
    fn name(&mut self, at: u64, n: usize)
        ensures after { self.new ≡ record self.old { pending = named self.old.pending at n } }
        ensures images { Follows (Torn at n) (MayLeave self.old) (MayLeave self.new) }
    {
        let from = self.len.min(at as usize);
        let to = self.len.min(from.saturating_add(n));
        mark(&mut self.pending, from, to, true);
    }

    // Writes over what is there, and past its end.
    fn put_at(&mut self, at: usize, bytes: &[u8])
        requires within { at ≤ length self.old.bytes }
        requires fits { at + length bytes.now ≤ self.old.capacity }
        ensures after { self.new ≡ record self.old {
          bytes = written self.old.bytes at bytes.now;
          pending = written self.old.pending at (replicate (length bytes.now) true);
        } }
        ensures images { Follows (Torn at (length bytes.now)) (MayLeave self.old) (MayLeave self.new) }
    {
        put(&mut self.bytes, at, bytes);
        let end = at + bytes.len();
        mark(&mut self.pending, at, end, true);
        self.len = self.len.max(end);
    }

    // Copies what is there.
    fn read_into(&self, at: usize, out: &mut [u8])
        requires { at + length out.old ≤ length self.now.bytes }
        ensures { out.new ≡ take (length out.old) (drop at self.now.bytes) }
    {
        let bytes = &self.bytes[..self.len];
        out.copy_from_slice(&bytes[at..at + out.len()]);
    }

    // Makes what is there stable.
    fn settle(&mut self)
        ensures { self.new ≡ record self.old {
          stable = self.old.bytes;
          pending = replicate (length self.old.bytes) false;
        } }
    {
        let len = self.len;
        put(&mut self.stable, 0, &self.bytes[..len]);
        mark(&mut self.pending, 0, len, false);
        self.stable_len = len;
    }

    // Counts a call, and whether it fails.
    fn call(&mut self, fails: bool)
        ensures { self.new ≡ called fails self.old }
    {
        self.calls = self.calls.saturating_add(1);
        if fails {
            self.faults = self.faults.saturating_add(1);
        }
    }

    // Counts a write or a sync, and whether it fails.
    fn change(&mut self, fails: bool)
        ensures { self.new ≡ changed fails self.old }
    {
        self.call(fails);
        self.changes = self.changes.saturating_add(1);
    }
}

impl Faults for MemDisk {
    ghost count = { λ disk. disk.faults };

    ghost steady = { is_steady };

    fn faults(&self) -> u64 {
        self.faults
    }
}

impl Pages for MemDisk {
    ghost told = { λ _. true };

    ghost reads = { λ disk. disk.bytes };

    ghost room = { λ disk. disk.capacity };

    ghost honest = { λ _. true };

    ghost may_leave = { MayLeave };

    fn len(&mut self) -> Result<u64, DiskFault>
        ensures outcome { result ≡ (if is_listed self.old then Err (record {}) else Ok (length self.old.bytes)) }
        ensures after { self.new ≡ called (is_listed self.old) self.old }
    {
        if self.is_listed() {
            self.call(true);
            return Err(DiskFault);
        }
        let len = self.len as u64;
        self.call(false);
        Ok(len)
    }

    fn read_at(&mut self, at: u64, out: &mut [u8]) -> Result<(), DiskFault>
        ensures outcome { result ≡ (if read_fails self.old at (length out.old) then Err (record {}) else Ok tt) }
        ensures bytes { OnOk result (out.new ≡ take (length out.old) (drop at self.old.bytes)) }
        ensures after { self.new ≡ called (read_fails self.old at (length out.old)) self.old }
    {
        if self.is_refusing_read(at, out.len()) {
            self.call(true);
            return Err(DiskFault);
        }
        self.read_into(at as usize, out);
        self.call(false);
        Ok(())
    }
}

impl Disk for MemDisk {
    fn write_at(&mut self, at: u64, bytes: &[u8]) -> Result<(), DiskFault>
        ensures outcome { result ≡ (if write_fails self.old at (length bytes.now) then Err (record {}) else Ok tt) }
        ensures after { self.new ≡ (if write_fails self.old at (length bytes.now)
            then with_named self.old at (length bytes.now)
            else with_written self.old at bytes.now) }
        ensures images { Follows (Torn at (length bytes.now)) (MayLeave self.old) (MayLeave self.new) }
    {
        if self.is_refusing_write(at, bytes.len()) {
            self.name(at, bytes.len());
            self.change(true);
            return Err(DiskFault);
        }
        self.put_at(at as usize, bytes);
        self.change(false);
        Ok(())
    }

    fn sync(&mut self) -> Result<(), DiskFault>
        ensures outcome { result ≡ (if sync_fails self.old then Err (record {}) else Ok tt) }
        ensures after { self.new ≡ (if sync_fails self.old then changed true self.old else with_stable self.old) }
        ensures has_room { length self.old.bytes ≤ self.old.capacity }
    {
        if self.is_refusing() {
            self.change(true);
            return Err(DiskFault);
        }
        self.settle();
        self.change(false);
        Ok(())
    }

    ghost leaves_reads = { leaves_bytes };

    ghost leaves_no_longer = { λ _ _ _ _ leaves. leaves.no_longer };
}
