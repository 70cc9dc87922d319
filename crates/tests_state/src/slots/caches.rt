//! Caches of slots: what is kept, and how a put that was refused is settled.

ghost use Rattle.std.specs.Prelude.{◌≡◌, ◌<◌};
ghost use Rattle.slot_file.specs.Cache.{count_of, header_of};

use crate::disks::{failing_file, free_file, header, stopping_file, with_byte};
use disk_trait::{DiskFault, MemDisk};
use slot_file::{CacheLoad, CachedSlots, Doubted, LoadFault, SettleFault, Settled, Slot};
use std::alloc::Global;
use std::process::Abort;

const A: [u8; 36] = [0xAA; 36];

const B: [u8; 64] = [0xBB; 64];

/// A cache of a file of eight slots.
#[derive(Drop)]
struct Cache {
    slots: CachedSlots<MemDisk>,
    ghost version: { (header_of slots).version ≡ 1 },
    ghost count: { count_of slots ≡ 8 },
}

impl Cache {
    /// Loads the file of a disk, if it loads.
    fn load(alloc: Global, disk: MemDisk) -> Result<Cache, CacheLoad> {
        match CachedSlots::load(alloc, disk, &header(1, 3), 8) {
            Ok(slots) => Ok(Cache { slots }),
            Err((_, fault)) => Err(fault),
        }
    }

    /// Loads the file of a disk.
    fn open(rt: &impl Abort, alloc: Global, disk: MemDisk) -> Cache {
        Cache::load(alloc, disk).expect(rt, "load")
    }

    /// Puts the next body into slot 1, if no put is in doubt.
    fn put_next(&mut self) -> Result<(), DiskFault> {
        match (self.slots.doubt(), *self.slots.slot(1)) {
            (None, Slot::Free) => self.slots.put_a(1, &A),
            (None, Slot::Half(_)) => self.slots.put_b(1, &B, 0),
            _ => Ok(()),
        }
    }

    /// Whether a slot is kept in this state.
    fn has(&self, slot: u32, want: Slot) -> bool
        requires { slot < 8 }
    {
        *self.slots.slot(slot) == want
    }

    /// Whether settling answers this.
    fn settles(&mut self, want: Result<Settled, SettleFault>) -> bool {
        self.slots.settle() == want
    }

    /// Whether no put is in doubt.
    fn is_sure(&self) -> bool {
        self.slots.doubt().is_none()
    }

    /// Whether body A in slot 1 is in doubt, and the slot is kept as free.
    fn is_doubted(&self) -> bool {
        let after = Slot::Half(A);
        let doubted = self.slots.doubt() == Some(Doubted { slot: 1, after });
        doubted & self.has(1, Slot::Free)
    }

    /// Gives the disk back.
    fn end(self) -> MemDisk {
        self.slots.end()
    }
}

/// Whether a cache is sure, has eight slots and nothing to settle, and its last slot is free.
fn is_idle(cache: &mut Cache) -> bool {
    let idle = cache.settles(Ok(Settled::Nothing));
    let count = cache.slots.count() == 8;
    idle & count & cache.is_sure() & cache.has(7, Slot::Free)
}

/// Whether both bodies are put into slot 1 of a cache that is idle.
fn puts_both(cache: &mut Cache) -> bool {
    let idle = is_idle(cache);
    let first = cache.put_next().is_ok();
    let second = cache.put_next().is_ok();
    idle & first & second
}

/// Whether slot 1 has both bodies, and slot 0 is free.
fn has_both(cache: &Cache) -> bool {
    cache.has(1, Slot::Full(A, B, 0)) & cache.has(0, Slot::Free)
}

#[test]
fn slots_are_kept(rt: HostRuntime) {
    let disk = free_file(&rt, rt.alloc(), &header(1, 3), 8);
    let mut cache = Cache::open(&rt, rt.alloc(), disk);
    let put = puts_both(&mut cache);
    assert!(rt; put & has_both(&Cache::open(&rt, rt.alloc(), cache.end())));
}

/// Puts body A into slot 1, which fails, and settles it: whether that finds this, and keeps the slot in this state.
fn settles_as(cache: &mut Cache, found: Settled, kept: Slot) -> bool {
    let refused = cache.put_next().is_err();
    let doubted = cache.is_doubted();
    let settled = cache.settles(Ok(found));
    refused & doubted & settled & cache.is_sure() & cache.has(1, kept)
}

/// Puts body A into slot 1, which fails at a call, and settles it: whether that finds this, and keeps the slot in this
/// state.
fn is_settled(rt: &impl Abort, alloc: Global, call: u64, found: Settled, kept: Slot) -> bool {
    let disk = failing_file(rt, alloc, &header(1, 3), 8, call);
    settles_as(&mut Cache::open(rt, alloc, disk), found, kept)
}

// Loading makes four calls, one of which reads all slots, and a put makes the next four.
#[test]
fn a_refused_put_is_settled(rt: HostRuntime) {
    for call in 4..7 {
        assert!(rt; is_settled(&rt, rt.alloc(), call, Settled::NotMade, Slot::Free));
    }
    assert!(rt; is_settled(&rt, rt.alloc(), 7, Settled::Made, Slot::Half(A)));
}

/// Whether a put and settling it both fail, and leave the doubt.
fn stays_doubted(cache: &mut Cache) -> bool {
    let refused = cache.put_next().is_err();
    let fails = cache.settles(Err(SettleFault::Device));
    refused & fails & cache.is_doubted()
}

// The last call of a put fails, and so do those of settling.
#[test]
fn a_doubt_stays_where_the_disk_fails(rt: HostRuntime) {
    let disk = stopping_file(&rt, rt.alloc(), &header(1, 3), 8, 7);
    assert!(rt; stays_doubted(&mut Cache::open(&rt, rt.alloc(), disk)));
}

/// Whether the file of a disk is refused for this reason.
fn is_refused(alloc: Global, disk: MemDisk, why: CacheLoad) -> bool {
    Cache::load(alloc, disk).err() == Some(why)
}

/// Whether a file with two damaged slots is refused for the first one.
fn refuses_damaged(rt: &impl Abort, alloc: Global) -> bool {
    let disk = free_file(rt, alloc, &header(1, 3), 8);
    let disk = with_byte(rt, disk, 168 + 128, 0xC2);
    let disk = with_byte(rt, disk, 168 + 256, 0xC2);
    let (slot, a, b) = (1, 0, 0xC2);
    is_refused(alloc, disk, CacheLoad::Damaged { slot, a, b })
}

/// Whether a file that is not ready is refused.
fn refuses_shut(rt: &impl Abort, alloc: Global) -> bool {
    let disk = with_byte(rt, free_file(rt, alloc, &header(1, 3), 8), 0, 0);
    let shut = CacheLoad::Slots(LoadFault::NotReady { gate: 0 });
    is_refused(alloc, disk, shut)
}

#[test]
fn another_file_is_refused(rt: HostRuntime) {
    for call in 0..4 {
        let disk = failing_file(&rt, rt.alloc(), &header(1, 3), 8, call);
        assert!(rt; is_refused(rt.alloc(), disk, CacheLoad::Device));
    }
    assert!(rt; refuses_damaged(&rt, rt.alloc()) & refuses_shut(&rt, rt.alloc()));
}
