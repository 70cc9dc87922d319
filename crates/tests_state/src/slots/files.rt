//! Files of slots: what they are made of, and what putting, making and copying leave when calls of the disk fail.

ghost use Rattle.std.specs.Prelude.{◌≡◌, ◌≢◌, ◌<◌};
ghost use Rattle.slot_file.specs.Slots.{count_of, header_of};

use crate::disks::{
    crashed, empty, failing_file, free_file, header, holding, make, stopping_file, with_byte,
};
use disk_trait::{DiskFault, MemDisk};
use slot_file::{CopyFault, Doubt, Header, LoadFault, PrepareFault, Slot, Slots, copy_slots};
use std::alloc::Global;
use std::process::Abort;

const A: [u8; 36] = [0xAA; 36];

const B: [u8; 64] = [0xBB; 64];

/// The header of another trustee's file.
const OTHER: Header = Header {
    version: 2,
    number: 4,
    lms: 5,
    ots: 3,
    id: [0x1D; 16],
};

/// A file of 32 slots that is open, and the moment that is put into it.
#[derive(Drop)]
struct File {
    slots: Slots<MemDisk>,
    moment: u64,
    ghost count: { count_of slots ≡ 32 },
    ghost fits: { (header_of slots).version ≢ 2 → moment ≡ 0 },
}

/// The moment that is put into a file of this version.
fn moment_of(version: u8) -> u64
    ensures { version ≢ 2 → result ≡ 0 }
{
    if version == 2 { 7 } else { 0 }
}

impl File {
    /// The open file of these slots, which are of this version.
    fn of_slots(slots: Slots<MemDisk>, version: u8) -> File
        requires count { count_of slots ≡ 32 }
        requires version { (header_of slots).version ≡ version }
    {
        File {
            slots,
            moment: moment_of(version),
        }
    }

    /// Opens the file of a disk, if it opens as one of this version.
    fn load(disk: MemDisk, version: u8) -> Result<File, LoadFault> {
        match Slots::load(disk, &header(version, 3), 32) {
            Ok(slots) => Ok(File::of_slots(slots, version)),
            Err((_, fault)) => Err(fault),
        }
    }

    /// Opens the file of a disk.
    fn open(rt: &impl Abort, disk: MemDisk, version: u8) -> File {
        File::load(disk, version).expect(rt, "load")
    }

    /// Puts body A into a slot that is free, if none is in doubt.
    fn put_first(&mut self, slot: u32) -> Result<(), DiskFault>
        requires { slot < 32 }
    {
        let found = self.slots.look(slot)?;
        match (found, self.slots.doubt()) {
            (Slot::Free, Doubt::Nowhere) => self.slots.put_a(slot, &A),
            _ => Ok(()),
        }
    }

    /// Puts body B and the moment into slot 1 if it is half and none is in doubt.
    fn put_second(&mut self) -> Result<(), DiskFault> {
        let found = self.slots.look(1)?;
        match (found, self.slots.doubt()) {
            (Slot::Half(_), Doubt::Nowhere) => self.slots.put_b(1, &B, self.moment),
            _ => Ok(()),
        }
    }

    /// Puts both bodies into slot 1.
    fn put_both(&mut self) -> Result<(), DiskFault> {
        self.put_first(1)?;
        self.put_second()
    }

    /// Settles slot 1: whether it was in doubt, and is settled.
    fn settles(&mut self) -> bool {
        let before = self.slots.doubt() == Doubt::Refused(1);
        let settled = self.slots.settle().is_ok();
        before & settled & (self.slots.doubt() == Doubt::Settled(1))
    }

    /// Whether a look at a slot gives this.
    fn has(&mut self, slot: u32, want: Slot) -> bool
        requires { slot < 32 }
    {
        self.slots.look(slot) == Ok(want)
    }

    /// Whether body A is put into the last slot, and a look at the last two slots at once finds it there.
    fn puts_last(&mut self) -> bool {
        let put = self.put_first(31).is_ok();
        let mut found = [Slot::Free; 2];
        let looked = self.slots.look_run(30, &mut found).is_ok();
        put & looked & (found == [Slot::Free, Slot::Half(A)])
    }

    /// Whether slot 1 is this, and the slots beside it are free.
    fn has_alone(&mut self, want: Slot) -> bool {
        let before = self.has(0, Slot::Free);
        let after = self.has(2, Slot::Free);
        before & after & self.has(1, want)
    }

    /// Whether slot 1 is in doubt, because of the one call of the disk that has failed.
    fn is_refused(&self) -> bool {
        (self.slots.doubt() == Doubt::Refused(1)) & (self.slots.faults() == 1)
    }

    /// Copies the slots to a disk.
    fn copy(&mut self, disk: &mut MemDisk) -> Result<u32, CopyFault> {
        copy_slots(disk, &header(2, 3), 32, &mut self.slots)
    }

    /// Gives the disk back.
    fn end(self) -> MemDisk {
        self.slots.end()
    }
}

/// Why the file of a disk does not open as one of version 2.
fn load_fault(disk: MemDisk) -> Option<LoadFault> {
    File::load(disk, 2).err()
}

/// Whether a disk holds a ready file of a version, of `size` bytes.
fn is_ready(disk: &MemDisk, version: u8, size: usize) -> bool {
    let front = [0xA7, 0, 0, 0, version, 3, 0, 0, 0, 0, 0, 5, 0, 0, 0, 3];
    (disk.bytes().len() == size) & disk.bytes().starts_with(&front)
}

/// Whether a file that is made has `size` bytes, is made once, and is free.
fn is_made_free(rt: &impl Abort, alloc: Global, version: u8, size: usize) -> bool {
    let mut disk = free_file(rt, alloc, &header(version, 3), 32);
    let ready = is_ready(&disk, version, size);
    let length = size as u64;
    let again = make(&mut disk, &header(version, 3), 32);
    let mut file = File::open(rt, disk, version);
    let free = file.has(0, Slot::Free);
    ready & free & (again == Err(PrepareFault::NotEmpty { length })) & file.has(31, Slot::Free)
}

#[test]
fn a_prepared_file_is_free(rt: HostRuntime) {
    assert!(rt; is_made_free(&rt, rt.alloc(), 2, 5248));
    assert!(rt; is_made_free(&rt, rt.alloc(), 1, 4224));
    assert!(rt; is_made_free(&rt, rt.alloc(), 3, 4224));
}

/// Puts both bodies into slot 1 of a file whose disk stops at a call: whether a crash leaves the slot in this state.
fn leaves(rt: &impl Abort, alloc: Global, version: u8, call: u64, pick: u64, want: Slot) -> bool {
    let disk = stopping_file(rt, alloc, &header(version, 3), 32, call);
    let mut file = File::open(rt, disk, version);
    let fails = file.put_both().is_err();
    let refused = file.is_refused();
    let mut left = File::open(rt, crashed(rt, alloc, file.end(), pick), version);
    fails & refused & left.has_alone(want)
}

/// Whether a put whose disk stops at one of four calls, from this one on, leaves slot 1 as before or as after.
fn puts_or_not(
    rt: &impl Abort,
    alloc: Global,
    version: u8,
    from: u64,
    before: Slot,
    after: Slot,
) -> bool {
    for call in 0..4 {
        for pick in &[0, 1, 5] {
            let want = if call == 3 && *pick == 1 {
                after
            } else {
                before
            };
            if !leaves(rt, alloc, version, from.saturating_add(call), *pick, want) {
                return false;
            }
        }
    }
    true
}

#[test]
fn a_put_is_before_or_after(rt: HostRuntime) {
    let half = Slot::Half(A);
    let first = puts_or_not(&rt, rt.alloc(), 2, 4, Slot::Free, half);
    assert!(rt; first & puts_or_not(&rt, rt.alloc(), 2, 9, half, Slot::Full(A, B, 7)));
    let first = puts_or_not(&rt, rt.alloc(), 1, 4, Slot::Free, half);
    assert!(rt; first & puts_or_not(&rt, rt.alloc(), 1, 9, half, Slot::Full(A, B, 0)));
}

/// Puts body A into slot 1, which fails: whether settling finds the slot in this state, and a put is then made.
fn settles_as(file: &mut File, found: Slot) -> bool {
    let fails = file.put_first(1).is_err();
    let settled = file.settles();
    let finds = file.has(1, found);
    let again = file.put_first(1).is_ok();
    fails & settled & finds & again & file.has(1, Slot::Half(A))
}

/// Puts body A into slot 1, which fails at a call: whether settling finds the slot in this state, and a put is then
/// made.
fn is_settled(rt: &impl Abort, alloc: Global, call: u64, found: Slot) -> bool {
    let disk = failing_file(rt, alloc, &header(2, 3), 32, call);
    settles_as(&mut File::open(rt, disk, 2), found)
}

#[test]
fn a_slot_in_doubt_is_settled(rt: HostRuntime) {
    for call in 4..7 {
        assert!(rt; is_settled(&rt, rt.alloc(), call, Slot::Free));
    }
    assert!(rt; is_settled(&rt, rt.alloc(), 7, Slot::Half(A)));
}

/// Why the first bytes of a free file, with a different byte at one place, do not open.
fn part_fault(
    rt: &impl Abort,
    alloc: Global,
    length: usize,
    place: u64,
    byte: u8,
) -> Option<LoadFault> {
    let disk = free_file(rt, alloc, &header(2, 3), 32);
    match disk.bytes().get(..length) {
        Some(part) => load_fault(with_byte(rt, holding(rt, alloc, part), place, byte)),
        None => None,
    }
}

/// How many bytes of a free file there are, a place, the byte that is put there, and why the file does not open.
const FAULTS: [(usize, u64, u8, Option<LoadFault>); 6] = [
    (
        127,
        0,
        0xA6,
        Some(LoadFault::Length {
            got: 127,
            want: 5248,
        }),
    ),
    (
        5247,
        6,
        0,
        Some(LoadFault::Length {
            got: 5247,
            want: 5248,
        }),
    ),
    (5248, 6, 0, None),
    (5247, 0, 0xA6, Some(LoadFault::NotReady { gate: 0xA6 })),
    (5247, 4, 1, Some(LoadFault::Version { got: 1 })),
    (5247, 5, 4, Some(LoadFault::Foreign { kept: OTHER })),
];

/// Whether the file of a row has the row's fault.
fn has_fault(rt: &impl Abort, alloc: Global, row: &(usize, u64, u8, Option<LoadFault>)) -> bool {
    part_fault(rt, alloc, row.0, row.1, row.2) == row.3
}

#[test]
fn another_file_is_refused(rt: HostRuntime) {
    for row in &FAULTS {
        assert!(rt; has_fault(&rt, rt.alloc(), row));
    }
}

#[test]
fn a_file_that_is_not_read_is_refused(rt: HostRuntime) {
    for call in 0..3 {
        let disk = failing_file(&rt, rt.alloc(), &header(2, 3), 32, call);
        assert!(rt; load_fault(disk) == Some(LoadFault::Device));
    }
}

/// A file with slot 0 half and slot 1 full.
fn filled(rt: &impl Abort, alloc: Global, version: u8) -> File {
    let disk = free_file(rt, alloc, &header(version, 3), 32);
    let mut file = File::open(rt, disk, version);
    let first = file.put_first(0).is_ok();
    let second = file.put_both().is_ok();
    assert!(rt; first & second);
    file
}

/// Whether one look shows the last two slots of a file of a version.
fn is_looked_at(rt: &impl Abort, alloc: Global, version: u8) -> bool {
    let disk = free_file(rt, alloc, &header(version, 3), 32);
    File::open(rt, disk, version).puts_last()
}

#[test]
fn a_run_is_looked_at(rt: HostRuntime) {
    assert!(rt; is_looked_at(&rt, rt.alloc(), 1) && is_looked_at(&rt, rt.alloc(), 2));
}

/// Whether a disk holds a copy of a filled file.
fn is_copy(rt: &impl Abort, disk: MemDisk) -> bool {
    let mut file = File::open(rt, disk, 2);
    let half = file.has(0, Slot::Half(A));
    let full = file.has(1, Slot::Full(A, B, 0));
    half & full & file.has(2, Slot::Free)
}

/// Whether a filled file is copied, once.
fn copies(rt: &impl Abort, alloc: Global, version: u8) -> bool {
    let mut from = filled(rt, alloc, version);
    let mut disk = empty(rt, alloc, 32);
    let copied = from.copy(&mut disk) == Ok(2);
    let again = from.copy(&mut disk) == Err(CopyFault::NotEmpty { length: 5248 });
    copied & again & is_copy(rt, disk)
}

#[test]
fn slots_are_copied(rt: HostRuntime) {
    assert!(rt; copies(&rt, rt.alloc(), 2));
    assert!(rt; copies(&rt, rt.alloc(), 1));
}

/// Whether a damaged slot is shown, and a copy stopped by it does not open.
fn shows_damage(rt: &impl Abort, alloc: Global) -> bool {
    let disk = free_file(rt, alloc, &header(2, 3), 32);
    let mut file = File::open(rt, with_byte(rt, disk, 168, 0xC2), 2);
    let (slot, a, b) = (0, 0, 194);
    let shown = file.has(slot, Slot::Damaged { a, b });
    let mut copy = empty(rt, alloc, 32);
    let refused = file.copy(&mut copy) == Err(CopyFault::Damaged { slot, a, b });
    shown & refused & (load_fault(copy) == Some(LoadFault::NotReady { gate: 0 }))
}

#[test]
fn a_damaged_slot_is_shown(rt: HostRuntime) {
    assert!(rt; shows_damage(&rt, rt.alloc()));
}

/// Whether what a crash leaves of a file that was being made opens, or `None` if it is refused for any other cause than
/// being short or shut.
fn is_whole(rt: &impl Abort, alloc: Global, disk: MemDisk, pick: u64) -> Option<bool> {
    match load_fault(crashed(rt, alloc, disk, pick)) {
        None => Some(true),
        Some(LoadFault::Length { .. } | LoadFault::NotReady { gate: 0 }) => Some(false),
        Some(_) => None,
    }
}

/// Makes a file on a disk that stops at a call: whether that fails, and what a crash leaves opens or not, as `want`
/// says.
fn makes_or_not(rt: &impl Abort, alloc: Global, call: u64, pick: u64, want: bool) -> bool {
    let mut disk = empty(rt, alloc, 32);
    disk.stop_at(call);
    let done = make(&mut disk, &header(2, 3), 32);
    (done == Err(PrepareFault::Device)) & (is_whole(rt, alloc, disk, pick) == Some(want))
}

/// Like `makes_or_not`, with the file made as a copy.
fn copies_or_not(
    rt: &impl Abort,
    alloc: Global,
    from: &mut File,
    call: u64,
    pick: u64,
    want: bool,
) -> bool {
    let mut disk = empty(rt, alloc, 32);
    disk.stop_at(call);
    let done = from.copy(&mut disk);
    (done == Err(CopyFault::Device)) & (is_whole(rt, alloc, disk, pick) == Some(want))
}

/// Whether both hold for each call at which the disk may stop, with this pick of a crash.
fn each_is_so(rt: &impl Abort, alloc: Global, pick: u64) -> bool {
    let mut from = filled(rt, alloc, 1);
    let mut right = true;
    for call in 0..39 {
        let want = call == 38 && pick == 1;
        right &= makes_or_not(rt, alloc, call, pick, want);
        right &= copies_or_not(rt, alloc, &mut from, call, pick, want);
    }
    right
}

#[test]
fn a_file_is_made_or_does_not_open(rt: HostRuntime) {
    assert!(rt; each_is_so(&rt, rt.alloc(), 0) && each_is_so(&rt, rt.alloc(), 1));
}
