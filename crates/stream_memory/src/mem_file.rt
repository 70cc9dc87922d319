//! A file in memory, which does as little as a system may.

ghost use Rattle.std.specs.Prelude.{◌≡◌, ◌↔◌, ◌+◌, ◌<◌, ◌≤◌, ℕ, List, length, take, drop, true, false};
ghost use Rattle.std.specs.Prelude.{IsTrue, IsFalse, IsOk, IfOk, OnOk, OnErr};
ghost use Rattle.disk_trait.specs.Images.{written, Torn, Follows, Only};
ghost use Rattle.disk_trait.specs.MemDisk.{MayLeave, is_steady};
ghost use Rattle.disk_trait.specs.MemDiskLaws.{leaves_bytes};
ghost use Rattle.stream_memory.specs.MemFiles.{SameLimits, has_room, room_of};

use crate::stored_disk::count;
use disk_trait::{Disk, DiskFault, Faults, MemDisk, Pages};
use stream_io::RawFile;

/// A file in memory, over a disk in memory. It tells its content and keeps the model of crashes of `RawFile`, and does
/// no more than the model asks for: a call reads and writes at most `most` bytes, `sync_data` makes nothing stable if
/// the file has grown, and after a sync that failed no sync does. Those that do nothing succeed.
#[derive(Drop)]
pub struct MemFile {
    disk: MemDisk,
    faults: u64,
    most: usize,
    grown: bool,
    sync_failed: bool,
}

impl MemFile {
    /// A file that was just opened, each call of which reads and writes no more than `most` bytes, and at least one.
    pub fn new(disk: MemDisk, most: usize) -> MemFile
        ensures count { ⟦<MemFile as Faults>⟧.count result ≡ 0 }
        ensures steady { ⟦<MemFile as Faults>⟧.steady result ≡ is_steady disk }
        ensures reads { ⟦<MemFile as RawFile>⟧.reads result ≡ disk.bytes }
        ensures images { (image : List ℕ) → ⟦<MemFile as RawFile>⟧.may_leave result image ↔ MayLeave disk image }
        ensures unfailed { ⟦<MemFile as RawFile>⟧.sync_failed result ≡ false }
    {
        MemFile {
            disk,
            faults: 0,
            most,
            grown: true,
            sync_failed: false,
        }
    }

    /// The disk in memory, on which a crash may be tried.
    pub fn into_disk(self) -> MemDisk
        ensures bytes { result.bytes ≡ ⟦<MemFile as RawFile>⟧.reads self }
        ensures images { (image : List ℕ) → MayLeave result image ↔ ⟦<MemFile as RawFile>⟧.may_leave self image }
    {
        self.disk
    }
}

/// How many of `size` bytes a call reads or writes that does no more than `most`.
fn part(most: usize, size: usize) -> usize
    ensures few { result ≤ size }
    ensures some { 0 < size → 0 < result }
{
    size.min(most.max(1))
}

/// Whether a disk may have grown once `size` bytes are written from `at` on, if it had or had not before, as `grown`
/// says.
fn may_grow(disk: &MemDisk, grown: bool, at: u64, size: usize) -> bool
    ensures { at + size ≤ length disk.now.bytes → result ≡ grown }
{
    let length = disk.bytes().len() as u64;
    grown || at > length || size as u64 > length - at
}

/// Reads once, no more than `most` bytes.
fn read_part(disk: &mut MemDisk, most: usize, at: u64, out: &mut [u8]) -> Result<usize, DiskFault>
    ensures size { IfOk result (λ n. n ≤ length out.old) }
    ensures bytes { IfOk result (λ n. take n out.new ≡ take n (drop at disk.old.bytes)) }
    ensures within { IfOk result (λ n. n ≤ length (drop at disk.old.bytes)) }
    ensures end { IfOk result (λ n. n ≡ 0 → 0 < length out.old → length disk.old.bytes ≤ at) }
    ensures succeeds { IsTrue (is_steady disk.old) → IsOk result }
    ensures same { disk.new.bytes ≡ disk.old.bytes }
    ensures images { (image : List ℕ) → MayLeave disk.new image ↔ MayLeave disk.old image }
    ensures limits { SameLimits disk.old disk.new }
{
    let length = disk.bytes().len() as u64;
    let place = at.min(length);
    let count = part(most, out.len().min((length - place) as usize));
    disk.read_at(place, &mut out[..count])?;
    Ok(count)
}

/// Writes a piece.
fn write_piece(disk: &mut MemDisk, at: u64, piece: &[u8]) -> Result<(), DiskFault>
    ensures bytes { OnOk result (disk.new.bytes ≡ written disk.old.bytes at piece.now) }
    ensures same { OnErr result (disk.new.bytes ≡ disk.old.bytes) }
    ensures images { Follows (Torn at (length piece.now)) (MayLeave disk.old) (MayLeave disk.new) }
    ensures succeeds { IsTrue (is_steady disk.old) → at ≤ length disk.old.bytes
        → at + length piece.now ≤ disk.old.capacity → IsOk result }
    ensures steady { is_steady disk.new ≡ is_steady disk.old }
    ensures room { room_of disk.new ≡ room_of disk.old }
{
    disk.write_at(at, piece)
}

/// Writes once, no more than `most` bytes.
fn write_part(disk: &mut MemDisk, most: usize, at: u64, bytes: &[u8]) -> Result<usize, DiskFault>
    ensures size { IfOk result (λ n. n ≤ length bytes.now) }
    ensures some { IfOk result (λ n. 0 < length bytes.now → 0 < n) }
    ensures bytes { IfOk result (λ n. disk.new.bytes ≡ written disk.old.bytes at (take n bytes.now)) }
    ensures same { OnErr result (disk.new.bytes ≡ disk.old.bytes) }
    ensures images { Follows (Torn at (length bytes.now)) (MayLeave disk.old) (MayLeave disk.new) }
    ensures succeeds { IsTrue (is_steady disk.old) → at ≤ length disk.old.bytes
        → at + length bytes.now ≤ room_of disk.old → IsOk result }
    ensures steady { is_steady disk.new ≡ is_steady disk.old }
    ensures room { room_of disk.new ≡ room_of disk.old }
{
    prove!(disk.bytes().len() <= disk.capacity());
    let count = part(most, bytes.len());
    write_piece(disk, at, &bytes[..count])?;
    Ok(count)
}

/// Makes a disk stable, or does nothing if `idle` is set.
fn sync_unless(disk: &mut MemDisk, idle: bool) -> Result<(), DiskFault>
    ensures stable { IsFalse idle → OnOk result (Only disk.old.bytes (MayLeave disk.new)) }
    ensures images { (image : List ℕ) → MayLeave disk.new image → MayLeave disk.old image }
    ensures same { disk.new.bytes ≡ disk.old.bytes }
    ensures succeeds { IsTrue (is_steady disk.old) → IsOk result }
    ensures limits { SameLimits disk.old disk.new }
{
    if idle {
        return Ok(());
    }
    disk.sync()
}

impl Faults for MemFile {
    ghost count = { λ it. it.faults };

    ghost steady = { λ it. is_steady it.disk };

    fn faults(&self) -> u64 {
        self.faults
    }
}

impl RawFile for MemFile {
    ghost told = { λ _. true };

    ghost reads = { λ it. it.disk.bytes };

    ghost room = { λ it. room_of it.disk };

    ghost honest = { λ _. true };

    ghost may_leave = { λ it. MayLeave it.disk };

    ghost grown = { λ it. it.grown };

    ghost sync_failed = { λ it. it.sync_failed };

    fn len(&mut self) -> Result<u64, DiskFault> {
        let answer = self.disk.len();
        count(&mut self.faults, answer)
    }

    fn read_at(&mut self, at: u64, out: &mut [u8]) -> Result<usize, DiskFault> {
        let answer = read_part(&mut self.disk, self.most, at, out);
        count(&mut self.faults, answer)
    }

    fn write_at(&mut self, at: u64, bytes: &[u8]) -> Result<usize, DiskFault> {
        self.grown = may_grow(&self.disk, self.grown, at, bytes.len());
        let answer = write_part(&mut self.disk, self.most, at, bytes);
        count(&mut self.faults, answer)
    }

    fn sync_all(&mut self) -> Result<(), DiskFault> {
        let answer = sync_unless(&mut self.disk, self.sync_failed);
        self.sync_failed = self.sync_failed || answer.is_err();
        self.grown = self.grown && answer.is_err();
        count(&mut self.faults, answer)
    }

    fn sync_data(&mut self) -> Result<(), DiskFault> {
        let answer = sync_unless(&mut self.disk, self.grown || self.sync_failed);
        self.sync_failed = self.sync_failed || answer.is_err();
        count(&mut self.faults, answer)
    }

    ghost has_room = { λ it _. has_room it.disk };

    ghost leaves_reads = { λ it. leaves_bytes it.disk };

    ghost leaves_no_longer = { λ _ _ _ _ leaves. leaves.no_longer };
}
