//! An open file of slots.

ghost use Rattle.std.specs.Prelude.{◌≡◌, ◌≢◌, ◌⊎◌, ◌≤◌, ◌<◌, ◌↔◌, ◌+◌, ◌*◌, ℕ, List, length, take, drop, None, Some};
ghost use Rattle.std.specs.Prelude.{IsTrue, IsOk, IfOk, IfErr, OnOk, OnErr, Ok, Err, if◌then◌else◌, is_ok};
ghost use Rattle.disk_trait.specs.Faults.{HasCause};
ghost use Rattle.slot_file.specs.Doubts.{IsSure, looked_run, settled};
ghost use Rattle.disk_trait.specs.Images.{Only};
ghost use Rattle.disk_trait.specs.Faults.{RisesAt};
ghost use Rattle.slot_file.specs.Disks.{Unwritten};
ghost use Rattle.slot_file.specs.Gated.{second_body};
ghost use Rattle.slot_file.specs.Layout.{file_size, slot_size, slot_start, load_fault, IsShown};
ghost use Rattle.slot_file.specs.Files.{IsFile, IsHalf, with_b};

use crate::gated::write_gated;
use crate::header::BLOCK;
use crate::slot::{A_OPEN, B_OPEN, file_len, moment_bytes, read_block, slot_len, slot_start};
use crate::{Header, LoadFault, Slot};
use disk_trait::{Disk, DiskFault};

/// The most slots that are looked at with one read.
pub const MOST_IN_RUN: usize = 32;

/// A slot whose put was refused: it may be as before or have what was put.
#[derive(Clone, Copy, PartialEq, Eq)]
pub enum Doubt {
    /// No slot is in doubt.
    Nowhere,
    /// A put on this slot was refused.
    Refused(u32),
    /// The disk was settled since, so the slot is what a look shows.
    Settled(u32),
}

impl Doubt {
    // The doubt after a put on a slot.
    fn after(self, slot: u32, done: Result<(), DiskFault>) -> Doubt
        ensures { result ≡ (if is_ok done then self else Doubt.Refused slot) }
    {
        match done {
            Ok(()) => self,
            Err(DiskFault) => Doubt::Refused(slot),
        }
    }

    /// The doubt after a look at `count` slots from `first` on, which was done or failed.
    fn after_look(self, first: u32, count: usize, done: Result<(), DiskFault>) -> Doubt
        ensures { result ≡ (if is_ok done then looked_run first count self else self) }
    {
        match self {
            Doubt::Settled(slot)
                if done.is_ok() && first <= slot && ((slot - first) as usize) < count =>
                Doubt::Nowhere,
            Doubt::Nowhere | Doubt::Refused(_) | Doubt::Settled(_) => self,
        }
    }

    /// The doubt after a settle, which was done or failed.
    fn after_settle(self, done: Result<(), DiskFault>) -> Doubt
        ensures { result ≡ (if is_ok done then settled self else self) }
    {
        match self {
            Doubt::Refused(slot) if done.is_ok() => Doubt::Settled(slot),
            Doubt::Nowhere | Doubt::Refused(_) | Doubt::Settled(_) => self,
        }
    }
}

/// A file of slots.
#[derive(Drop)]
pub struct Slots<D: Disk> {
    disk: D,
    header: Header,
    count: u32,
    doubt: Doubt,
    ghost whole: { IsTrue (D.told disk) → IsFile header count (D.reads disk) },
    ghost has_room: { IsTrue (D.told disk) → file_size header.version count ≤ D.room disk },
    ghost images_whole: { IsTrue (D.told disk) → IsTrue (D.honest disk)
        → (image : List ℕ) → D.may_leave disk image → IsFile header count image },
    ghost stable: { IsSure doubt → IsTrue (D.told disk) → IsTrue (D.honest disk)
        → Only (D.reads disk) (D.may_leave disk) },
}

// The bytes of body B and of the moment after it, and how many there are.
fn second_block(version: u8, body: &[u8; 64], moment: u64) -> ([u8; 72], usize)
    ensures bytes { take result.1 result.0 ≡ second_body version body.now moment }
    ensures len { result.1 ≤ 72 }
{
    let mut block = [0; 72];
    block[..64].copy_from_slice(body);
    block[64..].copy_from_slice(&moment_bytes(moment));
    (block, if version == 2 { 72 } else { 64 })
}

// Syncs a disk, and tests the length and the header of its file.
fn check_file<D: Disk>(disk: &mut D, header: &Header, count: u32) -> Result<(), LoadFault>
    ensures opens { IsTrue (D.told disk.old)
        → OnOk result (load_fault header.now count (D.reads disk.old) ≡ None) }
    ensures refuses { IsTrue (D.told disk.old)
        → IfErr result (λ e. (e ≡ LoadFault.Device) ⊎ (load_fault header.now count (D.reads disk.old) ≡ Some e)) }

    ensures stable { IsTrue (D.honest disk.old) → IsTrue (D.told disk.old)
        → OnOk result (Only (D.reads disk.old) (D.may_leave disk.new)) }
    ensures unwritten { Unwritten D.Pages.own D.Faults disk.old disk.new }
    ensures has_room { IsTrue (D.told disk.old) → length (D.reads disk.old) ≤ D.room disk.old }

    ensures succeeds { IsTrue (D.steady disk.old) → IsTrue (D.told disk.old)
        → IfErr result (λ e. e ≢ LoadFault.Device) }
    ensures cause { RisesAt (D.count disk.old) (D.count disk.new) result (Err LoadFault.Device) }
{
    disk.sync()?;
    let got = disk.len()?;
    let want = file_len(header.version, count);
    if got < BLOCK as u64 {
        return Err(LoadFault::Length { got, want });
    }
    let mut block = [0; 32];
    disk.read_at(0, &mut block)?;
    if let Err(fault) = header.check(&block) {
        return Err(fault);
    }
    if got != want {
        return Err(LoadFault::Length { got, want });
    }
    Ok(())
}

impl<D: Disk> Slots<D> {
    ghost use Rattle.slot_file.specs.Opened.{IsOpened};
    ghost use Rattle.slot_file.specs.Slots.{HasGated, HasPut, IsHonest, IsStable, IsSteady, IsTold, MayLeave};
    ghost use Rattle.slot_file.specs.Slots.{OnlyLooked, Stays, count_of, disk_of, doubt_of, faults_of, file_of};
    ghost use Rattle.slot_file.specs.Slots.{header_of, slot_now};
    ghost use Rattle.slot_file.specs.Runs.{AreShown, IsRun};
    ghost use Rattle.slot_file.specs.Doubts.{looked};

    /// Opens a file: syncs, and tests its length and its header. A refusal gives the disk back.
    pub fn load(disk: D, header: &Header, count: u32) -> Result<Slots<D>, (D, LoadFault)>
        ensures opened { IfOk result (IsOpened D.Pages.own D.Faults header.now count disk) }
        ensures refuses { IsTrue (D.told disk)
            → IfErr result (λ e. (e.1 ≡ LoadFault.Device) ⊎ (load_fault header.now count (D.reads disk) ≡ Some e.1)) }
        ensures unwritten { IfErr result (λ e. Unwritten D.Pages.own D.Faults disk e.0) }
        ensures succeeds { IsTrue (D.steady disk) → IsTrue (D.told disk) → IfErr result (λ e. e.1 ≢ LoadFault.Device) }
        ensures cause { IfErr result (λ e. RisesAt (D.count disk) (D.count e.0) e.1 LoadFault.Device) }
    {
        let mut disk = disk;
        match check_file(&mut disk, header, count) {
            Ok(()) => Ok(Slots {
                disk,
                header: *header,
                count,
                doubt: Doubt::Nowhere,
            }),
            Err(fault) => Err((disk, fault)),
        }
    }

    /// One sync, after which a crash leaves what a read gives.
    pub fn settle(&mut self) -> Result<(), DiskFault>
        ensures stable { OnOk result (IsStable self.new) }
        ensures unwritten { Unwritten D.Pages.own D.Faults (disk_of self.old) (disk_of self.new) }
        ensures doubt { doubt_of self.new
            ≡ (if is_ok result then settled (doubt_of self.old) else doubt_of self.old) }
        ensures succeeds { IsSteady self.old → IsOk result }
        ensures cause { HasCause (faults_of self.old) (faults_of self.new) result }
        ensures stays { Stays self.old self.new }
    {
        let done = self.disk.sync();
        self.doubt = self.doubt.after_settle(done);
        done
    }

    /// A slot as a read gives it.
    pub fn look(&mut self, slot: u32) -> Result<Slot, DiskFault>
        requires { slot < count_of self.old }
        ensures slot { IsTold self.old → IfOk result (λ found. found ≡ slot_now self.old slot) }
        ensures shown { IfOk result (IsShown (header_of self.old).version) }
        ensures same { IsTold self.old → file_of self.new ≡ file_of self.old }
        ensures images { IsHonest self.old
            → (image : List ℕ) → MayLeave self.new image ↔ MayLeave self.old image }
        ensures doubt { doubt_of self.new
            ≡ (if is_ok result then looked slot (doubt_of self.old) else doubt_of self.old) }
        ensures succeeds { IsSteady self.old → IsTold self.old → IsOk result }
        ensures cause { HasCause (faults_of self.old) (faults_of self.new) result }
        ensures stays { Stays self.old self.new }
    {
        let version = self.header.version;
        let mut block = [0; 160];
        let bytes = &mut block[..slot_len(version)];
        self.read(slot, 1, bytes)?;
        Ok(Slot::of_bytes(version, bytes))
    }

    /// The slots from `first` on, as many as `out` has, as one read gives them. After a refusal `out` is as it was.
    pub fn look_run(&mut self, first: u32, out: &mut [Slot]) -> Result<(), DiskFault>
        requires within { first + length out.old ≤ count_of self.old }
        requires few { length out.old ≤ MOST_IN_RUN }
        ensures slots { IsTold self.old
            → OnOk result (IsRun (header_of self.old).version first (file_of self.old) out.new) }
        ensures shown { OnOk result (AreShown (header_of self.old).version out.new) }
        ensures unread { OnErr result (out.new ≡ out.old) }
        ensures looked { OnlyLooked self.old self.new }
        ensures doubt { doubt_of self.new
            ≡ (if is_ok result then looked_run first (length out.old) (doubt_of self.old) else doubt_of self.old) }
        ensures succeeds { IsSteady self.old → IsTold self.old → IsOk result }
        ensures cause { HasCause (faults_of self.old) (faults_of self.new) result }
    {
        let version = self.header.version;
        let mut block = [0; MOST_IN_RUN * 160];
        let bytes = &mut block[..slot_len(version) * out.len()];
        self.read(first, out.len(), bytes)?;
        read_block(version, bytes, out);
        Ok(())
    }

    /// Reads the bytes of `count` slots from `first` on, and so looks at them. After a refusal `out` holds any bytes.
    fn read(&mut self, first: u32, count: usize, out: &mut [u8]) -> Result<(), DiskFault>
        requires within { first + count ≤ count_of self.old }
        requires size { length out.old ≡ slot_size (header_of self.old).version * count }
        ensures bytes { IsTold self.old → OnOk result (out.new
            ≡ take (length out.old) (drop (slot_start (header_of self.old).version first) (file_of self.old))) }
        ensures looked { OnlyLooked self.old self.new }
        ensures doubt { doubt_of self.new
            ≡ (if is_ok result then looked_run first count (doubt_of self.old) else doubt_of self.old) }
        ensures succeeds { IsSteady self.old → IsTold self.old → IsOk result }
        ensures cause { HasCause (faults_of self.old) (faults_of self.new) result }
    {
        let done = self
            .disk
            .read_at(slot_start(self.header.version, first), out);
        self.doubt = self.doubt.after_look(first, count, done);
        done
    }

    /// Puts body A into a free slot, by four calls of the disk. In each image that a crash may
    /// leave, the slot is as before or has the whole body. After a refusal the slot is in doubt.
    pub fn put_a(&mut self, slot: u32, body: &[u8; 36]) -> Result<(), DiskFault>
        requires within { slot < count_of self.old }
        requires sure { doubt_of self.old ≡ Doubt.Nowhere }
        requires free { IsTold self.old → slot_now self.old slot ≡ Slot.Free }

        ensures made { HasPut slot (Slot.Half body.now) self.old self.new result }
        ensures succeeds { IsSteady self.old → IsTold self.old → IsOk result }
        ensures cause { HasCause (faults_of self.old) (faults_of self.new) result }
        ensures stays { Stays self.old self.new }
    {
        self.put(slot, 4, body, 0, A_OPEN)
    }

    /// Puts body B and the moment into a half slot, as `put_a` does. In slots of 128 bytes the
    /// moment is 0.
    pub fn put_b(&mut self, slot: u32, body: &[u8; 64], moment: u64) -> Result<(), DiskFault>
        requires within { slot < count_of self.old }
        requires sure { doubt_of self.old ≡ Doubt.Nowhere }
        requires half { IsTold self.old → IsHalf (slot_now self.old slot) }
        requires moment { (header_of self.old).version ≢ 2 → moment ≡ 0 }

        ensures made { HasPut slot (with_b (slot_now self.old slot) body.now moment) self.old self.new result }
        ensures succeeds { IsSteady self.old → IsTold self.old → IsOk result }
        ensures cause { HasCause (faults_of self.old) (faults_of self.new) result }
        ensures stays { Stays self.old self.new }
    {
        let (block, len) = second_block(self.header.version, body, moment);
        self.put(slot, 44, &block[..len], 40, B_OPEN)
    }

    // Writes a body and the gate before it into a slot.
    fn put(
        &mut self,
        slot: u32,
        at: u64,
        body: &[u8],
        gate_at: u64,
        gate: u8,
    ) -> Result<(), DiskFault>
        requires within { slot < count_of self.old }
        requires fits { at + length body.now ≤ slot_size (header_of self.old).version }
        requires gate_fits { gate_at < slot_size (header_of self.old).version }

        ensures gated { let start = slot_start (header_of self.old).version slot in
            HasGated (start + at) body.now (start + gate_at) gate self.old self.new result }
        ensures doubt { doubt_of self.new ≡ (if is_ok result then doubt_of self.old else Doubt.Refused slot) }

        ensures succeeds { IsSteady self.old → IsTold self.old → IsOk result }
        ensures cause { HasCause (faults_of self.old) (faults_of self.new) result }
        ensures stays { Stays self.old self.new }
    {
        let start = slot_start(self.header.version, slot);
        let done = write_gated(&mut self.disk, start + at, body, start + gate_at, gate);
        self.doubt = self.doubt.after(slot, done);
        done
    }

    /// How many calls of the disk have failed.
    pub fn faults(&self) -> u64
        ensures { result ≡ faults_of self.now }
    {
        self.disk.faults()
    }

    /// The slot that is in doubt.
    pub fn doubt(&self) -> Doubt
        ensures { result ≡ doubt_of self.now }
    {
        self.doubt
    }

    /// The number of slots.
    pub fn count(&self) -> u32
        ensures { result ≡ count_of self.now }
    {
        self.count
    }

    /// Gives the disk back.
    pub fn end(self) -> D
        ensures { result ≡ disk_of self }
    {
        self.disk
    }
}
