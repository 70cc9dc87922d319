//! The cache of slots.

ghost use Rattle.std.specs.Prelude.{◌≡◌, ◌≢◌, ◌<◌, ℕ, List, length, IsTrue, IsOk, IfOk, IfErr, None, Some, Ok, Err};
ghost use Rattle.disk_trait.specs.Faults.{HasCause};
ghost use Rattle.slot_file.specs.Calls.{Puts, Settles};
ghost use Rattle.slot_file.specs.State.{IsWhole, slot_in};
ghost use Rattle.slot_file.specs.Inside.{IsDoubt, Shows};
ghost use Rattle.disk_trait.specs.Faults.{RisesAt};
ghost use Rattle.slot_file.specs.Disks.{Unwritten};
ghost use Rattle.slot_file.specs.Files.{IsHalf, with_b};
ghost use Rattle.slot_file.specs.Lists.{IsFront};
ghost use Rattle.slot_file.specs.Slots.{count_of as slots_count, doubt_of, faults_of as slots_faults};
ghost use Rattle.slot_file.specs.Slots.{header_of as slots_header, MayLeave as MaySlotsLeave, IsTold as AreSlotsTold};
ghost use Rattle.slot_file.specs.Slots.{IsHonest as AreSlotsHonest, file_of as slots_file};

use crate::doubted::Doubted;
use crate::faults::{CacheLoad, SettleFault, Settled};
use crate::reading::{look_settled, read_slots, refused_by};
use crate::slot_list::SlotList;
use crate::{Header, Slot, Slots};
use disk_trait::{Disk, DiskFault};
use memory::NoMemory;
use std::alloc::Global;

/// A file of slots, with what they hold in memory.
#[derive(Drop)]
pub struct CachedSlots<D: Disk> {
    slots: Slots<D>,
    cached: SlotList,
    doubt: Option<Doubted>,
    ghost count: { slots_count slots ≡ length cached },
    ghost whole: { IsWhole cached },
    ghost in_doubt: { IsDoubt (length cached) (doubt_of slots) doubt },
    ghost faulted: { slots_faults slots ≡ 0 → doubt ≡ None },
    ghost reads: { AreSlotsTold slots
        → Shows (slots_header slots) cached doubt (slots_file slots) },
    ghost images: { AreSlotsTold slots → AreSlotsHonest slots → (image : List ℕ) → MaySlotsLeave slots image
        → Shows (slots_header slots) cached doubt image },
}

impl From<DiskFault> for SettleFault {
    ghost use Rattle.slot_file.specs.declared.faults.SettleFault.TheVariants.{Device};

    ghost from_gives = { λ _ fault. fault ≡ Device };

    fn from(_: DiskFault) -> Self {
        SettleFault::Device
    }
}

impl<D: Disk> CachedSlots<D> {
    ghost use Rattle.slot_file.specs.Loading.{IsLoaded, LoadRefused};
    ghost use Rattle.slot_file.specs.Cache.{Holds, IsSteady, IsTold, Stays, count_of, disk_of};
    ghost use Rattle.slot_file.specs.Cache.{faults_of, header_of, state_of};

    /// Loads a file of `count` slots: reads the slots, 32 with each read of the disk, and takes all the memory that it
    /// needs. A refusal gives the disk back.
    pub fn load(
        alloc: Global,
        disk: D,
        header: &Header,
        count: u32,
    ) -> Result<CachedSlots<D>, (D, CacheLoad)>
        ensures loaded { IfOk result (IsLoaded D.Pages.own D.Faults header.now count disk) }
        ensures refused { IsTrue (D.told disk) → IfErr result (λ e. LoadRefused header.now count (D.reads disk) e.1) }
        ensures unwritten { IfErr result (λ e. Unwritten D.Pages.own D.Faults disk e.0) }
        ensures succeeds { IsTrue (D.steady disk) → IsTrue (D.told disk)
            → IfErr result (λ e. e.1 ≢ CacheLoad.Device) }
        ensures cause { IfErr result (λ e. RisesAt (D.count disk) (D.count e.0) e.1 CacheLoad.Device) }
    {
        let mut slots = match Slots::load(disk, header, count) {
            Ok(slots) => slots,
            Err((disk, fault)) => return Err((disk, refused_by(fault))),
        };
        let mut cached = match SlotList::free(alloc, count) {
            Ok(cached) => cached,
            Err(NoMemory) => return Err((slots.end(), CacheLoad::NoMemory)),
        };
        match read_slots(&mut slots, &mut cached) {
            Ok(()) => Ok(CachedSlots {
                slots,
                cached,
                doubt: None,
            }),
            Err(fault) => Err((slots.end(), fault)),
        }
    }

    /// A slot, disregarding a put in doubt.
    pub fn slot(&self, slot: u32) -> &Slot
        requires { slot < count_of self.now }
        ensures { result.now ≡ slot_in (state_of self.now).slots slot }
    {
        self.cached.slot(slot as usize)
    }

    /// Slots from the first on, disregarding a put in doubt. Those behind them are free. How many they are is not
    /// promised: all slots would do.
    pub fn front(&self) -> &[Slot]
        ensures { IsFront (state_of self.now).slots result.now }
    {
        self.cached.front()
    }

    /// All slots, disregarding a put in doubt.
    pub fn to_vec(&self, alloc: Global) -> Result<Vec<Slot>, NoMemory>
        ensures { IfOk result (λ slots. slots.items ≡ (state_of self.now).slots) }
    {
        let mut slots = Vec::from_slice(alloc, self.cached.front())?;
        slots.resize(self.slots.count() as usize, Slot::Free)?;
        Ok(slots)
    }

    /// How many slots there are.
    pub fn count(&self) -> u32
        ensures { result ≡ count_of self.now }
    {
        self.slots.count()
    }

    /// The put in doubt.
    pub fn doubt(&self) -> Option<Doubted>
        ensures { result ≡ (state_of self.now).doubt }
    {
        self.doubt
    }

    /// Finds out whether the put in doubt was made: syncs, and looks at its slot. If no put is in doubt, it makes no
    /// call of the disk.
    pub fn settle(&mut self) -> Result<Settled, SettleFault>
        ensures event { Settles (header_of self.old).version (state_of self.old) result (state_of self.new) }
        ensures idle { (state_of self.old).doubt ≡ None → self.new ≡ self.old }
        ensures unwritten { Unwritten D.Pages.own D.Faults (disk_of self.old) (disk_of self.new) }
        ensures told { IsTold self.old → (slot a b : ℕ) → result ≢ Err (SettleFault.Damaged slot a b) }
        ensures succeeds { IsSteady self.old → IsTold self.old → result ≢ Err SettleFault.Device }
        ensures cause { RisesAt (faults_of self.old) (faults_of self.new) result (Err SettleFault.Device) }
        ensures stays { Stays self.old self.new }
    {
        match self.doubt {
            None => Ok(Settled::Nothing),
            Some(doubted) => self.settle_put(&doubted),
        }
    }

    // Finds out whether this put, which is in doubt, was made.
    fn settle_put(&mut self, doubted: &Doubted) -> Result<Settled, SettleFault>
        requires { (state_of self.old).doubt ≡ Some doubted.now }
        ensures event { Settles (header_of self.old).version (state_of self.old) result (state_of self.new) }
        ensures unwritten { Unwritten D.Pages.own D.Faults (disk_of self.old) (disk_of self.new) }
        ensures told { IsTold self.old → (slot a b : ℕ) → result ≢ Err (SettleFault.Damaged slot a b) }
        ensures succeeds { IsSteady self.old → IsTold self.old → result ≢ Err SettleFault.Device }
        ensures cause { RisesAt (faults_of self.old) (faults_of self.new) result (Err SettleFault.Device) }
        ensures stays { Stays self.old self.new }
    {
        let slot = doubted.slot;
        let found = look_settled(&mut self.slots, slot)?;
        if found.is_same(&doubted.after) {
            self.cached.set(slot as usize, found);
            self.doubt = None;
            return Ok(Settled::Made);
        }
        if found.is_same(self.cached.slot(slot as usize)) {
            self.doubt = None;
            return Ok(Settled::NotMade);
        }
        let (a, b) = found.gates();
        Err(SettleFault::Damaged { slot, a, b })
    }

    /// Puts body A into a free slot, by four calls of the disk. It is made and stable, or is in doubt.
    pub fn put_a(&mut self, slot: u32, body: &[u8; 36]) -> Result<(), DiskFault>
        requires within { slot < count_of self.old }
        requires settled { (state_of self.old).doubt ≡ None }
        requires free { slot_in (state_of self.old).slots slot ≡ Slot.Free }
        ensures event { Puts (state_of self.old) slot (Slot.Half body.now) result (state_of self.new) }
        ensures succeeds { IsSteady self.old → IsTold self.old → IsOk result }
        ensures cause { HasCause (faults_of self.old) (faults_of self.new) result }
        ensures stays { Stays self.old self.new }
    {
        match self.slots.put_a(slot, body) {
            Ok(()) => {
                self.cached.set(slot as usize, Slot::Half(*body));
                Ok(())
            }
            Err(DiskFault) => {
                let after = Slot::Half(*body);
                self.doubt = Some(Doubted { slot, after });
                Err(DiskFault)
            }
        }
    }

    /// Puts body B and the moment into a half slot, as `put_a` does. In slots of 128 bytes the moment is 0.
    pub fn put_b(&mut self, slot: u32, body: &[u8; 64], moment: u64) -> Result<(), DiskFault>
        requires within { slot < count_of self.old }
        requires settled { (state_of self.old).doubt ≡ None }
        requires half { IsHalf (slot_in (state_of self.old).slots slot) }
        requires moment { (header_of self.old).version ≢ 2 → moment ≡ 0 }
        ensures event { Puts (state_of self.old) slot
            (with_b (slot_in (state_of self.old).slots slot) body.now moment) result (state_of self.new) }
        ensures succeeds { IsSteady self.old → IsTold self.old → IsOk result }
        ensures cause { HasCause (faults_of self.old) (faults_of self.new) result }
        ensures stays { Stays self.old self.new }
    {
        let after = self.slot(slot).with_b(body, moment);
        match self.slots.put_b(slot, body, moment) {
            Ok(()) => {
                self.cached.set(slot as usize, after);
                Ok(())
            }
            Err(DiskFault) => {
                self.doubt = Some(Doubted { slot, after });
                Err(DiskFault)
            }
        }
    }

    /// Gives the disk back.
    pub fn end(self) -> D
        ensures disk { result ≡ disk_of self }
        ensures holds { Holds self }
    {
        self.slots.end()
    }
}
