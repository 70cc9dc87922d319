//! The journal.

ghost use Rattle.std.specs.Prelude.{◌≡◌, ◌≢◌, ◌^◌, ◌+◌, ◌<◌, ◌≤◌, ℕ, length, vec_capacity, IsTrue, IfOk, IfErr, None};
ghost use Rattle.std.specs.Prelude.{Some, Ok, Err};
ghost use Rattle.opening_journal.specs.Answers.{AsksFor, HasSizes, Makes, Settles};
ghost use Rattle.opening_journal.specs.Entries.{Adds, leaf_of, map_of};
ghost use Rattle.slot_file.specs.Logs.{room_in};
ghost use Rattle.opening_journal.specs.Inside.{IsHeld};
ghost use Rattle.opening_journal.specs.Opening.{Binds, Opens};
ghost use Rattle.slot_file.specs.Cache.{count_of, header_of as cache_header, state_of as cache_state};
ghost use Rattle.disk_trait.specs.Faults.{RisesAt};
ghost use Rattle.slot_file.specs.Disks.{Unwritten};

use crate::answers::answer;
use crate::entry::{Entry, leaf_of};
use crate::faults::{Entered, JournalFault, JournalLoad, journal_fault, journal_load};
use crate::listing::entries_of;
use crate::steps::put_entry;
use disk_trait::{Disk, DiskFault};
use lms_bytes::{MessageId, Params, Val};
use memory::NoMemory;
use slot_file::{CachedSlots, Header, Settled};
use std::alloc::Global;

/// A journal on a disk.
#[derive(Drop)]
pub struct Journal<D: Disk> {
    slots: CachedSlots<D>,
    params: Params,
    entries: Vec<Entry>,
    doubt: Option<Entry>,
    ghost version: { (cache_header slots).version ≡ 2 },
    ghost codes: { ((cache_header slots).lms ≡ params.lms) × ((cache_header slots).ots ≡ params.ots) },
    ghost count: { count_of slots ≡ 2 ^ params.h },
    ghost held: { IsHeld params.n (cache_state slots) entries.items doubt },
    ghost room: { length entries.items + room_in (cache_state slots).slots ≤ vec_capacity entries },
}

impl<D: Disk> Journal<D> {
    ghost use Rattle.opening_journal.specs.Journal.{Enters, Holds, IsSteady, IsTold, Stays, disk_of, faults_of};
    ghost use Rattle.opening_journal.specs.Journal.{params_of, state_of};
    ghost use Rattle.opening_journal.specs.Loaded.{IsLoaded};
    ghost use Rattle.opening_journal.specs.Loading.{LoadRefused};

    /// Loads a journal: reads every slot, and takes the memory for all entries that can be made. A refusal gives the
    /// disk back.
    pub fn load(
        alloc: Global,
        disk: D,
        header: &Header,
        params: &Params,
    ) -> Result<Journal<D>, (D, JournalLoad)>
        requires version { header.now.version ≡ 2 }
        requires lms { header.now.lms ≡ params.now.lms }
        requires ots { header.now.ots ≡ params.now.ots }
        ensures loaded { IfOk result (IsLoaded D.Pages.own D.Faults header.now params.now disk) }
        ensures refused { IsTrue (D.told disk)
            → IfErr result (λ e. LoadRefused header.now (2 ^ params.now.h) (D.reads disk) e.1) }
        ensures unwritten { IfErr result (λ e. Unwritten D.Pages.own D.Faults disk e.0) }
        ensures succeeds { IsTrue (D.steady disk) → IsTrue (D.told disk)
            → IfErr result (λ e. e.1 ≢ JournalLoad.Device) }
        ensures cause { IfErr result (λ e. RisesAt (D.count disk) (D.count e.0) e.1 JournalLoad.Device) }
    {
        let slots = match CachedSlots::load(alloc, disk, header, params.leaves()) {
            Ok(slots) => slots,
            Err((disk, fault)) => return Err((disk, journal_load(fault))),
        };
        match entries_of(alloc, &slots, params.n) {
            Ok(entries) => Ok(Journal {
                slots,
                params: *params,
                entries,
                doubt: None,
            }),
            Err(NoMemory) => Err((slots.end(), JournalLoad::NoMemory)),
        }
    }

    /// Binds leaf `leaf` to a message. An entry in doubt is settled first. A new entry is stable before it is answered.
    /// If none is in doubt, only a new entry makes calls of the disk. It takes no memory.
    pub fn bind(&mut self, leaf: u32, message: &MessageId) -> Result<Entered, JournalFault>
        requires { leaf < 2 ^ (params_of self.old).h }
        ensures event { Binds (state_of self.old) leaf message.now result (state_of self.new) }
        ensures idle { (state_of self.old).doubt ≡ None
            → result ≢ Ok Entered.New → result ≢ Err JournalFault.Device → self.new ≡ self.old }
        ensures enters { Enters self.old self.new result }
    {
        self.enter(&Entry::Bound {
            leaf,
            message: *message,
        })
    }

    /// Opens leaf `leaf`, which is bound to this message, with C and Q of `n` bytes. An entry in doubt is settled
    /// first. A new entry is stable before it is answered. If none is in doubt, only a new entry makes calls of the
    /// disk. It takes no memory.
    pub fn open_leaf(
        &mut self,
        leaf: u32,
        message: &MessageId,
        c: &Val,
        digest: &Val,
        moment: u64,
    ) -> Result<Entered, JournalFault>
        requires leaf { leaf < 2 ^ (params_of self.old).h }
        requires c { length c.now ≡ (params_of self.old).n }
        requires digest { length digest.now ≡ (params_of self.old).n }
        ensures event { Opens (state_of self.old) leaf message.now c.now digest.now moment result (state_of self.new) }
        ensures idle { (state_of self.old).doubt ≡ None
            → result ≢ Ok Entered.New → result ≢ Err JournalFault.Device → self.new ≡ self.old }
        ensures enters { Enters self.old self.new result }
    {
        self.enter(&Entry::Opened {
            leaf,
            message: *message,
            c: *c,
            digest: *digest,
            moment,
        })
    }

    /// Makes an entry if its leaf answers that it can be made. An entry in doubt is settled first.
    fn enter(&mut self, entry: &Entry) -> Result<Entered, JournalFault>
        requires within { leaf_of entry.now < 2 ^ (params_of self.old).h }
        requires sizes { HasSizes (params_of self.old).n entry.now }
        ensures event { AsksFor (state_of self.old) entry.now result (state_of self.new) }
        ensures idle { (state_of self.old).doubt ≡ None
            → result ≢ Ok Entered.New → result ≢ Err JournalFault.Device → self.new ≡ self.old }
        ensures enters { Enters self.old self.new result }
    {
        if let Err(fault) = self.settle() {
            return Err(fault);
        }
        match answer(self.slots.slot(leaf_of(entry)), self.params.n, entry) {
            Ok(Entered::New) => self.put(entry),
            Ok(Entered::Old) => Ok(Entered::Old),
            Err(fault) => Err(fault),
        }
    }

    /// Finds out whether the entry in doubt was made.
    fn settle(&mut self) -> Result<(), JournalFault>
        ensures idle { (state_of self.old).doubt ≡ None → self.new ≡ self.old }
        ensures event { Settles (state_of self.old) result (state_of self.new) }
        ensures told { IsTold self.old → (leaf a b : ℕ) → result ≢ Err (JournalFault.Damaged leaf a b) }
        ensures succeeds { IsSteady self.old → IsTold self.old → result ≢ Err JournalFault.Device }
        ensures cause { RisesAt (faults_of self.old) (faults_of self.new) result (Err JournalFault.Device) }
        ensures stays { Stays self.old self.new }
    {
        match self.doubt {
            None => Ok(()),
            Some(entry) => self.settle_entry(&entry),
        }
    }

    /// Finds out whether this entry, which is in doubt, was made.
    fn settle_entry(&mut self, entry: &Entry) -> Result<(), JournalFault>
        requires { (state_of self.old).doubt ≡ Some entry.now }
        ensures event { Settles (state_of self.old) result (state_of self.new) }
        ensures told { IsTold self.old → (leaf a b : ℕ) → result ≢ Err (JournalFault.Damaged leaf a b) }
        ensures succeeds { IsSteady self.old → IsTold self.old → result ≢ Err JournalFault.Device }
        ensures cause { RisesAt (faults_of self.old) (faults_of self.new) result (Err JournalFault.Device) }
        ensures stays { Stays self.old self.new }
    {
        match self.slots.settle() {
            Ok(Settled::Made) => {
                self.entries.push_reserved(*entry);
                self.doubt = None;
                Ok(())
            }
            Ok(Settled::NotMade | Settled::Nothing) => {
                self.doubt = None;
                Ok(())
            }
            Err(fault) => Err(journal_fault(fault)),
        }
    }

    /// Makes an entry, if none is in doubt and its leaf is as before it.
    fn put(&mut self, entry: &Entry) -> Result<Entered, JournalFault>
        requires settled { (state_of self.old).doubt ≡ None }
        requires within { leaf_of entry.now < 2 ^ (params_of self.old).h }
        requires adds { Adds entry.now (map_of (state_of self.old).entries (leaf_of entry.now)) }
        requires sizes { HasSizes (params_of self.old).n entry.now }
        ensures event { Makes (state_of self.old).entries entry.now result (state_of self.new) }
        ensures succeeds { IsSteady self.old → IsTold self.old → result ≢ Err JournalFault.Device }
        ensures cause { RisesAt (faults_of self.old) (faults_of self.new) result (Err JournalFault.Device) }
        ensures stays { Stays self.old self.new }
    {
        match put_entry(&mut self.slots, entry) {
            Ok(()) => {
                self.entries.push_reserved(*entry);
                Ok(Entered::New)
            }
            Err(DiskFault) => {
                self.doubt = Some(*entry);
                Err(JournalFault::Device)
            }
        }
    }

    /// The entries, in the order in which they were made; those of the file first, leaf by leaf.
    pub fn entries(&self) -> &[Entry]
        ensures { result.now ≡ (state_of self.now).entries }
    {
        self.entries.as_slice()
    }

    /// Gives the disk back.
    pub fn end(self) -> D
        ensures disk { result ≡ disk_of self }
        ensures holds { Holds self }
    {
        self.slots.end()
    }
}
