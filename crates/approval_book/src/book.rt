//! The book.

ghost use Rattle.std.specs.Prelude.{◌≡◌, ◌≢◌, ◌≤◌, ◌<◌, ◌↔◌, ℕ, List, length, Contains, None, Some, IsTrue, IfOk};
ghost use Rattle.std.specs.Prelude.{IfErr};
ghost use Rattle.std.specs.Prelude.{IsSome, IsSomeAnd, IfSome, Err, true, false, nat_eq};
ghost use Rattle.std.specs.Cmp.Lexicographic.{pointwise};
ghost use Rattle.std.specs.Option.{option_map_or};
ghost use Rattle.trustee_core.specs.Approved.{ids_of, is_in, room_of};
ghost use Rattle.approval_book.specs.Listed.{Adds, AddsTo, IsAdding, IsFreeIn, IsSettled, first_free, is_half};
ghost use Rattle.approval_book.specs.Listed.{is_listed};
ghost use Rattle.approval_book.specs.Listed.{lists};
ghost use Rattle.slot_file.specs.Copies.{is_free, taken_count};
ghost use Rattle.slot_file.specs.declared.slot.Slot.TheVariants as slot;
ghost use Rattle.lms_bytes.specs.MessageId.{message_id_bytes};
ghost use Rattle.slot_file.specs.Cache.{count_of as cache_count, header_of as cache_header, state_of as cache_state};
ghost use Rattle.slot_file.specs.declared.doubted.Doubted.{Doubted as DoubtedPut};
ghost use Rattle.disk_trait.specs.Faults.{RisesAt};
ghost use Rattle.slot_file.specs.Disks.{Unwritten};

use crate::faults::{BookFault, unsettled};
use disk_trait::{Disk, DiskFault};
use lms_bytes::MessageId;
use memory::NoMemory;
use opening_journal::Entered;
use slot_file::{CacheLoad, CachedSlots, Doubted, Header, Settled, Slot};
use std::alloc::Global;
use trustee_core::Approved;

/// How many messages a book can list.
const SLOTS: u32 = 1024;

/// A book of approved messages on a disk. It is used by one process at a time.
#[derive(Drop)]
pub struct Book<D: Disk> {
    slots: CachedSlots<D>,
    approved: Approved,
    ghost version: { (cache_header slots).version ≡ 3 },
    ghost count: { cache_count slots ≡ 1024 },
    ghost listed: { (id : List ℕ) → is_in (ids_of approved) id ≡ is_listed (cache_state slots).slots id },
    ghost few: { length (ids_of approved) ≤ taken_count (cache_state slots).slots },
    ghost room: { 1024 ≤ room_of approved },
    ghost adding: { (put : DoubtedPut) → (cache_state slots).doubt ≡ Some put
        → IsAdding (cache_state slots).slots put },
}

/// The id that a slot lists.
fn listed_by(slot: &Slot) -> Option<[u8; 36]>
    ensures lists { (id : List ℕ)
        → lists slot.now id ≡ option_map_or (λ listed. pointwise nat_eq id listed) result false }
    ensures taken { IsSome result → is_free slot.now ≡ false }
{
    match slot {
        Slot::Half(id) | Slot::Full(id, ..) => Some(*id),
        Slot::Free | Slot::Damaged { .. } => None,
    }
}

/// The ids that slots of a book list.
fn listed_in(alloc: Global, slots: &[Slot]) -> Result<Approved, NoMemory>
    requires { length slots.now ≤ 1024 }
    ensures listed { IfOk result (λ approved.
        (id : List ℕ) → is_in (ids_of approved) id ≡ is_listed slots.now id) }
    ensures few { IfOk result (λ approved. length (ids_of approved) ≤ taken_count slots.now) }
    ensures room { IfOk result (λ approved. 1024 ≤ room_of approved) }
{
    let mut approved = Approved::with_room(alloc, SLOTS as usize)?;
    for slot in slots {
        if let Some(id) = listed_by(slot) {
            approved.insert(id);
        }
    }
    Ok(approved)
}

/// The least free slot.
fn first_free(slots: &[Slot]) -> Option<usize>
    ensures { result ≡ first_free slots.now }
{
    slots.iter().position(|slot| slot.is_free())
}

/// The id that a put in doubt lists.
fn id_in_doubt(doubt: Option<Doubted>) -> [u8; 36]
    requires { IsSomeAnd doubt (λ put. is_half put.after ≡ true) }
    ensures { IfSome doubt (λ put. put.after ≡ slot.Half result) }
{
    match doubt {
        Some(
            Doubted {
                after: Slot::Half(id),
                ..
            },
        ) => id,
        _ => unreachable!(),
    }
}

impl<D: Disk> Book<D> {
    ghost use Rattle.approval_book.specs.Book.{disk_of, faults_of, slots_of, state_of};
    ghost use Rattle.slot_file.specs.Cache.{Holds, IsSteady, IsTold, Stays};
    ghost use Rattle.slot_file.specs.Loading.{IsLoaded, LoadRefused};

    /// Loads a book: reads its 1024 slots, and takes all the memory that is needed. A refusal gives the disk back.
    pub fn load(alloc: Global, disk: D, header: &Header) -> Result<Book<D>, (D, CacheLoad)>
        requires { header.now.version ≡ 3 }
        ensures loaded { IfOk result (λ book.
            IsLoaded D.Pages.own D.Faults header.now 1024 disk (slots_of book)) }
        ensures refused { IsTrue (D.told disk) → IfErr result (λ e. LoadRefused header.now 1024 (D.reads disk) e.1) }
        ensures unwritten { IfErr result (λ e. Unwritten D.Pages.own D.Faults disk e.0) }
        ensures succeeds { IsTrue (D.steady disk) → IsTrue (D.told disk)
            → IfErr result (λ e. e.1 ≢ CacheLoad.Device) }
        ensures cause { IfErr result (λ e. RisesAt (D.count disk) (D.count e.0) e.1 CacheLoad.Device) }
    {
        let slots = match CachedSlots::load(alloc, disk, header, SLOTS) {
            Ok(slots) => slots,
            Err(refused) => return Err(refused),
        };
        match listed_in(alloc, slots.front()) {
            Ok(approved) => Ok(Book { slots, approved }),
            Err(NoMemory) => Err((slots.end(), CacheLoad::NoMemory)),
        }
    }

    /// The approved messages.
    pub fn approved(&self) -> &Approved
        ensures { (id : List ℕ) → Contains (ids_of result.now) id ↔ IsTrue (is_listed (state_of self.now).slots id) }
    {
        &self.approved
    }

    /// How many slots are not free.
    pub fn count(&self) -> u32
        ensures { result ≡ taken_count (state_of self.now).slots }
    {
        let front = self.slots.front();
        front.iter().filter(|slot| !slot.is_free()).count() as u32
    }

    /// Lists a message. From `Ok` on, each image that a crash may leave lists it.
    pub fn add(&mut self, message: &MessageId) -> Result<Entered, BookFault>
        ensures event { Adds (state_of self.old) (message_id_bytes message.now) result (state_of self.new) }
        ensures idle { (state_of self.old).doubt ≡ None
            → IsTrue (is_listed (state_of self.old).slots (message_id_bytes message.now))
            → slots_of self.new ≡ slots_of self.old }
        ensures told { IsTold (slots_of self.old) → (slot a b : ℕ) → result ≢ Err (BookFault.Damaged slot a b) }
        ensures succeeds { IsSteady (slots_of self.old) → IsTold (slots_of self.old) → result ≢ Err BookFault.Device }
        ensures cause { RisesAt (faults_of self.old) (faults_of self.new) result (Err BookFault.Device) }
        ensures stays { Stays (slots_of self.old) (slots_of self.new) }
    {
        if let Err(fault) = self.settle() {
            return Err(fault);
        }
        let id = message.to_bytes();
        if self.approved.lists(&id) {
            return Ok(Entered::Old);
        }
        self.put(id)
    }

    /// Finds out whether the message in doubt is listed.
    fn settle(&mut self) -> Result<(), BookFault>
        ensures event { IsSettled (state_of self.old) result (state_of self.new) }
        ensures idle { (state_of self.old).doubt ≡ None → slots_of self.new ≡ slots_of self.old }
        ensures told { IsTold (slots_of self.old) → (slot a b : ℕ) → result ≢ Err (BookFault.Damaged slot a b) }
        ensures succeeds { IsSteady (slots_of self.old) → IsTold (slots_of self.old) → result ≢ Err BookFault.Device }
        ensures cause { RisesAt (faults_of self.old) (faults_of self.new) result (Err BookFault.Device) }
        ensures stays { Stays (slots_of self.old) (slots_of self.new) }
    {
        let doubt = self.slots.doubt();
        match self.slots.settle() {
            Ok(Settled::Made) => {
                self.approved.insert(id_in_doubt(doubt));
                Ok(())
            }
            Ok(Settled::Nothing | Settled::NotMade) => Ok(()),
            Err(fault) => Err(unsettled(fault)),
        }
    }

    /// Puts an id that is not listed into the least free slot.
    fn put(&mut self, id: [u8; 36]) -> Result<Entered, BookFault>
        requires settled { (state_of self.old).doubt ≡ None }
        requires absent { is_listed (state_of self.old).slots id ≡ false }
        ensures event { AddsTo (state_of self.old).slots id result (state_of self.new) }
        ensures told { (slot a b : ℕ) → result ≢ Err (BookFault.Damaged slot a b) }
        ensures succeeds { IsSteady (slots_of self.old) → IsTold (slots_of self.old) → result ≢ Err BookFault.Device }
        ensures cause { RisesAt (faults_of self.old) (faults_of self.new) result (Err BookFault.Device) }
        ensures stays { Stays (slots_of self.old) (slots_of self.new) }
    {
        let Some(place) = self.first_free() else {
            return Err(BookFault::Full);
        };
        if let Err(DiskFault) = self.slots.put_a(place, &id) {
            return Err(BookFault::Device);
        }
        self.approved.insert(id);
        Ok(Entered::New)
    }

    /// The least free slot.
    fn first_free(&self) -> Option<u32>
        ensures place { result ≡ first_free (state_of self.now).slots }
        ensures free { IfSome result (IsFreeIn (state_of self.now).slots) }
    {
        let front = self.slots.front();
        match first_free(front) {
            Some(place) => Some(place as u32),
            // The slots behind the front are free.
            None if front.len() < SLOTS as usize => Some(front.len() as u32),
            None => None,
        }
    }

    /// Gives the disk back. What a read gives and each image that a crash may leave stands for the book.
    pub fn end(self) -> D
        ensures disk { result ≡ disk_of self }
        ensures holds { Holds (slots_of self) }
    {
        self.slots.end()
    }
}
