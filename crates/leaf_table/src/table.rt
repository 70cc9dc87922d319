//! The leaf table.

ghost use Rattle.std.specs.Prelude.{◌≡◌, ◌≢◌, ◌^◌, ◌+◌, ◌<◌, ◌≤◌, length, vec_capacity, IsTrue, IfOk, IfErr, IfNone};
ghost use Rattle.std.specs.Prelude.{IfSome, OnOk, None, Some, Ok, Err};
ghost use Rattle.coalition_map.specs.Coalitions.{count_of as coalition_count};
ghost use Rattle.lms_bytes.specs.MessageId.{message_id_bytes};
ghost use Rattle.leaf_table.specs.Entries.{IsFree, IsLeased, map_of};
ghost use Rattle.leaf_table.specs.Leasing.{Burns, HasNone, IsLeast, Leases, WasLeasedFor};
ghost use Rattle.leaf_table.specs.Index.{IsIndex};
ghost use Rattle.leaf_table.specs.Slots.{report_body};
ghost use Rattle.slot_file.specs.Logs.{room_in};
ghost use Rattle.leaf_table.specs.State.{IsSound, state_with};
ghost use Rattle.leaf_table.specs.Steps.{LeasesIn, Makes, Settles};
ghost use Rattle.slot_file.specs.Cache.{count_of, header_of as cache_header, state_of as cache_state};
ghost use Rattle.disk_trait.specs.Faults.{RisesAt};
ghost use Rattle.slot_file.specs.Disks.{Unwritten};

use crate::bodies::report_bytes;
use crate::faults::TableFault;
use crate::index::LeaseIndex;
use crate::lease::{Lease, lease_of_slot};
use crate::listing::entries_of;
use coalition_map::{Members, Plan};
use disk_trait::{Disk, DiskFault};
use lms_bytes::MessageId;
use memory::NoMemory;
use slot_file::{CacheLoad, CachedSlots, Doubted, Header, Settled, Slot};
use std::alloc::Global;
use turn_lock::Kept;

/// A leaf table on a disk.
#[derive(Drop)]
pub struct Table<D: Disk> {
    slots: CachedSlots<D>,
    plan: Plan,
    entries: Vec<Lease>,
    index: LeaseIndex,
    ghost version: { (cache_header slots).version ≡ 1 },
    ghost count: { count_of slots ≡ 2 ^ plan.h },
    ghost sound: { IsSound (state_with (cache_state slots) entries.items) },
    ghost room: { length entries.items + room_in (cache_state slots).slots ≤ vec_capacity entries },
    ghost indexed: { IsIndex plan (cache_state slots).slots index },
}

impl<D: Disk> Table<D> {
    ghost use Rattle.leaf_table.specs.Loaded.{IsLoaded};
    ghost use Rattle.leaf_table.specs.Table.{Enters, Holds, disk_of, faults_of, plan_of};
    ghost use Rattle.leaf_table.specs.Table.{state_of};
    ghost use Rattle.slot_file.specs.Loading.{LoadRefused};

    /// Loads a table: reads every slot, and takes the memory for all entries that can be made. A refusal gives the disk
    /// back.
    pub fn load(
        alloc: Global,
        disk: D,
        header: &Header,
        plan: &Plan,
    ) -> Result<Table<D>, (D, CacheLoad)>
        requires { header.now.version ≡ 1 }
        ensures loaded { IfOk result (IsLoaded D.Pages.own D.Faults header.now plan.now disk) }
        ensures refused { IsTrue (D.told disk)
            → IfErr result (λ e. LoadRefused header.now (2 ^ plan.now.h) (D.reads disk) e.1) }
        ensures unwritten { IfErr result (λ e. Unwritten D.Pages.own D.Faults disk e.0) }
        ensures succeeds { IsTrue (D.steady disk) → IsTrue (D.told disk)
            → IfErr result (λ e. e.1 ≢ CacheLoad.Device) }
        ensures cause { IfErr result (λ e. RisesAt (D.count disk) (D.count e.0) e.1 CacheLoad.Device) }
    {
        let slots = match CachedSlots::load(alloc, disk, header, 1 << plan.h()) {
            Ok(slots) => slots,
            Err(refused) => return Err(refused),
        };
        let index = LeaseIndex::of_slots(alloc, plan, &slots);
        match (entries_of(alloc, &slots), index) {
            (Ok(entries), Ok(index)) => Ok(Table {
                slots,
                plan: *plan,
                entries,
                index,
            }),
            _ => Err((slots.end(), CacheLoad::NoMemory)),
        }
    }

    /// The leaf of the members' coalition for this message, which is leased now if it was not before. An entry in doubt
    /// is settled first. A new entry is stable before it is answered. If none is in doubt, only a new entry makes
    /// calls of the disk. It takes no memory.
    pub fn lease(&mut self, members: Members, message: &MessageId) -> Result<u32, TableFault>
        ensures event { Leases (plan_of self.old) (state_of self.old) members message.now result (state_of self.new) }
        ensures within { IfOk result (λ leaf. leaf < 2 ^ (plan_of self.new).h) }
        ensures leased { IfOk result (λ leaf.
            map_of (state_of self.new).entries leaf ≡ IsLeased (message_id_bytes message.now)) }
        ensures idle { (state_of self.old).doubt ≡ None → (state_of self.new).entries ≡ (state_of self.old).entries
            → result ≢ Err TableFault.Device → self.new ≡ self.old }
        ensures enters { Enters self.old self.new result }
    {
        let Some(c) = self.plan.number_of(members) else {
            return Err(TableFault::NotACoalition);
        };
        if let Err(fault) = self.settle() {
            return Err(fault);
        }
        self.lease_of(c, message)
    }

    // The leaf of coalition `c` for this message, if nothing is in doubt.
    fn lease_of(&mut self, c: u32, message: &MessageId) -> Result<u32, TableFault>
        requires coalition { c < coalition_count (plan_of self.old) }
        requires settled { (state_of self.old).doubt ≡ None }
        ensures event { LeasesIn (plan_of self.old) (state_of self.old) c message.now result (state_of self.new) }
        ensures within { IfOk result (λ leaf. leaf < 2 ^ (plan_of self.new).h) }
        ensures leased { IfOk result (λ leaf.
            map_of (state_of self.new).entries leaf ≡ IsLeased (message_id_bytes message.now)) }
        ensures idle { (state_of self.old).doubt ≡ None → (state_of self.new).entries ≡ (state_of self.old).entries
            → result ≢ Err TableFault.Device → self.new ≡ self.old }
        ensures enters { Enters self.old self.new result }
    {
        if let Some(leaf) = self.leased_leaf(c, message) {
            return Ok(leaf);
        }
        let Some(leaf) = self.free_leaf(c) else {
            return Err(TableFault::NoLeaf { coalition: c });
        };
        self.put_lease(leaf, message)
    }

    // The least leaf of coalition `c` that is leased for this message and not burnt.
    fn leased_leaf(&self, c: u32, message: &MessageId) -> Option<u32>
        ensures least { IfSome result (IsLeast (plan_of self.now) c
            (map_of (state_of self.now).entries) (IsLeased (message_id_bytes message.now))) }
        ensures none { IfNone result (HasNone (plan_of self.now) c
            (map_of (state_of self.now).entries) (IsLeased (message_id_bytes message.now))) }
    {
        self.index.leased(c, &message.to_bytes())
    }

    // The least free leaf of coalition `c`.
    fn free_leaf(&self, c: u32) -> Option<u32>
        requires { c < coalition_count (plan_of self.now) }
        ensures least { IfSome result
            (IsLeast (plan_of self.now) c (map_of (state_of self.now).entries) IsFree) }
        ensures none { IfNone result
            (HasNone (plan_of self.now) c (map_of (state_of self.now).entries) IsFree) }
    {
        self.index.free(c)
    }

    // Leases a free leaf, if nothing is in doubt.
    fn put_lease(&mut self, leaf: u32, message: &MessageId) -> Result<u32, TableFault>
        requires settled { (state_of self.old).doubt ≡ None }
        requires within { leaf < 2 ^ (plan_of self.old).h }
        requires free { map_of (state_of self.old).entries leaf ≡ IsFree }
        ensures event { Makes (state_of self.old) (Lease.Leased leaf message.now) leaf
            (Slot.Half (message_id_bytes message.now)) result (state_of self.new) }
        ensures leaf { IfOk result (λ got. got ≡ leaf) }
        ensures leased { OnOk result
            (map_of (state_of self.new).entries leaf ≡ IsLeased (message_id_bytes message.now)) }
        ensures new { OnOk result ((state_of self.new).entries ≢ (state_of self.old).entries) }
        ensures enters { Enters self.old self.new result }
    {
        let id = message.to_bytes();
        match self.slots.put_a(leaf, &id) {
            Ok(()) => {
                let message = *message;
                self.entries.push_reserved(Lease::Leased { leaf, message });
                self.index.list(&self.plan, &self.slots, leaf, &id);
                Ok(leaf)
            }
            Err(DiskFault) => Err(TableFault::Device),
        }
    }

    /// Burns a leaf that was leased for this message, with the member that reported it spent. A leaf that is burnt
    /// stays as it is. An entry in doubt is settled first. It takes no memory.
    pub fn burn(&mut self, leaf: u32, message: &MessageId, by: u8) -> Result<(), TableFault>
        requires within { leaf < 2 ^ (plan_of self.old).h }
        requires leased { WasLeasedFor (message_id_bytes message.now) (map_of (state_of self.old).entries leaf) }
        ensures event { Burns (state_of self.old) leaf (message_id_bytes message.now) by result (state_of self.new) }
        ensures idle { (state_of self.old).doubt ≡ None → (state_of self.new).entries ≡ (state_of self.old).entries
            → result ≢ Err TableFault.Device → self.new ≡ self.old }
        ensures enters { Enters self.old self.new result }
    {
        if let Err(fault) = self.settle() {
            return Err(fault);
        }
        let Slot::Half(_) = self.slots.slot(leaf) else {
            return Ok(());
        };
        self.put_burnt(leaf, message, by)
    }

    // Burns a leaf that is leased for this message, if nothing is in doubt.
    fn put_burnt(&mut self, leaf: u32, message: &MessageId, by: u8) -> Result<(), TableFault>
        requires settled { (state_of self.old).doubt ≡ None }
        requires within { leaf < 2 ^ (plan_of self.old).h }
        requires leased { map_of (state_of self.old).entries leaf ≡ IsLeased (message_id_bytes message.now) }
        ensures event { Makes (state_of self.old) (Lease.Burnt leaf) leaf
            (Slot.Full (message_id_bytes message.now) (report_body (message_id_bytes message.now) by) 0) result
            (state_of self.new) }
        ensures new { OnOk result ((state_of self.new).entries ≢ (state_of self.old).entries) }
        ensures enters { Enters self.old self.new result }
    {
        match self.slots.put_b(leaf, &report_bytes(message, by), 0) {
            Ok(()) => {
                self.entries.push_reserved(Lease::Burnt { leaf });
                self.index.unlist(&self.plan, leaf, &message.to_bytes());
                Ok(())
            }
            Err(DiskFault) => Err(TableFault::Device),
        }
    }

    // Finds out whether the entry in doubt was made.
    fn settle(&mut self) -> Result<(), TableFault>
        ensures event { Settles (state_of self.old) result (state_of self.new) }
        ensures idle { (state_of self.old).doubt ≡ None → self.new ≡ self.old }
        ensures enters { Enters self.old self.new result }
    {
        match self.slots.doubt() {
            None => Ok(()),
            Some(doubted) => self.settle_entry(&doubted),
        }
    }

    // Finds out whether this entry, which is in doubt, was made.
    fn settle_entry(&mut self, doubted: &Doubted) -> Result<(), TableFault>
        requires { (state_of self.old).doubt ≡ Some doubted.now }
        ensures event { Settles (state_of self.old) result (state_of self.new) }
        ensures enters { Enters self.old self.new result }
    {
        let (leaf, after) = (doubted.slot, &doubted.after);
        let before = *self.slots.slot(leaf);
        match self.slots.settle() {
            Ok(Settled::Made) => {
                self.entries.push_reserved(lease_of_slot(leaf, after));
                self.index
                    .enter(&self.plan, &self.slots, leaf, &before, after);
                Ok(())
            }
            Ok(Settled::NotMade | Settled::Nothing) => Ok(()),
            Err(fault) => Err(TableFault::of_settling(fault)),
        }
    }

    /// The entries, in the order in which they were made; those of the file first, leaf by leaf.
    pub fn entries(&self) -> &[Lease]
        ensures { result.now ≡ (state_of self.now).entries }
    {
        self.entries.as_slice()
    }

    /// Gives the disk back.
    pub fn end(self) -> D
        ensures disk { result ≡ disk_of self }
        ensures holds { Holds self }
    {
        self.slots.end()
    }
}

/// What tells one table from another for good: its file's header, its plan, and what is known of its disk.
pub struct TableName {
    /// The header of the table's file.
    pub header: Header,
    /// Which coalition signs with which leaf.
    pub plan: Plan,
    /// Whether the disk tells its content.
    pub told: bool,
    /// Whether the disk keeps the model of crashes.
    pub honest: bool,
    /// Whether the disk's calls fail only because of their arguments.
    pub steady: bool,
}

impl<D: Disk> Kept for Table<D> {
    ghost use Rattle.leaf_table.specs.Table.{disk_of, faults_of, header_of, plan_of, state_of};

    type Entry = Lease;

    type Name = TableName;

    ghost entries = { λ table. (state_of table).entries };

    ghost number = { λ table. faults_of table };

    ghost name = { λ table. record {
      header = header_of table;
      plan = plan_of table;
      told = D.told (disk_of table);
      honest = D.honest (disk_of table);
      steady = D.steady (disk_of table);
    } };
}
