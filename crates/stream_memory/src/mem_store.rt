//! A store in memory.

ghost use Rattle.std.specs.Prelude.{◌≡◌, ◌≢◌, ◌≤◌, ◌&&◌, ℕ, List, IfOk, IsTrue, Err, Some, false, map, refl, length};
ghost use Rattle.std.specs.Prelude.{OnErr, OnOk, if◌then◌else◌, option_copied};
ghost use Rattle.std.specs.List.{list_all};
ghost use Rattle.disk_trait.specs.MemDisk.{is_steady};
ghost use Rattle.stream_io.specs.Store.{RisesWhere, SameStore, StoreOnward, Written, has_name};
ghost use Rattle.stream_memory.specs.Calls.{is_empty};
ghost use Rattle.stream_memory.specs.MemStore.{Begun, disk_of, file_disk, full_disk, is_steady_store, kind, new_disk};
ghost use Rattle.stream_memory.specs.MemStore.{store_of};

use crate::Calls;
use crate::entries::{Entries, Slot};
use crate::stored_disk::StoredDisk;
use disk_trait::{Faults, MemDisk};
use memory::NoMemory;
use std::alloc::Global;
use stream_io::{CallFault, NewFault, ReadAllFault, Readers, Store};

/// A store that holds its disks in memory. It tells its content, and is steady if no call is listed to fail, no call of
/// views or of the disks of new names is set to fail, and all its disks are steady.
#[derive(Drop)]
pub struct MemStore {
    entries: Entries,
    calls: Calls,
    // how many views are out
    views: u64,
    // the number of the call that fails, in each view
    view_fails: Option<u64>,
    // the number of the first call that fails, in the disk of each new name
    new_stops: Option<u64>,
    // the faults of the disks and views that were given back
    disk_faults: u64,
}

impl MemStore {
    /// A store of these disks, each with its name and for anyone to read; if two have the same name, the first counts.
    /// The calls whose numbers are listed fail; the first call has the number 0.
    pub fn new(
        alloc: Global,
        disks: Vec<(String, MemDisk)>,
        failing: Vec<u64>,
    ) -> Result<MemStore, NoMemory>
        ensures begun { IfOk result (λ s. Begun disks.items (⟦<MemStore as Store>⟧.state s)) }
        ensures steady { IfOk result (λ s. (⟦<MemStore as Store>⟧.state s).steady
            ≡ (is_empty failing.items && list_all (λ disk. is_steady disk.1) disks.items)) }
    {
        Ok(MemStore {
            entries: Entries::new(alloc, disks)?,
            calls: Calls::new(failing),
            views: 0,
            view_fails: None,
            new_stops: None,
            disk_faults: 0,
        })
    }

    /// As `new`, of files: each is a disk whose bytes are all stable and which has no room for more.
    pub fn of_files(
        alloc: Global,
        files: Vec<(String, Vec<u8>)>,
        failing: Vec<u64>,
    ) -> Result<MemStore, NoMemory>
        ensures begun { IfOk result (λ s. Begun (map file_disk files.items) (⟦<MemStore as Store>⟧.state s)) }
        ensures steady { IfOk result (λ s. (⟦<MemStore as Store>⟧.state s).steady ≡ is_empty failing.items) }
    {
        MemStore::new(alloc, disks_of(alloc, files)?, failing)
    }

    /// Makes the call of this number fail in each view that is handed out from now on, counted from 0 over the view's
    /// life.
    pub fn fail_views(&mut self, call: u64)
        ensures same { SameStore (⟦<MemStore as Store>⟧.state self.old) (⟦<MemStore as Store>⟧.state self.new) }
        ensures count { (⟦<MemStore as Store>⟧.state self.new).count ≡ (⟦<MemStore as Store>⟧.state self.old).count }
        ensures steady { (⟦<MemStore as Store>⟧.state self.new).steady ≡ false }
        ensures told { IsTrue (⟦<MemStore as Store>⟧.state self.new).told }
        ensures disks { (name : List ℕ) →
            (⟦<MemStore as Store>⟧.state self.new).disks name ≡ (⟦<MemStore as Store>⟧.state self.old).disks name }
        ensures readers { (name : List ℕ) →
            (⟦<MemStore as Store>⟧.state self.new).readers name ≡ (⟦<MemStore as Store>⟧.state self.old).readers name }
    {
        self.view_fails = Some(call);
    }

    /// Makes the call of this number and all later ones fail in the disk of each name that is new from now on, counted
    /// from 0 over the disk's life.
    pub fn stop_new_disks(&mut self, call: u64)
        ensures same { SameStore (⟦<MemStore as Store>⟧.state self.old) (⟦<MemStore as Store>⟧.state self.new) }
        ensures count { (⟦<MemStore as Store>⟧.state self.new).count ≡ (⟦<MemStore as Store>⟧.state self.old).count }
        ensures steady { (⟦<MemStore as Store>⟧.state self.new).steady ≡ false }
        ensures told { IsTrue (⟦<MemStore as Store>⟧.state self.new).told }
        ensures disks { (name : List ℕ) → (⟦<MemStore as Store>⟧.state self.new).disks name
            ≡ (if has_name (⟦<MemStore as Store>⟧.state self.old) name
            then (⟦<MemStore as Store>⟧.state self.old).disks name else kind false) }
        ensures readers { (name : List ℕ) →
            (⟦<MemStore as Store>⟧.state self.new).readers name ≡ (⟦<MemStore as Store>⟧.state self.old).readers name }
    {
        self.new_stops = Some(call);
    }

    /// What reading a name gives.
    pub fn bytes(&self, name: &str) -> Option<&[u8]>
        ensures { option_copied result ≡ (⟦<MemStore as Store>⟧.state self.now).file name.now }
    {
        self.entries.bytes(name)
    }

    /// Who may read the file of this name.
    pub fn readers(&self, name: &str) -> Option<Readers>
        ensures { result ≡ (⟦<MemStore as Store>⟧.state self.now).readers name.now }
    {
        self.entries.readers(name)
    }

    /// Makes a disk of these bytes, with this room, under a name that is not in the store, for these readers.
    fn enter(
        &mut self,
        alloc: Global,
        name: &str,
        bytes: &[u8],
        room: usize,
        readers: Readers,
    ) -> Result<(), NewFault>
        requires { length bytes.now ≤ room }
        ensures written { OnOk result (Written (store_of self.old) name.now bytes.now readers (store_of self.new)) }
        ensures disk { OnOk result (disk_of self.new.entries.list.items name.now
            ≡ Some (new_disk bytes.now room self.old.new_stops)) }
        ensures exists { result ≡ Err NewFault.Exists → IsTrue (has_name (store_of self.old) name.now) }
        ensures answers { IsTrue (store_of self.old).steady → result ≢ Err NewFault.Failed }
        ensures refused { OnErr result (SameStore (store_of self.old) (store_of self.new)) }
        ensures cause { RisesWhere (result ≡ Err NewFault.Failed) (store_of self.old).count (store_of self.new).count }
        ensures onward { StoreOnward (store_of self.old) (store_of self.new) }
    {
        self.calls.make()?;
        if self.entries.has(name) {
            return Err(NewFault::Exists);
        }
        let Ok(disk) = new_disk(alloc, bytes, room, self.new_stops) else {
            return Err(NewFault::NoMemory);
        };
        self.entries.add(alloc, name, Slot::Here(disk), readers)?;
        Ok(())
    }
}

/// A disk of these bytes, all of them stable, with no room for more.
fn full_disk(alloc: Global, bytes: &[u8]) -> Result<MemDisk, NoMemory>
    ensures { IfOk result (λ disk. disk ≡ full_disk bytes.now) }
{
    MemDisk::of_bytes(alloc, bytes, bytes.len(), usize::MAX)
}

/// A disk of these bytes, all of them stable, with this room, which stops at the call of that number, if there is one.
fn new_disk(
    alloc: Global,
    bytes: &[u8],
    room: usize,
    stops: Option<u64>,
) -> Result<MemDisk, NoMemory>
    requires { length bytes.now ≤ room }
    ensures { IfOk result (λ disk. disk ≡ new_disk bytes.now room stops) }
{
    let mut disk = MemDisk::of_bytes(alloc, bytes, room, usize::MAX)?;
    if let Some(call) = stops {
        disk.stop_at(call);
    }
    Ok(disk)
}

/// A file as a disk, with its name.
fn file_disk(alloc: Global, file: (String, Vec<u8>)) -> Result<(String, MemDisk), NoMemory>
    ensures { IfOk result (λ disk. disk ≡ file_disk file) }
{
    let (name, bytes) = file;
    Ok((name, full_disk(alloc, bytes.as_slice())?))
}

/// Files as disks, each with its name.
fn disks_of(
    alloc: Global,
    files: Vec<(String, Vec<u8>)>,
) -> Result<Vec<(String, MemDisk)>, NoMemory>
    ensures { IfOk result (λ disks. disks.items ≡ map file_disk files.items) }
{
    let mut disks = Vec::with_capacity(alloc, files.len())?;
    for file in files {
        disks.push(file_disk(alloc, file)?)?;
    }
    Ok(disks)
}

/// A view of these bytes, whose call of that number fails, if there is one.
fn view_of(alloc: Global, bytes: &[u8], fails: Option<u64>) -> Result<StoredDisk, NoMemory>
    ensures disk { IfOk result (λ view. view.disk ≡ record (full_disk bytes.now) { fails = fails }) }
    ensures fresh { IfOk result (λ view. view.faults ≡ 0) }
{
    let mut disk = full_disk(alloc, bytes)?;
    if let Some(call) = fails {
        disk.fail_once(call);
    }
    Ok(StoredDisk::new(disk))
}

impl Faults for MemStore {
    ghost count = { λ s. s.calls.faults };

    ghost steady = { λ s. is_steady_store s.calls.failing.items s.view_fails s.new_stops s.entries.list.items };

    fn faults(&self) -> u64 {
        self.calls.faults
    }
}

impl Store for MemStore {
    type Disk = StoredDisk;

    type View = StoredDisk;

    ghost state = { store_of };

    fn disk_faults(&self) -> u64 {
        self.disk_faults
    }

    fn read_all(&mut self, alloc: Global, name: &str, limit: u64) -> Result<Vec<u8>, ReadAllFault> {
        self.calls.make()?;
        let Some(bytes) = self.entries.bytes(name) else {
            return Err(ReadAllFault::from(self.calls.fail()));
        };
        let got = bytes.len() as u64;
        if got > limit {
            return Err(ReadAllFault::TooLong { got });
        }
        Ok(Vec::from_slice(alloc, bytes)?)
    }

    fn has(&mut self, name: &str) -> Result<bool, CallFault> {
        self.calls.make()?;
        Ok(self.entries.has(name))
    }

    fn write_new(
        &mut self,
        alloc: Global,
        name: &str,
        bytes: &[u8],
        readers: Readers,
    ) -> Result<(), NewFault> {
        self.enter(alloc, name, bytes, bytes.len(), readers)
    }

    fn new_disk(
        &mut self,
        alloc: Global,
        name: &str,
        size: usize,
        readers: Readers,
    ) -> Result<StoredDisk, NewFault> {
        self.enter(alloc, name, &[], size, readers)?;
        Ok(StoredDisk::new(self.entries.lend(name).unwrap()))
    }

    fn take_disk(&mut self, name: &str) -> Result<StoredDisk, CallFault> {
        self.calls.make()?;
        match self.entries.lend(name) {
            Some(disk) => Ok(StoredDisk::new(disk)),
            None => Err(CallFault::from(self.calls.fail())),
        }
    }

    fn return_disk(&mut self, name: &str, disk: StoredDisk) {
        self.disk_faults = self.disk_faults.saturating_add(disk.faults);
        self.entries.take_back(name, disk.disk);
    }

    fn view(&mut self, alloc: Global, name: &str) -> Result<StoredDisk, CallFault> {
        self.calls.make()?;
        let Some(bytes) = self.entries.bytes(name) else {
            return Err(CallFault::from(self.calls.fail()));
        };
        if self.views == u64::MAX {
            return Err(CallFault::NoMemory);
        }
        let view = view_of(alloc, bytes, self.view_fails)?;
        self.views += 1;
        Ok(view)
    }

    fn end_view(&mut self, view: StoredDisk) {
        self.disk_faults = self.disk_faults.saturating_add(view.faults);
        self.views = self.views.saturating_sub(1);
    }

    ghost counts = { λ _. refl };

    ghost steadies = { λ _. refl };
}
