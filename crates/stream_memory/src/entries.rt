//! The names of a store in memory, each with its disk or with what is known of it while it is out.

ghost use Rattle.std.specs.Prelude.{◌≡◌, ◌&&◌, ℕ, List, None, Some, IfOk, IfSome, IfNone, IfErr, OnOk};
ghost use Rattle.std.specs.Prelude.{OnErr};
ghost use Rattle.std.specs.Prelude.{is_some, map, option_copied, position};
ghost use Rattle.stream_io.specs.Store.{added};
ghost use Rattle.disk_trait.specs.MemDisk.{is_steady};
ghost use Rattle.stream_memory.specs.MemStore.{are_steady, disk_in, disk_of, entry_of, file_of, has_that_name, slot_of};
ghost use Rattle.stream_memory.specs.MemStore.{readers_of, steady_in};

use disk_trait::MemDisk;
use memory::NoMemory;
use std::alloc::Global;
use std::mem;
use stream_io::{NewFault, Readers};

/// Where the disk of a name is.
#[derive(Drop)]
pub(crate) enum Slot {
    /// In the store.
    Here(MemDisk),
    /// Out.
    Out {
        /// Whether it was steady when it was handed out.
        steady: bool,
    },
}

/// A name of a store.
#[derive(Drop)]
pub(crate) struct Entry {
    pub(crate) name: String,
    pub(crate) slot: Slot,
    pub(crate) readers: Readers,
}

/// The names of a store. Of two entries with one name the first counts.
#[derive(Drop)]
pub(crate) struct Entries {
    pub(crate) list: Vec<Entry>,
}

impl Slot {
    /// Whether the disk is steady, or was when it was handed out.
    fn is_steady(&self) -> bool
        ensures { result ≡ steady_in self.now }
    {
        match self {
            Slot::Here(disk) => disk.is_steady(),
            Slot::Out { steady } => *steady,
        }
    }

    /// Moves the disk out, if it is here.
    fn take(&mut self) -> Option<MemDisk>
        ensures taken { result ≡ disk_in self.old }
        ensures out { self.new ≡ Slot.Out (steady_in self.old) }
    {
        let out = Slot::Out {
            steady: self.is_steady(),
        };
        match mem::replace(self, out) {
            Slot::Here(disk) => Some(disk),
            Slot::Out { .. } => None,
        }
    }
}

impl Entries {
    /// The entries of these disks, each with its name, all of them here, for anyone to read.
    pub(crate) fn new(alloc: Global, disks: Vec<(String, MemDisk)>) -> Result<Entries, NoMemory>
        ensures { IfOk result (λ entries. entries.list.items ≡ map entry_of disks.items) }
    {
        let mut list = Vec::with_capacity(alloc, disks.len())?;
        for (name, disk) in disks {
            list.push(Entry {
                name,
                slot: Slot::Here(disk),
                readers: Readers::Anyone,
            })?;
        }
        Ok(Entries { list })
    }

    /// The place of the first entry of that name.
    fn place_of(&self, name: &str) -> Option<usize>
        ensures { result ≡ position (has_that_name name.now) self.now.list.items }
    {
        self.list
            .iter()
            .position(|entry| entry.name.as_str() == name)
    }

    /// Whether a name is there, even if its disk is out.
    #[tactic(auto, using(crate::proofs::Added::is_placed))]
    pub(crate) fn has(&self, name: &str) -> bool
        ensures { result ≡ is_some (slot_of self.now.list.items name.now) }
    {
        self.place_of(name).is_some()
    }

    /// The bytes of the disk of that name, if it is here.
    pub(crate) fn bytes(&self, name: &str) -> Option<&[u8]>
        ensures { option_copied result ≡ file_of self.now.list.items name.now }
    {
        let place = self.place_of(name)?;
        match &self.list[place].slot {
            Slot::Here(disk) => Some(disk.bytes()),
            Slot::Out { .. } => None,
        }
    }

    /// Who may read the file of that name, if it is there.
    pub(crate) fn readers(&self, name: &str) -> Option<Readers>
        ensures { result ≡ readers_of self.now.list.items name.now }
    {
        let place = self.place_of(name)?;
        Some(self.list[place].readers)
    }

    /// Moves the disk of that name out, if it is here.
    pub(crate) fn lend(&mut self, name: &str) -> Option<MemDisk>
        ensures lent { result ≡ disk_of self.old.list.items name.now }
        ensures slots { IfSome result (λ disk. (other : List ℕ) → slot_of self.new.list.items other
            ≡ added (slot_of self.old.list.items) name.now (Slot.Out (is_steady disk)) other) }
        ensures refused { IfNone result (self.new.list.items ≡ self.old.list.items) }
        ensures readers { (other : List ℕ) →
            readers_of self.new.list.items other ≡ readers_of self.old.list.items other }
        ensures steady { are_steady self.new.list.items ≡ are_steady self.old.list.items }
    {
        let place = self.place_of(name)?;
        self.list[place].slot.take()
    }

    /// Takes back the disk of a name, which is out and was as steady.
    pub(crate) fn take_back(&mut self, name: &str, disk: MemDisk)
        requires { slot_of self.old.list.items name.now ≡ Some (Slot.Out (is_steady disk)) }
        ensures slots { (other : List ℕ) → slot_of self.new.list.items other
            ≡ added (slot_of self.old.list.items) name.now (Slot.Here disk) other }
        ensures readers { (other : List ℕ) →
            readers_of self.new.list.items other ≡ readers_of self.old.list.items other }
        ensures steady { are_steady self.new.list.items ≡ are_steady self.old.list.items }
    {
        let place = self.place_of(name).unwrap();
        self.list[place].slot = Slot::Here(disk);
    }

    /// Adds a name that is not there, after the others.
    pub(crate) fn add(
        &mut self,
        alloc: Global,
        name: &str,
        slot: Slot,
        readers: Readers,
    ) -> Result<(), NewFault>
        requires { slot_of self.old.list.items name.now ≡ None }
        ensures slots { OnOk result ((other : List ℕ) → slot_of self.new.list.items other
            ≡ added (slot_of self.old.list.items) name.now slot other) }
        ensures readers { OnOk result ((other : List ℕ) → readers_of self.new.list.items other
            ≡ added (readers_of self.old.list.items) name.now readers other) }
        ensures steady { OnOk result
            (are_steady self.new.list.items ≡ (are_steady self.old.list.items && steady_in slot)) }
        ensures refused { OnErr result (self.new.list.items ≡ self.old.list.items) }
        ensures memory { IfErr result (λ fault. fault ≡ NewFault.NoMemory) }
    {
        let name = String::from_str(alloc, name)?;
        self.list.push(Entry {
            name,
            slot,
            readers,
        })?;
        Ok(())
    }
}
