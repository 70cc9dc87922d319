//! Stores, which hold files by their names, hand out disks and views of them, and take both back.

ghost use Rattle.std.specs.Prelude.{◌≡◌, ◌<◌, ◌≤◌, ◌≢◌, ℕ, Some, None, Err, length, option_map};
ghost use Rattle.std.specs.Prelude.{IsTrue, IfOk, OnOk, OnErr};
ghost use Rattle.stream_io.specs.Store.{Made, Returned, RisesWhere, SameStore, StoreOnward, StoreState, Taken};
ghost use Rattle.stream_io.specs.Store.{ViewEnded, Viewed, Written, has_name, pages_state};
ghost use Rattle.stream_io.specs.declared.call_fault.CallFault.{CallFault};
ghost use Rattle.stream_io.specs.declared.store.NewFault.{NewFault};
ghost use Rattle.stream_io.specs.declared.store.ReadAllFault.{ReadAllFault};

use crate::call_fault::CallFault;
use crate::failed::Failed;
use disk_trait::{Disk, Faults, Pages};
use std::alloc::{AllocError, AllocFailed, Global};
use thiserror::Error;

/// Why a file was not read.
#[derive(Clone, Copy, Debug, PartialEq, Eq, Error)]
pub enum ReadAllFault {
    /// The name is not in the store, or a call of the store failed.
    #[error("the file is not there, or could not be read")]
    Failed,
    /// The file is longer than the limit.
    #[error("the file has {got} bytes, more than the limit")]
    TooLong {
        /// Its length.
        got: u64,
    },
    /// Memory ran out.
    #[error("out of memory")]
    NoMemory,
}

impl From<Failed> for ReadAllFault {
    ghost from_gives = { λ _ fault. fault ≡ ReadAllFault.Failed };

    fn from(_failed: Failed) -> ReadAllFault {
        ReadAllFault::Failed
    }
}

impl From<AllocError> for ReadAllFault {
    ghost from_gives = { λ _ fault. fault ≡ ReadAllFault.NoMemory };

    fn from(_error: AllocError) -> ReadAllFault {
        ReadAllFault::NoMemory
    }
}

/// Why a new file was not written.
#[derive(Clone, Copy, Debug, PartialEq, Eq, Error)]
pub enum NewFault {
    /// The name is in the store.
    #[error("the name is taken, and was wanted new")]
    Exists,
    /// A call of the store failed.
    #[error("the file could not be written")]
    Failed,
    /// Memory ran out.
    #[error("out of memory")]
    NoMemory,
}

impl From<Failed> for NewFault {
    ghost from_gives = { λ _ fault. fault ≡ NewFault.Failed };

    fn from(_failed: Failed) -> NewFault {
        NewFault::Failed
    }
}

impl From<AllocError> for NewFault {
    ghost from_gives = { λ _ fault. fault ≡ NewFault.NoMemory };

    fn from(_error: AllocError) -> NewFault {
        NewFault::NoMemory
    }
}

impl<T: Drop> From<AllocFailed<T>> for NewFault {
    ghost from_gives = { λ _ fault. fault ≡ NewFault.NoMemory };

    fn from(_error: AllocFailed<T>) -> NewFault {
        NewFault::NoMemory
    }
}

/// Who may read a file that is made.
#[derive(Clone, Copy, Debug, PartialEq, Eq)]
pub enum Readers {
    /// Its owner alone, as befits a secret.
    OwnerAlone,
    /// Anyone the system allows by default.
    Anyone,
}

/// What files are read from and written to. A disk that it hands out is owed back to `return_disk`, and a view to
/// `end_view`. While the disk of a name is out, the name is taken, and nothing is read under it.
pub trait Store: Faults {
    /// What is handed out to be read and written.
    type Disk: Disk + Send;

    /// What is handed out to be read.
    type View: Pages + Send;

    /// The store in one state.
    ghost state: { Self → StoreState };

    /// The faults that disks and views had counted when they were given back. It never falls, and stands still at
    /// `u64::MAX`.
    fn disk_faults(&self) -> u64
        ensures { result ≡ (state self.now).disk_count };

    /// Reads the file of that name whole, if it has at most `limit` bytes.
    fn read_all(&mut self, alloc: Global, name: &str, limit: u64) -> Result<Vec<u8>, ReadAllFault>
        ensures bytes { IsTrue (state self.old).told
            → IfOk result (λ v. (state self.old).file name.now ≡ Some v.items) }
        ensures within { IfOk result (λ v. length v.items ≤ limit) }
        ensures above { (got : ℕ) → result ≡ Err (ReadAllFault.TooLong got) → (limit < got)
            × (IsTrue (state self.old).told → option_map length ((state self.old).file name.now) ≡ Some got) }
        ensures absent { IsTrue (state self.old).told → IsTrue (state self.old).steady
            → result ≡ Err ReadAllFault.Failed → (state self.old).file name.now ≡ None }
        ensures same { SameStore (state self.old) (state self.new) }
        ensures cause { RisesWhere (result ≡ Err ReadAllFault.Failed) (state self.old).count (state self.new).count }
        ensures onward { StoreOnward (state self.old) (state self.new) };

    /// Whether the name is in the store, even if its disk is out.
    fn has(&mut self, name: &str) -> Result<bool, CallFault>
        ensures found { IsTrue (state self.old).told
            → IfOk result (λ found. found ≡ has_name (state self.old) name.now) }
        ensures answers { IsTrue (state self.old).steady → result ≢ Err CallFault.Failed }
        ensures same { SameStore (state self.old) (state self.new) }
        ensures cause { RisesWhere (result ≡ Err CallFault.Failed) (state self.old).count (state self.new).count }
        ensures onward { StoreOnward (state self.old) (state self.new) };

    /// Writes a file under a name that is not in the store, for these readers.
    fn write_new(
        &mut self,
        alloc: Global,
        name: &str,
        bytes: &[u8],
        readers: Readers,
    ) -> Result<(), NewFault>
        ensures written { OnOk result (Written (state self.old) name.now bytes.now readers (state self.new)) }
        ensures exists { IsTrue (state self.old).told
            → result ≡ Err NewFault.Exists → IsTrue (has_name (state self.old) name.now) }
        ensures answers { IsTrue (state self.old).steady → result ≢ Err NewFault.Failed }
        ensures refused { OnErr result (SameStore (state self.old) (state self.new)) }
        ensures cause { RisesWhere (result ≡ Err NewFault.Failed) (state self.old).count (state self.new).count }
        ensures onward { StoreOnward (state self.old) (state self.new) };

    /// Makes an empty disk, for these readers, under a name that is not in the store, with room for `size` bytes.
    fn new_disk(
        &mut self,
        alloc: Global,
        name: &str,
        size: usize,
        readers: Readers,
    ) -> Result<Self::Disk, NewFault>
        ensures made { IfOk result (λ disk. Made (state self.old) name.now size readers
            (pages_state Self.Disk.told Self.Disk.honest Self.Disk.steady Self.Disk.count Self.Disk.room
            Self.Disk.reads Self.Disk.may_leave disk)
            (state self.new)) }
        ensures exists { IsTrue (state self.old).told
            → result ≡ Err NewFault.Exists → IsTrue (has_name (state self.old) name.now) }
        ensures answers { IsTrue (state self.old).steady → result ≢ Err NewFault.Failed }
        ensures refused { OnErr result (SameStore (state self.old) (state self.new)) }
        ensures cause { RisesWhere (result ≡ Err NewFault.Failed) (state self.old).count (state self.new).count }
        ensures onward { StoreOnward (state self.old) (state self.new) };

    /// Hands out the disk of that name.
    fn take_disk(&mut self, name: &str) -> Result<Self::Disk, CallFault>
        ensures taken { IfOk result (λ disk. Taken (state self.old) name.now
            (pages_state Self.Disk.told Self.Disk.honest Self.Disk.steady Self.Disk.count Self.Disk.room
            Self.Disk.reads Self.Disk.may_leave disk)
            (state self.new)) }
        ensures absent { IsTrue (state self.old).told → IsTrue (state self.old).steady
            → result ≡ Err CallFault.Failed → (state self.old).file name.now ≡ None }
        ensures refused { OnErr result (SameStore (state self.old) (state self.new)) }
        ensures cause { RisesWhere (result ≡ Err CallFault.Failed) (state self.old).count (state self.new).count }
        ensures onward { StoreOnward (state self.old) (state self.new) };

    /// Takes the disk of that name back, which is as told, honest and steady as when it was handed out.
    fn return_disk(&mut self, name: &str, disk: Self::Disk)
        requires out { IsTrue (state self.old).told → (state self.old).out name.now ≡ Some
            (record { told = Self.Disk.told disk; honest = Self.Disk.honest disk; steady = Self.Disk.steady disk }) }
        ensures returned { Returned (state self.old) name.now
            (pages_state Self.Disk.told Self.Disk.honest Self.Disk.steady Self.Disk.count Self.Disk.room
            Self.Disk.reads Self.Disk.may_leave disk)
            (state self.new) }
        ensures onward { StoreOnward (state self.old) (state self.new) };

    /// Hands out a view of that name. A name may have several at once.
    fn view(&mut self, alloc: Global, name: &str) -> Result<Self::View, CallFault>
        ensures viewed { IfOk result (λ view. Viewed (state self.old) name.now
            (pages_state Self.View.told Self.View.honest Self.View.steady Self.View.count Self.View.room
            Self.View.reads Self.View.may_leave view)
            (state self.new)) }
        ensures absent { IsTrue (state self.old).told → IsTrue (state self.old).steady
            → result ≡ Err CallFault.Failed → (state self.old).file name.now ≡ None }
        ensures refused { OnErr result (SameStore (state self.old) (state self.new)) }
        ensures cause { RisesWhere (result ≡ Err CallFault.Failed) (state self.old).count (state self.new).count }
        ensures onward { StoreOnward (state self.old) (state self.new) };

    /// Takes a view back.
    fn end_view(&mut self, view: Self::View)
        ensures ended { ViewEnded (state self.old)
            (pages_state Self.View.told Self.View.honest Self.View.steady Self.View.count Self.View.room
            Self.View.reads Self.View.may_leave view)
            (state self.new) }
        ensures onward { StoreOnward (state self.old) (state self.new) };

    /// The count of the state is the store's count of faults, and the store is steady if its state is.
    ghost counts: { (store : Self) → (state store).count ≡ Self.count store };

    ghost steadies: { (store : Self) → (state store).steady ≡ Self.steady store };
}
