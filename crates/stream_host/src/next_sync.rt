//! Which sync a file is to be asked for next.

ghost use Rattle.std.specs.Prelude.{◌≡◌, ◌≢◌, List, ℕ, IsTrue, IsFalse, IsOk, OnOk};
ghost use Rattle.disk_trait.specs.Disks.{SameKind};
ghost use Rattle.disk_trait.specs.Images.{Only};
ghost use Rattle.stream_host.specs.declared.next_sync.NextSync.{NextSync};

use disk_trait::{DiskFault, Faults};
use stream_io::RawFile;

/// What the next sync of a file asks of the system.
#[derive(Clone, Copy)]
pub(crate) enum NextSync {
    /// The bytes and all that the system knows of the file, including its length.
    All,
    /// The bytes: the file is as long as at the last sync.
    Data,
    /// Nothing: a sync has failed, and so does each later one.
    Fails,
}

impl NextSync {
    /// The next sync after a write, which may have made the file longer.
    pub(crate) fn after_write(self, grows: bool) -> NextSync
        ensures data { result ≡ NextSync.Data → self ≡ NextSync.Data }
        ensures grows { result ≡ NextSync.Data → IsFalse grows }
        ensures fails { self ≡ NextSync.Fails → result ≡ NextSync.Fails }
        ensures goes_on { self ≢ NextSync.Fails → result ≢ NextSync.Fails }
    {
        match self {
            NextSync::Data if grows => NextSync::All,
            same => same,
        }
    }

    /// The next sync after one that succeeded or failed.
    pub(crate) fn after_sync(succeeded: bool) -> NextSync
        ensures data { result ≡ NextSync.Data → IsTrue succeeded }
        ensures fails { IsFalse succeeded → result ≡ NextSync.Fails }
        ensures goes_on { IsTrue succeeded → result ≢ NextSync.Fails }
    {
        if succeeded {
            NextSync::Data
        } else {
            NextSync::Fails
        }
    }
}

/// Makes a file stable by its next sync.
pub(crate) fn sync_file<F: RawFile>(file: &mut F, next: NextSync) -> Result<(), DiskFault>
    requires settled { IsTrue (F.told file.old) → next ≡ NextSync.Data → IsFalse (F.grown file.old) }
    requires unforgotten { IsTrue (F.told file.old) → IsTrue (F.sync_failed file.old) → next ≡ NextSync.Fails }
    ensures stable { IsTrue (F.honest file.old) → IsTrue (F.told file.old)
        → OnOk result (Only (F.reads file.old) (F.may_leave file.new)) }
    ensures images { IsTrue (F.honest file.old)
        → (image : List ℕ) → F.may_leave file.new image → F.may_leave file.old image }
    ensures same { IsTrue (F.told file.old) → F.reads file.new ≡ F.reads file.old }
    ensures grown { IsTrue (F.told file.old) → OnOk result (IsFalse (F.grown file.new)) }
    ensures failed { IsTrue (F.told file.old) → OnOk result (IsFalse (F.sync_failed file.new)) }
    ensures succeeds { IsTrue (F.Faults.steady file.old) → next ≢ NextSync.Fails → IsOk result }
    ensures stays { SameKind F.told F.honest F.Faults.steady F.room file.old file.new }
{
    match next {
        NextSync::All => file.sync_all(),
        NextSync::Data => file.sync_data(),
        NextSync::Fails => Err(DiskFault),
    }
}
