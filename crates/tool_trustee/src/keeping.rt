//! The share, whose key stays with its keeper, and what is loaded by it. Nothing here has a net.

ghost use Rattle.std.specs.Prelude.{◌≡◌, ◌≢◌, ◌⊎◌, ◌^◌, IfOk, IfErr, IsTrue};
ghost use Rattle.opening_journal.specs.Loaded.{IsLoaded};
ghost use Rattle.opening_journal.specs.Loading.{LoadRefused};
ghost use Rattle.disk_trait.specs.Faults.{RisesAt};
ghost use Rattle.slot_file.specs.Disks.{Unwritten};
ghost use Rattle.tool_base.specs.Ending as spec;
ghost use Rattle.tool_base.specs.Endings.{ending};
ghost use Rattle.tool_base.specs.Grammars.{FailsGrammar, IsShareRead, share_fault_number};
ghost use Rattle.tool_base.specs.Headers.{book_header};
ghost use Rattle.tool_base.specs.World.{InAnyRun, IsUnchanged};
ghost use Rattle.trustee_core.specs.Trustee.{journal_header};

use disk_trait::Disk;
use opening_journal::{Journal, JournalLoad};
use slot_file::Header;
use std::alloc::Global;
use stream_io::Store;
use tool_base::{Ending, read_share_file};
use trustee_core::KeyKeeper;

/// Reads the share of a trustee, and leaves the key to its keeper.
pub(crate) fn read_keeper<S: Store>(
    alloc: Global,
    store: &mut S,
    name: &str,
) -> Result<KeyKeeper, Ending>
    ensures share { InAnyRun S.state store.old store.new (λ run. IfOk result (IsShareRead run name.now)) }
    ensures refused { InAnyRun S.state store.old store.new (λ run.
        IfErr result (λ end. (ending end ≡ spec.NoMemory) ⊎ FailsGrammar share_fault_number run name.now
        (ending end))) }
    ensures unchanged { IsUnchanged (S.state store.old) (S.state store.new) }
{
    match read_share_file(alloc, store, name) {
        Ok(share) => Ok(KeyKeeper::of(&share)),
        Err(end) => Err(end),
    }
}

/// Loads the journal of the trustee of a share.
pub(crate) fn load_journal<D: Disk>(
    alloc: Global,
    disk: D,
    share: &KeyKeeper,
) -> Result<Journal<D>, (D, JournalLoad)>
    ensures loaded { IfOk result (IsLoaded D.Pages.own D.Faults (journal_header share.now) share.now.params disk) }
    ensures refused { IsTrue (D.told disk)
        → IfErr result (λ e. LoadRefused (journal_header share.now) (2 ^ share.now.params.h) (D.reads disk) e.1) }
    ensures unwritten { IfErr result (λ e. Unwritten D.Pages.own D.Faults disk e.0) }
    ensures succeeds { IsTrue (D.steady disk) → IsTrue (D.told disk)
        → IfErr result (λ e. e.1 ≢ JournalLoad.Device) }
    ensures cause { IfErr result (λ e. RisesAt (D.count disk) (D.count e.0) e.1 JournalLoad.Device) }
{
    Journal::load(alloc, disk, &header_of(share, 2), share.params())
}

/// The header of a trustee's file of slots of a version: 2 for its journal and 3 for its book.
pub(crate) fn header_of(share: &KeyKeeper, version: u8) -> Header
    ensures { result ≡ record (book_header share.now) { version = version } }
{
    let params = share.params();
    Header {
        version,
        number: share.member(),
        lms: params.lms,
        ots: params.ots,
        id: *share.id(),
    }
}
