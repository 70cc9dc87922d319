//! A journal of 1,024 leaves in a file of the system, up to its last slot.

ghost use Rattle.std.specs.Prelude.{◌≡◌, length};
ghost use Rattle.opening_journal.specs.Journal.{params_of};

use disk_trait::Disk;
use lms_bytes::{MessageId, Params, Val};
use opening_journal::{Entered, Entry, Journal, JournalFault};
use slot_file::{Header, prepare};
use std::alloc::Global;
use std::fs::{metadata, remove_file};
use std::io;
use std::process::Abort;
use stream_host::FileStore;
use stream_io::{Readers, Store};

/// The message of the last leaf.
const ONE: MessageId = MessageId {
    length: 3,
    hash: [0x11; 32],
};

/// Another message.
const TWO: MessageId = MessageId {
    length: 300,
    hash: [0x22; 32],
};

/// The last leaf.
const LAST: u32 = 1023;

/// The bytes of a journal of 1,024 leaves.
const BYTES: usize = 163_968;

/// A journal of 1,024 leaves, of a set whose hashes have 32 bytes.
#[derive(Drop)]
struct Tall<D: Disk + Drop> {
    journal: Journal<D>,
    ghost sizes: { ((params_of journal).h ≡ 10) × ((params_of journal).n ≡ 32) },
}

/// The parameters of typecodes 6 and 3.
fn params(rt: &impl Abort) -> Params
    ensures sizes { (result.h ≡ 10) × (result.n ≡ 32) }
{
    let params = Params::of_codes(6, 3).expect(rt, "typecodes");
    assert!(rt; params.h == 10 && params.n == 32);
    params
}

/// The header of trustee 3.
fn header(params: &Params) -> Header
    ensures version { result.version ≡ 2 }
    ensures lms { result.lms ≡ params.now.lms }
    ensures ots { result.ots ≡ params.now.ots }
{
    Header {
        version: 2,
        number: 3,
        lms: params.lms,
        ots: params.ots,
        id: [0x1d; 16],
    }
}

/// A value all of whose bytes are `byte`.
fn value(byte: u8) -> Val
    ensures { length result ≡ 32 }
{
    Val::of(&[byte; 32])
}

impl<D: Disk + Drop> Tall<D> {
    /// Loads the journal of a disk.
    fn open(rt: &impl Abort, alloc: Global, disk: D) -> Tall<D> {
        let params = params(rt);
        match Journal::load(alloc, disk, &header(&params), &params) {
            Ok(journal) => Tall { journal },
            Err((_, fault)) => panic!(rt; "load: {fault}"),
        }
    }

    /// Whether binding the last leaf gives this answer.
    fn binds_last(&mut self, message: &MessageId, want: Result<Entered, JournalFault>) -> bool {
        self.journal.bind(LAST, message) == want
    }

    /// Whether the last leaf is opened.
    fn opens_last(&mut self) -> bool {
        let (c, digest) = (value(0xCC), value(0xDD));
        self.journal.open_leaf(LAST, &ONE, &c, &digest, 7) == Ok(Entered::New)
    }

    /// Binds and opens the last leaf.
    fn enter_last(&mut self) -> bool {
        self.binds_last(&ONE, Ok(Entered::New)) && self.opens_last()
    }

    /// Whether these are the entries.
    fn lists(&self, want: &[Entry]) -> bool {
        self.journal.entries() == want
    }

    /// Whether the last leaf alone was bound and opened, and is bound to no other message.
    fn has_last(&mut self) -> bool {
        let bound = Entry::Bound {
            leaf: LAST,
            message: ONE,
        };
        let opened = Entry::Opened {
            leaf: LAST,
            message: ONE,
            c: value(0xCC),
            digest: value(0xDD),
            moment: 7,
        };
        let spent = Err(JournalFault::Spent { kept: ONE });
        self.lists(&[bound, opened]) && self.binds_last(&TWO, spent)
    }
}

/// Whether a disk is made into a journal of 1,024 leaves.
fn is_prepared<D: Disk>(rt: &impl Abort, disk: &mut D) -> bool {
    prepare(disk, &header(&params(rt)), 1024) == Ok(())
}

/// Whether the last leaf is entered in the journal of a disk.
fn enters_last<D: Disk + Drop>(rt: &impl Abort, alloc: Global, disk: D) -> bool {
    Tall::open(rt, alloc, disk).enter_last()
}

/// Makes a journal of this name, and enters its last leaf.
fn make<S: Store>(rt: &impl Abort, alloc: Global, store: &mut S, name: &str)
where
    S::Disk: Drop,
{
    let made = store.new_disk(alloc, name, BYTES, Readers::OwnerAlone);
    let mut disk = made.ok().expect(rt, "a new file");
    assert!(rt; is_prepared(rt, &mut disk) && enters_last(rt, alloc, disk));
}

/// Takes that journal, and looks for the leaf.
fn take<S: Store>(rt: &impl Abort, alloc: Global, store: &mut S, name: &str)
where
    S::Disk: Drop,
{
    let disk = store.take_disk(name).ok().expect(rt, "the file");
    assert!(rt; Tall::open(rt, alloc, disk).has_last());
}

/// Makes that journal, takes it, and looks for the leaf.
fn keep<S: Store>(rt: &impl Abort, alloc: Global, store: &mut S, name: &str)
where
    S::Disk: Drop,
{
    make(rt, alloc, store, name);
    take(rt, alloc, store, name);
}

#[test]
fn the_last_leaf_of_a_tall_journal_is_kept(rt: HostRuntime) -> io::Result<()> {
    let name = "the_last_leaf_of_a_tall_journal_is_kept.journal";
    keep(&rt, rt.alloc(), &mut FileStore::new(rt), name);
    assert!(rt; metadata(&rt, name)?.len() == BYTES as u64);
    remove_file(&rt, name)
}
