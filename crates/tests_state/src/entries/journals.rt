//! Journals: a leaf is bound once and opened once, even when calls of the disk fail.

ghost use Rattle.std.specs.Prelude.{◌≡◌, ◌<◌, length};
ghost use Rattle.opening_journal.specs.Journal.{params_of};

use crate::disks::{
    LOAD_CALLS, crashed, failing_file, free_file, header, holding, stopping_file, with_byte,
};
use disk_trait::MemDisk;
use lms_bytes::{MessageId, Params, Val};
use opening_journal::{Entered, Entry, Journal, JournalFault, JournalLoad};
use slot_file::LoadFault;
use std::alloc::Global;
use std::process::Abort;

const ONE: MessageId = MessageId {
    length: 3,
    hash: [0x11; 32],
};

const TWO: MessageId = MessageId {
    length: 300,
    hash: [0x22; 32],
};

/// The parameters of typecodes 5 and 3.
fn params(rt: &impl Abort) -> Params
    ensures codes { (result.lms ≡ 5) × (result.ots ≡ 3) }
    ensures sizes { (result.h ≡ 5) × (result.n ≡ 32) }
{
    let params = Params::of_codes(5, 3).expect(rt, "typecodes");
    assert!(rt; params.h == 5 && params.n == 32);
    params
}

/// A value all of whose bytes are `byte`.
fn value(byte: u8) -> Val
    ensures { length result ≡ 32 }
{
    Val::of(&[byte; 32])
}

/// The answer that a leaf is bound to message `ONE`.
const SPENT: Result<Entered, JournalFault> = Err(JournalFault::Spent { kept: ONE });

/// The answer that a leaf was opened with a C of bytes CC and a Q of bytes DD.
fn other_digest() -> Result<Entered, JournalFault> {
    let (c, digest) = (value(0xCC), value(0xDD));
    Err(JournalFault::OtherDigest { c, digest })
}

/// The entry that binds a leaf.
fn bound(leaf: u32, message: MessageId) -> Entry {
    Entry::Bound { leaf, message }
}

/// The entry that opens leaf 1 for message `ONE` with bytes CC and DD at moment 7.
fn opened() -> Entry {
    Entry::Opened {
        leaf: 1,
        message: ONE,
        c: value(0xCC),
        digest: value(0xDD),
        moment: 7,
    }
}

/// A journal of 32 leaves.
#[derive(Drop)]
struct Leaves {
    journal: Journal<MemDisk>,
    ghost sizes: { ((params_of journal).h ≡ 5) × ((params_of journal).n ≡ 32) },
}

impl Leaves {
    /// Loads the journal of a disk as that of a trustee, if it loads.
    fn load(
        rt: &impl Abort,
        alloc: Global,
        disk: MemDisk,
        number: u8,
    ) -> Result<Leaves, JournalLoad> {
        let params = params(rt);
        match Journal::load(alloc, disk, &header(2, number), &params) {
            Ok(journal) => Ok(Leaves { journal }),
            Err((_, fault)) => Err(fault),
        }
    }

    /// Loads the journal of a disk.
    fn open(rt: &impl Abort, alloc: Global, disk: MemDisk) -> Leaves {
        Leaves::load(rt, alloc, disk, 3).expect(rt, "load")
    }

    /// Whether binding a leaf gives this answer.
    fn binds(&mut self, leaf: u32, message: &MessageId, want: Result<Entered, JournalFault>) -> bool
        requires { leaf < 32 }
    {
        self.journal.bind(leaf, message) == want
    }

    /// Whether opening leaf 1 for message `ONE` with C and Q of these bytes gives this answer.
    fn opens(&mut self, bytes: (u8, u8), moment: u64, want: Result<Entered, JournalFault>) -> bool {
        let (c, digest) = (value(bytes.0), value(bytes.1));
        self.journal.open_leaf(1, &ONE, &c, &digest, moment) == want
    }

    /// Whether these are the entries.
    fn lists(&self, want: &[Entry]) -> bool {
        self.journal.entries() == want
    }

    /// The journal of what a crash leaves.
    fn crash(self, rt: &impl Abort, alloc: Global, pick: u64) -> Leaves {
        Leaves::open(rt, alloc, crashed(rt, alloc, self.journal.end(), pick))
    }
}

/// A journal with no entry.
fn empty_journal(rt: &impl Abort, alloc: Global) -> Leaves {
    Leaves::open(rt, alloc, free_file(rt, alloc, &header(2, 3), 32))
}

/// A journal with no entry, on a disk where one call after the load fails.
fn failing_journal(rt: &impl Abort, alloc: Global, call: u64) -> Leaves {
    let disk = failing_file(
        rt,
        alloc,
        &header(2, 3),
        32,
        LOAD_CALLS.saturating_add(call),
    );
    Leaves::open(rt, alloc, disk)
}

/// Whether two leaves are bound, each for one message.
fn is_bound_once(leaves: &mut Leaves) -> bool {
    let new = leaves.binds(31, &ONE, Ok(Entered::New));
    let old = leaves.binds(31, &ONE, Ok(Entered::Old));
    let other = leaves.binds(31, &TWO, SPENT);
    let next = leaves.binds(0, &TWO, Ok(Entered::New));
    new & old & other & next
}

#[test]
fn a_leaf_is_bound_once(rt: HostRuntime) {
    let mut leaves = empty_journal(&rt, rt.alloc());
    let once = is_bound_once(&mut leaves);
    let made = leaves.lists(&[bound(31, ONE), bound(0, TWO)]);
    let leaves = leaves.crash(&rt, rt.alloc(), 1);
    assert!(rt; once & made & leaves.lists(&[bound(0, TWO), bound(31, ONE)]));
}

/// Whether leaf 1 is opened, for one pair of C and Q.
fn is_opened_once(leaves: &mut Leaves) -> bool {
    let free = leaves.opens((0xCC, 0xDD), 7, Err(JournalFault::NotBound));
    let binds = leaves.binds(1, &ONE, Ok(Entered::New));
    let new = leaves.opens((0xCC, 0xDD), 7, Ok(Entered::New));
    let old = leaves.opens((0xCC, 0xDD), 8, Ok(Entered::Old));
    free & binds & new & old & leaves.opens((0xDD, 0xCC), 9, other_digest())
}

#[test]
fn a_leaf_is_opened_once(rt: HostRuntime) {
    let mut leaves = empty_journal(&rt, rt.alloc());
    let once = is_opened_once(&mut leaves);
    let leaves = leaves.crash(&rt, rt.alloc(), 1);
    assert!(rt; once & leaves.lists(&[bound(1, ONE), opened()]));
}

/// The answer when the disk stops at a call of an entry.
fn stopped(call: u64) -> Result<Entered, JournalFault> {
    if call < 4 {
        Err(JournalFault::Device)
    } else {
        Ok(Entered::New)
    }
}

/// Whether binding leaf 1 and then opening it leaves each as before or as after, if the disk stops at a call: an entry
/// takes four calls, and with pick 1 a crash keeps what was written but not synced.
fn enters_or_not(rt: &impl Abort, alloc: Global, call: u64, pick: u64) -> bool {
    let at = LOAD_CALLS.saturating_add(call);
    let mut leaves = Leaves::open(rt, alloc, stopping_file(rt, alloc, &header(2, 3), 32, at));
    let binds = leaves.binds(1, &ONE, stopped(call));
    let opens = call < 4 || leaves.opens((0xCC, 0xDD), 7, stopped(call - 4));
    let mut leaves = leaves.crash(rt, alloc, pick);
    let whole = [bound(1, ONE), opened()];
    let count = call.saturating_add(u64::from(pick == 1)) / 4;
    let listed = leaves.lists(&whole[..count.min(2) as usize]);
    let again = if count > 0 { SPENT } else { Ok(Entered::New) };
    binds & opens & listed & leaves.binds(1, &TWO, again)
}

/// Whether that is so with each pick.
fn enters_by_each_pick(rt: &impl Abort, alloc: Global, call: u64) -> bool {
    let none = enters_or_not(rt, alloc, call, 0);
    let all = enters_or_not(rt, alloc, call, 1);
    none & all & enters_or_not(rt, alloc, call, 5)
}

#[test]
fn an_entry_is_before_or_after(rt: HostRuntime) {
    for call in 0..9 {
        assert!(rt; enters_by_each_pick(&rt, rt.alloc(), call));
    }
}

/// Binds leaf 1 to one message, which fails at a call, and then to another: whether that gives this answer, and the
/// leaf is bound to this message.
fn binds_again(
    rt: &impl Abort,
    alloc: Global,
    call: u64,
    want: Result<Entered, JournalFault>,
    message: MessageId,
) -> bool {
    let mut leaves = failing_journal(rt, alloc, call);
    let fails = leaves.binds(1, &ONE, Err(JournalFault::Device));
    let answered = leaves.binds(1, &TWO, want);
    fails & answered & leaves.lists(&[bound(1, message)])
}

/// Opens leaf 1 with one pair, which fails at a call, and then with another: whether that gives this answer.
fn opens_again(
    rt: &impl Abort,
    alloc: Global,
    call: u64,
    want: Result<Entered, JournalFault>,
) -> bool {
    let mut leaves = failing_journal(rt, alloc, call.saturating_add(4));
    let binds = leaves.binds(1, &ONE, Ok(Entered::New));
    let fails = leaves.opens((0xCC, 0xDD), 7, Err(JournalFault::Device));
    binds & fails & leaves.opens((0xCE, 0xDE), 7, want)
}

#[test]
fn a_doubtful_entry_is_settled(rt: HostRuntime) {
    for call in 0..3 {
        let binds = binds_again(&rt, rt.alloc(), call, Ok(Entered::New), TWO);
        assert!(rt; binds & opens_again(&rt, rt.alloc(), call, Ok(Entered::New)));
    }
    let binds = binds_again(&rt, rt.alloc(), 3, SPENT, ONE);
    assert!(rt; binds & opens_again(&rt, rt.alloc(), 3, other_digest()));
}

/// Whether the journal of a trustee is refused for this reason.
fn is_refused(rt: &impl Abort, alloc: Global, disk: MemDisk, number: u8, why: JournalLoad) -> bool {
    Leaves::load(rt, alloc, disk, number).err() == Some(why)
}

/// Whether a file that is too short is refused.
fn refuses_short(rt: &impl Abort, alloc: Global) -> bool {
    let (got, want) = (100, 5248);
    let length = JournalLoad::Slots(LoadFault::Length { got, want });
    is_refused(rt, alloc, holding(rt, alloc, &[0xA7; 100]), 3, length)
}

/// Whether the journal of another trustee is refused.
fn refuses_foreign(rt: &impl Abort, alloc: Global) -> bool {
    let kept = header(2, 3);
    let foreign = JournalLoad::Slots(LoadFault::Foreign { kept });
    is_refused(rt, alloc, free_file(rt, alloc, &kept, 32), 4, foreign)
}

/// Whether a journal with a damaged slot is refused.
fn refuses_damaged(rt: &impl Abort, alloc: Global) -> bool {
    let (leaf, a, b) = (1, 0, 0xC2);
    let disk = free_file(rt, alloc, &header(2, 3), 32);
    let damaged = JournalLoad::Damaged { leaf, a, b };
    is_refused(rt, alloc, with_byte(rt, disk, 328, 0xC2), 3, damaged)
}

#[test]
fn other_files_are_refused(rt: HostRuntime) {
    assert!(rt; refuses_short(&rt, rt.alloc()));
    assert!(rt; refuses_foreign(&rt, rt.alloc()));
    assert!(rt; refuses_damaged(&rt, rt.alloc()));
}
