//! Books of approved messages: a message is listed once, even when calls of the disk fail, and no other is answered.

ghost use Rattle.std.specs.Prelude.{◌<◌, ◌^◌, length};

use crate::disks::{crashed, failing_file, free_file, header, stopping_file, with_byte};
use crate::trustees::shares::{empty_journal, share, trustee_on};
use approval_book::{Approved, Book, BookFault, Denial, decide_approved};
use disk_trait::{Disk, MemDisk};
use lms_bytes::{Ask, MessageId};
use opening_journal::Entered;
use slot_file::{CacheLoad, LoadFault};
use std::alloc::Global;
use std::process::Abort;
use trustee_core::Trustee;

/// How many calls of the disk a load makes: one sync, the length, the header, and 32 reads of 32 slots each.
const LOAD_CALLS: u64 = 35;

/// Loads the book of a disk, if there is one.
fn load(alloc: Global, disk: MemDisk) -> Result<Book<MemDisk>, CacheLoad> {
    match Book::load(alloc, disk, &header(3, 3)) {
        Ok(book) => Ok(book),
        Err((_, fault)) => Err(fault),
    }
}

/// Loads the book of a disk.
fn loaded(rt: &impl Abort, alloc: Global, disk: MemDisk) -> Book<MemDisk> {
    load(alloc, disk).expect(rt, "load")
}

/// A book that lists nothing.
fn empty_book(rt: &impl Abort, alloc: Global) -> Book<MemDisk> {
    loaded(rt, alloc, free_file(rt, alloc, &header(3, 3), 1024))
}

/// The book of what a crash leaves.
fn after_crash(rt: &impl Abort, alloc: Global, book: Book<MemDisk>, pick: u64) -> Book<MemDisk> {
    loaded(rt, alloc, crashed(rt, alloc, book.end(), pick))
}

/// Whether listing a message gives this answer.
fn adds(book: &mut Book<MemDisk>, text: &[u8], want: Result<Entered, BookFault>) -> bool
    requires { length text.now < 2 ^ 32 }
{
    book.add(&MessageId::of(text)) == want
}

/// Whether a book lists a message.
fn lists(book: &Book<MemDisk>, text: &[u8]) -> bool
    requires { length text.now < 2 ^ 32 }
{
    book.approved().has(&MessageId::of(text))
}

/// Whether two messages are listed, each once.
fn lists_two(book: &mut Book<MemDisk>) -> bool {
    let before = lists(book, b"abc");
    let new = adds(book, b"abc", Ok(Entered::New));
    let old = adds(book, b"abc", Ok(Entered::Old));
    let one = book.count() == 1;
    let other = adds(book, b"", Ok(Entered::New));
    !before & new & old & one & other & (book.count() == 2)
}

/// Whether they are listed, and no more.
fn has_two(book: &Book<MemDisk>) -> bool {
    lists(book, b"abc") & lists(book, b"") & (book.count() == 2)
}

/// Whether the book of what a crash leaves lists them, and no more.
fn keeps_two(rt: &impl Abort, alloc: Global, book: Book<MemDisk>) -> bool {
    has_two(&after_crash(rt, alloc, book, 0))
}

#[test]
fn a_message_is_listed_once(rt: HostRuntime) {
    let mut book = empty_book(&rt, rt.alloc());
    let two = lists_two(&mut book);
    assert!(rt; two & keeps_two(&rt, rt.alloc(), book));
}

/// The answer when the disk stops at a call of a listing.
fn stopped(call: u64) -> Result<Entered, BookFault> {
    if call < 4 {
        Err(BookFault::Device)
    } else {
        Ok(Entered::New)
    }
}

/// Whether a listing that stops at a call is made, given this pick of a crash.
fn is_made(call: u64, pick: u64) -> bool {
    call == 4 || call == 3 && pick == 1
}

/// Lists `abc`, stopped at a call of the disk: whether that gives the answer expected, and the book of what a crash
/// leaves lists it or not, as expected.
fn adds_or_not(rt: &impl Abort, alloc: Global, call: u64, pick: u64) -> bool {
    let disk = stopping_file(
        rt,
        alloc,
        &header(3, 3),
        1024,
        LOAD_CALLS.saturating_add(call),
    );
    let mut book = loaded(rt, alloc, disk);
    let answered = adds(&mut book, b"abc", stopped(call));
    let listed = lists(&after_crash(rt, alloc, book, pick), b"abc");
    answered & (listed == is_made(call, pick))
}

/// Lists `abc`, which fails, and then another message: whether `count` are then listed.
fn adds_after_failing(book: &mut Book<MemDisk>, count: u32) -> bool {
    let fails = adds(book, b"abc", Err(BookFault::Device));
    let other = adds(book, b"", Ok(Entered::New));
    fails & other & (book.count() == count)
}

/// Lists `abc` on a disk that fails at a call, and then another message: whether `count` are then listed.
fn adds_again(rt: &impl Abort, alloc: Global, call: u64, count: u32) -> bool {
    let disk = failing_file(
        rt,
        alloc,
        &header(3, 3),
        1024,
        LOAD_CALLS.saturating_add(call),
    );
    adds_after_failing(&mut loaded(rt, alloc, disk), count)
}

#[test]
fn a_listing_is_before_or_after_and_a_doubt_is_settled(rt: HostRuntime) {
    for call in 0..5 {
        let whole = adds_or_not(&rt, rt.alloc(), call, 0);
        assert!(rt; whole & adds_or_not(&rt, rt.alloc(), call, 1));
    }
    for call in 0..3 {
        assert!(rt; adds_again(&rt, rt.alloc(), call, 1));
    }
    assert!(rt; adds_again(&rt, rt.alloc(), 3, 2));
}

/// Writes the content of a full book: in slot `i` the message that consists of the bytes of `i`.
fn fill(disk: &mut MemDisk) -> bool {
    for i in 0..1024_u64 {
        let place = 128 * (i + 1);
        let id = MessageId::of(&i.to_be_bytes()).to_bytes();
        let open = disk.write_at(place, &[0xB1]).is_ok();
        if !(open & disk.write_at(place + 4, &id).is_ok()) {
            return false;
        }
    }
    true
}

/// Whether a full book lists no further message, and knows what it lists.
fn is_full(book: &mut Book<MemDisk>) -> bool {
    let full = adds(book, b"abc", Err(BookFault::Full));
    let old = adds(book, &[0; 8], Ok(Entered::Old));
    full & old & (book.count() == 1024)
}

#[test]
fn a_full_book_lists_no_more(rt: HostRuntime) {
    let mut disk = free_file(&rt, rt.alloc(), &header(3, 3), 1024);
    let filled = fill(&mut disk);
    let mut book = loaded(&rt, rt.alloc(), disk);
    assert!(rt; filled & is_full(&mut book));
}

/// Whether a free file with a different byte at one place is refused for this reason.
fn is_refused(rt: &impl Abort, alloc: Global, place: u64, byte: u8, why: CacheLoad) -> bool {
    let disk = free_file(rt, alloc, &header(3, 3), 1024);
    load(alloc, with_byte(rt, disk, place, byte)).err() == Some(why)
}

#[test]
fn a_load_is_refused(rt: HostRuntime) {
    let (slot, a, b) = (0, 0, 0xC2);
    assert!(rt;
        is_refused(
            &rt,
            rt.alloc(),
            168,
            0xC2,
            CacheLoad::Damaged { slot, a, b }
        )
    );
    let version = CacheLoad::Slots(LoadFault::Version { got: 2 });
    assert!(rt; is_refused(&rt, rt.alloc(), 4, 2, version));
}

/// The answer to an ask of round one, by its number, or 0 if it is granted.
fn code(
    book: Option<&Approved>,
    trustee: &mut Trustee<MemDisk>,
    key: [u8; 16],
    leaf: u32,
    text: &[u8; 3],
) -> u8 {
    let ask = Ask {
        key,
        leaf,
        message: MessageId::of(text),
        second: None,
    };
    match decide_approved(book, trustee, &ask, 7) {
        Ok(_) => 0,
        Err(Denial::NotApproved { .. }) => 12,
        Err(Denial::Core(why)) => why.code(),
    }
}

/// Whether the trustee of this key decides on what a book lists, and all else is denied.
fn denies(book: &Approved, trustee: &mut Trustee<MemDisk>, key: [u8; 16]) -> bool {
    let listed = code(Some(book), trustee, key, 0, b"abc") == 0;
    let other = code(Some(book), trustee, key, 10, b"xyz") == 12;
    // A denial comes before each of the trustee's own refusals, and leaves the leaf free.
    let first = code(Some(book), trustee, [0; 16], 32, b"xyz") == 12;
    let foreign = code(Some(book), trustee, [0; 16], 10, b"abc") == 1;
    listed & other & first & foreign & (code(None, trustee, key, 10, b"xyz") == 0)
}

/// Whether a new trustee decides on what a book lists, and all else is denied.
fn denies_others(rt: &impl Abort, alloc: Global, book: &Approved) -> bool {
    let mut trustee = trustee_on(rt, alloc, empty_journal(rt, alloc));
    denies(book, &mut trustee, share(rt).id)
}

#[test]
fn what_is_not_listed_is_denied(rt: HostRuntime) {
    let mut book = empty_book(&rt, rt.alloc());
    let added = adds(&mut book, b"abc", Ok(Entered::New));
    assert!(rt; added & denies_others(&rt, rt.alloc(), book.approved()));
}
