//! Listings of files of slots: each line as the page on formats gives the bytes, and each refusal.

use crate::made_files::{file_of, put};
use std::alloc::Global;
use std::process::Abort;
use tool_show::{ListingFault, list_slots};

/// The header after version and number: codes 5 and 3, and an identifier of sixteen bytes 1D.
const KEY: [u8; 26] = [
    0, 0, 0, 0, 0, 5, 0, 0, 0, 3, 0x1D, 0x1D, 0x1D, 0x1D, 0x1D, 0x1D, 0x1D, 0x1D, 0x1D, 0x1D, 0x1D,
    0x1D, 0x1D, 0x1D, 0x1D, 0x1D,
];

/// The id of `abc`, after an open gate A.
const ABC: [u8; 40] = [
    0xB1, 0, 0, 0, 0, 0, 0, 3, 0xBA, 0x78, 0x16, 0xBF, 0x8F, 0x01, 0xCF, 0xEA, 0x41, 0x41, 0x40,
    0xDE, 0x5D, 0xAE, 0x22, 0x23, 0xB0, 0x03, 0x61, 0xA3, 0x96, 0x17, 0x7A, 0x9C, 0xB4, 0x10, 0xFF,
    0x61, 0xF2, 0x00, 0x15, 0xAD,
];

/// The length of a journal of 32 leaves, of a file with slots of 128 bytes, and of a book.
const JOURNAL: usize = 5248;

const TABLE: usize = 4224;

const BOOK: usize = 131_200;

/// A file of this version and number, of `length` bytes, whose slots are all free except for these parts.
fn slots(
    rt: &impl Abort,
    alloc: Global,
    version: u8,
    number: u8,
    length: usize,
    parts: &[(usize, &[u8])],
) -> Vec<u8> {
    let head = [0xA7, 0, 0, 0, version, number];
    let mut bytes = file_of(rt, alloc, length, &[(0, &head), (6, &KEY)]);
    put(rt, &mut bytes, parts);
    bytes
}

/// A journal of member 3 with leaf 1 bound, and leaf 4 opened at a moment.
fn journal(rt: &impl Abort, alloc: Global, moment: u64) -> Vec<u8> {
    let moment = moment.to_be_bytes();
    let parts: [(usize, &[u8]); 4] = [(288, &ABC), (768, &ABC), (808, &[0xC2]), (876, &moment)];
    slots(rt, alloc, 2, 3, JOURNAL, &parts)
}

/// The listing of these bytes.
fn listed(alloc: Global, bytes: Vec<u8>, leaves: bool) -> Result<String, ListingFault> {
    list_slots(alloc, bytes, leaves)
}

/// Whether the listing of these bytes, with a line for each leaf or without, is this text.
fn lists(alloc: Global, bytes: Vec<u8>, leaves: bool, want: &str) -> bool {
    match listed(alloc, bytes, leaves) {
        Ok(text) => text.as_str() == want,
        Err(_) => false,
    }
}

/// Whether the last moment of a journal's line is this.
fn has_last(rt: &impl Abort, alloc: Global, moment: u64, want: &str) -> bool {
    match listed(alloc, journal(rt, alloc, moment), false) {
        Ok(text) => text.as_str().ends_with(want),
        Err(_) => false,
    }
}

/// The line of a journal with no entry.
const FRESH: &str = concat!(
    "journal member 3 version 2 codes 5 3 key 1d1d1d1d1d1d1d1d1d1d1d1d1d1d1d1d",
    " leaves 32 bound 0 opened 0 last -\n",
);

/// The lines of a journal of an earlier version.
const OLD: &str = concat!(
    "journal member 3 version 1 codes 5 3 key 1d1d1d1d1d1d1d1d1d1d1d1d1d1d1d1d",
    " leaves 32 bound 0 opened 1 last -\n",
    "leaf 31 opened 3:ba7816bf8f01cfea414140de5dae2223b00361a396177a9cb410ff61f20015ad -\n",
);

/// The lines of a leaf table.
const LEASES: &str = concat!(
    "table codes 5 3 key 1d1d1d1d1d1d1d1d1d1d1d1d1d1d1d1d",
    " leaves 32 leased 1 burnt 1\n",
    "leaf 0 leased 3:ba7816bf8f01cfea414140de5dae2223b00361a396177a9cb410ff61f20015ad\n",
    "leaf 9 burnt 3:ba7816bf8f01cfea414140de5dae2223b00361a396177a9cb410ff61f20015ad by 2\n",
);

/// The lines of a book.
const LISTED: &str = concat!(
    "book member 3 codes 5 3 key 1d1d1d1d1d1d1d1d1d1d1d1d1d1d1d1d",
    " slots 1024 listed 1\n",
    "slot 0 3:ba7816bf8f01cfea414140de5dae2223b00361a396177a9cb410ff61f20015ad\n",
);

/// Version and number of a file, its length, what is put at which places in it, and its listing.
type ListingRow = (
    u8,
    u8,
    usize,
    &'static [(usize, &'static [u8])],
    &'static str,
);

static LISTINGS: [ListingRow; 4] = [
    (2, 3, JOURNAL, &[], FRESH),
    (1, 3, TABLE, &[(4096, &ABC), (4136, &[0xC2])], OLD),
    (
        1,
        0,
        TABLE,
        &[
            (128, &ABC),
            (1280, &ABC),
            (1320, &ABC),
            (1320, &[0xC2]),
            (1360, &[2]),
        ],
        LEASES,
    ),
    (3, 3, BOOK, &[(128, &ABC)], LISTED),
];

/// Whether the listing of a row's file is the row's text.
fn is_listed(rt: &impl Abort, alloc: Global, row: &ListingRow) -> bool {
    let bytes = slots(rt, alloc, row.0, row.1, row.2, row.3);
    lists(alloc, bytes, true, row.4)
}

#[test]
fn files_of_slots(rt: HostRuntime) {
    let alloc = rt.alloc();
    for row in &LISTINGS {
        assert!(&rt; is_listed(&rt, alloc, row), "{}", row.4);
    }
    let fresh = slots(&rt, alloc, 2, 3, JOURNAL, &[]);
    assert!(&rt; lists(alloc, fresh, false, FRESH));
}

/// The lines of a journal that was opened at nine o'clock.
const AT_NINE: &str = concat!(
    "journal member 3 version 2 codes 5 3 key 1d1d1d1d1d1d1d1d1d1d1d1d1d1d1d1d",
    " leaves 32 bound 1 opened 1 last 2026-11-28T09:00:00Z\n",
    "leaf 1 bound 3:ba7816bf8f01cfea414140de5dae2223b00361a396177a9cb410ff61f20015ad\n",
    "leaf 4 opened 3:ba7816bf8f01cfea414140de5dae2223b00361a396177a9cb410ff61f20015ad 2026-11-28T09:00:00Z\n",
);

/// Moments, and the ends of the lines of journals that were opened then.
const MOMENTS: [(u64, &str); 5] = [
    (0, " last -\n"),
    (94_694_399, " last 1972-12-31T23:59:59Z\n"),
    (951_868_799, " last 2000-02-29T23:59:59Z\n"),
    (4_107_542_400, " last 2100-03-01T00:00:00Z\n"),
    (u64::MAX, " last 584554051223-11-09T07:00:15Z\n"),
];

#[test]
fn moments(rt: HostRuntime) {
    let alloc = rt.alloc();
    assert!(&rt; lists(alloc, journal(&rt, alloc, 1_795_856_400), true, AT_NINE));
    for row in &MOMENTS {
        assert!(&rt; has_last(&rt, alloc, row.0, row.1), "{}", row.1);
    }
}

/// A file's name, version and number, its length, what is put at which places in it, and why it is not listed.
type RefusedRow = (
    &'static str,
    u8,
    u8,
    usize,
    &'static [(usize, &'static [u8])],
    ListingFault,
);

static REFUSED: [RefusedRow; 6] = [
    (
        "closed",
        2,
        3,
        JOURNAL,
        &[(0, &[0])],
        ListingFault::NotLoaded { fault: 2 },
    ),
    (
        "damaged",
        1,
        0,
        TABLE,
        &[(1320, &[0xC2])],
        ListingFault::NotLoaded { fault: 6 },
    ),
    (
        "short",
        3,
        3,
        BOOK - 1,
        &[],
        ListingFault::NotLoaded { fault: 1 },
    ),
    (
        "a head",
        2,
        3,
        32,
        &[],
        ListingFault::NotLoaded { fault: 1 },
    ),
    (
        "of version 4",
        4,
        3,
        JOURNAL,
        &[],
        ListingFault::NotASlotFile,
    ),
    (
        "of no set",
        2,
        3,
        JOURNAL,
        &[(11, &[10])],
        ListingFault::NotASlotFile,
    ),
];

/// Whether these bytes are refused for this reason.
fn refuses(alloc: Global, bytes: Vec<u8>, why: ListingFault) -> bool {
    match listed(alloc, bytes, true) {
        Ok(_) => false,
        Err(fault) => fault == why,
    }
}

/// Whether the file of a row is refused for the row's fault.
fn is_refused(rt: &impl Abort, alloc: Global, row: &RefusedRow) -> bool {
    let bytes = slots(rt, alloc, row.1, row.2, row.3, row.4);
    refuses(alloc, bytes, row.5)
}

#[test]
fn other_files(rt: HostRuntime) {
    let alloc = rt.alloc();
    for row in &REFUSED {
        assert!(&rt; is_refused(&rt, alloc, row), "{}", row.0);
    }
    let mut short = slots(&rt, alloc, 2, 3, 32, &[]);
    let _ = short.pop();
    assert!(&rt; refuses(alloc, short, ListingFault::NotASlotFile));
}
