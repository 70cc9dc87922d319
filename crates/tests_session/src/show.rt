//! Tests of what no contract says: that a store in memory is asked, and each line and each refusal of `show` once, as
//! the page on formats gives the bytes.

use crate::made_files::file_of;
use std::alloc::Global;
use std::process::Abort;
use stream_memory::MemStore;
use tool_base::Ending;
use tool_show::show_file;

/// The bytes of a head after the version: trustee 3, K = 3 and N = 5, codes 5 and 3, and an identifier that counts up
/// from 0.
const OF_SHARE: [u8; 27] = [
    3, 3, 5, 0, 0, 0, 5, 0, 0, 0, 3, 0, 1, 2, 3, 4, 5, 6, 7, 8, 9, 10, 11, 12, 13, 14, 15,
];

/// The same for a tree.
const OF_TREE: [u8; 27] = [
    0, 0, 0, 0, 0, 0, 5, 0, 0, 0, 3, 0, 1, 2, 3, 4, 5, 6, 7, 8, 9, 10, 11, 12, 13, 14, 15,
];

/// The same for a reference and for commitments, with K = 2 and N = 2 and the codes 10 and 5.
const OF_PLAN: [u8; 27] = [
    0, 2, 2, 0, 0, 0, 10, 0, 0, 0, 5, 0, 1, 2, 3, 4, 5, 6, 7, 8, 9, 10, 11, 12, 13, 14, 15,
];

/// The same for the leaf table of a key of codes 5 and 3.
const OF_TABLE: [u8; 27] = OF_TREE;

/// The codes 5 and 3, and the identifier.
const KEY: [u8; 24] = [
    0, 0, 0, 5, 0, 0, 0, 3, 0, 1, 2, 3, 4, 5, 6, 7, 8, 9, 10, 11, 12, 13, 14, 15,
];

/// The bytes of a root.
const ROOT: [u8; 32] = [0xAB; 32];

/// All of them but one.
const CUT_ROOT: [u8; 31] = [0xAB; 31];

/// The id of `abc`, after an open gate A.
const LEASED: [u8; 40] = [
    0xB1, 0, 0, 0, 0, 0, 0, 3, 0xBA, 0x78, 0x16, 0xBF, 0x8F, 0x01, 0xCF, 0xEA, 0x41, 0x41, 0x40,
    0xDE, 0x5D, 0xAE, 0x22, 0x23, 0xB0, 0x03, 0x61, 0xA3, 0x96, 0x17, 0x7A, 0x9C, 0xB4, 0x10, 0xFF,
    0x61, 0xF2, 0x00, 0x15, 0xAD,
];

/// The line of a share.
const SHARE: &str =
    "share member 3 of 5 threshold 3 codes 5 3 key 000102030405060708090a0b0c0d0e0f\n";

/// The line of a tree.
const TREE: &str = concat!(
    "tree codes 5 3 key 000102030405060708090a0b0c0d0e0f",
    " root abababababababababababababababababababababababababababababababab\n",
);

/// The line of a reference.
const REFERENCE: &str = concat!(
    "reference of 2 threshold 2 codes 10 5 key 000102030405060708090a0b0c0d0e0f",
    " bytes 310048\n",
);

/// The line of commitments.
const COMMITMENTS: &str = concat!(
    "commitments of 2 threshold 2 codes 10 5 key 000102030405060708090a0b0c0d0e0f",
    " bytes 821280\n",
);

/// The line of a key.
const ONE_LEVEL: &str = concat!(
    "key codes 5 3 key 000102030405060708090a0b0c0d0e0f",
    " root abababababababababababababababababababababababababababababababab\n",
);

/// The line of a key of two levels.
const TWO_LEVELS: &str = concat!(
    "hss key levels 2 codes 5 3 key 000102030405060708090a0b0c0d0e0f",
    " root abababababababababababababababababababababababababababababababab\n",
);

/// The line of a leaf table.
const TABLE: &str =
    "table codes 5 3 key 000102030405060708090a0b0c0d0e0f leaves 32 leased 1 burnt 0\n";

/// The lines of a leaf table.
const LEAVES: &str = concat!(
    "table codes 5 3 key 000102030405060708090a0b0c0d0e0f leaves 32 leased 1 burnt 0\n",
    "leaf 0 leased 3:ba7816bf8f01cfea414140de5dae2223b00361a396177a9cb410ff61f20015ad\n",
);

/// The lines of refusals.
const FAULT_1: &str = "error 4 file file fault 1\n";

const FAULT_2: &str = "error 4 file file fault 2\n";

const FAULT_4: &str = "error 4 file file fault 4\n";

const FAULT_5: &str = "error 4 file file fault 5\n";

const FAULT_6: &str = "error 4 file file fault 6\n";

const SLOTS_1: &str = "error 13 journal fault 1\n";

const SLOTS_2: &str = "error 13 journal fault 2\n";

const SLOTS_6: &str = "error 13 journal fault 6\n";

/// Nothing at any place.
const NONE: (usize, &[u8]) = (0, &[]);

/// What a file should be, its length, its first five bytes, its head after them, what is put at which place after that,
/// and the status and the line of `show file`.
type HeadRow = (
    &'static str,
    usize,
    &'static [u8],
    &'static [u8],
    (usize, &'static [u8]),
    u8,
    &'static str,
);

static HEADED: [HeadRow; 15] = [
    ("a share", 64, b"TLSH\x01", &OF_SHARE, NONE, 0, SHARE),
    ("a long share", 65, b"TLSH\x01", &OF_SHARE, NONE, 4, FAULT_5),
    (
        "a share of version 2",
        64,
        b"TLSH\x02",
        &OF_SHARE,
        NONE,
        4,
        FAULT_2,
    ),
    ("a tree", 2048, b"TLTR\x01", &OF_TREE, (32, &ROOT), 0, TREE),
    (
        "a marked tree",
        2048,
        b"TLTR\x01",
        &OF_SHARE,
        NONE,
        4,
        FAULT_6,
    ),
    (
        "a reference",
        310_048,
        b"TLRF\x01",
        &OF_PLAN,
        NONE,
        0,
        REFERENCE,
    ),
    (
        "a cut reference",
        310_047,
        b"TLRF\x01",
        &OF_PLAN,
        NONE,
        4,
        FAULT_5,
    ),
    (
        "a reference with no plan",
        64,
        b"TLRF\x01",
        &OF_TREE,
        NONE,
        4,
        FAULT_4,
    ),
    (
        "commitments",
        821_280,
        b"TLCM\x01",
        &OF_PLAN,
        NONE,
        0,
        COMMITMENTS,
    ),
    (
        "cut commitments",
        821_279,
        b"TLCM\x01",
        &OF_PLAN,
        NONE,
        4,
        FAULT_5,
    ),
    (
        "a leaf table",
        4224,
        b"\xa7\0\0\0\x01",
        &OF_TABLE,
        (128, &LEASED),
        0,
        TABLE,
    ),
    (
        "a closed table",
        4224,
        b"\0\0\0\0\x01",
        &OF_TABLE,
        NONE,
        13,
        SLOTS_2,
    ),
    (
        "a cut journal",
        5247,
        b"\xa7\0\0\0\x02",
        &OF_SHARE,
        NONE,
        13,
        SLOTS_1,
    ),
    (
        "a damaged table",
        4224,
        b"\xa7\0\0\0\x01",
        &OF_TABLE,
        (168, &[0xC2]),
        13,
        SLOTS_6,
    ),
    (
        "a file of version 4",
        4224,
        b"\xa7\0\0\0\x04",
        &OF_TABLE,
        NONE,
        4,
        FAULT_1,
    ),
];

/// What a file should be, its length, what is put at which places in it, and the status and the line of `show file`.
type PartsRow = (
    &'static str,
    usize,
    &'static [(usize, &'static [u8])],
    u8,
    &'static str,
);

static SHOWN: [PartsRow; 6] = [
    ("letters", 4, &[(0, b"TLCM")], 4, FAULT_5),
    ("a key", 56, &[(0, &KEY), (24, &ROOT)], 0, ONE_LEVEL),
    (
        "a key of two levels",
        60,
        &[(0, &[0, 0, 0, 2]), (4, &KEY), (28, &ROOT)],
        0,
        TWO_LEVELS,
    ),
    ("a cut key", 55, &[(0, &KEY), (24, &CUT_ROOT)], 4, FAULT_1),
    ("no byte", 0, &[], 4, FAULT_1),
    ("three letters", 3, &[(0, b"TLS")], 4, FAULT_1),
];

/// A store of one file `file`.
fn store_of(alloc: Global, bytes: Vec<u8>) -> Option<MemStore> {
    let mut files = Vec::new(alloc);
    files
        .push((String::from_str(alloc, "file").ok()?, bytes))
        .ok()?;
    MemStore::of_files(alloc, files, Vec::new(alloc)).ok()
}

/// How `show` ends on a store of one file `file`.
fn shown(alloc: Global, bytes: Vec<u8>, name: &str, leaves: bool) -> Option<Ending> {
    let mut store = store_of(alloc, bytes)?;
    Some(show_file(alloc, &mut store, name, leaves))
}

/// Whether an end has this line.
fn has_line(alloc: Global, end: &Ending, want: &str) -> bool {
    match end.line(alloc) {
        Ok(line) => line.as_str() == want,
        Err(_) => false,
    }
}

/// Whether `show` has this status and this line.
fn says(alloc: Global, bytes: Vec<u8>, name: &str, leaves: bool, status: u8, want: &str) -> bool {
    match shown(alloc, bytes, name, leaves) {
        Some(end) => end.status() == status && has_line(alloc, &end, want),
        None => false,
    }
}

/// Whether a file of these parts is shown, or refused, with this status and this line.
fn is_shown(
    rt: &impl Abort,
    alloc: Global,
    length: usize,
    parts: &[(usize, &[u8])],
    status: u8,
    want: &str,
) -> bool {
    let file = file_of(rt, alloc, length, parts);
    says(alloc, file, "file", false, status, want)
}

/// Whether that is so for the file of a row.
fn is_headed(rt: &impl Abort, alloc: Global, row: &HeadRow) -> bool {
    let parts: [(usize, &[u8]); 3] = [(0, row.2), (5, row.3), row.4];
    is_shown(rt, alloc, row.1, &parts, row.5, row.6)
}

#[test]
fn files_with_heads_are_shown_or_refused(rt: HostRuntime) {
    for row in &HEADED {
        assert!(&rt; is_headed(&rt, rt.alloc(), row), "{}", row.0);
    }
}

/// Whether that is so for the file of a row of parts.
fn has_end(rt: &impl Abort, alloc: Global, row: &PartsRow) -> bool {
    is_shown(rt, alloc, row.1, row.2, row.3, row.4)
}

#[test]
fn other_files_are_shown_or_refused(rt: HostRuntime) {
    for row in &SHOWN {
        assert!(&rt; has_end(&rt, rt.alloc(), row), "{}", row.0);
    }
}

/// Whether a leaf table is shown leaf by leaf.
fn shows_leaves(rt: &impl Abort, alloc: Global) -> bool {
    let leased: [(usize, &[u8]); 3] = [(0, b"\xa7\0\0\0\x01"), (5, &OF_TABLE), (128, &LEASED)];
    let table = file_of(rt, alloc, 4224, &leased);
    says(alloc, table, "file", true, 0, LEAVES)
}

#[test]
fn leaves_are_shown_and_no_other_file(rt: HostRuntime) {
    let alloc = rt.alloc();
    assert!(&rt; shows_leaves(&rt, alloc));
    assert!(&rt; says(alloc, Vec::new(alloc), "other", false, 3, "error 3 store\n"));
}
