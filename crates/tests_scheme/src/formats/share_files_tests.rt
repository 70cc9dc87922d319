//! Tests of what no contract says: that the files are those of another implementation, and each refusal once.

use crate::values::{first, holds};
use share_files::{
    FileFault, Share, read_ref_header, read_reference, read_share, read_tree, version_of,
    write_ref_head, write_share, write_tree_head,
};

/// The share of trustee 3 in a dealing of the typecodes 5 and 3 to coalitions of 3 of 5 trustees.
const SHARE: [u8; 64] = [
    0x54, 0x4c, 0x53, 0x48, 1, 3, 3, 5, 0, 0, 0, 5, 0, 0, 0, 3, 0, 1, 2, 3, 4, 5, 6, 7, 8, 9, 10,
    11, 12, 13, 14, 15, 0x90, 0x91, 0x92, 0x93, 0x94, 0x95, 0x96, 0x97, 0x98, 0x99, 0x9a, 0x9b,
    0x9c, 0x9d, 0x9e, 0x9f, 0xa0, 0xa1, 0xa2, 0xa3, 0xa4, 0xa5, 0xa6, 0xa7, 0xa8, 0xa9, 0xaa, 0xab,
    0xac, 0xad, 0xae, 0xaf,
];

/// The head of the tree file of that dealing.
const TREE_HEAD: [u8; 32] = [
    0x54, 0x4c, 0x54, 0x52, 1, 0, 0, 0, 0, 0, 0, 5, 0, 0, 0, 3, 0, 1, 2, 3, 4, 5, 6, 7, 8, 9, 10,
    11, 12, 13, 14, 15,
];

/// The head of its reference file, which has 1,101,856 bytes.
const REFERENCE_HEAD: [u8; 32] = [
    0x54, 0x4c, 0x52, 0x46, 1, 0, 3, 5, 0, 0, 0, 5, 0, 0, 0, 3, 0, 1, 2, 3, 4, 5, 6, 7, 8, 9, 10,
    11, 12, 13, 14, 15,
];

/// Whether that is what is read.
fn has_parts(share: &Share) -> bool {
    let plan = share.plan.n() == 5 && share.plan.k() == 3 && share.plan.h() == 5;
    let codes = share.params.lms == 5 && share.params.ots == 3;
    plan && codes && share.member == 3 && share.id[15] == 15 && share.key[0] == 0x90
}

/// The bytes of a share.
fn bytes_of(share: &Share) -> [u8; 64] {
    let mut out = [0; 64];
    write_share(share, &mut out);
    out
}

#[test]
fn a_share_is_read_and_written(rt: HostRuntime) {
    let share = read_share(&SHARE).expect(&rt, "a share");
    assert!(rt; has_parts(&share) && bytes_of(&share) == SHARE);
}

/// Two places of a share with what is put there, a length, and the fault of that many bytes of it.
const SHARE_FAULTS: [(usize, u8, usize, u8, usize, FileFault); 17] = [
    (0, 0, 4, 2, 63, FileFault::Length { got: 63, want: 64 }),
    (3, 0x49, 4, 2, 64, FileFault::Magic),
    (4, 2, 6, 1, 64, FileFault::Version { got: 2 }),
    (4, 2, 11, 6, 64, FileFault::Version { got: 2 }),
    (4, 2, 11, 9, 64, FileFault::Version { got: 2 }),
    (4, 2, 11, 10, 64, FileFault::Version { got: 2 }),
    (4, 3, 11, 7, 64, FileFault::Version { got: 3 }),
    (4, 0, 11, 7, 64, FileFault::Version { got: 0 }),
    (11, 7, 6, 1, 64, FileFault::Code { lms: 7, ots: 3 }),
    (11, 9, 6, 1, 64, FileFault::Code { lms: 9, ots: 3 }),
    (11, 6, 15, 4, 64, FileFault::Code { lms: 6, ots: 4 }),
    (11, 10, 6, 1, 64, FileFault::Code { lms: 10, ots: 3 }),
    (6, 1, 5, 6, 64, FileFault::Plan),
    (7, 13, 5, 6, 65, FileFault::Plan),
    (5, 6, 5, 6, 64, FileFault::Number { got: 6 }),
    (5, 0, 5, 0, 65, FileFault::Number { got: 0 }),
    (5, 1, 5, 1, 65, FileFault::Length { got: 65, want: 64 }),
];

/// The share with a byte after it.
fn longer_share() -> [u8; 65] {
    let mut bytes = [0; 65];
    bytes[..64].copy_from_slice(&SHARE);
    bytes
}

/// The fault of bytes that are no share.
fn share_fault(bytes: &[u8]) -> Option<FileFault> {
    read_share(bytes).err()
}

/// Whether the bytes of a row have the row's fault.
fn is_no_share(row: &(usize, u8, usize, u8, usize, FileFault)) -> bool {
    let mut bytes = longer_share();
    bytes[row.0 % 65] = row.1;
    bytes[row.2 % 65] = row.3;
    share_fault(&bytes[..row.4.min(65)]) == Some(row.5)
}

#[test]
fn other_bytes_are_no_share(rt: HostRuntime) {
    for row in &SHARE_FAULTS {
        holds(&rt, row.0 as u32, is_no_share(row));
    }
}

/// A length, a place, what is put there, and the fault of a tree file that is then read.
const TREE_FAULTS: [(usize, usize, u8, FileFault); 9] = [
    (31, 0, 0, FileFault::Length { got: 31, want: 32 }),
    (2048, 2, 0x53, FileFault::Magic),
    (2048, 4, 0, FileFault::Version { got: 0 }),
    (2048, 15, 9, FileFault::Code { lms: 5, ots: 9 }),
    (2047, 5, 8, FileFault::Number { got: 8 }),
    (2047, 6, 9, FileFault::Number { got: 9 }),
    (2047, 7, 1, FileFault::Number { got: 1 }),
    (
        2047,
        16,
        0,
        FileFault::Length {
            got: 2047,
            want: 2048,
        },
    ),
    (
        2049,
        16,
        0,
        FileFault::Length {
            got: 2049,
            want: 2048,
        },
    ),
];

/// A tree file with a byte after it.
fn longer_tree() -> [u8; 2049] {
    let mut bytes = [7; 2049];
    bytes[..32].copy_from_slice(&TREE_HEAD);
    bytes
}

/// Whether a tree file is read, and its head written as it was.
fn is_tree(bytes: &[u8]) -> bool {
    let Ok(view) = read_tree(bytes) else {
        return false;
    };
    let mut head = [0; 32];
    write_tree_head(&view.params, &view.id, &mut head);
    let codes = view.params.lms == 5 && view.params.ots == 3;
    codes && view.id[1] == 1 && view.nodes.len() == 2016 && head == TREE_HEAD
}

#[test]
fn a_tree_file_is_read_and_written(rt: HostRuntime) {
    assert!(rt; is_tree(first(&longer_tree(), 2048)));
}

/// The fault of bytes that are no tree file.
fn tree_fault(bytes: &[u8]) -> Option<FileFault> {
    match read_tree(bytes) {
        Ok(_) => None,
        Err(fault) => Some(fault),
    }
}

/// Whether the bytes of a row have the row's fault.
fn is_no_tree(row: &(usize, usize, u8, FileFault)) -> bool {
    let mut bytes = longer_tree();
    bytes[row.1 % 2049] = row.2;
    tree_fault(&bytes[..row.0.min(2049)]) == Some(row.3)
}

#[test]
fn other_bytes_are_no_tree_file(rt: HostRuntime) {
    for row in &TREE_FAULTS {
        holds(&rt, row.1 as u32, is_no_tree(row));
    }
}

/// Whether the head of a reference file is read, and written as it was.
fn is_head(bytes: &[u8; 32]) -> bool {
    let Ok(header) = read_ref_header(bytes, 1_101_856) else {
        return false;
    };
    let mut head = [0; 32];
    write_ref_head(&header, &mut head);
    header.plan.n() == 5 && header.plan.k() == 3 && header.id[2] == 2 && head == *bytes
}

#[test]
fn the_head_of_a_reference_file_is_read_and_written(rt: HostRuntime) {
    assert!(rt; is_head(&REFERENCE_HEAD));
}

/// K, N, the typecodes and the length of reference files of large sets: those of another implementation, and one of
/// height 20.
static LARGE: [(u8, u8, u8, u8, u64); 5] = [
    (3, 5, 6, 4, 285_343_776),
    (3, 5, 11, 8, 163_700_768),
    (3, 5, 12, 7, 645_660_704),
    (2, 3, 7, 3, 1_127_219_232),
    (3, 5, 13, 7, 20_661_141_536),
];

/// The head of the reference file of a row, with this version.
fn large_head(row: &(u8, u8, u8, u8, u64), version: u8) -> [u8; 32] {
    let mut head = REFERENCE_HEAD;
    head[4] = version;
    head[6] = row.0;
    head[7] = row.1;
    head[11] = row.2;
    head[15] = row.3;
    head
}

/// Whether the head of a row is read with version 2, and written as it was.
fn is_large(row: &(u8, u8, u8, u8, u64)) -> bool {
    let bytes = large_head(row, 2);
    let Ok(header) = read_ref_header(&bytes, row.4) else {
        return false;
    };
    let mut head = [0; 32];
    write_ref_head(&header, &mut head);
    let codes = header.params.lms == u32::from(row.2) && header.params.ots == u32::from(row.3);
    codes && version_of(&header.params) == 2 && head == bytes
}

/// Whether the head of a row has the fault of its codes with version 1, and that of its version with version 3.
fn is_of_version_2(row: &(u8, u8, u8, u8, u64)) -> bool {
    let code = FileFault::Code {
        lms: u32::from(row.2),
        ots: u32::from(row.3),
    };
    let version = FileFault::Version { got: 3 };
    head_fault(&large_head(row, 1), row.4) == Some(code)
        && head_fault(&large_head(row, 3), row.4) == Some(version)
}

#[test]
fn the_heads_of_large_reference_files_have_version_2(rt: HostRuntime) {
    for row in &LARGE {
        holds(&rt, u32::from(row.2), is_large(row));
        holds(&rt, u32::from(row.2), is_of_version_2(row));
    }
}

/// The share of trustee 3 in a dealing of the typecodes 12 and 7 with the same entropy.
fn large_share() -> [u8; 64] {
    let mut bytes = SHARE;
    bytes[4] = 2;
    bytes[11] = 12;
    bytes[15] = 7;
    bytes
}

/// Whether that share is read, and written as it was.
fn is_large_share(bytes: &[u8; 64]) -> bool {
    let Ok(share) = read_share(bytes) else {
        return false;
    };
    share.params.h == 15 && share.member == 3 && bytes_of(&share) == *bytes
}

#[test]
fn a_share_of_a_large_set_is_read_and_written(rt: HostRuntime) {
    assert!(rt; is_large_share(&large_share()));
}

/// The length of a reference file, a place of its head, what is put there, and the fault.
const REFERENCE_FAULTS: [(u64, usize, u8, FileFault); 6] = [
    (1_101_856, 3, 0x47, FileFault::Magic),
    (1_101_856, 4, 9, FileFault::Version { got: 9 }),
    (1_101_856, 11, 4, FileFault::Code { lms: 4, ots: 3 }),
    (1_101_856, 6, 6, FileFault::Plan),
    (1, 5, 1, FileFault::Number { got: 1 }),
    (
        1_101_855,
        0,
        0x54,
        FileFault::Length {
            got: 1_101_855,
            want: 1_101_856,
        },
    ),
];

/// The fault of a head that is not one of a reference file of this length.
fn head_fault(head: &[u8; 32], length: u64) -> Option<FileFault> {
    read_ref_header(head, length).err()
}

/// Whether the head of a row has the row's fault.
fn is_no_head(row: &(u64, usize, u8, FileFault)) -> bool {
    let mut head = REFERENCE_HEAD;
    head[row.1 % 32] = row.2;
    head_fault(&head, row.0) == Some(row.3)
}

#[test]
fn other_bytes_are_no_head_of_a_reference_file(rt: HostRuntime) {
    for row in &REFERENCE_FAULTS {
        holds(&rt, row.1 as u32, is_no_head(row));
    }
}

/// The fault of bytes that are no reference file.
fn reference_fault(bytes: &[u8]) -> Option<FileFault> {
    match read_reference(bytes) {
        Ok(_) => None,
        Err(fault) => Some(fault),
    }
}

#[test]
fn other_bytes_are_no_reference_file(rt: HostRuntime) {
    let short = FileFault::Length { got: 31, want: 32 };
    assert!(rt; reference_fault(&REFERENCE_HEAD[..31]) == Some(short));
    let cut = FileFault::Length {
        got: 32,
        want: 1_101_856,
    };
    assert!(rt; reference_fault(&REFERENCE_HEAD) == Some(cut));
}
