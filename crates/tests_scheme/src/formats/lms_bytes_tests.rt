//! Tests of what no contract says: that the definitions are the standard's, by values worked out by hand or by another
//! implementation, and each refusal once.

use crate::values::{holds, set_of};
use lms_bytes::{
    IdHash, KeyFault, LIMIT, MessageId, Params, PublicKey, SigFault, Val, digit, read_public,
    read_signature, write_layout, write_public,
};

/// Typecodes, the bytes of a digest, how many digits it has and which, and the digits of its checksum.
const DIGITS: [(u32, u32, u8, u16, u8, &[u8]); 9] = [
    (5, 4, 0, 32, 0, &[31, 224]),
    (5, 3, 0, 64, 0, &[3, 12, 0]),
    (5, 2, 0, 128, 0, &[1, 2, 0, 0, 0]),
    (5, 1, 0, 256, 0, &[1, 0, 0, 0, 0, 0, 0, 0, 0]),
    (10, 8, 0, 24, 0, &[23, 232]),
    (10, 7, 0, 48, 0, &[2, 13, 0]),
    (10, 6, 0, 96, 0, &[1, 0, 2, 0, 0]),
    (10, 5, 0, 192, 0, &[1, 1, 0, 0, 0, 0, 0, 0]),
    (5, 3, 0xff, 64, 15, &[0, 0, 0]),
];

/// Whether all digits of a digest are those: `count` of one kind, and the checksum.
fn has_digits(params: &Params, digest: &Val, count: u16, one: u8, checksum: &[u8]) -> bool {
    if digest.bytes().len() != params.n as usize {
        return false;
    }
    for i in 0..params.p {
        let wanted = if i < count {
            one
        } else {
            let place = usize::from(i - count);
            checksum.get(place).copied().unwrap_or(0)
        };
        if digit(params, digest, i) != wanted {
            return false;
        }
    }
    true
}

/// Whether the digest of a row has the row's digits.
fn has_row(row: &(u32, u32, u8, u16, u8, &[u8])) -> bool {
    let (lms, ots, byte, count, one, checksum) = *row;
    match Params::of_codes(lms, ots) {
        Ok(params) => {
            let digest = Val::cut(&[byte; 32], params.n);
            has_digits(&params, &digest, count, one, checksum)
        }
        Err(_) => false,
    }
}

#[test]
fn digits_have_their_checksum_behind_them(rt: HostRuntime) {
    for row in &DIGITS {
        holds(&rt, row.1, has_row(row));
    }
}

/// The length of a signature.
fn signature_length(params: &Params) -> usize {
    let n = params.n as usize;
    12 + n * (params.p as usize + 1) + n * params.h as usize
}

/// Typecodes, and the length of their signatures, or why they make no set.
const SETS: [(u32, u32, Result<usize, KeyFault>); 10] = [
    (5, 4, Ok(1292)),
    (5, 3, Ok(2348)),
    (6, 3, Ok(2508)),
    (10, 8, Ok(780)),
    (10, 7, Ok(1380)),
    (11, 7, Ok(1500)),
    (5, 9, Err(KeyFault::UnknownOts { code: 9 })),
    (4, 3, Err(KeyFault::UnknownLms { code: 4 })),
    (15, 0, Err(KeyFault::UnknownLms { code: 15 })),
    (10, 3, Err(KeyFault::MixedWidths)),
];

/// Whether the typecodes of a row make the row's set.
fn makes(row: &(u32, u32, Result<usize, KeyFault>)) -> bool {
    match Params::of_codes(row.0, row.1) {
        Ok(params) => row.2 == Ok(signature_length(&params)),
        Err(fault) => row.2 == Err(fault),
    }
}

#[test]
fn typecodes_make_sets(rt: HostRuntime) {
    for row in &SETS {
        holds(&rt, row.1, makes(row));
    }
}

/// A public key of the typecodes 10 and 7 with room after it.
const PUBLIC: &[u8; 56] = b"\x00\x00\x00\x0a\x00\x00\x00\x07\
    \x11\x11\x11\x11\x11\x11\x11\x11\x11\x11\x11\x11\x11\x11\x11\x11\
    \x22\x22\x22\x22\x22\x22\x22\x22\x22\x22\x22\x22\x22\x22\x22\x22\
    \x22\x22\x22\x22\x22\x22\x22\x22\x33\x33\x33\x33\x33\x33\x33\x33";

/// That key.
fn public_key(params: &Params) -> PublicKey {
    PublicKey {
        params: *params,
        id: [0x11; 16],
        root: Val::cut(&[0x22; 32], params.n),
    }
}

/// What is read from the first bytes of that key, as far as they go.
fn read_front(length: usize, lms: u8, ots: u8) -> Result<PublicKey, KeyFault> {
    let mut bytes = *PUBLIC;
    bytes[3] = lms;
    bytes[7] = ots;
    read_public(&bytes[..length.min(56)])
}

#[test]
fn a_public_key_is_read_as_it_is_written(rt: HostRuntime) {
    let key = public_key(&set_of(&rt, 10, 7));
    let mut bytes = [0x33; 56];
    let length = write_public(&key, &mut bytes);
    assert!(rt; length == 48 && bytes == *PUBLIC);
    assert!(rt; read_front(48, 10, 7) == Ok(key));
}

/// A length, two typecodes, and the number of the fault of that many bytes of the key with these typecodes.
const KEY_FAULTS: [(usize, u8, u8, u8); 5] = [
    (7, 10, 7, 1),
    (48, 4, 7, 2),
    (48, 10, 9, 3),
    (48, 10, 3, 4),
    (47, 10, 7, 5),
];

/// Whether the bytes of a row have the row's fault.
fn is_no_key(row: &(usize, u8, u8, u8)) -> bool {
    match read_front(row.0, row.1, row.2) {
        Ok(_) => false,
        Err(fault) => fault.number() == row.3,
    }
}

#[test]
fn other_bytes_are_no_public_key(rt: HostRuntime) {
    for row in &KEY_FAULTS {
        holds(&rt, row.3.into(), is_no_key(row));
    }
}

/// Whether bytes are the signature of leaf 31 of the typecodes 10 and 8 whose parts are the bytes 1, 2 and 3.
fn has_parts(params: &Params, bytes: &[u8]) -> bool {
    let Ok(view) = read_signature(params, bytes) else {
        return false;
    };
    view.leaf == 31
        && view.c == [1; 24].as_slice()
        && view.chains == [2; 624].as_slice()
        && view.path == [3; 120].as_slice()
}

/// The length of that signature, if it is read as it was written.
fn length_of_parts(params: &Params) -> Option<usize> {
    let n = params.n as usize;
    let c = Val::cut(&[1; 32], params.n);
    let chains = [2; 8480];
    let path = [3; 800];
    let mut bytes = [0; 9400];
    let length = write_layout(
        params,
        31,
        &c,
        &chains[..n * params.p as usize],
        &path[..n * params.h as usize],
        &mut bytes,
    );
    match bytes.get(..length) {
        Some(written) if has_parts(params, written) => Some(length),
        _ => None,
    }
}

#[test]
fn a_signature_is_read_as_it_is_written(rt: HostRuntime) {
    assert!(rt; length_of_parts(&set_of(&rt, 10, 8)) == Some(780));
}

/// Why `length` bytes are no signature, if they are none: those of a signature of leaf 31, with one byte changed.
fn signature_fault(params: &Params, length: usize, place: usize, byte: u8) -> Option<SigFault> {
    let mut bytes = [0; 781];
    // The number of leaf 31, and the two typecodes.
    bytes[3] = 31;
    bytes[7] = 8;
    bytes[659] = 10;
    *bytes.get_mut(place)? = byte;
    read_signature(params, &bytes[..length.min(781)]).err()
}

/// A length, a place, the byte that is put there, and why that many bytes are no signature.
const SIGNATURE_FAULTS: [(usize, usize, u8, SigFault); 7] = [
    (7, 3, 31, SigFault::Short),
    (659, 3, 31, SigFault::TooShort { got: 659 }),
    (
        779,
        3,
        31,
        SigFault::Length {
            got: 779,
            want: 780,
        },
    ),
    (
        781,
        3,
        31,
        SigFault::Length {
            got: 781,
            want: 780,
        },
    ),
    (780, 3, 32, SigFault::Leaf { q: 32 }),
    (780, 7, 7, SigFault::OtsCode { got: 7 }),
    (780, 659, 11, SigFault::LmsCode { got: 11 }),
];

/// Whether the bytes of a row have the row's fault.
fn is_no_signature(params: &Params, row: &(usize, usize, u8, SigFault)) -> bool {
    signature_fault(params, row.0, row.1, row.2) == Some(row.3)
}

#[test]
fn other_bytes_are_no_signature(rt: HostRuntime) {
    let params = set_of(&rt, 10, 8);
    for row in &SIGNATURE_FAULTS {
        holds(&rt, row.0 as u32, is_no_signature(&params, row));
    }
}

/// The SHA-256 of the empty message, and that of `abc` (FIPS 180-2, B.1).
const HASHES: [&[u8; 32]; 2] = [
    b"\xe3\xb0\xc4\x42\x98\xfc\x1c\x14\x9a\xfb\xf4\xc8\x99\x6f\xb9\x24\
        \x27\xae\x41\xe4\x64\x9b\x93\x4c\xa4\x95\x99\x1b\x78\x52\xb8\x55",
    b"\xba\x78\x16\xbf\x8f\x01\xcf\xea\x41\x41\x40\xde\x5d\xae\x22\x23\
        \xb0\x03\x61\xa3\x96\x17\x7a\x9c\xb4\x10\xff\x61\xf2\x00\x15\xad",
];

/// The id of `abc`, taken in pieces.
fn id_in_pieces() -> MessageId {
    let mut pieces = IdHash::new();
    pieces.update(b"a");
    pieces.update(b"bc");
    pieces.finish()
}

/// Whether an id has this length and this digest.
fn is_id(id: &MessageId, length: u32, hash: &[u8; 32]) -> bool {
    id.length == length && id.hash == *hash
}

#[test]
fn a_message_id_is_a_length_and_a_digest(rt: HostRuntime) {
    assert!(rt; is_id(&MessageId::of(b""), 0, HASHES[0]));
    assert!(rt; is_id(&MessageId::of(b"abc"), 3, HASHES[1]));
    assert!(rt; is_id(&id_in_pieces(), 3, HASHES[1]));
    assert!(rt; LIMIT == 1 << 24);
}
