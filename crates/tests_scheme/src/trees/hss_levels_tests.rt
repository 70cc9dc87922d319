//! Tests of what no contract says: that the definitions are the standard's, by a signature that another implementation
//! made, and each refusal once.

ghost use Rattle.std.specs.Prelude.{◌≡◌, IsTrue};
ghost use Rattle.lms_bytes.specs.PublicKey.{public_bytes};
ghost use Rattle.hss_levels.specs.Levels.{Accepts};

mod vector;

use crate::values::{holds, reads_as};
use hss_levels::{HssFault, HssKey, HssKeyFault, HssVerdict, hss_verify, join_two, read_hss_key};
use lms_bytes::{KeyFault, PublicKey, SigFault, read_public};
use lms_verify::{Verdict, verify};
use std::alloc::Global;
use std::process::Abort;
use vector::{KEY, MESSAGE, SIGNATURE};

/// Where the public key of the lower level lies in the signature, and where its signature does.
const LOW_KEY: usize = 1384;

const LOW_SIGNATURE: usize = 1440;

/// What is read from these bytes.
fn read(bytes: &[u8]) -> Result<HssKey, HssKeyFault> {
    read_hss_key(bytes)
}

/// The key of the signature.
fn signing_key(rt: &impl Abort) -> HssKey {
    read(&KEY).expect(rt, "a key")
}

/// The verdict on `length` bytes of the signature and of a 0 after it, with one byte changed.
fn verdict_on(key: &HssKey, place: usize, byte: u8, length: usize) -> HssVerdict {
    let mut bytes = [0; 2733];
    bytes[..2732].copy_from_slice(&SIGNATURE);
    bytes[place % 2733] = byte;
    hss_verify(key, &MESSAGE, &bytes[..length.min(2733)])
}

/// A place of the signature, the byte that is put there, a length, and why that many bytes of it are no signature.
const FAULTS: [(usize, u8, usize, HssFault); 9] = [
    (0, 0, 3, HssFault::Short),
    (3, 2, 2732, HssFault::Levels { got: 2 }),
    (0, 1, 2732, HssFault::Levels { got: 0x0100_0001 }),
    (
        0,
        0,
        4,
        HssFault::Sig {
            level: 0,
            fault: SigFault::Short,
        },
    ),
    (
        7,
        0x43,
        2732,
        HssFault::Sig {
            level: 0,
            fault: SigFault::Leaf { q: 0x43 },
        },
    ),
    (
        0,
        0,
        799,
        HssFault::Sig {
            level: 0,
            fault: SigFault::TooShort { got: 795 },
        },
    ),
    (
        1388,
        0x80,
        2732,
        HssFault::Pub {
            level: 1,
            fault: KeyFault::UnknownOts { code: 0x8000_0004 },
        },
    ),
    (
        0,
        0,
        2731,
        HssFault::Sig {
            level: 1,
            fault: SigFault::Length {
                got: 1291,
                want: 1292,
            },
        },
    ),
    (
        2732,
        0,
        2733,
        HssFault::Sig {
            level: 1,
            fault: SigFault::Length {
                got: 1293,
                want: 1292,
            },
        },
    ),
];

/// Whether the bytes of a row have the row's fault.
fn is_malformed(key: &HssKey, row: &(usize, u8, usize, HssFault)) -> bool {
    verdict_on(key, row.0, row.1, row.2) == HssVerdict::Malformed(row.3)
}

#[test]
fn other_bytes_are_no_signature(rt: HostRuntime) {
    let key = signing_key(&rt);
    for row in &FAULTS {
        holds(&rt, row.2 as u32, is_malformed(&key, row));
    }
}

#[test]
fn a_signature_is_accepted(rt: HostRuntime) {
    // The byte after the signature is not among those that are verified.
    assert!(rt; verdict_on(&signing_key(&rt), 2732, 0, 2732) == HssVerdict::Accepted { levels: 2 });
}

/// A place of the signature, the byte that is put there, the level whose signature then leads to another root, that
/// root, and the right one.
const ROOTS: [(usize, u8, u8, &[u8], &[u8]); 2] = [
    (
        652,
        0xec,
        0,
        b"\xef\x80\x32\xaf\x1f\x64\x08\x44\x76\x07\x53\xd7\x33\xb0\xd3\xee\
            \xd7\x7c\xfc\x26\xcc\xb1\x9d\xf7",
        b"\xd5\x7b\xae\x13\xe7\xa6\x4f\x53\x22\x48\x97\x71\x41\x55\x60\x76\
            \x74\x74\x5c\x56\x15\x3b\x95\x69",
    ),
    (
        2172,
        0x63,
        1,
        b"\x4d\xf9\x38\x1c\xcd\x57\xe4\x3f\xbb\x0b\x26\x54\xb0\xf7\x44\xb7\
            \x05\x7a\x13\x0d\x44\xfc\xf4\x21\x40\x8b\xf6\x3a\x6f\xe4\x0c\x11",
        b"\x01\x3d\x8d\xb1\x39\xc2\xb0\x45\x3f\x35\x18\x5d\x73\xb4\x57\x6c\
            \x0e\x28\xb9\x51\x3d\x83\x41\x29\x01\xbb\xa7\xaf\xef\x5d\x02\x93",
    ),
];

/// Whether the changed signature of a row leads to the row's root.
fn leads_elsewhere(key: &HssKey, row: &(usize, u8, u8, &[u8], &[u8])) -> bool {
    match verdict_on(key, row.0, row.1, 2732) {
        HssVerdict::OtherRoot { level, got, want } => {
            level == row.2 && got.bytes() == row.3 && want.bytes() == row.4
        }
        HssVerdict::Accepted { .. } | HssVerdict::Malformed(_) => false,
    }
}

#[test]
fn a_changed_signature_leads_to_another_root(rt: HostRuntime) {
    let key = signing_key(&rt);
    for row in &ROOTS {
        holds(&rt, row.2.into(), leads_elsewhere(&key, row));
    }
}

/// How many bytes of the key, a place, the byte that is put there, and why that is no key.
const KEY_FAULTS: [(usize, usize, u8, HssKeyFault, u8); 5] = [
    (3, 0, 0, HssKeyFault::Short, 1),
    (52, 3, 0, HssKeyFault::Levels { got: 0 }, 2),
    (52, 3, 9, HssKeyFault::Levels { got: 9 }, 2),
    (4, 0, 0, HssKeyFault::Key(KeyFault::Short), 3),
    (
        51,
        0,
        0,
        HssKeyFault::Key(KeyFault::Length { got: 47, want: 48 }),
        7,
    ),
];

/// What is read from `length` bytes of the key, with one byte changed.
fn key_of(length: usize, place: usize, byte: u8) -> Result<HssKey, HssKeyFault> {
    let mut bytes = [0; 52];
    bytes.copy_from_slice(&KEY);
    bytes[place % 52] = byte;
    read(&bytes[..length.min(52)])
}

/// Whether the bytes of a row have the row's fault, and the fault its number.
fn is_no_key(row: &(usize, usize, u8, HssKeyFault, u8)) -> bool {
    key_of(row.0, row.1, row.2) == Err(row.3) && row.3.number() == row.4
}

#[test]
fn other_bytes_are_no_key(rt: HostRuntime) {
    for row in &KEY_FAULTS {
        holds(&rt, row.0 as u32, is_no_key(row));
    }
}

/// Whether a signature of a lower key's bytes is accepted.
fn is_signed(key: &PublicKey, low: &PublicKey, message: &[u8], signature: &[u8]) -> bool
    requires { message.now ≡ public_bytes low.now }
    ensures { IsTrue result → Accepts key.now (public_bytes low.now) signature.now }
{
    match verify(key, message, signature) {
        Verdict::Accepted { .. } => true,
        Verdict::Malformed(_) | Verdict::OtherRoot { .. } => false,
    }
}

/// Whether a key and its signature of a lower key are joined to the key and the signature of two levels.
fn are_joined(alloc: Global, top: &PublicKey, low: &PublicKey, signature: &[u8]) -> bool
    requires { Accepts top.now (public_bytes low.now) signature.now }
{
    match join_two(alloc, top, signature, low, &SIGNATURE[LOW_SIGNATURE..]) {
        Ok((key, joined)) => {
            key.as_slice() == KEY.as_slice() && joined.as_slice() == SIGNATURE.as_slice()
        }
        Err(_) => false,
    }
}

#[test]
fn two_levels_are_joined(rt: HostRuntime) {
    let top = signing_key(&rt).top;
    let low_bytes = &SIGNATURE[LOW_KEY..LOW_SIGNATURE];
    let low = read_public(low_bytes).expect(&rt, "a key");
    let top_signature = &SIGNATURE[4..LOW_KEY];
    assert!(rt; is_signed(&top, &low, low_bytes, top_signature));
    assert!(rt; are_joined(rt.alloc(), &top, &low, top_signature));
}

#[test]
fn verdicts_and_faults_read_as_sentences(rt: HostRuntime) {
    let malformed = HssVerdict::Malformed(HssFault::Sig {
        level: 1,
        fault: SigFault::Leaf { q: 32 },
    });
    let text =
        "no signature under the key: the signature of level 1: leaf 32 where a leaf of the key's tree is wanted";
    assert!(rt; reads_as(rt.alloc(), &malformed, text));
    let accepted = HssVerdict::Accepted { levels: 2 };
    assert!(rt; reads_as(rt.alloc(), &accepted, "accepted: 2 levels signed"));
    let fault = HssKeyFault::Levels { got: 9 };
    assert!(rt; reads_as(rt.alloc(), &fault, "9 levels where 1 to 8 are wanted"));
}
