//! Tests of what no contract says: that the definitions are the profile's, by a key and signatures that another program
//! made, and each refusal once.

use dealer::{DealFault, Rehearsed, rehearse};
use lms_bytes::write_public;
use lms_verify::{Verdict, verify};
use sha2::{Digest, Sha256};
use std::alloc::Global;

/// The public key.
const KEY: [u8; 56] = *b"\x00\x00\x00\x05\x00\x00\x00\x03\x00\x01\x02\x03\x04\x05\x06\x07\
    \x08\x09\x0a\x0b\x0c\x0d\x0e\x0f\x66\x1a\xeb\x1d\x85\xe6\xa9\x93\
    \xe0\xe5\x5b\xbb\xad\x25\x64\xf1\xb4\x5e\x3e\x1b\xa8\xb9\xb4\xc9\
    \x17\xe9\x93\xeb\xbd\xaf\x19\xe2";

/// Messages, each with the SHA-256 of its signature.
const SIGNED: [(&[u8], &[u8; 32]); 2] = [
    (
        b"",
        b"\xa1\x1e\xc8\x51\x5c\xe8\x1a\xb8\x1d\x7c\x63\xfd\x4c\x47\x6c\x3a\
            \xf0\x6c\x74\x03\xe0\x56\x89\x09\x78\x9e\xd7\xf3\xa4\x2e\x09\xaf",
    ),
    (
        b"abc",
        b"\xaf\xd9\x3b\xec\x23\xb3\x31\x45\x5b\xf2\x5e\x9b\x36\x24\x36\x5e\
            \x3c\xfb\xc3\x43\xa8\x47\xdc\x34\x3e\x1e\x0a\xff\x2a\x62\x76\x29",
    ),
];

/// Whether the public key is that of the other program.
fn has_key(rehearsed: &Rehearsed) -> bool {
    let mut key = [0; 56];
    write_public(&rehearsed.public, &mut key);
    key == KEY
}

/// Whether the signature has this SHA-256, and is one of the message.
fn has_signature(rehearsed: &Rehearsed, message: &[u8], want: &[u8; 32]) -> bool {
    let hash: [u8; 32] = Sha256::digest(&rehearsed.signature);
    hash == *want
        && verify(&rehearsed.public, message, &rehearsed.signature) == Verdict::Accepted { leaf: 0 }
}

/// Rehearses with this entropy.
fn rehearsed(alloc: Global, entropy: &[u8], message: &[u8]) -> Result<Rehearsed, DealFault> {
    rehearse(alloc, entropy, message)
}

/// Rehearses with the bytes 0, 1, .. 143.
fn rehearse_count(alloc: Global, message: &[u8]) -> Result<Rehearsed, DealFault> {
    let mut entropy = [0; 144];
    for i in 0..144 {
        entropy[i as usize] = i;
    }
    rehearsed(alloc, &entropy, message)
}

/// Whether the key and the signature of a row's message are those of the other program.
fn is_rehearsed(alloc: Global, row: &(&[u8], &[u8; 32])) -> bool {
    match rehearse_count(alloc, row.0) {
        Ok(made) => has_key(&made) && has_signature(&made, row.0, row.1),
        Err(_) => false,
    }
}

#[test]
fn keys_and_signatures_are_those_of_another_program(rt: HostRuntime) {
    for row in &SIGNED {
        assert!(rt; is_rehearsed(rt.alloc(), row));
    }
}

/// Whether this entropy is refused for this reason.
fn refuses(alloc: Global, entropy: &[u8], why: DealFault) -> bool {
    match rehearsed(alloc, entropy, b"") {
        Ok(_) => false,
        Err(fault) => fault == why,
    }
}

#[test]
fn other_entropy_is_refused(rt: HostRuntime) {
    let length = DealFault::BadEntropy {
        got: 143,
        want: 144,
    };
    assert!(rt; refuses(rt.alloc(), &[7; 143], length));
    let same = DealFault::SameKeys { t: 1, u: 2 };
    assert!(rt; refuses(rt.alloc(), &[7; 144], same));
}
