//! Tests of what no contract says: that the definitions are the standard's, by a signature that another implementation
//! made, and each refusal once.

ghost use Rattle.std.specs.Prelude.{◌≡◌, ◌^◌, ◌<◌, IfOk, length};

mod vector;

use crate::values::{holds, reads_as};
use lms_bytes::bytes::put;
use lms_bytes::{PublicKey, SigFault, Val, digit, read_public, write_layout};
use lms_verify::{Verdict, verify};
use merkle_path::Tree;
use ots_chain::{MessageHash, chain, leaf_key_of, secret};
use std::alloc::Global;
use std::process::Abort;
use std::test::Fail;
use vector::{KEY, MESSAGE, SEED, SIGNATURE};

/// The public key of the signature.
fn public_key(rt: &impl Abort) -> PublicKey
    ensures n { result.params.n ≡ 24 }
    ensures p { result.params.p ≡ 26 }
    ensures h { result.params.h ≡ 5 }
{
    let key = read_public(&KEY).expect(rt, "a public key");
    assert!(rt; key.params.n == 24 && key.params.p == 26 && key.params.h == 5);
    key
}

/// The verdict on these bytes.
fn verdict(key: &PublicKey, message: &[u8], bytes: &[u8]) -> Verdict {
    verify(key, message, bytes)
}

/// The root to which the signature leads for a message with another first byte.
const OTHER_ROOT: &[u8; 24] = b"\x13\x77\x59\x44\x86\xc2\xb0\x51\x13\x1d\x78\x4f\
    \x26\x4e\xe4\x4d\x27\x3a\x8f\x85\x6c\xde\xf0\xdd";

/// The verdict on the signature for that message.
fn verdict_on_other(key: &PublicKey) -> Verdict {
    let mut message = MESSAGE;
    message[0] ^= 1;
    verdict(key, &message, &SIGNATURE)
}

#[test]
fn a_signature_is_accepted_for_its_message_alone(rt: HostRuntime) {
    let key = public_key(&rt);
    assert!(rt; verdict(&key, &MESSAGE, &SIGNATURE) == Verdict::Accepted { leaf: 14 });
    let other = Verdict::OtherRoot {
        got: Val::of(OTHER_ROOT),
        want: key.root,
    };
    assert!(rt; verdict_on_other(&key) == other);
}

#[test]
fn verdicts_read_as_sentences(rt: HostRuntime) {
    let accepted = Verdict::Accepted { leaf: 3 };
    assert!(rt; reads_as(rt.alloc(), &accepted, "accepted: leaf 3 signed"));
    let malformed = Verdict::Malformed(SigFault::Leaf { q: 32 });
    let text = "no signature of the key's set: leaf 32 where a leaf of the key's tree is wanted";
    assert!(rt; reads_as(rt.alloc(), &malformed, text));
}

/// A place of the signature, the byte that is put there, a length, and why that many bytes of it are no signature.
const FAULTS: [(usize, u8, usize, SigFault); 7] = [
    (0, 0, 7, SigFault::Short),
    (7, 7, 780, SigFault::OtsCode { got: 7 }),
    (0, 0, 659, SigFault::TooShort { got: 659 }),
    (659, 11, 780, SigFault::LmsCode { got: 11 }),
    (3, 32, 780, SigFault::Leaf { q: 32 }),
    (
        0,
        0,
        779,
        SigFault::Length {
            got: 779,
            want: 780,
        },
    ),
    (
        780,
        0,
        781,
        SigFault::Length {
            got: 781,
            want: 780,
        },
    ),
];

/// The verdict on `length` bytes of the signature and of a 0 after it, with one byte changed.
fn verdict_on(key: &PublicKey, place: usize, byte: u8, length: usize) -> Verdict {
    let mut bytes = [0; 781];
    bytes[..780].copy_from_slice(&SIGNATURE);
    bytes[place % 781] = byte;
    verdict(key, &MESSAGE, &bytes[..length.min(781)])
}

/// Whether the bytes of a row have the row's fault.
fn is_malformed(key: &PublicKey, row: &(usize, u8, usize, SigFault)) -> bool {
    verdict_on(key, row.0, row.1, row.2) == Verdict::Malformed(row.3)
}

#[test]
fn other_bytes_are_no_signature(rt: HostRuntime) {
    let key = public_key(&rt);
    for row in &FAULTS {
        holds(&rt, row.2 as u32, is_malformed(&key, row));
    }
}

/// The tree of the key with this seed.
fn tree_of(alloc: Global, key: &PublicKey, seed: &Val) -> Result<Tree, Fail>
    requires height { key.now.params.h ≡ 5 }
    requires seed { length seed.now ≡ key.now.params.n }
    ensures { IfOk result (λ tree. (tree.n ≡ key.now.params.n) × (tree.h ≡ key.now.params.h)) }
{
    let mut leaf_keys = [*seed; 32];
    for q in 0..32 {
        leaf_keys[q as usize] = leaf_key_of(&key.params, &key.id, q, seed);
    }
    Ok(Tree::build(alloc, &key.params, &key.id, &leaf_keys)?)
}

/// Writes the chain values of leaf 14 for the digest of the message.
fn put_chains(key: &PublicKey, seed: &Val, c: &Val, out: &mut [u8; 624])
    requires n { key.now.params.n ≡ 24 }
    requires p { key.now.params.p ≡ 26 }
    requires seed { length seed.now ≡ key.now.params.n }
    requires c { length c.now ≡ key.now.params.n }
{
    let digest = MessageHash::of(&key.params, &key.id, 14, c, &MESSAGE);
    for i in 0..key.params.p {
        let start = secret(&key.params, &key.id, 14, i, seed);
        let to = digit(&key.params, &digest, i) as u16;
        let value = chain(&key.params, &key.id, 14, i, 0, to, &start);
        put(out, 24 * i as usize, value.bytes());
    }
}

/// Writes the path of leaf 14, whose tree has the key's root.
fn put_path(
    rt: &impl Abort,
    alloc: Global,
    key: &PublicKey,
    seed: &Val,
    out: &mut [u8; 120],
) -> Result<(), Fail>
    requires n { key.now.params.n ≡ 24 }
    requires height { key.now.params.h ≡ 5 }
    requires seed { length seed.now ≡ key.now.params.n }
{
    let tree = tree_of(alloc, key, seed)?;
    assert!(rt; tree.root() == key.root);
    tree.write_path(14, out);
    Ok(())
}

#[test]
fn a_whole_key_makes_the_signature(rt: HostRuntime) -> Result<(), Fail> {
    let key = public_key(&rt);
    let seed = Val::of(&SEED);
    let c = Val::of(&SIGNATURE[8..32]);
    let mut chains = [0; 624];
    put_chains(&key, &seed, &c, &mut chains);
    let mut path = [0; 120];
    put_path(&rt, rt.alloc(), &key, &seed, &mut path)?;
    let mut bytes = [0; 780];
    write_layout(&key.params, 14, &c, &chains, &path, &mut bytes);
    assert!(rt; bytes == SIGNATURE);
    Ok(())
}
