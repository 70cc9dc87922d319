//! Verification of a message that comes in pieces, under an HSS key.

ghost use Rattle.std.specs.Prelude.{◌≡◌, ◌++◌, [], List, ℕ, drop};
ghost use Rattle.hss_levels.specs.HssKey.{hss_key_bytes};
ghost use Rattle.hss_levels.specs.Levels.{SignedKey};
ghost use Rattle.hss_levels.specs.Parts.{ArePartsOf, key_front};
ghost use Rattle.rikselbe_c.specs.Answers.{IsHssVerified};
ghost use Rattle.rikselbe_c.specs.HssStream.{HasLevels, HasTakenPart, last_key};

use crate::answers::{of_hss, of_hss_key, of_last_level, of_signature};
use crate::lms_stream::verdict_of;
use hss_levels::{HssKey, HssVerdict, hss_verify, read_hss_key};
use lms_bytes::bytes::u32_at;
use lms_bytes::{Params, PublicKey, Val, read_public, read_signature};
use ots_chain::MessageHash;

/// A verification in the making. The signature is not kept in it.
#[derive(Drop)]
pub enum HssStream {
    /// The key or the signature does not read, or a level above the last is not signed: the answer, whatever the
    /// message is.
    Refused {
        number: u32,
    },
    /// The digest of the message so far, under the key of the last level and its signature's leaf and randomizer. That
    /// signature lies at `place` in the whole one.
    Hashing {
        level: u8,
        place: usize,
        key: PublicKey,
        hash: MessageHash,
    },
}

/// The state before the first piece.
pub(crate) fn begun(key: &[u8], signature: &[u8]) -> HssStream
    ensures { HasTakenPart result key.now signature.now [] }
{
    let key = match read_hss_key(key) {
        Ok(key) => key,
        Err(fault) => {
            let number = of_hss_key(&fault);
            return HssStream::Refused { number };
        }
    };
    // No part of the verdict on the levels above the last depends on the message, so any message does.
    let verdict = hss_verify(&key, &[], signature);
    match verdict {
        HssVerdict::Accepted { .. } => hashing(&key, signature),
        HssVerdict::Malformed(_) => {
            let number = of_hss(&verdict);
            HssStream::Refused { number }
        }
        HssVerdict::OtherRoot { level, .. } => {
            if level < key.levels - 1 {
                let number = of_hss(&verdict);
                return HssStream::Refused { number };
            }
            hashing(&key, signature)
        }
    }
}

/// The state before the first piece, if all levels above the last are signed.
fn hashing(key: &HssKey, signature: &[u8]) -> HssStream
    requires { HasLevels key.now signature.now }
    ensures { (bytes : List ℕ) → bytes ≡ hss_key_bytes key.now → HasTakenPart result bytes signature.now [] }
{
    let level = key.levels - 1;
    let last = last_part(&key.top, level, behind(signature, 4));
    let place = signature.len() - last.signature.len();
    match read_signature(&last.key.params, last.signature) {
        Ok(view) => {
            let c = Val::of(view.c);
            let hash = MessageHash::new(&last.key.params, &last.key.id, view.leaf, &c);
            HssStream::Hashing {
                level,
                place,
                key: last.key,
                hash,
            }
        }
        Err(fault) => {
            let number = of_signature(level, &fault);
            HssStream::Refused { number }
        }
    }
}

/// The key of the last level, and the signature under it.
#[derive(Clone, Copy)]
struct LastPart<'a> {
    key: PublicKey,
    signature: &'a [u8],
}

/// The last of the parts: `key` has the signed keys of `below` levels below it (RFC 8554 section 6.2).
fn last_part<'a>(key: &PublicKey, below: u8, parts: &'a [u8]) -> LastPart<'a>
    ensures found { (keys : List SignedKey) (last : List ℕ) → ArePartsOf key.now below parts.now keys last
        → (result.key ≡ last_key key.now keys) × (result.signature.now ≡ last) }
{
    if below == 0 {
        return LastPart {
            key: *key,
            signature: parts,
        };
    }
    let n = key.params.n as usize;
    let length = 12 + n * (key.params.p as usize + 1) + n * key.params.h as usize;
    let (front, rest) = split_key(behind(parts, length));
    match read_public(front) {
        Ok(next) => last_part(&next, below - 1, rest),
        Err(_) => LastPart {
            key: *key,
            signature: parts,
        },
    }
}

/// The bytes at the front that are a public key, and those after it: as many as the set of its typecodes has, or all of
/// them if there are fewer or if the typecodes are of no set.
#[tactic(auto, unfolding(hss_levels::specs::Parts::key_front))]
fn split_key(parts: &[u8]) -> (&[u8], &[u8])
    ensures front { result.0.now ≡ key_front parts.now }
    ensures all { parts.now ≡ result.0.now ++ result.1.now }
{
    if parts.len() < 8 {
        return (parts, &[]);
    }
    match Params::of_codes(u32_at(parts, 0), u32_at(parts, 4)) {
        Ok(params) => {
            let length = 24 + params.n as usize;
            if length < parts.len() {
                parts.split_at(length)
            } else {
                (parts, &[])
            }
        }
        Err(_) => (parts, &[]),
    }
}

/// The bytes after the first `length`.
fn behind(bytes: &[u8], length: usize) -> &[u8]
    ensures bytes { result.now ≡ drop length bytes.now }
{
    if length < bytes.len() {
        &bytes[length..]
    } else {
        &[]
    }
}

/// The state after the next piece.
pub(crate) fn updated(state: HssStream, piece: &[u8]) -> HssStream
    ensures { (key signature message : List ℕ) → HasTakenPart state key signature message
        → HasTakenPart result key signature (message ++ piece.now) }
{
    match state {
        HssStream::Refused { number } => HssStream::Refused { number },
        HssStream::Hashing {
            level,
            place,
            key,
            mut hash,
        } => {
            hash.update(piece);
            HssStream::Hashing {
                level,
                place,
                key,
                hash,
            }
        }
    }
}

/// The answer after the last piece.
pub(crate) fn finished(state: HssStream, signature: &[u8]) -> u32
    requires { (key : List ℕ) × (message : List ℕ) × HasTakenPart state key signature.now message }
    ensures { (key message : List ℕ) → HasTakenPart state key signature.now message
        → IsHssVerified key message signature.now result }
{
    match state {
        HssStream::Refused { number } => number,
        HssStream::Hashing {
            level,
            place,
            key,
            hash,
        } => of_last_level(level, &verdict_of(&key, hash, behind(signature, place))),
    }
}
