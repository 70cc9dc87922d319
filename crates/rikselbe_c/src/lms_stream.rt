//! Verification of a message that comes in pieces, under an LMS key.

ghost use Rattle.std.specs.Prelude.{◌≡◌, ◌++◌, [], List, ℕ};
ghost use Rattle.lms_bytes.specs.Signature.{HasLayout};
ghost use Rattle.lms_verify.specs.Accepts.{AcceptsAt, root_of_parts};
ghost use Rattle.lms_verify.specs.Verdict.{IsVerdict};
ghost use Rattle.ots_chain.specs.MessageHash.{HasTaken};
ghost use Rattle.rikselbe_c.specs.Answers.{IsLmsVerified};
ghost use Rattle.rikselbe_c.specs.LmsStream.{HasTakenPart};

use crate::answers::{of_lms, of_lms_key, of_lms_signature};
use lms_bytes::{PublicKey, Val, read_public, read_signature};
use lms_verify::Verdict;
use merkle_path::root_from;
use ots_chain::{MessageHash, leaf_key_from};

/// A verification in the making. The signature is not kept in it.
#[derive(Drop)]
pub enum LmsStream {
    /// The key or the signature does not read: the answer, whatever the message is.
    Refused { number: u32 },
    /// The digest of the message so far, under the key and the signature's leaf and randomizer.
    Hashing { key: PublicKey, hash: MessageHash },
}

/// The state before the first piece.
pub(crate) fn begun(key: &[u8], signature: &[u8]) -> LmsStream
    ensures { HasTakenPart result key.now signature.now [] }
{
    let key = match read_public(key) {
        Ok(key) => key,
        Err(fault) => {
            let number = of_lms_key(&fault);
            return LmsStream::Refused { number };
        }
    };
    match read_signature(&key.params, signature) {
        Ok(view) => {
            let c = Val::of(view.c);
            let hash = MessageHash::new(&key.params, &key.id, view.leaf, &c);
            LmsStream::Hashing { key, hash }
        }
        Err(fault) => {
            let number = of_lms_signature(&fault);
            LmsStream::Refused { number }
        }
    }
}

/// The state after the next piece.
pub(crate) fn updated(state: LmsStream, piece: &[u8]) -> LmsStream
    ensures { (key signature message : List ℕ) → HasTakenPart state key signature message
        → HasTakenPart result key signature (message ++ piece.now) }
{
    match state {
        LmsStream::Refused { number } => LmsStream::Refused { number },
        LmsStream::Hashing { key, mut hash } => {
            hash.update(piece);
            LmsStream::Hashing { key, hash }
        }
    }
}

/// The answer after the last piece, and the leaf that signed if the answer is acceptance.
pub(crate) fn finished(state: LmsStream, signature: &[u8], leaf: &mut u32) -> u32
    requires { (key : List ℕ) × (message : List ℕ) × HasTakenPart state key signature.now message }
    ensures { (key message : List ℕ) → HasTakenPart state key signature.now message
        → IsLmsVerified key message signature.now leaf.old result leaf.new }
{
    match state {
        LmsStream::Refused { number } => number,
        LmsStream::Hashing { key, hash } => of_lms(&verdict_of(&key, hash, signature), leaf),
    }
}

/// The verdict from the digest of the whole message (RFC 8554 section 5.4.2, Algorithm 6).
pub(crate) fn verdict_of(key: &PublicKey, hash: MessageHash, signature: &[u8]) -> Verdict
    requires { (q : ℕ) × (c : List ℕ) × (message : List ℕ) × HasTaken hash key.now.params key.now.id q c message }
    ensures { (q : ℕ) (c y path message : List ℕ) → HasLayout key.now.params signature.now q c y path
        → HasTaken hash key.now.params key.now.id q c message → IsVerdict key.now message signature.now result }
{
    let view = match read_signature(&key.params, signature) {
        Ok(view) => view,
        Err(fault) => return Verdict::Malformed(fault),
    };
    let digest = hash.finish();
    let leaf_key = leaf_key_from(&key.params, &key.id, view.leaf, &digest, view.chains);
    let got = root_from(&key.params, &key.id, view.leaf, &leaf_key, view.path);
    if got == key.root {
        Verdict::Accepted { leaf: view.leaf }
    } else {
        Verdict::OtherRoot {
            got,
            want: key.root,
        }
    }
}
