//! How the parts of an HSS signature are read.

ghost use Rattle.std.specs.Prelude.{◌≡◌, ◌+◌, ◌<◌, ◌++◌, ℕ, List, length, take, drop};
ghost use Rattle.std.specs.Prelude.{None, IfNone, IfSome, IfOk, IfErr, IsOkAnd, IsErrOf};
ghost use Rattle.lms_bytes.specs.PublicKey.{public_bytes};
ghost use Rattle.lms_bytes.specs.Signature.{signature_fault, signature_length};
ghost use Rattle.lms_bytes.specs.declared.public_key.PublicKey.{PublicKey};
ghost use Rattle.hss_levels.specs.Levels.{SignedKey};
ghost use Rattle.hss_levels.specs.Parts.{ArePartsOf, PartsFault, SignedKeyFault, key_front};
ghost use Rattle.hss_levels.specs.declared.faults.HssFault.{HssFault};

use crate::faults::HssFault;
use lms_bytes::bytes::u32_at;
use lms_bytes::{Params, PublicKey, read_public, read_signature};

/// A public key with the signature that the level above makes of it, where they lie, and what follows them
/// (RFC 8554 section 6.2, `signed_pub_key`).
#[derive(Clone, Copy)]
pub(crate) struct SignedKeyView<'a> {
    pub(crate) signature: &'a [u8],
    /// The bytes of `key`.
    pub(crate) message: &'a [u8],
    pub(crate) key: PublicKey,
    pub(crate) behind: &'a [u8],
}

/// The first part that does not read, in the order of the bytes (RFC 8554 section 6.3). `key` is that of `level`, and
/// the signed keys of `below` levels and the last signature make up all of `parts`.
pub(crate) fn find_fault(key: &PublicKey, level: u8, below: u8, parts: &[u8]) -> Option<HssFault>
    requires { level + below < 8 }
    ensures fault { IfSome result (PartsFault key.now level below parts.now) }
    ensures found { (fault : HssFault) → PartsFault key.now level below parts.now fault → result ≡ Some fault }
    ensures parts { IfNone result ((keys : List SignedKey) × (last : List ℕ)
        × ArePartsOf key.now below parts.now keys last) }
    ensures faultless { (keys : List SignedKey) (last : List ℕ) → ArePartsOf key.now below parts.now keys last
        → result ≡ None }
{
    if below == 0 {
        return match read_signature(&key.params, parts) {
            Ok(_) => None,
            Err(fault) => Some(HssFault::Sig { level, fault }),
        };
    }
    match read_signed_key(key, level, parts) {
        Ok(signed) => find_fault(&signed.key, level + 1, below - 1, signed.behind),
        Err(fault) => Some(fault),
    }
}

/// Reads the signature and the public key at the front of `parts`. `key` is that of `level`, which makes the signature.
pub(crate) fn read_signed_key<'a>(
    key: &PublicKey,
    level: u8,
    parts: &'a [u8],
) -> Result<SignedKeyView<'a>, HssFault>
    requires { level < 8 }
    ensures read { IfOk result (λ view. signature_fault key.now.params view.signature.now ≡ None) }
    ensures message { IfOk result (λ view. view.message.now ≡ public_bytes view.key) }
    ensures parts { IfOk result (λ view.
        parts.now ≡ view.signature.now ++ public_bytes view.key ++ view.behind.now) }
    ensures found { (signed : SignedKey) (behind : List ℕ) → signature_fault key.now.params signed.signature ≡ None
        → parts.now ≡ signed.signature ++ public_bytes signed.key ++ behind → IsOkAnd result (λ view.
        (view.signature.now ≡ signed.signature) × (view.key ≡ signed.key) × (view.behind.now ≡ behind)) }
    ensures fault { IfErr result (SignedKeyFault key.now level parts.now) }
    ensures refused { (fault : HssFault) → SignedKeyFault key.now level parts.now fault → IsErrOf result fault }
{
    let (signature, rest) = split_front(parts, signature_length(&key.params));
    if let Err(fault) = read_signature(&key.params, signature) {
        return Err(HssFault::Sig { level, fault });
    }
    let (message, behind) = split_key(rest);
    match read_public(message) {
        Ok(key) => Ok(SignedKeyView {
            signature,
            message,
            key,
            behind,
        }),
        Err(fault) => Err(HssFault::Pub {
            level: level + 1,
            fault,
        }),
    }
}

/// The bytes at the front of `parts` that are read as a public key, and those after them: as many as the set of its
/// typecodes has, or all if there are fewer or if the typecodes are of no set.
#[tactic(auto, unfolding(crate::specs::Parts::key_front))]
fn split_key(parts: &[u8]) -> (&[u8], &[u8])
    ensures front { result.0.now ≡ key_front parts.now }
    ensures all { parts.now ≡ result.0.now ++ result.1.now }
{
    if parts.len() < 8 {
        return (parts, &[]);
    }
    match Params::of_codes(u32_at(parts, 0), u32_at(parts, 4)) {
        Ok(params) => split_front(parts, 24 + params.n as usize),
        Err(_) => (parts, &[]),
    }
}

/// The length of a signature of this set in bytes (RFC 8554 section 5.4).
fn signature_length(params: &Params) -> usize
    ensures { result ≡ signature_length params.now }
{
    let n = params.n as usize;
    12 + n * (params.p as usize + 1) + n * params.h as usize
}

/// The first `length` bytes, or all if there are fewer, and those after them.
fn split_front(bytes: &[u8], length: usize) -> (&[u8], &[u8])
    ensures front { result.0.now ≡ take length bytes.now }
    ensures behind { result.1.now ≡ drop length bytes.now }
{
    if length < bytes.len() {
        bytes.split_at(length)
    } else {
        (bytes, &[])
    }
}
