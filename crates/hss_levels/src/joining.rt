//! Signatures of two levels.

ghost use Rattle.std.specs.Prelude.{◌≡◌, ◌++◌, ℕ, List, IfOk, OnOk};
ghost use Rattle.lms_bytes.specs.Bytes.{u32str};
ghost use Rattle.lms_bytes.specs.PublicKey.{public_bytes};
ghost use Rattle.hss_levels.specs.HssAccepts.{HssAccepts};
ghost use Rattle.hss_levels.specs.Levels.{Accepts};
ghost use Rattle.hss_levels.specs.TwoLevels.{two_level_key, two_level_signature};

use lms_bytes::{PublicKey, write_public};
use memory::NoMemory;
use std::alloc::Global;

/// The length of the longest LMS public key in bytes, which is that for a hash length of 32.
const LONGEST_KEY: usize = 56;

/// The key and the signature of two levels, the upper of which signs the key of the lower: `top_sig` is accepted for
/// the bytes of `low`.
pub fn join_two(
    alloc: Global,
    top: &PublicKey,
    top_sig: &[u8],
    low: &PublicKey,
    low_sig: &[u8],
) -> Result<(Vec<u8>, Vec<u8>), NoMemory>
    requires { Accepts top.now (public_bytes low.now) top_sig.now }
    ensures key { IfOk result (λ joined. joined.0.items ≡ two_level_key top.now) }
    ensures signature { IfOk result (λ joined.
        joined.1.items ≡ two_level_signature top_sig.now low.now low_sig.now) }
    ensures accepted { IfOk result (λ joined. (message : List ℕ) → Accepts low.now message low_sig.now
        → HssAccepts joined.0.items message joined.1.items) }
{
    let key = key_of(alloc, top)?;
    let signature = signature_of(alloc, top_sig, low, low_sig)?;
    Ok((key, signature))
}

/// The bytes of a key of two levels with this key on top (RFC 8554 section 6.1).
fn key_of(alloc: Global, top: &PublicKey) -> Result<Vec<u8>, NoMemory>
    ensures { IfOk result (λ key. key.items ≡ two_level_key top.now) }
{
    let mut key = Vec::with_capacity(alloc, 4 + LONGEST_KEY)?;
    key.extend_from_slice(&2u32.to_be_bytes())?;
    append_key(&mut key, top)?;
    Ok(key)
}

/// The bytes of a signature of two levels from its parts (RFC 8554 section 6.2).
fn signature_of(
    alloc: Global,
    top_sig: &[u8],
    low: &PublicKey,
    low_sig: &[u8],
) -> Result<Vec<u8>, NoMemory>
    ensures { IfOk result (λ signature. signature.items ≡ two_level_signature top_sig.now low.now low_sig.now) }
{
    let mut signature = Vec::with_capacity(alloc, 4 + LONGEST_KEY)?;
    signature.extend_from_slice(&1u32.to_be_bytes())?;
    signature.extend_from_slice(top_sig)?;
    append_key(&mut signature, low)?;
    signature.extend_from_slice(low_sig)?;
    Ok(signature)
}

/// Appends the bytes of a public key to `out` (RFC 8554 section 5.3).
fn append_key(out: &mut Vec<u8>, key: &PublicKey) -> Result<(), NoMemory>
    ensures { OnOk result (out.new.items ≡ out.old.items ++ public_bytes key.now) }
{
    let mut bytes = [0; LONGEST_KEY];
    let length = write_public(key, &mut bytes);
    out.extend_from_slice(&bytes[..length])?;
    Ok(())
}
