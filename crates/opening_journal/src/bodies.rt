//! The bodies of a journal's slots.

ghost use Rattle.std.specs.Prelude.{◌≡◌, ◌≤◌, ◌++◌, take, drop};
ghost use Rattle.lms_bytes.specs.HashLength.{IsHashLength};
ghost use Rattle.opening_journal.specs.EntrySlots.{filled};

use lms_bytes::Val;

// A value filled up with zeros to 32 bytes.
fn filled(value: &Val) -> [u8; 32]
    ensures { result ≡ filled value.now }
{
    let mut out = [0; 32];
    let bytes = value.bytes();
    out[..bytes.len()].copy_from_slice(bytes);
    out
}

/// Body B: the randomizer and the digest, each filled up with zeros to 32 bytes.
pub(crate) fn pair_bytes(c: &Val, digest: &Val) -> [u8; 64]
    ensures { result ≡ filled c.now ++ filled digest.now }
{
    let mut body = [0; 64];
    body[..32].copy_from_slice(&filled(c));
    body[32..].copy_from_slice(&filled(digest));
    body
}

/// The value of `n` bytes at a place of a body B.
pub(crate) fn value_at(body: &[u8; 64], at: usize, n: u8) -> Val
    requires n { IsHashLength n }
    requires at { at ≤ 32 }
    ensures { result ≡ take n (drop at body.now) }
{
    Val::of(&body[at..at + n as usize])
}
