//! A key's blocks, and what is hashed after them.

ghost use Rattle.std.specs.Prelude.{◌≡◌, ◌++◌, ◌≤◌, ℕ, List, length};
ghost use Rattle.mask_prf.specs.Hmac.{padded};
ghost use Rattle.sha2.specs.Hashers.{Holds256};
ghost use Rattle.sha2.specs.Sha256.{sha256};

use sha2::{Digest, Sha256};

/// The length of SHA-256's blocks, in bytes.
pub(crate) const BLOCK: usize = 64;

/// The byte of the inner pad.
pub(crate) const IPAD: u8 = 0x36;

/// The byte of the outer pad.
pub(crate) const OPAD: u8 = 0x5c;

/// A hasher that holds the key, no longer than a block, with a pad.
pub(crate) fn begin(key: &[u8], pad: u8) -> Sha256
    requires { length key.now ≤ BLOCK }
    ensures { Holds256 result (padded key.now pad) }
{
    let mut hasher = Sha256::new();
    hasher.update(block(key, pad).as_slice());
    hasher
}

/// The digest of what the hasher holds, followed by two parts.
pub(crate) fn finish(hasher: &Sha256, first: &[u8], second: &[u8]) -> [u8; 32]
    ensures { (s : List ℕ) → Holds256 hasher.now s → result ≡ sha256 (s ++ first.now ++ second.now) }
{
    let mut hasher = hasher.clone().unwrap();
    hasher.update(first);
    hasher.update(second);
    hasher.finalize()
}

/// The block of a key, no longer than that, with a pad.
fn block(key: &[u8], pad: u8) -> [u8; BLOCK]
    requires { length key.now ≤ BLOCK }
    ensures { result ≡ padded key.now pad }
{
    let mut out = [pad; BLOCK];
    'bytes: for i in 0..key.len() {
        out[i] = key[i] ^ pad;
    }
    out
}
