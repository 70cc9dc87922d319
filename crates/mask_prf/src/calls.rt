//! Each value by one call, under a key that is used once.

ghost use Rattle.std.specs.Prelude.{◌≡◌, ◌++◌, length};
ghost use Rattle.mask_prf.specs.Hmac.{hmac};
ghost use Rattle.mask_prf.specs.Masks.{chain_mask_of, check_tag_of, random_mask_of, randomizer_of};

use crate::mac_key::MacKey;
use crate::pads::{BLOCK, IPAD, OPAD, begin, finish};
use lms_bytes::{KeyId, Params, Val};
use sha2::{Digest, Sha256};

/// HMAC-SHA-256 of two parts, joined (RFC 2104).
pub fn hmac(key: &[u8; 32], first: &[u8], second: &[u8]) -> [u8; 32]
    ensures { result ≡ hmac key.now (first.now ++ second.now) }
{
    MacKey::new(key).hmac(first, second)
}

/// HMAC-SHA-256 under a key of any length. A key longer than 64 bytes is hashed first (RFC 2104).
#[tactic(auto, unfolding(crate::specs::Hmac::hmac))]
pub fn hmac_any(key: &[u8], text: &[u8]) -> [u8; 32]
    ensures { result ≡ hmac key.now text.now }
{
    if key.len() > BLOCK {
        let hashed: [u8; 32] = Sha256::digest(key);
        return hmac(&hashed, text, &[]);
    }
    let middle = finish(&begin(key, IPAD), text, &[]);
    finish(&begin(key, OPAD), &middle, &[])
}

/// The mask of the value of chain `i` of leaf `q` after `j` steps, `n` bytes, from a trustee's key.
pub fn chain_mask(key: &[u8; 32], params: &Params, id: &KeyId, q: u32, i: u16, j: u8) -> Val
    ensures mask { result ≡ chain_mask_of params.now key.now id.now q i j }
    ensures length { length result ≡ params.now.n }
{
    MacKey::new(key).chain_mask(params, id, q, i, j)
}

/// The mask of the randomizer of leaf `q`, `n` bytes, from a trustee's key.
pub fn random_mask(key: &[u8; 32], params: &Params, id: &KeyId, q: u32) -> Val
    ensures mask { result ≡ random_mask_of params.now key.now id.now q }
    ensures length { length result ≡ params.now.n }
{
    MacKey::new(key).random_mask(params, id, q)
}

/// The check tag of the randomizer `c` of leaf `q`, from a trustee's key.
pub fn check_tag(key: &[u8; 32], id: &KeyId, q: u32, c: &Val) -> [u8; 32]
    ensures { result ≡ check_tag_of key.now id.now q c.now }
{
    MacKey::new(key).check_tag(id, q, c)
}

/// The randomizer of leaf `q`, `n` bytes, from the randomizer key.
pub fn randomizer(key: &[u8; 32], params: &Params, id: &KeyId, q: u32) -> Val
    ensures randomizer { result ≡ randomizer_of params.now key.now id.now q }
    ensures length { length result ≡ params.now.n }
{
    MacKey::new(key).randomizer(params, id, q)
}
