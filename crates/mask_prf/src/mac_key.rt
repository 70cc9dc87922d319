//! Keys whose blocks were hashed once.

ghost use Rattle.std.specs.Prelude.{◌≡◌, ◌++◌, length};
ghost use Rattle.mask_prf.specs.Hmac.{hmac};
ghost use Rattle.mask_prf.specs.Masks.{chain_mask_of, check_tag_of, leaf_text, random_mask_of, randomizer_of};

use crate::pads::{IPAD, OPAD, begin, finish};
use lms_bytes::bytes::put;
use lms_bytes::{KeyId, Params, Val};
use sha2::Sha256;
use std::marker::Model;

/// The first byte of a text, which says what is derived from it.
const CHAIN_MASK: u8 = 0x01;

const RANDOM_MASK: u8 = 0x02;

const CHECK_TAG: u8 = 0x03;

const RANDOMIZER: u8 = 0x04;

/// A key of HMAC whose two blocks were hashed once, so that each text costs only its own blocks. Contracts see the key.
#[derive(Drop)]
pub struct MacKey {
    key: [u8; 32],
    inner: Sha256,
    outer: Sha256,
}

impl Model for MacKey {
    ghost use Rattle.std.specs.Prelude.{ℕ, List};
    ghost use Rattle.mask_prf.specs.Hmac.{padded};
    ghost use Rattle.sha2.specs.Hashers.{Holds256};

    ghost Value = { List ℕ };

    ghost view = { λ k. k.key };

    ghost invariant = { λ k. Holds256 k.inner (padded k.key 0x36) × Holds256 k.outer (padded k.key 0x5c) };
}

impl MacKey {
    /// The state of a key.
    pub fn new(key: &[u8; 32]) -> MacKey
        ensures { result ≡ key.now }
    {
        MacKey {
            key: *key,
            inner: begin(key, IPAD),
            outer: begin(key, OPAD),
        }
    }

    /// HMAC of two parts, joined.
    #[tactic(auto, unfolding(crate::specs::Hmac::hmac))]
    pub fn hmac(&self, first: &[u8], second: &[u8]) -> [u8; 32]
        ensures { result ≡ hmac self.now (first.now ++ second.now) }
    {
        let middle = finish(&self.inner, first, second);
        finish(&self.outer, &middle, &[])
    }

    /// The mask of the value of chain `i` of leaf `q` after `j` steps, `n` bytes.
    #[tactic(auto, unfolding(crate::specs::Masks::chain_mask_of))]
    pub fn chain_mask(&self, params: &Params, id: &KeyId, q: u32, i: u16, j: u8) -> Val
        ensures mask { result ≡ chain_mask_of params.now self.now id.now q i j }
        ensures length { length result ≡ params.now.n }
    {
        let [high, low] = i.to_be_bytes();
        let mac = self.hmac(&text_of_leaf(CHAIN_MASK, id, q), &[high, low, j]);
        Val::cut(&mac, params.n)
    }

    /// The mask of the randomizer of leaf `q`, `n` bytes.
    #[tactic(auto, unfolding(crate::specs::Masks::random_mask_of))]
    pub fn random_mask(&self, params: &Params, id: &KeyId, q: u32) -> Val
        ensures mask { result ≡ random_mask_of params.now self.now id.now q }
        ensures length { length result ≡ params.now.n }
    {
        let mac = self.hmac(&text_of_leaf(RANDOM_MASK, id, q), &[]);
        Val::cut(&mac, params.n)
    }

    /// The check tag of the randomizer `c` of leaf `q`.
    #[tactic(auto, unfolding(crate::specs::Masks::check_tag_of))]
    pub fn check_tag(&self, id: &KeyId, q: u32, c: &Val) -> [u8; 32]
        ensures { result ≡ check_tag_of self.now id.now q c.now }
    {
        self.hmac(&text_of_leaf(CHECK_TAG, id, q), c.bytes())
    }

    /// The randomizer of leaf `q`, `n` bytes.
    #[tactic(auto, unfolding(crate::specs::Masks::randomizer_of))]
    pub fn randomizer(&self, params: &Params, id: &KeyId, q: u32) -> Val
        ensures randomizer { result ≡ randomizer_of params.now self.now id.now q }
        ensures length { length result ≡ params.now.n }
    {
        let mac = self.hmac(&text_of_leaf(RANDOMIZER, id, q), &[]);
        Val::cut(&mac, params.n)
    }
}

/// What every text begins with.
fn text_of_leaf(kind: u8, id: &KeyId, q: u32) -> [u8; 21]
    ensures { result ≡ leaf_text kind id.now q }
{
    let mut text = [0; 21];
    put(&mut text, 0, &[kind]);
    put(&mut text, 1, id);
    put(&mut text, 17, &q.to_be_bytes());
    text
}
