//! The public values of leaves.

ghost use Rattle.std.specs.Prelude.{◌≡◌, ◌+◌, ◌-◌, ◌*◌, ◌≤◌, length};
ghost use Rattle.lms_bytes.specs.Bytes.{bytes_at};
ghost use Rattle.lms_bytes.specs.HashLength.{IsHashLength, IsHashLength-prop};
ghost use Rattle.ots_chain.specs.LeafKey.{seed_leaf_key, candidate_leaf_key};

use crate::D_PBLC;
use crate::chains::{chain, secret};
use lms_bytes::{KeyId, Params, Val, digit};
use sha2::{Digest, Sha256};

/// The public value K of a leaf in the making: the ends of its chains are taken one after the other.
#[derive(Drop)]
pub struct LeafKeyHash {
    hasher: Sha256,
    hash_length: u8,
    ghost sized: { IsHashLength hash_length } by { IsHashLength-prop hash_length },
}

impl LeafKeyHash {
    ghost use Rattle.std.specs.Prelude.{[], List, ℕ, ◌++◌};
    ghost use Rattle.lms_bytes.specs.Bytes.{joined};
    ghost use Rattle.lms_bytes.specs.declared.params.Params.{Params};
    ghost use Rattle.ots_chain.specs.LeafKey.{leaf_key_of_ends};
    ghost use Rattle.ots_chain.specs.LeafKeyHash.{HasEnds};

    /// The hash before any end is taken, for leaf `q`.
    pub fn new(params: &Params, id: &KeyId, q: u32) -> LeafKeyHash
        ensures { HasEnds result params.now id.now q [] }
    {
        let mut hasher = Sha256::new();
        hasher.update(id.as_slice());
        hasher.update(q.to_be_bytes().as_slice());
        hasher.update(D_PBLC.to_be_bytes().as_slice());
        LeafKeyHash {
            hasher,
            hash_length: params.n,
        }
    }

    /// Takes the end of the next chain, its value after all steps.
    pub fn take(&mut self, end: &Val)
        ensures { (params : Params) (id : List ℕ) (q : ℕ) (ends : List ℕ)
            → HasEnds self.old params id q ends → HasEnds self.new params id q (ends ++ end.now) }
    {
        self.hasher.update(end.bytes());
    }

    /// K, `n` bytes, once the ends of all chains are taken (RFC 8554 section 4.3, Algorithm 1, step 5).
    pub fn finish(self) -> Val
        ensures leaf_key { (params : Params) (id : List ℕ) (q : ℕ) (end : ℕ → List ℕ)
            → HasEnds self params id q (joined end params.p) → result ≡ leaf_key_of_ends params id q end }
        ensures length { (params : Params) (id : List ℕ) (q : ℕ) (ends : List ℕ)
            → HasEnds self params id q ends → length result ≡ params.n }
    {
        let digest: [u8; 32] = self.hasher.finalize();
        Val::cut(&digest, self.hash_length)
    }
}

/// K of leaf `q` of the key with this seed (RFC 8554 section 4.3, Algorithm 1).
pub fn leaf_key_of(params: &Params, id: &KeyId, q: u32, seed: &Val) -> Val
    requires { length seed.now ≡ params.now.n }
    ensures leaf_key { result ≡ seed_leaf_key params.now id.now q seed.now }
    ensures length { length result ≡ params.now.n }
{
    let greatest = params.greatest_digit();
    let mut hash = LeafKeyHash::new(params, id, q);
    'chains: for i in 0..params.p {
        let start = secret(params, id, q, i, seed);
        let end = chain(params, id, q, i, 0, greatest, &start);
        hash.take(&end);
    }
    hash.finish()
}

/// The candidate K of leaf `q`, from a digest and the chain values of a signature, `p` values of `n` bytes
/// (RFC 8554 section 4.6, Algorithm 4b).
pub fn leaf_key_from(params: &Params, id: &KeyId, q: u32, digest: &Val, chains: &[u8]) -> Val
    requires digest { length digest.now ≡ params.now.n }
    requires chains { length chains.now ≡ params.now.n * params.now.p }
    ensures leaf_key { result ≡ candidate_leaf_key params.now id.now q digest.now chains.now }
    ensures length { length result ≡ params.now.n }
{
    let greatest = params.greatest_digit();
    let mut hash = LeafKeyHash::new(params, id, q);
    'chains: for i in 0..params.p {
        let start = value_at(chains, params.n, i);
        let from = digit(params, digest, i) as u16;
        let end = chain(params, id, q, i, from, greatest, &start);
        hash.take(&end);
    }
    hash.finish()
}

/// The `i`-th of the values of `n` bytes.
fn value_at(values: &[u8], n: u8, i: u16) -> Val
    requires hash_length { IsHashLength n }
    requires inside { n * i + n ≤ length values.now }
    ensures { result ≡ bytes_at values.now (n * i) n }
{
    let n = n as usize;
    let place = n * i as usize;
    Val::of(&values[place..place + n])
}
