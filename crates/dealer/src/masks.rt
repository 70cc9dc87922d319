//! The masks of both trustees.

ghost use Rattle.std.specs.Prelude.{◌≡◌, ◌*◌, length};
ghost use Rattle.lms_bytes.specs.Bytes.{joined};
ghost use Rattle.mask_prf.specs.Masks.{chain_mask_of, random_mask_of};
ghost use Rattle.dealer.specs.Signing.{digit_sum, mask_sum};

use lms_bytes::bytes::put;
use lms_bytes::{KeyId, Params, Val, digit};
use mask_prf::MacKey;

/// The mask keys of both trustees.
#[derive(Drop)]
pub(crate) struct Keys {
    pub(crate) first: MacKey,
    pub(crate) second: MacKey,
}

impl Keys {
    /// The sum of the masks for the randomizer of leaf `q`.
    pub(crate) fn random_sum(&self, params: &Params, id: &KeyId, q: u32) -> Val
        ensures sum { result ≡ mask_sum params.now.n self.now (λ key. random_mask_of params.now key id.now q) }
        ensures length { length result ≡ params.now.n }
    {
        let first = self.first.random_mask(params, id, q);
        first.xor(&self.second.random_mask(params, id, q))
    }

    /// The sum of the masks for the value of chain `i` of leaf `q` after `j` steps.
    fn chain_sum(&self, params: &Params, id: &KeyId, q: u32, i: u16, j: u8) -> Val
        ensures sum { result ≡ mask_sum params.now.n self.now (λ key. chain_mask_of params.now key id.now q i j) }
        ensures length { length result ≡ params.now.n }
    {
        let first = self.first.chain_mask(params, id, q, i, j);
        first.xor(&self.second.chain_mask(params, id, q, i, j))
    }

    /// Writes for each chain of leaf `q` the sum of the masks at the digest's digit, `p` sums of `n` bytes.
    pub(crate) fn write_chain_sums(
        &self,
        params: &Params,
        id: &KeyId,
        q: u32,
        digest: &Val,
        out: &mut [u8],
    )
        requires digest { length digest.now ≡ params.now.n }
        requires room { length out.old ≡ params.now.n * params.now.p }
        ensures { out.new ≡ joined (digit_sum params.now id.now self.now q digest.now) params.now.p }
    {
        let n = params.n as usize;
        'chains: for i in 0..params.p {
            let sum = self.chain_sum(params, id, q, i, digit(params, digest, i));
            put(out, n * i as usize, sum.bytes());
        }
    }
}
