//! Hash chains.

ghost use Rattle.std.specs.Prelude.{◌≡◌, ◌+◌, ◌-◌, ◌<◌, ◌≤◌, ◌^◌, ◌++◌, length, take};
ghost use Rattle.lms_bytes.specs.Bytes.{bytes_at, u8str, u16str, u32str};
ghost use Rattle.lms_bytes.specs.Hash.{hash};
ghost use Rattle.ots_chain.specs.Chains.{steps, secret_of};

use lms_bytes::bytes::{part, put};
use lms_bytes::{KeyId, Params, Val};
use sha2::{Digest, Sha256};

/// The length of what a step hashes: I, q, i and j, followed by the value.
const BLOCK: usize = 55;

/// Where the number of the step lies in a block, followed by the value.
const STEP: usize = 22;

const VALUE: usize = 23;

/// The secret value x_q[i] of the seed (RFC 8554 appendix A).
pub fn secret(params: &Params, id: &KeyId, q: u32, i: u16, seed: &Val) -> Val
    requires index { i < params.now.p }
    requires seed { length seed.now ≡ params.now.n }
    ensures value { result ≡ secret_of params.now id.now q i seed.now }
    ensures length { length result ≡ params.now.n }
{
    let n = params.n as usize;
    let mut block = [0; BLOCK];
    fill_block(&mut block, id, q, i, seed);
    step(&mut block, n, 0xff);
    Val::of(part(&block, VALUE, n))
}

/// The value `start` of chain `i` of leaf `q` after the steps from `from` to `to - 1`.
pub fn chain(params: &Params, id: &KeyId, q: u32, i: u16, from: u16, to: u16, start: &Val) -> Val
    requires index { i < params.now.p }
    requires order { from ≤ to }
    requires end { to ≤ 2 ^ params.now.w - 1 }
    requires start { length start.now ≡ params.now.n }
    ensures value { result ≡ steps params.now id.now q i from (to - from) start.now }
    ensures length { length result ≡ params.now.n }
{
    let n = params.n as usize;
    let mut block = [0; BLOCK];
    fill_block(&mut block, id, q, i, start);
    'steps: for j in from..to {
        step(&mut block, n, j as u8);
    }
    Val::of(part(&block, VALUE, n))
}

/// Lays out a block with this value, and no step yet.
fn fill_block(block: &mut [u8; BLOCK], id: &KeyId, q: u32, i: u16, value: &Val)
    ensures place { take STEP block.new ≡ id.now ++ u32str q ++ u16str i }
    ensures value { bytes_at block.new VALUE (length value.now) ≡ value.now }
{
    put(block, 0, id);
    put(block, 16, &q.to_be_bytes());
    put(block, 20, &i.to_be_bytes());
    put(block, VALUE, value.bytes());
}

/// Puts the value of `n` bytes through step `j`.
fn step(block: &mut [u8; BLOCK], n: usize, j: u8)
    requires { n ≤ 32 }
    ensures place { take STEP block.new ≡ take STEP block.old }
    ensures value { bytes_at block.new VALUE n ≡ hash n (take STEP block.old ++ u8str j ++ bytes_at block.old VALUE n) }
{
    put(block, STEP, &[j]);
    let digest: [u8; 32] = Sha256::digest(part(block, 0, VALUE + n));
    let value = part(&digest, 0, n);
    put(block, VALUE, value);
}
