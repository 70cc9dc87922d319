//! The leaves of a reference.

ghost use Rattle.std.specs.Prelude.{◌≡◌, ◌+◌, ◌-◌, ◌*◌, ◌<◌, ◌≤◌, ◌^◌, ◌++◌, length, take, drop};
ghost use Rattle.lms_bytes.specs.Bytes.{bytes_at, joined, xor};
ghost use Rattle.mask_prf.specs.Masks.{chain_mask_of, check_tag_of, random_mask_of};
ghost use Rattle.ots_chain.specs.LeafKey.{seed_leaf_key};
ghost use Rattle.reference_value.specs.Dealing.{dealing_from, leaf_part, value_of_seed, values_of_seed};
ghost use Rattle.reference_value.specs.Masking.{masked_at, masked_chain};
ghost use Rattle.mask_prf.specs.Lengths.{leaf_length};

use coalition_map::{Members, Plan};
use lms_bytes::bytes::{part, put};
use lms_bytes::{KeyId, Params, Val};
use mask_prf::{MacKey, TAG, chain_bytes, randomizer};
use ots_chain::{LeafKeyHash, chain, secret};

/// Writes the values of a chain, from no step to all, and gives the last one, which is the end of the chain.
pub(crate) fn write_chain(
    params: &Params,
    id: &KeyId,
    q: u32,
    i: u16,
    seed: &Val,
    out: &mut [u8],
) -> Val
    requires index { i < params.now.p }
    requires seed { length seed.now ≡ params.now.n }
    requires room { length out.old ≡ params.now.n * 2 ^ params.now.w }
    ensures values { out.new ≡ values_of_seed params.now id.now q seed.now i }
    ensures end { result ≡ value_of_seed params.now id.now q seed.now i (2 ^ params.now.w - 1) }
{
    let n = params.n as usize;
    let mut value = secret(params, id, q, i, seed);
    put(out, 0, value.bytes());
    'steps: for j in 0..params.greatest_digit() {
        value = chain(params, id, q, i, j, j + 1, &value);
        put(out, n * (j as usize + 1), value.bytes());
    }
    value
}

/// Writes the values of all chains, and gives the public value of the leaf, which is made of their ends.
fn write_chains(params: &Params, id: &KeyId, q: u32, seed: &Val, out: &mut [u8]) -> Val
    requires seed { length seed.now ≡ params.now.n }
    requires room { length out.old ≡ params.now.n * 2 ^ params.now.w * params.now.p }
    ensures values { out.new ≡ joined (values_of_seed params.now id.now q seed.now) params.now.p }
    ensures leaf_key { result ≡ seed_leaf_key params.now id.now q seed.now }
    ensures length { length result ≡ params.now.n }
{
    let size = chain_bytes(params);
    let mut hash = LeafKeyHash::new(params, id, q);
    'chains: for i in 0..params.p {
        let place = size * i as usize;
        let end = write_chain(params, id, q, i, seed, &mut out[place..place + size]);
        hash.take(&end);
    }
    hash.finish()
}

/// Puts a mask on the value at a place.
pub(crate) fn mask_value(out: &mut [u8], place: usize, mask: &Val)
    requires { place + length mask.now ≤ length out.old }
    ensures front { take (place + length mask.now) out.new
        ≡ take place out.old ++ xor (bytes_at out.old place (length mask.now)) mask.now }
    ensures after { drop (place + length mask.now) out.new ≡ drop (place + length mask.now) out.old }
{
    let value = Val::of(part(out, place, mask.bytes().len())).xor(mask);
    put(out, place, value.bytes());
}

/// Puts a trustee's masks on the values of a chain.
fn mask_chain(key: &MacKey, params: &Params, id: &KeyId, q: u32, i: u16, out: &mut [u8])
    requires { length out.old ≡ params.now.n * 2 ^ params.now.w }
    ensures { out.new
        ≡ joined (masked_at params.now.n out.old (chain_mask_of params.now key.now id.now q i)) (2 ^ params.now.w) }
{
    let n = params.n as usize;
    'steps: for j in 0..params.greatest_digit() + 1 {
        let mask = key.chain_mask(params, id, q, i, j as u8);
        mask_value(out, n * j as usize, &mask);
    }
}

/// Puts a trustee's masks on the values of all chains.
fn mask_chains(key: &MacKey, params: &Params, id: &KeyId, q: u32, out: &mut [u8])
    requires { length out.old ≡ params.now.n * 2 ^ params.now.w * params.now.p }
    ensures { out.new ≡ joined (masked_chain params.now key.now id.now q out.old) params.now.p }
{
    let size = chain_bytes(params);
    'chains: for i in 0..params.p {
        let place = size * i as usize;
        mask_chain(key, params, id, q, i, &mut out[place..place + size]);
    }
}

/// Puts a member's masks on the randomizer and on the values of all chains, and writes its tag at a place.
fn add_member(
    key: &MacKey,
    params: &Params,
    id: &KeyId,
    q: u32,
    c: &Val,
    place: usize,
    front: &mut [u8],
    chains: &mut [u8],
)
    requires behind { params.now.n ≤ place }
    requires room { place + 32 ≤ length front.old }
    requires chains { length chains.old ≡ params.now.n * 2 ^ params.now.w * params.now.p }
    ensures front { take (place + 32) front.new
        ≡ xor (take params.now.n front.old) (random_mask_of params.now key.now id.now q)
        ++ bytes_at front.old params.now.n (place - params.now.n) ++ check_tag_of key.now id.now q c.now }
    ensures chains { chains.new ≡ joined (masked_chain params.now key.now id.now q chains.old) params.now.p }
{
    mask_value(front, 0, &key.random_mask(params, id, q));
    put(front, place, &key.check_tag(id, q, c));
    mask_chains(key, params, id, q, chains);
}

/// Writes leaf `q` of the reference of the key with this seed: the randomizer, masked, the check tags, and the cells.
/// `keys` are those of the trustees, that of trustee 1 first. Gives the public value K of the leaf, `n` bytes, from the
/// same chains.
#[tactic(auto, unfolding(crate::specs::Dealing::leaf_part))]
pub fn build_leaf(
    params: &Params,
    id: &KeyId,
    plan: &Plan,
    q: u32,
    seed: &Val,
    random_key: &[u8; 32],
    keys: &[[u8; 32]],
    out: &mut [u8],
) -> Val
    requires height { plan.now.h ≡ params.now.h }
    requires leaf { q < 2 ^ params.now.h }
    requires seed { length seed.now ≡ params.now.n }
    requires keys { length keys.now ≡ plan.now.n }
    requires room { length out.old ≡ leaf_length params.now plan.now.k }
    ensures leaf { out.new ≡ leaf_part (dealing_from params.now plan.now id.now seed.now random_key.now keys.now) q }
    ensures leaf_key { result ≡ seed_leaf_key params.now id.now q seed.now }
    ensures length { length result ≡ params.now.n }
{
    let members = plan.members_of(q);
    let c = randomizer(random_key, params, id, q);
    let (front, chains) = out.split_at_mut(params.n as usize + TAG * plan.k() as usize);
    let leaf_key = write_chains(params, id, q, seed, chains);
    put(front, 0, c.bytes());
    let mut place = params.n as usize;
    'trustees: for t in 1..plan.n() + 1 {
        if members.has(t) {
            let key = MacKey::new(&keys[t as usize - 1]);
            add_member(&key, params, id, q, &c, place, front, chains);
            place += TAG;
        }
    }
    leaf_key
}
