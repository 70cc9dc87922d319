//! Leaves of a reference whose masks are committed to as they are made.

ghost use Rattle.std.specs.Prelude.{◌≡◌, ◌+◌, ◌*◌, ◌<◌, ◌^◌, length, map};
ghost use Rattle.lms_bytes.specs.Bytes.{bytes_at, joined};
ghost use Rattle.ots_chain.specs.LeafKey.{seed_leaf_key};
ghost use Rattle.reference_value.specs.Commitments.{commitments_to, leaf_commitments};
ghost use Rattle.reference_value.specs.Committing.{AreMembers, cell_commits, mask_with, masked_cell, masked_row};
ghost use Rattle.reference_value.specs.Committing.{member_mask, member_tag, row_commits};
ghost use Rattle.reference_value.specs.Dealing.{dealing_from, leaf_part, masked, value_of_seed};
ghost use Rattle.mask_prf.specs.Lengths.{leaf_commits_length, leaf_length};
ghost use Rattle.std.specs.List.{concat};

use crate::leaf::{mask_value, write_chain};
use coalition_map::{Members, Plan};
use lms_bytes::bytes::put;
use lms_bytes::{KeyId, Params, Val};
use mask_prf::{COMMITMENT, MacKey, TAG, chain_bytes, chain_commits_bytes, randomizer};
use ots_chain::LeafKeyHash;
use sha2::{Digest, Sha256};

/// Which value of a leaf a mask is for.
#[derive(Clone, Copy)]
pub(crate) enum Masked {
    /// The randomizer.
    Randomizer,
    /// The value of chain `i` after `j` steps.
    Cell { i: u16, j: u8 },
}

/// A leaf, and the keys of its members among those of all trustees.
#[derive(Clone, Copy)]
pub(crate) struct Leaf<'a> {
    params: &'a Params,
    id: &'a KeyId,
    q: u32,
    members: Members,
    /// That of trustee 1 first.
    keys: &'a [MacKey],
}

/// The mask that a trustee with this key has for a value of a leaf, `n` bytes.
fn mask_with(leaf: &Leaf, key: &MacKey, value: Masked) -> Val
    ensures mask { result ≡ mask_with leaf.now.params.now leaf.now.id.now leaf.now.q value key.now }
    ensures length { length result ≡ leaf.now.params.now.n }
{
    match value {
        Masked::Randomizer => key.random_mask(leaf.params, leaf.id, leaf.q),
        Masked::Cell { i, j } => key.chain_mask(leaf.params, leaf.id, leaf.q, i, j),
    }
}

/// Puts the masks of all members on a value of `n` bytes, and writes the commitment to each, as it is made.
fn mask_and_commit(leaf: &Leaf, value: Masked, out: &mut [u8], commits: &mut [u8])
    requires members { AreMembers leaf.now.keys.now leaf.now.members }
    requires value { length out.old ≡ leaf.now.params.now.n }
    requires room { length commits.old ≡ 32 * length leaf.now.members }
    ensures masked { out.new ≡ masked out.old (map (member_mask leaf.now value) leaf.now.members) }
    ensures commits { commits.new ≡ commitments_to (member_mask leaf.now value) leaf.now.members }
{
    let mut place = 0;
    'trustees: for t in 1..leaf.keys.len() + 1 {
        if leaf.members.has(t as u8) {
            let mask = mask_with(leaf, &leaf.keys[t - 1], value);
            mask_value(out, 0, &mask);
            let hash: [u8; 32] = Sha256::digest(mask.bytes());
            put(commits, place, &hash);
            place += COMMITMENT;
        }
    }
}

/// Puts the masks of all members on the values of chain `i`, and writes the commitments to them.
fn commit_chain(leaf: &Leaf, i: u16, out: &mut [u8], commits: &mut [u8])
    requires members { AreMembers leaf.now.keys.now leaf.now.members }
    requires values { length out.old ≡ leaf.now.params.now.n * 2 ^ leaf.now.params.now.w }
    requires room { length commits.old ≡ 32 * length leaf.now.members * 2 ^ leaf.now.params.now.w }
    ensures masked { out.new ≡ joined (masked_cell leaf.now out.old i) (2 ^ leaf.now.params.now.w) }
    ensures commits { commits.new ≡ joined (cell_commits leaf.now i) (2 ^ leaf.now.params.now.w) }
{
    let n = leaf.params.n as usize;
    let cell = COMMITMENT * leaf.members.size() as usize;
    'steps: for j in 0..leaf.params.greatest_digit() + 1 {
        let place = n * j as usize;
        let value = &mut out[place..place + n];
        let start = cell * j as usize;
        let of = Masked::Cell { i, j: j as u8 };
        mask_and_commit(leaf, of, value, &mut commits[start..start + cell]);
    }
}

/// Writes the cells of all chains, and the commitments to their masks. Gives the public value of the leaf, which is
/// made of the ends of its chains.
fn commit_chains(leaf: &Leaf, seed: &Val, out: &mut [u8], commits: &mut [u8]) -> Val
    requires members { AreMembers leaf.now.keys.now leaf.now.members }
    requires seed { length seed.now ≡ leaf.now.params.now.n }
    requires values { length out.old ≡ leaf.now.params.now.n * 2 ^ leaf.now.params.now.w * leaf.now.params.now.p }
    requires room { length commits.old
        ≡ 32 * length leaf.now.members * 2 ^ leaf.now.params.now.w * leaf.now.params.now.p }
    ensures cells { out.new ≡ joined (masked_row leaf.now seed.now) leaf.now.params.now.p }
    ensures commits { commits.new ≡ joined (row_commits leaf.now) leaf.now.params.now.p }
    ensures leaf_key { result ≡ seed_leaf_key leaf.now.params.now leaf.now.id.now leaf.now.q seed.now }
    ensures length { length result ≡ leaf.now.params.now.n }
{
    let size = chain_bytes(leaf.params);
    let row = chain_commits_bytes(leaf.params, leaf.members.size());
    let mut hash = LeafKeyHash::new(leaf.params, leaf.id, leaf.q);
    'chains: for i in 0..leaf.params.p {
        let place = size * i as usize;
        let chain = &mut out[place..place + size];
        let end = write_chain(leaf.params, leaf.id, leaf.q, i, seed, chain);
        hash.take(&end);
        let start = row * i as usize;
        commit_chain(leaf, i, chain, &mut commits[start..start + row]);
    }
    hash.finish()
}

/// Writes the check tag of each member for the randomizer `c`.
fn write_tags(leaf: &Leaf, c: &Val, out: &mut [u8])
    requires members { AreMembers leaf.now.keys.now leaf.now.members }
    requires room { length out.old ≡ 32 * length leaf.now.members }
    ensures { out.new ≡ concat (map (member_tag leaf.now c.now) leaf.now.members) }
{
    let mut place = 0;
    'trustees: for t in 1..leaf.keys.len() + 1 {
        if leaf.members.has(t as u8) {
            put(out, place, &leaf.keys[t - 1].check_tag(leaf.id, leaf.q, c));
            place += TAG;
        }
    }
}

/// Writes leaf `q` of the reference of the key with this seed, as `build_leaf` does, and the commitments to its masks,
/// each as the mask is made. `keys` are those of the trustees, that of trustee 1 first. Gives the public value K of the
/// leaf, `n` bytes, as `build_leaf` does.
#[tactic(auto, unfolding(crate::specs::Dealing::leaf_part, crate::specs::Commitments::leaf_commitments))]
pub fn build_committed_leaf(
    params: &Params,
    id: &KeyId,
    plan: &Plan,
    q: u32,
    seed: &Val,
    random_key: &[u8; 32],
    keys: &[MacKey],
    out: &mut [u8],
    commits: &mut [u8],
) -> Val
    requires height { plan.now.h ≡ params.now.h }
    requires leaf { q < 2 ^ params.now.h }
    requires seed { length seed.now ≡ params.now.n }
    requires keys { length keys.now ≡ plan.now.n }
    requires room { length out.old ≡ leaf_length params.now plan.now.k }
    requires commits { length commits.old ≡ leaf_commits_length params.now plan.now.k }
    ensures leaf { out.new ≡ leaf_part (dealing_from params.now plan.now id.now seed.now random_key.now keys.now) q }
    ensures commitments { commits.new
        ≡ leaf_commitments (dealing_from params.now plan.now id.now seed.now random_key.now keys.now) q }
    ensures leaf_key { result ≡ seed_leaf_key params.now id.now q seed.now }
    ensures length { length result ≡ params.now.n }
{
    let members = plan.members_of(q);
    let leaf = Leaf {
        params,
        id,
        q,
        members,
        keys,
    };
    let n = params.n as usize;
    let c = randomizer(random_key, params, id, q);
    let (front, chains) = out.split_at_mut(n + TAG * plan.k() as usize);
    let (first, others) = commits.split_at_mut(COMMITMENT * plan.k() as usize);
    let (value, tags) = front.split_at_mut(n);
    put(value, 0, c.bytes());
    mask_and_commit(&leaf, Masked::Randomizer, value, first);
    write_tags(&leaf, &c, tags);
    commit_chains(&leaf, seed, chains, others)
}
