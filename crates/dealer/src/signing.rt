//! Signing with one leaf of a dealing.

ghost use Rattle.std.specs.Prelude.{◌≡◌, ◌*◌, ◌<◌, ◌^◌, length, IfOk};
ghost use Rattle.merkle_path.specs.Tree.{path_at};
ghost use Rattle.dealer.specs.Signing.{FitsPlan, signed_chains, signed_leaf, signed_randomizer};

use crate::Dealt;
use crate::masks::Keys;
use coalition_map::Plan;
use lms_bytes::{Params, PublicKey, Val, write_layout};
use memory::NoMemory;
use merkle_path::Tree;
use ots_chain::MessageHash;
use reference_value::{Whole, join_chains, join_randomizer};
use std::alloc::Global;

/// The signature of the message with leaf `q`, of which both trustees are members (RFC 8554 section 5.4.1).
pub(crate) fn sign_leaf(
    alloc: Global,
    plan: &Plan,
    dealt: &Dealt,
    keys: &Keys,
    q: u32,
    message: &[u8],
) -> Result<Vec<u8>, NoMemory>
    requires fits { FitsPlan plan.now dealt.now }
    requires leaf { q < 2 ^ dealt.now.public.params.h }
    ensures { IfOk result (λ signature. signature.items ≡ signed_leaf plan.now dealt.now keys.now q message.now) }
{
    let PublicKey { params, id, .. } = &dealt.public;
    let c = unmask_randomizer(plan, dealt, keys, q);
    let digest = MessageHash::of(params, id, q, &c, message);
    let chains = unmask_chains(alloc, plan, dealt, keys, q, &digest)?;
    let path = path_of(alloc, params, &dealt.tree, q)?;
    let length = 12 + c.bytes().len() + chains.len() + path.len();
    let mut signature = vec![in alloc; 0; length]?;
    write_layout(params, q, &c, &chains, &path, &mut signature);
    Ok(signature)
}

/// The randomizer of leaf `q`, which the masks of both trustees lay open.
fn unmask_randomizer(plan: &Plan, dealt: &Dealt, keys: &Keys, q: u32) -> Val
    requires fits { FitsPlan plan.now dealt.now }
    requires leaf { q < 2 ^ dealt.now.public.params.h }
    ensures randomizer { result ≡ signed_randomizer plan.now dealt.now keys.now q }
    ensures length { length result ≡ dealt.now.public.params.n }
{
    let PublicKey { params, id, .. } = &dealt.public;
    let mut cells = Whole::new(params, plan, &dealt.reference);
    join_randomizer(&mut cells, q, &keys.random_sum(params, id, q)).unwrap()
}

/// The values of the chains of leaf `q` at the digest's digits, which the masks of both trustees lay open.
fn unmask_chains(
    alloc: Global,
    plan: &Plan,
    dealt: &Dealt,
    keys: &Keys,
    q: u32,
    digest: &Val,
) -> Result<Vec<u8>, NoMemory>
    requires fits { FitsPlan plan.now dealt.now }
    requires leaf { q < 2 ^ dealt.now.public.params.h }
    requires digest { length digest.now ≡ dealt.now.public.params.n }
    ensures chains { IfOk result (λ chains. chains.items ≡ signed_chains plan.now dealt.now keys.now q digest.now) }
    ensures length { IfOk result (λ chains. length chains.items
        ≡ dealt.now.public.params.n * dealt.now.public.params.p) }
{
    let PublicKey { params, id, .. } = &dealt.public;
    let length = params.n as usize * params.p as usize;
    let mut sums = vec![in alloc; 0; length]?;
    keys.write_chain_sums(params, id, q, digest, &mut sums);
    let mut chains = vec![in alloc; 0; length]?;
    let mut cells = Whole::new(params, plan, &dealt.reference);
    join_chains(params, &mut cells, q, digest, &sums, &mut chains).unwrap();
    Ok(chains)
}

/// The path of leaf `q`, `h` nodes of `n` bytes (RFC 8554 section 5.4).
fn path_of(alloc: Global, params: &Params, tree: &Tree, q: u32) -> Result<Vec<u8>, NoMemory>
    requires hash_length { tree.now.n ≡ params.now.n }
    requires height { tree.now.h ≡ params.now.h }
    requires leaf { q < 2 ^ params.now.h }
    ensures path { IfOk result (λ path. path.items ≡ path_at tree.now q) }
    ensures length { IfOk result (λ path. length path.items ≡ params.now.n * params.now.h) }
{
    let mut path = vec![in alloc; 0; params.n as usize * params.h as usize]?;
    tree.write_path(q, &mut path);
    Ok(path)
}
