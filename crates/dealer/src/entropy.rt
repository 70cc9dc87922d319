//! What entropy stands for.

ghost use Rattle.std.specs.Prelude.{◌≡◌, ◌≤◌, All, IfOk, IfSome, is_some, length, map};
ghost use Rattle.std.specs.List.{range_with_len};
ghost use Rattle.dealer.specs.Entropy.{dealing_of, entropy_length, trustee_key};
ghost use Rattle.dealer.specs.Material.{are_asked, dealing_with};

use crate::checks::key_at;
use crate::material::KeyMaterial;
use coalition_map::Plan;
use lms_bytes::bytes::part;
use lms_bytes::{Params, Val};
use mask_prf::MacKey;
use memory::NoMemory;
use std::alloc::Global;

/// Reads what the entropy stands for, with keys to commit to the masks with, if that is asked for.
pub(crate) fn read_entropy(
    alloc: Global,
    params: &Params,
    plan: &Plan,
    entropy: &[u8],
    commit: bool,
) -> Result<KeyMaterial, NoMemory>
    requires height { plan.now.h ≡ params.now.h }
    requires size { length entropy.now ≡ entropy_length plan.now.n }
    ensures dealing { IfOk result (λ material. dealing_with material
        ≡ dealing_of params.now plan.now entropy.now) }
    ensures asked { IfOk result (λ material. are_asked material ≡ commit) }
{
    let keys = read_keys(alloc, plan.n(), entropy)?;
    let macs = macs_asked(alloc, &keys, commit)?;
    let mut id = [0; 16];
    id.copy_from_slice(part(entropy, 0, 16));
    let mut random_key = [0; 32];
    random_key.copy_from_slice(part(entropy, 48, 32));
    Ok(KeyMaterial {
        params: *params,
        plan: *plan,
        id,
        seed: Val::of(part(entropy, 16, params.n as usize)),
        random_key,
        keys,
        macs,
    })
}

/// Reads the keys of the trustees.
fn read_keys(alloc: Global, trustees: u8, entropy: &[u8]) -> Result<Vec<[u8; 32]>, NoMemory>
    requires small { trustees ≤ 12 }
    requires size { length entropy.now ≡ entropy_length trustees }
    ensures keys { IfOk result (λ keys. keys.items ≡ map (trustee_key entropy.now) (range_with_len 1 trustees)) }
    ensures count { IfOk result (λ keys. length keys.items ≡ trustees) }
    ensures lengths { IfOk result (λ keys. All (λ key. length key ≡ 32) keys.items) }
{
    let mut keys = Vec::with_capacity(alloc, trustees as usize)?;
    'trustees: for t in 1..trustees + 1 {
        let mut key = [0; 32];
        key.copy_from_slice(key_at(entropy, t));
        keys.push(key)?;
    }
    Ok(keys)
}

/// The keys of the trustees, each with its blocks hashed once, if they are asked for.
fn macs_asked(
    alloc: Global,
    keys: &[[u8; 32]],
    commit: bool,
) -> Result<Option<Vec<MacKey>>, NoMemory>
    ensures keys { IfOk result (λ macs. IfSome macs (λ macs. macs.items ≡ keys.now)) }
    ensures asked { IfOk result (λ macs. is_some macs ≡ commit) }
{
    if commit {
        Ok(Some(mac_keys(alloc, keys)?))
    } else {
        Ok(None)
    }
}

/// The keys of the trustees, each with its blocks hashed once.
fn mac_keys(alloc: Global, keys: &[[u8; 32]]) -> Result<Vec<MacKey>, NoMemory>
    ensures { IfOk result (λ macs. macs.items ≡ keys.now) }
{
    let mut macs = Vec::with_capacity(alloc, keys.len())?;
    'keys: for i in 0..keys.len() {
        macs.push(MacKey::new(&keys[i]))?;
    }
    Ok(macs)
}
