//! What a key is dealt from.

ghost use Rattle.std.specs.Prelude.{◌≡◌, All, IfSome, length};
ghost use Rattle.std.proofs.Props.{props};
ghost use Rattle.coalition_map.specs.Coalitions.{IsPlan};

use coalition_map::Plan;
use lms_bytes::{KeyId, Params, Val};
use mask_prf::MacKey;

/// The parameter set and the plan of a key, and what was read of its entropy.
#[derive(Drop)]
pub(crate) struct KeyMaterial {
    /// The parameter set of the key.
    pub(crate) params: Params,
    /// Which coalition signs with which leaf.
    pub(crate) plan: Plan,
    /// The identifier I of the key.
    pub(crate) id: KeyId,
    /// The SEED of the key, of the set's hash length.
    pub(crate) seed: Val,
    /// The key of the randomizers.
    pub(crate) random_key: [u8; 32],
    /// The keys of the trustees, that of trustee 1 first.
    pub(crate) keys: Vec<[u8; 32]>,
    /// The same keys, each with its blocks hashed once, if the masks are committed to.
    pub(crate) macs: Option<Vec<MacKey>>,
    ghost plan_is: { IsPlan plan },
    ghost height: { plan.h ≡ params.h },
    ghost seed_length: { length seed ≡ params.n },
    ghost key_count: { length keys.items ≡ plan.n },
    ghost key_lengths: { All (λ key. length key ≡ 32) keys.items },
    ghost same_keys: { IfSome macs (λ macs. macs.items ≡ keys.items) } by { Prim.hlevel props },
}
