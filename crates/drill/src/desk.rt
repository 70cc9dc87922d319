//! What the aggregator of a drill signs with.

ghost use Rattle.std.specs.Prelude.{◌≡◌, All, length};
ghost use Rattle.mask_prf.specs.Lengths.{leaves_length};
ghost use Rattle.share_files.specs.declared.share.Share.{Share};

use coalition_map::Plan;
use dealer::Dealt;
use lms_bytes::{Params, PublicKey};

/// What a dealing of codes 5 and 3 to two of three trustees gave.
#[derive(Drop)]
pub(crate) struct Desk {
    pub(crate) dealt: Dealt,
    pub(crate) plan: Plan,
    ghost plan_is: { plan ≡ record { n = 3; k = 2; h = 5 } },
    ghost lms: { dealt.public.params.lms ≡ 5 },
    ghost ots: { dealt.public.params.ots ≡ 3 },
    ghost hash_length: { dealt.public.params.n ≡ 32 },
    ghost chains: { dealt.public.params.p ≡ 67 },
    ghost height: { dealt.public.params.h ≡ 5 },
    ghost exact: { length dealt.reference.items ≡ leaves_length dealt.public.params plan },
    ghost nodes: { dealt.tree.n ≡ 32 },
    ghost levels: { dealt.tree.h ≡ 5 },
    ghost count: { length dealt.shares.items ≡ 3 },
    ghost shares: { All (λ (share : Share). share.params ≡ dealt.public.params) dealt.shares.items },
}

impl Desk {
    /// The public key.
    pub(crate) fn key(&self) -> &PublicKey
        ensures { result.now ≡ self.now.dealt.public }
    {
        &self.dealt.public
    }

    /// The parameter set.
    pub(crate) fn params(&self) -> &Params
        ensures params { result.now ≡ self.now.dealt.public.params }
        ensures hash_length { result.now.n ≡ 32 }
        ensures chains { result.now.p ≡ 67 }
        ensures height { result.now.h ≡ 5 }
    {
        &self.dealt.public.params
    }
}
