//! The rehearsal.

ghost use Rattle.std.specs.Prelude.{◌≡◌, ◌⊎◌, ◌∷◌, [], IfErr, IfOk, OnOk, length, map};
ghost use Rattle.dealer.specs.declared.faults.DealFault.{DealFault};
ghost use Rattle.dealer.specs.declared.faults.DealFault.TheVariants.{NoMemory};
ghost use Rattle.dealer.specs.Rehearsal.{CanRehearse, IsRehearsed, RehearsalFault};

use crate::masks::Keys;
use crate::signing::sign_leaf;
use crate::{DealFault, deal};
use coalition_map::Plan;
use lms_bytes::{Params, PublicKey};
use mask_prf::MacKey;
use share_files::Share;
use std::alloc::Global;

/// A public key, and a signature of its leaf 0.
#[derive(Drop)]
pub struct Rehearsed {
    pub public: PublicKey,
    pub signature: Vec<u8>,
}

/// Deals the key that the entropy stands for to two trustees, with LMS typecode 5 and LM-OTS typecode 3, and signs the
/// message with leaf 0: by the masked reference value and both trustees' masks, as an aggregator does.
pub fn rehearse(alloc: Global, entropy: &[u8], message: &[u8]) -> Result<Rehearsed, DealFault>
    ensures rehearsed { IfOk result (λ r. IsRehearsed entropy.now message.now r.public r.signature.items) }
    ensures tested { OnOk result (CanRehearse entropy.now) }
    ensures refused { (fault : DealFault) → RehearsalFault entropy.now fault → result ≡ Err fault }
    ensures cause { IfErr result (λ fault. (fault ≡ NoMemory × CanRehearse entropy.now)
        ⊎ RehearsalFault entropy.now fault) }
{
    let plan = plan_of_two();
    let dealt = deal(alloc, &rehearsal_params(), &plan, entropy)?;
    let keys = keys_of(&dealt.shares);
    match sign_leaf(alloc, &plan, &dealt, &keys, 0, message) {
        Ok(signature) => Ok(Rehearsed {
            public: dealt.public,
            signature,
        }),
        Err(memory::NoMemory) => Err(DealFault::NoMemory),
    }
}

/// The parameter set of a rehearsal, and of a drill: LMS typecode 5 and LM-OTS typecode 3.
#[tactic(auto, unfolding(lms_bytes::specs::ParameterSets::lms_row, lms_bytes::specs::ParameterSets::lmots_row))]
pub fn rehearsal_params() -> Params
    ensures lms { result.lms ≡ 5 }
    ensures ots { result.ots ≡ 3 }
    ensures hash_length { result.n ≡ 32 }
    ensures chains { result.p ≡ 67 }
    ensures height { result.h ≡ 5 }
{
    Params::of_codes(5, 3).unwrap()
}

/// The plan of a rehearsal: each leaf belongs to both trustees.
#[tactic(auto, unfolding(coalition_map::specs::Coalitions::subsets))]
fn plan_of_two() -> Plan
    ensures { result ≡ record { n = 2; k = 2; h = 5 } }
{
    Plan::new(2, 2, 5).unwrap()
}

/// The mask keys in the shares of both trustees.
fn keys_of(shares: &[Share]) -> Keys
    requires { length shares.now ≡ 2 }
    ensures { map (λ share. share.key) shares.now ≡ result.first ∷ result.second ∷ [] }
{
    Keys {
        first: MacKey::new(&shares[0].key),
        second: MacKey::new(&shares[1].key),
    }
}
