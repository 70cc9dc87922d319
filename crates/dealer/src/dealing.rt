//! The dealing.

ghost use Rattle.std.specs.Prelude.{◌≡◌, ◌⊎◌, ◌<◌, IfOk, OnOk, IfErr, false, length};
ghost use Rattle.dealer.specs.Dealt.{IsDealt};
ghost use Rattle.dealer.specs.Entropy.{dealing_of};
ghost use Rattle.dealer.specs.Faults.{HasFault, IsDealable};
ghost use Rattle.dealer.specs.Told.{TellsLeaves};
ghost use Rattle.dealer.specs.declared.faults.DealFault.{DealFault};
ghost use Rattle.dealer.specs.declared.faults.DealFault.TheVariants.{NoMemory};

use crate::beside::build_beside;
use crate::building::build;
use crate::checks::test_dealing;
use crate::faults::DealFault;
use coalition_map::Plan;
use lms_bytes::{Params, PublicKey};
use merkle_path::Tree;
use share_files::Share;
use std::alloc::Global;
use std::thread::Threads;
use stream_io::Progress;

/// What a dealing gives.
#[derive(Drop)]
pub struct Dealt {
    /// The public key.
    pub public: PublicKey,
    /// The tree, with all its nodes.
    pub tree: Tree,
    /// The leaves of the masked reference value, one after the other.
    pub reference: Vec<u8>,
    /// The shares, that of trustee 1 first.
    pub shares: Vec<Share>,
}

/// Deals the key that the entropy stands for. The entropy is tested before any memory is taken.
pub fn deal(alloc: Global, params: &Params, plan: &Plan, entropy: &[u8]) -> Result<Dealt, DealFault>
    requires { plan.now.h ≡ params.now.h }
    ensures dealt { IfOk result (IsDealt (dealing_of params.now plan.now entropy.now)) }
    ensures dealable { OnOk result (IsDealable false params.now plan.now entropy.now) }
    ensures refused { (fault : DealFault) → HasFault false params.now plan.now entropy.now fault → result ≡ Err fault }
    ensures cause { IfErr result (λ fault. (fault ≡ NoMemory × IsDealable false params.now plan.now entropy.now)
        ⊎ HasFault false params.now plan.now entropy.now fault) }
    ensures shares { IfOk result (λ dealt. 0 < length dealt.shares.items) }
{
    test_dealing(false, params, plan, entropy)?;
    match build(alloc, params, plan, entropy, false) {
        Ok((dealt, _)) => Ok(dealt),
        Err(_) => Err(DealFault::NoMemory),
    }
}

/// Deals the key that the entropy stands for, as `deal` does, with its leaves built by several threads. If no thread
/// can be made, this one builds them. After each part of 512 leaves, or after all if there are fewer, `progress` is
/// told how many are built.
pub fn deal_beside<R: Threads + Sync, P: Progress>(
    rt: &R,
    progress: &mut P,
    alloc: Global,
    params: &Params,
    plan: &Plan,
    entropy: &[u8],
) -> Result<Dealt, DealFault>
    requires { plan.now.h ≡ params.now.h }
    ensures dealt { IfOk result (IsDealt (dealing_of params.now plan.now entropy.now)) }
    ensures dealable { OnOk result (IsDealable false params.now plan.now entropy.now) }
    ensures refused { (fault : DealFault) → HasFault false params.now plan.now entropy.now fault → result ≡ Err fault }
    ensures cause { IfErr result (λ fault. (fault ≡ NoMemory × IsDealable false params.now plan.now entropy.now)
        ⊎ HasFault false params.now plan.now entropy.now fault) }
    ensures shares { IfOk result (λ dealt. 0 < length dealt.shares.items) }
    ensures told { TellsLeaves P.told params.now.h (λ fault. fault ≡ NoMemory) result progress.old progress.new }
{
    test_dealing(false, params, plan, entropy)?;
    match build_beside(rt, progress, alloc, params, plan, entropy, false) {
        Ok((dealt, _)) => Ok(dealt),
        Err(_) => Err(DealFault::NoMemory),
    }
}
