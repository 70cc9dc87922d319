//! What is tested before a key is dealt.

ghost use Rattle.std.specs.Prelude.{◌≡◌, ◌≢◌, ℕ, List, ◌<◌, ◌≤◌, ◌↔◌, IfErr, IfNone, IfSome, IsTrue, OnOk, false};
ghost use Rattle.std.specs.Prelude.{length, true};
ghost use Rattle.coalition_map.specs.Coalitions.{PlanNumbers};
ghost use Rattle.share_files.specs.Sets.{CanBeDealt, IsSmall};
ghost use Rattle.dealer.specs.Entropy.{entropy_length, trustee_key};
ghost use Rattle.dealer.specs.Faults.{AllDiffer, AreFirstAlike, AreTwo, HasFault, IsDealable, IsSetDealt};
ghost use Rattle.dealer.specs.declared.faults.DealFault.{DealFault};

use crate::faults::DealFault;
use coalition_map::Plan;
use lms_bytes::Params;
use lms_bytes::bytes::part;

/// The bytes before the keys of the trustees: I, SEED's place and the key of the randomizers.
const FRONT: usize = 80;

/// The length of a trustee's key, in bytes.
const KEY: usize = 32;

/// Tests whether the dealing that the entropy stands for is dealt, of a large set only if these are asked for. It takes
/// no memory.
pub fn test_dealing(
    large: bool,
    params: &Params,
    plan: &Plan,
    entropy: &[u8],
) -> Result<(), DealFault>
    ensures dealable { OnOk result (IsDealable large params.now plan.now entropy.now) }
    ensures cause { IfErr result (λ fault. HasFault large params.now plan.now entropy.now fault) }
    ensures refused { (fault : DealFault) → HasFault large params.now plan.now entropy.now fault → result ≡ Err fault }
{
    if let Some(fault) = set_fault(large, params) {
        return Err(fault);
    }
    let want = FRONT + KEY * plan.n() as usize;
    if entropy.len() != want {
        return Err(DealFault::BadEntropy {
            got: entropy.len(),
            want,
        });
    }
    if let Some((t, u)) = first_alike(plan.n(), entropy) {
        return Err(DealFault::SameKeys { t, u });
    }
    Ok(())
}

/// Why no key of this parameter set is dealt, whatever the plan and the entropy.
fn set_fault(large: bool, params: &Params) -> Option<DealFault>
    ensures dealt { IfNone result (IsSetDealt large params.now) }
    ensures cause { IfSome result (λ fault. (plan : PlanNumbers) (entropy : List ℕ)
        → HasFault large params.now plan entropy fault) }
{
    if large {
        large_fault(params)
    } else {
        small_fault(params)
    }
}

/// The same if large sets are asked for.
fn large_fault(params: &Params) -> Option<DealFault>
    ensures dealt { IfNone result (CanBeDealt params.now) }
    ensures cause { IfSome result (λ fault. (plan : PlanNumbers) (entropy : List ℕ)
        → HasFault true params.now plan entropy fault) }
{
    if params.h > 20 {
        return Some(DealFault::TooHigh { h: params.h });
    }
    None
}

/// The same if they are not.
fn small_fault(params: &Params) -> Option<DealFault>
    ensures small { IfNone result (IsSmall params.now) }
    ensures cause { IfSome result (λ fault. (plan : PlanNumbers) (entropy : List ℕ)
        → HasFault false params.now plan entropy fault) }
{
    if params.h > 10 {
        Some(DealFault::TooHigh { h: params.h })
    } else if params.h == 10 && params.w == 8 {
        Some(DealFault::TooWide)
    } else {
        None
    }
}

/// The first two trustees that have the same key.
fn first_alike(trustees: u8, entropy: &[u8]) -> Option<(u8, u8)>
    requires small { trustees ≤ 12 }
    requires size { length entropy.now ≡ entropy_length trustees }
    ensures alike { IfSome result (λ pair. AreFirstAlike trustees entropy.now pair.0 pair.1) }
    ensures differ { IfNone result (AllDiffer trustees entropy.now) }
{
    'first: for t in 1..trustees + 1 {
        if let Some(u) = next_alike(trustees, entropy, t) {
            return Some((t, u));
        }
    }
    None
}

/// The first trustee after `t` that has the key of `t`.
fn next_alike(trustees: u8, entropy: &[u8], t: u8) -> Option<u8>
    requires small { trustees ≤ 12 }
    requires size { length entropy.now ≡ entropy_length trustees }
    requires first { 1 ≤ t }
    requires last { t ≤ trustees }
    ensures two { IfSome result (λ u. AreTwo trustees t u) }
    ensures alike { IfSome result (λ u. trustee_key entropy.now t ≡ trustee_key entropy.now u) }
    ensures least { IfSome result (λ u. (other : ℕ) → t < other → other < u
        → trustee_key entropy.now t ≢ trustee_key entropy.now other) }
    ensures differ { IfNone result ((other : ℕ) → t < other → other ≤ trustees
        → trustee_key entropy.now t ≢ trustee_key entropy.now other) }
{
    'others: for u in t + 1..trustees + 1 {
        if are_alike(entropy, t, u) {
            return Some(u);
        }
    }
    None
}

/// Whether two trustees have the same key.
fn are_alike(entropy: &[u8], t: u8, u: u8) -> bool
    requires first { 1 ≤ t }
    requires order { t < u }
    requires inside { entropy_length u ≤ length entropy.now }
    ensures { IsTrue result ↔ (trustee_key entropy.now t ≡ trustee_key entropy.now u) }
{
    key_at(entropy, t) == key_at(entropy, u)
}

/// The key of trustee `t`.
pub(crate) fn key_at(entropy: &[u8], t: u8) -> &[u8]
    requires first { 1 ≤ t }
    requires inside { entropy_length t ≤ length entropy.now }
    ensures key { result.now ≡ trustee_key entropy.now t }
    ensures length { length result.now ≡ 32 }
{
    part(entropy, FRONT + KEY * (t as usize - 1), KEY)
}
