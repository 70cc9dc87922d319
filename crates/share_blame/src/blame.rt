//! The members whose masks are not those that the dealer committed to.

ghost use Rattle.std.specs.Prelude.{◌≡◌, ◌≢◌, ◌↔◌, ◌*◌, ◌<◌, ◌^◌, Contains, IsTrue, IfOk, IsOk, length};
ghost use Rattle.std.specs.List.Sorted.{IsStrictlyIncreasing};
ghost use Rattle.coalition_map.specs.Coalitions.{leaf_members};
ghost use Rattle.disk_trait.specs.Faults.{HasCause};
ghost use Rattle.lms_bytes.specs.Digits.{digit_of};
ghost use Rattle.reference_value.specs.Commitments.{cell_commitment_in};
ghost use Rattle.sha2.specs.Sha256.{sha256};
ghost use Rattle.mask_prf.specs.Lengths.{all_commits_length};
ghost use Rattle.share_blame.specs.Blamed.{AreBlamed, ChainsDiffer, FirstDiffers, IsBlamed, SecondDiffers};
ghost use Rattle.share_blame.specs.Commits.{AreOf, AreOfSession, Looks, leaves_on, pages_of, plan_of, set_of};

use crate::commits::{Commits, is_other};
use crate::places::Places;
use coalition_map::Members;
use disk_trait::Pages;
use lms_bytes::bytes::part;
use lms_bytes::{Params, Val, digit};
use reference_value::RefFault;
use session_core::Session;

/// The members whose kept masks are not those that the dealer committed to: of round one, and of round two at the
/// digits of the digest, of `n` bytes. They ascend, each once. For each mask that is kept, only its commitment is read.
/// It takes no memory.
pub fn blamed<V: Pages>(
    commits: &mut Commits<V>,
    params: &Params,
    session: &Session,
    digest: &Val,
) -> Result<Members, RefFault>
    requires commits { AreOf params.now session.now.plan commits.old }
    requires set { session.now.key.params ≡ params.now }
    requires digest { length digest.now ≡ params.now.n }
    ensures blamed { IsTrue (V.told (pages_of commits.old))
        → IfOk result (AreBlamed (leaves_on V.Pages.own (pages_of commits.old)) session.now digest.now) }
    ensures ascending { IfOk result IsStrictlyIncreasing }
    ensures looks { Looks V.Pages.own V.Faults params.now session.now.plan commits.old commits.new result }
{
    let q = session.leaf();
    let mut bits = 0;
    'trustees: for t in 1..commits.places.plan.n() + 1 {
        if is_blamed(commits, session, q, digest, t)? {
            bits += 1 << (t - 1);
        }
    }
    Ok(Members::of_bits(bits))
}

/// Whether trustee `t` is blamed in a session of leaf `q`.
fn is_blamed<V: Pages>(
    commits: &mut Commits<V>,
    session: &Session,
    q: u32,
    digest: &Val,
    t: u8,
) -> Result<bool, RefFault>
    requires commits { AreOfSession session.now q commits.old }
    requires digest { length digest.now ≡ session.now.key.params.n }
    ensures blamed { IsTrue (V.told (pages_of commits.old)) → IfOk result (λ b. IsTrue b
        ↔ IsBlamed (leaves_on V.Pages.own (pages_of commits.old)) session.now digest.now t) }
    ensures looks { Looks V.Pages.own V.Faults session.now.key.params session.now.plan commits.old commits.new result }
{
    if first_differs(commits, session, q, t)? {
        return Ok(true);
    }
    second_differs(commits, session, q, digest, t)
}

/// Whether the mask that is kept for trustee `t` in round one is not the one that the dealer committed to.
#[tactic(auto, unfolding(reference_value::specs::Commitments::random_commitment_in))]
fn first_differs<V: Pages>(
    commits: &mut Commits<V>,
    session: &Session,
    q: u32,
    t: u8,
) -> Result<bool, RefFault>
    requires commits { AreOfSession session.now q commits.old }
    ensures differs { IsTrue (V.told (pages_of commits.old)) → IfOk result (λ b. IsTrue b
        ↔ FirstDiffers (leaves_on V.Pages.own (pages_of commits.old)) session.now t) }
    ensures looks { Looks V.Pages.own V.Faults session.now.key.params session.now.plan commits.old commits.new result }
{
    match session.kept_reply(1, t) {
        None => Ok(false),
        Some(mask) => {
            let place = commits.places.randomizer(q, t);
            is_other(&mut commits.pages, place, mask)
        }
    }
}

/// Whether a mask that is kept for trustee `t` in round two is not the one that the dealer committed to.
fn second_differs<V: Pages>(
    commits: &mut Commits<V>,
    session: &Session,
    q: u32,
    digest: &Val,
    t: u8,
) -> Result<bool, RefFault>
    requires commits { AreOfSession session.now q commits.old }
    requires digest { length digest.now ≡ session.now.key.params.n }
    ensures differs { IsTrue (V.told (pages_of commits.old)) → IfOk result (λ b. IsTrue b
        ↔ SecondDiffers (leaves_on V.Pages.own (pages_of commits.old)) session.now digest.now t) }
    ensures looks { Looks V.Pages.own V.Faults session.now.key.params session.now.plan commits.old commits.new result }
{
    match session.kept_reply(2, t) {
        None => Ok(false),
        Some(masks) => chains_differ(commits, q, masks, digest, t),
    }
}

/// Whether one of these masks of trustee `t` for the chains of leaf `q` is not the one that the dealer committed to.
fn chains_differ<V: Pages>(
    commits: &mut Commits<V>,
    q: u32,
    masks: &[u8],
    digest: &Val,
    t: u8,
) -> Result<bool, RefFault>
    requires leaf { q < 2 ^ (set_of commits.old).h }
    requires masks { length masks.now ≡ (set_of commits.old).n * (set_of commits.old).p }
    requires digest { length digest.now ≡ (set_of commits.old).n }
    requires member { Contains (leaf_members (plan_of commits.old) q) t }
    ensures differs { IsTrue (V.told (pages_of commits.old)) → IfOk result (λ b. IsTrue b
        ↔ ChainsDiffer (set_of commits.old) (plan_of commits.old) (leaves_on V.Pages.own (pages_of commits.old)) q
        digest.now masks.now t) }
    ensures looks { Looks V.Pages.own V.Faults (set_of commits.old) (plan_of commits.old) commits.old commits.new
        result }
{
    let Places { params, .. } = commits.places;
    let n = params.n as usize;
    'chains: for i in 0..params.p {
        let mask = part(masks, n * i as usize, n);
        if chain_differs(commits, q, i, mask, digest, t)? {
            return Ok(true);
        }
    }
    Ok(false)
}

/// Whether this mask of trustee `t` for chain `i` of leaf `q` is not the one that the dealer committed to.
#[tactic(auto, unfolding(reference_value::specs::Commitments::cell_commitment_in))]
fn chain_differs<V: Pages>(
    commits: &mut Commits<V>,
    q: u32,
    i: u16,
    mask: &[u8],
    digest: &Val,
    t: u8,
) -> Result<bool, RefFault>
    requires leaf { q < 2 ^ (set_of commits.old).h }
    requires chain { i < (set_of commits.old).p }
    requires digest { length digest.now ≡ (set_of commits.old).n }
    requires member { Contains (leaf_members (plan_of commits.old) q) t }
    ensures differs { IsTrue (V.told (pages_of commits.old)) → IfOk result (λ b. IsTrue b ↔ (sha256 mask.now
        ≢ cell_commitment_in (set_of commits.old) (plan_of commits.old)
        (leaves_on V.Pages.own (pages_of commits.old)) q i (digit_of (set_of commits.old) digest.now i) t)) }
    ensures looks { Looks V.Pages.own V.Faults (set_of commits.old) (plan_of commits.old) commits.old commits.new
        result }
{
    let j = digit(&commits.places.params, digest, i);
    let place = commits.places.cell(q, i, j, t);
    is_other(&mut commits.pages, place, mask)
}
