//! Grants, and the masks that they give.

ghost use Rattle.std.specs.Prelude.{◌≡◌, ◌<◌, length, IfSome};
ghost use Rattle.trustee_core.specs.Grants.{ask_in, ask_of, granted_by, mask_of, masks_of};

use crate::keeper::KeyKeeper;
use crate::masks::GrantMasks;
use lms_bytes::{Ask, Params, Val, digit};
use mask_prf::{chain_mask, random_mask};
use share_files::Share;

/// An ask that a trustee granted. Only a decision makes one, and it cannot be copied.
#[derive(Drop)]
pub struct Grant {
    pub(crate) ask: Ask,
}

impl Grant {
    /// What was granted.
    pub fn ask(&self) -> &Ask
        ensures { result.now ≡ ask_of self.now }
    {
        &self.ask
    }

    /// Its masks. The key is hashed once for all of them. The share is that of the trustee that granted.
    pub fn masks(&self, share: &KeyKeeper) -> GrantMasks
        requires digest { IfSome (ask_of self.now).second (λ second. length second.digest ≡ share.now.params.n) }
        ensures share { granted_by result ≡ share.now }
        ensures ask { ask_in result ≡ ask_of self.now }
    {
        GrantMasks::of(share, &self.ask)
    }
}

/// How many masks a grant gives: the one for the randomizer, or one for each chain.
pub fn mask_count(params: &Params, grant: &Grant) -> u16
    ensures { result ≡ masks_of params.now (ask_of grant.now) }
{
    match grant.ask.second {
        None => 1,
        Some(_) => params.p,
    }
}

/// Mask `i` of a grant, `n` bytes: the randomizer's, or that of chain `i` at the digit of the ask's digest. The share
/// is that of the trustee that granted. It takes no lock and no memory, and does not wait.
pub fn release(share: &Share, grant: &Grant, i: u16) -> Val
    requires mask { i < masks_of share.now.params (ask_of grant.now) }
    requires digest { IfSome (ask_of grant.now).second (λ second. length second.digest ≡ share.now.params.n) }
    ensures mask { result ≡ mask_of share.now (ask_of grant.now) i }
    ensures length { length result ≡ share.now.params.n }
{
    let Ask { leaf, second, .. } = &grant.ask;
    let Share {
        params,
        id,
        key,
        ..
    } = share;
    match second {
        None => random_mask(key, params, id, *leaf),
        Some(second) => {
            let step = digit(params, &second.digest, i);
            chain_mask(key, params, id, *leaf, i, step)
        }
    }
}
