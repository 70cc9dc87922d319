//! The masks of a grant, one by one.

ghost use Rattle.std.specs.Prelude.{◌≡◌, ◌<◌, ◌≤◌, length, IfSome, Some};
ghost use Rattle.lms_bytes.specs.declared.ask.Second.{Second};

use crate::keeper::KeyKeeper;
use lms_bytes::{Ask, Val, digit};
use mask_prf::MacKey;
use share_files::Share;

/// The masks of a grant, each made when it is asked for. Only a grant makes them: the leaf, the round and the digest
/// are those of its ask. They cannot be copied.
#[derive(Drop)]
pub struct GrantMasks {
    key: MacKey,
    share: Share,
    ask: Ask,
    ghost key_is: { key ≡ share.key },
    ghost digest: { (second : Second) → ask.second ≡ Some second → length second.digest ≡ share.params.n },
}

impl GrantMasks {
    ghost use Rattle.trustee_core.specs.Grants.{ask_in, granted_by, mask_of, masks_of};

    /// The masks of an ask that the trustee of this share granted. The key is hashed once for all of them.
    pub(crate) fn of(share: &KeyKeeper, ask: &Ask) -> GrantMasks
        requires { IfSome ask.now.second (λ second. length second.digest ≡ share.now.params.n) }
        ensures share { granted_by result ≡ share.now }
        ensures ask { ask_in result ≡ ask.now }
    {
        let share = *share.share();
        GrantMasks {
            key: MacKey::new(&share.key),
            share,
            ask: *ask,
        }
    }

    /// The length of each, in bytes.
    pub fn mask_length(&self) -> usize
        ensures length { result ≡ (granted_by self.now).params.n }
        ensures small { result ≤ 32 }
    {
        self.share.params.n as usize
    }

    /// How many there are: the one for the randomizer, or one for each chain.
    pub fn count(&self) -> u16
        ensures { result ≡ masks_of (granted_by self.now).params (ask_in self.now) }
    {
        match self.ask.second {
            None => 1,
            Some(_) => self.share.params.p,
        }
    }

    /// Mask `i`, `n` bytes: the randomizer's, or that of chain `i` at the digit of the ask's digest.
    pub fn mask(&self, i: u16) -> Val
        requires { i < masks_of (granted_by self.now).params (ask_in self.now) }
        ensures mask { result ≡ mask_of (granted_by self.now) (ask_in self.now) i }
        ensures length { length result ≡ (granted_by self.now).params.n }
    {
        let Ask { leaf, second, .. } = &self.ask;
        let Share { params, id, .. } = &self.share;
        match second {
            None => self.key.random_mask(params, id, *leaf),
            Some(second) => {
                let step = digit(params, &second.digest, i);
                self.key.chain_mask(params, id, *leaf, i, step)
            }
        }
    }
}
