//! Shares whose key nothing hands out.

ghost use Rattle.std.specs.Prelude.{◌≡◌};

use lms_bytes::{KeyId, Params};
use share_files::Share;
use std::marker::Model;

/// A trustee's share, as the code that serves its peers holds it. It tells what is public of the share, and no call
/// outside this crate hands out the key. It can be neither copied nor printed. Contracts see the share.
#[derive(Drop)]
pub struct KeyKeeper {
    share: Share,
}

impl Model for KeyKeeper {
    ghost use Rattle.share_files.specs.declared.share.Share.{Share as Kept};

    ghost Value = { Kept };

    ghost view = { λ keeper. keeper.share };
}

impl KeyKeeper {
    /// The keeper of a share.
    pub fn of(share: &Share) -> KeyKeeper
        ensures { result ≡ share.now }
    {
        KeyKeeper { share: *share }
    }

    /// The parameter set.
    pub fn params(&self) -> &Params
        ensures { result.now ≡ self.now.params }
    {
        &self.share.params
    }

    /// The identifier of the key.
    pub fn id(&self) -> &KeyId
        ensures { result.now ≡ self.now.id }
    {
        &self.share.id
    }

    /// The number of the trustee, from 1 on.
    pub fn member(&self) -> u8
        ensures { result ≡ self.now.member }
    {
        self.share.member
    }

    /// The share, for the decisions and the grants of this crate alone.
    pub(crate) fn share(&self) -> &Share
        ensures { result.now ≡ self.now }
    {
        &self.share
    }
}
