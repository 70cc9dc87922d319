//! A trustee whose journal is on a disk in memory.

ghost use Rattle.std.specs.Prelude.{◌≡◌, None};
ghost use Rattle.opening_journal.specs.Journal.{IsSteady, state_of};
ghost use Rattle.trustee_core.specs.Trustee.{journal_of, share_of};

use disk_trait::MemDisk;
use share_files::Share;
use trustee_core::{Grant, Trustee};

/// What became of an ask.
#[derive(Drop)]
pub enum Answer {
    /// It was granted.
    Granted(Grant),
    /// It was refused.
    Refused,
    /// The trustee's disk stopped.
    Stopped,
}

/// A trustee, and its share.
#[derive(Drop)]
pub struct Member {
    pub(crate) share: Share,
    pub(crate) trustee: Trustee<MemDisk>,
    ghost own: { share_of trustee ≡ share },
    ghost settled: { (state_of (journal_of trustee)).doubt ≡ None },
    ghost steady: { IsSteady (journal_of trustee) },
    ghost hash_length: { share.params.n ≡ 32 },
    ghost height: { share.params.h ≡ 5 },
}
