//! What a trustee under a lock stands for.

use crate::note::Note;
use crate::trustee::Trustee;
use disk_trait::Disk;
use share_files::Share;
use turn_lock::Kept;

/// What tells one trustee from another: its share, and what its disk is for good. No value of it is made.
#[derive(Clone, Copy, PartialEq, Eq)]
pub struct TrusteeName {
    /// The share.
    pub share: Share,
    /// Whether the disk tells its content.
    pub told: bool,
    /// Whether it keeps the model of crashes.
    pub honest: bool,
    /// Whether its calls fail for their arguments alone.
    pub steady: bool,
}

impl<D: Disk> Kept for Trustee<D> {
    ghost use Rattle.opening_journal.specs.Journal.{disk_of, faults_of};
    ghost use Rattle.trustee_core.specs.Trustee.{journal_of, notes_of, share_of};

    type Entry = Note;

    type Name = TrusteeName;

    ghost entries = { λ trustee. notes_of trustee };

    ghost number = { λ trustee. faults_of (journal_of trustee) };

    ghost name = { λ trustee. record {
      share = share_of trustee;
      told = D.told (disk_of (journal_of trustee));
      honest = D.honest (disk_of (journal_of trustee));
      steady = D.steady (disk_of (journal_of trustee));
    } };
}
