//! A share, and the trustee of it.

ghost use Rattle.std.specs.Prelude.{◌≡◌};
ghost use Rattle.trustee_core.specs.Trustee.{journal_header, share_of};

use crate::disks::free_file;
use disk_trait::MemDisk;
use opening_journal::Journal;
use share_files::{Share, read_share};
use slot_file::Header;
use std::alloc::Global;
use std::process::Abort;
use trustee_core::Trustee;

/// The share of trustee 1 in a dealing of the typecodes 5 and 3 to coalitions of 3 of 5 trustees.
const SHARE: [u8; 64] = [
    0x54, 0x4c, 0x53, 0x48, 1, 1, 3, 5, 0, 0, 0, 5, 0, 0, 0, 3, 0, 1, 2, 3, 4, 5, 6, 7, 8, 9, 10,
    11, 12, 13, 14, 15, 80, 81, 82, 83, 84, 85, 86, 87, 88, 89, 90, 91, 92, 93, 94, 95, 96, 97, 98,
    99, 100, 101, 102, 103, 104, 105, 106, 107, 108, 109, 110, 111,
];

/// The share.
pub(crate) fn share(rt: &impl Abort) -> Share
    ensures n { result.params.n ≡ 32 }
{
    let share = read_share(&SHARE).expect(rt, "share");
    assert!(rt; share.params.n == 32);
    share
}

/// The header of the journal of the share's trustee.
pub(crate) fn journal_header(share: &Share) -> Header
    ensures { result ≡ journal_header share.now }
{
    Header {
        version: 2,
        number: share.member,
        lms: share.params.lms,
        ots: share.params.ots,
        id: share.id,
    }
}

/// The trustee whose journal a disk holds.
pub(crate) fn trustee_on(rt: &impl Abort, alloc: Global, disk: MemDisk) -> Trustee<MemDisk>
    ensures { (share_of result).params.n ≡ 32 }
{
    let share = share(rt);
    match Journal::load(alloc, disk, &journal_header(&share), &share.params) {
        Ok(journal) => Trustee::new(share, journal),
        Err((_, fault)) => panic!(rt; "load: {fault}"),
    }
}

/// A disk that holds the trustee's empty journal.
pub(crate) fn empty_journal(rt: &impl Abort, alloc: Global) -> MemDisk {
    free_file(rt, alloc, &journal_header(&share(rt)), 32)
}
