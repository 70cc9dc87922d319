//! Trustees whose journals are empty, in memory.

ghost use Rattle.std.specs.Prelude.{◌≡◌, IfSome, true};
ghost use Rattle.opening_journal.specs.Journal.{header_of, params_of};
ghost use Rattle.trustee_core.specs.Trustee.{journal_header, share_of};

use crate::disks::fresh_disk;
use crate::links::link;
use crate::turns::only_pass;
use disk_trait::{Disk, MemDisk};
use opening_journal::Journal;
use share_files::Share;
use slot_file::Header;
use std::alloc::Global;
use std::sync::Wait;
use stream_io::{Sink, Source};
use stream_memory::MemLink;
use trustee_core::{Clock, Trustee};
use trustee_node::serve_connection;
use turn_lock::TurnLock;

/// The bytes of a journal of 32 leaves.
const JOURNAL: usize = 5248;

/// A clock that stands still.
#[derive(Drop)]
pub(crate) struct Still;

impl Clock for Still {
    ghost told = { λ _. true };

    ghost answers = { λ _ _. 0 };

    fn now(&mut self) -> u64 {
        0
    }
}

/// The header of a trustee's journal.
fn header(share: &Share) -> Header
    ensures { result ≡ journal_header share.now }
{
    Header {
        version: 2,
        number: share.member,
        lms: share.params.lms,
        ots: share.params.ots,
        id: share.id,
    }
}

/// An empty journal of the share's trustee.
fn empty_journal(alloc: Global, share: &Share) -> Option<Journal<MemDisk>>
    ensures header { IfSome result (λ journal. header_of journal ≡ journal_header share.now) }
    ensures params { IfSome result (λ journal. params_of journal ≡ share.now.params) }
{
    let header = header(share);
    let disk = fresh_disk(alloc, &header, JOURNAL)?;
    Journal::load(alloc, disk, &header, &share.params).ok()
}

/// A trustee of the share, whose journal is empty.
pub(crate) fn trustee(alloc: Global, share: &Share) -> Option<Trustee<MemDisk>>
    ensures { IfSome result (λ trustee. share_of trustee ≡ share.now) }
{
    Some(Trustee::new(*share, empty_journal(alloc, share)?))
}

/// Serves a link of a trustee, or returns nothing if memory ran out.
fn serve_over<D: Disk + Drop, L: Source + Sink>(
    waits: &impl Wait,
    alloc: Global,
    trustee: Trustee<D>,
    share: &Share,
    link: &mut L,
) -> Option<()>
    requires { share_of trustee ≡ share.now }
{
    let Ok((lock, passes)) = TurnLock::new(alloc, trustee, 1, 0) else {
        return None;
    };
    let mut pass = only_pass(&lock, passes)?;
    serve_connection(waits, &lock, &mut pass, share, None, &mut Still, link);
    Some(())
}

/// Serves a link of a trustee of this share whose journal is empty, or returns nothing if memory ran out.
fn serve_link(waits: &impl Wait, alloc: Global, share: &Share, link: &mut MemLink) -> Option<()> {
    serve_over(waits, alloc, trustee(alloc, share)?, share, link)
}

/// What a trustee of this share whose journal is empty replies to these asks, or nothing if memory ran out.
pub(crate) fn replies(
    waits: &impl Wait,
    alloc: Global,
    share: &Share,
    asks: &[u8],
) -> Option<Vec<u8>> {
    let mut link = link(alloc, asks)?;
    serve_link(waits, alloc, share, &mut link)?;
    Vec::from_slice(alloc, link.conversation().written()).ok()
}
