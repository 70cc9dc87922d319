//! What a file of slots is, by its header.

ghost use Rattle.std.specs.Prelude.{◌≡◌, ◌≤◌, length, None, Some, MatchOption};
ghost use Rattle.slot_file.specs.Layout.{header_in};
ghost use Rattle.tool_show.specs.Heads.{IsHead};
ghost use Rattle.tool_show.specs.SlotKinds.{slot_kind, version_kind};

use byteorder::{BigEndian, ByteOrder};
use lms_bytes::Params;
use slot_file::Header;

/// The bytes of a header that say what the file is.
const HEAD: usize = 32;

/// How many slots a book has.
const BOOK_SLOTS: u32 = 1024;

/// The kinds of files of slots.
#[derive(Clone, Copy, Debug, PartialEq, Eq)]
pub enum SlotKind {
    /// A journal, which keeps the moments of its openings.
    Journal,
    /// A journal of the first version, which keeps none.
    OldJournal,
    /// A leaf table.
    Table,
    /// A book.
    Book,
}

/// What a file of slots is.
#[derive(Clone, Copy)]
pub struct Head {
    /// Its kind.
    pub kind: SlotKind,
    /// Its header.
    pub header: Header,
    /// How many slots it has.
    pub count: u32,
}

/// Reads the header of a file.
#[tactic(auto, unfolding(slot_file::specs::Layout::header_in))]
fn read_header(bytes: &[u8]) -> Header
    requires { 32 ≤ length bytes.now }
    ensures { result ≡ header_in bytes.now }
{
    let mut id = [0; 16];
    id.copy_from_slice(&bytes[16..32]);
    Header {
        version: bytes[4],
        number: bytes[5],
        lms: BigEndian::read_u32(&bytes[8..12]),
        ots: BigEndian::read_u32(&bytes[12..16]),
        id,
    }
}

/// The kind of a version and a number.
fn kind_of(version: u8, number: u8) -> Option<SlotKind>
    ensures { result ≡ version_kind version number }
{
    match version {
        2 => Some(SlotKind::Journal),
        3 => Some(SlotKind::Book),
        1 if number == 0 => Some(SlotKind::Table),
        1 => Some(SlotKind::OldJournal),
        _ => None,
    }
}

/// What the file is, or none if it is no file of slots.
#[tactic(auto, unfolding(crate::specs::SlotKinds::slot_kind, crate::specs::SlotKinds::leaf_count))]
pub(crate) fn read_head(bytes: &[u8]) -> Option<Head>
    ensures { MatchOption result (slot_kind bytes.now ≡ None) (IsHead bytes.now) }
{
    if bytes.len() < HEAD {
        return None;
    }
    let header = read_header(bytes);
    let Ok(params) = Params::of_codes(header.lms, header.ots) else {
        return None;
    };
    let kind = kind_of(header.version, header.number)?;
    let count = match kind {
        SlotKind::Book => BOOK_SLOTS,
        SlotKind::Journal | SlotKind::OldJournal | SlotKind::Table => params.leaves(),
    };
    Some(Head {
        kind,
        header,
        count,
    })
}
