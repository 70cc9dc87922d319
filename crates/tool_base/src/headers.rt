//! Headers of the files of a trustee.

ghost use Rattle.std.specs.Prelude.{◌≡◌};
ghost use Rattle.tool_base.specs.Headers.{book_header};

use share_files::Share;
use slot_file::Header;

/// The header of a trustee's file of slots of a version: 2 for its journal and 3 for its book.
pub fn header_of(share: &Share, version: u8) -> Header
    ensures { result ≡ record (book_header share.now) { version = version } }
{
    Header {
        version,
        number: share.member,
        lms: share.params.lms,
        ots: share.params.ots,
        id: share.id,
    }
}
