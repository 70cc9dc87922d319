//! The command `show`.

ghost use Rattle.std.specs.Prelude.{[]};
ghost use Rattle.tool_base.specs.Endings.{ending};
ghost use Rattle.tool_base.specs.Touched.{Keeps};
ghost use Rattle.tool_base.specs.World.{from_to};
ghost use Rattle.tool_show.specs.Keys.{IsEndOf};
ghost use Rattle.tool_show.specs.Show.{ShowEnds};

use crate::bytes_shown::{ShowFault, show_bytes};
use crate::head_shown::show_head;
use std::alloc::Global;
use stream_io::Store;
use tool_base::{Content, Ending, find_content, unreadable};

/// Says what the file of this name holds. If `leaves` is true, each slot of a file of slots that is not free has a
/// line.
pub fn show_file<S: Store>(alloc: Global, store: &mut S, file: &str, leaves: bool) -> Ending
    ensures ended { ShowEnds (from_to (S.state store.old) (S.state store.new)) file.now leaves (ending result) }
    ensures keeps { Keeps [] (S.state store.old) (S.state store.new) }
{
    match find_content(alloc, store, file) {
        Ok(Content::Whole(bytes)) => match show_bytes(alloc, bytes, leaves) {
            Ok(text) => Ending::Shown { text },
            Err(fault) => end_of_fault(alloc, file, fault),
        },
        Ok(Content::Long { head, got }) => match show_head(alloc, &head, got) {
            Ok(Some(text)) => Ending::Shown { text },
            Ok(None) => Ending::TooLong { got },
            Err(fault) => end_of_fault(alloc, file, fault),
        },
        Err(end) => end,
    }
}

/// The end if the file of this name is not shown.
fn end_of_fault(alloc: Global, file: &str, fault: ShowFault) -> Ending
    ensures { IsEndOf file.now fault (ending result) }
{
    match fault {
        ShowFault::Unreadable { fault } => unreadable(alloc, file, fault),
        ShowFault::NotLoaded { fault } => Ending::NotLoaded { fault },
        ShowFault::NoMemory => Ending::NoMemory,
    }
}
