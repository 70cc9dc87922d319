//! Files that are read whole up to the limit, and by their first 32 bytes beyond it.

ghost use Rattle.std.specs.Prelude.{◌≡◌, ◌≤◌, [], ℕ, List, Some, IfErr, IfOk, IsTrue, length};
ghost use Rattle.tool_base.specs.Contents.{FailsToFind, HasHead, IsFound};
ghost use Rattle.tool_base.specs.Endings.{ending};
ghost use Rattle.tool_base.specs.Loads.{ReadsAs};
ghost use Rattle.tool_base.specs.Touched.{Keeps};
ghost use Rattle.tool_base.specs.World.{InAnyRun};

use crate::FILE_LIMIT;
use crate::ending::Ending;
use disk_trait::Pages;
use std::alloc::Global;
use stream_io::{CallFault, ReadAllFault, Store};

/// What is found of a file.
#[derive(Drop)]
pub enum Content {
    /// All its bytes.
    Whole(Vec<u8>),
    /// The first bytes and the length of a file that is longer than the limit.
    Long { head: [u8; 32], got: u64 },
}

/// Finds what a file holds: it reads it whole if it is not too long, and else its head through a view.
pub fn find_content<S: Store>(alloc: Global, store: &mut S, name: &str) -> Result<Content, Ending>
    ensures found { InAnyRun S.state store.old store.new (λ run. IfOk result (IsFound run name.now)) }
    ensures refused { InAnyRun S.state store.old store.new (λ run.
        IfErr result (λ end. FailsToFind run name.now (ending end))) }
    ensures keeps { Keeps [] (S.state store.old) (S.state store.new) }
{
    match store.read_all(alloc, name, FILE_LIMIT) {
        Ok(bytes) => Ok(Content::Whole(bytes)),
        Err(ReadAllFault::Failed) => Err(Ending::StoreFailed),
        Err(ReadAllFault::TooLong { got }) => {
            let head = view_head(alloc, store, name)?;
            Ok(Content::Long { head, got })
        }
        Err(ReadAllFault::NoMemory) => Err(Ending::NoMemory),
    }
}

/// Reads the head of a file through a view, which is given back.
fn view_head<S: Store>(alloc: Global, store: &mut S, name: &str) -> Result<[u8; 32], Ending>
    requires long { IsTrue (S.state store.old).told → (file : List ℕ)
        → (S.state store.old).file name.now ≡ Some file → 32 ≤ length file }
    ensures head { InAnyRun S.state store.old store.new (λ run.
        IfOk result (λ head. ReadsAs run name.now (HasHead head))) }
    ensures refused { InAnyRun S.state store.old store.new (λ run.
        IfErr result (λ end. FailsToFind run name.now (ending end))) }
    ensures keeps { Keeps [] (S.state store.old) (S.state store.new) }
{
    let mut view = match store.view(alloc, name) {
        Ok(view) => view,
        Err(CallFault::Failed) => return Err(Ending::StoreFailed),
        Err(CallFault::NoMemory) => return Err(Ending::NoMemory),
    };
    let mut head = [0; 32];
    let read = view.read_at(0, &mut head);
    store.end_view(view);
    match read {
        Ok(()) => Ok(head),
        Err(_) => Err(Ending::DeviceFailed),
    }
}
