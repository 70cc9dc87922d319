//! What bytes hold.

ghost use Rattle.std.specs.Prelude.{◌≡◌, if◌then◌else◌, is_some, ℕ, IfErr, IfOk, List, Some, string_bytes};
ghost use Rattle.share_files.specs.Reference.{HasReferenceLayout, reference_fault};
ghost use Rattle.tool_show.specs.SlotKinds.{slot_kind};
ghost use Rattle.tool_show.specs.Keys.{IsFaultOf};
ghost use Rattle.tool_show.specs.Kinds.{IsSlots, commits_fault, key_kind, kind_of};
ghost use Rattle.tool_show.specs.Shown.{HasCommitsHead, IsShown};

use crate::any_key::AnyKey;
use crate::lines::{header_line, share_line, tree_line};
use crate::{ListingFault, list_slots};
use lms_bytes::bytes::part;
use share_files::{
    FileFault, HEAD, RefHeader, read_commits_header, read_reference, read_share, read_tree,
};
use std::alloc::{AllocError, Global};

/// Why bytes are not shown.
#[derive(Clone, Copy)]
pub(crate) enum ShowFault {
    /// They are no file of their kind, by the fault of this number, or of no kind, which is fault 1.
    Unreadable { fault: u8 },
    /// They are a file of slots that does not load, by the fault of this number.
    NotLoaded { fault: u8 },
    /// Memory ran out.
    NoMemory,
}

impl From<AllocError> for ShowFault {
    ghost use Rattle.tool_show.specs.declared.bytes_shown.ShowFault.TheVariants.{NoMemory};

    ghost from_gives = { λ _ fault. fault ≡ NoMemory };

    fn from(_: AllocError) -> Self {
        ShowFault::NoMemory
    }
}

impl From<FileFault> for ShowFault {
    ghost use Rattle.share_files.specs.FaultNumbers.{file_fault_number};
    ghost use Rattle.tool_show.specs.declared.bytes_shown.ShowFault.TheVariants.{Unreadable};

    ghost from_gives = { λ fault shown. shown ≡ Unreadable (file_fault_number fault) };

    fn from(fault: FileFault) -> Self {
        ShowFault::Unreadable {
            fault: fault.number(),
        }
    }
}

/// What these bytes hold, as lines of text: for a share all but its key, for a tree the root alone, for a reference and
/// for a commitment file the head. If `leaves` is true, each slot of a file of slots that is not free has a line.
#[tactic(auto, unfolding(crate::specs::Kinds::kind_of))]
pub(crate) fn show_bytes(alloc: Global, bytes: Vec<u8>, leaves: bool) -> Result<String, ShowFault>
    ensures shown { IfOk result (λ text. IsShown bytes.items leaves (string_bytes text)) }
    ensures refused { IfErr result (IsFaultOf bytes.items) }
{
    if bytes.starts_with(b"TLSH") {
        let share = read_share(&bytes)?;
        return Ok(share_line(alloc, &share)?);
    }
    if bytes.starts_with(b"TLTR") {
        let tree = read_tree(&bytes)?;
        return Ok(tree_line(alloc, &tree)?);
    }
    if bytes.starts_with(b"TLRF") {
        let header = read_reference_head(&bytes)?;
        return Ok(header_line(alloc, "reference", &header, bytes.len())?);
    }
    if bytes.starts_with(b"TLCM") {
        let header = read_commits_head(&bytes)?;
        return Ok(header_line(alloc, "commitments", &header, bytes.len())?);
    }
    show_unmarked(alloc, bytes, leaves)
}

/// Reads a reference that is all of `bytes`, and returns its head.
fn read_reference_head(bytes: &[u8]) -> Result<RefHeader, FileFault>
    ensures layout { IfOk result (λ header. (leaves : List ℕ) × HasReferenceLayout header bytes.now leaves) }
    ensures refused { IfErr result (λ fault. reference_fault bytes.now ≡ Some fault) }
{
    match read_reference(bytes) {
        Ok(view) => Ok(view.header),
        Err(fault) => Err(fault),
    }
}

/// Reads the head of a commitment file that is all of `bytes`.
#[tactic(auto, unfolding(crate::specs::Kinds::commits_fault))]
fn read_commits_head(bytes: &[u8]) -> Result<RefHeader, FileFault>
    ensures header { IfOk result (λ header. HasCommitsHead header bytes.now) }
    ensures refused { IfErr result (λ fault. commits_fault bytes.now ≡ Some fault) }
{
    if bytes.len() < HEAD {
        return Err(FileFault::Length {
            got: bytes.len() as u64,
            want: HEAD as u64,
        });
    }
    let mut head = [0; HEAD];
    head.copy_from_slice(part(bytes, 0, HEAD));
    read_commits_header(&head, bytes.len() as u64)
}

/// What a file without letters at its front holds: a file of slots, or a key.
fn show_unmarked(alloc: Global, bytes: Vec<u8>, leaves: bool) -> Result<String, ShowFault>
    requires { kind_of bytes.items ≡ (if is_some (slot_kind bytes.items) then Some IsSlots else key_kind bytes.items) }
    ensures shown { IfOk result (λ text. IsShown bytes.items leaves (string_bytes text)) }
    ensures refused { IfErr result (IsFaultOf bytes.items) }
{
    let key = AnyKey::of(&bytes);
    match list_slots(alloc, bytes, leaves) {
        Ok(text) => Ok(text),
        Err(ListingFault::NotASlotFile) => match key {
            Some(key) => Ok(key.line(alloc)?),
            None => Err(ShowFault::Unreadable { fault: 1 }),
        },
        Err(ListingFault::NotLoaded { fault }) => Err(ShowFault::NotLoaded { fault }),
        Err(ListingFault::NoMemory) => Err(ShowFault::NoMemory),
    }
}
