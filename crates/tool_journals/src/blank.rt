//! Blank files of slots: which one goes with a file, and how they are made under new names.

ghost use Rattle.std.specs.Prelude.{◌≡◌, ◌^◌, [], None, Some, IfOk, OnOk, IfErr};
ghost use Rattle.slot_file.specs.Layout.{file_size};
ghost use Rattle.stream_io.specs.Store.{pages_state};
ghost use Rattle.tool_base.specs.Endings.{ending};
ghost use Rattle.tool_base.specs.Touched.{EndsTouching, Keeps};
ghost use Rattle.tool_base.specs.World.{InAnyRun, IsUnchanged, from_to};
ghost use Rattle.tool_base.specs.Headers.{book_header};
ghost use Rattle.tool_journals.specs.Blanks.{IsBlankDisk, IsNotMade};
ghost use Rattle.tool_journals.specs.Enrol.{FailsToEnrol, GoWith, IsEnrolled, enrol_fault, table_header};
ghost use Rattle.trustee_core.specs.Trustee.{journal_header};

use crate::faults::end_of_prepare;
use share_files::{FileFault, RefHeader, Share, read_ref_header, read_reference, read_share};
use slot_file::{Header, prepare};
use std::alloc::Global;
use stream_io::{Readers, Store};
use tool_base::{Content, Ending, end_of_new, find_content, header_of, unreadable};

/// A blank file of slots.
#[derive(Clone, Copy)]
pub(crate) struct Blank {
    /// Its header.
    pub(crate) header: Header,
    /// How many slots it has.
    pub(crate) count: u32,
}

impl Blank {
    /// The journal of a share's trustee.
    pub(crate) fn journal_of(share: &Share) -> Blank
        ensures header { result.header ≡ journal_header share.now }
        ensures count { result.count ≡ 2 ^ share.now.params.h }
    {
        Blank {
            header: header_of(share, 2),
            count: share.params.leaves(),
        }
    }

    /// The book of a share's trustee.
    pub(crate) fn book_of(share: &Share) -> Blank
        ensures header { result.header ≡ book_header share.now }
        ensures count { result.count ≡ 1024 }
    {
        Blank {
            header: header_of(share, 3),
            count: 1024,
        }
    }
}

/// The length in bytes of a file of `count` slots.
pub(crate) fn file_length(version: u8, count: u32) -> usize
    ensures { result ≡ file_size version count }
{
    let slot = if version == 2 { 160 } else { 128 };
    128 + slot * count as usize
}

/// Makes a blank file under a new name and keeps its disk.
pub(crate) fn new_blank<S: Store>(
    alloc: Global,
    store: &mut S,
    name: &str,
    blank: &Blank,
) -> Result<S::Disk, Ending>
    ensures made { IfOk result (λ disk. IsBlankDisk (S.state store.old) name.now blank.now.header blank.now.count
        (pages_state S.Disk.told S.Disk.honest S.Disk.steady S.Disk.count S.Disk.room S.Disk.reads S.Disk.may_leave
        disk) (S.state store.new)) }
    ensures refused { (first : S) → IsUnchanged (S.state first) (S.state store.old)
        → let run = from_to (S.state first) (S.state store.new) in IfErr result (λ end.
        EndsTouching (IsNotMade run name.now blank.now.header blank.now.count) run (ending end)) }
{
    let mut disk = match store.new_disk(
        alloc,
        name,
        file_length(blank.header.version, blank.count),
        Readers::OwnerAlone,
    ) {
        Ok(made) => made,
        Err(fault) => return Err(end_of_new(alloc, name, fault)),
    };
    if let Err(fault) = prepare(&mut disk, &blank.header, blank.count) {
        store.return_disk(name, disk);
        return Err(end_of_prepare(fault));
    }
    Ok(disk)
}

/// Finds the file with which the blank file should go: a share, or a reference of any length.
pub(crate) fn read_blank<S: Store>(
    alloc: Global,
    store: &mut S,
    file: &str,
) -> Result<Blank, Ending>
    ensures blank { InAnyRun S.state store.old store.new (λ run.
        IfOk result (λ blank. IsEnrolled run file.now blank.header blank.count)) }
    ensures refused { InAnyRun S.state store.old store.new (λ run.
        IfErr result (λ end. FailsToEnrol run file.now (ending end))) }
    ensures keeps { Keeps [] (S.state store.old) (S.state store.new) }
{
    match find_content(alloc, store, file)? {
        Content::Whole(bytes) => match blank_of(&bytes) {
            Ok(blank) => Ok(blank),
            Err(fault) => Err(unreadable(alloc, file, fault.number())),
        },
        Content::Long { head, got } => {
            if !head.starts_with(b"TLRF") {
                return Err(Ending::TooLong { got });
            }
            match read_ref_header(&head, got) {
                Ok(reference) => Ok(table_of(&reference)),
                Err(fault) => Err(unreadable(alloc, file, fault.number())),
            }
        }
    }
}

/// The blank file that goes with these bytes, by the letters that they begin with.
#[tactic(auto, unfolding(crate::specs::Enrol::enrol_fault))]
fn blank_of(bytes: &[u8]) -> Result<Blank, FileFault>
    ensures blank { IfOk result (λ blank. GoWith bytes.now blank.header blank.count) }
    ensures refused { IfErr result (λ fault. enrol_fault bytes.now ≡ Some fault) }
    ensures faultless { OnOk result (enrol_fault bytes.now ≡ None) }
{
    if bytes.starts_with(b"TLSH") {
        return match read_share(bytes) {
            Ok(share) => Ok(Blank::journal_of(&share)),
            Err(fault) => Err(fault),
        };
    }
    if bytes.starts_with(b"TLRF") {
        return match read_reference(bytes) {
            Ok(reference) => Ok(table_of(&reference.header)),
            Err(fault) => Err(fault),
        };
    }
    Err(FileFault::Magic)
}

/// The leaf table of an aggregator.
fn table_of(reference: &RefHeader) -> Blank
    ensures header { result.header ≡ table_header reference.now }
    ensures count { result.count ≡ 2 ^ reference.now.params.h }
{
    Blank {
        header: Header {
            version: 1,
            number: 0,
            lms: reference.params.lms,
            ots: reference.params.ots,
            id: reference.id,
        },
        count: reference.params.leaves(),
    }
}
