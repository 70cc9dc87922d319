//! The book of approved messages: its disk, and a message in it.

ghost use Rattle.std.specs.Prelude.{◌≡◌, IfOk, IfErr};
ghost use Rattle.lms_bytes.specs.MessageId.{message_id_bytes};
ghost use Rattle.disk_trait.specs.SameDisk.{SameDisk};
ghost use Rattle.stream_io.specs.Store.{pages_state};
ghost use Rattle.tool_base.specs.Endings.{ending};
ghost use Rattle.tool_base.specs.Reads.{FailsToRead};
ghost use Rattle.tool_base.specs.Touched.{EndsTouching};
ghost use Rattle.tool_base.specs.World.{InAnyRun, IsUnchanged, from_to};
ghost use Rattle.tool_journals.specs.Adding.{AddEnds, DiskFails, disk_run};
ghost use Rattle.tool_journals.specs.Approve.{IsBookDisk, IsMessageRead, IsNotOpened};

use crate::blank::{Blank, new_blank};
use crate::faults::end_of_add;
use approval_book::Book;
use disk_trait::Disk;
use lms_bytes::MessageId;
use slot_file::Header;
use std::alloc::Global;
use stream_io::{CallFault, Store};
use tool_base::{Ending, FILE_LIMIT, end_of_slots, read_file};

/// Reads a message to get its id.
pub(crate) fn read_message<S: Store>(
    alloc: Global,
    store: &mut S,
    name: &str,
) -> Result<MessageId, Ending>
    ensures id { InAnyRun S.state store.old store.new (λ run.
        IfOk result (λ id. IsMessageRead run name.now (message_id_bytes id))) }
    ensures refused { InAnyRun S.state store.old store.new (λ run.
        IfErr result (λ end. FailsToRead run name.now (ending end))) }
    ensures unchanged { IsUnchanged (S.state store.old) (S.state store.new) }
{
    let text = read_file(alloc, store, name, FILE_LIMIT)?;
    Ok(MessageId::of(&text))
}

/// Takes the disk of the book out of the store, or makes the book if it is not there.
pub(crate) fn open_book<S: Store>(
    alloc: Global,
    store: &mut S,
    book: &str,
    blank: &Blank,
) -> Result<S::Disk, Ending>
    requires { blank.now.count ≡ 1024 }
    ensures opened { IfOk result (λ disk. IsBookDisk (S.state store.old) book.now blank.now.header
        (pages_state S.Disk.told S.Disk.honest S.Disk.steady S.Disk.count S.Disk.room S.Disk.reads S.Disk.may_leave
        disk) (S.state store.new)) }
    ensures refused { (first : S) → IsUnchanged (S.state first) (S.state store.old)
        → let run = from_to (S.state first) (S.state store.new) in IfErr result (λ end.
        EndsTouching (IsNotOpened run book.now blank.now.header) run (ending end)) }
{
    match store.has(book) {
        Ok(true) => match store.take_disk(book) {
            Ok(disk) => Ok(disk),
            Err(CallFault::Failed) => Err(Ending::StoreFailed),
            Err(CallFault::NoMemory) => Err(Ending::NoMemory),
        },
        Ok(false) => new_blank(alloc, store, book, blank),
        Err(CallFault::Failed) => Err(Ending::StoreFailed),
        Err(CallFault::NoMemory) => Err(Ending::NoMemory),
    }
}

/// Loads the book of a disk and adds a message.
pub(crate) fn add_message<D: Disk>(
    alloc: Global,
    disk: D,
    header: &Header,
    id: &MessageId,
) -> (D, Ending)
    requires { header.now.version ≡ 3 }
    ensures ended { AddEnds (DiskFails D.Pages.own D.Faults disk result.0) (disk_run D.Pages.own disk result.0)
        header.now (message_id_bytes id.now) (ending result.1) }
    ensures stays { SameDisk D.Pages.own D.Faults disk result.0 }
{
    match Book::load(alloc, disk, header) {
        Ok(mut book) => {
            let added = book.add(id);
            let end = end_of_add(added, book.count());
            (book.end(), end)
        }
        Err((disk, fault)) => (disk, end_of_slots(fault)),
    }
}
