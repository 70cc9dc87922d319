//! The commands `enrol`, `approve` and `migrate`.

ghost use Rattle.tool_base.specs.Endings.{ending};
ghost use Rattle.tool_base.specs.Touched.{EndsTouching};
ghost use Rattle.tool_base.specs.World.{from_to};
ghost use Rattle.tool_journals.specs.Approve.{ApproveEnds};
ghost use Rattle.tool_journals.specs.Enrol.{EnrolEnds};
ghost use Rattle.tool_journals.specs.Migrate.{MigrateEnds};

use crate::blank::{Blank, new_blank, read_blank};
use crate::book::{add_message, open_book, read_message};
use crate::old_journal::copy_disk;
use std::alloc::Global;
use stream_io::{CallFault, Store};
use tool_base::{Ending, read_share_file, test_new};

/// Makes the journal of a share, or the leaf table of a reference file, both given by the names of their files.
pub fn enrol_file<S: Store>(alloc: Global, store: &mut S, file: &str, journal: &str) -> Ending
    ensures ended { let run = from_to (S.state store.old) (S.state store.new) in
        EndsTouching (EnrolEnds run file.now journal.now) run (ending result) }
{
    let blank = match read_blank(alloc, store, file) {
        Ok(blank) => blank,
        Err(end) => return end,
    };
    match new_blank(alloc, store, journal, &blank) {
        Ok(disk) => {
            store.return_disk(journal, disk);
            Ending::Enrolled {
                number: blank.header.number,
            }
        }
        Err(end) => end,
    }
}

/// Lists a message in the book of a share's trustee, all three given by the names of their files. A book that is not in
/// the store is made.
pub fn approve_message<S: Store>(
    alloc: Global,
    store: &mut S,
    share: &str,
    book: &str,
    message: &str,
) -> Ending
    ensures ended { let run = from_to (S.state store.old) (S.state store.new) in
        EndsTouching (ApproveEnds run share.now book.now message.now) run (ending result) }
{
    let found = match read_share_file(alloc, store, share) {
        Ok(found) => found,
        Err(end) => return end,
    };
    let id = match read_message(alloc, store, message) {
        Ok(id) => id,
        Err(end) => return end,
    };
    let blank = Blank::book_of(&found);
    let disk = match open_book(alloc, store, book, &blank) {
        Ok(disk) => disk,
        Err(end) => return end,
    };
    let (disk, end) = add_message(alloc, disk, &blank.header, &id);
    store.return_disk(book, disk);
    end
}

/// Copies the journal of version 1 of a share's trustee into a new journal, all three given by the names of their
/// files.
pub fn migrate_journal<S: Store>(
    alloc: Global,
    store: &mut S,
    share: &str,
    journal: &str,
    new: &str,
) -> Ending
    ensures ended { let run = from_to (S.state store.old) (S.state store.new) in
        EndsTouching (MigrateEnds run share.now journal.now new.now) run (ending result) }
{
    match read_share_file(alloc, store, share) {
        Ok(found) => {
            if let Err(end) = test_new(alloc, store, new) {
                return end;
            }
            let disk = match store.take_disk(journal) {
                Ok(disk) => disk,
                Err(CallFault::Failed) => return Ending::StoreFailed,
                Err(CallFault::NoMemory) => return Ending::NoMemory,
            };
            let (disk, end) = copy_disk(alloc, store, disk, &found, new);
            store.return_disk(journal, disk);
            end
        }
        Err(end) => end,
    }
}
