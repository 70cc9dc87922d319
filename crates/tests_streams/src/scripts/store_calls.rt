//! Calls of a store as steps of a script.

ghost use Rattle.std.specs.Prelude.{◌≡◌};

use crate::scripts::disk_calls::{length, read, word};
use crate::scripts::{first_number, first_word, initial, is_text, word_if};
use disk_trait::{Disk, DiskFault, Pages};
use std::alloc::Global;
use stream_io::{CallFault, NewFault, ReadAllFault, Readers, Store};

/// The word for a fault of a call.
pub(crate) fn call_word(fault: CallFault) -> &'static str {
    match fault {
        CallFault::Failed => "failed",
        CallFault::NoMemory => "memory",
    }
}

/// The word for a fault of a call that needs a new name.
fn new_word(fault: NewFault) -> &'static str {
    match fault {
        NewFault::Exists => "exists",
        NewFault::Failed => "failed",
        NewFault::NoMemory => "memory",
    }
}

/// Whether a name is there.
fn has<S: Store>(store: &mut S, name: &str) -> &'static str {
    match store.has(name) {
        Ok(true) => "yes",
        Ok(false) => "no",
        Err(fault) => call_word(fault),
    }
}

/// Whether a read up to a limit gives the text after it, or finds the length there, which is over the limit.
fn read_all<S: Store>(store: &mut S, alloc: Global, name: &str, rest: &str) -> &'static str {
    let (limit, text) = first_number(rest);
    match store.read_all(alloc, name, limit) {
        Ok(bytes) => word_if(is_text(&bytes, text), "ok"),
        Err(ReadAllFault::TooLong { got }) => word_if(got == first_number(text).0, "long"),
        Err(ReadAllFault::Failed) => "failed",
        Err(ReadAllFault::NoMemory) => "memory",
    }
}

/// Writes a new file.
fn write_new<S: Store>(
    store: &mut S,
    alloc: Global,
    name: &str,
    text: &str,
    readers: Readers,
) -> &'static str {
    match store.write_new(alloc, name, text.as_bytes(), readers) {
        Ok(()) => "ok",
        Err(fault) => new_word(fault),
    }
}

/// Writes bytes at a place, and makes them stable.
fn write_stable<D: Disk>(disk: &mut D, at: u64, bytes: &[u8]) -> Result<(), DiskFault>
    ensures told { D.told disk.new ≡ D.told disk.old }
    ensures honest { D.honest disk.new ≡ D.honest disk.old }
    ensures steady { D.steady disk.new ≡ D.steady disk.old }
{
    disk.write_at(at, bytes)?;
    disk.sync()
}

/// Takes a disk, writes a text at a place on it and makes it stable, and gives the disk back.
fn write<S: Store>(store: &mut S, name: &str, rest: &str) -> &'static str {
    let (at, text) = first_number(rest);
    match store.take_disk(name) {
        Ok(mut disk) => {
            let written = write_stable(&mut disk, at, text.as_bytes());
            store.return_disk(name, disk);
            word(written)
        }
        Err(fault) => call_word(fault),
    }
}

/// Makes a disk with room for just a text, writes it and makes it stable, and gives the disk back.
fn make<S: Store>(store: &mut S, alloc: Global, name: &str, text: &str) -> &'static str {
    match store.new_disk(alloc, name, text.len(), Readers::OwnerAlone) {
        Ok(mut disk) => {
            let written = write_stable(&mut disk, 0, text.as_bytes());
            store.return_disk(name, disk);
            word(written)
        }
        Err(fault) => new_word(fault),
    }
}

/// What comes of reading pages from their beginning on, and of asking for their length, which stands before the text.
fn shows<P: Pages>(pages: &mut P, rest: &str) -> &'static str {
    let (number, text) = first_number(rest);
    match read(pages, 0, text) {
        "ok" => length(pages, number),
        word => word,
    }
}

/// Looks at a view, and gives it back.
fn look<S: Store>(store: &mut S, alloc: Global, name: &str, rest: &str) -> &'static str {
    match store.view(alloc, name) {
        Ok(mut view) => {
            let shown = shows(&mut view, rest);
            store.end_view(view);
            shown
        }
        Err(fault) => call_word(fault),
    }
}

/// What comes of a call that makes a name or writes to it, in a word.
fn written<S: Store>(
    store: &mut S,
    alloc: Global,
    letter: u8,
    name: &str,
    text: &str,
) -> &'static str {
    match letter {
        b'n' => write_new(store, alloc, name, text, Readers::Anyone),
        b's' => write_new(store, alloc, name, text, Readers::OwnerAlone),
        b'm' => make(store, alloc, name, text),
        _ => write(store, name, text),
    }
}

/// What comes of a call of a store, in a word. Its step has the name of the call and the name of the file: `has a`,
/// `read a 5 first` with a limit, `new a first`, `secret a first`, `write d 5 last` at a place of a disk,
/// `make n first` of a disk, and `look d 5 fir`, which compares the beginning and the length. `faults 2` and `disks 1`
/// compare the counts of faults of the store, and of the disks and views that came back to it.
fn outcome<S: Store>(store: &mut S, alloc: Global, step: &str) -> &'static str {
    let (call, rest) = first_word(step);
    let (name, text) = first_word(rest);
    match initial(call) {
        b'h' => has(store, name),
        b'r' => read_all(store, alloc, name, text),
        b'l' => look(store, alloc, name, text),
        b'f' => word_if(store.faults() == first_number(rest).0, "ok"),
        b'd' => word_if(store.disk_faults() == first_number(rest).0, "ok"),
        letter => written(store, alloc, letter, name, text),
    }
}

/// Does the calls of a script on a store, each after the word that it has to come to, as `exists new a first`. Returns
/// the first that comes to another one, or nothing.
pub(crate) fn stores<S: Store>(store: &mut S, alloc: Global, script: &'static str) -> &'static str {
    for step in script.split("; ") {
        let (want, call) = first_word(step);
        if outcome(store, alloc, call) != want {
            return step;
        }
    }
    ""
}
