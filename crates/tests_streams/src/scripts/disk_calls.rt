//! Calls of pages and of a disk as steps of a script.

use crate::scripts::{begins, first_number, first_word, initial, word_if};
use disk_trait::{Disk, DiskFault, Pages};

/// What comes of reading at most eight bytes from a place on, in a word: `ok` if they are this text.
pub(crate) fn read<P: Pages>(pages: &mut P, at: u64, text: &str) -> &'static str {
    let mut room = [0; 8];
    let count = text.len().min(8);
    match pages.read_at(at, &mut room[..count]) {
        Ok(()) => word_if(begins(&room, count, text), "ok"),
        Err(DiskFault) => "failed",
    }
}

/// What comes of asking for the length, in a word: `ok` if it is this.
pub(crate) fn length<P: Pages>(pages: &mut P, want: u64) -> &'static str {
    match pages.len() {
        Ok(found) => word_if(found == want, "ok"),
        Err(DiskFault) => "failed",
    }
}

/// The word for what came of writing to a disk.
pub(crate) fn word(done: Result<(), DiskFault>) -> &'static str {
    match done {
        Ok(()) => "ok",
        Err(DiskFault) => "failed",
    }
}

/// What comes of a call of a disk, in a word: `write 4 XYZ` writes at a place, `read 4 XYZ` compares what is there,
/// `length 7` and `faults 3` compare a number, and `sync` makes stable.
fn outcome<D: Disk>(disk: &mut D, step: &str) -> &'static str {
    let (call, rest) = first_word(step);
    let (number, text) = first_number(rest);
    match initial(call) {
        b'w' => word(disk.write_at(number, text.as_bytes())),
        b'r' => read(disk, number, text),
        b's' => word(disk.sync()),
        b'l' => length(disk, number),
        b'f' => word_if(disk.faults() == number, "ok"),
        _ => "unknown",
    }
}

/// Does the calls of a script on a disk, each after the word that it has to come to, as `failed read 4 XYZ`. Returns
/// the first that comes to another one, or nothing.
pub(crate) fn plays<D: Disk>(disk: &mut D, script: &'static str) -> &'static str {
    for step in script.split("; ") {
        let (want, call) = first_word(step);
        if outcome(disk, call) != want {
            return step;
        }
    }
    ""
}
