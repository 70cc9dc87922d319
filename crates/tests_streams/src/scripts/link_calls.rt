//! Calls of a source, a sink or a link as steps of a script.

use crate::network::fake_sockets::{are_counted, count_up};
use crate::scripts::{begins, first_number, first_word, initial, word_if};
use stream_io::{Failed, Sink, Source, read_whole, write_whole};

/// The most bytes of a call.
const MOST: usize = 20_000;

/// What comes of reading once, with room for eight bytes: `ok` if it gives this text.
fn read<S: Source>(source: &mut S, text: &str) -> &'static str {
    let mut room = [0; 8];
    match source.read(&mut room) {
        Ok(count) => word_if(begins(&room, count, text), "ok"),
        Err(Failed) => "failed",
    }
}

/// The same of reading four bytes, or to the end.
fn read_four<S: Source>(source: &mut S, text: &str) -> &'static str {
    let mut room = [0; 4];
    match read_whole(source, &mut room) {
        Ok(count) => word_if(begins(&room, count, text), "ok"),
        Err(Failed) => "failed",
    }
}

/// What comes of reading once, given the room, a count and a place: `ok` if it gives that many bytes, which count up
/// from the place on.
fn take<S: Source>(source: &mut S, numbers: &str) -> &'static str {
    let (size, rest) = first_number(numbers);
    let (want, from) = first_number(rest);
    let mut bytes = [0; MOST];
    let room = &mut bytes[..MOST.min(size as usize)];
    match source.read(room) {
        Ok(count) => word_if(
            count as u64 == want && are_counted(room, count, first_number(from).0),
            "ok",
        ),
        Err(Failed) => "failed",
    }
}

/// Whether a write took this many bytes.
fn taken(written: Result<usize, Failed>, want: u64) -> &'static str {
    match written {
        Ok(count) => word_if(count as u64 == want, "ok"),
        Err(Failed) => "failed",
    }
}

/// Writes a number of bytes that count up from a place on, of which a second number has to be taken.
fn give<K: Sink>(sink: &mut K, numbers: &str) -> &'static str {
    let (size, rest) = first_number(numbers);
    let (want, from) = first_number(rest);
    let mut bytes = [0; MOST];
    let piece = &mut bytes[..MOST.min(size as usize)];
    count_up(piece, first_number(from).0);
    taken(sink.write(piece), want)
}

/// Writes all of a text.
fn send<K: Sink>(sink: &mut K, text: &str) -> &'static str {
    match write_whole(sink, text.as_bytes()) {
        Ok(()) => "ok",
        Err(Failed) => "failed",
    }
}

/// What comes of a call of a sink, in a word: `write 3 first`, of which three bytes are taken, `send st`, which is
/// taken whole, `give 9 8 100`, of nine bytes that count up from 100 on and of which eight are taken, and `count 2`,
/// which compares the count of faults.
fn said<K: Sink>(sink: &mut K, letter: u8, text: &str) -> &'static str {
    let (number, bytes) = first_number(text);
    match letter {
        b'w' => taken(sink.write(bytes.as_bytes()), number),
        b's' => send(sink, text),
        b'g' => give(sink, text),
        b'c' => word_if(sink.faults() == number, "ok"),
        _ => "unknown",
    }
}

/// What comes of a call of a link, in a word: one of a sink, `read he`, which reads once and compares, `exact all`,
/// which reads four bytes or to the end and compares, and `take 9 8 100`, which reads once with room for nine bytes,
/// and gets eight that count up from 100 on.
pub(crate) fn done<L: Source + Sink>(link: &mut L, letter: u8, text: &str) -> &'static str {
    match letter {
        b'r' => read(link, text),
        b'e' => read_four(link, text),
        b't' => take(link, text),
        _ => said(link, letter, text),
    }
}

/// What comes of a call of a sink, in a word, by its name and what it is given.
fn outcome<K: Sink>(sink: &mut K, call: &str) -> &'static str {
    let (name, text) = first_word(call);
    said(sink, initial(name), text)
}

/// Does the calls of a script on a sink, each after the word that it has to come to, as `failed send st`. Returns the
/// first that comes to another one, or nothing.
pub(crate) fn says<K: Sink>(sink: &mut K, script: &'static str) -> &'static str {
    for step in script.split("; ") {
        let (want, call) = first_word(step);
        if outcome(sink, call) != want {
            return step;
        }
    }
    ""
}
