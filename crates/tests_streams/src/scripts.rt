//! Scripts: the steps of a test as text, each with the word that it has to come to, the name of a call, of which the
//! first letter counts, and what the call is given.

pub(crate) mod disk_calls;
pub(crate) mod link_calls;
pub(crate) mod port_calls;
pub(crate) mod store_calls;

use std::process::Abort;

/// Stops the test, and says what went wrong in which row, unless nothing did.
pub(crate) fn none_wrong(rt: &impl Abort, wrong: &str, row: &str) {
    assert!(rt; wrong.is_empty(), "{wrong} of {row}");
}

/// The first word of a text, and what follows it.
pub(crate) fn first_word(text: &str) -> (&str, &str) {
    text.split_once(' ').unwrap_or((text, ""))
}

/// The number with which a text begins, and what follows it.
pub(crate) fn first_number(text: &str) -> (u64, &str) {
    let (number, rest) = first_word(text);
    (number.parse().unwrap_or(0), rest)
}

/// The first letter of a text, or 0.
pub(crate) fn initial(text: &str) -> u8 {
    match text.as_bytes().first() {
        Some(letter) => *letter,
        None => 0,
    }
}

/// A word if something holds.
pub(crate) fn word_if(holds: bool, word: &'static str) -> &'static str {
    if holds { word } else { "other" }
}

/// Whether these bytes are a text.
pub(crate) fn is_text(bytes: &[u8], text: &str) -> bool {
    bytes == text.as_bytes()
}

/// Whether the first `count` bytes of a room are a text.
pub(crate) fn begins(room: &[u8], count: usize, text: &str) -> bool {
    match room.get(..count) {
        Some(bytes) => is_text(bytes, text),
        None => false,
    }
}
