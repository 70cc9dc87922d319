//! How a script is read. A line that is not empty and does not begin with `#` is a verb and what it is about. A script
//! has parts with an empty line between each two. What a part's lines print is printed after it. A line `each COUNT`
//! has the lines after it done that many times, and prints what they print if it differs from the time before, with the
//! number, which replaces `%0%` in these lines. A line `each FILE` has them done for each line of a file, whose words
//! replace `%0%`, `%1%` and so on.

use crate::world::World;
use std::alloc::{AllocError, Global};

/// Lines that are done one after the other.
type Lines = Vec<String>;

/// The text of a file.
fn text_of(world: &mut World, name: &str) -> Result<String, AllocError> {
    world.load(name)?;
    String::from_utf8_lossy(world.alloc, world.bytes(name))
}

/// The word of this number of a row, which begins with the word 0.
fn word_of<'a>(row: &'a str, number: &str) -> &'a str {
    let number = number.parse().unwrap_or(0);
    row.split_whitespace().nth(number).unwrap_or_default()
}

/// A line in which the words of a row replace their numbers.
fn filled(alloc: Global, line: &str, row: &str) -> Result<String, AllocError> {
    let mut text = String::new(alloc);
    for (index, piece) in line.split('%').enumerate() {
        let piece = if index % 2 == 0 {
            piece
        } else {
            word_of(row, piece)
        };
        text.push_str(piece)?;
    }
    Ok(text)
}

/// Adds these lines with the words of a row, except those that say nothing.
fn add_lines(alloc: Global, all: &mut Lines, lines: &str, row: &str) -> Result<(), AllocError> {
    for line in lines.lines() {
        if !line.is_empty() && !line.starts_with('#') {
            all.push(filled(alloc, line, row)?)?;
        }
    }
    Ok(())
}

/// Adds lines with the words of a row, and what prints them.
fn add_printed(alloc: Global, all: &mut Lines, lines: &str, row: &str) -> Result<(), AllocError> {
    add_lines(alloc, all, lines, row)?;
    add_lines(alloc, all, "print", "")
}

/// Adds lines for the turn of this number, with what prints them if they print something else than the time before.
fn add_call(alloc: Global, all: &mut Lines, call: usize, lines: &str) -> Result<(), AllocError> {
    let row = format!(in alloc; "{call}")?;
    add_lines(alloc, all, lines, &row)?;
    add_lines(alloc, all, "turn %0%", &row)
}

/// Adds lines `count` times.
fn add_calls(alloc: Global, all: &mut Lines, count: usize, lines: &str) -> Result<(), AllocError> {
    for call in 0..count {
        add_call(alloc, all, call, lines)?;
    }
    add_lines(alloc, all, "turns", "")
}

/// Adds lines for each row of a file.
fn add_rows(alloc: Global, all: &mut Lines, rows: &str, lines: &str) -> Result<(), AllocError> {
    for row in rows.lines() {
        add_printed(alloc, all, lines, row)?;
    }
    Ok(())
}

/// Adds the lines after the first one, which says how often they are done, or names a file with rows.
fn add_turns(world: &mut World, all: &mut Lines, turns: &str) -> Result<(), AllocError> {
    let (head, lines) = turns.split_once('\n').unwrap_or((turns, ""));
    match head.parse() {
        Ok(count) => add_calls(world.alloc, all, count, lines),
        Err(_) => {
            let rows = text_of(world, head)?;
            add_rows(world.alloc, all, &rows, lines)
        }
    }
}

/// Adds the lines of a part.
fn add_part(world: &mut World, all: &mut Lines, part: &str) -> Result<(), AllocError> {
    let (lines, turns) = part.split_once("\neach ").unwrap_or((part, "0"));
    add_printed(world.alloc, all, lines, "")?;
    add_turns(world, all, turns)
}

/// The lines of the script of this name, which is one of the world's files, in the order in which they are done.
pub(crate) fn lines_of(world: &mut World, name: &str) -> Result<Vec<String>, AllocError> {
    let parts = text_of(world, name)?;
    let mut all = Vec::new(world.alloc);
    for part in parts.split("\n\n") {
        add_part(world, &mut all, part)?;
    }
    Ok(all)
}
