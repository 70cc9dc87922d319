//! Reads frames from tables with a row for each reading: the typecodes, the reader, the bytes, and what was read. One
//! table is another implementation's, one has headers by hand: other kinds, and lengths at their limits. Each row is
//! read twice, from one piece and from pieces of one byte. It prints the number of each row that was read otherwise,
//! and how many rows were not. Then it reads a long message in pieces.
mod reading;

use lms_bytes::Params;
use reading::Reading;
use std::alloc::Global;
use std::{fs, io};
use stream_memory::MemSource;

/// A row of the table.
#[derive(Clone, Copy)]
struct Row<'a> {
    params: Params,
    reader: &'a str,
    bytes: &'a str,
    want: &'a str,
}

/// The parameter set of these typecodes. Anything that is no number is no typecode.
fn params_of(lms: &str, ots: &str) -> Option<Params> {
    Params::of_codes(lms.parse().unwrap_or(0), ots.parse().unwrap_or(0)).ok()
}

/// A cell of a line; the last one is everything after the fourth tab. It is empty if the line has none: no number and
/// no reading is empty.
fn cell(line: &str, index: usize) -> &str {
    line.splitn(5, '\t').nth(index).unwrap_or("")
}

/// A line as a row.
fn row_of(line: &str) -> Option<Row<'_>> {
    let params = params_of(cell(line, 0), cell(line, 1))?;
    Some(Row {
        params,
        reader: cell(line, 2),
        bytes: cell(line, 3),
        want: cell(line, 4),
    })
}

/// What is read of these bytes in these pieces. Every reading is a call of this function, since it is each call over a
/// source of this very type that costs a proof.
fn read(
    alloc: Global,
    params: &Params,
    reader: &str,
    bytes: Vec<u8>,
    pieces: Vec<usize>,
) -> Reading {
    let mut reading = Reading::new(alloc, bytes.len());
    let mut source = MemSource::new(bytes, pieces, Vec::new(alloc));
    reading.read(params, reader, &mut source);
    reading
}

/// Whether the row's bytes, in these pieces, are read as the row says.
fn agrees(alloc: Global, row: &Row, pieces: Vec<usize>) -> bool {
    let digits = if row.bytes == "-" { "" } else { row.bytes };
    match hex::decode(alloc, digits) {
        Ok(bytes) => read(alloc, &row.params, row.reader, bytes, pieces).text() == row.want,
        Err(_) => false,
    }
}

/// Whether the row's bytes are read as the row says byte by byte.
fn agrees_bytewise(alloc: Global, row: &Row) -> bool {
    match vec![in alloc; 1; row.bytes.len()] {
        Ok(pieces) => agrees(alloc, row, pieces),
        Err(_) => false,
    }
}

/// Whether a line's bytes are read as it says, from one piece and from pieces of one byte.
fn line_agrees(alloc: Global, line: &str) -> bool {
    match row_of(line) {
        Some(row) => agrees(alloc, &row, Vec::new(alloc)) && agrees_bytewise(alloc, &row),
        None => false,
    }
}

/// A message of 1,048,576 zero bytes by its id: its length, and its SHA-256 by another program.
const LONG_ID: &str = "0010000030e14955ebf1352266dc2ff8067e68104607e750abb9d3b36582b8af909fcb58";

/// An ask of round two for that message, whose key, leaf, randomizer and tag are zero.
fn long_ask(alloc: Global) -> Option<Vec<u8>> {
    let mut bytes = Vec::from_slice(alloc, &[b'T', b'L', 1, 2, 0, 0x10, 0, 0x54]).ok()?;
    bytes.resize(8 + 84 + 1_048_576, 0).ok()?;
    Some(bytes)
}

/// Pieces of 1, 63, 64 and 65 bytes in turn, for all of it.
fn long_pieces(alloc: Global) -> Option<Vec<usize>> {
    let mut pieces = Vec::new(alloc);
    for _ in 0..6_000 {
        pieces.extend_from_slice(&[1, 63, 64, 65]).ok()?;
    }
    Some(pieces)
}

/// What is read of that ask in these pieces.
fn read_long(alloc: Global, params: &Params, pieces: Vec<usize>) -> Option<Reading> {
    Some(read(alloc, params, "ask", long_ask(alloc)?, pieces))
}

/// Whether two readings of that ask are alike, with its id.
fn are_alike(whole: &Reading, cut: &Reading) -> bool {
    whole.text() == cut.text() && whole.text().contains(LONG_ID)
}

/// Whether that ask is read from these pieces as it is from one, or nothing if memory ran out.
fn reads_alike(alloc: Global, params: &Params, pieces: Vec<usize>) -> Option<bool> {
    let whole = read_long(alloc, params, Vec::new(alloc))?;
    let cut = read_long(alloc, params, pieces)?;
    Some(are_alike(&whole, &cut))
}

/// Whether that ask is read alike from one piece and from many.
fn agrees_on_long(alloc: Global) -> Option<bool> {
    let params = Params::of_codes(5, 3).ok()?;
    reads_alike(alloc, &params, long_pieces(alloc)?)
}

/// Prints the number of a row that is read otherwise than it says.
fn print_row(rt: HostRuntime, name: &str, number: usize) -> io::Result<()> {
    println!(rt; "{name}: row {number} is read otherwise")
}

/// Prints the number of each row of a table that is read otherwise than it says, and counts the others.
fn print_rows(rt: HostRuntime, name: &str, table: &str) -> io::Result<u32> {
    let mut agreed: u32 = 0;
    for (number, line) in table.lines().enumerate().skip(1) {
        if line_agrees(rt.alloc(), line) {
            agreed = agreed.saturating_add(1);
        } else {
            print_row(rt, name, number)?;
        }
    }
    Ok(agreed)
}

/// Reads the rows of a table, and prints what came of it.
fn print_table(rt: HostRuntime, name: &str) -> io::Result<()> {
    let table = fs::read_to_string(&rt, name)?;
    let agreed = print_rows(rt, name, &table)?;
    println!(rt; "{name}: {agreed} rows are read as the table says")
}

/// Prints whether the long message is read alike in one piece and in many.
fn print_long(rt: HostRuntime) -> io::Result<()> {
    let long = agrees_on_long(rt.alloc()).unwrap_or(false);
    println!(rt; "a long message is read alike in one piece and in many: {long}")
}

/// Reads both tables and the long message, and prints what came of it.
pub(crate) fn print_runs(rt: HostRuntime) -> io::Result<()> {
    print_table(rt, "frames.tsv")?;
    print_table(rt, "limits.tsv")?;
    print_long(rt)
}
