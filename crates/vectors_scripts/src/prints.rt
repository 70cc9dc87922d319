//! What is printed of files and of what went over links.

use crate::links::{TALKS, asked};
use crate::scene::file;
use crate::world::World;
use sha2::{Digest, Sha256};
use std::alloc::AllocError;
use std::fmt::Write;
use stream_io::Readers;
use stream_memory::{KeptPort, MemStore};

/// How many leaves the keys here have, and the bytes of a table's header and of each slot.
const LEAVES: usize = 32;

const BLOCK: usize = 128;

/// How these bytes compare with those that are wanted, in words with a colon before them.
fn likeness(got: &[u8], want: &[u8]) -> &'static str {
    if got.is_empty() {
        ": nothing"
    } else if got == want {
        ": as given"
    } else if want.starts_with(got) {
        ": a beginning"
    } else {
        ": other bytes"
    }
}

/// What was written to a link of a port, or nothing if there was no such link.
fn written(port: Option<&KeptPort>, index: usize) -> &[u8] {
    match port.and_then(|port| port.talk(index)) {
        Some(talk) => talk.written(),
        None => &[],
    }
}

/// What a line names: what was asked at a place, what was answered on a link of a port, or else a file of the store.
fn got<'a>(world: &'a World, verb: &str, name: &str) -> &'a [u8] {
    match verb {
        "asked" => asked(world.net.kept(0), name),
        "answered" => {
            let (port, index) = name.split_once('.').unwrap_or((name, "0"));
            let port = world.net.kept(port.parse().unwrap_or(TALKS));
            written(port, index.parse().unwrap_or(TALKS))
        }
        _ => file(&world.store, name),
    }
}

/// Prints how bytes compare with a file.
pub(crate) fn compare(world: &mut World, verb: &str, rest: &str) -> Result<(), AllocError> {
    let (name, want) = rest.split_once(' ').unwrap_or((rest, ""));
    world.load(want)?;
    let likeness = likeness(got(world, verb, name), world.bytes(want));
    let name = if verb == "like" { name } else { want };
    world.say(name, likeness)
}

/// Who may read a file of a store, in a word with a space before it.
fn reader(store: &MemStore, name: &str) -> &'static str {
    match store.readers(name) {
        Some(Readers::Anyone) => " anyone",
        Some(Readers::OwnerAlone) => " owner",
        None => "",
    }
}

/// Adds bytes in digits.
fn push_hex(page: &mut String, bytes: &[u8]) -> Result<(), AllocError> {
    for byte in bytes {
        write!(page, "{byte:02x}")?;
    }
    Ok(())
}

/// Adds the first 16 bytes in digits, and the SHA-256 of all.
fn push_digits(page: &mut String, bytes: &[u8]) -> Result<(), AllocError> {
    push_hex(page, bytes.get(..16).unwrap_or_default())?;
    page.push_str(" ")?;
    push_hex(page, &Sha256::digest(bytes))
}

/// Adds the line of a file: its name, its length, its first 16 bytes, its SHA-256, and a word after it.
fn push_line(page: &mut String, name: &str, bytes: &[u8], word: &str) -> Result<(), AllocError> {
    write!(page, "{name} {} ", bytes.len())?;
    push_digits(page, bytes)?;
    writeln!(page, "{word}")
}

/// Prints what a file of the store is, and who may read it.
pub(crate) fn tell_file(world: &mut World, name: &str) -> Result<(), AllocError> {
    let reader = reader(&world.store, name);
    match world.store.bytes(name) {
        Some(bytes) => push_line(&mut world.page, name, bytes, reader),
        None => world.say(name, " is not there"),
    }
}

/// Prints who may read a file of the store, if it is there.
pub(crate) fn tell_there(world: &mut World, name: &str) -> Result<(), AllocError> {
    if world.store.bytes(name).is_some() {
        let reader = reader(&world.store, name);
        world.say(name, reader)?;
    }
    Ok(())
}

/// How many slots of a table have this byte at this place.
fn slots_with(table: &[u8], place: u8, byte: u8) -> u32 {
    let mut count: u32 = 0;
    for slot in 1..=LEAVES {
        if table.get(BLOCK * slot + usize::from(place)) == Some(&byte) {
            count = count.saturating_add(1);
        }
    }
    count
}

/// Prints how many leaves of a table are leased and burnt.
pub(crate) fn tell_counts(world: &mut World, name: &str) -> Result<(), AllocError> {
    let table = file(&world.store, name);
    let leased = slots_with(table, 0, 0xb1);
    let burnt = slots_with(table, 40, 0xc2);
    writeln!(world.page, "{name}: {leased} leased, {burnt} burnt")
}
