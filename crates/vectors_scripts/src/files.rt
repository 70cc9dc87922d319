//! Files that are made of parts, and stores that are made of files.
//!
//! A part is the name of a file, or `NAME:FROM:TO` for the bytes between two places of it, `hex:DIGITS` for these
//! bytes, `add:BYTE` for one, `long:NUMBER` for a number of four bytes, the greatest first, or `count:LENGTH:MODULUS`
//! for LENGTH bytes that count up from 0 and begin again at the modulus. Others change what comes before them:
//! `cut:LENGTH` leaves LENGTH bytes, `set:PLACE:BYTE` puts a byte at a place, and `flip:PLACE` changes its lowest bit.

use crate::scene::held;
use crate::world::World;
use disk_trait::MemDisk;
use memory::NoMemory;
use std::alloc::{AllocError, Global};
use std::mem;
use stream_io::Store;
use stream_memory::MemStore;

/// The bytes between two places of a file, or all of them if no place is named.
fn part_of<'a>(world: &'a World, name: &str, from: &str, to: &str) -> Option<&'a [u8]> {
    let bytes = world.bytes(name);
    if from.is_empty() && to.is_empty() {
        return Some(bytes);
    }
    bytes.get(from.parse().ok()?..to.parse().ok()?)
}

/// Adds bytes of a file. If they are not there, the line is wrong.
fn add_file(
    world: &mut World,
    bytes: &mut Vec<u8>,
    name: &str,
    from: &str,
    to: &str,
) -> Result<(), AllocError> {
    world.load(name)?;
    match part_of(world, name, from, to) {
        Some(part) => bytes.extend_from_slice(part)?,
        None => world.wrong = true,
    }
    Ok(())
}

/// Adds bytes that count up from 0 and begin again at a modulus.
fn add_counted(bytes: &mut Vec<u8>, length: usize, modulus: usize) -> Result<(), AllocError> {
    for index in 0..length {
        bytes.push((index % modulus.clamp(1, 256)) as u8)?;
    }
    Ok(())
}

/// Adds the bytes of these digits. If they are no digits of bytes, the line is wrong.
fn add_hex(world: &mut World, bytes: &mut Vec<u8>, digits: &str) -> Result<(), AllocError> {
    match hex::decode(world.alloc, digits) {
        Ok(decoded) => bytes.extend_from_slice(&decoded)?,
        Err(_) => world.wrong = true,
    }
    Ok(())
}

/// Changes the byte at a place. If there is none, the line is wrong.
fn set_byte(world: &mut World, bytes: &mut Vec<u8>, place: usize, kept: u8, flipped: u8) {
    match bytes.get_mut(place) {
        Some(byte) => *byte = *byte & kept ^ flipped,
        None => world.wrong = true,
    }
}

/// The lowest byte of a number.
fn byte_of(number: usize) -> u8 {
    (number % 256) as u8
}

/// Adds bytes.
fn add_bytes(bytes: &mut Vec<u8>, added: &[u8]) -> Result<(), AllocError> {
    bytes.extend_from_slice(added)
}

/// Adds a number of four bytes, the greatest first.
fn add_long(bytes: &mut Vec<u8>, number: usize) -> Result<(), AllocError> {
    let number = (number % (1 << 32)) as u32;
    add_bytes(bytes, &number.to_be_bytes())
}

/// Adds a part that is not changed by those before it.
fn add(world: &mut World, bytes: &mut Vec<u8>, part: (&str, &str, &str)) -> Result<(), AllocError> {
    let (verb, first, second) = part;
    match verb {
        "add" => add_bytes(bytes, &[byte_of(world.number(first))]),
        "hex" => add_hex(world, bytes, first),
        "long" => add_long(bytes, world.number(first)),
        "count" => {
            let length = world.number(first);
            add_counted(bytes, length, world.number(second))
        }
        _ => add_file(world, bytes, verb, first, second),
    }
}

/// The first three words of a part, with nothing for each that it does not have.
fn words_of(part: &str) -> (&str, &str, &str) {
    let mut words = part.split(':');
    let verb = words.next().unwrap_or_default();
    let first = words.next().unwrap_or_default();
    (verb, first, words.next().unwrap_or_default())
}

/// Adds a part, or changes what is there.
fn add_part(world: &mut World, bytes: &mut Vec<u8>, part: &str) -> Result<(), AllocError> {
    let (verb, first, second) = words_of(part);
    match verb {
        "cut" => bytes.truncate(world.number(first)),
        "set" => {
            let place = world.number(first);
            let byte = byte_of(world.number(second));
            set_byte(world, bytes, place, 0, byte)
        }
        "flip" => {
            let place = world.number(first);
            set_byte(world, bytes, place, 255, 1)
        }
        _ => return add(world, bytes, (verb, first, second)),
    }
    Ok(())
}

/// Makes a file of parts.
pub(crate) fn make_file(world: &mut World, rest: &str) -> Result<(), AllocError> {
    let (name, parts) = rest.split_once(' ').unwrap_or((rest, ""));
    let mut bytes = Vec::new(world.alloc);
    for part in parts.split_whitespace() {
        add_part(world, &mut bytes, part)?;
    }
    world.put(name, bytes)
}

/// Keeps a file of the store. If it is not there, the line is wrong.
pub(crate) fn keep(world: &mut World, name: &str) -> Result<(), AllocError> {
    match world.store.bytes(name) {
        Some(bytes) => {
            let bytes = Vec::from_slice(world.alloc, bytes)?;
            world.put(name, bytes)
        }
        None => {
            world.wrong = true;
            Ok(())
        }
    }
}

/// A word without the number of a call that follows it, and that number.
pub(crate) fn with_call<'a>(world: &mut World, word: &'a str) -> (&'a str, Option<u64>) {
    match word.split_once('!') {
        Some((name, call)) => (name, Some(world.number(call) as u64)),
        None => (word, None),
    }
}

/// The calls that fail: one or none.
pub(crate) fn calls_of(alloc: Global, call: Option<u64>) -> Result<Vec<u64>, AllocError> {
    let mut calls = Vec::new(alloc);
    if let Some(call) = call {
        calls.push(call)?;
    }
    Ok(calls)
}

/// A disk of these bytes, with no room for more, whose call of that number fails, if there is one.
fn disk_of(alloc: Global, bytes: &[u8], call: Option<u64>) -> Result<MemDisk, NoMemory> {
    let mut disk = MemDisk::of_bytes(alloc, bytes, bytes.len(), usize::MAX)?;
    if let Some(call) = call {
        disk.fail_once(call);
    }
    Ok(disk)
}

/// Puts a disk into the store that is made next.
fn push_disk(world: &mut World, name: &str, disk: MemDisk) -> Result<(), AllocError> {
    let name = String::from_str(world.alloc, name)?;
    Ok(world.disks.push((name, disk))?)
}

/// Puts a disk that stops at a call into the store that is made next.
fn add_stopping(world: &mut World, name: &str, call: &str) -> Result<(), AllocError> {
    let call = world.number(call) as u64;
    world.load(name)?;
    let mut disk = held(disk_of(world.alloc, world.bytes(name), None))?;
    disk.stop_at(call);
    push_disk(world, name, disk)
}

/// Puts the disk of a file into the store that is made next.
pub(crate) fn add_disk(world: &mut World, word: &str) -> Result<(), AllocError> {
    if let Some((name, call)) = word.split_once("!!") {
        return add_stopping(world, name, call);
    }
    let (name, call) = with_call(world, word);
    world.load(name)?;
    let disk = held(disk_of(world.alloc, world.bytes(name), call))?;
    push_disk(world, name, disk)
}

/// Puts what a crash leaves of a disk of the store, if it is there, into the store that is made next.
pub(crate) fn crash_disk(world: &mut World, pick: u64, name: &str) -> Result<(), AllocError> {
    let Ok(disk) = world.store.take_disk(name) else {
        return Ok(());
    };
    match disk.into_disk().crash(world.alloc, pick) {
        Ok(image) => push_disk(world, name, image),
        Err(_) => Err(AllocError),
    }
}

/// Makes the store of the disks that were made for it.
pub(crate) fn make_store(world: &mut World, rest: &str) -> Result<(), AllocError> {
    let alloc = world.alloc;
    let (_, call) = with_call(world, rest);
    let calls = calls_of(alloc, call)?;
    let disks = mem::replace(&mut world.disks, Vec::new(alloc));
    world.store = held(MemStore::new(alloc, disks, calls))?;
    Ok(())
}
