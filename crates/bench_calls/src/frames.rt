//! Reads an ask with a message of 16 MiB from memory, or takes the two hashes of such a message at once, a number of
//! times, and prints the exclusive or of the first bytes. `bench/frames` times both.

use crate::hashing::first_byte;
use crate::{refuse, word_and_number};
use lms_bytes::{IdHash, Params, Val};
use ots_chain::MessageHash;
use round_frames::next_ask;
use std::alloc::{AllocError, Global};
use std::io;
use stream_memory::MemSource;

/// The words after the first.
const WORDS: &str = "read or hash, and how often";

/// The length of the message, 16 MiB.
const MESSAGE: usize = 16_777_216;

/// The header of a frame of kind 2. Zeros follow it in place of the ask's head.
const HEADER: [u8; 8] = [0x54, 0x4C, 1, 2, 1, 0, 0, 84];

/// The frame of an ask whose message is all zeros.
fn frame(alloc: Global) -> Result<Vec<u8>, AllocError> {
    let mut bytes = Vec::from_slice(alloc, &HEADER)?;
    bytes.resize(92 + MESSAGE, 0)?;
    Ok(bytes)
}

/// The first bytes of both hashes, by reading the frame.
fn read(alloc: Global, params: &Params, bytes: Vec<u8>) -> u8 {
    let mut source = MemSource::new(bytes, Vec::new(alloc), Vec::new(alloc));
    let Ok(ask) = next_ask(params, &mut source) else {
        return 0;
    };
    let digest = match &ask.second {
        Some(second) => first_byte(second.digest.bytes()),
        None => 0,
    };
    first_byte(&ask.message.hash) ^ digest
}

/// The first bytes of both hashes, by hashing the message at once.
fn hash(params: &Params, bytes: &[u8]) -> u8 {
    let (_, message) = bytes.split_at(92.min(bytes.len()));
    let mut id = IdHash::new();
    let c = [0; 32];
    let mut digest = MessageHash::new(params, &[0; 16], 0, &Val::of(&c[..params.n as usize]));
    if message.len() < 1 << 31 {
        id.update(message);
    }
    digest.update(message);
    first_byte(&id.finish().hash) ^ first_byte(digest.finish().bytes())
}

/// The first bytes of both hashes of a new frame, in one of the two ways.
fn read_or_hash(alloc: Global, params: &Params, way: &str) -> Result<u8, AllocError> {
    let bytes = frame(alloc)?;
    if way == "read" {
        Ok(read(alloc, params, bytes))
    } else {
        Ok(hash(params, &bytes))
    }
}

/// Reads or hashes `times` times.
fn repeat(alloc: Global, params: &Params, way: &str, times: u32) -> Result<u8, AllocError> {
    let mut all = 0;
    for _ in 0..times {
        all ^= read_or_hash(alloc, params, way)?;
    }
    Ok(all)
}

/// Reads or hashes `times` times, and gives the status.
fn run_way(rt: HostRuntime, params: &Params, way: &str, times: u32) -> io::Result<u8> {
    let all = repeat(rt.alloc(), params, way, times)?;
    println!(rt; "{times} messages: {all}")?;
    Ok(0)
}

/// Reads or hashes as the words say, and gives the status.
pub(crate) fn run(rt: HostRuntime, words: &[String]) -> io::Result<u8> {
    match (word_and_number(words), Params::of_codes(5, 3)) {
        (Some((way, times)), Ok(params)) => run_way(rt, &params, way, times),
        _ => refuse(rt, WORDS),
    }
}
