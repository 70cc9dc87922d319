//! Verifies one signature many times, of one LMS key or of several levels, tells how many blocks of SHA-256 that takes
//! in, or hashes that many blocks. `bench/verify` times both.

use crate::hashing::hash_blocks;
use crate::refuse;
use hss_levels::{HssKey, HssVerdict, hss_verify, read_hss_key};
use lms_bytes::{Params, PublicKey, SigView, Val, digit, read_public, read_signature};
use lms_verify::{Verdict, verify};
use ots_chain::MessageHash;
use std::alloc::Global;
use std::io;
use stream_host::FileStore;
use stream_io::Store;

/// The words after the first.
const WORDS: &str = "verify, levels, blocks or hash, a name, and a number";

/// The longest file that is read, in bytes.
const LIMIT: u64 = 67_108_864;

/// A key, a message and its signature, as bytes.
#[derive(Drop)]
struct Signed {
    key: Vec<u8>,
    message: Vec<u8>,
    signature: Vec<u8>,
}

/// The bytes of a file, if it can be read.
fn bytes_of(
    alloc: Global,
    store: &mut FileStore<HostRuntime>,
    name: &str,
    end: &str,
) -> Option<Vec<u8>> {
    let name = format!(in alloc; "{name}.{end}").ok()?;
    store.read_all(alloc, name.as_str(), LIMIT).ok()
}

/// The files NAME.key, NAME.message and NAME.signature.
fn read_signed(alloc: Global, store: &mut FileStore<HostRuntime>, name: &str) -> Option<Signed> {
    Some(Signed {
        key: bytes_of(alloc, store, name, "key")?,
        message: bytes_of(alloc, store, name, "message")?,
        signature: bytes_of(alloc, store, name, "signature")?,
    })
}

/// Verifies `times` times, but at least once, and gives the result of the last time.
fn verify_often(key: &PublicKey, signed: &Signed, times: u32) -> Verdict {
    let mut verdict = verify(key, &signed.message, &signed.signature);
    for _ in 1..times {
        verdict = verify(key, &signed.message, &signed.signature);
    }
    verdict
}

/// How many blocks SHA-256 takes in for `length` bytes, with the padding.
fn blocks_of(length: usize) -> usize {
    length.saturating_add(9).div_ceil(64)
}

/// The digest of the message under the randomizer of its signature, if that has the length of a randomizer.
fn digest_of(key: &PublicKey, message: &[u8], view: &SigView) -> Option<Val> {
    if view.c.len() != key.params.n as usize || (view.c.len() != 24 && view.c.len() != 32) {
        return None;
    }
    let c = Val::of(view.c);
    Some(MessageHash::of(&key.params, &key.id, view.leaf, &c, message))
}

/// How many steps of the chains are left from these digits.
fn steps_left(params: &Params, digest: &Val) -> usize {
    let last: usize = if params.w == 8 {
        255
    } else {
        (1 << params.w) - 1
    };
    let mut steps: usize = 0;
    for i in 0..params.p {
        if digest.bytes().len() == params.n as usize {
            steps = steps.saturating_add(last.saturating_sub(digit(params, digest, i) as usize));
        }
    }
    steps
}

/// How many blocks a verification takes in: the message and the randomizer after 22 bytes, a block for each step that
/// is left in a chain, the ends of the chains, the leaf, and two nodes for each level, each after 22 bytes.
fn blocks(key: &PublicKey, signed: &Signed) -> Option<usize> {
    let params = &key.params;
    let view = read_signature(params, &signed.signature).ok()?;
    let digest = digest_of(key, &signed.message, &view)?;
    let n = params.n as usize;
    let levels = (params.h as usize).saturating_mul(blocks_of(22 + 2 * n));
    let ends = blocks_of(view.chains.len().saturating_add(22));
    let message = blocks_of(signed.message.len().saturating_add(22 + n));
    Some(
        steps_left(params, &digest)
            .saturating_add(message)
            .saturating_add(ends)
            .saturating_add(levels)
            .saturating_add(blocks_of(22 + n)),
    )
}

/// Says that a file of this name cannot be read, and gives the status for that.
fn unread(rt: HostRuntime, name: &str) -> io::Result<u8> {
    println!(rt; "{name} cannot be read")?;
    Ok(3)
}

/// Says that the key of this name is not a key, and gives the status for that.
fn no_key(rt: HostRuntime, name: &str) -> io::Result<u8> {
    println!(rt; "{name}.key is no key")?;
    Ok(4)
}

/// Says that a signature is not accepted, and gives the status for that.
fn not_accepted(rt: HostRuntime) -> io::Result<u8> {
    println!(rt; "not accepted")?;
    Ok(1)
}

/// Prints how many blocks a verification takes in, and gives the status.
fn print_blocks(rt: HostRuntime, count: usize) -> io::Result<u8> {
    println!(rt; "{count} blocks")?;
    Ok(0)
}

/// Prints the result of a verification, and gives the status.
fn print_verdict(rt: HostRuntime, verdict: Verdict) -> io::Result<u8> {
    let Verdict::Accepted { leaf } = verdict else {
        return not_accepted(rt);
    };
    println!(rt; "accepted leaf {leaf}")?;
    Ok(0)
}

/// Prints the result of a verification of several levels, and gives the status.
fn print_levels(rt: HostRuntime, verdict: HssVerdict) -> io::Result<u8> {
    let HssVerdict::Accepted { levels } = verdict else {
        return not_accepted(rt);
    };
    println!(rt; "accepted levels {levels}")?;
    Ok(0)
}

/// Verifies an HSS signature `times` times, but at least once, and gives the result of the last time.
fn verify_levels(key: &HssKey, signed: &Signed, times: u32) -> HssVerdict {
    let mut verdict = hss_verify(key, &signed.message, &signed.signature);
    for _ in 1..times {
        verdict = hss_verify(key, &signed.message, &signed.signature);
    }
    verdict
}

/// Verifies this signature `times` times, or tells how many blocks that takes in, and gives the status.
fn run_read(rt: HostRuntime, way: &str, name: &str, signed: &Signed, times: u32) -> io::Result<u8> {
    match read_public(&signed.key) {
        Ok(key) if way == "blocks" => print_blocks(rt, blocks(&key, signed).unwrap_or(0)),
        Ok(key) => print_verdict(rt, verify_often(&key, signed, times)),
        Err(_) => no_key(rt, name),
    }
}

/// Verifies this HSS signature `times` times, but at least once, and gives the status.
fn run_levels_read(rt: HostRuntime, name: &str, signed: &Signed, times: u32) -> io::Result<u8> {
    match read_hss_key(&signed.key) {
        Ok(key) => print_levels(rt, verify_levels(&key, signed, times)),
        Err(_) => no_key(rt, name),
    }
}

/// Verifies the signature of this name `times` times, or tells how many blocks that takes in, and gives the status.
fn run_signed(rt: HostRuntime, way: &str, name: &str, times: u32) -> io::Result<u8> {
    let mut store = FileStore::new(rt);
    match read_signed(rt.alloc(), &mut store, name) {
        Some(signed) => run_read(rt, way, name, &signed, times),
        None => unread(rt, name),
    }
}

/// Verifies the HSS signature of this name `times` times, but at least once, and gives the status.
fn run_levels(rt: HostRuntime, name: &str, times: u32) -> io::Result<u8> {
    let mut store = FileStore::new(rt);
    match read_signed(rt.alloc(), &mut store, name) {
        Some(signed) => run_levels_read(rt, name, &signed, times),
        None => unread(rt, name),
    }
}

/// Verifies, counts blocks or hashes, and gives the status.
pub(crate) fn run(rt: HostRuntime, words: &[String]) -> io::Result<u8> {
    let [way, name, number] = words else {
        return refuse(rt, WORDS);
    };
    let Ok(number) = number.parse::<u32>() else {
        return refuse(rt, WORDS);
    };
    if way.as_str() == "hash" {
        println!(rt; "{number} blocks: {}", hash_blocks(u64::from(number)))?;
        return Ok(0);
    }
    if way.as_str() == "levels" {
        return run_levels(rt, name.as_str(), number);
    }
    run_signed(rt, way.as_str(), name.as_str(), number)
}
