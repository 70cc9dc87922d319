//! Builds leaves of a reference, or hashes as many blocks as they take, and prints the exclusive or of some bytes.
//! `bench/leaves` times both.

use crate::hashing::{hash_blocks, last_byte};
use crate::{refuse, word_and_number};
use coalition_map::Plan;
use lms_bytes::{Params, Val};
use reference_value::{build_leaf, leaf_bytes};
use std::alloc::{AllocError, Global};
use std::io;

/// The words after the first.
const WORDS: &str = "build or hash, and a number of leaves";

/// The identifier, the seed, the key of the randomizers and the keys of five trustees.
const ID: [u8; 16] = [0x1d; 16];

const SEED: [u8; 32] = [0x5e; 32];

const RANDOM_KEY: [u8; 32] = [0x4b; 32];

const KEYS: [[u8; 32]; 5] = [[1; 32], [2; 32], [3; 32], [4; 32], [5; 32]];

/// How many blocks SHA-256 takes in for a leaf of these parameters and three members: for each chain its secret and 15
/// steps; for each of its 16 values and each member two blocks; for the leaf's public value 34, over the ends of its
/// chains; and for the randomizer, the masks of it and the tags, with the blocks of each key.
const BLOCKS: u32 = 67 * 16 + 67 * 16 * 3 * 2 + 34 + 4 + 3 * (2 + 2 + 2);

/// Builds that many leaves, each into the same bytes.
fn build(params: &Params, plan: &Plan, leaves: u32, out: &mut [u8]) -> u8 {
    if plan.h() != params.h || plan.n() != 5 || out.len() != leaf_bytes(params, plan.k()) {
        return 0;
    }
    let seed = Val::of(&SEED);
    if seed.bytes().len() != params.n as usize {
        return 0;
    }
    let mut all = 0;
    for count in 0..leaves {
        let q = count % params.leaves();
        let leaf_key = build_leaf(params, &ID, plan, q, &seed, &RANDOM_KEY, &KEYS, out);
        all ^= last_byte(out) ^ last_byte(leaf_key.bytes());
    }
    all
}

/// Builds that many leaves, or hashes as many blocks as they take.
fn repeat(
    alloc: Global,
    params: &Params,
    plan: &Plan,
    way: &str,
    leaves: u32,
) -> Result<u8, AllocError> {
    if way == "hash" {
        return Ok(hash_blocks(u64::from(leaves) * u64::from(BLOCKS)));
    }
    let mut out = vec![in alloc; 0; leaf_bytes(params, plan.k())]?;
    Ok(build(params, plan, leaves, &mut out))
}

/// Builds that many leaves, or hashes as many blocks as they take, and gives the status.
fn run_way(
    rt: HostRuntime,
    params: &Params,
    plan: &Plan,
    way: &str,
    leaves: u32,
) -> io::Result<u8> {
    let all = repeat(rt.alloc(), params, plan, way, leaves)?;
    println!(rt; "{leaves} leaves: {all}")?;
    Ok(0)
}

/// Builds leaves or hashes blocks, for coalitions of three of five trustees, and gives the status.
fn run_set(rt: HostRuntime, params: &Params, way: &str, leaves: u32) -> io::Result<u8> {
    match Plan::new(5, 3, params.h) {
        Ok(plan) => run_way(rt, params, &plan, way, leaves),
        Err(_) => refuse(rt, WORDS),
    }
}

/// Builds leaves or hashes blocks as the words say, and gives the status.
pub(crate) fn run(rt: HostRuntime, words: &[String]) -> io::Result<u8> {
    match (word_and_number(words), Params::of_codes(6, 3)) {
        (Some((way, leaves)), Ok(params)) => run_set(rt, &params, way, leaves),
        _ => refuse(rt, WORDS),
    }
}
