//! Computes chain masks under one key, with the plain call or with the keyed state, and prints the exclusive or of the
//! first bytes. `bench/masks` times both.

use crate::hashing::first_byte;
use crate::{refuse, word_and_number};
use lms_bytes::Params;
use mask_prf::{MacKey, chain_mask};
use std::io;

/// The words after the first.
const WORDS: &str = "keyed or plain, and a number of masks";

/// The trustee key of each mask.
const KEY: [u8; 32] = [0x4b; 32];

/// The id of the key whose masks these are.
const ID: [u8; 16] = [0x1d; 16];

/// The mask of a place, from a state made once for all places.
fn keyed(params: &Params, masks: u32) -> u8 {
    let key = MacKey::new(&KEY);
    let mut all = 0;
    for q in 0..masks {
        all ^= first_byte(key.chain_mask(params, &ID, q, 0, 0).bytes());
    }
    all
}

/// The mask of a place, from a key that is taken in anew for each place.
fn plain(params: &Params, masks: u32) -> u8 {
    let mut all = 0;
    for q in 0..masks {
        all ^= first_byte(chain_mask(&KEY, params, &ID, q, 0, 0).bytes());
    }
    all
}

/// Computes that many masks in one of the two ways.
fn repeat(params: &Params, way: &str, masks: u32) -> u8 {
    if way == "plain" {
        plain(params, masks)
    } else {
        keyed(params, masks)
    }
}

/// Computes that many masks, and gives the status.
fn run_way(rt: HostRuntime, params: &Params, way: &str, masks: u32) -> io::Result<u8> {
    let all = repeat(params, way, masks);
    println!(rt; "{masks} masks: {all}")?;
    Ok(0)
}

/// Computes masks as the words say, and gives the status.
pub(crate) fn run(rt: HostRuntime, words: &[String]) -> io::Result<u8> {
    match (word_and_number(words), Params::of_codes(5, 4)) {
        (Some((way, masks)), Ok(params)) => run_way(rt, &params, way, masks),
        _ => refuse(rt, WORDS),
    }
}
