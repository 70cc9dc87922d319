//! The answers that clients get.

use crate::links::TALKS;
use crate::scene::file;
use crate::world::World;
use std::alloc::AllocError;
use std::fmt::Write;
use stream_io::{Readers, Store};
use stream_memory::{KeptPort, MemNet, MemStore};

/// More frames than a client here is answered with.
const FRAMES: usize = 8;

/// More workers than a command here has.
const WORKERS: usize = 8;

/// The first frame of these bytes, if there is one: its kind, its payload, and what follows it.
fn first_frame(bytes: &[u8]) -> Option<(u8, &[u8], &[u8])> {
    let [b'T', b'L', 1, kind, a, b, c, d, left @ ..] = bytes else {
        return None;
    };
    let end = u32::from_be_bytes([*a, *b, *c, *d]) as usize;
    Some((*kind, left.get(..end)?, left.get(end..)?))
}

/// The answer to the client of this number at a port; the first client that was accepted there has the number 0.
fn answer_of(port: &KeptPort, client: usize) -> Option<&[u8]> {
    let mut before: usize = 0;
    for index in 0..TALKS {
        let talk = port.talk(index)?;
        if talk.place().is_none() {
            if before == client {
                return Some(talk.written());
            }
            before = before.saturating_add(1);
        }
    }
    None
}

/// The same, or nothing if there is no such client.
pub(crate) fn answered(port: Option<&KeptPort>, client: usize) -> &[u8] {
    port.and_then(|port| answer_of(port, client))
        .unwrap_or_default()
}

/// The leaf in the first four bytes, or the greatest number if there are fewer.
fn leaf_at(bytes: &[u8]) -> u32 {
    match bytes {
        [a, b, c, d, ..] => u32::from_be_bytes([*a, *b, *c, *d]),
        _ => u32::MAX,
    }
}

/// Adds the text of a signature: its leaf, and whether it is one of those that are given.
fn push_signature(page: &mut String, store: &MemStore, signature: &[u8]) -> Result<(), AllocError> {
    let given = [file(store, "signature"), file(store, "signature.24")];
    let likeness = if given.contains(&signature) {
        ", as given"
    } else {
        ""
    };
    let leaf = leaf_at(signature);
    write!(page, " signature of leaf {leaf}{likeness};")
}

/// Adds the text of a trustee's refusal, whose round and code are the bytes 89 and 90 if hashes have 32 bytes.
fn push_refusal(page: &mut String, payload: &[u8]) -> Result<(), AllocError> {
    match payload.get(89..91) {
        Some([round, code]) => write!(page, " refusal of round {round} by code {code};"),
        _ => page.push_str(" what is no refusal;"),
    }
}

/// Adds the text of an aggregator's failure: its status, the member and the round, and the four bytes of its leaf.
fn push_failure(page: &mut String, told: (u8, u8, u8), leaf: &[u8]) -> Result<(), AllocError> {
    let (status, member, round) = told;
    let leaf = leaf_at(leaf);
    write!(
        page,
        " failure {status} member {member} round {round} leaf {leaf};"
    )
}

/// Adds the text of an answer: a mask, masks or a refusal of a trustee; a signature or a failure of an aggregator.
fn push_answer(
    page: &mut String,
    store: &MemStore,
    kind: u8,
    payload: &[u8],
) -> Result<(), AllocError> {
    match (kind, payload) {
        (3, _) => page.push_str(" mask;"),
        (4, _) => page.push_str(" masks;"),
        (5, refusal) => push_refusal(page, refusal),
        (7, signature) => push_signature(page, store, signature),
        (8, [status, member, round, leaf @ ..]) if leaf.len() == 4 => {
            push_failure(page, (*status, *member, *round), leaf)
        }
        _ => page.push_str(" what is no answer;"),
    }
}

/// Adds the text of the answers to a client.
fn push_answers(page: &mut String, store: &MemStore, written: &[u8]) -> Result<(), AllocError> {
    let mut left = written;
    for _ in 0..FRAMES {
        let Some((kind, payload, rest)) = first_frame(left) else {
            break;
        };
        push_answer(page, store, kind, payload)?;
        left = rest;
    }
    if !left.is_empty() {
        write!(page, " {} bytes of an answer;", left.len())?;
    }
    page.push_str(if written.is_empty() {
        " nothing\n"
    } else {
        "\n"
    })
}

/// Adds a line for each client at the port of a worker.
fn push_clients(
    page: &mut String,
    store: &MemStore,
    net: &MemNet,
    worker: usize,
) -> Result<(), AllocError> {
    let Some(port) = net.kept(worker) else {
        return Ok(());
    };
    for client in 0..TALKS {
        if let Some(written) = answer_of(port, client) {
            write!(page, "client {client} of worker {worker}:")?;
            push_answers(page, store, written)?;
        }
    }
    Ok(())
}

/// Prints the answers to each client.
pub(crate) fn tell_clients(world: &mut World) -> Result<(), AllocError> {
    for worker in 0..WORKERS {
        push_clients(&mut world.page, &world.store, &world.net, worker)?;
    }
    Ok(())
}

/// Puts the signature in the answer to the first client into the store, under this name. If there is none, or it cannot
/// be written, the line is wrong.
pub(crate) fn add_signature(world: &mut World, name: &str) -> Result<(), AllocError> {
    let alloc = world.alloc;
    let written = match first_frame(answered(world.net.kept(0), 0)) {
        Some((7, signature, _)) => {
            let readers = Readers::Anyone;
            world
                .store
                .write_new(alloc, name, signature, readers)
                .is_ok()
        }
        _ => false,
    };
    world.wrong = !written;
    Ok(())
}
