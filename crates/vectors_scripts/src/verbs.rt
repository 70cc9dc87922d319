//! The verbs of scripts. An unknown verb is noticed, and so is a word that is missing or not understood.
//!
//! - `file NAME PART..` keeps a file that is made of parts under a name; `keep NAME..` keeps files of the store, and
//!   `clear NAME..` keeps nothing under these names. If a line names a file, it is one that was kept, or else one of
//!   the store, or else one that was there from the start, which is then kept.
//! - `disks NAME..` makes disks of files; `synced NAME..`, `unsynced NAME..` and `torn NAME..` make them of what a
//!   crash leaves of the store's disks: the bytes as at the last sync, as a read gives them, or some of what was
//!   written since. `store` makes the store of these disks. `disks NAME!CALL` and `store !CALL` make a call fail, and
//!   `disks NAME!!CALL` makes that call and all after it fail.
//! - `views CALL` makes that call fail in each view, and `stop CALL` makes new disks stop there.
//! - `port` begins a port of the next run; `wait FILE PIECES` and `dial PLACE=FILE..` give it links that wait and links
//!   that can be dialled, of which `FILE!CALL` makes a call fail, and `deaf CALL` makes a call of the port fail.
//!   `room ROOM MOST LINE` says for how many bytes links have room, how many one write takes, and how many a command
//!   may print.
//! - `run WORDS` runs a command over the store and the net, and `reply PLACE WORDS` runs one that is sent what was
//!   asked at a place, and keeps what it answers under that name. These two are the program's.
//! - `like NAME FILE`, `asked PLACE FILE` and `answered PORT FILE` print how a file of the store, what was asked, or
//!   what was answered on the first link of a port, or on link LINK of `PORT.LINK`, compares with a file; `clients`
//!   prints what was answered on each link, `counts TABLE` how many leaves are leased and burnt, `show NAME..` and
//!   `there NAME..` files of the store. `signature NAME` puts the signature that was answered into the store, and
//!   `hush` forgets what was printed.

use crate::answers::{add_signature, tell_clients};
use crate::files::{add_disk, crash_disk, keep, make_file, make_store};
use crate::links::{add_port, deafen, dial, wait};
use crate::prints::{compare, tell_counts, tell_file, tell_there};
use crate::world::World;
use std::alloc::AllocError;

/// Sets the room of links, the most that a write takes, and the room for what a command prints.
fn set_rooms(world: &mut World, rest: &str) {
    let mut words = rest.split_whitespace();
    let room = world.number(words.next().unwrap_or_default());
    let most = world.number(words.next().unwrap_or_default());
    let line = world.number(words.next().unwrap_or_default());
    world.rooms = (room, most, line);
}

/// Keeps a file with nothing in it.
fn clear(world: &mut World, name: &str) -> Result<(), AllocError> {
    let nothing = Vec::new(world.alloc);
    world.put(name, nothing)
}

/// Does a line whose verb takes one word, with that word.
fn do_word(world: &mut World, verb: &str, word: &str) -> Result<(), AllocError> {
    match verb {
        "disks" => add_disk(world, word),
        "synced" => crash_disk(world, 0, word),
        "unsynced" => crash_disk(world, 1, word),
        "torn" => crash_disk(world, 5, word),
        "dial" => dial(world, word),
        "keep" => keep(world, word),
        "clear" => clear(world, word),
        "show" => tell_file(world, word),
        "there" => tell_there(world, word),
        _ => {
            world.wrong = true;
            Ok(())
        }
    }
}

/// Does a line whose verb takes any number of words, with each of them.
fn do_words(world: &mut World, verb: &str, words: &str) -> Result<(), AllocError> {
    if words.is_empty() {
        world.wrong = true;
    }
    for word in words.split_whitespace() {
        do_word(world, verb, word)?;
    }
    Ok(())
}

/// Does a line that sets a number or forgets something.
fn set(world: &mut World, verb: &str, rest: &str) -> Result<(), AllocError> {
    match verb {
        "room" => set_rooms(world, rest),
        "views" => {
            let call = world.number(rest) as u64;
            world.store.fail_views(call)
        }
        "stop" => {
            let call = world.number(rest) as u64;
            world.store.stop_new_disks(call)
        }
        "hush" => world.page.clear(),
        "turns" => world.end_turns(),
        _ => return do_words(world, verb, rest),
    }
    Ok(())
}

/// Does a line that prints.
fn tell(world: &mut World, verb: &str, rest: &str) -> Result<(), AllocError> {
    match verb {
        "like" | "asked" | "answered" => compare(world, verb, rest),
        "clients" => tell_clients(world),
        "counts" => tell_counts(world, rest),
        "print" => world.print(),
        "turn" => {
            let call = world.number(rest);
            world.print_turn(call)
        }
        _ => set(world, verb, rest),
    }
}

/// Does a line whose verb is none of those that run a command.
pub(crate) fn do_verb(world: &mut World, verb: &str, rest: &str) -> Result<(), AllocError> {
    match verb {
        "file" => make_file(world, rest),
        "store" => make_store(world, rest),
        "port" => add_port(world),
        "wait" => wait(world, rest),
        "deaf" => deafen(world, rest),
        "signature" => add_signature(world, rest),
        _ => tell(world, verb, rest),
    }
}
