//! Runs for which the premises of laws hold together. Each is the witness of a law, and a line tells whether it is one.
//! They run over files that a script made.

mod steady;

use laws_signing::witness::{Peer, lost_steadily, served_steadily, well_signed};
use memory::NoMemory;
use std::alloc::{AllocError, Global};
use std::io;
use std::sync::Wait;
use std::thread::Threads;
use steady::ran_steadily;
use stream_memory::MemStore;
use tool_words::{Command, SignWords, TrusteeWords, command_of};
use turn_lock::TurnsOnly;
use vectors_scripts::{Files, file, made, push_file, words_of};

/// The words of `trustee` here.
const TRUSTEE: &str = "trustee share1 new here 1 1";

/// The words of `sign` here.
const SIGN: &str = "sign A table message out 1=one 2=two 3=three";

/// The files that `trustee` reads.
const TRUSTEE_FILES: &[&str] = &["share1", "new"];

/// The files that `sign` reads.
const SIGN_FILES: &[&str] = &["A.pub", "A.tree", "A.ref", "message", "table"];

/// These files of a store.
fn files_of(alloc: Global, store: &MemStore, names: &[&str]) -> Result<Files, AllocError> {
    let mut files = Vec::new(alloc);
    for name in names {
        let bytes = Vec::from_slice(alloc, file(store, name))?;
        push_file(alloc, &mut files, name, bytes)?;
    }
    Ok(files)
}

/// Runs a trustee of these words on both asks of a session.
fn serve<R: Threads + Wait + Sync>(
    threads: &R,
    alloc: Global,
    store: &MemStore,
    words: &TrusteeWords,
) -> Result<bool, NoMemory> {
    let files = files_of(alloc, store, TRUSTEE_FILES)?;
    let turns = TurnsOnly::of(threads);
    served_steadily(&turns, alloc, words, files, file(store, "asks"))
}

/// Runs a trustee on both asks of a session, over a journal with no entry.
fn served<R: Threads + Wait + Sync>(
    threads: &R,
    alloc: Global,
    store: &MemStore,
) -> Result<bool, NoMemory> {
    let words = words_of(alloc, TRUSTEE)?;
    match command_of(alloc, words.as_slice()) {
        Some(Command::Trustee(words)) => serve(threads, alloc, store, &words),
        _ => Ok(false),
    }
}

/// Runs a trustee whose net offers its place, over a journal with no entry.
fn ran<R: Threads + Wait + Sync>(
    threads: &R,
    alloc: Global,
    store: &MemStore,
) -> Result<bool, NoMemory> {
    let words = words_of(alloc, TRUSTEE)?;
    let files = files_of(alloc, store, TRUSTEE_FILES)?;
    let places = words_of(alloc, "here")?;
    ran_steadily(threads, alloc, words.as_slice(), files, places)
}

/// Signs when the first trustee's link ends before a reply.
fn lost(alloc: Global, store: &MemStore, words: &SignWords) -> Result<bool, NoMemory> {
    let files = files_of(alloc, store, SIGN_FILES)?;
    let peers = [Peer {
        place: "one",
        bytes: &[],
    }];
    lost_steadily(alloc, words, files, &peers)
}

/// The peer at this place, who sends this file of a store.
fn peer_of<'a>(store: &'a MemStore, place: &'a str, name: &str) -> Peer<'a> {
    Peer {
        place,
        bytes: file(store, name),
    }
}

/// Signs with trustees who reply as another implementation's did.
fn signed(alloc: Global, store: &MemStore, words: &SignWords) -> Result<bool, NoMemory> {
    let files = files_of(alloc, store, SIGN_FILES)?;
    let peers = [
        peer_of(store, "one", "replies1"),
        peer_of(store, "two", "replies2"),
        peer_of(store, "three", "replies3"),
    ];
    well_signed(alloc, words, files, &peers)
}

/// Signs in both ways.
fn lost_and_signed(
    alloc: Global,
    store: &MemStore,
    words: &SignWords,
) -> Result<(bool, bool), NoMemory> {
    let lost = lost(alloc, store, words)?;
    Ok((lost, signed(alloc, store, words)?))
}

/// Signs with the words of `sign` in both ways.
fn sign_runs(alloc: Global, store: &MemStore) -> Result<(bool, bool), NoMemory> {
    let words = words_of(alloc, SIGN)?;
    match command_of(alloc, words.as_slice()) {
        Some(Command::Sign(words)) => lost_and_signed(alloc, store, &words),
        _ => Ok((false, false)),
    }
}

/// Whether the premises of `steady_trustee`, `steady`, `causes` and `completeness` hold of their runs.
fn held<R: Threads + Wait + Sync>(
    threads: &R,
    alloc: Global,
    store: &MemStore,
) -> Result<[bool; 4], NoMemory> {
    let served = served(threads, alloc, store)?;
    let ran = ran(threads, alloc, store)?;
    let (lost, signed) = sign_runs(alloc, store)?;
    Ok([served, ran, lost, signed])
}

/// Whether premises hold, in words.
fn word(hold: bool) -> &'static str {
    if hold { "hold" } else { "do not hold" }
}

/// Prints whether the premises of these laws hold, in this order.
fn print_held(rt: HostRuntime, held: [bool; 4]) -> io::Result<()> {
    let [served, ran, lost, signed] = held;
    let (served, ran) = (word(served), word(ran));
    let (lost, signed) = (word(lost), word(signed));
    println!(rt; "premises of steady_trustee {served}\npremises of steady {ran}")?;
    println!(rt; "premises of causes {lost}\npremises of completeness {signed}")
}

/// Prints of each run over the files of a store whether the premises of its law hold.
pub(crate) fn print_runs<R: Threads + Wait + Sync>(
    threads: &R,
    rt: HostRuntime,
    store: &MemStore,
) -> io::Result<()> {
    print_held(rt, made(held(threads, rt.alloc(), store))?)
}
