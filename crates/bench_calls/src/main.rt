//! Calls whose cost the scripts of `bench/` print: reading frames, building leaves, leasing them, masks, turns of a
//! lock, and verifying. The first word tells which, and the words after it how and how often. Each prints one line, and
//! `all` makes a few calls of each.
#![tactic(auto)]

mod frames;
mod hashing;
mod leases;
mod leaves;
mod masks;
mod signatures;
mod turns;

use std::alloc::{AllocError, Global};
use std::process::ExitCode;
use std::sync::Wait;
use std::thread::Threads;
use std::{env, io};

/// The possible first words.
const KINDS: &str = "frames, leaves, leases, masks, turns, verify or all";

/// A few calls of each kind. Two ways to do the same thing give the same result.
const FEW: [&str; 11] = [
    "frames read 1",
    "frames hash 1",
    "leaves build 2",
    "leases lease 2048",
    "leases call 2048",
    "masks keyed 1000",
    "masks plain 1000",
    "turns 4 250",
    "verify verify 5-4 3",
    "verify blocks 5-4 1",
    "verify levels two 3",
];

/// The words of a text.
fn words_of(alloc: Global, text: &str) -> Result<Vec<String>, AllocError> {
    let mut words = Vec::new(alloc);
    for word in text.split(' ') {
        words.push(String::from_str(alloc, word)?)?;
    }
    Ok(words)
}

/// The word and the number that two words stand for.
fn word_and_number(words: &[String]) -> Option<(&str, u32)> {
    match words {
        [word, number] => Some((word.as_str(), number.parse().ok()?)),
        _ => None,
    }
}

/// Says that memory ran out, and gives the status for that.
fn lack(rt: HostRuntime) -> io::Result<u8> {
    println!(rt; "no memory")?;
    Ok(14)
}

/// Says which words are expected, and gives the status for that.
fn refuse(rt: HostRuntime, wanted: &str) -> io::Result<u8> {
    println!(rt; "wanted: {wanted}")?;
    Ok(2)
}

/// Makes the calls that the words say, and gives the status.
fn run<R: Threads + Wait + Sync>(host: &R, rt: HostRuntime, words: &[String]) -> io::Result<u8> {
    let Some((kind, words)) = words.split_first() else {
        return refuse(rt, KINDS);
    };
    match kind.as_str() {
        "frames" => frames::run(rt, words),
        "leaves" => leaves::run(rt, words),
        "leases" => leases::run(rt, words),
        "masks" => masks::run(rt, words),
        "turns" => turns::run(host, rt, words),
        "verify" => signatures::run(rt, words),
        _ => refuse(rt, KINDS),
    }
}

/// Makes the calls that the words of a text say, and gives the status.
fn run_text<R: Threads + Wait + Sync>(host: &R, rt: HostRuntime, text: &str) -> io::Result<u8> {
    let words = words_of(rt.alloc(), text)?;
    run(host, rt, &words)
}

/// Makes a few calls of each kind, and gives the greatest status.
fn run_all<R: Threads + Wait + Sync>(host: &R, rt: HostRuntime) -> io::Result<u8> {
    let mut greatest = 0;
    for text in FEW {
        greatest = run_text(host, rt, text)?.max(greatest);
    }
    Ok(greatest)
}

/// Makes the calls that the words of the program say, and gives the status.
fn run_given<R: Threads + Wait + Sync>(
    host: &R,
    rt: HostRuntime,
    words: &[String],
) -> io::Result<u8> {
    match words {
        [word] if word.as_str() == "all" => run_all(host, rt),
        words => run(host, rt, words),
    }
}

/// The words of the program.
fn given_words(rt: HostRuntime) -> io::Result<Vec<String>> {
    let mut words = Vec::new(rt.alloc());
    for word in env::args(&rt)?.skip(1) {
        words.push(word)?;
    }
    Ok(words)
}

fn main(rt: HostRuntime) -> io::Result<ExitCode> {
    let words = given_words(rt)?;
    let status = run_given(&rt, rt, &words)?;
    Ok(ExitCode::from(status))
}
