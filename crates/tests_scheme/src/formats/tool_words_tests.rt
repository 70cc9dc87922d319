//! Tests of what no contract says: that `clap` splits the words of a command.

use std::alloc::{AllocError, Global};
use tool_words::{Command, command_of, split_words};

/// The words of a line.
fn words_of(alloc: Global, line: &str) -> Result<Vec<String>, AllocError> {
    let mut words = Vec::new(alloc);
    for word in line.split_whitespace() {
        words.push(String::from_str(alloc, word)?)?;
    }
    Ok(words)
}

/// Whether these are the words.
fn are_same(found: &[&str], words: &[String]) -> bool {
    if found.len() != words.len() {
        return false;
    }
    for i in 0..words.len() {
        if found[i] != words[i].as_str() {
            return false;
        }
    }
    true
}

/// What `clap` makes of the words of a line: nothing if it does not take them, else whether it splits off each of them
/// in its place.
fn is_split(alloc: Global, line: &str) -> Option<bool> {
    let Ok(words) = words_of(alloc, line) else {
        return Some(false);
    };
    let Ok(split) = split_words(alloc, words.as_slice()) else {
        return None;
    };
    Some(are_same(split.as_slice(), words.as_slice()))
}

/// Lines that `clap` takes.
const TAKEN: [&str; 18] = [
    "verify a.pub a a.sig",
    "rehearse e m k s",
    "deal e 5 03 12 4294967295 a",
    "deal e 5 3 5 3 a commit",
    "enrol f j",
    "migrate s j n",
    "approve s b m",
    "trustee s j p 64 4294967295",
    "trustee s j p 064 4294967295 b",
    "sign p t m o 07=h:7",
    "sign p t m o 2=b 1=a 3=c 4=d 5=e 6=f 7=h:7 8=h 9=i 10=j 11=k 12=l",
    "hss check k m s",
    "hss sign p t lk ls m k s 2=b 1=a 3=c 4=d 5=e 6=f 7=h:7 8=h 9=i 10=j 11=k 12=l",
    "aggregate p t q 64 4294967295 1=a",
    "aggregate p t q 064 1 2=b 1=a 3=c 4=d 5=e 6=f 07=h:7 8=h 9=i 10=j 11=k 12=l",
    "drill 1 10000 100000",
    "show f",
    "show f leaves",
];

#[test]
fn clap_splits_the_words_of_each_command(rt: HostRuntime) {
    for line in &TAKEN {
        assert!(rt; is_split(rt.alloc(), line) == Some(true), "{line}");
    }
}

#[test]
fn clap_refuses_a_line_without_words(rt: HostRuntime) {
    assert!(rt; is_split(rt.alloc(), "").is_none());
}

/// Whether a line is an aggregator's words, for 64 workers and 2^32 - 1 connections, with a place for trustee 7.
fn is_aggregate(alloc: Global, line: &str) -> Result<bool, AllocError> {
    let words = words_of(alloc, line)?;
    match command_of(alloc, words.as_slice()) {
        Some(Command::Aggregate(found)) => Ok(
            found.workers == 64
                && found.connections == u32::MAX
                && found.places.list()[6] == Some("h:7"),
        ),
        _ => Ok(false),
    }
}

#[test]
fn words_are_read(rt: HostRuntime) {
    let line = "aggregate p t q 064 4294967295 2=b 07=h:7 1=a";
    assert!(rt; is_aggregate(rt.alloc(), line) == Ok(true));
}
