//! Calls of ports and of their links as steps of a script.

use crate::scripts::link_calls::done;
use crate::scripts::store_calls::call_word;
use crate::scripts::{first_number, first_word, initial, word_if};
use std::alloc::Global;
use stream_io::{Accepted, Failed, Net, Port, Sink, Source};

/// Keeps a link that was made.
fn keep<L: Drop>(links: &mut Vec<L>, made: Accepted<L>) -> &'static str {
    match made {
        Accepted::Link(link) => word_if(links.push(link).is_ok(), "link"),
        Accepted::End => "end",
        Accepted::Failed => "failed",
    }
}

/// Dials a place.
fn dial<P: Port>(port: &mut P, place: &str) -> Accepted<P::Link> {
    match port.dial(place) {
        Ok(link) => Accepted::Link(link),
        Err(Failed) => Accepted::Failed,
    }
}

/// Hangs up the link of this number.
fn hang_up<P: Port>(port: &mut P, links: &mut Vec<P::Link>, number: u64) -> &'static str {
    let place = number as usize;
    if place >= links.len() {
        return "no link";
    }
    port.hang_up(links.remove(place));
    "ok"
}

/// Whether a port counts this many faults, and this many of them in accepting.
fn counts<P: Port>(port: &P, numbers: &str) -> bool {
    let (faults, rest) = first_number(numbers);
    port.faults() == faults && port.accept_faults() == first_number(rest).0
}

/// What comes of a call of a port, in a word. If no place to dial is named, it is `near`.
fn met<P: Port>(
    port: &mut P,
    links: &mut Vec<P::Link>,
    near: &str,
    letter: u8,
    text: &str,
) -> &'static str
where
    P::Link: Drop,
{
    match letter {
        b'a' => keep(links, port.accept()),
        b'd' => keep(links, dial(port, if text.is_empty() { near } else { text })),
        b'h' => hang_up(port, links, first_number(text).0),
        _ => word_if(counts(port, text), "ok"),
    }
}

/// What comes of a call of a link, in a word.
fn said<L: Source + Sink>(links: &mut Vec<L>, number: u64, letter: u8, text: &str) -> &'static str {
    match links.get_mut(number as usize) {
        Some(link) => done(link, letter, text),
        None => "no link",
    }
}

/// What comes of a call of a port or of a link, in a word. Its step has the name of the call and a number: that of the
/// port in `accept 0`, `dial 0 a`, `hang 0 1`, which hangs up link 1, and `faults 0 2 1`, which compares the counts of
/// faults and of those in accepting; and that of the link in all others. Links have their numbers in the order in which
/// they were made, less those that were hung up.
fn outcome<P: Port>(
    ports: &mut [P],
    links: &mut Vec<P::Link>,
    near: &str,
    step: &str,
) -> &'static str
where
    P::Link: Drop,
{
    let (call, rest) = first_word(step);
    let (number, text) = first_number(rest);
    match initial(call) {
        letter @ (b'a' | b'd' | b'h' | b'f') => match ports.get_mut(number as usize) {
            Some(port) => met(port, links, near, letter, text),
            None => "no port",
        },
        letter => said(links, number, letter, text),
    }
}

/// Does the calls of a script on ports and their links, each after the word that it has to come to, as `failed dial 0
/// a`. Returns the first that comes to another one, or nothing.
pub(crate) fn meets<P: Port>(
    ports: &mut [P],
    alloc: Global,
    near: &str,
    script: &'static str,
) -> &'static str
where
    P::Link: Drop,
{
    let mut links = Vec::new(alloc);
    for step in script.split("; ") {
        let (want, call) = first_word(step);
        if outcome(ports, &mut links, near, call) != want {
            return step;
        }
    }
    ""
}

/// What is done with a net: where ports are made, at a place, at the near one (`@`) or at none, how many are made, what
/// comes of that in a word, and what they then do.
pub(crate) type Meeting = (&'static str, u32, &'static str, &'static str);

/// The place of a name, if it is one.
fn place_of<'a>(name: &'a str, near: &'a str) -> Option<&'a str> {
    match initial(name) {
        0 => None,
        b'@' => Some(near),
        _ => Some(name),
    }
}

/// Makes ports, has them do their script, and gathers them. Returns the first step that comes to another word than it
/// has to, or nothing. If the script names no place to dial, the near one is dialled.
pub(crate) fn meet<N: Net>(
    net: &mut N,
    alloc: Global,
    near: &str,
    meeting: &Meeting,
) -> &'static str
where
    N::Port: Drop,
    <N::Port as Port>::Link: Drop,
{
    let (place, count, word, script) = *meeting;
    match net.ports(alloc, place_of(place, near), count) {
        Ok(mut ports) => {
            let wrong = meets(&mut ports, alloc, near, script);
            net.gather(ports);
            wrong
        }
        Err(fault) if call_word(fault) == word => "",
        Err(_) => "the ports",
    }
}

/// What is done with a net, and how many faults the net and its ports count after that.
pub(crate) type Met = (Meeting, u64, u64);

/// Does all of this with a net, one after the other, and returns what went wrong, or nothing.
pub(crate) fn meet_all<N: Net>(net: &mut N, alloc: Global, near: &str, rows: &[Met]) -> &'static str
where
    N::Port: Drop,
    <N::Port as Port>::Link: Drop,
{
    for (meeting, faults, port_faults) in rows {
        let wrong = meet(net, alloc, near, meeting);
        if !wrong.is_empty() {
            return wrong;
        }
        if net.faults() != *faults || net.port_faults() != *port_faults {
            return "the counts of a net";
        }
    }
    ""
}
