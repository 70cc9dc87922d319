//! Tests of what no contract says about links, ports and nets in memory: that calls succeed, which of them fail, when
//! which link comes, and what is read in which piece.

use crate::network::peers::{Peer, Script, Talk, is_same, is_talk, port_script};
use crate::scripts::none_wrong;
use crate::scripts::port_calls::{Met, meet_all};
use memory::NoMemory;
use std::alloc::{AllocError, Global};
use stream_memory::{Gate, KeptPort, MemNet, PortScript};

/// What a port keeps: its place, its counts of faults and of those in accepting, and what has gone over its links.
type Kept = (Option<&'static str>, u64, u64, &'static [Talk]);

/// A net at one place: the scripts of its ports, the numbers of its calls that fail, what is done with it, and what
/// its ports then keep.
struct Row {
    ports: &'static [Script],
    failing: &'static [u64],
    met: &'static [Met],
    kept: &'static [Kept],
}

/// A peer: what it gives, in which pieces, how many bytes it takes and how many of them in one write, which of its
/// calls fail, and what is held back. Each is written out whole, since a peer that is made of another one is as long to
/// prove as that one for each of its fields.
macro_rules! peer {
    ($text:expr, $pieces:expr, $room:expr, $most:expr, $failing:expr, $gate:expr) => {
        Peer {
            text: $text,
            pieces: $pieces,
            room: $room,
            most: $most,
            failing: $failing,
            gate: $gate,
        }
    };
}

/// One port at the place, which has these links to accept and no call of which fails: what is done, and how many of its
/// links then have faults.
macro_rules! accepting {
    ($peers:expr, $script:expr, $faults:expr, $talks:expr) => {
        Row {
            ports: &[Script {
                waiting: $peers,
                dialled: &[],
                failing: &[],
            }],
            failing: &[],
            met: &[(("here", 1, "ok", $script), 1, 0)],
            kept: &[(Some("here"), $faults, 0, $talks)],
        }
    };
}

static LINKS: [Row; 4] = [
    // A sink takes a set number of bytes at once, and only as many as it has room for.
    accepting!(
        &[
            peer!("", &[2, 2, 2, 2], 5, 64, [&[], &[], &[]], None),
            peer!("", &[2, 2, 2, 2], 5, 2, [&[], &[], &[]], None),
            peer!("", &[2, 2, 2, 2], 3, 64, [&[], &[], &[]], None),
            peer!("", &[2, 2, 2, 2], 5, 2, [&[], &[1], &[]], None),
            peer!("", &[2, 2, 2, 2], 5, 2, [&[], &[0, 7], &[]], None),
        ],
        "link accept 0; ok write 0 5 hello; ok count 0 0; ok hang 0 0; \
         link accept 0; ok send 0 hello; ok count 0 0; ok hang 0 0; \
         link accept 0; failed send 0 hello; ok count 0 1; ok hang 0 0; \
         link accept 0; failed send 0 hello; ok count 0 1; ok hang 0 0; \
         link accept 0; failed send 0 hello; ok count 0 1; ok hang 0 0; ok faults 0 3 0",
        3,
        &[
            (None, ["", "", "hello"], 0),
            (None, ["", "", "hello"], 0),
            (None, ["", "", "hel"], 1),
            (None, ["", "", "he"], 1),
            (None, ["", "", ""], 1),
        ]
    ),
    // A source gives its bytes in pieces.
    accepting!(
        &[peer!("hello, all", &[2, 0], 8, 3, [&[2], &[], &[]], None)],
        "link accept 0; ok read 0 he; ok read 0 l; failed exact 0; ok count 0 1; ok exact 0 lo, ; \
         ok exact 0 all; ok read 0; ok count 0 1; ok hang 0 0; ok faults 0 1 0",
        1,
        &[(None, ["hello, all", "", ""], 1)]
    ),
    // A link counts reads and writes together.
    accepting!(
        &[peer!("hello", &[2, 2, 2, 2], 8, 3, [&[], &[], &[1, 3]], None)],
        "link accept 0; ok read 0 he; failed write 0 0 first; ok write 0 3 first; failed read 0; \
         ok count 0 2; ok read 0 ll; ok send 0 st; failed send 0 last; ok count 0 3; ok hang 0 0",
        1,
        &[(None, ["hell", "o", "firstlas"], 3)]
    ),
    // It holds what lies after its gate.
    accepting!(
        &[peer!(
            "hello",
            &[2, 2, 2, 2],
            8,
            3,
            [&[], &[], &[]],
            Some(Gate {
                place: 3,
                written: 2
            })
        )],
        "link accept 0; ok read 0 he; ok read 0 ll; failed read 0; ok write 0 1 a; failed read 0; \
         ok count 0 2; ok write 0 1 b; ok read 0 o; ok read 0; ok count 0 2; ok hang 0 0",
        1,
        &[(None, ["hello", "", "ab"], 2)]
    ),
];

static PORTS: [Row; 4] = [
    // A port accepts its links in order.
    Row {
        ports: &[Script {
            waiting: &[
                peer!("hello", &[2, 2, 2, 2], 8, 3, [&[], &[], &[]], None),
                peer!("all", &[2, 2, 2, 2], 8, 3, [&[], &[], &[1]], None),
            ],
            dialled: &[],
            failing: &[1],
        }],
        failing: &[],
        met: &[(
            (
                "here",
                1,
                "ok",
                "link accept 0; ok read 0 he; ok send 0 he; ok hang 0 0; ok faults 0 0 0; \
                         failed accept 0; ok faults 0 1 1; link accept 0; ok read 0 al; failed send 0 al; \
                         ok hang 0 0; ok faults 0 2 1; end accept 0; failed dial 0 here; ok faults 0 3 1",
            ),
            1,
            1,
        )],
        kept: &[(
            Some("here"),
            3,
            1,
            &[(None, ["he", "llo", "he"], 0), (None, ["al", "l", ""], 1)],
        )],
    },
    // It dials the first link of a place. If it listens at no place, a link waits that nobody can accept.
    Row {
        ports: &[Script {
            waiting: &[peer!("unheard", &[2, 2, 2, 2], 8, 3, [&[], &[], &[]], None)],
            dialled: &[
                (
                    "a",
                    peer!("first", &[2, 2, 2, 2], 8, 3, [&[], &[], &[]], None),
                ),
                (
                    "b",
                    peer!("other", &[2, 2, 2, 2], 8, 3, [&[], &[], &[]], None),
                ),
                (
                    "a",
                    peer!("second", &[2, 2, 2, 2], 8, 3, [&[], &[], &[]], None),
                ),
            ],
            failing: &[2],
        }],
        failing: &[],
        met: &[(
            (
                "",
                1,
                "ok",
                "end accept 0; link dial 0 a; ok read 0 fi; ok hang 0 0; \
                         link dial 0 a; ok read 0 se; ok hang 0 0; failed dial 0 b; failed dial 0 a; \
                         ok faults 0 2 0; link dial 0 b; ok read 0 ot; ok hang 0 0",
            ),
            1,
            0,
        )],
        kept: &[(
            None,
            2,
            0,
            &[
                (Some("a"), ["fi", "rst", ""], 0),
                (Some("a"), ["se", "cond", ""], 0),
                (Some("b"), ["ot", "her", ""], 0),
            ],
        )],
    },
    // A net keeps the ports of a place, the last of which has no script.
    Row {
        ports: &[
            Script {
                waiting: &[peer!("hello", &[2, 2, 2, 2], 8, 3, [&[], &[], &[]], None)],
                dialled: &[],
                failing: &[],
            },
            Script {
                waiting: &[peer!("all", &[2, 2, 2, 2], 8, 3, [&[], &[], &[]], None)],
                dialled: &[],
                failing: &[0],
            },
        ],
        failing: &[],
        met: &[(
            (
                "here",
                3,
                "ok",
                "failed accept 1; link accept 1; ok read 0 al; ok send 0 al; ok hang 1 0; \
                         link accept 0; ok read 0 he; ok send 0 he; ok hang 0 0; end accept 2",
            ),
            1,
            1,
        )],
        kept: &[
            (Some("here"), 0, 0, &[(None, ["he", "llo", "he"], 0)]),
            (Some("here"), 1, 1, &[(None, ["al", "l", "al"], 0)]),
            (Some("here"), 0, 0, &[]),
        ],
    },
    // It fails if that is listed, and at other places.
    Row {
        ports: &[],
        failing: &[1],
        met: &[
            (("here", 2, "ok", "end accept 1"), 0, 0),
            (("", 1, "failed", "made 0"), 1, 1),
            (("there", 1, "failed", "made 0"), 2, 2),
            (("", 1, "ok", "end accept 0"), 2, 2),
        ],
        kept: &[
            (Some("here"), 0, 0, &[]),
            (Some("here"), 0, 0, &[]),
            (None, 0, 0, &[]),
        ],
    },
];

/// Whether a port keeps these talks, and no more.
fn has_talks(port: &KeptPort, talks: &[Talk]) -> bool {
    for index in 0..talks.len() {
        if !is_talk(port.talk(index), &talks[index]) {
            return false;
        }
    }
    port.talk(talks.len()).is_none()
}

/// Whether a port keeps this.
fn is_kept(port: Option<&KeptPort>, want: &Kept) -> bool {
    let Some(port) = port else {
        return false;
    };
    let is_place = is_same(port.place(), want.0);
    let is_counted = port.faults() == want.1 && port.accept_faults() == want.2;
    is_place && is_counted && has_talks(port, want.3)
}

/// Whether a net keeps these ports, and no more.
fn keeps(net: &MemNet, ports: &[Kept]) -> bool {
    for index in 0..ports.len() {
        if !is_kept(net.kept(index), &ports[index]) {
            return false;
        }
    }
    net.kept(ports.len()).is_none()
}

/// The scripts of ports.
fn scripts(alloc: Global, ports: &[Script]) -> Result<Vec<PortScript>, NoMemory> {
    let mut scripts = Vec::new(alloc);
    for script in ports {
        scripts.push(port_script(alloc, script)?)?;
    }
    Ok(scripts)
}

/// The place `here` alone.
fn one_place(alloc: Global) -> Result<Vec<String>, AllocError> {
    let mut places = Vec::new(alloc);
    places.push(String::from_str(alloc, "here")?)?;
    Ok(places)
}

/// The net of a row.
fn net_of(alloc: Global, row: &Row) -> Result<MemNet, NoMemory> {
    let scripts = scripts(alloc, row.ports)?;
    let places = one_place(alloc)?;
    let failing = Vec::from_slice(alloc, row.failing)?;
    Ok(MemNet::new(places, scripts, failing))
}

/// Does what a row says with its net, and returns what went wrong, or nothing.
fn wrong_over(net: &mut MemNet, alloc: Global, row: &Row) -> &'static str {
    let wrong = meet_all(net, alloc, "here", row.met);
    if wrong.is_empty() && !keeps(net, row.kept) {
        "what is kept"
    } else {
        wrong
    }
}

/// Does what a row says with a net of it, and returns what went wrong, or nothing.
fn wrong_of(alloc: Global, row: &Row) -> &'static str {
    match net_of(alloc, row) {
        Ok(mut net) => wrong_over(&mut net, alloc, row),
        Err(NoMemory) => "no memory",
    }
}

/// What is done first in a row.
fn first_script(row: &Row) -> &'static str {
    match row.met.first() {
        Some(met) => met.0.3,
        None => "",
    }
}

/// What links in memory do.
#[test]
fn a_link_in_memory_does_what_its_script_says(rt: HostRuntime) {
    for row in &LINKS {
        none_wrong(&rt, wrong_of(rt.alloc(), row), first_script(row));
    }
}

/// What nets and ports in memory do.
#[test]
fn a_net_in_memory_does_what_its_scripts_say(rt: HostRuntime) {
    for row in &PORTS {
        none_wrong(&rt, wrong_of(rt.alloc(), row), first_script(row));
    }
}
