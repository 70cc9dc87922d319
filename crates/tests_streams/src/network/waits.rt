//! Tests of what no contract says about links that wait: when one waits, when it rings, and that two threads wait for
//! each other.

use crate::network::peers::{PEER, Peer, Script, Talk, is_talk, port_script};
use crate::scripts::none_wrong;
use crate::scripts::port_calls::meets;
use memory::NoMemory;
use std::alloc::Global;
use std::thread;
use std::thread::Threads;
use stream_io::{Accepted, Port, read_whole, write_whole};
use stream_memory::{Before, Bell, Hold, MemPort, Ring, WaitingPort};

/// A port at which one link waits that gives `hello`, and one to be dialled at `b`, all at once.
const SCRIPT: Script = Script {
    waiting: &[Peer {
        text: "hello",
        pieces: &[],
        ..PEER
    }],
    dialled: &[(
        "b",
        Peer {
            text: "other",
            pieces: &[],
            ..PEER
        },
    )],
    failing: &[],
};

/// A port of this script.
fn port(alloc: Global) -> Result<MemPort, NoMemory> {
    let script = port_script(alloc, &SCRIPT)?;
    MemPort::new(alloc, Some(String::from_str(alloc, "here")?), script)
}

/// What the links of a port wait for, if at all.
fn hold_of<'a>(bell: &'a Bell, wait: &Option<(Before, u64)>) -> Option<Hold<'a>> {
    match *wait {
        Some((before, rings)) => Some(Hold {
            before,
            bell,
            rings,
        }),
        None => None,
    }
}

/// A port whose links wait, if at all.
fn holding<'a>(alloc: Global, hold: Option<Hold<'a>>) -> Result<WaitingPort<'a>, NoMemory> {
    Ok(WaitingPort::new(port(alloc)?, hold, None))
}

/// A port whose links ring.
fn ringing<'a>(alloc: Global, ring: Ring<'a>) -> Result<WaitingPort<'a>, NoMemory> {
    Ok(WaitingPort::new(port(alloc)?, None, Some(ring)))
}

/// Two ports: the links of the first wait, if at all, until the bell has been rung as often as `wait` says, and each of
/// the second rings once `written` bytes were written to it.
fn two_ports<'a>(
    alloc: Global,
    bell: &'a Bell,
    wait: &Option<(Before, u64)>,
    written: usize,
) -> Result<Vec<WaitingPort<'a>>, NoMemory> {
    let mut ports = Vec::new(alloc);
    ports.push(holding(alloc, hold_of(bell, wait))?)?;
    ports.push(ringing(alloc, Ring { bell, written })?)?;
    Ok(ports)
}

/// What the links of the first port wait for, how many bytes make one of the second ring, what is done, and what has
/// gone over the first link that was hung up at the first port.
type Wait = (Option<(Before, u64)>, usize, &'static str, Talk);

static WAITS: [Wait; 3] = [
    // A link gives no more before the bell was rung.
    (
        Some((Before::Reading(2), 2)),
        1,
        "link accept 0; ok read 0 he; failed read 0; link accept 1; ok write 1 1 a; failed read 0; \
         ok write 0 1 a; link dial 1 b; ok write 2 1 a; ok read 0 llo; ok read 0; ok count 0 2; \
         ok count 1 0; ok hang 0 0; ok faults 0 1 0",
        (None, ["hello", "", "a"], 2),
    ),
    // A link takes no byte before another was written to.
    (
        Some((Before::Writing, 1)),
        3,
        "link accept 0; ok read 0 hello; failed write 0 0 a; link accept 1; ok write 1 2 ab; \
         failed write 0 0 a; ok write 1 2 cd; ok count 1 0; ok write 0 1 a; ok count 0 2; \
         ok hang 0 0; ok faults 0 1 0",
        (None, ["hello", "", "a"], 2),
    ),
    // A wait in vain is a fault of the port.
    (
        Some((Before::Reading(0), 1)),
        1,
        "link accept 0; failed read 0; ok send 0 reply; ok hang 0 0; ok faults 0 1 0; link accept 1; \
         ok write 0 1 a; link dial 0 b; ok read 1 other; ok hang 0 1; failed dial 0 b; ok faults 0 2 0",
        (None, ["", "hello", "reply"], 1),
    ),
];

/// Whether this went over the first link that was hung up at a port.
fn has_kept(port: &WaitingPort, want: &Talk) -> bool {
    is_talk(port.kept().talk(0), want)
}

/// Whether this went over the first link that was hung up at the first port.
fn has_first_kept(ports: &[WaitingPort], want: &Talk) -> bool {
    match ports.first() {
        Some(port) => has_kept(port, want),
        None => false,
    }
}

/// Does what a row says with two ports, and returns what went wrong, or nothing.
fn wrong_over(ports: &mut [WaitingPort], alloc: Global, row: &Wait) -> &'static str {
    let wrong = meets(ports, alloc, "b", row.2);
    if wrong.is_empty() && !has_first_kept(ports, &row.3) {
        "what is kept"
    } else {
        wrong
    }
}

/// Does what a row says, and returns what went wrong, or nothing.
fn wrong_of(alloc: Global, row: &Wait) -> &'static str {
    let bell = Bell::new(3);
    match two_ports(alloc, &bell, &row.0, row.1) {
        Ok(mut ports) => wrong_over(&mut ports, alloc, row),
        Err(NoMemory) => "no memory",
    }
}

/// When links wait.
#[test]
fn a_link_waits_for_a_bell(rt: HostRuntime) {
    for row in &WAITS {
        none_wrong(&rt, wrong_of(rt.alloc(), row), row.2);
    }
}

/// Accepts a link, reads and writes once each, and hangs up.
fn serve<P: Port>(port: &mut P) {
    if let Accepted::Link(mut link) = port.accept() {
        let mut room = [0; 8];
        let _ = read_whole(&mut link, &mut room);
        let _ = write_whole(&mut link, b"reply");
        port.hang_up(link);
    }
}

/// What goes over a link that is served.
const SERVED: Talk = (None, ["hello", "", "reply"], 0);

/// Serves two ports in two threads, the first with this hold, while the second rings once it has been answered.
fn serve_both<R: Threads + Sync>(
    rt: &R,
    alloc: Global,
    bell: &Bell,
    wait: &Option<(Before, u64)>,
) -> Result<bool, NoMemory> {
    let mut ports = two_ports(alloc, bell, wait, 5)?;
    thread::for_each_mut(rt, &mut ports, 2, &|_, port| serve(port));
    Ok(ports.iter().all(|port| has_kept(port, &SERVED)))
}

/// What the first of two links waits for.
static HOLDS: [Option<(Before, u64)>; 3] = [
    None,
    Some((Before::Reading(2), 1)),
    Some((Before::Writing, 1)),
];

/// Two threads that wait for each other.
#[test]
fn a_port_waits_until_another_has_answered(rt: HostRuntime) -> Result<(), NoMemory> {
    for wait in &HOLDS {
        let bell = Bell::new(1_000_000_000);
        assert!(rt; serve_both(&rt, rt.alloc(), &bell, wait)?);
    }
    Ok(())
}
