//! Serves two links of one trustee with two workers, while the first link waits until the second was answered: in the
//! middle of its ask of round two, or before it takes a byte of its first reply. Both are answered, with the bytes that
//! another implementation's trustee replied: a turn is held for a decision alone.

ghost use Rattle.std.specs.Prelude.{◌≡◌, IfSome, vec_len};

use crate::files::file;
use crate::links::link;
use crate::trustee::{Still, trustee};
use share_files::{Share, read_share};
use std::alloc::Global;
use std::io;
use std::sync::Wait;
use std::thread::Threads;
use stream_memory::{Before, Bell, Hold, MemPort, PortScript, Ring, WaitingPort};
use trustee_core::KeyKeeper;
use trustee_node::serve_ports;
use turn_lock::TurnsOnly;

/// The bytes of an ask of round one, and of the reply to it.
const ASK: usize = 64;

const REPLY: usize = 97;

/// Where the first link waits in the middle of its second ask.
const MIDDLE: usize = 300;

/// How often a link checks whether the other one was answered before it fails.
const LOOKS: u64 = 1_000_000_000;

/// A port in memory at which one link waits, which gives these bytes.
fn port(alloc: Global, given: &[u8]) -> Option<MemPort> {
    let mut script = PortScript::new(alloc);
    script.waiting.push(link(alloc, given)?).ok()?;
    let place = String::from_str(alloc, "here").ok()?;
    MemPort::new(alloc, Some(place), script).ok()
}

/// Whether this is what was written to the link that was hung up at a port.
fn is_answered(port: Option<&WaitingPort>, want: &[u8]) -> bool {
    let Some(port) = port else {
        return false;
    };
    match port.kept().talk(0) {
        Some(talk) => talk.written() == want,
        None => false,
    }
}

/// What a link waits for until the other one was answered.
fn hold_of(bell: &Bell, before: Option<Before>) -> Option<Hold<'_>> {
    Some(Hold {
        before: before?,
        bell,
        rings: 1,
    })
}

/// The ports of both workers, each with one link that waits. The first link waits for the second if this says so.
fn ports_of<'a>(
    alloc: Global,
    asks: &[u8],
    bell: &'a Bell,
    before: Option<Before>,
) -> Option<Vec<WaitingPort<'a>>>
    ensures { IfSome result (λ ports. vec_len ports ≡ 2) }
{
    let ring = Ring {
        bell,
        written: REPLY,
    };
    let first = WaitingPort::new(port(alloc, asks)?, hold_of(bell, before), None);
    let second = WaitingPort::new(port(alloc, asks.get(..ASK)?)?, None, Some(ring));
    vec![in alloc; first, second].ok()
}

/// The clocks of both workers.
fn clocks_of(alloc: Global) -> Option<Vec<Still>>
    ensures { IfSome result (λ clocks. vec_len clocks ≡ 2) }
{
    vec![in alloc; Still, Still].ok()
}

/// Serves the links that wait at two ports.
fn serve(
    threads: &(impl Threads + Wait + Sync),
    alloc: Global,
    share: &Share,
    ports: &mut Vec<WaitingPort>,
) -> Option<()>
    requires { vec_len ports.old ≡ 2 }
{
    let clocks = clocks_of(alloc)?;
    let trustee = trustee(alloc, share)?;
    let turns = TurnsOnly::of(threads);
    let keeper = KeyKeeper::of(share);
    let (_, served) = serve_ports(&turns, alloc, trustee, &keeper, None, ports, clocks, 1);
    served.ok()?;
    Some(())
}

/// Trustee 1's share.
fn share_of(rt: HostRuntime) -> Option<Share> {
    read_share(&file(rt, "5-3.share1")?).ok()
}

/// Which of the links at two ports were answered with the right bytes.
fn answered(rt: HostRuntime, ports: &[WaitingPort]) -> Option<(bool, bool)> {
    let replies = file(rt, "5-3.replies1")?;
    let reply = replies.get(..REPLY)?;
    Some((
        is_answered(ports.get(0), &replies),
        is_answered(ports.get(1), reply),
    ))
}

/// Serves both links, and returns which of them were answered with the right bytes.
fn serve_both(
    threads: &(impl Threads + Wait + Sync),
    rt: HostRuntime,
    bell: &Bell,
    before: Option<Before>,
) -> Option<(bool, bool)> {
    let share = share_of(rt)?;
    let mut ports = ports_of(rt.alloc(), &file(rt, "5-3.asks1")?, bell, before)?;
    serve(threads, rt.alloc(), &share, &mut ports)?;
    answered(rt, &ports)
}

/// Serves both links, and prints which of them were answered with the right bytes.
fn print_run(
    threads: &(impl Threads + Wait + Sync),
    rt: HostRuntime,
    name: &str,
    before: Option<Before>,
) -> io::Result<()> {
    match serve_both(threads, rt, &Bell::new(LOOKS), before) {
        Some((first, second)) => println!(rt;
            "{name}: first as given: {first}, second as given: {second}"
        ),
        None => println!(rt; "{name}: not served"),
    }
}

/// Runs all of it.
pub(crate) fn print_runs(
    threads: &(impl Threads + Wait + Sync),
    rt: HostRuntime,
) -> io::Result<()> {
    print_run(threads, rt, "no link waits", None)?;
    print_run(threads, rt, "an ask waits", Some(Before::Reading(MIDDLE)))?;
    print_run(threads, rt, "a reply waits", Some(Before::Writing))
}
