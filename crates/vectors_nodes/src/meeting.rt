//! Serves two clients with two workers. Each client asks for a signature by the trustees of coalition 9. The link to
//! the last of these answers in neither session before the other session has dialled it as well. Both clients get
//! signatures that are accepted, by different leaves: no turn of the table is held through a session.

ghost use Rattle.std.specs.Prelude.{◌≡◌, ◌≤◌, All, IfSome, length, vec_len};
ghost use Rattle.aggregator_session.specs.Desks.{ReadsFor};
ghost use Rattle.leaf_table.specs.Table.{plan_of};

mod ports;
mod scene;

use crate::files::file;
use aggregator_node::serve_clients;
use aggregator_session::Desk;
use coalition_map::Members;
use disk_trait::{Disk, MemDisk};
use leaf_table::{Lease, Table};
use lms_bytes::{Params, PublicKey};
use lms_verify::{Verdict, verify};
use ports::{Meeting, MeetingPort};
use reference_value::{Cells, Paged};
use round_frames::{Outcome, next_result, write_request};
use scene::Scene;
use std::alloc::Global;
use std::io;
use std::sync::Wait;
use std::thread::Threads;
use stream_io::Port;
use stream_memory::{Bell, MemSink, MemSource};
use turn_lock::TurnsOnly;

/// The trustees 3, 4 and 5.
const COALITION: u16 = 0b11100;

/// What the two clients ask to be signed.
const FIRST: &[u8] = b"the first message";

const SECOND: &[u8] = b"the second message";

/// How often a link checks whether the last member was dialled from both ports before it fails.
const LOOKS: u64 = 1_000_000_000;

/// No request here is longer.
const ROOM: usize = 64;

/// What came of both requests: the leaf of each signature that is accepted, and the table that came back.
#[derive(Drop)]
struct Met {
    signed: [Option<u32>; 2],
    table: Table<MemDisk>,
}

/// A request for a signature of this message.
fn request(alloc: Global, message: &[u8]) -> Option<Vec<u8>>
    requires { length message.now ≤ 16777216 }
{
    let mut sink = MemSink::new(alloc, ROOM, ROOM, Vec::new(alloc)).ok()?;
    write_request(Members::of_bits(COALITION), message, &mut sink).ok()?;
    Vec::from_slice(alloc, sink.written()).ok()
}

/// The signature that was answered, if one was.
fn signature_in(alloc: Global, params: &Params, answered: &[u8]) -> Option<Vec<u8>> {
    let answered = Vec::from_slice(alloc, answered).ok()?;
    let mut source = MemSource::new(answered, Vec::new(alloc), Vec::new(alloc));
    match next_result(alloc, params, &mut source) {
        Ok(Outcome::Signature(bytes)) => Some(bytes),
        _ => None,
    }
}

/// The leaf of the signature of this message that was answered at a port, if it is accepted.
fn signed_leaf<W: Wait>(
    alloc: Global,
    key: &PublicKey,
    port: Option<&MeetingPort<W>>,
    message: &[u8],
) -> Option<u32> {
    let signature = signature_in(alloc, &key.params, port?.answered())?;
    match verify(key, message, &signature) {
        Verdict::Accepted { leaf } => Some(leaf),
        _ => None,
    }
}

/// The leaves of both signatures that were answered.
fn signed_leaves<W: Wait>(
    alloc: Global,
    key: &PublicKey,
    ports: &[MeetingPort<W>],
) -> [Option<u32>; 2] {
    let first = signed_leaf(alloc, key, ports.get(0), FIRST);
    let second = signed_leaf(alloc, key, ports.get(1), SECOND);
    [first, second]
}

/// The ports of both workers, each with one client that waits.
fn ports_of<'a, W: Wait>(
    alloc: Global,
    meeting: &'a Meeting<'a, W>,
) -> Option<Vec<MeetingPort<'a, W>>>
    ensures { IfSome result (λ ports. vec_len ports ≡ 2) }
{
    let first = MeetingPort::new(meeting, request(alloc, FIRST)?);
    let second = MeetingPort::new(meeting, request(alloc, SECOND)?);
    vec![in alloc; first, second].ok()
}

/// Cells for both workers, of what the aggregator signs with.
fn cells_of(alloc: Global, scene: &Scene, desk: &Desk) -> Option<Vec<Paged<MemDisk>>>
    requires key { desk.now.key.now ≡ scene.now.dealt.public }
    requires plan { desk.now.plan.now ≡ scene.now.plan }
    ensures count { IfSome result (λ cells. vec_len cells ≡ 2) }
    ensures reads { IfSome result (λ cells. All (λ own.
        (⟦<Paged<MemDisk> as Cells>⟧.set own ≡ desk.now.key.now.params)
        × (⟦<Paged<MemDisk> as Cells>⟧.plan own ≡ desk.now.plan.now)) cells.items) }
{
    let first = scene.cells(alloc)?;
    let second = scene.cells(alloc)?;
    vec![in alloc; first, second].ok()
}

/// Serves the clients at two ports with a table and cells, and returns the table that came back.
fn serve_with<R: Threads + Wait + Sync, X: Cells + Send, D: Disk + Send + Drop, P: Port + Send>(
    rt: &R,
    alloc: Global,
    desk: &Desk,
    table: Table<D>,
    cells: &mut Vec<X>,
    ports: &mut Vec<P>,
) -> Option<Table<D>>
    requires plan { plan_of table ≡ desk.now.plan.now }
    requires cells { All (ReadsFor X.Cells.own desk.now) cells.old.items }
    requires two { (vec_len cells.old ≡ 2) × (vec_len ports.old ≡ 2) }
{
    let turns = TurnsOnly::of(rt);
    let (table, served) = serve_clients(&turns, alloc, desk, table, cells, ports, 1);
    match served {
        Ok(_) => Some(table),
        Err(_) => None,
    }
}

/// Serves the clients at two ports, and returns the table that came back.
fn serve<'a, R: Threads + Wait + Sync>(
    rt: &R,
    alloc: Global,
    scene: &Scene,
    ports: &mut Vec<MeetingPort<'a, R>>,
) -> Option<Table<MemDisk>>
    requires { vec_len ports.old ≡ 2 }
{
    let desk = scene.desk();
    let mut cells = cells_of(alloc, scene, &desk)?;
    let table = scene.table(alloc)?;
    serve_with(rt, alloc, &desk, table, &mut cells, ports)
}

/// Serves the clients at two ports, and returns what came of their requests.
fn serve_at<'a, R: Threads + Wait + Sync>(
    rt: &R,
    alloc: Global,
    scene: &Scene,
    ports: &mut Vec<MeetingPort<'a, R>>,
) -> Option<Met>
    requires { vec_len ports.old ≡ 2 }
{
    let table = serve(rt, alloc, scene, ports)?;
    let signed = signed_leaves(alloc, &scene.dealt.public, ports);
    Some(Met { signed, table })
}

/// Serves both clients.
fn serve_both<'a, R: Threads + Wait + Sync>(
    rt: &R,
    alloc: Global,
    scene: &Scene,
    meeting: &'a Meeting<'a, R>,
) -> Option<Met> {
    let mut ports = ports_of(alloc, meeting)?;
    serve_at(rt, alloc, scene, &mut ports)
}

/// Serves both clients with what was dealt.
fn meet_with<R: Threads + Wait + Sync>(threads: &R, alloc: Global, scene: &Scene) -> Option<Met> {
    let meeting = Meeting {
        waits: threads,
        alloc,
        shares: &scene.dealt.shares,
        bell: Bell::new(LOOKS),
    };
    serve_both(threads, alloc, scene, &meeting)
}

/// Deals the key of the entropy that the program reads.
fn dealt(rt: HostRuntime) -> Option<Scene> {
    Scene::deal(rt.alloc(), &file(rt, "entropy")?)
}

/// Deals the key and serves both clients.
fn meet<R: Threads + Wait + Sync>(threads: &R, rt: HostRuntime) -> Option<Met> {
    meet_with(threads, rt.alloc(), &dealt(rt)?)
}

/// Prints whether a signature was accepted.
fn print_verdict(rt: HostRuntime, signed: Option<u32>) -> io::Result<()> {
    let verdict = if signed.is_some() {
        "accepted"
    } else {
        "not accepted"
    };
    println!(rt; "{verdict}")
}

/// Prints what came of both requests: the lesser leaf first, whichever client got it.
fn print_signed(rt: HostRuntime, signed: [Option<u32>; 2]) -> io::Result<()> {
    let [first, second] = signed;
    if let (Some(one), Some(other)) = (first, second) {
        let (less, more) = (one.min(other), one.max(other));
        println!(rt; "signed leaves {less} and {more}")?;
    }
    print_verdict(rt, first)?;
    print_verdict(rt, second)
}

/// Prints what a table holds.
fn print_leases(rt: HostRuntime, leases: &[Lease]) -> io::Result<()> {
    for lease in leases {
        let (word, leaf) = match lease {
            Lease::Leased { leaf, .. } => ("leased", leaf),
            Lease::Burnt { leaf } => ("burnt", leaf),
        };
        println!(rt; "{word} leaf {leaf}")?;
    }
    Ok(())
}

/// Prints what came of both requests.
fn print_met(rt: HostRuntime, met: &Met) -> io::Result<()> {
    print_signed(rt, met.signed)?;
    print_leases(rt, met.table.entries())
}

/// Prints that the clients were not served.
fn print_unserved(rt: HostRuntime) -> io::Result<()> {
    println!(rt; "not served")
}

/// Runs the meeting, and prints what came of it.
pub(crate) fn print_runs<R: Threads + Wait + Sync>(threads: &R, rt: HostRuntime) -> io::Result<()> {
    match meet(threads, rt) {
        Some(met) => print_met(rt, &met),
        None => print_unserved(rt),
    }
}
