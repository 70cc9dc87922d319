//! A session over links.

ghost use Rattle.std.specs.Prelude.{◌≡◌, ◌⊎◌, ◌+◌, ◌*◌, ◌^◌, ◌<◌, ◌≤◌, ◌++◌, [], All, Contains, length};
ghost use Rattle.std.specs.Prelude.{IfOk, IsTrue, None, OnOk, map};
ghost use Rattle.aggregator_session.specs.Causes.{DialCauses, LinkCauses, PortCauses, ReferenceCauses, asks_length};
ghost use Rattle.std.specs.Vec.{vec_capacity, vec_len};
ghost use Rattle.aggregator_session.specs.Runs.{AskedAgain, First, HasCalled, HasRun, SameSession, Second, SignRun};
ghost use Rattle.aggregator_session.specs.Runs.{bytes_in, first_frame, reads_of, second_frames};
ghost use Rattle.aggregator_session.specs.Desks.{ReadsFor, desk_state};
ghost use Rattle.aggregator_session.specs.Tasks.{AddsAsked, AreAsked, HangsUpAll, MayRun, StandsAgain, StandsFirst};
ghost use Rattle.coalition_map.specs.Coalitions.{leaf_members};
ghost use Rattle.session_core.specs.Asks.{IsAskOf};
ghost use Rattle.session_core.specs.State.{SameAsk};
ghost use Rattle.session_core.specs.Verdicts.{AreMasks};

use crate::asks::ask_member;
use crate::desk::{Desk, place_of};
use crate::fault::{SignFault, Why};
use coalition_map::Plan;
use disk_trait::Faults;
use lms_bytes::{Ask, Params, Val};
use reference_value::Cells;
use session_core::Session;
use std::alloc::{AllocError, Global};
use stream_io::{Port, Sink, Source, Stream};

/// What a session is asked to do: the members of its leaf sign a message.
#[derive(Clone, Copy)]
struct Task<'a> {
    desk: &'a Desk<'a>,
    members: &'a [u8],
    message: &'a [u8],
}

/// Runs a session with the members of its leaf, and hangs up every link that it dialled. The members are dialled and
/// asked one after the other in ascending order, and then asked again over the same links; the first that is lost,
/// strays or refuses ends the session. The answer is the signature.
pub fn run_session<R: Cells, P: Port>(
    alloc: Global,
    desk: &Desk,
    cells: &mut R,
    port: &mut P,
    session: &mut Session,
    message: &[u8],
) -> Result<Vec<u8>, SignFault>
    requires session { MayRun desk.now.key.now desk.now.plan.now message.now session.old }
    requires cells { ReadsFor R.Cells.own desk.now cells.old }
    ensures ran { HasRun (desk_state desk.now) (reads_of R.Cells.own R.Faults cells.old cells.new) message.now
        (P.state port.old) (P.state port.new) session.old session.new (bytes_in result) }
    ensures port { PortCauses message.now (P.state port.old) (P.state port.new) result }
    ensures cells { ReferenceCauses R.Cells.own R.Faults cells.old cells.new result }
{
    let memory = take_memory(alloc, desk, session.leaf())?;
    let (members, mut room, mut links) = memory;
    let task = Task {
        desk,
        members: &members,
        message,
    };
    let result = ask_all(alloc, &task, cells, port, session, &mut links, &mut room);
    hang_up_all(port, links);
    result
}

/// Takes the memory for a session of a leaf: the list of its members, room for the masks of all chains, and room for a
/// link to each member.
fn take_memory<L>(
    alloc: Global,
    desk: &Desk,
    leaf: u32,
) -> Result<(Vec<u8>, Vec<u8>, Vec<L>), AllocError>
    requires { leaf < 2 ^ desk.now.plan.now.h }
    ensures members { IfOk result (λ memory. memory.0.items ≡ leaf_members desk.now.plan.now leaf) }
    ensures room { IfOk result (λ memory.
        length memory.1.items ≡ desk.now.key.now.params.p * desk.now.key.now.params.n) }
    ensures links { IfOk result (λ memory. memory.2.items ≡ []) }
    ensures space { IfOk result (λ memory. length memory.0.items ≤ vec_capacity memory.2) }
{
    let members = members_of(alloc, desk.plan, leaf)?;
    let params = &desk.key.params;
    let room = vec![in alloc; 0; params.p as usize * params.n as usize]?;
    let links = Vec::with_capacity(alloc, members.len())?;
    Ok((members, room, links))
}

/// The members of a leaf, in ascending order.
fn members_of(alloc: Global, plan: &Plan, leaf: u32) -> Result<Vec<u8>, AllocError>
    requires { leaf < 2 ^ plan.now.h }
    ensures { IfOk result (λ list. list.items ≡ leaf_members plan.now leaf) }
{
    let members = plan.members_of(leaf);
    let mut list = Vec::with_capacity(alloc, members.size() as usize)?;
    'trustees: for t in 1..plan.n() + 1 {
        if members.has(t) {
            list.push(t)?;
        }
    }
    Ok(list)
}

/// Hangs up all links, the first one first.
fn hang_up_all<P: Port>(port: &mut P, mut links: Vec<P::Link>)
    ensures { HangsUpAll (P.state port.old) (map (λ link. P.Link.talk link) links.items) (P.state port.new) }
{
    for _ in 0..links.len() {
        port.hang_up(links.remove(0));
    }
    links.destroy_empty();
}

/// Both rounds. The links stay with the caller, however this ends.
fn ask_all<R: Cells, P: Port>(
    alloc: Global,
    task: &Task,
    cells: &mut R,
    port: &mut P,
    session: &mut Session,
    links: &mut Vec<P::Link>,
    room: &mut [u8],
) -> Result<Vec<u8>, SignFault>
    requires task { StandsFirst task.now session.old (R.set cells.old) (R.plan cells.old) (length room.old) }
    requires none { links.old.items ≡ [] }
    requires space { length task.now.members.now ≤ vec_capacity links.old }
    ensures run { SignRun (desk_state task.now.desk.now) (reads_of R.Cells.own R.Faults cells.old cells.new)
        task.now.message.now (P.state port.old) session.old (map (λ link. P.Link.talk link) links.new.items)
        session.new (bytes_in result) }
    ensures dials { DialCauses (asks_length task.now.message.now) (P.state port.old) (P.state port.new) result }
    ensures cells { ReferenceCauses R.Cells.own R.Faults cells.old cells.new result }
    ensures same { SameSession session.old session.new }
    ensures count { R.count cells.old ≤ R.count cells.new }
{
    dial_all(task, cells, port, session, links, room)?;
    session.turn(cells)?;
    let digest = session.digest(task.message);
    ask_again(task, &digest, cells, session, links, room)?;
    Ok(session.finish_with(alloc, cells, task.desk.tree, &digest)?)
}

/// Round one, until a member refuses.
fn dial_all<R: Cells, P: Port>(
    task: &Task,
    cells: &mut R,
    port: &mut P,
    session: &mut Session,
    links: &mut Vec<P::Link>,
    room: &mut [u8],
) -> Result<(), SignFault>
    requires task { StandsFirst task.now session.old (R.set cells.old) (R.plan cells.old) (length room.old) }
    requires room { (links.old.items ≡ []) × (length task.now.members.now ≤ vec_capacity links.old) }
    ensures run { First task.now.desk.now.addresses.now (first_frame session.old) (P.state port.old) session.old
        task.now.members.now (map (λ link. P.Link.talk link) links.new.items) session.new result }
    ensures whole { OnOk result ((vec_len links.new ≡ length task.now.members.now)
        ⊎ (AreMasks session.new.first → ⊥)) }
    ensures dials { DialCauses 64 (P.state port.old) (P.state port.new) result }
    ensures links { AreAsked P.Link.steady P.Link.room (P.state port.old) links.new.items }
    ensures same { SameAsk session.old session.new }
    ensures cells { cells.new ≡ cells.old }
{
    'members: for i in 0..task.members.len() {
        if !dial_member(task, task.members[i], cells, port, session, links, room)? {
            return Ok(());
        }
    }
    Ok(())
}

/// Dials a member and asks it in round one, and tells whether it answered with masks.
fn dial_member<R: Cells, P: Port>(
    task: &Task,
    member: u8,
    cells: &mut R,
    port: &mut P,
    session: &mut Session,
    links: &mut Vec<P::Link>,
    room: &mut [u8],
) -> Result<bool, SignFault>
    requires task { StandsFirst task.now session.old (R.set cells.old) (R.plan cells.old) (length room.old) }
    requires member { Contains (leaf_members session.old.plan session.old.leaf) member }
    requires space { vec_len links.old < vec_capacity links.old }
    ensures called { let talk = P.Link.Stream.talk in
        HasCalled task.now.desk.now.addresses.now (first_frame session.old) member
        (record { session = session.old; port = P.state port.old; talks = map talk links.old.items })
        (record { session = session.new; port = P.state port.new; talks = map talk links.new.items }) result }
    ensures dials { DialCauses 64 (P.state port.old) (P.state port.new) result }
    ensures links { AddsAsked P.Link.steady P.Link.room (P.state port.old) links.old.items links.new.items }
    ensures cells { cells.new ≡ cells.old }
    ensures room { (vec_capacity links.new ≡ vec_capacity links.old)
        × OnOk result (vec_len links.new ≡ vec_len links.old + 1) }
{
    let params = &task.desk.key.params;
    let ask = first_ask(params, cells, session, member);
    let Some(place) = place_of(task.desk.addresses, member) else {
        return Err(SignFault::Lost {
            member,
            round: 1,
            why: Why::NoAddress,
        });
    };
    let Ok(mut link) = port.dial(place) else {
        return Err(SignFault::Lost {
            member,
            round: 1,
            why: Why::DialFailed,
        });
    };
    let answer = ask_member(params, session, member, &ask, task.message, &mut link, room);
    links.push_reserved(link);
    answer
}

/// The ask of round one to a member. It has no digest, and reads no cell, so it is always made.
fn first_ask<R: Cells>(params: &Params, cells: &mut R, session: &Session, member: u8) -> Ask
    requires round { session.now.c ≡ None }
    requires member { Contains (leaf_members session.now.plan session.now.leaf) member }
    requires cells { (R.set cells.old ≡ session.now.key.params) × (R.plan cells.old ≡ session.now.plan) }
    ensures ask { IsAskOf session.now [] result }
    ensures cells { cells.new ≡ cells.old }
{
    let Ok(ask) = session.ask(cells, member, &Val::cut(&[0; 32], params.n)) else {
        unreachable!()
    };
    ask
}

/// Round two, until a member refuses.
fn ask_again<R: Cells, L: Source + Sink>(
    task: &Task,
    digest: &Val,
    cells: &mut R,
    session: &mut Session,
    links: &mut Vec<L>,
    room: &mut [u8],
) -> Result<(), SignFault>
    requires task { StandsAgain task.now session.old (R.set cells.old) (R.plan cells.old) (length room.old) digest.now }
    requires links { vec_len links.old ≡ length task.now.members.now }
    ensures run { Second (second_frames (reads_of R.Cells.own R.Faults cells.old cells.new) session.old
        task.now.message.now) session.old task.now.members.now (map (λ link. L.talk link) links.old.items)
        (map (λ link. L.talk link) links.new.items) session.new result }
    ensures cells { ReferenceCauses R.Cells.own R.Faults cells.old cells.new result }
    ensures links { LinkCauses (All (λ link. IsTrue (L.steady link)) links.old.items)
        (All (λ link. 92 + length task.now.message.now ≤ L.room link) links.old.items) result }
    ensures same { SameAsk session.old session.new }
    ensures count { R.count cells.old ≤ R.count cells.new }
{
    'members: for i in 0..task.members.len() {
        let member = task.members[i];
        if !ask_once_more(task, digest, member, cells, session, &mut links[i], room)? {
            return Ok(());
        }
    }
    Ok(())
}

/// Asks a member in round two, and tells whether it answered with masks.
fn ask_once_more<R: Cells, L: Source + Sink>(
    task: &Task,
    digest: &Val,
    member: u8,
    cells: &mut R,
    session: &mut Session,
    link: &mut L,
    room: &mut [u8],
) -> Result<bool, SignFault>
    requires task { StandsAgain task.now session.old (R.set cells.old) (R.plan cells.old) (length room.old) digest.now }
    requires member { Contains (leaf_members session.old.plan session.old.leaf) member }
    ensures asked { AskedAgain (second_frames (reads_of R.Cells.own R.Faults cells.old cells.new) session.old
        task.now.message.now) session.new member (L.talk link.old) (L.talk link.new) result }
    ensures cells { ReferenceCauses R.Cells.own R.Faults cells.old cells.new result }
    ensures links { LinkCauses (IsTrue (L.steady link.old))
        (92 + length task.now.message.now ≤ L.room link.old) result }
    ensures steady { L.steady link.new ≡ L.steady link.old }
    ensures same { SameAsk session.old session.new }
    ensures count { R.count cells.old ≤ R.count cells.new }
{
    let ask = session.ask(cells, member, digest)?;
    ask_member(
        &task.desk.key.params,
        session,
        member,
        &ask,
        task.message,
        link,
        room,
    )
}
