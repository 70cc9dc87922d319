//! The lines of scripts that run a command. What runs it is passed in: it does what the words ask for over a store and
//! a net, prints its line, and gives its status.

use crate::answers::answered;
use crate::given::words_of;
use crate::links::{add_port, asked, take_net, wait};
use crate::scene::held;
use crate::world::World;
use std::alloc::{AllocError, Global};
use std::fmt::Write;
use std::str;
use stream_memory::{MemNet, MemSink, MemStore};

/// Runs a command over a store and a net, with room for what it prints, and gives what it printed and its status.
fn run_here<F: Fn(&[String], &mut MemStore, &mut MemNet, &mut MemSink) -> u8>(
    run: &F,
    store: &mut MemStore,
    net: &mut MemNet,
    alloc: Global,
    room: usize,
    text: &str,
) -> Result<(MemSink, u8), AllocError>
    requires { F.IsAlwaysCallable run.now }
{
    let words = words_of(alloc, text)?;
    let mut out = held(MemSink::new(alloc, room, 7, Vec::new(alloc)))?;
    let status = run(&words, store, net, &mut out);
    Ok((out, status))
}

/// Prints what a command printed, and its status.
fn tell_ran(page: &mut String, line: &[u8], status: u8) -> Result<(), AllocError> {
    let line = str::from_utf8(line).unwrap_or("no text");
    writeln!(page, "{line}[status {status}]")
}

/// Runs a command over the store and the next net, and prints its line and its status.
pub(crate) fn run_line<F: Fn(&[String], &mut MemStore, &mut MemNet, &mut MemSink) -> u8>(
    run: &F,
    world: &mut World,
    text: &str,
) -> Result<(), AllocError>
    requires { F.IsAlwaysCallable run.now }
{
    world.net = take_net(world)?;
    let (alloc, room) = (world.alloc, world.rooms.2);
    let (out, status) = run_here(run, &mut world.store, &mut world.net, alloc, room, text)?;
    tell_ran(&mut world.page, out.written(), status)
}

/// Makes what was asked at a place wait at the next port, under the name of the place.
fn wait_asked(world: &mut World, place: &str) -> Result<(), AllocError> {
    let asks = Vec::from_slice(world.alloc, asked(world.net.kept(0), place))?;
    world.put(place, asks)?;
    add_port(world)?;
    wait(world, place)
}

/// Keeps the answer to a client over a net under this name.
fn keep_answer(world: &mut World, net: &MemNet, name: &str) -> Result<(), AllocError> {
    let answer = Vec::from_slice(world.alloc, answered(net.kept(0), 0))?;
    world.put(name, answer)
}

/// Runs a command that is sent what was asked at a place, and keeps what it answers under the name of the place.
pub(crate) fn reply<F: Fn(&[String], &mut MemStore, &mut MemNet, &mut MemSink) -> u8>(
    run: &F,
    world: &mut World,
    place: &str,
    text: &str,
) -> Result<(), AllocError>
    requires { F.IsAlwaysCallable run.now }
{
    wait_asked(world, place)?;
    let mut net = take_net(world)?;
    let (alloc, room) = (world.alloc, world.rooms.2);
    run_here(run, &mut world.store, &mut net, alloc, room, text)?;
    keep_answer(world, &net, place)
}
