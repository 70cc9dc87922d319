//! How a script is played.

use crate::given::read_all;
use crate::runs::{reply, run_line};
use crate::script::lines_of;
use crate::verbs::do_verb;
use crate::world::{World, new_world};
use std::alloc::AllocError;
use std::io;
use stream_memory::{MemNet, MemSink, MemStore};

/// The first word of a text, and what follows it.
fn split_first(text: &str) -> (&str, &str) {
    text.split_once(' ').unwrap_or((text, ""))
}

/// Does what a line says, and prints the line if it is wrong.
fn obey<F: Fn(&[String], &mut MemStore, &mut MemNet, &mut MemSink) -> u8>(
    run: &F,
    world: &mut World,
    line: &str,
) -> Result<(), AllocError>
    requires { F.IsAlwaysCallable run.now }
{
    let (verb, rest) = split_first(line);
    match verb {
        "run" => run_line(run, world, rest)?,
        "reply" => {
            let (place, text) = split_first(rest);
            reply(run, world, place, text)?;
        }
        _ => do_verb(world, verb, rest)?,
    }
    world.judge(line)
}

/// A world with the files of the system that the file `index` names, and nothing else in it.
pub fn world_here(rt: HostRuntime) -> io::Result<World> {
    let files = read_all(rt, "index")?;
    Ok(new_world(rt.alloc(), files)?)
}

/// Does what lines say, one after the other.
fn obey_all<F: Fn(&[String], &mut MemStore, &mut MemNet, &mut MemSink) -> u8>(
    run: &F,
    world: &mut World,
    lines: &[String],
) -> Result<(), AllocError>
    requires { F.IsAlwaysCallable run.now }
{
    for line in lines {
        obey(run, world, line)?;
    }
    Ok(())
}

/// Plays the script of this name, which is one of the files of a world, and prints what it prints.
pub fn print_played<F: Fn(&[String], &mut MemStore, &mut MemNet, &mut MemSink) -> u8>(
    run: &F,
    rt: HostRuntime,
    world: &mut World,
    name: &str,
) -> io::Result<()>
    requires { F.IsAlwaysCallable run.now }
{
    let lines = lines_of(world, name)?;
    obey_all(run, world, &lines)?;
    print!(rt; "{}", world.said())
}

/// Plays the script of this name in a world of its own, and prints what it prints.
fn print_script<F: Fn(&[String], &mut MemStore, &mut MemNet, &mut MemSink) -> u8>(
    run: &F,
    rt: HostRuntime,
    name: &str,
) -> io::Result<()>
    requires { F.IsAlwaysCallable run.now }
{
    let mut world = world_here(rt)?;
    print_played(run, rt, &mut world, name)
}

/// Plays each script of these names in a world of its own, and prints what it prints.
pub fn print_scripts<F: Fn(&[String], &mut MemStore, &mut MemNet, &mut MemSink) -> u8>(
    run: &F,
    rt: HostRuntime,
    names: &[&str],
) -> io::Result<()>
    requires { F.IsAlwaysCallable run.now }
{
    for name in names {
        print_script(run, rt, name)?;
    }
    Ok(())
}
