//! The top call.

ghost use Rattle.std.specs.Prelude.{◌≡◌, ◌⊎◌, Some, map, string_bytes, ◌==◌, if◌then◌else◌};
ghost use Rattle.stream_io.specs.Net.{NetState};
ghost use Rattle.tool_base.specs.Ending.{status_of};
ghost use Rattle.tool_base.specs.Endings.{ending};
ghost use Rattle.tool_run.specs.Told.{WordsTell};
ghost use Rattle.tool_run.specs.ToolRun.{CommandRun, EndsSo, IsCutShort, IsOnStore, IsPrinted, ToolRun, WordsRun};
ghost use Rattle.tool_words.specs.Rows.{row};
ghost use Rattle.tool_words.specs.Words.{OutputsDiffer, command_of};
ghost use Rattle.tool_base.specs.World.{IsBack, IsNetBack, TimeState, output_run};

use crate::drilling::drill_sessions;
use std::alloc::Global;
use std::sync::Wait;
use std::thread::Threads;
use stream_io::{Failed, Net, Progress, Sink, Store, write_whole};
use tool_aggregate::aggregate;
use tool_base::Ending;
use tool_blame::blame;
use tool_journals::{approve_message, enrol_file, migrate_journal};
use tool_keys::{deal_files, hss_check_files, rehearse_files, verify_files};
use tool_show::show_file;
use tool_sign::{hss_sign, sign};
use tool_trustee::{Clocks, serve_trustee};
use tool_words::{Command, command_of};
use turn_lock::TurnsOnly;

/// Does what the words ask for, and answers the status. The words begin with the command. `progress` is told how far a
/// dealing has come.
pub fn run_tool<R: Threads + Wait + Sync, P: Progress, S: Store, N: Net, T: Clocks, O: Sink>(
    rt: &R,
    progress: &mut P,
    alloc: Global,
    words: &[String],
    store: &mut S,
    net: &mut N,
    time: &mut T,
    out: &mut O,
) -> u8
    ensures run { ToolRun (map string_bytes words.now)
        (record {
          before = record { store = S.state store.old; net = N.state net.old; time = T.state time.old };
          after = record { store = S.state store.new; net = N.state net.new; time = T.state time.new };
          output = output_run O.steady O.room O.talk out.old out.new;
        })
        result }
    ensures told { WordsTell P.told (command_of (map string_bytes words.now)) result progress.old progress.new }
{
    run_in_turns(
        &TurnsOnly::of(rt),
        progress,
        alloc,
        words,
        store,
        net,
        time,
        out,
    )
}

/// Does what the words ask for as `run_tool` does. It may wait for turns of a lock, and for nothing else.
fn run_in_turns<R: Threads + Wait + Sync, P: Progress, S: Store, N: Net, T: Clocks, O: Sink>(
    turns: &TurnsOnly<R>,
    progress: &mut P,
    alloc: Global,
    words: &[String],
    store: &mut S,
    net: &mut N,
    time: &mut T,
    out: &mut O,
) -> u8
    ensures run { ToolRun (map string_bytes words.now)
        (record {
          before = record { store = S.state store.old; net = N.state net.old; time = T.state time.old };
          after = record { store = S.state store.new; net = N.state net.new; time = T.state time.new };
          output = output_run O.steady O.room O.talk out.old out.new;
        })
        result }
    ensures told { WordsTell P.told (command_of (map string_bytes words.now)) result progress.old progress.new }
{
    let end = run_words(turns, progress, alloc, words, store, net, time);
    finish(alloc, &end, out)
}

/// Does what the words ask for, and answers how it ends.
fn run_words<R: Threads + Wait + Sync, P: Progress, S: Store, N: Net, T: Clocks>(
    turns: &TurnsOnly<R>,
    progress: &mut P,
    alloc: Global,
    words: &[String],
    store: &mut S,
    net: &mut N,
    time: &mut T,
) -> Ending
    ensures ended { WordsRun (command_of (map string_bytes words.now))
        (record { store = S.state store.old; net = N.state net.old; time = T.state time.old })
        (record { store = S.state store.new; net = N.state net.new; time = T.state time.new })
        (ending result) }
    ensures back { IsBack (S.state store.old) (S.state store.new) }
    ensures net { IsNetBack (N.state net.old) (N.state net.new) }
    ensures time { T.state time.new ≡ T.state time.old }
    ensures told { WordsTell P.told (command_of (map string_bytes words.now)) (status_of (ending result))
        progress.old progress.new }
{
    match command_of(alloc, words) {
        Some(command) => run_command(turns, progress, alloc, &command, store, net, time),
        None => Ending::Usage,
    }
}

/// Does what a command asks for, and answers how it ends.
fn run_command<R: Threads + Wait + Sync, P: Progress, S: Store, N: Net, T: Clocks>(
    turns: &TurnsOnly<R>,
    progress: &mut P,
    alloc: Global,
    command: &Command,
    store: &mut S,
    net: &mut N,
    time: &mut T,
) -> Ending
    requires differ { OutputsDiffer (row command.now) }
    ensures ended { CommandRun (row command.now)
        (record { store = S.state store.old; net = N.state net.old; time = T.state time.old })
        (record { store = S.state store.new; net = N.state net.new; time = T.state time.new })
        (ending result) }
    ensures back { IsBack (S.state store.old) (S.state store.new) }
    ensures net { IsNetBack (N.state net.old) (N.state net.new) }
    ensures time { T.state time.new ≡ T.state time.old }
    ensures told { WordsTell P.told (Some (row command.now)) (status_of (ending result)) progress.old progress.new }
{
    match command {
        Command::Deal(words) => deal_files(turns, progress, alloc, store, words),
        Command::Trustee(words) => serve_trustee(turns, alloc, words, store, net, time),
        Command::Sign(words) => sign(alloc, words, store, net),
        Command::Blame(words) => blame(alloc, words, store, net),
        Command::HssSign(words) => hss_sign(alloc, words, store, net),
        Command::Aggregate(words) => aggregate(turns, alloc, words, store, net),
        _ => run_on_store(alloc, command, store),
    }
}

/// Does what a command that works on the store alone asks for, and answers how it ends.
fn run_on_store<S: Store>(alloc: Global, command: &Command, store: &mut S) -> Ending
    requires alone { IsOnStore (row command.now) }
    requires differ { OutputsDiffer (row command.now) }
    ensures ended { (net : NetState) (time : TimeState) → CommandRun (row command.now)
        (record { store = S.state store.old; net = net; time = time })
        (record { store = S.state store.new; net = net; time = time })
        (ending result) }
    ensures back { IsBack (S.state store.old) (S.state store.new) }
{
    match command {
        Command::Verify {
            key,
            message,
            signature,
        } => verify_files(alloc, store, key, message, signature),
        Command::Rehearse {
            entropy,
            message,
            key_out,
            signature_out,
        } => rehearse_files(alloc, store, entropy, message, key_out, signature_out),
        Command::Enrol { file, journal } => enrol_file(alloc, store, file, journal),
        Command::Migrate {
            share,
            journal,
            new,
        } => migrate_journal(alloc, store, share, journal, new),
        Command::Approve {
            share,
            book,
            message,
        } => approve_message(alloc, store, share, book, message),
        Command::HssCheck {
            key,
            message,
            signature,
        } => hss_check_files(alloc, store, key, message, signature),
        Command::Drill(words) => drill_sessions(alloc, words),
        Command::Show { file, leaves } => show_file(alloc, store, file, *leaves),
        _ => unreachable!(),
    }
}

/// Prints the line of an end, and answers its status.
fn finish<O: Sink>(alloc: Global, end: &Ending, out: &mut O) -> u8
    ensures { let run = output_run O.steady O.room O.talk out.old out.new in
        EndsSo run (ending end.now) result }
{
    match end.line(alloc) {
        Ok(line) => print(line.as_bytes(), end.status(), out),
        Err(_) => print(b"error 14 memory\n", 14, out),
    }
}

/// Prints a line, and answers the status: 3 in place of 0 if the line cannot be printed whole.
fn print<O: Sink>(line: &[u8], status: u8, out: &mut O) -> u8
    ensures { let run = output_run O.steady O.room O.talk out.old out.new in
        (IsPrinted run line.now × (result ≡ status))
        ⊎ (IsCutShort run line.now × (result ≡ (if status == 0 then 3 else status))) }
{
    match write_whole(out, line) {
        Ok(()) => status,
        Err(Failed) if status == 0 => 3,
        Err(Failed) => status,
    }
}
