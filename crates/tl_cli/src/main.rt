//! The program: the tool over files, sockets, the machine's clock and standard output.
#![tactic(auto)]

mod standard;

use memory::NoMemory;
use standard::hold_standard;
use std::env;
use std::io::ErrorKind;
use std::process::ExitCode;
use stream_host::{FileStore, ProgressLine, StdoutSink, TcpNet};
use stream_io::write_whole;
use tool_run::{SystemClocks, run_tool};

/// The words after the program's name. If one of them is not text there are none, which is a faulty command line too.
fn words(rt: &HostRuntime) -> Result<Vec<String>, NoMemory> {
    match env::args(rt) {
        Ok(words) => Ok(words.skip(1).collect(rt.alloc())?),
        Err(error) if error.kind() == ErrorKind::OutOfMemory => Err(NoMemory),
        Err(_) => Ok(Vec::new(rt.alloc())),
    }
}

fn main(rt: HostRuntime) -> ExitCode {
    let _standard = hold_standard(&rt);
    let mut out = StdoutSink::new(rt);
    let Ok(words) = words(&rt) else {
        let _ = write_whole(&mut out, b"error 14 memory\n");
        return ExitCode::from(14);
    };
    ExitCode::from(run_tool(
        &rt,
        &mut ProgressLine::new(rt),
        rt.alloc(),
        words.as_slice(),
        &mut FileStore::new(rt),
        &mut TcpNet::new(rt),
        &mut SystemClocks::new(rt),
        &mut out,
    ))
}
