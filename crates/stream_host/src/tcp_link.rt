//! Links over sockets.

ghost use Rattle.std.specs.Prelude.{◌≡◌, false, refl};
ghost use Rattle.std.specs.Io.{ReadsAtMost, WritesAtMost};
ghost use Rattle.stream_host.specs.Untold.{untold_talk};

use crate::fault_count::FaultCount;
use disk_trait::Faults;
use std::io;
use std::io::{ErrorKind, Read, Write};
use std::net::OpenStream;
use stream_io::{Failed, Sink, Source, Stream};

/// A link over a socket, whose reads and writes are one call of the system each. It tells nothing but its count of
/// faults. If the peer breaks it off, its reads and writes fail, and no other link notices.
#[derive(Drop)]
pub struct TcpLink<S: Read + Write + OpenStream + Drop> {
    stream: S,
    faults: FaultCount,
}

impl<S: Read + Write + OpenStream + Drop> TcpLink<S> {
    /// A link over a socket that is connected. Its small pieces are not held back for larger ones; if the system
    /// refuses that, they only come later.
    pub(crate) fn new(stream: S) -> TcpLink<S>
        ensures { result.faults ≡ 0 }
    {
        let _ = stream.set_nodelay(true);
        TcpLink {
            stream,
            faults: FaultCount::new(),
        }
    }
}

impl<S: Read + Write + OpenStream + Drop> Faults for TcpLink<S> {
    ghost count = { λ s. s.faults };

    ghost steady = { λ _. false };

    fn faults(&self) -> u64 {
        self.faults.get()
    }
}

impl<S: Read + Write + OpenStream + Drop> Stream for TcpLink<S> {
    ghost talk = { λ s. untold_talk s.faults };

    ghost counts = { λ _. refl };
}

impl<S: Read + Write + OpenStream + Drop> Source for TcpLink<S> {
    fn read(&mut self, out: &mut [u8]) -> Result<usize, Failed> {
        match read_again(&mut self.stream, out) {
            Ok(count) => Ok(count),
            Err(_) => Err(self.faults.fail()),
        }
    }
}

impl<S: Read + Write + OpenStream + Drop> Sink for TcpLink<S> {
    ghost room = { λ _. 0 };

    ghost rooms = { λ _. refl };

    /// Writes a beginning of the piece. A write that takes nothing is a fault.
    fn write(&mut self, bytes: &[u8]) -> Result<usize, Failed> {
        match write_again(&mut self.stream, bytes) {
            Ok(count) if count > 0 || bytes.is_empty() => Ok(count),
            _ => Err(self.faults.fail()),
        }
    }
}

/// Reads once, and again if a signal interrupted it.
fn read_again<S: Read>(stream: &mut S, out: &mut [u8]) -> io::Result<usize>
    ensures { ReadsAtMost result out.new }
{
    for _ in 0..u64::MAX {
        match stream.read(out) {
            Err(error) if error.kind() == ErrorKind::Interrupted => {}
            done => return done,
        }
    }
    Err(io::Error::from(ErrorKind::Interrupted))
}

/// Writes once, and again if a signal interrupted it.
fn write_again<S: Write>(stream: &mut S, bytes: &[u8]) -> io::Result<usize>
    ensures { WritesAtMost result bytes.now }
{
    for _ in 0..u64::MAX {
        match stream.write(bytes) {
            Err(error) if error.kind() == ErrorKind::Interrupted => {}
            done => return done,
        }
    }
    Err(io::Error::from(ErrorKind::Interrupted))
}
