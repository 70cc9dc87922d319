//! Tests of standard output as a sink.

use crate::scripts::link_calls::says;
use crate::scripts::none_wrong;
use std::cell::Cell;
use std::fmt::Display;
use std::io;
use std::io::ErrorKind;
use stream_host::StdoutSink;

/// An output that takes one byte at a time after an interruption, until it takes none.
#[derive(Drop)]
struct FakeOutput<'a> {
    taken: &'a Cell<u8>,
    calls: Cell<u8>,
}

impl Print for FakeOutput<'_> {
    /// Fails.
    fn print<D: Display + Drop>(&self, _value: D) -> io::Result<()> {
        Err(io::Error::from(ErrorKind::Unsupported))
    }

    /// Fails.
    fn println<D: Display + Drop>(&self, _value: D) -> io::Result<()> {
        Err(io::Error::from(ErrorKind::Unsupported))
    }

    /// Fails.
    fn write_all(&self, _bytes: &[u8]) -> io::Result<()> {
        Err(io::Error::from(ErrorKind::Unsupported))
    }

    /// Takes a byte, or is interrupted.
    fn write_some(&self, bytes: &[u8]) -> io::Result<usize> {
        let call = self.calls.get();
        self.calls.set(call.saturating_add(1));
        if call % 2 == 0 {
            return Err(io::Error::from(ErrorKind::Interrupted));
        }
        if bytes.is_empty() || call > 5 {
            return Ok(0);
        }
        self.taken.set(bytes[0]);
        Ok(1)
    }
}

/// An output that is made up, and that of the machine.
#[test]
fn an_output_takes_all_bytes(rt: HostRuntime) {
    let taken = Cell::new(0);
    let output = FakeOutput {
        taken: &taken,
        calls: Cell::new(0),
    };
    let script = "ok send abc; ok count 0; failed send d; ok count 1";
    none_wrong(&rt, says(&mut StdoutSink::new(output), script), script);
    assert!(rt; taken.get() == b'c');
    let script = "ok send hello; ok write 0; ok count 0";
    none_wrong(&rt, says(&mut StdoutSink::new(rt), script), script);
}
