//! The sink over standard output.

ghost use Rattle.std.specs.Prelude.{◌≡◌, IsFalse, false, refl};
ghost use Rattle.stream_host.specs.Untold.{untold_talk};

use crate::fault_count::FaultCount;
use disk_trait::Faults;
use std::io::ErrorKind;
use stream_io::{Failed, Sink, Stream};

/// The sink over a runtime's standard output, which keeps no byte back. It tells nothing but its count of faults.
#[derive(Drop)]
pub struct StdoutSink<R: Print + Drop> {
    rt: R,
    faults: FaultCount,
}

impl<R: Print + Drop> StdoutSink<R> {
    /// The sink over the standard output of this runtime.
    pub fn new(rt: R) -> StdoutSink<R>
        ensures told { IsFalse (⟦<StdoutSink<R> as Stream>⟧.talk result).told }
        ensures steady { IsFalse (⟦<StdoutSink<R> as Faults>⟧.steady result) }
        ensures count { (⟦<StdoutSink<R> as Stream>⟧.talk result).count ≡ 0 }
    {
        StdoutSink {
            rt,
            faults: FaultCount::new(),
        }
    }
}

impl<R: Print + Drop> Faults for StdoutSink<R> {
    ghost count = { λ s. s.faults };

    ghost steady = { λ _. false };

    fn faults(&self) -> u64 {
        self.faults.get()
    }
}

impl<R: Print + Drop> Stream for StdoutSink<R> {
    ghost talk = { λ s. untold_talk s.faults };

    ghost counts = { λ _. refl };
}

impl<R: Print + Drop> Sink for StdoutSink<R> {
    ghost room = { λ _. 0 };

    ghost rooms = { λ _. refl };

    fn write(&mut self, bytes: &[u8]) -> Result<usize, Failed> {
        for _ in 0..u64::MAX {
            match self.rt.write_some(bytes) {
                Ok(taken) if taken > 0 || bytes.is_empty() => return Ok(taken),
                Err(error) if error.kind() == ErrorKind::Interrupted => {}
                _ => break,
            }
        }
        Err(self.faults.fail())
    }
}
