//! A sink in memory.

ghost use Rattle.std.specs.Prelude.{◌≡◌, ◌-◌, ◌<◌, ◌↔◌, [], None, IsTrue, IfOk, true, refl, vec_len, vec_capacity};
ghost use Rattle.stream_memory.specs.Calls.{is_empty};

use crate::calls::Calls;
use disk_trait::Faults;
use memory::NoMemory;
use std::alloc::Global;
use stream_io::{Failed, Sink, Stream};

/// A sink that keeps what is written to it, in memory that is taken when it is made.
#[derive(Drop)]
pub struct MemSink {
    written: Vec<u8>,
    most: usize,
    calls: Calls,
    ghost takes_some: { 0 < most },
}

impl MemSink {
    /// A sink with room for `capacity` bytes. One write takes at most `most` bytes. The writes whose numbers are
    /// listed fail; the first write has the number 0.
    pub fn new(
        alloc: Global,
        capacity: usize,
        most: usize,
        failing: Vec<u64>,
    ) -> Result<MemSink, NoMemory>
        requires { 0 < most }
        ensures told { IfOk result (λ s. IsTrue (⟦<MemSink as Stream>⟧.talk s).told) }
        ensures steady { IfOk result (λ s. IsTrue (⟦<MemSink as Faults>⟧.steady s) ↔ (failing.items ≡ [])) }
        ensures written { IfOk result (λ s. (⟦<MemSink as Stream>⟧.talk s).written ≡ []) }
        ensures room { IfOk result (λ s. ⟦<MemSink as Sink>⟧.room s ≡ capacity) }
        ensures count { IfOk result (λ s. ⟦<MemSink as Faults>⟧.count s ≡ 0) }
    {
        let written = Vec::with_capacity(alloc, capacity)?;
        Ok(MemSink {
            written,
            most,
            calls: Calls::new(failing),
        })
    }

    /// All that was written.
    pub fn written(&self) -> &[u8]
        ensures { result.now ≡ (⟦<MemSink as Stream>⟧.talk self.now).written }
    {
        self.written.as_slice()
    }

    /// Whether no call is listed to fail.
    pub(crate) fn is_steady(&self) -> bool
        ensures { result ≡ is_empty self.now.calls.failing.items }
    {
        self.calls.is_steady()
    }

    /// Begins anew, with the room that it has.
    pub(crate) fn begin(&mut self)
        ensures written { self.new.written.items ≡ [] }
        ensures room { vec_capacity self.new.written ≡ vec_capacity self.old.written }
        ensures failing { self.new.calls.failing ≡ self.old.calls.failing }
        ensures faults { self.new.calls.faults ≡ 0 }
    {
        self.written.clear();
        self.calls.begin();
    }
}

impl Faults for MemSink {
    ghost count = { λ s. s.calls.faults };

    ghost steady = { λ s. is_empty s.calls.failing.items };

    fn faults(&self) -> u64 {
        self.calls.faults
    }
}

impl Stream for MemSink {
    ghost talk = { λ s. record {
      told = true;
      place = None;
      taken = [];
      left = [];
      written = s.written.items;
      room = vec_capacity s.written - vec_len s.written;
      count = s.calls.faults;
    } };

    ghost counts = { λ _. refl };
}

impl Sink for MemSink {
    ghost room = { λ s. vec_capacity s.written - vec_len s.written };

    ghost rooms = { λ _. refl };

    fn write(&mut self, bytes: &[u8]) -> Result<usize, Failed> {
        self.calls.make()?;
        let room = self.written.capacity() - self.written.len();
        let taken = bytes.len().min(self.most).min(room);
        if taken < bytes.len().min(1) {
            return Err(self.calls.fail());
        }
        self.written.extend_from_slice(&bytes[..taken]).unwrap();
        Ok(taken)
    }
}
