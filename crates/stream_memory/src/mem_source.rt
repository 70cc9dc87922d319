//! A source in memory.

ghost use Rattle.std.specs.Prelude.{◌≡◌, ◌+◌, ◌<◌, ◌≤◌, ◌↔◌, [], None, length, take, drop, IsTrue, true, refl};
ghost use Rattle.stream_memory.specs.Calls.{is_empty};

use crate::calls::Calls;
use disk_trait::Faults;
use stream_io::{Failed, Source, Stream};

/// A source that gives the bytes that it was made of.
#[derive(Drop)]
pub struct MemSource {
    bytes: Vec<u8>,
    at: usize,
    pieces: Vec<usize>,
    calls: Calls,
    ghost within: { at ≤ length bytes.items },
}

impl MemSource {
    /// A source of these bytes. A read gives at most the number of bytes that `pieces` has at the number of the read,
    /// though one at least, and as many as there are if `pieces` has nothing there; the reads whose numbers are in
    /// `failing` fail. The first read has the number 0.
    pub fn new(bytes: Vec<u8>, pieces: Vec<usize>, failing: Vec<u64>) -> MemSource
        ensures told { IsTrue (⟦<MemSource as Stream>⟧.talk result).told }
        ensures place { (⟦<MemSource as Stream>⟧.talk result).place ≡ None }
        ensures taken { (⟦<MemSource as Stream>⟧.talk result).taken ≡ [] }
        ensures left { (⟦<MemSource as Stream>⟧.talk result).left ≡ bytes.items }
        ensures written { (⟦<MemSource as Stream>⟧.talk result).written ≡ [] }
        ensures count { (⟦<MemSource as Stream>⟧.talk result).count ≡ 0 }
        ensures steady { IsTrue (⟦<MemSource as Faults>⟧.steady result) ↔ (failing.items ≡ []) }
    {
        MemSource {
            bytes,
            at: 0,
            pieces,
            calls: Calls::new(failing),
        }
    }

    /// The bytes that were read.
    pub(crate) fn taken(&self) -> &[u8]
        ensures { result.now ≡ take self.now.at self.now.bytes.items }
    {
        &self.bytes[..self.at]
    }

    /// The bytes that have not been read.
    pub(crate) fn left(&self) -> &[u8]
        ensures { result.now ≡ drop self.now.at self.now.bytes.items }
    {
        &self.bytes[self.at..]
    }

    /// Whether no call is listed to fail.
    pub(crate) fn is_steady(&self) -> bool
        ensures { result ≡ is_empty self.now.calls.failing.items }
    {
        self.calls.is_steady()
    }

    /// Begins anew.
    pub(crate) fn begin(&mut self)
        ensures bytes { self.new.bytes ≡ self.old.bytes }
        ensures at { self.new.at ≡ 0 }
        ensures failing { self.new.calls.failing ≡ self.old.calls.failing }
        ensures faults { self.new.calls.faults ≡ 0 }
    {
        self.at = 0;
        self.calls.begin();
    }

    /// How many bytes the next read gives at most.
    fn most(&self) -> usize
        ensures { 0 < result }
    {
        let piece = self.pieces.get(self.calls.made as usize);
        piece.copied().unwrap_or(usize::MAX).max(1)
    }
}

/// Copies `count` of the bytes, from `at` on, to the front of the room.
fn copy_part(bytes: &[u8], at: usize, count: usize, out: &mut [u8])
    requires there { at + count ≤ length bytes.now }
    requires room { count ≤ length out.old }
    ensures { take count out.new ≡ take count (drop at bytes.now) }
{
    out[..count].copy_from_slice(&bytes[at..at + count]);
}

impl Faults for MemSource {
    ghost count = { λ s. s.calls.faults };

    ghost steady = { λ s. is_empty s.calls.failing.items };

    fn faults(&self) -> u64 {
        self.calls.faults
    }
}

impl Stream for MemSource {
    ghost talk = { λ s. record {
      told = true;
      place = None;
      taken = take s.at s.bytes.items;
      left = drop s.at s.bytes.items;
      written = [];
      room = 0;
      count = s.calls.faults;
    } };

    ghost counts = { λ _. refl };
}

impl Source for MemSource {
    fn read(&mut self, out: &mut [u8]) -> Result<usize, Failed> {
        let most = self.most();
        self.calls.make()?;
        let count = out.len().min(most).min(self.bytes.len() - self.at);
        copy_part(self.bytes.as_slice(), self.at, count, out);
        self.at += count;
        Ok(count)
    }
}
