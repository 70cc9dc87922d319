//! Counts of faults.

ghost use Rattle.std.specs.Prelude.{◌≡◌, ◌↔◌, ◌+◌, ◌-◌, ◌^◌, ◌≤◌, min, Err, IsTrue};
ghost use Rattle.disk_trait.specs.Faults.{Rose};
ghost use Rattle.stream_io.specs.Store.{RisesWhere};
ghost use Rattle.stream_io.specs.declared.call_fault.CallFault.{CallFault};
ghost use Rattle.stream_io.specs.declared.store.NewFault.{NewFault};
ghost use Rattle.stream_io.specs.declared.store.ReadAllFault.{ReadAllFault};

use std::marker::Model;
use stream_io::{CallFault, Failed, NewFault, ReadAllFault};

/// How many calls of an object have failed. The count stands still at `u64::MAX`.
#[derive(Drop)]
pub struct FaultCount {
    count: u64,
}

impl Model for FaultCount {
    ghost use Rattle.std.specs.Prelude.{ℕ};

    ghost Value = { ℕ };

    ghost view = { λ s. s.count };
}

impl FaultCount {
    /// A count of no faults.
    pub fn new() -> FaultCount
        ensures { result ≡ 0 }
    {
        FaultCount { count: 0 }
    }

    /// The count.
    pub fn get(&self) -> u64
        ensures { result ≡ self.now }
    {
        self.count
    }

    /// Adds that many faults.
    pub fn add(&mut self, more: u64)
        ensures sum { self.new ≡ min (self.old + more) (2 ^ 64 - 1) }
        ensures later { self.old ≤ self.new }
    {
        self.count = self.count.saturating_add(more);
    }

    /// Counts a fault, which is the answer of a call that has no other.
    pub fn fail(&mut self) -> Failed
        ensures rose { Rose self.old self.new }
        ensures later { self.old ≤ self.new }
        ensures once { self.new ≤ self.old + 1 }
    {
        self.add(1);
        Failed
    }

    /// Counts a fault if that is so.
    pub fn add_where(&mut self, failed: bool)
        ensures rises { RisesWhere (IsTrue failed) self.old self.new }
        ensures once { self.new ≤ self.old + 1 }
    {
        if failed {
            self.add(1);
        }
    }

    /// Counts a fault if a call failed, and not if it was refused for anything else, and answers what it answered.
    pub fn noted<T, E: Refusal>(&mut self, done: Result<T, E>) -> Result<T, E>
        ensures same { result ≡ done }
        ensures rises { RisesWhere (done ≡ Err E.failed) self.old self.new }
    {
        self.note(&done);
        done
    }

    /// Counts a fault if a call failed, and not if it was refused for anything else.
    pub fn note<T, E: Refusal>(&mut self, done: &Result<T, E>)
        ensures { RisesWhere (done.now ≡ Err E.failed) self.old self.new }
    {
        match done {
            Ok(_) => {}
            Err(refusal) => self.add_where(refusal.is_failed()),
        }
    }
}

/// Why a call was not done.
pub trait Refusal {
    /// That the call failed.
    ghost failed: { Self };

    /// Whether the call failed.
    fn is_failed(&self) -> bool
        ensures { IsTrue result ↔ self.now ≡ failed };
}

impl Refusal for CallFault {
    ghost failed = { CallFault.Failed };

    fn is_failed(&self) -> bool {
        matches!(self, CallFault::Failed)
    }
}

impl Refusal for NewFault {
    ghost failed = { NewFault.Failed };

    fn is_failed(&self) -> bool {
        matches!(self, NewFault::Failed)
    }
}

impl Refusal for ReadAllFault {
    ghost failed = { ReadAllFault.Failed };

    fn is_failed(&self) -> bool {
        matches!(self, ReadAllFault::Failed)
    }
}
