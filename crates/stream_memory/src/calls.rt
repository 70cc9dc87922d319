//! The calls of an object in memory.

ghost use Rattle.std.specs.Prelude.{◌≡◌, ◌+◌, ◌-◌, ◌^◌, ◌≤◌, ◌↔◌, min, Contains, IsTrue, IsOk, IsErr, OnOk, OnErr};
ghost use Rattle.disk_trait.specs.Faults.{HasCause};
ghost use Rattle.stream_memory.specs.Calls.{is_empty};

use stream_io::Failed;

/// The calls of an object in memory: the numbers of those that fail, and how many were made and have failed.
#[derive(Drop)]
pub struct Calls {
    /// The numbers of the calls that fail.
    pub failing: Vec<u64>,
    /// How many were made.
    pub made: u64,
    /// How many have failed.
    pub faults: u64,
}

impl Calls {
    pub fn new(failing: Vec<u64>) -> Calls
        ensures failing { result.failing ≡ failing }
        ensures made { result.made ≡ 0 }
        ensures faults { result.faults ≡ 0 }
    {
        Calls {
            failing,
            made: 0,
            faults: 0,
        }
    }

    /// Whether none is listed to fail.
    pub(crate) fn is_steady(&self) -> bool
        ensures { result ≡ is_empty self.now.failing.items }
    {
        self.failing.is_empty()
    }

    /// Begins anew: none was made.
    pub(crate) fn begin(&mut self)
        ensures failing { self.new.failing ≡ self.old.failing }
        ensures made { self.new.made ≡ 0 }
        ensures faults { self.new.faults ≡ 0 }
    {
        self.made = 0;
        self.faults = 0;
    }

    /// Makes the next call. It fails if its number is listed; the first call has the number 0.
    pub fn make(&mut self) -> Result<(), Failed>
        ensures listed { IsErr result ↔ Contains self.old.failing.items self.old.made }
        ensures steady { IsTrue (is_empty self.old.failing.items) → IsOk result }
        ensures made { self.new.made ≡ min (self.old.made + 1) (2 ^ 64 - 1) }
        ensures fault { OnErr result (self.new.faults ≡ min (self.old.faults + 1) (2 ^ 64 - 1)) }
        ensures ok { OnOk result (self.new.faults ≡ self.old.faults) }
        ensures later { self.old.faults ≤ self.new.faults }
        ensures failing { self.new.failing ≡ self.old.failing }
    {
        let listed = self.failing.contains(&self.made);
        self.made = self.made.saturating_add(1);
        if listed { Err(self.fail()) } else { Ok(()) }
    }

    /// Counts a fault if this failed, and returns it.
    pub(crate) fn count(&mut self, answer: Result<usize, Failed>) -> Result<usize, Failed>
        ensures same { result ≡ answer }
        ensures cause { HasCause self.old.faults self.new.faults result }
        ensures failing { self.new.failing ≡ self.old.failing }
    {
        if answer.is_err() {
            self.fail();
        }
        answer
    }

    /// Counts a fault.
    pub fn fail(&mut self) -> Failed
        ensures fault { self.new.faults ≡ min (self.old.faults + 1) (2 ^ 64 - 1) }
        ensures later { self.old.faults ≤ self.new.faults }
        ensures made { self.new.made ≡ self.old.made }
        ensures failing { self.new.failing ≡ self.old.failing }
    {
        self.faults = self.faults.saturating_add(1);
        Failed
    }
}
