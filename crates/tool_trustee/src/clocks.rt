//! Makers of clocks, in memory and over the machine's clock.

ghost use Rattle.std.specs.Prelude.{◌≡◌, ◌+◌, ◌-◌, ◌^◌, ℕ, All, min, length, IsTrue, IsFalse, IfOk, true};
ghost use Rattle.std.specs.Prelude.{false};
ghost use Rattle.tool_base.specs.World.{TimeState};

use memory::NoMemory;
use std::alloc::Global;
use std::rt::Clock as MachineClock;
use std::time::{SystemTime, UNIX_EPOCH};
use trustee_core::Clock;

/// What makes clocks.
pub trait Clocks {
    /// The clocks that it makes.
    type Clock: Clock + Drop + Send;

    /// What it tells of its clocks.
    ghost state: { Self → TimeState };

    /// Makes that many clocks.
    fn clocks(&mut self, alloc: Global, count: u32) -> Result<Vec<Self::Clock>, NoMemory>
        ensures count { IfOk result (λ clocks. length clocks.items ≡ count) }
        ensures tell { IsTrue (state self.old).told →
            IfOk result (λ clocks. All (λ clock. IsTrue (Self.Clock.told clock)) clocks.items) }
        ensures answers { IsTrue (state self.old).told → (j : ℕ) → IfOk result (λ clocks.
            All (λ clock. Self.Clock.answers clock j ≡ (state self.old).answers j) clocks.items) }
        ensures same { state self.new ≡ state self.old };
}

/// Makes clocks that count up by one from a number, and stay at the greatest.
#[derive(Clone, Copy)]
pub struct MemClocks {
    start: u64,
}

impl MemClocks {
    /// Makes clocks that count from this number.
    pub fn new(start: u64) -> MemClocks
        ensures told { IsTrue (⟦<MemClocks as Clocks>⟧.state result).told }
        ensures answers { (j : ℕ) → (⟦<MemClocks as Clocks>⟧.state result).answers j ≡ min (start + j) (2 ^ 64 - 1) }
    {
        MemClocks { start }
    }
}

impl Clocks for MemClocks {
    type Clock = MemClock;

    ghost state = { λ clocks. record { told = true; answers = λ j. min (clocks.start + j) (2 ^ 64 - 1) } };

    fn clocks(&mut self, alloc: Global, count: u32) -> Result<Vec<MemClock>, NoMemory> {
        let clock = MemClock { next: self.start };
        Ok(vec![in alloc; clock; count as usize]?)
    }
}

/// A clock that counts up by one, and stays at the greatest number.
#[derive(Clone, Copy)]
pub struct MemClock {
    next: u64,
}

impl Clock for MemClock {
    ghost told = { λ _. true };

    ghost answers = { λ clock j. min (clock.next + j) (2 ^ 64 - 1) };

    fn now(&mut self) -> u64 {
        let now = self.next;
        self.next = now.saturating_add(1);
        now
    }
}

/// Makes clocks over a runtime's clock. It tells nothing.
#[derive(Clone, Copy)]
pub struct SystemClocks<R: MachineClock + Copy + Send> {
    rt: R,
}

impl<R: MachineClock + Copy + Send> SystemClocks<R> {
    /// Makes clocks over the clock of this runtime.
    pub fn new(rt: R) -> SystemClocks<R>
        ensures { IsFalse (⟦<SystemClocks<R> as Clocks>⟧.state result).told }
    {
        SystemClocks { rt }
    }
}

impl<R: MachineClock + Copy + Send> Clocks for SystemClocks<R> {
    type Clock = SystemClock<R>;

    ghost state = { λ _. record { told = false; answers = λ _. 0 } };

    fn clocks(&mut self, alloc: Global, count: u32) -> Result<Vec<SystemClock<R>>, NoMemory> {
        let clock = SystemClock { rt: self.rt };
        Ok(vec![in alloc; clock; count as usize]?)
    }
}

/// The clock of a runtime. It answers 0 before 1970, and if the machine's clock cannot be read.
#[derive(Clone, Copy)]
pub struct SystemClock<R: MachineClock + Copy + Send> {
    rt: R,
}

impl<R: MachineClock + Copy + Send> Clock for SystemClock<R> {
    ghost told = { λ _. false };

    ghost answers = { λ _ _. 0 };

    fn now(&mut self) -> u64 {
        let Ok(now) = SystemTime::now(&self.rt) else {
            return 0;
        };
        match now.duration_since(UNIX_EPOCH) {
            Ok(since) => since.as_secs(),
            Err(_) => 0,
        }
    }
}
