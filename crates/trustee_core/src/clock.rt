//! Clocks.

ghost use Rattle.std.specs.Prelude.{◌≡◌, ◌+◌, ℕ, Bool, IsTrue};

/// What tells the moment.
pub trait Clock {
    /// Whether it tells what it answers.
    ghost told: { Self → Bool };

    /// What it answers from now on, the next answer at 0, if that is told.
    ghost answers: { Self → ℕ → ℕ };

    /// The moment, in seconds since the start of 1970.
    fn now(&mut self) -> u64
        ensures answer { IsTrue (told self.old) → result ≡ answers self.old 0 }
        ensures later { IsTrue (told self.old) → (j : ℕ) → answers self.new j ≡ answers self.old (j + 1) }
        ensures told { told self.new ≡ told self.old };
}
