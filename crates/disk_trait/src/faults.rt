//! Objects of the outside that count their faults.

ghost use Rattle.std.specs.Prelude.{◌≡◌, ℕ, Bool};

/// An object of the outside that counts the calls that failed.
pub trait Faults {
    /// How many of its calls have failed. It never falls, and stands still at `u64::MAX`.
    ghost count: { Self → ℕ };

    /// Whether its calls fail for their arguments alone.
    ghost steady: { Self → Bool };

    /// The count of faults.
    fn faults(&self) -> u64
        ensures { result ≡ count self.now };
}
