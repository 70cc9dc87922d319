//! Who is told how far a dealing is.

ghost use Rattle.std.specs.Prelude.{◌≡◌, ℕ};

/// Is told how far a dealing is. What it is after a call is a function of what it was and of what it was told, so a
/// contract that names the function says exactly what was told, and in which order.
pub trait Progress {
    /// What it is once it was told how many leaves are built, and of how many in all.
    ghost told: { Self → ℕ → ℕ → Self };

    /// `leaves` leaves are built, of `all` in all.
    fn built(&mut self, leaves: u32, all: u32)
        ensures { self.new ≡ told self.old leaves all };
}

/// Is told, and does nothing.
#[derive(Clone, Copy)]
pub struct Silent;

impl Progress for Silent {
    ghost told = { λ it _ _. it };

    fn built(&mut self, _leaves: u32, _all: u32) {}
}
