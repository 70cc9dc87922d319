//! What came of serving over ports.

ghost use Rattle.std.specs.Prelude.{◌≡◌, ◌+◌, ◌-◌, ◌^◌, min};

/// Sums over the workers.
#[derive(Clone, Copy, Debug, PartialEq, Eq)]
pub struct Totals {
    /// How many connections were served. It stops at `u32::MAX`.
    pub connections: u32,
    /// How many replies were written whole in them. It stops at `u32::MAX`.
    pub frames: u32,
}

impl Totals {
    /// Adds what one more worker did.
    pub fn add(&mut self, connections: u32, frames: u32)
        ensures connections { self.new.connections ≡ min (self.old.connections + connections) (2 ^ 32 - 1) }
        ensures frames { self.new.frames ≡ min (self.old.frames + frames) (2 ^ 32 - 1) }
    {
        self.connections = self.connections.saturating_add(connections);
        self.frames = self.frames.saturating_add(frames);
    }
}
