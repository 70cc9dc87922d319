//! How long a waiter stays awake.

/// The most looks of a waiter before it sleeps: for about as long as a sleeper takes to wake.
const MOST: u32 = 2_000;

/// The fewest: for about as long as a turn takes that makes no call of a disk.
const FEWEST: u32 = 64;

/// How often a pass looks for its turn before it sleeps. The turns of a lock tend to be alike. If they are short,
/// whoever looks has the turn sooner than it would be awake. If they wait for a disk, looking only keeps a processor
/// from those that could use it.
#[derive(Clone, Copy)]
pub struct Patience {
    looks: u32,
}

impl Patience {
    /// That of a pass that has not waited yet.
    pub fn new() -> Patience {
        Patience { looks: MOST }
    }

    /// How often to look.
    pub fn looks(&self) -> u32 {
        self.looks
    }

    /// Notes whether the turn came while the pass was looking.
    pub fn note(&mut self, was_served: bool) {
        self.looks = if was_served {
            self.looks.saturating_mul(2).min(MOST)
        } else {
            (self.looks / 2).max(FEWEST)
        };
    }
}
