//! What is counted in a drill.

ghost use Rattle.std.specs.Prelude.{◌≡◌, ◌≤◌, ◌+◌, if◌then◌else◌};
ghost use Rattle.drill.specs.Drills.{AtMost};
ghost use Rattle.drill_schedule.specs.Events.{is_restart};

use crate::state::Asks;
use drill_schedule::Event;

/// Asks and restarts.
#[derive(Clone, Copy)]
pub(crate) struct Tally {
    /// How many asks were put.
    pub(crate) asks: u32,
    /// How many of them were granted.
    pub(crate) granted: u32,
    /// How many of them stopped a disk.
    pub(crate) cuts: u32,
    /// How often a trustee was loaded anew.
    pub(crate) restarts: u32,
}

/// Nothing was counted.
pub(crate) const NOTHING: Tally = Tally {
    asks: 0,
    granted: 0,
    cuts: 0,
    restarts: 0,
};

impl Tally {
    ghost use Rattle.drill.specs.Tallies.{IsWithin};

    /// Counts a trustee that is loaded anew, if this is the event.
    pub(crate) fn add_restart(&mut self, event: Event)
        requires room { self.old.restarts ≤ 1000000 }
        ensures asks { self.new.asks ≡ self.old.asks }
        ensures granted { self.new.granted ≡ self.old.granted }
        ensures cuts { self.new.cuts ≡ self.old.cuts }
        ensures restarts { self.new.restarts
            ≡ self.old.restarts + (if is_restart event then 1 else 0) }
    {
        match event {
            Event::Restart => self.restarts += 1,
            Event::Step | Event::Twice | Event::Dropped | Event::Cut => {}
        }
    }

    /// Adds what was asked.
    pub(crate) fn add(&mut self, asks: &Asks)
        requires asks { AtMost 2 asks.now }
        requires room { IsWithin 1000000 self.old }
        ensures asks { self.new.asks ≡ self.old.asks + asks.now.put }
        ensures granted { self.new.granted ≡ self.old.granted + asks.now.granted }
        ensures cuts { self.new.cuts ≡ self.old.cuts + asks.now.cut }
        ensures restarts { self.new.restarts ≡ self.old.restarts }
    {
        self.asks += asks.put;
        self.granted += asks.granted;
        self.cuts += asks.cut;
    }
}
