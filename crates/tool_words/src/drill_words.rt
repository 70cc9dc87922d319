//! The words after `drill`.

ghost use Rattle.std.specs.Prelude.{◌≤◌};

/// The words after `drill`.
#[derive(Clone, Copy)]
pub struct DrillWords {
    /// The number that decides the schedule.
    pub number: u32,
    /// How many sessions are run, at most 10,000.
    pub sessions: u32,
    /// How many events the schedule has, at most 100,000.
    pub events: u32,
    pub ghost few_sessions: { sessions ≤ 10000 },
    pub ghost few_events: { events ≤ 100000 },
}
