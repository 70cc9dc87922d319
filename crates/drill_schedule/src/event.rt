//! The events of a drill.

ghost use Rattle.std.specs.Prelude.{◌≡◌};

/// What happens to a session, or to a trustee.
#[derive(Clone, Copy, Debug, PartialEq, Eq)]
pub enum Event {
    /// The session takes a step.
    Step,
    /// The session's next ask is put twice, and the second answer is taken.
    Twice,
    /// The session's next ask is put, and the answer is dropped.
    Dropped,
    /// The session's next ask is put while the trustee's disk stops, and the answer is dropped.
    Cut,
    /// A trustee is loaded anew from its disk.
    Restart,
}

impl Event {
    ghost use Rattle.drill_schedule.specs.Events.{event_of};

    /// The event that a draw stands for.
    pub fn of(draw: u32) -> Event
        ensures { result ≡ event_of draw }
    {
        match draw % 8 {
            0..=3 => Event::Step,
            4 => Event::Twice,
            5 => Event::Dropped,
            6 => Event::Cut,
            _ => Event::Restart,
        }
    }
}
