//! A port whose links wait until another link was answered.

ghost use Rattle.std.specs.Prelude.{◌≡◌, is_none, refl};
ghost use Rattle.stream_memory.specs.Ports.{port_state};
ghost use Rattle.stream_memory.specs.Waiting.{with_waits};

use crate::hold::{Hold, Ring};
use crate::waiting_link::WaitingLink;
use crate::{KeptPort, MemLink, MemPort};
use disk_trait::Faults;
use stream_io::{Accepted, Failed, Port};

/// A port in memory each of whose links may wait until a bell was rung, and may ring one.
#[derive(Drop)]
pub struct WaitingPort<'a> {
    port: MemPort,
    hold: Option<Hold<'a>>,
    ring: Option<Ring<'a>>,
}

impl<'a> WaitingPort<'a> {
    /// A port whose links wait for `hold`, if there is one, and then ring `ring`, if there is one.
    pub fn new(port: MemPort, hold: Option<Hold<'a>>, ring: Option<Ring<'a>>) -> WaitingPort<'a>
        ensures { ⟦<WaitingPort<'a> as Port>⟧.state result
            ≡ with_waits (⟦<MemPort as Port>⟧.state port) (is_none hold.entry) }
    {
        WaitingPort { port, hold, ring }
    }

    /// What it has and keeps.
    pub fn kept(&self) -> &KeptPort
        ensures { with_waits (port_state result.now) (is_none self.now.hold)
            ≡ ⟦<WaitingPort<'a> as Port>⟧.state self.now }
    {
        self.port.kept()
    }
}

impl Faults for WaitingPort<'_> {
    ghost count = { λ s. (⟦<MemPort as Port>⟧.state s.port).count };

    ghost steady = { λ s. (with_waits (⟦<MemPort as Port>⟧.state s.port) (is_none s.hold)).steady };

    fn faults(&self) -> u64 {
        self.port.faults()
    }
}

impl<'a> Port for WaitingPort<'a> {
    type Link = WaitingLink<'a, MemLink>;

    ghost state = { λ s. with_waits (⟦<MemPort as Port>⟧.state s.port) (is_none s.hold) };

    fn accept_faults(&self) -> u64 {
        self.port.accept_faults()
    }

    fn accept(&mut self) -> Accepted<Self::Link> {
        match self.port.accept() {
            Accepted::Link(link) => Accepted::Link(WaitingLink::new(link, self.hold, self.ring)),
            Accepted::End => Accepted::End,
            Accepted::Failed => Accepted::Failed,
        }
    }

    fn dial(&mut self, place: &str) -> Result<Self::Link, Failed> {
        let link = self.port.dial(place)?;
        Ok(WaitingLink::new(link, self.hold, self.ring))
    }

    fn hang_up(&mut self, link: Self::Link) {
        let (mut link, vain) = link.end();
        link.add_faults(vain);
        self.port.hang_up(link);
    }

    ghost counts = { λ _. refl };

    ghost steadies = { λ _. refl };
}
