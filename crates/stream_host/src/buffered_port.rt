//! Ports whose links read ahead and hold back what is written.

ghost use Rattle.std.specs.Prelude.{◌≡◌, false, refl};
ghost use Rattle.stream_host.specs.Buffered.{buffered_state};

use crate::buffered::Buffered;
use disk_trait::Faults;
use stream_io::{Accepted, Failed, Port};

/// A port over another, each of whose links is buffered. What a link holds back when it is hung up goes out before the
/// port below hangs up, and if that fails the port counts a fault.
#[derive(Drop)]
pub struct BufferedPort<P> {
    port: P,
}

impl<P> BufferedPort<P> {
    /// A port over another.
    pub(crate) fn new(port: P) -> BufferedPort<P>
        ensures { result.port ≡ port }
    {
        BufferedPort { port }
    }

    /// The port below.
    pub(crate) fn below(&self) -> &P
        ensures { result.now ≡ self.now.port }
    {
        &self.port
    }
}

impl<P: Faults> Faults for BufferedPort<P> {
    ghost count = { λ s. P.count s.port };

    ghost steady = { λ _. false };

    fn faults(&self) -> u64 {
        self.port.faults()
    }
}

impl<P: Port> Port for BufferedPort<P> {
    type Link = Buffered<P::Link>;

    ghost state = { λ s. buffered_state (P.state s.port) };

    fn accept_faults(&self) -> u64 {
        self.port.accept_faults()
    }

    fn accept(&mut self) -> Accepted<Self::Link> {
        match self.port.accept() {
            Accepted::Link(link) => Accepted::Link(Buffered::new(link)),
            Accepted::End => Accepted::End,
            Accepted::Failed => Accepted::Failed,
        }
    }

    fn dial(&mut self, place: &str) -> Result<Self::Link, Failed> {
        let link = self.port.dial(place)?;
        Ok(Buffered::new(link))
    }

    /// Ends a link, after what it still holds back.
    fn hang_up(&mut self, link: Self::Link) {
        let (below, _flushed) = link.end();
        self.port.hang_up(below);
    }

    ghost counts = { λ s. P.counts s.port };

    ghost steadies = { λ _. refl };
}
