//! Workers, which serve one link after another.

ghost use Rattle.std.specs.Prelude.{◌≡◌, ◌<◌, ◌-◌, ◌^◌, true, false, None, IfSome};
ghost use Rattle.node_workers.specs.Starting.{fresh_worker};
ghost use Rattle.node_workers.specs.Workers.{NoLink, counted};
ghost use Rattle.node_workers.specs.declared.served.ServedEnd.TheVariants.{Worn};
ghost use Rattle.stream_io.specs.Net.{Accepts, PortOnward};
ghost use Rattle.stream_io.specs.Store.{RisesWhere};

use crate::served::{Served, ServedEnd};
use stream_io::{Accepted, Port};
use turn_lock::{Kept, Pass};

/// What one thread uses, and what it did.
pub struct Worker<P: Port, T: Kept, X> {
    /// Where it accepts links.
    pub port: P,
    /// With this pass it takes turns.
    pub pass: Pass<T>,
    /// What it alone uses: a trustee's clock, or an aggregator's cells.
    pub own: X,
    /// How many connections it served.
    pub connections: u32,
    /// How many replies were written whole in them. It stops at `u32::MAX`.
    pub frames: u32,
    /// Whether its pass has no more turns.
    pub worn: bool,
    /// Whether accepting failed.
    pub failed: bool,
}

impl<P: Port, T: Kept, X> Worker<P, T, X> {
    /// Starts afresh: so far it has served nothing.
    pub fn begin(&mut self)
        ensures { self.new ≡ fresh_worker self.old.pass self.old.port self.old.own }
    {
        self.connections = 0;
        self.frames = 0;
        self.worn = false;
        self.failed = false;
    }

    /// Counts a connection that was served. It tells whether the pass has no more turns since then, as `worn` does.
    pub fn count(&mut self, served: Served) -> bool
        requires { self.old.connections < 2 ^ 32 - 1 }
        ensures counted { self.new ≡ counted self.old served result }
        ensures worn { result ≡ true → served.ended ≡ Worn }
        ensures more { served.ended ≡ Worn → result ≡ true }
    {
        self.connections += 1;
        self.frames = self.frames.saturating_add(served.frames);
        self.worn = served.ended == ServedEnd::Worn;
        self.worn
    }
}

/// The next link of a port, if there is one, and whether accepting failed.
pub fn next_link<P: Port>(port: &mut P, failed: &mut bool) -> Option<P::Link>
    ensures link { IfSome result (λ link. Accepts (P.state port.old) (P.Link.talk link) (P.Link.steady link)
        (P.Link.room link) (P.state port.new)) }
    ensures sound { IfSome result (λ _. failed.new ≡ false) }
    ensures none { result ≡ None → NoLink (P.state port.old) (P.state port.new) failed.new }
    ensures cause { RisesWhere (failed.new ≡ true) (P.state port.old).accept_count (P.state port.new).accept_count }
    ensures onward { PortOnward (P.state port.old) (P.state port.new) }
{
    *failed = false;
    match port.accept() {
        Accepted::Link(link) => Some(link),
        Accepted::End => None,
        Accepted::Failed => {
            *failed = true;
            None
        }
    }
}
