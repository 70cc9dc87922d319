//! Ports, at which links are accepted and from which others are dialled.

ghost use Rattle.std.specs.Prelude.{◌≡◌, ◌≢◌, ◌↔◌, ◌+◌, ◌≤◌, None, false, IsTrue, IfOk, OnErr};
ghost use Rattle.disk_trait.specs.Faults.{HasCause};
ghost use Rattle.stream_io.specs.Net.{Accepts, Dials, HangsUp, PortOnward, PortState, SameLinks};
ghost use Rattle.stream_io.specs.Store.{RisesWhere};
ghost use Rattle.stream_io.specs.declared.port.Accepted.{Accepted};

use crate::failed::Failed;
use crate::sink::Sink;
use crate::source::Source;
use disk_trait::Faults;

/// What came of accepting a link.
#[derive(Debug, Drop)]
pub enum Accepted<L> {
    /// A link.
    Link(L),
    /// There is no further link to accept.
    End,
    /// Accepting failed.
    Failed,
}

/// What links are accepted at, and dialled from. A link that it made is owed back to `hang_up`.
pub trait Port: Faults {
    /// What bytes go over, both ways.
    type Link: Source + Sink + Send;

    /// The port in one state.
    ghost state: { Self → PortState };

    /// How often accepting has failed. It never falls, and stands still at `u64::MAX`.
    fn accept_faults(&self) -> u64
        ensures { result ≡ (state self.now).accept_count };

    /// Accepts the next link. A port that only dials has none, and one that listens has none exactly if no further link
    /// is to come.
    fn accept(&mut self) -> Accepted<Self::Link>
        ensures link { (link : Self.Link) → result ≡ Accepted.Link link
            → Accepts (state self.old) (Self.Link.talk link) (Self.Link.steady link) (Self.Link.room link)
            (state self.new) }
        ensures end { IsTrue (state self.old).told → result ≡ Accepted.End ↔ (state self.old).waiting ≡ 0 }
        ensures deaf { (state self.old).place ≡ None → result ≡ Accepted.End }
        ensures refused { ((link : Self.Link) → result ≢ Accepted.Link link)
            → SameLinks (state self.old) (state self.new) }
        ensures cause { RisesWhere (result ≡ Accepted.Failed) (state self.old).count (state self.new).count }
        ensures accept_cause { RisesWhere (result ≡ Accepted.Failed)
            (state self.old).accept_count (state self.new).accept_count }
        ensures succeeds { IsTrue (state self.old).steady → result ≢ Accepted.Failed }
        ensures onward { PortOnward (state self.old) (state self.new) };

    /// Dials a place. It fails if nobody is there to be dialled, and counts that once.
    fn dial(&mut self, place: &str) -> Result<Self::Link, Failed>
        ensures link { IfOk result (λ link. Dials (state self.old) place.now (Self.Link.talk link)
            (Self.Link.steady link) (Self.Link.room link) (state self.new)) }
        ensures refused { OnErr result (SameLinks (state self.old) (state self.new)) }
        ensures nobody { IsTrue (state self.old).told → IsTrue (state self.old).steady
            → OnErr result ((state self.old).reaches place.now ≡ false) }
        ensures cause { HasCause (state self.old).count (state self.new).count result }
        ensures once { (state self.new).count ≤ (state self.old).count + 1 }
        ensures accepting { (state self.new).accept_count ≡ (state self.old).accept_count }
        ensures onward { PortOnward (state self.old) (state self.new) };

    /// Ends a link.
    fn hang_up(&mut self, link: Self::Link)
        ensures kept { HangsUp (state self.old) (Self.Link.talk link) (state self.new) }
        ensures onward { PortOnward (state self.old) (state self.new) };

    /// The count of the state is the port's count of faults, and the port is steady if its state is.
    ghost counts: { (port : Self) → (state port).count ≡ Self.count port };

    ghost steadies: { (port : Self) → (state port).steady ≡ Self.steady port };
}
