//! Nets, which make ports.

ghost use Rattle.std.specs.Prelude.{◌≡◌, Err, map, option_copied, IsTrue, IfOk, OnErr};
ghost use Rattle.stream_io.specs.Net.{Gathers, IsOffered, MakesPorts, NetOnward, NetState, SameNet};
ghost use Rattle.stream_io.specs.Store.{RisesWhere};
ghost use Rattle.stream_io.specs.declared.call_fault.CallFault.{CallFault};

use crate::call_fault::CallFault;
use crate::port::Port;
use disk_trait::Faults;
use std::alloc::Global;

/// What makes ports. A port that it made is owed back to `gather`.
pub trait Net: Faults {
    /// What links are accepted at, and dialled from.
    type Port: Port + Send;

    /// The net in one state.
    ghost state: { Self → NetState };

    /// How often making ports failed, or ports came back that had failed to accept. It never falls, and stands still at
    /// `u64::MAX`.
    fn port_faults(&self) -> u64
        ensures { result ≡ (state self.now).port_count };

    /// Makes `count` ports, which listen at one place together, or only dial if no place is given. It fails at a place
    /// that the net does not offer.
    fn ports(
        &mut self,
        alloc: Global,
        place: Option<&str>,
        count: u32,
    ) -> Result<Vec<Self::Port>, CallFault>
        ensures made { IfOk result (λ ports. MakesPorts (state self.old) (option_copied place.entry) count
            (map (λ port. Self.Port.state port) ports.items) (state self.new)) }
        ensures refused { OnErr result (SameNet (state self.old) (state self.new)) }
        ensures unoffered { IsTrue (state self.old).told → IsTrue (state self.old).steady
            → result ≡ Err CallFault.Failed
            → IsOffered (state self.old) (option_copied place.entry) → ⊥ }
        ensures cause { RisesWhere (result ≡ Err CallFault.Failed) (state self.old).count (state self.new).count }
        ensures port_cause { RisesWhere (result ≡ Err CallFault.Failed)
            (state self.old).port_count (state self.new).port_count }
        ensures onward { NetOnward (state self.old) (state self.new) };

    /// Takes ports back.
    fn gather(&mut self, ports: Vec<Self::Port>)
        ensures kept { Gathers (state self.old) (map (λ port. Self.Port.state port) ports.items) (state self.new) }
        ensures offers { (state self.new).offers ≡ (state self.old).offers }
        ensures onward { NetOnward (state self.old) (state self.new) };

    /// The count of the state is the net's count of faults, and the net is steady if its state is.
    ghost counts: { (net : Self) → (state net).count ≡ Self.count net };

    ghost steadies: { (net : Self) → (state net).steady ≡ Self.steady net };
}
