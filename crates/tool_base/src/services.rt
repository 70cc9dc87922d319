//! How a service over ports ends.

ghost use Rattle.std.specs.Prelude.{◌≡◌, map, nat_lt};
ghost use Rattle.std.specs.List.{list_any};
ghost use Rattle.tool_base.specs.Endings.{ending};
ghost use Rattle.tool_base.specs.Services.{ServiceEnds};

use crate::ending::Ending;
use memory::NoMemory;
use stream_io::{Port, Totals};

/// The end of a service over these ports.
pub fn end_of_service<P: Port>(ports: &[P], totals: Result<Totals, NoMemory>) -> Ending
    ensures ends { ServiceEnds (map P.state ports.now) totals (ending result) }
{
    match totals {
        Ok(_) if some_unaccepted(ports) => Ending::NetFailed,
        Ok(totals) => Ending::Served {
            connections: totals.connections,
            frames: totals.frames,
        },
        Err(NoMemory) => Ending::NoMemory,
    }
}

/// Whether some port failed to accept.
fn some_unaccepted<P: Port>(ports: &[P]) -> bool
    ensures { result ≡ list_any (λ port. nat_lt 0 (P.state port).accept_count) ports.now }
{
    ports.iter().any(|port| port.accept_faults() > 0)
}
