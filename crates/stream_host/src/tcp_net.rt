//! The net of sockets.

ghost use Rattle.std.specs.Prelude.{◌≡◌, All, IfOk, IsFalse, IsTrue, false, length, map, option_copied};
ghost use Rattle.std.specs.Prelude.{option_map, refl};
ghost use Rattle.std.specs.Arc.{arc_value};
ghost use Rattle.stream_host.specs.TcpPort.{buffered_port_state};
ghost use Rattle.stream_host.specs.Untold.{untold_net, untold_port};
ghost use Rattle.stream_io.specs.Net.{Gathers, NetOnward};

use crate::buffered_port::BufferedPort;
use crate::causes::call_fault;
use crate::fault_count::FaultCount;
use crate::tcp_port::{Place, TcpPort};
use disk_trait::Faults;
use std::alloc::{AllocError, Global};
use std::io::Eprint;
use std::net::{Net as Sockets, TcpListener};
use std::sync::Arc;
use std::time::Clock;
use stream_io::{CallFault, Net, Port};

/// The net of a runtime's sockets. It tells nothing but its counts of faults.
#[derive(Drop)]
pub struct TcpNet<R: Sockets + Clock + Eprint + Copy> {
    rt: R,
    faults: FaultCount,
    port_faults: FaultCount,
}

impl<R: Sockets + Clock + Eprint + Copy + Send> TcpNet<R>
where
    R::Stream: Send,
    R::Listener: Send + Sync,
{
    /// The net of this runtime's sockets. No call has failed yet.
    pub fn new(rt: R) -> TcpNet<R>
        ensures { ⟦<TcpNet<R> as Net>⟧.state result ≡ untold_net 0 0 }
    {
        TcpNet {
            rt,
            faults: FaultCount::new(),
            port_faults: FaultCount::new(),
        }
    }
}

/// Listens at a place, given as `host:port`.
fn listen<R: Sockets>(
    rt: &R,
    alloc: Global,
    name: &str,
) -> Result<Arc<Place<R::Listener>>, CallFault>
    ensures { IfOk result (λ place. arc_value place ≡ name.now) }
{
    let name = String::from_str(alloc, name)?;
    let socket = TcpListener::bind(rt, name.as_str()).map_err(call_fault)?;
    Ok(Arc::new(alloc, Place::new(name, socket))?)
}

/// Listens at a place, if there is one.
fn place_of<R: Sockets>(
    rt: &R,
    alloc: Global,
    name: Option<&str>,
) -> Result<Option<Arc<Place<R::Listener>>>, CallFault>
    ensures { IfOk result (λ place. option_map arc_value place ≡ option_copied name.entry) }
{
    match name {
        Some(name) => Ok(Some(listen(rt, alloc, name)?)),
        None => Ok(None),
    }
}

/// Another owner of a place, if there is one.
fn share<L: Drop>(place: &Option<Arc<Place<L>>>) -> Result<Option<Arc<Place<L>>>, AllocError>
    ensures { IfOk result (λ shared. option_map arc_value shared ≡ option_map arc_value place.now) }
{
    match place {
        Some(place) => Ok(Some(Arc::try_clone(place)?)),
        None => Ok(None),
    }
}

/// A port that listens at this place, or only dials.
fn new_port<R: Sockets + Clock + Eprint + Copy>(
    rt: R,
    place: Option<Arc<Place<R::Listener>>>,
) -> BufferedPort<TcpPort<R>>
    ensures { buffered_port_state result ≡ untold_port (option_map arc_value place) 0 0 }
{
    BufferedPort::new(TcpPort::new(rt, place))
}

/// Makes `count` ports, which listen at one place by one socket, or only dial.
fn make_ports<R: Sockets + Clock + Eprint + Copy>(
    rt: R,
    alloc: Global,
    name: Option<&str>,
    count: u32,
) -> Result<Vec<BufferedPort<TcpPort<R>>>, CallFault>
    ensures many { IfOk result (λ ports. length ports.items ≡ count) }
    ensures fresh { IfOk result (λ ports. All (λ port. buffered_port_state port
        ≡ untold_port (option_copied name.entry) 0 0) ports.items) }
{
    let place = place_of(&rt, alloc, name)?;
    let mut ports = Vec::with_capacity(alloc, count as usize)?;
    for _ in 0..count {
        ports.push(new_port(rt, share(&place)?))?;
    }
    Ok(ports)
}

/// Whether one of these ports has counted a fault.
fn some_failed<P: Faults>(ports: &[P]) -> bool
    ensures some { IsTrue result → All (λ port. P.count port ≡ 0) ports.now → ⊥ }
    ensures none { IsFalse result → All (λ port. P.count port ≡ 0) ports.now }
{
    ports.iter().any(|port| port.faults() != 0)
}

/// Whether one of these ports failed to accept.
fn some_unaccepted<R: Sockets + Clock + Eprint + Copy>(ports: &[BufferedPort<TcpPort<R>>]) -> bool
    ensures some { IsTrue result → All (λ port. (buffered_port_state port).accept_count ≡ 0) ports.now → ⊥ }
    ensures none { IsFalse result → All (λ port. (buffered_port_state port).accept_count ≡ 0) ports.now }
{
    ports.iter().any(|port| port.below().has_not_accepted())
}

impl<R: Sockets + Clock + Eprint + Copy> Faults for TcpNet<R> {
    ghost count = { λ s. s.faults };

    ghost steady = { λ _. false };

    fn faults(&self) -> u64 {
        self.faults.get()
    }
}

impl<R: Sockets + Clock + Eprint + Copy + Send> Net for TcpNet<R>
where
    R::Stream: Send,
    R::Listener: Send + Sync,
{
    type Port = BufferedPort<TcpPort<R>>;

    ghost state = { λ s. untold_net s.faults s.port_faults };

    fn port_faults(&self) -> u64 {
        self.port_faults.get()
    }

    /// Makes ports that listen at a place, given as `host:port`, by one socket, or only dial.
    fn ports(
        &mut self,
        alloc: Global,
        place: Option<&str>,
        count: u32,
    ) -> Result<Vec<Self::Port>, CallFault> {
        let made = make_ports(self.rt, alloc, place, count);
        self.faults.note(&made);
        self.port_faults.note(&made);
        made
    }

    /// Closes ports, and the socket of a place with its last port.
    fn gather(&mut self, ports: Vec<Self::Port>)
        ensures kept { Gathers (untold_net self.old.faults self.old.port_faults)
            (map (λ port. ⟦<BufferedPort<TcpPort<R>> as Port>⟧.state port) ports.items)
            (untold_net self.new.faults self.new.port_faults) }
        ensures onward { NetOnward (untold_net self.old.faults self.old.port_faults)
            (untold_net self.new.faults self.new.port_faults) }
    {
        let all = ports.as_slice();
        self.faults.add_where(some_failed(all));
        self.port_faults.add_where(some_unaccepted(all));
    }

    ghost counts = { λ _. refl };

    ghost steadies = { λ _. refl };
}
