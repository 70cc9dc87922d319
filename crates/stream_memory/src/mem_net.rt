//! A net in memory.

ghost use Rattle.std.specs.Prelude.{◌≡◌, ◌≤◌, ◌&&◌, ◌++◌, [], true, false, All, IsTrue, IfOk, OnOk, OnErr, length, map};
ghost use Rattle.std.specs.Prelude.{refl};
ghost use Rattle.std.specs.Prelude.{nat_lt, option_copied, option_map, string_bytes};
ghost use Rattle.std.specs.List.{list_all, list_any, slice_get};
ghost use Rattle.disk_trait.specs.Faults.{HasCause};
ghost use Rattle.stream_memory.specs.Calls.{is_empty};
ghost use Rattle.stream_memory.specs.Nets.{is_admitted, is_listed, net_state, room_of_script};
ghost use Rattle.stream_memory.specs.Ports.{is_steady_script, kept_of, least, port_state};
ghost use Rattle.stream_io.specs.Net.{Gathers, IsNewPort, NetOnward, SomeFailed, SomeUnaccepted};
ghost use Rattle.stream_io.specs.Store.{RisesWhere};

use crate::calls::Calls;
use crate::chain::Chain;
use crate::kept_port::KeptPort;
use crate::mem_port::MemPort;
use crate::port_script::PortScript;
use disk_trait::Faults;
use memory::NoMemory;
use std::alloc::Global;
use stream_io::{CallFault, Failed, Net, Port};

/// A net whose ports are scripted, and which keeps those that came back.
#[derive(Drop)]
pub struct MemNet {
    pub(crate) places: Vec<String>,
    pub(crate) scripts: Vec<PortScript>,
    /// Whether each script that a port was made of was steady.
    pub(crate) gave_steady: bool,
    pub(crate) calls: Calls,
    pub(crate) port_faults: u64,
    pub(crate) out: u64,
    pub(crate) kept: Chain<KeptPort>,
}

impl MemNet {
    /// A net that offers these places. Its ports are made of the scripts, in their order, and without links if no
    /// script is left; a call that runs out of memory may have used some up. The calls whose numbers are listed fail;
    /// the first call has the number 0.
    pub fn new(places: Vec<String>, scripts: Vec<PortScript>, failing: Vec<u64>) -> MemNet
        ensures { ⟦<MemNet as Net>⟧.state result ≡ record {
          told = true;
          steady = is_empty failing.items && list_all is_steady_script scripts.items;
          count = 0;
          port_count = 0;
          offers = is_listed places.items;
          room = least room_of_script scripts.items;
          out = 0;
          kept = [];
        } }
    {
        MemNet {
            places,
            scripts,
            gave_steady: true,
            calls: Calls::new(failing),
            port_faults: 0,
            out: 0,
            kept: Chain::new(),
        }
    }

    /// The port of this number; the first that came back has the number 0.
    pub fn kept(&self, index: usize) -> Option<&KeptPort>
        ensures { option_map port_state (option_copied result)
            ≡ slice_get (⟦<MemNet as Net>⟧.state self.now).kept index }
    {
        self.kept.get(index)
    }

    /// The next port, of the next script.
    fn make_port(&mut self, alloc: Global, place: Option<&str>) -> Result<MemPort, NoMemory>
        ensures made { IfOk result (λ port.
            IsNewPort (net_state self.old) (option_copied place.entry) (port_state (kept_of port))) }
        ensures steady { (net_state self.new).steady ≡ (net_state self.old).steady }
        ensures room { (net_state self.old).room ≤ (net_state self.new).room }
        ensures same { self.new ≡ record self.old { scripts = self.new.scripts; gave_steady = self.new.gave_steady } }
    {
        let place = name_of(alloc, place)?;
        let script = next_script(alloc, &mut self.scripts);
        self.gave_steady &= script.is_steady();
        MemPort::new(alloc, place, script)
    }

    /// The next ports.
    fn make_ports(
        &mut self,
        alloc: Global,
        place: Option<&str>,
        count: u32,
    ) -> Result<Vec<MemPort>, NoMemory>
        ensures many { IfOk result (λ ports. length ports.items ≡ count) }
        ensures made { IfOk result (λ ports. All (IsNewPort (net_state self.old) (option_copied place.entry))
            (map (λ port. port_state (kept_of port)) ports.items)) }
        ensures steady { (net_state self.new).steady ≡ (net_state self.old).steady }
        ensures room { (net_state self.old).room ≤ (net_state self.new).room }
        ensures same { self.new ≡ record self.old { scripts = self.new.scripts; gave_steady = self.new.gave_steady } }
    {
        let mut ports = Vec::with_capacity(alloc, count as usize)?;
        'making: while ports.len() < count as usize {
            ports.push(self.make_port(alloc, place)?)?;
        }
        Ok(ports)
    }
}

/// The name of a place, or none.
fn name_of(alloc: Global, place: Option<&str>) -> Result<Option<String>, NoMemory>
    ensures { IfOk result (λ name. option_map string_bytes name ≡ option_copied place.entry) }
{
    match place {
        Some(place) => Ok(Some(String::from_str(alloc, place)?)),
        None => Ok(None),
    }
}

/// Takes the first script, or makes one without links if none is left.
fn next_script(alloc: Global, scripts: &mut Vec<PortScript>) -> PortScript
    ensures steady { list_all is_steady_script scripts.old.items
        ≡ (is_steady_script result && list_all is_steady_script scripts.new.items) }
    ensures room { least room_of_script scripts.old.items ≤ room_of_script result }
    ensures others { least room_of_script scripts.old.items ≤ least room_of_script scripts.new.items }
{
    if scripts.is_empty() {
        PortScript::new(alloc)
    } else {
        scripts.remove(0)
    }
}

/// Whether one of these places has the name.
fn is_listed(places: &[String], name: &str) -> bool
    ensures { result ≡ is_listed places.now name.now }
{
    places.iter().any(|place| place.as_str() == name)
}

/// Whether ports may be made at a place among these, or without a place.
fn is_admitted(places: &[String], place: Option<&str>) -> bool
    ensures { result ≡ is_admitted (is_listed places.now) (option_copied place.entry) }
{
    match place {
        Some(name) => is_listed(places, name),
        None => true,
    }
}

/// Makes the next call, and fails if ports may not be made at the place.
fn admit(calls: &mut Calls, places: &[String], place: Option<&str>) -> Result<(), Failed>
    ensures offered { OnOk result (IsTrue (is_admitted (is_listed places.now) (option_copied place.entry))) }
    ensures unoffered { IsTrue (is_empty calls.old.failing.items)
        → OnErr result (is_admitted (is_listed places.now) (option_copied place.entry) ≡ false) }
    ensures cause { HasCause calls.old.faults calls.new.faults result }
    ensures failing { calls.new.failing ≡ calls.old.failing }
{
    calls.make()?;
    if is_admitted(places, place) {
        Ok(())
    } else {
        Err(calls.fail())
    }
}

/// Whether a port has counted a fault.
fn some_failed(ports: &[MemPort]) -> bool
    ensures { result ≡ list_any (λ port. nat_lt 0 (kept_of port).calls.faults) ports.now }
{
    ports.iter().any(|port| port.faults() > 0)
}

/// Whether a port failed to accept.
fn some_unaccepted(ports: &[MemPort]) -> bool
    ensures { result ≡ list_any (λ port. nat_lt 0 (kept_of port).accept_faults) ports.now }
{
    ports.iter().any(|port| port.accept_faults() > 0)
}

/// Counts a fault if a port has counted one.
fn count_failed(calls: &mut Calls, ports: &[MemPort])
    ensures rises { RisesWhere (SomeFailed (map (λ port. port_state (kept_of port)) ports.now))
        calls.old.faults calls.new.faults }
    ensures failing { calls.new.failing ≡ calls.old.failing }
{
    if some_failed(ports) {
        calls.fail();
    }
}

/// Counts a fault of ports if one failed to accept.
fn count_unaccepted(port_faults: &mut u64, ports: &[MemPort])
    ensures { RisesWhere (SomeUnaccepted (map (λ port. port_state (kept_of port)) ports.now))
        port_faults.old port_faults.new }
{
    if some_unaccepted(ports) {
        *port_faults = port_faults.saturating_add(1);
    }
}

/// Keeps what the ports have and keep.
fn keep(kept: &mut Chain<KeptPort>, ports: Vec<MemPort>)
    ensures { kept.new ≡ kept.old ++ map kept_of ports.items }
{
    for port in ports {
        kept.push(port.node);
    }
}

impl Faults for MemNet {
    ghost count = { λ net. net.calls.faults };

    ghost steady = { λ net. (net_state net).steady };

    fn faults(&self) -> u64 {
        self.calls.faults
    }
}

impl Net for MemNet {
    type Port = MemPort;

    ghost state = { net_state };

    fn port_faults(&self) -> u64 {
        self.port_faults
    }

    fn ports(
        &mut self,
        alloc: Global,
        place: Option<&str>,
        count: u32,
    ) -> Result<Vec<MemPort>, CallFault> {
        if let Err(failed) = admit(&mut self.calls, &self.places, place) {
            self.port_faults = self.port_faults.saturating_add(1);
            return Err(CallFault::from(failed));
        }
        let Some(out) = self.out.checked_add(u64::from(count)) else {
            return Err(CallFault::NoMemory);
        };
        let ports = self.make_ports(alloc, place, count)?;
        self.out = out;
        Ok(ports)
    }

    fn gather(&mut self, ports: Vec<MemPort>)
        ensures kept { Gathers (net_state self.old) (map (λ port. port_state (kept_of port)) ports.items)
            (net_state self.new) }
        ensures offers { (net_state self.new).offers ≡ (net_state self.old).offers }
        ensures onward { NetOnward (net_state self.old) (net_state self.new) }
    {
        count_failed(&mut self.calls, &ports);
        count_unaccepted(&mut self.port_faults, &ports);
        self.out = self.out.saturating_sub(ports.len() as u64);
        keep(&mut self.kept, ports);
    }

    ghost counts = { λ _. refl };

    ghost steadies = { λ _. refl };
}
