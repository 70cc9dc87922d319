//! A port in memory.

ghost use Rattle.std.specs.Prelude.{◌≡◌, [], true, IfOk, length, option_map, refl, string_bytes};
ghost use Rattle.std.specs.Prelude.{if◌then◌else◌, is_some};
ghost use Rattle.std.specs.List.{list_any};
ghost use Rattle.stream_memory.specs.Ports.{is_at, is_steady_script, kept_of, least_room, port_state};

use crate::calls::Calls;
use crate::chain::{Chain, Node};
use crate::kept_port::KeptPort;
use crate::mem_link::MemLink;
use crate::port_script::PortScript;
use disk_trait::Faults;
use memory::NoMemory;
use std::alloc::Global;
use stream_io::{Accepted, Failed, Port};

/// A port whose links are made beforehand, and which keeps what was said on them.
#[derive(Drop)]
pub struct MemPort {
    pub(crate) node: Box<Node<KeptPort>>,
}

impl MemPort {
    /// A port that listens at a place, or only dials. Without a place it has no link to accept.
    pub fn new(
        alloc: Global,
        place: Option<String>,
        script: PortScript,
    ) -> Result<MemPort, NoMemory>
        ensures { IfOk result (λ port. ⟦<MemPort as Port>⟧.state port ≡ record {
          told = true;
          steady = is_steady_script script;
          place = option_map string_bytes place;
          count = 0;
          accept_count = 0;
          waiting = if is_some place then length script.waiting.items else 0;
          reaches = λ name. list_any (is_at name) script.dialled.items;
          room = least_room script.waiting.items script.dialled.items;
          talks = [];
        }) }
    {
        let kept = KeptPort {
            place,
            waiting: script.waiting,
            dialled: script.dialled,
            gave_steady: true,
            talks: Chain::new(),
            calls: Calls::new(script.failing),
            accept_faults: 0,
        };
        let node = Node::new(alloc, kept)?;
        Ok(MemPort { node })
    }

    /// What it has and keeps.
    pub fn kept(&self) -> &KeptPort
        ensures { port_state result.now ≡ ⟦<MemPort as Port>⟧.state self.now }
    {
        &self.node.value
    }
}

impl Faults for MemPort {
    ghost count = { λ port. (kept_of port).calls.faults };

    ghost steady = { λ port. (port_state (kept_of port)).steady };

    fn faults(&self) -> u64 {
        self.node.value.calls.faults
    }
}

impl Port for MemPort {
    type Link = MemLink;

    ghost state = { λ port. port_state (kept_of port) };

    fn accept_faults(&self) -> u64 {
        self.node.value.accept_faults
    }

    fn accept(&mut self) -> Accepted<MemLink> {
        self.node.value.accept()
    }

    fn dial(&mut self, place: &str) -> Result<MemLink, Failed> {
        self.node.value.dial(place)
    }

    fn hang_up(&mut self, link: MemLink) {
        self.node.value.hang_up(link.node);
    }

    ghost counts = { λ _. refl };

    ghost steadies = { λ _. refl };
}
