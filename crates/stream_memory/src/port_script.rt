//! What a port in memory is made of.

ghost use Rattle.std.specs.Prelude.{◌≡◌, ◌-◌, ◌^◌, [], IsTrue};
ghost use Rattle.stream_memory.specs.Ports.{is_steady_entry, is_steady_script, is_steady_waiting, least_room};
ghost use Rattle.std.specs.List.{list_all};

use crate::mem_link::MemLink;
use std::alloc::Global;

/// What a port in memory is made of. A link that was used before begins anew when the port gives it.
#[derive(Drop)]
pub struct PortScript {
    /// The links to be accepted, the first of them first.
    pub waiting: Vec<MemLink>,
    /// The links that are there to be dialled, each with its place, the first of a place first.
    pub dialled: Vec<(String, MemLink)>,
    /// The numbers of the calls that fail; the first call has the number 0.
    pub failing: Vec<u64>,
}

impl PortScript {
    /// No links, and no call that fails.
    pub fn new(alloc: Global) -> PortScript
        ensures waiting { result.waiting.items ≡ [] }
        ensures dialled { result.dialled.items ≡ [] }
        ensures failing { result.failing.items ≡ [] }
        ensures steady { IsTrue (is_steady_script result) }
        ensures room { least_room result.waiting.items result.dialled.items ≡ 2 ^ 64 - 1 }
    {
        PortScript {
            waiting: Vec::new(alloc),
            dialled: Vec::new(alloc),
            failing: Vec::new(alloc),
        }
    }

    /// Whether no call is listed to fail, neither of the port nor of a link.
    pub(crate) fn is_steady(&self) -> bool
        ensures { result ≡ is_steady_script self.now }
    {
        self.failing.is_empty()
            && are_waiting_steady(&self.waiting)
            && are_dialled_steady(&self.dialled)
    }
}

/// Whether links that wait to be accepted are steady.
fn are_waiting_steady(waiting: &[MemLink]) -> bool
    ensures { result ≡ list_all is_steady_waiting waiting.now }
{
    waiting.iter().all(|link| link.is_steady())
}

/// Whether links that wait at places are steady.
fn are_dialled_steady(dialled: &[(String, MemLink)]) -> bool
    ensures { result ≡ list_all is_steady_entry dialled.now }
{
    dialled.iter().all(|entry| entry.1.is_steady())
}
