//! A link in memory.

ghost use Rattle.std.specs.Prelude.{◌≡◌, ◌+◌, ◌-◌, ◌^◌, ◌++◌, ◌↔◌, [], None, IsTrue, IfOk, refl};
ghost use Rattle.std.specs.Prelude.{min, option_map, string_bytes};
ghost use Rattle.stream_memory.specs.Links.{conversation_of, is_steady_link, joined_talk, room_left, talk_of};
ghost use Rattle.stream_memory.specs.Ports.{room_of_waiting};

use crate::calls::Calls;
use crate::chain::Node;
use crate::conversation::{Conversation, Gate};
use crate::mem_sink::MemSink;
use crate::mem_source::MemSource;
use disk_trait::Faults;
use memory::NoMemory;
use std::alloc::Global;
use stream_io::{Failed, Sink, Source, Stream};

/// A link to a peer that gives the bytes of a source, and whose other end is a sink.
#[derive(Drop)]
pub struct MemLink {
    pub(crate) node: Box<Node<Conversation>>,
}

impl MemLink {
    /// A link. The calls whose numbers are listed fail, and so do the reads that the gate holds, and the calls at which
    /// the source or the sink fails. The first call has the number 0, and reads and writes are counted together.
    pub fn new(
        alloc: Global,
        source: MemSource,
        sink: MemSink,
        failing: Vec<u64>,
        gate: Option<Gate>,
    ) -> Result<MemLink, NoMemory>
        ensures talk { IfOk result (λ link. ⟦<MemLink as Stream>⟧.talk link
            ≡ joined_talk (⟦<MemSource as Stream>⟧.talk source) (⟦<MemSink as Stream>⟧.talk sink)) }
        ensures room { IfOk result (λ link. ⟦<MemLink as Sink>⟧.room link ≡ ⟦<MemSink as Sink>⟧.room sink) }
        ensures steady { IfOk result (λ link. IsTrue (⟦<MemLink as Faults>⟧.steady link)
            ↔ (failing.items ≡ []) × (gate ≡ None) × IsTrue (⟦<MemSource as Faults>⟧.steady source)
            × IsTrue (⟦<MemSink as Faults>⟧.steady sink)) }
    {
        let conversation = Conversation {
            place: None,
            source,
            sink,
            gate,
            calls: Calls::new(failing),
        };
        let node = Node::new(alloc, conversation)?;
        Ok(MemLink { node })
    }

    /// What has gone over it.
    pub fn conversation(&self) -> &Conversation
        ensures { talk_of result.now ≡ ⟦<MemLink as Stream>⟧.talk self.now }
    {
        &self.node.value
    }

    /// Counts this many faults that were met around it.
    pub fn add_faults(&mut self, faults: u64)
        ensures talk { ⟦<MemLink as Stream>⟧.talk self.new ≡ record (⟦<MemLink as Stream>⟧.talk self.old)
            { count = min ((⟦<MemLink as Stream>⟧.talk self.old).count + faults) (2 ^ 64 - 1) } }
        ensures room { ⟦<MemLink as Sink>⟧.room self.new ≡ ⟦<MemLink as Sink>⟧.room self.old }
        ensures steady { ⟦<MemLink as Faults>⟧.steady self.new ≡ ⟦<MemLink as Faults>⟧.steady self.old }
    {
        let calls = &mut self.node.value.calls;
        calls.faults = calls.faults.saturating_add(faults);
    }

    /// Whether its calls fail for their arguments alone.
    pub(crate) fn is_steady(&self) -> bool
        ensures { result ≡ is_steady_link (conversation_of self.now) }
    {
        let link = &self.node.value;
        link.calls.is_steady()
            && link.gate.is_none()
            && link.source.is_steady()
            && link.sink.is_steady()
    }

    /// Begins anew, as a link to a place that was dialled or to none.
    pub(crate) fn begin(&mut self, place: Option<String>)
        ensures place { (talk_of (conversation_of self.new)).place ≡ option_map string_bytes place }
        ensures taken { (talk_of (conversation_of self.new)).taken ≡ [] }
        ensures left { (talk_of (conversation_of self.new)).left
            ≡ (talk_of (conversation_of self.old)).taken ++ (talk_of (conversation_of self.old)).left }
        ensures written { (talk_of (conversation_of self.new)).written ≡ [] }
        ensures count { (talk_of (conversation_of self.new)).count ≡ 0 }
        ensures steady { is_steady_link (conversation_of self.new) ≡ is_steady_link (conversation_of self.old) }
        ensures room { room_left (conversation_of self.new) ≡ room_of_waiting self.old }
    {
        self.node.value.begin(place);
    }
}

impl Faults for MemLink {
    ghost count = { λ link. (conversation_of link).calls.faults };

    ghost steady = { λ link. is_steady_link (conversation_of link) };

    fn faults(&self) -> u64 {
        self.node.value.calls.faults
    }
}

impl Stream for MemLink {
    ghost talk = { λ link. talk_of (conversation_of link) };

    ghost counts = { λ _. refl };
}

impl Source for MemLink {
    fn read(&mut self, out: &mut [u8]) -> Result<usize, Failed> {
        self.node.value.read(out)
    }
}

impl Sink for MemLink {
    ghost room = { λ link. room_left (conversation_of link) };

    ghost rooms = { λ _. refl };

    fn write(&mut self, bytes: &[u8]) -> Result<usize, Failed> {
        self.node.value.write(bytes)
    }
}
