//! What a port in memory has and keeps.

ghost use Rattle.std.specs.Prelude.{◌≡◌, ◌≢◌, ◌↔◌, ◌<◌, ◌≤◌, ◌+◌, ◌&&◌, ℕ, List, length, false, None, Some};
ghost use Rattle.std.specs.Prelude.{IsTrue, IfSome, IfNone, IfOk, OnErr, min, option_copied, option_map};
ghost use Rattle.std.specs.Prelude.{position, string_bytes};
ghost use Rattle.std.specs.List.{list_all, list_any, slice_get};
ghost use Rattle.std.specs.Str.{bytes_eq};
ghost use Rattle.disk_trait.specs.Faults.{HasCause};
ghost use Rattle.stream_memory.specs.Chain.{own};
ghost use Rattle.stream_memory.specs.Links.{conversation_of, room_left, talk_of};
ghost use Rattle.stream_memory.specs.Ports.{is_at, is_steady_entry, is_steady_waiting, least, port_state};
ghost use Rattle.stream_memory.specs.Ports.{room_of_entry, room_of_waiting};
ghost use Rattle.stream_io.specs.Net.{Accepts, Dials, HangsUp, KeepsTalk, PortOnward, SameLinks};
ghost use Rattle.stream_io.specs.Store.{RisesWhere};
ghost use Rattle.stream_io.specs.declared.port.Accepted.{Accepted};

use crate::calls::Calls;
use crate::chain::{Chain, Node};
use crate::conversation::Conversation;
use crate::mem_link::MemLink;
use stream_io::{Accepted, Failed};

/// A port in memory: its place or none, the links that wait to be accepted and those that wait to be dialled, each with
/// its place, and the conversations that were hung up.
#[derive(Drop)]
pub struct KeptPort {
    pub(crate) place: Option<String>,
    pub(crate) waiting: Vec<MemLink>,
    pub(crate) dialled: Vec<(String, MemLink)>,
    /// Whether each link that it gave was steady.
    pub(crate) gave_steady: bool,
    pub(crate) talks: Chain<Conversation>,
    pub(crate) calls: Calls,
    pub(crate) accept_faults: u64,
}

impl KeptPort {
    /// The place that it listens at, or none.
    pub fn place(&self) -> Option<&str>
        ensures { option_copied result ≡ (port_state self.now).place }
    {
        self.place.as_deref()
    }

    /// The conversation of this number; the first that was hung up has the number 0.
    pub fn talk(&self, index: usize) -> Option<&Conversation>
        ensures { option_map talk_of (option_copied result) ≡ slice_get (port_state self.now).talks index }
    {
        self.talks.get(index)
    }

    /// The count of faults.
    pub fn faults(&self) -> u64
        ensures { result ≡ (port_state self.now).count }
    {
        self.calls.faults
    }

    /// How often accepting has failed.
    pub fn accept_faults(&self) -> u64
        ensures { result ≡ (port_state self.now).accept_count }
    {
        self.accept_faults
    }

    /// Accepts the next link, as `Port` says.
    pub(crate) fn accept(&mut self) -> Accepted<MemLink>
        ensures link { (link : MemLink) → result ≡ Accepted.Link link
            → Accepts (port_state self.old) (talk_of (conversation_of link)) (is_steady_waiting link)
            (room_left (conversation_of link)) (port_state self.new) }
        ensures end { result ≡ Accepted.End ↔ (port_state self.old).waiting ≡ 0 }
        ensures deaf { (port_state self.old).place ≡ None → result ≡ Accepted.End }
        ensures refused { ((link : MemLink) → result ≢ Accepted.Link link)
            → SameLinks (port_state self.old) (port_state self.new) }
        ensures cause { RisesWhere (result ≡ Accepted.Failed) (port_state self.old).count (port_state self.new).count }
        ensures accept_cause { RisesWhere (result ≡ Accepted.Failed)
            (port_state self.old).accept_count (port_state self.new).accept_count }
        ensures succeeds { IsTrue (port_state self.old).steady → result ≢ Accepted.Failed }
        ensures onward { PortOnward (port_state self.old) (port_state self.new) }
    {
        if self.place.is_none() || self.waiting.is_empty() {
            return Accepted::End;
        }
        if let Err(Failed) = self.calls.make() {
            self.accept_faults = self.accept_faults.saturating_add(1);
            return Accepted::Failed;
        }
        let mut link = take_first(&mut self.waiting);
        link.begin(None);
        self.gave_steady &= link.is_steady();
        Accepted::Link(link)
    }

    /// Dials a place, as `Port` says.
    pub(crate) fn dial(&mut self, place: &str) -> Result<MemLink, Failed>
        ensures link { IfOk result (λ link. Dials (port_state self.old) place.now (talk_of (conversation_of link))
            (is_steady_waiting link) (room_left (conversation_of link)) (port_state self.new)) }
        ensures refused { OnErr result (SameLinks (port_state self.old) (port_state self.new)) }
        ensures nobody { IsTrue (port_state self.old).steady
            → OnErr result ((port_state self.old).reaches place.now ≡ false) }
        ensures cause { HasCause (port_state self.old).count (port_state self.new).count result }
        ensures once { (port_state self.new).count ≤ (port_state self.old).count + 1 }
        ensures accepting { (port_state self.new).accept_count ≡ (port_state self.old).accept_count }
        ensures onward { PortOnward (port_state self.old) (port_state self.new) }
    {
        self.calls.make()?;
        let Some((name, mut link)) = take_at(&mut self.dialled, place) else {
            return Err(self.calls.fail());
        };
        link.begin(Some(name));
        self.gave_steady &= link.is_steady();
        Ok(link)
    }

    /// Ends a link over which this conversation went, as `Port` says. Nothing was read ahead, and nothing held back.
    pub(crate) fn hang_up(&mut self, node: Box<Node<Conversation>>)
        ensures kept { HangsUp (port_state self.old) (talk_of (own node.value)) (port_state self.new) }
        ensures onward { PortOnward (port_state self.old) (port_state self.new) }
    {
        self.keep(node);
    }

    /// Keeps a conversation, and counts a fault if it has some.
    fn keep(&mut self, node: Box<Node<Conversation>>)
        ensures kept { KeepsTalk (port_state self.old) (talk_of (own node.value)) (port_state self.new) }
        ensures onward { PortOnward (port_state self.old) (port_state self.new) }
    {
        if node.value.faults() > 0 {
            self.calls.fail();
        }
        self.talks.push(node);
    }
}

/// Takes the first link that waits to be accepted.
fn take_first(waiting: &mut Vec<MemLink>) -> MemLink
    requires { 0 < length waiting.old.items }
    ensures many { length waiting.old.items ≡ length waiting.new.items + 1 }
    ensures steady { list_all is_steady_waiting waiting.old.items
        ≡ (is_steady_waiting result && list_all is_steady_waiting waiting.new.items) }
    ensures room { least room_of_waiting waiting.old.items
        ≡ min (room_of_waiting result) (least room_of_waiting waiting.new.items) }
{
    waiting.remove(0)
}

/// The number of the first link that waits at a place.
fn find(dialled: &[(String, MemLink)], place: &str) -> Option<usize>
    ensures { result ≡ position (is_at place.now) dialled.now }
{
    dialled.iter().position(|entry| entry.0.as_str() == place)
}

/// Takes the first link that waits at a place, with the name of the place.
fn take_at(dialled: &mut Vec<(String, MemLink)>, place: &str) -> Option<(String, MemLink)>
    ensures name { IfSome result (λ entry. string_bytes entry.0 ≡ place.now) }
    ensures there { IfSome result (λ _. IsTrue (list_any (is_at place.now) dialled.old.items)) }
    ensures others { (other : List ℕ) → bytes_eq other place.now ≡ false
        → list_any (is_at other) dialled.new.items ≡ list_any (is_at other) dialled.old.items }
    ensures steady { IfSome result (λ entry. list_all is_steady_entry dialled.old.items
        ≡ (is_steady_entry entry && list_all is_steady_entry dialled.new.items)) }
    ensures room { IfSome result (λ entry. least room_of_entry dialled.old.items
        ≡ min (room_of_entry entry) (least room_of_entry dialled.new.items)) }
    ensures none { IfNone result (list_any (is_at place.now) dialled.old.items ≡ false) }
    ensures same { IfNone result (dialled.new.items ≡ dialled.old.items) }
{
    let found = find(dialled, place)?;
    Some(dialled.remove(found))
}
