//! The list of approved messages.

ghost use Rattle.std.specs.Prelude.{◌≡◌, ◌≤◌, ◌<◌, ◌+◌, ◌↔◌, ◌||◌, ℕ, List, [], length, nat_eq, Contains, IsTrue, IfOk};
ghost use Rattle.std.specs.Cmp.Lexicographic.{pointwise};
ghost use Rattle.lms_bytes.specs.MessageId.{message_id_bytes};
ghost use Rattle.trustee_core.specs.Approved.{ids_of, is_in, room_of};

use lms_bytes::MessageId;
use memory::NoMemory;
use sorted_list::SortedList;
use std::alloc::Global;

/// The ids of approved messages.
#[derive(Drop)]
pub struct Approved {
    ids: SortedList<[u8; 36]>,
}

impl Approved {
    /// Whether a message is approved.
    pub fn has(&self, message: &MessageId) -> bool
        ensures { IsTrue result ↔ Contains (ids_of self.now) (message_id_bytes message.now) }
    {
        self.lists(&message.to_bytes())
    }

    /// No message yet, and room for `room` of them.
    pub fn with_room(alloc: Global, room: usize) -> Result<Approved, NoMemory>
        ensures empty { IfOk result (λ approved. ids_of approved ≡ []) }
        ensures room { IfOk result (λ approved. room ≤ room_of approved) }
    {
        Ok(Approved {
            ids: SortedList::with_room(alloc, room)?,
        })
    }

    /// Whether an id is listed.
    pub fn lists(&self, id: &[u8; 36]) -> bool
        ensures { result ≡ is_in (ids_of self.now) id.now }
    {
        self.ids.holds(id)
    }

    /// Lists an id.
    pub fn insert(&mut self, id: [u8; 36])
        requires { length (ids_of self.old) < room_of self.old }
        ensures listed { (other : List ℕ)
            → is_in (ids_of self.new) other ≡ (pointwise nat_eq other id || is_in (ids_of self.old) other) }
        ensures length { length (ids_of self.new) ≤ length (ids_of self.old) + 1 }
        ensures room { room_of self.new ≡ room_of self.old }
    {
        self.ids.insert(id);
    }
}
