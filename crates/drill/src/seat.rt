//! Where a session stands.

use session_core::Session;

/// A session of a drill. Only one that runs keeps replies: there are at most as many as leaves.
#[derive(Drop)]
pub(crate) enum Seat {
    /// It has no leaf.
    Waiting,
    /// It asks the trustees of its leaf.
    Running(Session),
    /// It has signed with this leaf.
    Signed(u32),
    /// It was refused.
    Refused,
}
