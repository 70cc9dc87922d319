//! What may wait for turns, and for nothing else.
#![tactic(auto)]

use std::thread::Threads;

/// What may wait for turns of a lock, and for nothing else. Whoever is handed this in the place of the runtime that it
/// was made from has no value that waits by itself: only `TurnLock::take_turn` opens it. It starts threads where the
/// runtime may, and is neither copied nor cloned.
#[derive(Drop)]
pub struct TurnsOnly<'a, R> {
    pub(crate) rt: &'a R,
}

impl<'a, R> TurnsOnly<'a, R> {
    /// What may wait for turns where this runtime may wait.
    pub fn of(rt: &'a R) -> TurnsOnly<'a, R> {
        TurnsOnly { rt }
    }
}

impl<R: Threads> Threads for TurnsOnly<'_, R> {}
