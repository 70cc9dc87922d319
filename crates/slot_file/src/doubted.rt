//! A put that is in doubt.

use crate::Slot;

/// A put that was refused: it was made or was not.
#[derive(Clone, Copy, PartialEq, Eq)]
pub struct Doubted {
    /// The slot.
    pub slot: u32,
    /// What the slot is if the put was made.
    pub after: Slot,
}
