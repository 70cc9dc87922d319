//! What a link waits for, and when it rings.

use crate::bell::Bell;

/// Before which of its calls a link waits.
#[derive(Clone, Copy)]
pub enum Before {
    /// Before it gives more than this many bytes.
    Reading(usize),
    /// Before it takes a byte.
    Writing,
}

/// What a link waits for: a bell that has been rung `rings` times.
#[derive(Clone, Copy)]
pub struct Hold<'a> {
    /// Before which of its calls it waits.
    pub before: Before,
    /// The bell.
    pub bell: &'a Bell,
    /// How often it has to be rung.
    pub rings: u64,
}

/// When a link rings a bell: once `written` bytes, and one at least, were written to it.
#[derive(Clone, Copy)]
pub struct Ring<'a> {
    /// The bell.
    pub bell: &'a Bell,
    /// How many bytes have to be written.
    pub written: usize,
}
