//! The words after `aggregate`.

ghost use Rattle.std.specs.Prelude.{◌≤◌};

use crate::places::Places;

/// The words after `aggregate`.
#[derive(Clone, Copy)]
pub struct AggregateWords<'a> {
    /// The prefix of the names of the key's, the tree's and the reference file.
    pub prefix: &'a str,
    /// The name of the leaf table.
    pub table: &'a str,
    /// The place to listen at.
    pub place: &'a str,
    /// How many workers serve, 1 to 64.
    pub workers: u32,
    /// How many connections each worker serves, at least 1.
    pub connections: u32,
    /// The places of trustees.
    pub places: Places<'a>,
    pub ghost some_workers: { 1 ≤ workers },
    pub ghost few_workers: { workers ≤ 64 },
}
