//! The words after `sign` and after `blame`.

use crate::places::Places;

/// The words after `sign` and after `blame`.
#[derive(Clone, Copy)]
pub struct SignWords<'a> {
    /// The prefix of the names of the key's, the tree's and the reference file.
    pub prefix: &'a str,
    /// The name of the leaf table.
    pub table: &'a str,
    /// The name of the message's file.
    pub message: &'a str,
    /// The name that the signature is written under.
    pub out: &'a str,
    /// The places of trustees.
    pub places: Places<'a>,
}
