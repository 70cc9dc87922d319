//! The words after `hss sign`.

use crate::places::Places;

/// The words after `hss sign`.
#[derive(Clone, Copy)]
pub struct HssSignWords<'a> {
    /// The prefix of the names of the key's, the tree's and the reference file.
    pub prefix: &'a str,
    /// The name of the leaf table.
    pub table: &'a str,
    /// The name of the lower key's file.
    pub low_key: &'a str,
    /// The name of the file with the lower key's signature of the message.
    pub low_signature: &'a str,
    /// The name of the message's file.
    pub message: &'a str,
    /// The name that the key of two levels is written under.
    pub key_out: &'a str,
    /// The name that the signature of two levels is written under, a different one.
    pub signature_out: &'a str,
    /// The places of trustees.
    pub places: Places<'a>,
}
