//! The words after `deal`.

/// What may follow the prefix.
#[derive(Clone, Copy)]
pub(crate) struct DealFlags {
    /// Whether commitments are written too.
    pub(crate) commit: bool,
    /// Whether a large set may be dealt.
    pub(crate) large: bool,
}

/// The words after `deal`.
#[derive(Clone, Copy)]
pub struct DealWords<'a> {
    /// The name of the entropy's file.
    pub entropy: &'a str,
    /// The LMS typecode.
    pub lms: u32,
    /// The LM-OTS typecode.
    pub ots: u32,
    /// The number of trustees.
    pub n: u32,
    /// How many of them sign together.
    pub k: u32,
    /// The prefix of the outputs' names.
    pub prefix: &'a str,
    /// Whether commitments to the masks are written too.
    pub commit: bool,
    /// Whether a large set may be dealt, onto a disk.
    pub large: bool,
}
