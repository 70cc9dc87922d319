//! The words after `trustee`.

ghost use Rattle.std.specs.Prelude.{◌≤◌};

/// The words after `trustee`.
#[derive(Clone, Copy)]
pub struct TrusteeWords<'a> {
    /// The name of the share's file.
    pub share: &'a str,
    /// The name of the journal.
    pub journal: &'a str,
    /// The place to listen at.
    pub place: &'a str,
    /// How many workers serve, 1 to 64.
    pub workers: u32,
    /// How many connections each worker serves, at least 1.
    pub connections: u32,
    /// The name of the book of approved messages, if there is one.
    pub book: Option<&'a str>,
    pub ghost some_workers: { 1 ≤ workers },
    pub ghost few_workers: { workers ≤ 64 },
}
