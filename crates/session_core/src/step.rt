//! What a session says about a reply.

/// What became of a reply.
#[derive(Clone, Copy, Debug, PartialEq, Eq)]
pub enum Step {
    /// It answers no ask of the present round.
    NotMine,
    /// A reply from this member is kept already.
    Repeat,
    /// It is kept.
    Kept,
}
