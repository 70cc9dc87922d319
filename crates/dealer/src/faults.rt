//! Why a key is not dealt.

use std::fmt::{self, Formatter, Write};
use thiserror::Error;

/// Why there is no dealing.
#[derive(Clone, Copy, PartialEq, Eq, Error)]
pub enum DealFault {
    /// The tree is higher than 10.
    #[error("a tree of height {h}, where at most 10 is wanted")]
    TooHigh { h: u8 },
    /// Digits of 8 bits with a tree of height 10.
    #[error("digits of 8 bits with a tree of height 10, where narrower ones are wanted")]
    TooWide,
    /// The entropy has a length other than `80 + 32n` bytes for `n` trustees.
    #[error("{got} bytes of entropy, where {want} are wanted")]
    BadEntropy { got: usize, want: usize },
    /// Two trustees have the same key. This is the first such pair, `t` first.
    #[error("trustees {t} and {u} have the same key, where all are to differ")]
    SameKeys { t: u8, u: u8 },
    /// Want of memory.
    #[error("out of memory")]
    NoMemory,
}

impl fmt::Debug for DealFault {
    /// Writes the line that is displayed.
    fn fmt<W: Write>(&self, f: &mut Formatter<W>) -> fmt::Result {
        fmt::Display::fmt(self, f)
    }
}
