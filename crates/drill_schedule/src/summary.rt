//! The outcome of a drill.

use std::fmt;

/// The outcome of a drill's sessions and asks.
#[derive(Clone, Copy, Debug, PartialEq, Eq)]
pub struct Summary {
    /// How many sessions there were.
    pub sessions: u32,
    /// How many of them signed.
    pub signed: u32,
    /// How many were refused.
    pub refused: u32,
    /// How many asks were put to trustees.
    pub asks: u32,
    /// How many of them were granted.
    pub granted: u32,
    /// How many of them stopped the trustee's disk.
    pub cuts: u32,
    /// How often a trustee was loaded anew.
    pub restarts: u32,
    /// The largest number of different pairs of randomizer and digest under which one trustee opened one leaf.
    pub most: u32,
}

impl fmt::Display for Summary {
    fn fmt<W: fmt::Write>(&self, f: &mut fmt::Formatter<W>) -> fmt::Result {
        write!(
            f,
            "sessions {} signed {} refused {} asks {} granted {} cuts {} restarts {} most {}",
            self.sessions,
            self.signed,
            self.refused,
            self.asks,
            self.granted,
            self.cuts,
            self.restarts,
            self.most
        )
    }
}
