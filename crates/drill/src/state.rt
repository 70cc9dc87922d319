//! The state of a drill.

use crate::openings::Openings;
use crate::seat::Seat;
use disk_trait::MemDisk;
use drill_trustees::Trustees;
use leaf_table::Table;

/// The trustees, the leaf table, the sessions, and what leaves were opened under.
#[derive(Drop)]
pub(crate) struct Drill {
    pub(crate) trustees: Trustees,
    pub(crate) table: Table<MemDisk>,
    pub(crate) seats: Vec<Seat>,
    pub(crate) openings: Openings,
}

/// What trustees were asked.
#[derive(Clone, Copy)]
pub(crate) struct Asks {
    /// How many asks were put.
    pub(crate) put: u32,
    /// How many of them were granted.
    pub(crate) granted: u32,
    /// How many of them stopped a disk.
    pub(crate) cut: u32,
}

/// Nothing was asked.
pub(crate) const NO_ASKS: Asks = Asks {
    put: 0,
    granted: 0,
    cut: 0,
};
