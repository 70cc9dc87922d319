//! A reference that is read from pages, value by value.

ghost use Rattle.std.specs.Prelude.{◌≡◌, ◌+◌, ◌<◌, ◌≤◌, ◌-◌, ◌^◌, length, drop, take, min, IsTrue, IsOk, IfOk, OnOk};
ghost use Rattle.disk_trait.specs.Disks.{SameKind};
ghost use Rattle.disk_trait.specs.Faults.{HasCause};
ghost use Rattle.lms_bytes.specs.Bytes.{bytes_at};
ghost use Rattle.mask_prf.specs.Lengths.{leaves_length};

use crate::cells::{Cells, RefFault};
use crate::layout::Layout;
use coalition_map::Plan;
use disk_trait::{DiskFault, Faults, Pages};
use lms_bytes::bytes::part;
use lms_bytes::{Params, Val};
use mask_prf::HEAD;

/// The most bytes that a read gives.
const PIECE: usize = 4096;

/// The leaves of a reference on pages, after a header. A value is read with what lies behind it, up to 4,096 bytes, so
/// values that are asked for in the order in which they lie share a read.
#[derive(Drop)]
pub struct Paged<V: Pages> {
    layout: Layout,
    pages: V,
    /// What the last read gave: `count` bytes, which lie from `first` on.
    piece: [u8; PIECE],
    first: usize,
    count: usize,
    ghost few: { count ≤ 4096 },
    ghost behind: { first + count ≤ leaves_length layout.params layout.plan },
    ghost read: { IsTrue (V.told pages) → take count piece ≡ bytes_at (drop 32 (V.reads pages)) first count },
}

impl<V: Pages> Paged<V> {
    ghost use Rattle.reference_value.specs.Paged.{HasRead, count_of, first_of, layout_of, pages_of};

    /// The cells on these pages.
    pub fn new(params: &Params, plan: &Plan, pages: V) -> Paged<V>
        requires { plan.now.h ≡ params.now.h }
        ensures set { ⟦<Paged<V> as Cells>⟧.set result ≡ params.now }
        ensures plan { ⟦<Paged<V> as Cells>⟧.plan result ≡ plan.now }
        ensures pages { pages_of result ≡ pages }
    {
        Paged {
            layout: Layout::new(params, plan),
            pages,
            piece: [0; PIECE],
            first: 0,
            count: 0,
        }
    }

    /// Gives the pages back.
    pub fn end(self) -> V
        ensures { result ≡ pages_of self }
    {
        self.pages
    }

    /// The value of `n` bytes at a place of the leaves.
    fn value(&mut self, place: usize) -> Result<Val, RefFault>
        requires { place + (layout_of self.old).params.n
            ≤ leaves_length (layout_of self.old).params (layout_of self.old).plan }
        ensures value { IsTrue (V.told (pages_of self.old)) → IfOk result (λ v. v
            ≡ bytes_at (drop 32 (V.reads (pages_of self.old))) place (layout_of self.old).params.n) }
        ensures length { IfOk result (λ v. length v ≡ (layout_of self.old).params.n) }
        ensures reads { HasRead self.old self.new result }
    {
        let mut buffer = [0; 32];
        let value = &mut buffer[..self.layout.params.n as usize];
        self.read(place, value)?;
        Ok(Val::of(value))
    }

    /// Reads bytes of the leaves from a place on, as many as `out` has, and what lies behind them too if they are not
    /// there from the last read.
    fn read(&mut self, place: usize, out: &mut [u8]) -> Result<(), RefFault>
        requires some { 0 < length out.old }
        requires few { length out.old ≤ 32 }
        requires within { place + length out.old
            ≤ leaves_length (layout_of self.old).params (layout_of self.old).plan }
        ensures bytes { IsTrue (V.told (pages_of self.old))
            → OnOk result (out.new ≡ bytes_at (drop 32 (V.reads (pages_of self.old))) place (length out.old)) }
        ensures reads { HasRead self.old self.new result }
    {
        let count = out.len();
        if place < self.first || place + count > self.first + self.count {
            self.read_piece(place)?;
        }
        out.copy_from_slice(part(&self.piece, place - self.first, count));
        Ok(())
    }

    /// Reads the piece that begins at a place of the leaves.
    fn read_piece(&mut self, place: usize) -> Result<(), RefFault>
        requires { place < leaves_length (layout_of self.old).params (layout_of self.old).plan }
        ensures begins { OnOk result (first_of self.new ≡ place) }
        ensures count { OnOk result (count_of self.new
            ≡ min 4096 (leaves_length (layout_of self.old).params (layout_of self.old).plan - place)) }
        ensures reads { HasRead self.old self.new result }
    {
        let count = PIECE.min(self.layout.length() - place);
        let mut piece = [0; PIECE];
        read_behind_header(&mut self.pages, place, &mut piece[..count])?;
        self.piece = piece;
        self.first = place;
        self.count = count;
        Ok(())
    }
}

impl<V: Pages> Faults for Paged<V> {
    ghost count = { λ c. V.count c.pages };

    ghost steady = { λ c. V.steady c.pages };

    fn faults(&self) -> u64 {
        self.pages.faults()
    }
}

impl<V: Pages> Cells for Paged<V> {
    ghost set = { λ c. c.layout.params };

    ghost plan = { λ c. c.layout.plan };

    ghost told = { λ c. V.told c.pages };

    ghost leaves = { λ c. drop 32 (V.reads c.pages) };

    #[tactic(auto, unfolding(crate::specs::Places::cell_in))]
    fn cell(&mut self, q: u32, i: u16, j: u8) -> Result<Val, RefFault> {
        let place = self.layout.cell(q, i, j);
        self.value(place)
    }

    #[tactic(auto, unfolding(crate::specs::Places::randomizer_in))]
    fn randomizer(&mut self, q: u32) -> Result<Val, RefFault> {
        let place = self.layout.leaf(q);
        self.value(place)
    }

    #[tactic(auto, unfolding(crate::specs::Places::tag_in))]
    fn tag(&mut self, q: u32, t: u8) -> Result<[u8; 32], RefFault> {
        let place = self.layout.tag(q, t);
        let mut out = [0; 32];
        self.read(place, &mut out)?;
        Ok(out)
    }
}

/// Reads as many bytes of the leaves as `out` has, from a place on. The leaves come after a head of 32 bytes.
pub fn read_behind_header<V: Pages>(
    pages: &mut V,
    place: usize,
    out: &mut [u8],
) -> Result<(), RefFault>
    requires place { place ≤ 2 ^ 50 }
    requires some { 0 < length out.old }
    ensures bytes { IsTrue (V.told pages.old)
        → OnOk result (out.new ≡ bytes_at (drop 32 (V.reads pages.old)) place (length out.old)) }
    ensures succeeds { IsTrue (V.steady pages.old) → IsTrue (V.told pages.old)
        → place + length out.old ≤ length (drop 32 (V.reads pages.old)) → IsOk result }
    ensures cause { HasCause (V.count pages.old) (V.count pages.new) result }
    ensures same { IsTrue (V.told pages.old) → V.reads pages.new ≡ V.reads pages.old }
    ensures stays { SameKind V.told V.honest V.steady V.room pages.old pages.new }
{
    match pages.read_at((HEAD + place) as u64, out) {
        Ok(()) => Ok(()),
        Err(DiskFault) => Err(RefFault),
    }
}
