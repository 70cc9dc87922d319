//! A reference in memory.

ghost use Rattle.std.specs.Prelude.{◌≡◌, ◌<◌, true, length};
ghost use Rattle.mask_prf.specs.Lengths.{leaves_length};

use crate::cells::{Cells, RefFault};
use crate::layout::Layout;
use coalition_map::Plan;
use disk_trait::Faults;
use lms_bytes::bytes::part;
use lms_bytes::{Params, Val};

/// The leaves of a reference in memory that is borrowed. It never fails.
#[derive(Clone, Copy, Debug)]
pub struct Whole<'a> {
    layout: Layout,
    leaves: &'a [u8],
    ghost exact: { length leaves.now ≡ leaves_length layout.params layout.plan },
}

impl<'a> Whole<'a> {
    /// The cells in these leaves.
    pub fn new(params: &Params, plan: &Plan, leaves: &'a [u8]) -> Whole<'a>
        requires height { plan.now.h ≡ params.now.h }
        requires exact { length leaves.now ≡ leaves_length params.now plan.now }
        ensures set { ⟦<Whole<'a> as Cells>⟧.set result ≡ params.now }
        ensures plan { ⟦<Whole<'a> as Cells>⟧.plan result ≡ plan.now }
        ensures leaves { ⟦<Whole<'a> as Cells>⟧.leaves result ≡ leaves.now }
    {
        Whole {
            layout: Layout::new(params, plan),
            leaves,
        }
    }
}

impl Faults for Whole<'_> {
    ghost count = { λ _. 0 };

    ghost steady = { λ _. true };

    fn faults(&self) -> u64 {
        0
    }
}

impl Cells for Whole<'_> {
    ghost set = { λ c. c.layout.params };

    ghost plan = { λ c. c.layout.plan };

    ghost told = { λ _. true };

    ghost leaves = { λ c. c.leaves.now };

    #[tactic(auto, unfolding(crate::specs::Places::cell_in))]
    fn cell(&mut self, q: u32, i: u16, j: u8) -> Result<Val, RefFault> {
        let place = self.layout.cell(q, i, j);
        Ok(Val::of(part(self.leaves, place, self.layout.params.n as usize)))
    }

    #[tactic(auto, unfolding(crate::specs::Places::randomizer_in))]
    fn randomizer(&mut self, q: u32) -> Result<Val, RefFault> {
        let place = self.layout.leaf(q);
        Ok(Val::of(part(self.leaves, place, self.layout.params.n as usize)))
    }

    #[tactic(auto, unfolding(crate::specs::Places::tag_in))]
    fn tag(&mut self, q: u32, t: u8) -> Result<[u8; 32], RefFault> {
        let place = self.layout.tag(q, t);
        let mut out = [0; 32];
        out.copy_from_slice(part(self.leaves, place, 32));
        Ok(out)
    }
}
