//! Where the values of a reference lie.

ghost use Rattle.std.specs.Prelude.{◌≡◌, ◌+◌, ◌*◌, ◌<◌, ◌≤◌, ◌^◌, Contains};
ghost use Rattle.coalition_map.specs.Coalitions.{leaf_members};
ghost use Rattle.reference_value.specs.Places.{cell_place, leaf_place, rank_of, tag_place};
ghost use Rattle.mask_prf.specs.Lengths.{leaf_length, leaves_length};

use coalition_map::Plan;
use lms_bytes::Params;
use mask_prf::{TAG, chain_bytes, leaf_bytes};

/// How many members of leaf `q` come before its member `t`.
pub fn rank(plan: &Plan, q: u32, t: u8) -> usize
    requires leaf { q < 2 ^ plan.now.h }
    requires member { Contains (leaf_members plan.now q) t }
    ensures value { result ≡ rank_of plan.now q t }
    ensures within { result < plan.now.k }
{
    let members = plan.members_of(q);
    let mut before = 0;
    'others: for other in 1..t {
        if members.has(other) {
            before += 1;
        }
    }
    before
}

/// The parameter set and the plan of a reference, which say where its values lie among the leaves.
#[derive(Clone, Copy, Debug)]
pub(crate) struct Layout {
    pub(crate) params: Params,
    pub(crate) plan: Plan,
    ghost same_height: { plan.h ≡ params.h },
}

impl Layout {
    pub(crate) fn new(params: &Params, plan: &Plan) -> Layout
        requires { plan.now.h ≡ params.now.h }
        ensures params { result.params ≡ params.now }
        ensures plan { result.plan ≡ plan.now }
    {
        Layout {
            params: *params,
            plan: *plan,
        }
    }

    /// How long all leaves together are.
    pub(crate) fn length(&self) -> usize
        ensures length { result ≡ leaves_length self.now.params self.now.plan }
        ensures small { result ≤ 2 ^ 50 }
    {
        leaf_bytes(&self.params, self.plan.k()) * self.params.leaves() as usize
    }

    /// Where leaf `q` begins, and in it the randomizer.
    pub(crate) fn leaf(&self, q: u32) -> usize
        requires { q < 2 ^ self.now.params.h }
        ensures place { result ≡ leaf_place self.now.params self.now.plan q }
        ensures within { result + leaf_length self.now.params self.now.plan.k
            ≤ leaves_length self.now.params self.now.plan }
        ensures small { leaves_length self.now.params self.now.plan ≤ 2 ^ 50 }
    {
        leaf_bytes(&self.params, self.plan.k()) * q as usize
    }

    /// Where the check tag of leaf `q` for its member `t` begins.
    pub(crate) fn tag(&self, q: u32, t: u8) -> usize
        requires leaf { q < 2 ^ self.now.params.h }
        requires member { Contains (leaf_members self.now.plan q) t }
        ensures place { result ≡ tag_place self.now.params self.now.plan q t }
        ensures within { result + 32 ≤ leaves_length self.now.params self.now.plan }
        ensures small { leaves_length self.now.params self.now.plan ≤ 2 ^ 50 }
    {
        self.leaf(q) + self.params.n as usize + TAG * rank(&self.plan, q, t)
    }

    /// Where the cell of chain `i` of leaf `q` after `j` steps begins.
    pub(crate) fn cell(&self, q: u32, i: u16, j: u8) -> usize
        requires leaf { q < 2 ^ self.now.params.h }
        requires chain { i < self.now.params.p }
        requires step { j < 2 ^ self.now.params.w }
        ensures place { result ≡ cell_place self.now.params self.now.plan q i j }
        ensures within { result + self.now.params.n ≤ leaves_length self.now.params self.now.plan }
        ensures small { leaves_length self.now.params self.now.plan ≤ 2 ^ 50 }
    {
        let n = self.params.n as usize;
        let cells = self.leaf(q) + n + TAG * self.plan.k() as usize;
        cells + chain_bytes(&self.params) * i as usize + n * j as usize
    }
}
