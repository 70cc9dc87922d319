//! Where the commitments of a dealing lie.

ghost use Rattle.std.specs.Prelude.{◌≡◌, ◌+◌, ◌*◌, ◌<◌, ◌≤◌, ◌^◌, Contains};
ghost use Rattle.coalition_map.specs.Coalitions.{IsPlan, leaf_members};
ghost use Rattle.reference_value.specs.Commitments.{cell_commits_place, leaf_commits_place};
ghost use Rattle.reference_value.specs.Places.{rank_place};
ghost use Rattle.mask_prf.specs.Lengths.{all_commits_length, leaf_commits_length};

use coalition_map::Plan;
use lms_bytes::Params;
use reference_value::rank;
use share_files::{COMMITMENT, chain_commits_bytes, leaf_commits_bytes};

/// The parameter set and the plan of commitments, which tell where each commitment lies among the leaves.
#[derive(Clone, Copy, Debug)]
pub(crate) struct Places {
    pub(crate) params: Params,
    pub(crate) plan: Plan,
    pub ghost same_height: { plan.h ≡ params.h },
    pub ghost plan_is: { IsPlan plan },
}

impl Places {
    /// Where leaf `q` begins.
    fn leaf(&self, q: u32) -> usize
        requires { q < 2 ^ self.now.params.h }
        ensures place { result ≡ leaf_commits_place self.now.params self.now.plan q }
        ensures within { result + leaf_commits_length self.now.params self.now.plan.k
            ≤ all_commits_length self.now.params self.now.plan }
        ensures small { all_commits_length self.now.params self.now.plan ≤ 2 ^ 50 }
    {
        leaf_commits_bytes(&self.params, self.plan.k()) * q as usize
    }

    /// Where the commitment to the mask of member `t` for the randomizer of leaf `q` lies.
    pub(crate) fn randomizer(&self, q: u32, t: u8) -> usize
        requires leaf { q < 2 ^ self.now.params.h }
        requires member { Contains (leaf_members self.now.plan q) t }
        ensures place { result
            ≡ leaf_commits_place self.now.params self.now.plan q + rank_place self.now.plan q t }
        ensures within { result + 32 ≤ all_commits_length self.now.params self.now.plan }
        ensures small { result ≤ 2 ^ 50 }
    {
        self.leaf(q) + COMMITMENT * rank(&self.plan, q, t)
    }

    /// Where the commitment to the mask of member `t` for the value of chain `i` of leaf `q` after `j` steps lies.
    pub(crate) fn cell(&self, q: u32, i: u16, j: u8, t: u8) -> usize
        requires leaf { q < 2 ^ self.now.params.h }
        requires chain { i < self.now.params.p }
        requires step { j < 2 ^ self.now.params.w }
        requires member { Contains (leaf_members self.now.plan q) t }
        ensures place { result
            ≡ cell_commits_place self.now.params self.now.plan q i j + rank_place self.now.plan q t }
        ensures within { result + 32 ≤ all_commits_length self.now.params self.now.plan }
        ensures small { result ≤ 2 ^ 50 }
    {
        let k = self.plan.k();
        let cell = COMMITMENT * k as usize;
        let chain = chain_commits_bytes(&self.params, k);
        let row = self.leaf(q) + cell + chain * i as usize;
        row + cell * j as usize + COMMITMENT * rank(&self.plan, q, t)
    }
}
