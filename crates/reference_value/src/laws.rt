//! What follows from the definitions, for anyone who proves something about reference values. No function here does
//! anything.

ghost use Rattle.std.specs.Prelude.{◌≡◌, ℕ, List, ◌∷◌, ◌++◌, ◌<◌, ◌^◌, All, Contains, length, map};
ghost use Rattle.coalition_map.specs.Coalitions.{IsPlan};
ghost use Rattle.lms_bytes.specs.Bytes.{joined, xor};
ghost use Rattle.lms_bytes.specs.Digits.{digit_of};
ghost use Rattle.reference_value.specs.Dealing.{Dealing, cell, chain_mask, chain_sums, chain_value, check_tag};
ghost use Rattle.reference_value.specs.Dealing.{leaf_part, leaf_randomizer, masked_randomizer, members_of, random_mask};
ghost use Rattle.reference_value.specs.Dealing.{reference, sum_of_masks};
ghost use Rattle.reference_value.specs.Joins.{joined_chains};
ghost use Rattle.reference_value.specs.Pads.{AreValues, ExactlyOne, JoinTo};
ghost use Rattle.reference_value.specs.Places.{cell_in, randomizer_in, tag_in};
ghost use Rattle.mask_prf.specs.Lengths.{leaf_length, leaves_length};

/// Whatever the cells, the masks of the other members and the `p` values of `n` bytes, exactly one list of `p` masks of
/// a member joins the cells to these values. So without a member's masks the cells fit every list of values. This is a
/// law on lists, not a claim of secrecy.
pub fn pads()
    ensures { (n p : ℕ) (cells values : List (List ℕ)) (before after : List (List (List ℕ)))
        → AreValues n p cells → AreValues n p values → All (AreValues n p) before → All (AreValues n p) after
        → ExactlyOne (λ masks. AreValues n p masks × JoinTo n p cells (before ++ masks ∷ after) values) }
{}

/// The reference of a dealing has its values at their places.
pub fn values_of_reference()
    ensures leaf { (d : Dealing) (q : ℕ) → IsPlan d.plan → length (leaf_part d q) ≡ leaf_length d.params d.plan.k }
    ensures all { (d : Dealing) → IsPlan d.plan → length (reference d) ≡ leaves_length d.params d.plan }
    ensures randomizer { (d : Dealing) (q : ℕ) → IsPlan d.plan → q < 2 ^ d.params.h
        → randomizer_in d.params d.plan (reference d) q ≡ masked_randomizer d q }
    ensures tag { (d : Dealing) (q t : ℕ) → IsPlan d.plan → q < 2 ^ d.params.h → Contains (members_of d q) t
        → tag_in d.params d.plan (reference d) q t ≡ check_tag d q t }
    ensures cell { (d : Dealing) (q i j : ℕ) → IsPlan d.plan → q < 2 ^ d.params.h → i < d.params.p → j < 2 ^ d.params.w
        → cell_in d.params d.plan (reference d) q i j ≡ cell d q i j }
{}

/// The sum of all members' masks takes them off again.
pub fn masks_come_off()
    ensures randomizer { (d : Dealing) (q : ℕ)
        → xor (masked_randomizer d q) (sum_of_masks d.params.n (map (random_mask d q) (members_of d q)))
        ≡ leaf_randomizer d q }
    ensures cell { (d : Dealing) (q i j : ℕ)
        → xor (cell d q i j) (sum_of_masks d.params.n (map (chain_mask d q i j) (members_of d q)))
        ≡ chain_value d q i j }
    ensures chains { (d : Dealing) (q : ℕ) (digest : List ℕ) → IsPlan d.plan → q < 2 ^ d.params.h
        → joined_chains d.params d.plan (reference d) q digest (chain_sums d q digest)
        ≡ joined (λ i. chain_value d q i (digit_of d.params digest i)) d.params.p }
{}
