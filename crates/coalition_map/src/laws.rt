//! What follows from the definitions, for proofs about coalitions. No function here does anything.

ghost use Rattle.std.specs.Prelude.{◌≡◌, ◌⊎◌, ◌↔◌, ℕ, List, [], ◌∷◌, ◌++◌, ◌+◌, ◌/◌, ◌%◌, ◌^◌, ◌<◌, ◌≤◌, All, Contains};
ghost use Rattle.std.specs.Prelude.{length};
ghost use Rattle.std.specs.List.Sorted.{IsStrictlyIncreasing};
ghost use Rattle.coalition_map.specs.Coalitions.{binomial, coalition, coalitions, count_of, leaf_members, leaves_of};
ghost use Rattle.coalition_map.specs.Coalitions.{IsSubset, PlanNumbers};
ghost use Rattle.coalition_map.specs.Members.{below, bits_of, member_numbers, IsAscendingIn};

/// The bits of a set give the set, and the set gives its bits.
pub fn bits_and_members()
    ensures { (b : ℕ) → b < 2 ^ 16 → bits_of (member_numbers b) ≡ b }
{}

/// The members of a coalition are `k` of the numbers from 1 to `n`, in ascending order.
pub fn members_of_coalition()
    ensures size { (p : PlanNumbers) (c : ℕ) → c < count_of p → length (coalition p c) ≡ p.k }
    ensures range { (p : PlanNumbers) (c : ℕ) → c < count_of p → All (λ t. (1 ≤ t) × (t ≤ p.n)) (coalition p c) }
    ensures order { (p : PlanNumbers) (c : ℕ) → c < count_of p → IsStrictlyIncreasing (coalition p c) }
{}

/// Two numbers with equal members are equal.
pub fn one_number_each()
    ensures { (p : PlanNumbers) (c d : ℕ) → c < count_of p → d < count_of p → coalition p c ≡ coalition p d → c ≡ d }
{}

/// The coalitions are all sets of `k` of the numbers from 1 to `n`.
pub fn all_are_listed()
    ensures { (n k : ℕ) (l : List ℕ) → Contains (coalitions n k) l ↔ IsSubset 1 (n + 1) k l }
{}

/// There are as many coalitions as ways to choose `k` of `n`.
pub fn number_of_coalitions()
    ensures { (p : PlanNumbers) → count_of p ≡ binomial p.n p.k }
{}

/// The members of a leaf are those of its coalition.
pub fn members_of_leaf()
    ensures { (p : PlanNumbers) (q c : ℕ) → q % count_of p ≡ c → leaf_members p q ≡ coalition p c }
{}

/// If there are `B` coalitions, each has `2^h / B` leaves, rounded down, or one more: the first ones have one more, as
/// many of them as the remainder of the division.
pub fn leaves_of_coalition()
    ensures each { (p : PlanNumbers) (c : ℕ) → c < count_of p
        → (length (leaves_of p c) ≡ 2 ^ p.h / count_of p) ⊎ (length (leaves_of p c) ≡ 2 ^ p.h / count_of p + 1) }
    ensures first { (p : PlanNumbers) (c : ℕ) → c < count_of p → c < 2 ^ p.h % count_of p
        → length (leaves_of p c) ≡ 2 ^ p.h / count_of p + 1 }
    ensures others { (p : PlanNumbers) (c : ℕ) → c < count_of p → 2 ^ p.h % count_of p ≤ c
        → length (leaves_of p c) ≡ 2 ^ p.h / count_of p }
{}

/// A walk over the numbers from 1 to `n` meets the members of a set in their order.
pub fn members_in_a_walk()
    ensures start { (e : ℕ) (l : List ℕ) → IsAscendingIn 1 e l → below 1 l ≡ [] }
    ensures member { (a e t : ℕ) (l : List ℕ) → IsAscendingIn a e l → Contains l t
        → below (t + 1) l ≡ below t l ++ t ∷ [] }
    ensures other { (t : ℕ) (l : List ℕ) → ¬ Contains l t → below (t + 1) l ≡ below t l }
    ensures end { (a e : ℕ) (l : List ℕ) → IsAscendingIn a e l → below e l ≡ l }
{}
