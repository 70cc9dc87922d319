//! Plans: which coalition signs with which leaf.

ghost use Rattle.std.specs.Prelude.{◌≡◌, ◌↔◌, ℕ, ◌+◌, ◌*◌, ◌%◌, ◌^◌, ◌<◌, ◌≤◌, Contains, IfOk, IfSome, IsNone, IsOk};
ghost use Rattle.std.specs.Prelude.{IsSome, IsTrue, length};
ghost use Rattle.coalition_map.specs.Coalitions.{binomial, coalition, coalitions, count_of, leaf_members, IsLeafAfter};
ghost use Rattle.coalition_map.specs.Coalitions.{IsPlan, IsSubset, IsThreshold};
ghost use Rattle.coalition_map.specs.Members.{member_numbers};

use crate::members::Members;
use std::marker::Model;
use thiserror::Error;

/// The most trustees that a plan can have.
const MOST_TRUSTEES: u8 = 12;

/// Why there is no plan with these numbers.
#[derive(Clone, Copy, Debug, PartialEq, Eq, Error)]
pub enum PlanFault {
    /// Not `2 <= k <= n <= 12`.
    #[error("the threshold k and the number n of trustees are not 2 <= k <= n <= 12")]
    BadThreshold,
    /// More coalitions than leaves.
    #[error("{count} coalitions, where no more than leaves of the tree are wanted")]
    TooManyCoalitions { count: u32 },
}

/// A plan: every leaf of a tree of height `h` belongs to one coalition of `k` of the trustees `1..=n`, and leaf `q` to
/// coalition `q mod B` of all `B` coalitions, in lexicographic order.
#[derive(Clone, Copy, Debug, PartialEq, Eq)]
pub struct Plan {
    n: u8,
    k: u8,
    h: u8,
    count: u32,
}

impl Model for Plan {
    ghost use Rattle.coalition_map.specs.Coalitions.{PlanNumbers};

    ghost Value = { PlanNumbers };

    ghost use Rattle.coalition_map.specs.PlanInside.{numbers, fields, IsSound, fields-numbers};

    ghost view = { numbers };

    ghost invariant = { IsSound };

    ghost inverse = { fields };

    ghost inverse_ok = { λ p sound. fields-numbers p sound };
}

/// The number of ways to choose `k` of `n`.
fn binomial_of(n: u8, k: u8) -> u32
    requires order { k ≤ n }
    requires small { n ≤ 12 }
    ensures { result ≡ binomial n k }
{
    let mut ways = 1;
    'chosen: for i in 0..k {
        ways = ways * u32::from(n - i) / (u32::from(i) + 1);
    }
    ways
}

/// The least number above `after`, or the least of all, that leaves the remainder `c` when divided by `count`.
fn next_with_rest(count: u32, c: u32, after: Option<u32>) -> u64
    requires { c < count }
    ensures rest { result % count ≡ c }
    ensures above { IfSome after (λ last. last < result) }
    ensures least { (r : ℕ) → r % count ≡ c → IfSome after (λ last. last < r) → result ≤ r }
{
    match after {
        Some(last) if last >= c => u64::from(last) + u64::from(count)
            - u64::from((last - c) % count),
        _ => u64::from(c),
    }
}

impl Plan {
    /// The plan of coalitions of `k` of `n` trustees over a tree of height `h`.
    pub fn new(n: u8, k: u8, h: u8) -> Result<Plan, PlanFault>
        requires { h ≤ 25 }
        ensures plan { IfOk result (λ p. p ≡ record { n = n; k = k; h = h }) }
        ensures accepted { IsOk result ↔ IsPlan (record { n = n; k = k; h = h }) }
        ensures threshold { (result ≡ Err PlanFault.BadThreshold) ↔ ¬ IsThreshold n k }
        ensures leaves { (count : ℕ) → (result ≡ Err (PlanFault.TooManyCoalitions count))
            ↔ (IsThreshold n k × (count ≡ length (coalitions n k)) × (2 ^ h < count)) }
    {
        if k < 2 || n < k || n > MOST_TRUSTEES {
            return Err(PlanFault::BadThreshold);
        }
        let count = binomial_of(n, k);
        if count > 1 << h {
            return Err(PlanFault::TooManyCoalitions { count });
        }
        Ok(Plan { n, k, h, count })
    }

    /// The number of trustees.
    pub fn n(&self) -> u8
        ensures value { result ≡ self.now.n }
        ensures plan { IsPlan self.now }
    {
        self.n
    }

    /// How many trustees are in each coalition.
    pub fn k(&self) -> u8
        ensures value { result ≡ self.now.k }
        ensures plan { IsPlan self.now }
    {
        self.k
    }

    /// The height of the tree, which has `2^h` leaves.
    pub fn h(&self) -> u8
        ensures value { result ≡ self.now.h }
        ensures plan { IsPlan self.now }
    {
        self.h
    }

    /// The number of coalitions.
    pub fn count(&self) -> u32
        ensures value { result ≡ count_of self.now }
        ensures plan { IsPlan self.now }
        ensures some { 0 < result }
    {
        self.count
    }

    /// The coalition with number `c` in lexicographic order, from 0 on.
    pub fn members(&self, c: u32) -> Members
        requires { c < count_of self.now }
        ensures members { result ≡ coalition self.now c }
        ensures subset { IsSubset 1 (self.now.n + 1) self.now.k result }
    {
        let mut bits = 0;
        let mut trustee = 1;
        let mut wanted = self.k;
        let mut rest = c;
        // From here on, the coalitions that have the trustee come before those that do not.
        'trustees: while wanted > 0 {
            let having = binomial_of(self.n - trustee, wanted - 1);
            if rest < having {
                bits |= 1 << (trustee - 1);
                wanted -= 1;
            } else {
                rest -= having;
            }
            trustee += 1;
        }
        Members::of_bits(bits)
    }

    /// The number of the coalition of these members, or `None` if they are not `k` of the trustees `1..=n`.
    pub fn number_of(&self, members: Members) -> Option<u32>
        ensures number { IfSome result (λ c. (c < count_of self.now) × (coalition self.now c ≡ members)) }
        ensures listed { IsSome result ↔ Contains (coalitions self.now.n self.now.k) members }
        ensures subset { IsSome result ↔ IsSubset 1 (self.now.n + 1) self.now.k members }
    {
        let bits = members.bits();
        if members.size() == self.k && bits >> self.n == 0 {
            Some(self.place_of(bits))
        } else {
            None
        }
    }

    /// The place in lexicographic order of the coalition with these bits.
    fn place_of(&self, members: u16) -> u32
        requires size { length (member_numbers members) ≡ self.now.k }
        requires within { members < 2 ^ self.now.n }
        ensures { (result < count_of self.now) × (coalition self.now result ≡ member_numbers members) }
    {
        let mut bits = members;
        let mut number = 0;
        let mut trustee = 1;
        let mut wanted = self.k;
        // A trustee that is not a member is passed over, along with the coalitions that have it.
        'trustees: while wanted > 0 {
            if bits & 1 == 1 {
                wanted -= 1;
            } else {
                number += binomial_of(self.n - trustee, wanted - 1);
            }
            bits >>= 1;
            trustee += 1;
        }
        number
    }

    /// The number of the coalition that leaf `q` belongs to.
    pub fn coalition_of(&self, q: u32) -> u32
        requires { q < 2 ^ self.now.h }
        ensures number { result ≡ q % count_of self.now }
        ensures within { result < count_of self.now }
    {
        q % self.count
    }

    /// The members of leaf `q`: those of its coalition.
    pub fn members_of(&self, q: u32) -> Members
        requires { q < 2 ^ self.now.h }
        ensures members { result ≡ leaf_members self.now q }
        ensures subset { IsSubset 1 (self.now.n + 1) self.now.k result }
    {
        self.members(self.coalition_of(q))
    }

    /// Whether trustee `t` is in the coalition of leaf `q`.
    pub fn is_member(&self, q: u32, t: u8) -> bool
        requires { q < 2 ^ self.now.h }
        ensures { IsTrue result ↔ Contains (leaf_members self.now q) t }
    {
        self.members_of(q).has(t)
    }

    /// The least leaf of coalition `c` above `after`, or its least leaf of all.
    pub fn next_leaf(&self, c: u32, after: Option<u32>) -> Option<u32>
        requires { c < count_of self.now }
        ensures leaf { IfSome result (λ q. IsLeafAfter self.now c after q) }
        ensures least { IfSome result (λ q. (r : ℕ) → IsLeafAfter self.now c after r → q ≤ r) }
        ensures none { IsNone result ↔ ((q : ℕ) → ¬ IsLeafAfter self.now c after q) }
    {
        let next = next_with_rest(self.count, c, after);
        if next < 1 << self.h {
            Some(next as u32)
        } else {
            None
        }
    }
}
