//! Tests against a walk of the list, and against worked values.

ghost use Rattle.std.specs.Prelude.{◌≤◌};

use crate::values::holds;
use coalition_map::{Members, Plan, PlanFault};
use std::process::Abort;

/// A plan for coalitions of `k` of `n` trustees over trees of height `h`.
fn plan_of(n: u8, k: u8, h: u8) -> Result<Plan, PlanFault>
    requires { h ≤ 25 }
{
    Plan::new(n, k, h)
}

/// A plan that exists.
fn made(rt: &impl Abort, n: u8, k: u8, h: u8) -> Plan
    requires { h ≤ 25 }
{
    plan_of(n, k, h).expect(rt, "a plan")
}

/// The bits of a set of trustees.
fn bits_of(trustees: &[u8]) -> u16 {
    let mut bits = 0;
    for trustee in trustees {
        bits |= 1 << (trustee.wrapping_sub(1) % 16);
    }
    bits
}

/// Whether coalition `c` has the members of these bits, and these members its number.
fn is_at(plan: &Plan, c: u32, bits: u16) -> bool {
    if plan.count() <= c {
        return false;
    }
    let members = plan.members(c);
    members.bits() == bits && plan.number_of(members) == Some(c)
}

/// Whether coalition `c` has these leaves, one after another, and no other.
fn has_leaves(plan: &Plan, c: u32, leaves: &[u32]) -> bool {
    if plan.count() <= c {
        return false;
    }
    let mut last = None;
    for leaf in leaves {
        last = plan.next_leaf(c, last);
        if last != Some(*leaf) {
            return false;
        }
    }
    plan.next_leaf(c, last).is_none()
}

/// The coalitions of three of five trustees.
const ORDER: [[u8; 3]; 10] = [
    [1, 2, 3],
    [1, 2, 4],
    [1, 2, 5],
    [1, 3, 4],
    [1, 3, 5],
    [1, 4, 5],
    [2, 3, 4],
    [2, 3, 5],
    [2, 4, 5],
    [3, 4, 5],
];

#[test]
fn orders_the_coalitions_of_three_of_five(rt: HostRuntime) {
    let plan = made(&rt, 5, 3, 5);
    assert!(rt; plan.count() == 10);
    for c in 0..10 {
        holds(&rt, c, is_at(&plan, c, bits_of(&ORDER[c as usize])));
    }
    assert!(rt; has_leaves(&plan, 0, &[0, 10, 20, 30]));
    assert!(rt; has_leaves(&plan, 9, &[9, 19, 29]));
}

/// Whether the coalitions are all sets of `k` of `n` trustees. In lexicographic order of the sets, the numbers whose
/// greatest bit is trustee 1, the next one trustee 2, and so on, go down.
fn has_walk(plan: &Plan, n: u8, k: u8) -> bool
    requires { n ≤ 12 }
{
    let mut c = 0u32;
    for passed in 0..4096u16 {
        let number = 4095 - passed;
        let bits = number.reverse_bits() >> 4;
        if number.count_ones() == u32::from(k) && bits >> n == 0 {
            if !is_at(plan, c, bits) {
                return false;
            }
            c = c.wrapping_add(1);
        }
    }
    plan.count() == c
}

/// Whether the plan of `k` of `n` trustees has the coalitions of a walk.
fn agrees(n: u8, k: u8) -> bool
    requires { n ≤ 12 }
{
    match plan_of(n, k, 10) {
        Ok(plan) => has_walk(&plan, n, k),
        Err(_) => false,
    }
}

#[test]
fn agrees_with_a_walk_of_every_list(rt: HostRuntime) {
    for n in 2..13 {
        for k in 2..n + 1 {
            holds(&rt, n.into(), agrees(n, k));
        }
    }
}

#[test]
fn gives_each_of_six_of_twelve_a_leaf_or_two(rt: HostRuntime) {
    let plan = made(&rt, 12, 6, 10);
    assert!(rt; plan.count() == 924);
    // The leaves 924 to 1023 go to the first hundred again.
    for c in 0..100 {
        holds(&rt, c, has_leaves(&plan, c, &[c, c + 924]));
    }
    for c in 100..924 {
        holds(&rt, c, has_leaves(&plan, c, &[c]));
    }
}

/// Whether there is no plan for coalitions of `k` of `n` trustees.
fn is_no_plan(n: u8, k: u8) -> bool {
    plan_of(n, k, 10) == Err(PlanFault::BadThreshold)
}

#[test]
fn refuses_what_is_no_plan(rt: HostRuntime) {
    for (n, k) in &[(0, 0), (1, 1), (5, 1), (5, 6), (13, 2)] {
        assert!(rt; is_no_plan(*n, *k));
    }
    let many = PlanFault::TooManyCoalitions { count: 924 };
    assert!(rt; plan_of(12, 6, 5) == Err(many));
}

/// Whether these trustees are no coalition.
fn is_no_coalition(plan: &Plan, trustees: &[u8; 3]) -> bool {
    plan.number_of(Members::of_bits(bits_of(trustees)))
        .is_none()
}

#[test]
fn refuses_what_is_no_coalition(rt: HostRuntime) {
    let plan = made(&rt, 5, 3, 5);
    for trustees in &[[1, 2, 2], [1, 2, 6], [1, 2, 16]] {
        assert!(rt; is_no_coalition(&plan, trustees));
    }
}

/// Whether leaf 13 is that of coalition 3, and trustees 1, 3 and 4 alone are its members.
fn has_members_of_leaf(plan: &Plan) -> bool {
    if plan.h() != 5 || plan.coalition_of(13) != 3 {
        return false;
    }
    for (t, inside) in &[
        (0, false),
        (1, true),
        (2, false),
        (3, true),
        (4, true),
        (5, false),
        (17, false),
    ] {
        if plan.is_member(13, *t) != *inside {
            return false;
        }
    }
    true
}

/// Whether the plan is for coalitions of three of five trustees over 32 leaves.
fn has_numbers(plan: &Plan) -> bool {
    plan.n() == 5 && plan.k() == 3 && plan.h() == 5
}

#[test]
fn tells_the_members_of_a_leaf(rt: HostRuntime) {
    let plan = made(&rt, 5, 3, 5);
    assert!(rt; has_numbers(&plan));
    assert!(rt; has_members_of_leaf(&plan));
    assert!(rt; plan == plan);
}

/// Whether trustees 1, 3 and 4 are the members of a set.
fn has_members(members: Members) -> bool {
    for (t, inside) in &[(1, true), (2, false), (3, true), (4, true), (5, false)] {
        if members.has(*t) != *inside {
            return false;
        }
    }
    members.size() == 3
}

#[test]
fn tells_the_members_of_a_set(rt: HostRuntime) {
    let members = Members::of_bits(0b1101);
    assert!(rt; has_members(members));
    assert!(rt; members == Members::of_bits(13));
}

/// Whether a type may be shared by threads and copied.
fn is_shared<T: Copy + Send + Sync>(_value: T) -> bool {
    true
}

#[test]
fn may_be_shared_by_threads(rt: HostRuntime) {
    assert!(rt; is_shared(made(&rt, 5, 3, 5)) && is_shared(Members::of_bits(7)));
}
