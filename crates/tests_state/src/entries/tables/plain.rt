//! Every plan of up to five trustees over 32 leaves, compared with a plain search over all leaves.

ghost use Rattle.std.specs.Prelude.{◌≡◌, ◌<◌, IfSome};
ghost use Rattle.coalition_map.specs.Coalitions.{count_of};

use super::{enter, loaded, numbered, plan_of};
use crate::disks::{free_file, header};
use coalition_map::Plan;
use disk_trait::MemDisk;
use leaf_table::{Table, TableFault};
use std::alloc::Global;
use std::process::Abort;

/// The plans: how many trustees there are, and how many of them sign.
const PLANS: [(u8, u8); 10] = [
    (2, 2),
    (3, 2),
    (3, 3),
    (4, 2),
    (4, 3),
    (4, 4),
    (5, 2),
    (5, 3),
    (5, 4),
    (5, 5),
];

/// What a leaf is to the plain search.
#[derive(Clone, Copy, PartialEq, Eq)]
enum Leaf {
    Free,
    Leased(u32),
    Burnt,
}

/// The least leaf of coalition `c` that is in the state wanted.
fn least(plan: &Plan, leaves: &[Leaf; 32], c: u32, wanted: Leaf) -> Option<u32>
    requires { plan.now.h ≡ 5 }
    ensures { IfSome result (λ leaf. leaf < 32) }
{
    for leaf in 0..32 {
        if plan.coalition_of(leaf) == c && leaves[leaf as usize] == wanted {
            return Some(leaf);
        }
    }
    None
}

/// The leaf of coalition `c` for a message.
fn plain(plan: &Plan, leaves: &[Leaf; 32], c: u32, message: u32) -> Option<u32>
    requires { plan.now.h ≡ 5 }
    ensures { IfSome result (λ leaf. leaf < 32) }
{
    match least(plan, leaves, c, Leaf::Leased(message)) {
        Some(leaf) => Some(leaf),
        None => least(plan, leaves, c, Leaf::Free),
    }
}

/// The answer of the plain search when it is asked for a leaf of coalition `c`, which is then burnt if that is wanted.
fn plain_asked(
    plan: &Plan,
    leaves: &mut [Leaf; 32],
    c: u32,
    message: u32,
    burns: bool,
) -> Result<u32, TableFault>
    requires { plan.now.h ≡ 5 }
{
    let Some(leaf) = plain(plan, leaves, c, message) else {
        return Err(TableFault::NoLeaf { coalition: c });
    };
    leaves[leaf as usize] = if burns {
        Leaf::Burnt
    } else {
        Leaf::Leased(message)
    };
    Ok(leaf)
}

/// Whether the table answers as the plain search does, with the same done to its leaf.
fn is_plain(
    table: &mut Table<MemDisk>,
    plan: &Plan,
    leaves: &mut [Leaf; 32],
    c: u32,
    message: u32,
    burns: bool,
) -> bool
    requires height { plan.now.h ≡ 5 }
    requires coalition { c < count_of plan.now }
{
    let want = plain_asked(plan, leaves, c, message, burns);
    let by = if burns { Some(1) } else { None };
    enter(table, plan.members(c).bits(), &numbered(message), by) == want
}

/// Leases leaves of each coalition in turn until there are none. Each lease is asked for twice, and the leaf of every
/// third message is burnt in between. Whether each answer is the plain one.
fn uses_up(table: &mut Table<MemDisk>, plan: &Plan) -> bool
    requires { plan.now.h ≡ 5 }
{
    let mut leaves = [Leaf::Free; 32];
    for message in 0..33 {
        for c in 0..plan.count() {
            let first = is_plain(table, plan, &mut leaves, c, message, message % 3 == 0);
            let again = is_plain(table, plan, &mut leaves, c, message, false);
            if !(first & again) {
                return false;
            }
        }
    }
    !leaves.contains(&Leaf::Free)
}

/// Whether the table of a plan answers as the plain search does.
fn answers(rt: &impl Abort, alloc: Global, n: u8, k: u8) -> bool {
    let plan = plan_of(rt, n, k, 5);
    let disk = free_file(rt, alloc, &header(1, 0), 32);
    uses_up(&mut loaded(rt, alloc, disk, &plan), &plan)
}

#[test]
fn tables_answer_as_a_plain_search(rt: HostRuntime) {
    for (n, k) in &PLANS {
        assert!(rt; answers(&rt, rt.alloc(), *n, *k));
    }
}
