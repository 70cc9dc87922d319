//! Leaf tables: worked cases over the plan of two of three trustees, with a put stopped at each call of the disk.

mod plain;
mod rotten;

ghost use Rattle.std.specs.Prelude.{◌≡◌, ◌≤◌};

use crate::disks::{
    LOAD_CALLS, crashed, failing_file, free_file, header, stopping_file, with_byte,
};
use coalition_map::{Members, Plan};
use disk_trait::{Disk, MemDisk};
use leaf_table::{Lease, Table, TableFault};
use lms_bytes::MessageId;
use slot_file::CacheLoad;
use std::alloc::Global;
use std::process::Abort;
use turn_lock::Kept;

const ONE: MessageId = MessageId {
    length: 3,
    hash: [0x11; 32],
};

const TWO: MessageId = MessageId {
    length: 300,
    hash: [0x22; 32],
};

/// The coalition of trustees 1 and 3, whose leaves are 1, 4, 7 and so on.
const FIRST_AND_THIRD: u16 = 0b101;

/// A message given by its length.
fn numbered(length: u32) -> MessageId {
    MessageId {
        length,
        hash: [0x33; 32],
    }
}

/// A plan for coalitions of `k` of `n` trustees.
fn plan_of(rt: &impl Abort, n: u8, k: u8, h: u8) -> Plan
    requires { h ≤ 25 }
    ensures { result.h ≡ h }
{
    Plan::new(n, k, h).expect(rt, "a plan")
}

/// Loads the table of a disk, if it loads.
fn load<D: Disk + Drop>(alloc: Global, disk: D, plan: &Plan) -> Result<Table<D>, CacheLoad> {
    match Table::load(alloc, disk, &header(1, 0), plan) {
        Ok(table) => Ok(table),
        Err((_, fault)) => Err(fault),
    }
}

/// Loads the table of a disk.
fn loaded<D: Disk + Drop>(rt: &impl Abort, alloc: Global, disk: D, plan: &Plan) -> Table<D> {
    load(alloc, disk, plan).expect(rt, "load")
}

/// Loads the table of a disk for the coalitions {1, 2}, {1, 3} and {2, 3}.
fn small<D: Disk + Drop>(rt: &impl Abort, alloc: Global, disk: D) -> Table<D> {
    loaded(rt, alloc, disk, &plan_of(rt, 3, 2, 5))
}

/// A table of 32 leaves with no entry.
fn empty_table(rt: &impl Abort, alloc: Global) -> Table<MemDisk> {
    small(rt, alloc, free_file(rt, alloc, &header(1, 0), 32))
}

/// A table with no entry, on a disk where one call after the load fails.
fn failing_table(rt: &impl Abort, alloc: Global, call: u64) -> Table<MemDisk> {
    let call = LOAD_CALLS.saturating_add(call);
    small(rt, alloc, failing_file(rt, alloc, &header(1, 0), 32, call))
}

/// The table of what a crash leaves.
fn after_crash(rt: &impl Abort, alloc: Global, table: Table<MemDisk>, pick: u64) -> Table<MemDisk> {
    small(rt, alloc, crashed(rt, alloc, table.end(), pick))
}

/// Leases a leaf of a coalition, given by its bits, and burns it if a reporting member is given.
fn enter<D: Disk>(
    table: &mut Table<D>,
    bits: u16,
    message: &MessageId,
    by: Option<u8>,
) -> Result<u32, TableFault> {
    let leaf = match table.lease(Members::of_bits(bits), message) {
        Ok(leaf) => leaf,
        Err(fault) => return Err(fault),
    };
    if let Some(by) = by
        && let Err(fault) = table.burn(leaf, message, by)
    {
        return Err(fault);
    }
    Ok(leaf)
}

/// Leases a leaf of a coalition, given by its bits.
fn lease<D: Disk>(table: &mut Table<D>, bits: u16, message: &MessageId) -> Result<u32, TableFault> {
    enter(table, bits, message, None)
}

/// Leases a leaf of trustees 1 and 3 for message `ONE`, and burns it as reported by a member.
fn burn<D: Disk>(table: &mut Table<D>, by: u8) -> Result<u32, TableFault> {
    enter(table, FIRST_AND_THIRD, &ONE, Some(by))
}

/// Whether trustees 1 and 3 get this answer when they ask for a leaf.
fn leases<D: Disk>(
    table: &mut Table<D>,
    message: &MessageId,
    want: Result<u32, TableFault>,
) -> bool {
    lease(table, FIRST_AND_THIRD, message) == want
}

/// Whether burning their leaf for message `ONE` as reported by a member gives this answer.
fn burns<D: Disk>(table: &mut Table<D>, by: u8, want: Result<u32, TableFault>) -> bool {
    burn(table, by) == want
}

/// Whether these are the entries.
fn lists(table: &Table<MemDisk>, want: &[Lease]) -> bool {
    table.entries() == want
}

fn leased(leaf: u32, message: MessageId) -> Lease {
    Lease::Leased { leaf, message }
}

/// Whether trustees 1 and 3 have a leaf for each message, and three trustees have none.
fn leases_two(table: &mut Table<MemDisk>) -> bool {
    let first = leases(table, &ONE, Ok(1));
    let second = leases(table, &TWO, Ok(4));
    let again = leases(table, &ONE, Ok(1));
    first & second & again & (lease(table, 0b111, &ONE) == Err(TableFault::NotACoalition))
}

/// Whether the table of what a crash leaves lists those leaves.
fn keeps_two(rt: &impl Abort, alloc: Global, table: Table<MemDisk>) -> bool {
    let want = [leased(1, ONE), leased(4, TWO)];
    lists(&after_crash(rt, alloc, table, 1), &want)
}

#[test]
fn a_leaf_is_leased_for_one_message(rt: HostRuntime) {
    let mut table = empty_table(&rt, rt.alloc());
    let answered = leases_two(&mut table);
    assert!(rt; answered & keeps_two(&rt, rt.alloc(), table));
}

/// Whether a disk holds the report of leaf 1: the id in body B, followed by the member.
fn is_reported(disk: &MemDisk) -> bool {
    let id = disk.bytes().get(300..304) == Some([0, 0, 0, 3].as_slice());
    id & (disk.bytes().get(335..338) == Some([0x11, 3, 0].as_slice()))
}

/// Whether a table lists that report, and the next leaf for the same message.
fn lists_next(table: &Table<MemDisk>) -> bool {
    let want = [leased(1, ONE), Lease::Burnt { leaf: 1 }, leased(4, ONE)];
    lists(table, &want)
}

#[test]
fn a_burnt_leaf_is_leased_no_more(rt: HostRuntime) {
    let mut table = empty_table(&rt, rt.alloc());
    let burnt = burns(&mut table, 3, Ok(1));
    let next = leases(&mut table, &ONE, Ok(4));
    let disk = table.end();
    let reported = is_reported(&disk);
    assert!(rt; burnt & next & reported & lists_next(&small(&rt, rt.alloc(), disk)));
}

/// Whether trustees 1 and 2 lease eleven leaves, from 0 on.
fn leases_eleven(table: &mut Table<MemDisk>) -> bool {
    for i in 0..11u32 {
        if lease(table, 0b11, &numbered(i)) != Ok(i * 3) {
            return false;
        }
    }
    true
}

/// Whether they lease no more, and another coalition does.
fn has_run_out(table: &mut Table<MemDisk>) -> bool {
    let none = lease(table, 0b11, &ONE) == Err(TableFault::NoLeaf { coalition: 0 });
    none & leases(table, &ONE, Ok(1))
}

#[test]
fn a_coalition_runs_out_of_leaves(rt: HostRuntime) {
    let mut table = empty_table(&rt, rt.alloc());
    let eleven = leases_eleven(&mut table);
    assert!(rt; eleven & has_run_out(&mut table));
}

/// The answer when the disk stops at a call of an entry of leaf 1.
fn stopped(call: u64) -> Result<u32, TableFault> {
    if call < 4 {
        Err(TableFault::Device)
    } else {
        Ok(1)
    }
}

/// Whether the entries are the first `count` of the lease of leaf 1 and its burning.
fn lists_first(table: &Table<MemDisk>, count: u64) -> bool {
    let whole = [leased(1, ONE), Lease::Burnt { leaf: 1 }];
    lists(table, &whole[..count.min(2) as usize])
}

/// Whether leasing leaf 1 and then burning it leaves each as before or as after, if the disk stops at a call: an entry
/// takes four calls, and with pick 1 a crash keeps what was written but not synced.
fn enters_or_not(rt: &impl Abort, alloc: Global, call: u64, pick: u64) -> bool {
    let at = LOAD_CALLS.saturating_add(call);
    let mut table = small(rt, alloc, stopping_file(rt, alloc, &header(1, 0), 32, at));
    let leased = leases(&mut table, &ONE, stopped(call));
    let burnt = call < 4 || burns(&mut table, 3, stopped(call - 4));
    let table = after_crash(rt, alloc, table, pick);
    let count = call.saturating_add(u64::from(pick == 1)) / 4;
    leased & burnt & lists_first(&table, count)
}

/// Whether that is so with each pick.
fn enters_by_each_pick(rt: &impl Abort, alloc: Global, call: u64) -> bool {
    let none = enters_or_not(rt, alloc, call, 0);
    let all = enters_or_not(rt, alloc, call, 1);
    none & all & enters_or_not(rt, alloc, call, 5)
}

#[test]
fn an_entry_is_before_or_after(rt: HostRuntime) {
    for call in 0..9 {
        assert!(rt; enters_by_each_pick(&rt, rt.alloc(), call));
    }
}

/// Leases for one message, which fails, and then for another and for the first again: whether these are the leaves.
fn leases_after_failing(table: &mut Table<MemDisk>, two: u32, one: u32) -> bool {
    let fails = leases(table, &ONE, Err(TableFault::Device));
    let second = leases(table, &TWO, Ok(two));
    fails & second & leases(table, &ONE, Ok(one))
}

/// Leases for one message, which fails at a call, and then for another and for the first again: whether these are the
/// leaves.
fn leases_again(rt: &impl Abort, alloc: Global, call: u64, two: u32, one: u32) -> bool {
    leases_after_failing(&mut failing_table(rt, alloc, call), two, one)
}

/// Burns leaf 1 as reported by member 3, which fails at a call, and then the leaf of the message as reported by member
/// 5: whether the burnt leaf is `leaf`, and `reporter` is the member kept for leaf 1.
fn burns_again(rt: &impl Abort, alloc: Global, call: u64, leaf: u32, reporter: u8) -> bool {
    let mut table = failing_table(rt, alloc, call.saturating_add(4));
    let fails = burns(&mut table, 3, Err(TableFault::Device));
    let burnt = burns(&mut table, 5, Ok(leaf));
    let disk = table.end();
    fails & burnt & (disk.bytes().get(336) == Some(&reporter))
}

#[test]
fn a_doubtful_entry_is_settled(rt: HostRuntime) {
    for call in 0..3 {
        assert!(rt; leases_again(&rt, rt.alloc(), call, 1, 4));
        assert!(rt; burns_again(&rt, rt.alloc(), call, 1, 5));
    }
    assert!(rt; leases_again(&rt, rt.alloc(), 3, 4, 1));
    assert!(rt; burns_again(&rt, rt.alloc(), 3, 4, 3));
}

/// Whether a coalition has these leaves from its first on, each `step` after the last, and no more.
fn has_leaves(table: &mut Table<MemDisk>, bits: u16, c: u32, step: u32, count: u32) -> bool
    requires { (c ≤ 1024) × (step ≤ 1024) × (count ≤ 4) }
{
    for i in 0..count {
        let leaf = c + i * step;
        if lease(table, bits, &numbered(leaf)) != Ok(leaf) {
            return false;
        }
    }
    lease(table, bits, &ONE) == Err(TableFault::NoLeaf { coalition: c })
}

/// Whether a plan has a coalition `c`, and that coalition has `count` leaves, each 924 after the last.
fn has_own(table: &mut Table<MemDisk>, plan: &Plan, c: u32, count: u32) -> bool
    requires { (c ≤ 1024) × (count ≤ 4) }
{
    c < plan.count() && has_leaves(table, plan.members(c).bits(), c, 924, count)
}

/// Whether the coalitions up to number 99 have two leaves, and the others one.
fn has_two_up_to_99(table: &mut Table<MemDisk>, plan: &Plan) -> bool {
    let first = has_own(table, plan, 99, 2);
    let second = has_own(table, plan, 100, 1);
    first & second & has_own(table, plan, 923, 1)
}

// 1,024 leaves for six of twelve trustees, which makes 924 coalitions.
#[test]
fn a_hundred_of_924_coalitions_have_two_leaves(rt: HostRuntime) {
    let plan = plan_of(&rt, 12, 6, 10);
    let disk = free_file(&rt, rt.alloc(), &header(1, 0), 1024);
    let mut table = loaded(&rt, rt.alloc(), disk, &plan);
    assert!(rt; has_two_up_to_99(&mut table, &plan));
}

/// Whether trustees 3, 4 and 5 lease leaves 9, 19 and 29, each for one message, and no more.
fn leases_three(table: &mut Table<MemDisk>) -> bool {
    for (message, leaf) in &[(0, 9), (1, 19), (2, 29), (0, 9)] {
        if lease(table, 0b11100, &numbered(*message)) != Ok(*leaf) {
            return false;
        }
    }
    let none = Err(TableFault::NoLeaf { coalition: 9 });
    let third = lease(table, 0b11100, &numbered(3)) == none;
    let fourth = lease(table, 0b11100, &numbered(4)) == none;
    third & fourth & (lease(table, 0b11100, &numbered(0)) == Ok(9))
}

#[test]
fn trustees_3_4_and_5_of_5_have_three_leaves(rt: HostRuntime) {
    let disk = free_file(&rt, rt.alloc(), &header(1, 0), 32);
    let mut table = loaded(&rt, rt.alloc(), disk, &plan_of(&rt, 5, 3, 5));
    assert!(rt; leases_three(&mut table));
}

/// Hands on a value that may stand under a lock.
fn handed_on<K: Kept>(kept: K) -> K
    ensures { K.entries result ≡ K.entries kept }
{
    kept
}

#[test]
fn a_table_may_stand_under_a_lock(rt: HostRuntime) {
    let mut table = empty_table(&rt, rt.alloc());
    let first = leases(&mut table, &ONE, Ok(1));
    let table = handed_on(table);
    assert!(rt; first & lists(&table, &[leased(1, ONE)]));
}

#[test]
fn other_files_are_refused(rt: HostRuntime) {
    let disk = free_file(&rt, rt.alloc(), &header(1, 0), 32);
    let disk = with_byte(&rt, disk, 296, 0xC2);
    let (slot, a, b) = (1, 0, 0xC2);
    let fault = load(rt.alloc(), disk, &plan_of(&rt, 3, 2, 5)).err();
    assert!(rt; fault == Some(CacheLoad::Damaged { slot, a, b }));
}
