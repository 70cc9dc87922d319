//! Tests of what no contract says: that the definitions are those by which another implementation dealt, that pages are
//! read value by value, and that a file gives what memory gives.

ghost use Rattle.std.specs.Prelude.{◌≤◌, [], false};

use crate::dealings::{dealt, digest_of, head_of, key_from};
use crate::values::holds;
use coalition_map::Plan;
use dealer::Dealt;
use disk_trait::{DiskFault, Faults, MemDisk, Pages};
use lms_bytes::bytes::put;
use lms_bytes::{MessageId, Val, digit};
use mask_prf::{chain_mask, check_tag, random_mask, randomizer};
use ots_chain::leaf_key_of;
use reference_value::{
    Cells, Paged, RefFault, Whole, build_leaf, join_chains, join_randomizer, leaf_bytes, rank,
};
use share_files::Share;
use std::alloc::{AllocError, Global};
use std::process::Abort;

/// Typecodes, the number of trustees and the threshold, and SHA-256 of the reference file.
const REFERENCES: [((u32, u32), (u8, u8), &[u8; 32]); 5] = [
    (
        (5, 3),
        (5, 3),
        b"\x67\x46\x43\x0d\x89\xfb\xf9\x39\xcb\x1c\xdf\x5e\x99\x8e\x36\x47\
            \xdd\x77\x46\x46\x15\x47\xa6\xdf\x08\x78\xd4\xd3\xb0\x2b\xa4\x3c",
    ),
    (
        (5, 1),
        (3, 2),
        b"\x17\x23\x3e\x98\x7a\x02\x17\xf9\xa2\x0f\xba\x3a\x1e\xb1\x00\x8e\
            \x75\x8f\xdb\x3f\x90\x4c\x10\x84\x26\x3d\xee\x9b\x26\xed\xda\x53",
    ),
    (
        (5, 2),
        (4, 4),
        b"\x0b\xa3\x2e\xf2\xa2\x27\xb0\xbe\xff\xcf\x2e\x0a\xf9\x66\xb9\xdf\
            \x16\x90\x11\xea\x7f\xb5\x04\x80\x24\x1b\x2c\x61\x45\x19\x3e\x73",
    ),
    (
        (5, 4),
        (3, 3),
        b"\x07\x38\xb1\x5f\xe3\x81\x58\xb7\xc2\xc4\xe1\xdc\xa5\x7d\x45\x7d\
            \x1e\x59\x9e\xaf\x7a\x4d\x18\x2b\xb0\x01\x18\x35\x90\xf7\x4b\x1e",
    ),
    (
        (10, 7),
        (5, 3),
        b"\x6d\x80\x94\x3a\x59\x23\xf3\xb3\xb6\xd8\x3b\x06\x58\x3a\xcf\x23\
            \x4a\xab\xc5\x42\x8c\x4e\xd0\x1f\xa5\xb4\xb8\xc8\xe4\x3d\x8d\x97",
    ),
];

/// SHA-256 of the ends of 64 chains and of the first values of three.
const ENDS: &[u8; 32] = b"\x60\xc3\x8f\x1d\x2e\x16\x4f\x3b\xd8\x1c\x82\x66\xb7\x8a\x53\x65\
    \xb8\xdf\xe8\x08\x52\x11\x8e\x16\x40\xd5\xe9\x96\x9d\x7e\x6c\x03";

/// The SHA-256 of the reference file of a dealing.
fn file_digest(rt: &impl Abort, dealt: &Dealt) -> [u8; 32] {
    assert!(rt; 0 < dealt.shares.len());
    digest_of(&head_of(&dealt.shares[0]), &dealt.reference)
}

#[test]
fn references_are_those_of_another_implementation(rt: HostRuntime) {
    for (codes, trustees, want) in &REFERENCES {
        let dealt = dealt(&rt, rt.alloc(), *codes, *trustees);
        holds(&rt, codes.1, file_digest(&rt, &dealt) == **want);
    }
}

/// The shares of two trustees.
fn pair_of(rt: &impl Abort, dealt: &Dealt) -> (Share, Share) {
    assert!(rt; dealt.shares.len() == 2);
    (dealt.shares[0], dealt.shares[1])
}

/// Builds leaf 7 of a dealing of the bytes that count up from 0, and gives whether its public value is that of the key.
fn build(rt: &impl Abort, first: &Share, second: &Share, out: &mut [u8]) -> bool {
    let Share { params, plan, .. } = first;
    let seed = Val::cut(&key_from(16), params.n);
    let keys = [first.key, second.key];
    assert!(rt; plan.n() == 2);
    assert!(rt; 7 < params.leaves());
    assert!(rt; out.len() == leaf_bytes(params, plan.k()));
    let leaf_key = build_leaf(params, &first.id, plan, 7, &seed, &key_from(48), &keys, out);
    leaf_key == leaf_key_of(params, &first.id, 7, &seed)
}

/// Whether leaf 7 is that of the reference, with its public value.
fn has_leaf(rt: &impl Abort, dealt: &Dealt) -> bool {
    let (first, second) = pair_of(rt, dealt);
    let mut leaf = [0; 9688];
    build(rt, &first, &second, &mut leaf)
        && dealt.reference.get(7 * 9688..8 * 9688) == Some(leaf.as_slice())
}

#[test]
fn a_leaf_is_that_of_its_reference(rt: HostRuntime) {
    let dealt = dealt(&rt, rt.alloc(), (10, 5), (2, 2));
    assert!(rt; has_leaf(&rt, &dealt));
}

/// Writes the sums of the masks of two members at the digits of a digest.
fn write_sums(
    rt: &impl Abort,
    first: &Share,
    second: &Share,
    q: u32,
    digest: &Val,
    sums: &mut [u8],
) {
    let Share { params, id, .. } = first;
    let n = params.n as usize;
    assert!(rt; digest.bytes().len() == n);
    assert!(rt; sums.len() == n * params.p as usize);
    for i in 0..params.p {
        let j = digit(params, digest, i);
        let mask = chain_mask(&first.key, params, id, q, i, j);
        let sum = mask.xor(&chain_mask(&second.key, params, id, q, i, j));
        assert!(rt; n * i as usize + sum.bytes().len() <= sums.len());
        put(sums, n * i as usize, sum.bytes());
    }
}

/// Joins the chains of a leaf in memory.
fn join_whole(
    rt: &impl Abort,
    share: &Share,
    leaves: &[u8],
    q: u32,
    digest: &Val,
    sums: &[u8],
    out: &mut [u8],
) {
    let Share { params, plan, .. } = share;
    let length = params.n as usize * params.p as usize;
    assert!(rt; q < params.leaves());
    assert!(rt; digest.bytes().len() == params.n as usize);
    assert!(rt; sums.len() == length && out.len() == length);
    assert!(rt; leaves.len() == leaf_bytes(params, plan.k()) * params.leaves() as usize);
    let mut cells = Whole::new(params, plan, leaves);
    assert!(rt; join_chains(params, &mut cells, q, digest, sums, out).is_ok());
    assert!(rt; cells.faults() == 0);
}

/// Whether the joined values of leaf 0 are the ends of the chains and the first values of three.
fn has_ends(rt: &impl Abort, dealt: &Dealt) -> bool {
    let (first, second) = pair_of(rt, dealt);
    // Each digit of the digest is the greatest, and each of its checksum is 0.
    let digest = Val::of(&[0xff; 32]);
    let mut sums = [0; 67 * 32];
    let mut out = [0; 67 * 32];
    write_sums(rt, &first, &second, 0, &digest, &mut sums);
    join_whole(rt, &first, &dealt.reference, 0, &digest, &sums, &mut out);
    MessageId::of(&out).hash == *ENDS
}

#[test]
fn joins_give_the_values_of_the_chains(rt: HostRuntime) {
    let dealt = dealt(&rt, rt.alloc(), (5, 3), (2, 2));
    assert!(rt; has_ends(&rt, &dealt));
}

/// Whether leaf 0 gives the randomizer, and its tag for member 2.
fn has_randomizer(rt: &impl Abort, first: &Share, second: &Share, leaves: &[u8]) -> bool {
    let Share {
        params,
        plan,
        id,
        ..
    } = first;
    assert!(rt; leaves.len() == leaf_bytes(params, plan.k()) * params.leaves() as usize);
    assert!(rt; 0 < params.leaves() && plan.is_member(0, 2));
    let mut cells = Whole::new(params, plan, leaves);
    let mask = random_mask(&first.key, params, id, 0);
    let sum = mask.xor(&random_mask(&second.key, params, id, 0));
    let c = randomizer(&key_from(48), params, id, 0);
    assert!(rt; sum.bytes().len() == params.n as usize);
    join_randomizer(&mut cells, 0, &sum) == Ok(c)
        && cells.tag(0, 2) == Ok(check_tag(&second.key, id, 0, &c))
        && cells.faults() == 0
}

#[test]
fn joins_give_the_randomizer(rt: HostRuntime) {
    let dealt = dealt(&rt, rt.alloc(), (5, 3), (2, 2));
    let (first, second) = pair_of(&rt, &dealt);
    assert!(rt; has_randomizer(&rt, &first, &second, &dealt.reference));
}

/// Pages that count the reads.
#[derive(Drop)]
struct Watched {
    disk: MemDisk,
    reads: u64,
    bytes: u64,
}

impl Faults for Watched {
    ghost count = { λ w. w.disk.faults };

    ghost steady = { λ _. false };

    fn faults(&self) -> u64 {
        self.disk.faults()
    }
}

impl Pages for Watched {
    ghost told = { λ _. false };

    ghost reads = { λ _. [] };

    fn len(&mut self) -> Result<u64, DiskFault> {
        self.disk.len()
    }

    fn read_at(&mut self, at: u64, out: &mut [u8]) -> Result<(), DiskFault> {
        self.reads = self.reads.wrapping_add(1);
        self.bytes = self.bytes.wrapping_add(out.len() as u64);
        self.disk.read_at(at, out)
    }
}

/// What leaf 3 of a dealing is joined from, with its values as memory gives them.
#[derive(Drop)]
struct Case {
    share: Share,
    digest: Val,
    sums: [u8; 4800],
    want: [u8; 4800],
    file: Vec<u8>,
}

/// The reference file of a dealing.
fn file_of(alloc: Global, share: &Share, leaves: &[u8]) -> Result<Vec<u8>, AllocError> {
    let mut file = Vec::from_slice(alloc, &head_of(share))?;
    file.extend_from_slice(leaves)?;
    Ok(file)
}

/// A case of 200 values of 24 bytes each.
fn case_of(rt: &impl Abort, alloc: Global) -> Case {
    let dealt = dealt(rt, alloc, (10, 5), (2, 2));
    let (first, second) = pair_of(rt, &dealt);
    let digest = Val::of(&[0x5a; 24]);
    let mut sums = [0; 4800];
    let mut want = [0; 4800];
    write_sums(rt, &first, &second, 3, &digest, &mut sums);
    join_whole(rt, &first, &dealt.reference, 3, &digest, &sums, &mut want);
    Case {
        share: first,
        digest,
        sums,
        want,
        file: file_of(alloc, &first, &dealt.reference).expect(rt, "memory"),
    }
}

/// Pages that count the reads of a file. The read of this number fails, if any does.
fn watching(rt: &impl Abort, alloc: Global, file: &[u8], fails: Option<u64>) -> Watched {
    let mut disk = MemDisk::of_bytes(alloc, file, file.len(), usize::MAX).expect(rt, "memory");
    if let Some(call) = fails {
        disk.fail_once(call);
    }
    Watched {
        disk,
        reads: 0,
        bytes: 0,
    }
}

/// Joins the leaf over pages, tells whether its values are those of memory, and gives the pages back.
fn join_pages<V: Pages>(rt: &impl Abort, case: &Case, pages: V) -> (Result<bool, RefFault>, V) {
    let Share { params, plan, .. } = &case.share;
    let sums = case.sums.as_slice();
    let mut out = [0; 4800];
    assert!(rt; 3 < params.leaves());
    assert!(rt; params.n == 24 && case.digest.bytes().len() == 24);
    assert!(rt; sums.len() == params.n as usize * params.p as usize);
    assert!(rt; out.len() == sums.len());
    let mut paged = Paged::new(params, plan, pages);
    let joined = join_chains(params, &mut paged, 3, &case.digest, sums, &mut out);
    (joined.map(|_| out == case.want), paged.end())
}

/// Joins the leaf over pages that count the reads. The read of this number fails, if any does.
fn join_watched(
    rt: &impl Abort,
    alloc: Global,
    fails: Option<u64>,
) -> (Result<bool, RefFault>, Watched) {
    let case = case_of(rt, alloc);
    let watched = watching(rt, alloc, &case.file, fails);
    join_pages(rt, &case, watched)
}

#[test]
fn values_of_one_leaf_share_reads(rt: HostRuntime) {
    let (joined, watched) = join_watched(&rt, rt.alloc(), None);
    // A leaf of typecode 5 has 200 chains of two values: 9,600 bytes, of which each read gives 4,096.
    assert!(rt; joined == Ok(true) && watched.reads == 3 && watched.bytes == 12288);
}

#[test]
fn a_read_that_fails_is_a_fault(rt: HostRuntime) {
    let (joined, watched) = join_watched(&rt, rt.alloc(), Some(2));
    assert!(rt; joined == Err(RefFault) && watched.faults() == 1);
}

/// The places of five trustees among the members of a leaf, with 9 for one that is no member.
fn ranks_of(plan: &Plan, leaf: u32) -> [usize; 5] {
    let mut ranks = [9; 5];
    if leaf < 1 << plan.h() {
        for t in 0..5 {
            if plan.is_member(leaf, t as u8 + 1) {
                ranks[t] = rank(plan, leaf, t as u8 + 1);
            }
        }
    }
    ranks
}

#[test]
fn members_are_placed_in_the_order_of_their_numbers(rt: HostRuntime) {
    let plan = Plan::new(5, 3, 5).expect(&rt, "a plan");
    // Three of five have ten coalitions: leaf 0 is of trustees 1, 2 and 3, leaf 4 of 1, 3 and 5, leaf 19 of the last.
    assert!(rt; ranks_of(&plan, 0) == [0, 1, 2, 9, 9]);
    assert!(rt; ranks_of(&plan, 4) == [0, 9, 1, 9, 2]);
    assert!(rt; ranks_of(&plan, 19) == [9, 9, 0, 1, 2]);
}
