//! Tests of what no contract says: that the files are those of another implementation, that several threads give them
//! as one does, and each refusal once.

ghost use Rattle.std.specs.Prelude.{◌+◌, ◌-◌, ◌^◌, min};

use crate::dealings::{count_up, deal_to, dealt, digest_of, head_of, scheme_of};
use crate::values::{first, holds};
use dealer::{DealFault, DealingFiles, Dealt, deal_beside, deal_committed, deal_committed_beside};
use lms_bytes::write_public;
use share_files::{Share, write_share, write_tree_head};
use std::alloc::Global;
use std::process::Abort;
use std::thread::Threads;
use stream_io::{Progress, Silent};

/// Typecodes of dealings to coalitions of three of five trustees, with SHA-256 of the files of the public key, of the
/// tree, of the reference and of the last share.
const DEALINGS: [((u32, u32), [&[u8; 32]; 4]); 2] = [
    (
        (5, 3),
        [
            b"\x51\x78\x13\x21\x45\xe0\xb1\xc9\x16\x4b\x18\x16\xc3\xd8\x60\x05\
                \x1e\xce\x89\x41\xb5\x6f\xbb\x48\xf5\x4b\xbd\x83\x8d\xf2\x3b\xda",
            b"\xf5\xae\xa3\x95\xe5\x86\x87\x35\x89\xbc\xab\x63\x4e\xd0\xba\x35\
                \x3c\x12\xfc\x5e\x48\x07\xf2\x07\x0c\x58\xcb\x63\xad\x02\x3b\xce",
            b"\x67\x46\x43\x0d\x89\xfb\xf9\x39\xcb\x1c\xdf\x5e\x99\x8e\x36\x47\
                \xdd\x77\x46\x46\x15\x47\xa6\xdf\x08\x78\xd4\xd3\xb0\x2b\xa4\x3c",
            b"\xc6\x86\x0a\x98\x85\xbd\x70\x6b\x32\xf9\xea\x54\x1b\xaf\x78\xb4\
                \x77\x41\x9b\xa1\xb5\x43\x2c\x85\x7c\xbd\x76\xbe\x5b\x75\x1c\x3a",
        ],
    ),
    (
        (10, 7),
        [
            b"\xb2\x8d\xda\x37\x40\x60\xda\x03\x63\x1f\x33\xdb\x1d\x4c\x2e\x8a\
                \x0b\x26\xf1\x7a\x23\xe0\x6d\xf5\x3f\x5b\xd5\x81\xe2\xe2\x33\xdc",
            b"\xf6\xe3\x68\x02\xd5\x2a\x57\x81\xaf\x40\x98\x94\xb0\xf1\xdd\xd4\
                \xce\xd8\xfe\x81\xa0\xb3\x8b\x01\x79\xee\x0b\x0f\x52\x00\xc6\xe9",
            b"\x6d\x80\x94\x3a\x59\x23\xf3\xb3\xb6\xd8\x3b\x06\x58\x3a\xcf\x23\
                \x4a\xab\xc5\x42\x8c\x4e\xd0\x1f\xa5\xb4\xb8\xc8\xe4\x3d\x8d\x97",
            b"\x58\x0d\xa4\x54\xa7\xab\xda\xbe\x15\xa1\x0e\x30\xdf\xf9\xdf\xe1\
                \x71\x39\xb7\xf3\xa0\xec\x1e\xa4\x5e\x3e\x00\x28\xa0\xee\xba\x59",
        ],
    ),
];

/// The SHA-256 of the file of the public key.
fn public_digest(dealt: &Dealt) -> [u8; 32] {
    let mut public = [0; 56];
    let length = write_public(&dealt.public, &mut public);
    digest_of(&public[..length], &[])
}

/// The SHA-256 of the file of the tree.
fn tree_digest(dealt: &Dealt) -> [u8; 32] {
    let mut head = [0; 32];
    write_tree_head(&dealt.public.params, &dealt.public.id, &mut head);
    digest_of(&head, dealt.tree.nodes())
}

/// The SHA-256 of the file of a share.
fn share_digest(share: &Share) -> [u8; 32] {
    let mut bytes = [0; 64];
    write_share(share, &mut bytes);
    digest_of(&bytes, &[])
}

/// Whether the files of a dealing have these digests.
fn has_digests(dealt: &Dealt, digests: &[&[u8; 32]; 4]) -> bool {
    let Some(last) = dealt.shares.get(4) else {
        return false;
    };
    let public = public_digest(dealt) == *digests[0];
    let tree = tree_digest(dealt) == *digests[1];
    let reference = digest_of(&head_of(last), &dealt.reference) == *digests[2];
    public & tree & reference & (share_digest(last) == *digests[3])
}

#[test]
fn files_are_those_of_another_implementation(rt: HostRuntime) {
    for (codes, digests) in &DEALINGS {
        let dealt = dealt(&rt, rt.alloc(), *codes, (5, 3));
        holds(&rt, codes.1, has_digests(&dealt, digests));
    }
}

/// A dealing of typecodes 5 and 3 to coalitions of three of five trustees, by several threads.
fn dealt_beside<R: Threads + Sync + Abort>(rt: &R, alloc: Global) -> Dealt {
    let (params, plan) = scheme_of(rt, (5, 3), (5, 3));
    deal_beside(rt, &mut Silent, alloc, &params, &plan, &count_up()).expect(rt, "a dealing")
}

/// The same with its commitments, by one thread.
fn committed(rt: &impl Abort, alloc: Global) -> (Dealt, Vec<u8>) {
    let (params, plan) = scheme_of(rt, (5, 3), (5, 3));
    deal_committed(alloc, &params, &plan, &count_up()).expect(rt, "a dealing")
}

/// The same with its commitments, by several threads.
fn committed_beside<R: Threads + Sync + Abort>(rt: &R, alloc: Global) -> (Dealt, Vec<u8>) {
    let (params, plan) = scheme_of(rt, (5, 3), (5, 3));
    deal_committed_beside(rt, &mut Silent, alloc, &params, &plan, &count_up()).expect(
        rt,
        "a dealing",
    )
}

/// The files of a dealing.
fn files_of(rt: &impl Abort, alloc: Global, dealt: Dealt) -> DealingFiles {
    assert!(rt; 0 < dealt.shares.len());
    dealt.into_files(alloc).expect(rt, "memory")
}

/// Whether two dealings have the same files, each of them.
fn have_same_files(rt: &impl Abort, alloc: Global, one: Dealt, other: Dealt) -> bool {
    let one = files_of(rt, alloc, one);
    let other = files_of(rt, alloc, other);
    one.public == other.public
        && one.tree == other.tree
        && one.reference == other.reference
        && one.shares == other.shares
}

/// Whether several threads make the files that one makes.
fn deal_alike<R: Threads + Sync + Abort>(rt: &R, alloc: Global) -> bool {
    let one = dealt(rt, alloc, (5, 3), (5, 3));
    have_same_files(rt, alloc, one, dealt_beside(rt, alloc))
}

/// The same for dealings with commitments, which are the same too.
fn commit_alike<R: Threads + Sync + Abort>(rt: &R, alloc: Global) -> bool {
    let (one, commits) = committed(rt, alloc);
    let (beside, others) = committed_beside(rt, alloc);
    (commits == others) & have_same_files(rt, alloc, one, beside)
}

#[test]
fn several_threads_deal_as_one_does(rt: HostRuntime) {
    assert!(rt; deal_alike(&rt, rt.alloc()));
    assert!(rt; commit_alike(&rt, rt.alloc()));
}

/// Keeps what it was told last, and how often it was told.
#[derive(Drop)]
struct Heard {
    leaves: u32,
    all: u32,
    calls: u32,
}

impl Heard {
    /// Nothing yet.
    fn new() -> Heard {
        Heard {
            leaves: 0,
            all: 0,
            calls: 0,
        }
    }

    /// Whether it was told `calls` times, and last that all of `all` leaves are built.
    fn is_whole(&self, all: u32, calls: u32) -> bool {
        (self.leaves == all) & (self.all == all) & (self.calls == calls)
    }
}

impl Progress for Heard {
    ghost told = { λ it leaves all. record {
      leaves = leaves;
      all = all;
      calls = min (it.calls + 1) (2 ^ 32 - 1);
    } };

    fn built(&mut self, leaves: u32, all: u32) {
        *self = Heard {
            leaves,
            all,
            calls: self.calls.saturating_add(1),
        };
    }
}

/// Whether a dealing of these typecodes by several threads tells of `all` leaves in `parts` parts.
fn tells_of_parts<R: Threads + Sync + Abort>(
    rt: &R,
    alloc: Global,
    codes: (u32, u32),
    all: u32,
    parts: u32,
) -> bool {
    let (params, plan) = scheme_of(rt, codes, (5, 3));
    let mut heard = Heard::new();
    let dealt = deal_beside(rt, &mut heard, alloc, &params, &plan, &count_up());
    dealt.is_ok() & heard.is_whole(all, parts)
}

/// Whether a dealing of 32 leaves with commitments tells of them once.
fn tells_of_commitments<R: Threads + Sync + Abort>(rt: &R, alloc: Global) -> bool {
    let (params, plan) = scheme_of(rt, (5, 3), (5, 3));
    let mut heard = Heard::new();
    let dealt = deal_committed_beside(rt, &mut heard, alloc, &params, &plan, &count_up());
    dealt.is_ok() & heard.is_whole(32, 1)
}

#[test]
fn each_part_is_told_of_once(rt: HostRuntime) {
    assert!(rt; tells_of_parts(&rt, rt.alloc(), (5, 3), 32, 1));
    assert!(rt; tells_of_parts(&rt, rt.alloc(), (11, 5), 1024, 2));
    assert!(rt; tells_of_commitments(&rt, rt.alloc()));
}

/// Whether this entropy is refused for this reason.
fn refuses(
    rt: &impl Abort,
    alloc: Global,
    codes: (u32, u32),
    entropy: &[u8],
    why: DealFault,
) -> bool {
    match deal_to(rt, alloc, codes, (5, 3), entropy) {
        Ok(_) => false,
        Err(fault) => fault == why,
    }
}

/// The bytes that count up from 0, with the keys of trustees 2 and 3 again in place of those of 4 and 5.
fn with_keys_twice() -> [u8; 240] {
    let mut entropy = count_up();
    for i in 176..240 {
        entropy[i] = entropy[i - 64];
    }
    entropy
}

/// Whether entropy of another length is refused, and before it typecodes that are not dealt to.
fn refuses_lengths(rt: &impl Abort, alloc: Global) -> bool {
    let bytes = count_up();
    let entropy = first(&bytes, 239);
    let (got, want) = (239, 240);
    let length = refuses(
        rt,
        alloc,
        (5, 3),
        entropy,
        DealFault::BadEntropy { got, want },
    );
    let high = refuses(rt, alloc, (7, 3), entropy, DealFault::TooHigh { h: 15 });
    length & high & refuses(rt, alloc, (6, 4), entropy, DealFault::TooWide)
}

/// Whether entropy in which two trustees have the same key is refused.
fn refuses_same_keys(rt: &impl Abort, alloc: Global) -> bool {
    let first = DealFault::SameKeys { t: 1, u: 2 };
    let later = DealFault::SameKeys { t: 2, u: 4 };
    let all = refuses(rt, alloc, (5, 3), &[7; 240], first);
    all & refuses(rt, alloc, (5, 3), &with_keys_twice(), later)
}

#[test]
fn other_entropy_is_refused(rt: HostRuntime) {
    assert!(rt; refuses_lengths(&rt, rt.alloc()));
    assert!(rt; refuses_same_keys(&rt, rt.alloc()));
}
