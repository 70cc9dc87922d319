//! Dealings that several files of tests need, and tests of what is dealt and of what it is dealt from.

mod coalition_map_tests;
mod commitments_tests;
mod dealer_tests;
mod mask_prf_tests;
mod onto_tests;
mod reference_value_tests;
mod rehearsal_tests;

ghost use Rattle.std.specs.Prelude.{◌≡◌};

use crate::values::set_of;
use coalition_map::Plan;
use dealer::{DealFault, Dealt, deal};
use lms_bytes::Params;
use sha2::{Digest, Sha256};
use share_files::{RefHeader, Share, write_ref_head};
use std::alloc::Global;
use std::process::Abort;

/// The bytes 0 to 239, which serve five trustees.
pub fn count_up() -> [u8; 240] {
    let mut bytes = [0; 240];
    for i in 0..240 {
        bytes[i] = i as u8;
    }
    bytes
}

/// The 32 bytes that count up from this one.
pub fn key_from(first: u8) -> [u8; 32] {
    let mut key = [0; 32];
    let mut next = first;
    for byte in key.iter_mut() {
        *byte = next;
        next = next.wrapping_add(1);
    }
    key
}

/// The key of trustee `member` in a dealing of the bytes that count up from 0.
pub fn key_of(member: u8) -> [u8; 32] {
    key_from(member.wrapping_mul(32).wrapping_add(48))
}

/// The set of these typecodes, and the plan for coalitions of `k` of `n` trustees over its leaves.
pub fn scheme_of(rt: &impl Abort, codes: (u32, u32), trustees: (u8, u8)) -> (Params, Plan)
    ensures { result.1.h ≡ result.0.h }
{
    let (n, k) = trustees;
    let params = set_of(rt, codes.0, codes.1);
    let plan = Plan::new(n, k, params.h).expect(rt, "a plan");
    assert!(rt; plan.h() == params.h);
    (params, plan)
}

/// Deals to coalitions of `k` of `n` trustees.
pub fn deal_to(
    rt: &impl Abort,
    alloc: Global,
    codes: (u32, u32),
    trustees: (u8, u8),
    entropy: &[u8],
) -> Result<Dealt, DealFault> {
    let (params, plan) = scheme_of(rt, codes, trustees);
    deal(alloc, &params, &plan, entropy)
}

/// Deals the bytes that count up from 0 to coalitions of `k` of at most five trustees.
pub fn deal_count(
    rt: &impl Abort,
    alloc: Global,
    codes: (u32, u32),
    trustees: (u8, u8),
) -> Result<Dealt, DealFault> {
    let length = 80 + 32 * usize::from(trustees.0);
    deal_to(rt, alloc, codes, trustees, &count_up()[..length.min(240)])
}

/// The same, if it is dealt.
pub fn dealt(rt: &impl Abort, alloc: Global, codes: (u32, u32), trustees: (u8, u8)) -> Dealt {
    deal_count(rt, alloc, codes, trustees).expect(rt, "a dealing")
}

/// The head of the reference file of a share's dealing.
pub fn head_of(share: &Share) -> [u8; 32] {
    let header = RefHeader {
        params: share.params,
        plan: share.plan,
        id: share.id,
    };
    let mut head = [0; 32];
    write_ref_head(&header, &mut head);
    head
}

/// The SHA-256 of a head and of what follows it.
pub fn digest_of(head: &[u8], rest: &[u8]) -> [u8; 32] {
    let mut hasher = Sha256::new();
    hasher.update(head);
    hasher.update(rest);
    hasher.finalize()
}
