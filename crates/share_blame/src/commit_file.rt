//! The commitment file of a dealing, made from what the dealing gave.

ghost use Rattle.std.specs.Prelude.{◌≡◌, ◌≤◌, ◌<◌, Err, IfErr, IfOk, OnOk, length, map};
ghost use Rattle.dealer.specs.Committed.{commits_file};
ghost use Rattle.mask_prf.specs.Lengths.{all_commits_length, leaf_length};
ghost use Rattle.reference_value.specs.Commitments.{commitments};
ghost use Rattle.reference_value.specs.Dealing.{Dealing};
ghost use Rattle.share_files.specs.Commits.{commits_head, commits_length};
ghost use Rattle.share_blame.specs.CommitFile.{FailsToCommit, IsDealtFor, IsOfKeys};
ghost use Rattle.share_blame.specs.declared.faults.CommitFault.TheVariants.{TooLarge};

use crate::faults::CommitFault;
use coalition_map::Plan;
use dealer::Dealt;
use lms_bytes::Val;
use mask_prf::{MacKey, leaf_bytes};
use memory::NoMemory;
use reference_value::build_committed_leaf;
use share_files::{
    HEAD, RefHeader, Share, leaf_commits_bytes, length_of_commits, write_commits_head,
};
use std::alloc::Global;

/// The most bytes of a commitment file that is made.
const COMMITS_LIMIT: u64 = 67_108_864;

/// The commitment file of a dealing, which was dealt for this plan. `deal_committed` of `dealer` gives the same bytes
/// beside the dealing. The length is tested before any memory is taken.
pub fn commitments(alloc: Global, dealt: &Dealt, plan: &Plan) -> Result<Vec<u8>, CommitFault>
    requires { (d : Dealing) × IsDealtFor plan.now d dealt.now }
    ensures file { (d : Dealing) → IsDealtFor plan.now d dealt.now
        → IfOk result (λ file. file.items ≡ commits_file d) }
    ensures small { OnOk result (commits_length dealt.now.public.params plan.now ≤ 67108864) }
    ensures too_large { 67108864 < commits_length dealt.now.public.params plan.now
        → result ≡ Err (TooLarge (commits_length dealt.now.public.params plan.now)) }
    ensures cause { IfErr result (FailsToCommit dealt.now.public.params plan.now) }
{
    let bytes = length_of_commits(&dealt.public.params, plan.k());
    if bytes > COMMITS_LIMIT {
        return Err(CommitFault::TooLarge { bytes });
    }
    let header = RefHeader {
        params: dealt.public.params,
        plan: *plan,
        id: dealt.public.id,
    };
    match make_file(alloc, &header, &dealt.shares) {
        Ok(file) => Ok(file),
        Err(NoMemory) => Err(CommitFault::NoMemory),
    }
}

/// The commitment file of this head, to the masks of these shares.
fn make_file(alloc: Global, header: &RefHeader, shares: &[Share]) -> Result<Vec<u8>, NoMemory>
    requires { length shares.now ≡ header.now.plan.n }
    ensures { (d : Dealing) → IsOfKeys header.now (map (λ share. share.key) shares.now) d
        → IfOk result (λ file. file.items ≡ commits_file d) }
{
    let k = header.plan.k();
    let mut file = vec![in alloc; 0; length_of_commits(&header.params, k) as usize]?;
    let mut leaf = vec![in alloc; 0; leaf_bytes(&header.params, k)]?;
    let keys = mac_keys(alloc, shares)?;
    let (head, leaves) = file.split_at_mut(HEAD);
    head.copy_from_slice(&head_of(header));
    write_commits(header, &keys, &mut leaf, leaves);
    Ok(file)
}

/// The head of a commitment file.
fn head_of(header: &RefHeader) -> [u8; HEAD]
    ensures { result ≡ commits_head header.now }
{
    let mut head = [0; HEAD];
    write_commits_head(header, &mut head);
    head
}

/// The keys of these shares, each with its blocks hashed once.
fn mac_keys(alloc: Global, shares: &[Share]) -> Result<Vec<MacKey>, NoMemory>
    ensures { IfOk result (λ keys. keys.items ≡ map (λ share. share.key) shares.now) }
{
    let mut keys = Vec::with_capacity(alloc, shares.len())?;
    'shares: for i in 0..shares.len() {
        keys.push(MacKey::new(&shares[i].key))?;
    }
    Ok(keys)
}

/// Writes the commitments to the masks of all leaves. The masks do not depend on SEED, so a leaf of zeros is masked and
/// thrown away: that is one hash more for each value, beside those of `k` masks and of their commitments.
fn write_commits(header: &RefHeader, keys: &[MacKey], leaf: &mut [u8], out: &mut [u8])
    requires keys { length keys.now ≡ header.now.plan.n }
    requires leaf { length leaf.old ≡ leaf_length header.now.params header.now.plan.k }
    requires room { length out.old ≡ all_commits_length header.now.params header.now.plan }
    ensures { (d : Dealing) → IsOfKeys header.now keys.now d → out.new ≡ commitments d }
{
    let RefHeader { params, plan, id } = header;
    let zeros = [0; 32];
    let seed = Val::of(&zeros[..params.n as usize]);
    let size = leaf_commits_bytes(params, plan.k());
    'leaves: for q in 0..params.leaves() {
        let place = size * q as usize;
        let part = &mut out[place..place + size];
        build_committed_leaf(params, id, plan, q, &seed, &zeros, keys, leaf, part);
    }
}
