//! The command `deal`.

ghost use Rattle.std.specs.Prelude.{◌≡◌, ◌<◌, ◌≤◌, ◌⊎◌, [], ◌∷◌, ◌++◌, List, ℕ, All, length, map, min, option_map};
ghost use Rattle.std.specs.Prelude.{false, IfOk, IfErr, OnOk};
ghost use Rattle.coalition_map.specs.Coalitions.{IsPlan};
ghost use Rattle.dealer.specs.Dealt.{IsDealt};
ghost use Rattle.dealer.specs.Entropy.{dealing_of};
ghost use Rattle.dealer.specs.Told.{TellsLeaves};
ghost use Rattle.stream_io.specs.declared.store.Readers.TheVariants.{Anyone};
ghost use Rattle.tool_base.specs.Ending as spec;
ghost use Rattle.tool_keys.specs.Naming.{all_names, named_files, named_shares};
ghost use Rattle.tool_keys.specs.Deal.{AreAsked, DealEnds, IsDealableBy, IsDealtTo, IsNotDealt, IsReady, IsSet};
ghost use Rattle.tool_keys.specs.Runs.{DealRun};
ghost use Rattle.tool_keys.specs.Deal.{asked_commits, commits_outputs, plan_of};
ghost use Rattle.tool_keys.specs.Told.{TellsBy, ToldBy};
ghost use Rattle.tool_base.specs.Ending.{status_of};
ghost use Rattle.tool_base.specs.Endings.{ending};
ghost use Rattle.tool_base.specs.OutputOf.{output_of};
ghost use Rattle.tool_base.specs.Outputs.{EndsWith, FirstNotNew, IsNew};
ghost use Rattle.tool_words.specs.Rows.{deal_words};
ghost use Rattle.tool_base.specs.World.{InAnyRun, IsBack, IsUnchanged, from_to};

use crate::large::deal_large;
use crate::undealt::end_of_fault;
use coalition_map::{Plan, PlanFault};
use dealer::{CommittedFault, DealingFiles, Dealt, deal_beside, deal_committed_beside};
use lms_bytes::Params;
use std::alloc::{AllocError, Global};
use std::thread::Threads;
use stream_io::{Progress, Readers, Store};
use tool_base::{Ending, FILE_LIMIT, Output, Undealt, read_file, test_all_new, write_all};
use tool_words::DealWords;

/// Deals a key, and writes its files. The leaves are built by several threads, and `progress` is told how many are
/// built. Only if the words say `large`, a large set is dealt, and its reference never stands in memory whole.
pub fn deal_files<R: Threads + Sync, P: Progress, S: Store>(
    rt: &R,
    progress: &mut P,
    alloc: Global,
    store: &mut S,
    words: &DealWords,
) -> Ending
    ensures ended { let run = from_to (S.state store.old) (S.state store.new) in
        DealRun (deal_words words.now) run (ending result) }
    ensures back { IsBack (S.state store.old) (S.state store.new) }
    ensures told { ToldBy P.told (deal_words words.now) (status_of (ending result)) progress.old progress.new }
{
    if words.large {
        deal_large(rt, progress, alloc, store, words)
    } else {
        deal_small(rt, progress, alloc, store, words)
    }
}

/// Deals a key of a small set, and writes its files once they are all made.
fn deal_small<R: Threads + Sync, P: Progress, S: Store>(
    rt: &R,
    progress: &mut P,
    alloc: Global,
    store: &mut S,
    words: &DealWords,
) -> Ending
    requires small { words.now.large ≡ false }
    ensures ended { let run = from_to (S.state store.old) (S.state store.new) in
        EndsWith (DealEnds run (deal_words words.now)) run (ending result) }
    ensures back { IsBack (S.state store.old) (S.state store.new) }
    ensures told { ToldBy P.told (deal_words words.now) (status_of (ending result)) progress.old progress.new }
{
    let (outputs, done) = match new_outputs(rt, progress, alloc, store, words) {
        Ok(ready) => ready,
        Err(end) => return end,
    };
    match write_all(alloc, store, &outputs) {
        Ok(()) => done,
        Err(end) => end,
    }
}

/// Reads the entropy, deals, and tests the names of the outputs. It answers these and the end once all are written.
fn new_outputs<R: Threads + Sync, P: Progress, S: Store>(
    rt: &R,
    progress: &mut P,
    alloc: Global,
    store: &mut S,
    words: &DealWords,
) -> Result<(Vec<Output>, Ending), Ending>
    requires small { words.now.large ≡ false }
    ensures ready { InAnyRun S.state store.old store.new (λ run. IfOk result (λ dealt.
        IsReady run (deal_words words.now) (map output_of dealt.0.items) (ending dealt.1))) }
    ensures refused { InAnyRun S.state store.old store.new (λ run.
        IfErr result (λ end. DealEnds run (deal_words words.now) (ending end) [])) }
    ensures unchanged { IsUnchanged (S.state store.old) (S.state store.new) }
    ensures told { TellsBy P.told (deal_words words.now) result progress.old progress.new }
{
    let entropy = read_file(alloc, store, words.entropy, FILE_LIMIT)?;
    let (outputs, done) = dealt_outputs(rt, progress, alloc, words, &entropy)?;
    test_all_new(alloc, store, &outputs)?;
    Ok((outputs, done))
}

/// The files of the dealing that the words ask for, and the end once they are written.
fn dealt_outputs<R: Threads + Sync, P: Progress>(
    rt: &R,
    progress: &mut P,
    alloc: Global,
    words: &DealWords,
    entropy: &[u8],
) -> Result<(Vec<Output>, Ending), Ending>
    requires small { words.now.large ≡ false }
    ensures dealt { IfOk result (λ dealt.
        IsDealtTo (deal_words words.now) entropy.now (map output_of dealt.0.items) (ending dealt.1)) }
    ensures refused { IfErr result (λ end. IsNotDealt (deal_words words.now) entropy.now (ending end)) }
    ensures told { TellsBy P.told (deal_words words.now) result progress.old progress.new }
{
    let params = set_of(words)?;
    let plan = plan_of(words, &params)?;
    let (dealt, commits) = deal_as_asked(rt, progress, alloc, words, &params, &plan, entropy)?;
    let Ok(files) = dealt.into_files(alloc) else {
        return Err(Ending::NoMemory);
    };
    let Ok(outputs) = named_outputs(alloc, words.prefix, files, commits) else {
        return Err(Ending::NoMemory);
    };
    let done = Ending::Dealt {
        leaves: params.leaves(),
        coalitions: plan.count(),
    };
    Ok((outputs, done))
}

/// The dealing of this set, plan and entropy, and its commitment file if the words ask for it.
fn deal_as_asked<R: Threads + Sync, P: Progress>(
    rt: &R,
    progress: &mut P,
    alloc: Global,
    words: &DealWords,
    params: &Params,
    plan: &Plan,
    entropy: &[u8],
) -> Result<(Dealt, Option<Vec<u8>>), Ending>
    requires small { words.now.large ≡ false }
    requires asked { AreAsked (deal_words words.now) params.now plan.now }
    ensures dealing { IfOk result (λ both. IsDealt (dealing_of params.now plan.now entropy.now) both.0) }
    ensures commits { IfOk result (λ both. option_map (λ file. file.items) both.1
        ≡ asked_commits words.now.commit (dealing_of params.now plan.now entropy.now)) }
    ensures dealt { OnOk result (IsDealableBy (deal_words words.now) params.now plan.now entropy.now) }
    ensures shares { IfOk result (λ both. 0 < length both.0.shares.items) }
    ensures refused { IfErr result (λ end. IsNotDealt (deal_words words.now) entropy.now (ending end)) }
    ensures told { TellsLeaves P.told params.now.h (λ end. ending end ≡ spec.NoMemory) result
        progress.old progress.new }
{
    if words.commit {
        match deal_committed_beside(rt, progress, alloc, params, plan, entropy) {
            Ok((dealt, commits)) => Ok((dealt, Some(commits))),
            Err(CommittedFault::Deal(fault)) => Err(end_of_fault(fault)),
            Err(CommittedFault::TooLarge { bytes }) => {
                Err(Ending::NotDealt(Undealt::Commitments { bytes }))
            }
        }
    } else {
        match deal_beside(rt, progress, alloc, params, plan, entropy) {
            Ok(dealt) => Ok((dealt, None)),
            Err(fault) => Err(end_of_fault(fault)),
        }
    }
}

/// The files with their names.
fn named_outputs(
    alloc: Global,
    prefix: &str,
    files: DealingFiles,
    commits: Option<Vec<u8>>,
) -> Result<Vec<Output>, AllocError>
    requires { length files.shares.items ≤ 12 }
    ensures { IfOk result (λ outputs. map output_of outputs.items
        ≡ named_files prefix.now files (option_map (λ file. file.items) commits)) }
{
    let mut outputs = Vec::new(alloc);
    push_file(alloc, prefix, ".pub", files.public, &mut outputs)?;
    push_file(alloc, prefix, ".tree", files.tree, &mut outputs)?;
    push_file(alloc, prefix, ".ref", files.reference, &mut outputs)?;
    push_shares(alloc, prefix, files.shares, &mut outputs)?;
    push_commits(alloc, prefix, commits, &mut outputs)?;
    Ok(outputs)
}

/// Tests that none of the names of a dealing to `n` trustees is in the store, in their order.
pub(crate) fn test_names<S: Store>(
    alloc: Global,
    store: &mut S,
    prefix: &str,
    n: u8,
) -> Result<(), Ending>
    requires { n ≤ 12 }
    ensures new { InAnyRun S.state store.old store.new (λ run. OnOk result (All (IsNew run) (all_names prefix.now n))) }
    ensures refused { InAnyRun S.state store.old store.new (λ run.
        IfErr result (λ end. (ending end ≡ spec.NoMemory) ⊎ FirstNotNew run (all_names prefix.now n) (ending end))) }
    ensures unchanged { IsUnchanged (S.state store.old) (S.state store.new) }
{
    let Ok(outputs) = blank_outputs(alloc, prefix, n) else {
        return Err(Ending::NoMemory);
    };
    test_all_new(alloc, store, &outputs)
}

/// Outputs with the names of a dealing to `n` trustees, and nothing in them.
fn blank_outputs(alloc: Global, prefix: &str, n: u8) -> Result<Vec<Output>, AllocError>
    requires { n ≤ 12 }
    ensures { IfOk result (λ outputs.
        map (λ output. output.name) (map output_of outputs.items) ≡ all_names prefix.now n) }
{
    let mut shares = Vec::new(alloc);
    'shares: for _ in 0..n {
        shares.push(Vec::new(alloc))?;
    }
    let files = DealingFiles {
        public: Vec::new(alloc),
        tree: Vec::new(alloc),
        reference: Vec::new(alloc),
        shares,
    };
    named_outputs(alloc, prefix, files, None)
}

/// Adds a file that anyone may read, under the prefix with an ending after it.
pub(crate) fn push_file(
    alloc: Global,
    prefix: &str,
    end: &str,
    bytes: Vec<u8>,
    outputs: &mut Vec<Output>,
) -> Result<(), AllocError>
    ensures { OnOk result (map output_of outputs.new.items ≡ map output_of outputs.old.items
        ++ (record { name = prefix.now ++ end.now; bytes = bytes.items; readers = Anyone } ∷ [])) }
{
    outputs.push(Output {
        name: format!(in alloc; "{prefix}{end}")?,
        bytes,
        readers: Readers::Anyone,
    })?;
    Ok(())
}

/// Adds the shares with their names, that of trustee 1 first. A share is its trustee's secret.
pub(crate) fn push_shares(
    alloc: Global,
    prefix: &str,
    shares: Vec<Vec<u8>>,
    outputs: &mut Vec<Output>,
) -> Result<(), AllocError>
    requires { length shares.items ≤ 12 }
    ensures { OnOk result (map output_of outputs.new.items
        ≡ map output_of outputs.old.items ++ named_shares prefix.now 1 (map (λ share. share.items) shares.items)) }
{
    let mut t: u8 = 1;
    'shares: for share in shares {
        outputs.push(Output {
            name: format!(in alloc; "{prefix}.share{t}")?,
            bytes: share,
            readers: Readers::OwnerAlone,
        })?;
        t += 1;
    }
    Ok(())
}

/// Adds the commitment file with its name, if there is one.
fn push_commits(
    alloc: Global,
    prefix: &str,
    commits: Option<Vec<u8>>,
    outputs: &mut Vec<Output>,
) -> Result<(), AllocError>
    ensures { OnOk result (map output_of outputs.new.items
        ≡ map output_of outputs.old.items ++ commits_outputs prefix.now (option_map (λ file. file.items) commits)) }
{
    match commits {
        Some(file) => push_file(alloc, prefix, ".commit", file, outputs),
        None => Ok(()),
    }
}

/// The parameter set of the words.
pub(crate) fn set_of(words: &DealWords) -> Result<Params, Ending>
    ensures set { IfOk result (IsSet (deal_words words.now)) }
    ensures refused { IfErr result (λ end. (entropy : List ℕ)
        → IsNotDealt (deal_words words.now) entropy (ending end)) }
{
    match Params::of_codes(words.lms, words.ots) {
        Ok(params) => Ok(params),
        Err(_) => Err(Ending::NotDealt(Undealt::Code)),
    }
}

/// The plan of the words.
pub(crate) fn plan_of(words: &DealWords, params: &Params) -> Result<Plan, Ending>
    requires set { IsSet (deal_words words.now) params.now }
    ensures plan { IfOk result (λ plan. plan ≡ plan_of (deal_words words.now) params.now) }
    ensures sound { IfOk result IsPlan }
    ensures refused { IfErr result (λ end. (entropy : List ℕ)
        → IsNotDealt (deal_words words.now) entropy (ending end)) }
{
    match Plan::new(byte_of(words.n), byte_of(words.k), params.h) {
        Ok(plan) => Ok(plan),
        Err(PlanFault::BadThreshold) => Err(Ending::NotDealt(Undealt::Threshold)),
        Err(PlanFault::TooManyCoalitions { count }) => {
            Err(Ending::NotDealt(Undealt::Coalitions { count }))
        }
    }
}

/// The number as a byte; a number that is no byte is the greatest one, which no plan has.
fn byte_of(number: u32) -> u8
    ensures { result ≡ min number 255 }
{
    u8::try_from(number).unwrap_or(u8::MAX)
}
