//! The command `deal .. large`. The reference is written onto a disk part by part, and its gate is opened last of all.

ghost use Rattle.std.specs.Prelude.{◌≡◌, ◌≢◌, ◌+◌, ◌≤◌, [], All, map, string_bytes, true, IfErr, IfOk, IsTrue, OnOk};
ghost use Rattle.coalition_map.specs.Coalitions.{IsPlan};
ghost use Rattle.dealer.specs.Faults.{IsDealable};
ghost use Rattle.dealer.specs.Files.{reference_file};
ghost use Rattle.dealer.specs.Onto.{IsKeyDealt, IsUnready, shut};
ghost use Rattle.disk_trait.specs.Faults.{Rose};
ghost use Rattle.disk_trait.specs.SameDisk.{SameDisk};
ghost use Rattle.mask_prf.specs.Lengths.{leaves_length};
ghost use Rattle.stream_io.specs.Store.{pages_state};
ghost use Rattle.tool_base.specs.Ending as spec;
ghost use Rattle.tool_base.specs.Ending.{status_of};
ghost use Rattle.tool_base.specs.Endings.{ending};
ghost use Rattle.tool_base.specs.OutputOf.{output_of};
ghost use Rattle.tool_base.specs.Outputs.{AreDifferent, EndsWith, IsNew};
ghost use Rattle.tool_base.specs.World.{InAnyRun, IsBack, IsUnchanged, from_to};
ghost use Rattle.tool_keys.specs.Deal.{AreAsked};
ghost use Rattle.tool_keys.specs.Large.{EndsBeside, FailsOnDisk, IsAsked, IsDisk, EndsOn, LargeEnds};
ghost use Rattle.tool_keys.specs.Large.{dealing_in, done_of, key_outputs};
ghost use Rattle.tool_keys.specs.Told.{TellsParts, ToldBy};
ghost use Rattle.tool_words.specs.Rows.{deal_words};

use crate::deal::{plan_of, push_file, push_shares, set_of, test_names};
use crate::undealt::{end_of_fault, end_of_onto};
use coalition_map::Plan;
use dealer::{DealtKey, KeyFiles, deal_onto, open_reference, test_dealing};
use disk_trait::{Disk, DiskFault};
use lms_bytes::Params;
use memory::NoMemory;
use share_files::length_of_reference;
use std::alloc::Global;
use std::thread::Threads;
use stream_io::{Progress, Readers, Store};
use tool_base::{Ending, FILE_LIMIT, Output, end_of_new, read_file, write_all};
use tool_words::DealWords;

/// What the words ask for: a dealing that was tested, and the name of its reference, which is new.
#[derive(Drop)]
pub(crate) struct Asked {
    /// The parameter set.
    pub(crate) params: Params,
    /// The plan.
    pub(crate) plan: Plan,
    /// The entropy.
    pub(crate) entropy: Vec<u8>,
    /// The name of the reference.
    pub(crate) reference: String,
}

impl Asked {
    /// The end once the key is dealt.
    fn done(&self) -> Ending
        ensures { ending result ≡ done_of self.now }
    {
        Ending::Dealt {
            leaves: self.params.leaves(),
            coalitions: self.plan.count(),
        }
    }
}

/// Deals a key of any set up to height 20. Its names are tested before anything is dealt. `progress` is told how many
/// leaves are written.
pub(crate) fn deal_large<R: Threads + Sync, P: Progress, S: Store>(
    rt: &R,
    progress: &mut P,
    alloc: Global,
    store: &mut S,
    words: &DealWords,
) -> Ending
    requires large { words.now.large ≡ true }
    ensures ended { let run = from_to (S.state store.old) (S.state store.new) in
        EndsBeside (LargeEnds run (deal_words words.now)) run (ending result) }
    ensures back { IsBack (S.state store.old) (S.state store.new) }
    ensures told { ToldBy P.told (deal_words words.now) (status_of (ending result)) progress.old progress.new }
{
    let asked = match read_asked(alloc, store, words) {
        Ok(asked) => asked,
        Err(end) => return end,
    };
    let name = asked.reference.as_str();
    let size = length_of_reference(&asked.params, asked.plan.k()) as usize;
    let mut disk = match store.new_disk(alloc, name, size, Readers::Anyone) {
        Ok(disk) => disk,
        Err(fault) => return end_of_new(alloc, name, fault),
    };
    let end = deal_and_publish(rt, progress, alloc, store, words, &asked, &mut disk);
    store.return_disk(name, disk);
    end
}

/// Deals onto the disk, writes the other files, and opens the gate of the reference.
fn deal_and_publish<R: Threads + Sync, P: Progress, S: Store>(
    rt: &R,
    progress: &mut P,
    alloc: Global,
    store: &mut S,
    words: &DealWords,
    asked: &Asked,
    disk: &mut S::Disk,
) -> Ending
    requires large { words.now.large ≡ true }
    requires asked { AreAsked (deal_words words.now) asked.now.params asked.now.plan }
    requires dealable { IsDealable true asked.now.params asked.now.plan asked.now.entropy.items }
    requires new { All (IsNew (from_to (S.state store.old) (S.state store.old)))
        (map (λ output. output.name) (key_outputs words.now.prefix.now (dealing_in asked.now))) }
    requires empty { IsTrue (S.Disk.told disk.old) → S.Disk.reads disk.old ≡ [] }
    ensures ended { (first : S) → IsUnchanged (S.state first) (S.state store.old)
        → let run = from_to (S.state first) (S.state store.new) in
        EndsWith (EndsOn run words.now.prefix.now (dealing_in asked.now) (done_of asked.now)
        (pages_state S.Disk.told S.Disk.honest S.Disk.steady S.Disk.count S.Disk.room S.Disk.reads S.Disk.may_leave
        disk.new)) run (ending result) }
    ensures back { IsBack (S.state store.old) (S.state store.new) }
    ensures told { ToldBy P.told (deal_words words.now) (status_of (ending result)) progress.old progress.new }
    ensures device { ending result ≡ spec.DeviceFailed → Rose (S.Disk.count disk.old) (S.Disk.count disk.new) }
    ensures succeeds { IsTrue (S.Disk.steady disk.old) → IsTrue (S.Disk.told disk.old)
        → 32 + leaves_length asked.now.params asked.now.plan ≤ S.Disk.room disk.old
        → ending result ≢ spec.DeviceFailed }
    ensures stays { SameDisk S.Disk.Pages.own S.Disk.Faults disk.old disk.new }
{
    match deal_on_disk(rt, progress, alloc, words.prefix, asked, disk) {
        Ok(outputs) => publish(alloc, store, words.prefix, &outputs, disk, asked),
        Err(end) => end,
    }
}

/// Reads the entropy, tests it, the set and the plan, and tests that all names are new.
fn read_asked<S: Store>(alloc: Global, store: &mut S, words: &DealWords) -> Result<Asked, Ending>
    requires large { words.now.large ≡ true }
    ensures asked { InAnyRun S.state store.old store.new (λ run. IfOk result (IsAsked run (deal_words words.now))) }
    ensures refused { InAnyRun S.state store.old store.new (λ run.
        IfErr result (λ end. LargeEnds run (deal_words words.now) (ending end) [] [])) }
    ensures untold { IfErr result (λ end. status_of (ending end) ≢ 0) }
    ensures unchanged { IsUnchanged (S.state store.old) (S.state store.new) }
{
    let entropy = read_file(alloc, store, words.entropy, FILE_LIMIT)?;
    let params = set_of(words)?;
    let plan = plan_of(words, &params)?;
    if let Err(fault) = test_dealing(true, &params, &plan, &entropy) {
        return Err(end_of_fault(fault));
    }
    test_names(alloc, store, words.prefix, plan.n())?;
    let prefix = words.prefix;
    let Ok(reference) = format!(in alloc; "{prefix}.ref") else {
        return Err(Ending::NoMemory);
    };
    Ok(Asked {
        params,
        plan,
        entropy,
        reference,
    })
}

/// Deals onto the disk, with the gate of the reference shut. It gives the files besides the reference.
fn deal_on_disk<R: Threads + Sync, P: Progress, D: Disk>(
    rt: &R,
    progress: &mut P,
    alloc: Global,
    prefix: &str,
    asked: &Asked,
    disk: &mut D,
) -> Result<Vec<Output>, Ending>
    requires height { asked.now.plan.h ≡ asked.now.params.h }
    requires plan { IsPlan asked.now.plan }
    requires dealable { IsDealable true asked.now.params asked.now.plan asked.now.entropy.items }
    requires empty { IsTrue (D.told disk.old) → D.reads disk.old ≡ [] }
    ensures outputs { IfOk result (λ outputs. map output_of outputs.items
        ≡ key_outputs prefix.now (dealing_in asked.now)) }
    ensures shut { OnOk result (IsDisk
        (pages_state D.told D.honest D.steady D.count D.room D.reads D.may_leave disk.new)
        (λ file. file ≡ shut (reference_file (dealing_in asked.now))) IsUnready) }
    ensures refused { IfErr result (λ end. FailsOnDisk (dealing_in asked.now)
        (pages_state D.told D.honest D.steady D.count D.room D.reads D.may_leave disk.new) (ending end)) }
    ensures told { TellsParts P.told asked.now.params result progress.old progress.new }
    ensures device { IfErr result (λ end.
        ending end ≡ spec.DeviceFailed → Rose (D.count disk.old) (D.count disk.new)) }
    ensures succeeds { IsTrue (D.steady disk.old) → IsTrue (D.told disk.old)
        → 32 + leaves_length asked.now.params asked.now.plan ≤ D.room disk.old
        → IfErr result (λ end. ending end ≢ spec.DeviceFailed) }
    ensures stays { SameDisk D.Pages.own D.Faults disk.old disk.new }
{
    let key = match deal_onto(
        rt,
        progress,
        alloc,
        &asked.params,
        &asked.plan,
        &asked.entropy,
        disk,
    ) {
        Ok(key) => key,
        Err(fault) => return Err(end_of_onto(fault)),
    };
    match key_outputs(alloc, prefix, asked, key) {
        Ok(outputs) => Ok(outputs),
        Err(NoMemory) => Err(Ending::NoMemory),
    }
}

/// Writes the files besides the reference, and opens the gate of the reference.
fn publish<S: Store>(
    alloc: Global,
    store: &mut S,
    prefix: &str,
    outputs: &[Output],
    disk: &mut S::Disk,
    asked: &Asked,
) -> Ending
    requires outputs { map output_of outputs.now ≡ key_outputs prefix.now (dealing_in asked.now) }
    requires shut { IsDisk (pages_state S.Disk.told S.Disk.honest S.Disk.steady S.Disk.count S.Disk.room S.Disk.reads
        S.Disk.may_leave disk.old) (λ file. file ≡ shut (reference_file (dealing_in asked.now))) IsUnready }
    requires differ { AreDifferent (map (λ output. string_bytes output.name) outputs.now) }
    requires new { All (IsNew (from_to (S.state store.old) (S.state store.old)))
        (map (λ output. string_bytes output.name) outputs.now) }
    ensures published { (first : S) → IsUnchanged (S.state first) (S.state store.old)
        → let run = from_to (S.state first) (S.state store.new) in
        EndsWith (EndsOn run prefix.now (dealing_in asked.now) (done_of asked.now)
        (pages_state S.Disk.told S.Disk.honest S.Disk.steady S.Disk.count S.Disk.room S.Disk.reads S.Disk.may_leave
        disk.new)) run (ending result) }
    ensures back { IsBack (S.state store.old) (S.state store.new) }
    ensures device { ending result ≡ spec.DeviceFailed → Rose (S.Disk.count disk.old) (S.Disk.count disk.new) }
    ensures succeeds { IsTrue (S.Disk.steady disk.old) → IsTrue (S.Disk.told disk.old) → 1 ≤ S.Disk.room disk.old
        → ending result ≢ spec.DeviceFailed }
    ensures stays { SameDisk S.Disk.Pages.own S.Disk.Faults disk.old disk.new }
{
    if let Err(end) = write_all(alloc, store, outputs) {
        return end;
    }
    match open_reference(disk) {
        Ok(()) => asked.done(),
        Err(DiskFault) => Ending::DeviceFailed,
    }
}

/// The files besides the reference, with their names.
fn key_outputs(
    alloc: Global,
    prefix: &str,
    asked: &Asked,
    key: DealtKey,
) -> Result<Vec<Output>, NoMemory>
    requires plan { IsPlan asked.now.plan }
    requires key { IsKeyDealt (dealing_in asked.now) key }
    ensures { IfOk result (λ outputs. map output_of outputs.items ≡ key_outputs prefix.now (dealing_in asked.now)) }
{
    let KeyFiles {
        public,
        tree,
        shares,
    } = key.into_files(alloc)?;
    let mut outputs = Vec::new(alloc);
    push_file(alloc, prefix, ".pub", public, &mut outputs)?;
    push_file(alloc, prefix, ".tree", tree, &mut outputs)?;
    push_shares(alloc, prefix, shares, &mut outputs)?;
    Ok(outputs)
}
