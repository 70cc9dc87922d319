//! Files that a command writes under new names.

ghost use Rattle.std.specs.Prelude.{◌≡◌, ◌⊎◌, [], ◌∷◌, All, map, string_bytes, IfErr, IfOk, OnOk, OnErr};
ghost use Rattle.stream_io.specs.Store.{SameStore, StoreOnward, Written};
ghost use Rattle.stream_io.specs.declared.store.Readers.TheVariants.{Anyone};
ghost use Rattle.tool_base.specs.Ending as spec;
ghost use Rattle.tool_base.specs.Endings.{ending};
ghost use Rattle.tool_base.specs.OutputOf.{output_of};
ghost use Rattle.tool_base.specs.Outputs.{AreDifferent, EndsWith, FirstNotNew, IsEndOfNew, IsLeft, IsNew, IsNotNew};
ghost use Rattle.tool_base.specs.Outputs.{StopsAfter};
ghost use Rattle.tool_base.specs.World.{InAnyRun, IsBack, IsUnchanged, from_to};

use crate::ending::Ending;
use memory::NoMemory;
use std::alloc::{AllocError, Global};
use stream_io::{CallFault, NewFault, Readers, Store};

/// A file to be written.
#[derive(Drop)]
pub struct Output {
    /// The name that it is written under.
    pub name: String,
    /// Its bytes.
    pub bytes: Vec<u8>,
    /// Who may read it.
    pub readers: Readers,
}

/// Two files under their names, which anyone may read.
pub fn two_outputs(
    alloc: Global,
    one: &str,
    first: Vec<u8>,
    two: &str,
    second: Vec<u8>,
) -> Result<[Output; 2], NoMemory>
    ensures { IfOk result (λ outputs. map output_of outputs ≡
        record { name = one.now; bytes = first.items; readers = Anyone }
        ∷ record { name = two.now; bytes = second.items; readers = Anyone } ∷ []) }
{
    let one = String::from_str(alloc, one)?;
    let two = String::from_str(alloc, two)?;
    Ok([
        Output {
            name: one,
            bytes: first,
            readers: Readers::Anyone,
        },
        Output {
            name: two,
            bytes: second,
            readers: Readers::Anyone,
        },
    ])
}

/// The end if a file or a disk was not made under a name.
pub fn end_of_new(alloc: Global, name: &str, fault: NewFault) -> Ending
    ensures { IsEndOfNew name.now fault (ending result) }
{
    match fault {
        NewFault::Exists => exists(alloc, name),
        NewFault::Failed => Ending::StoreFailed,
        NewFault::NoMemory => Ending::NoMemory,
    }
}

/// The end if an output of this name is in the store.
fn exists(alloc: Global, name: &str) -> Ending
    ensures { (ending result ≡ spec.NoMemory) ⊎ (ending result ≡ spec.Exists name.now) }
{
    match String::from_str(alloc, name) {
        Ok(name) => Ending::Exists { name },
        Err(AllocError) => Ending::NoMemory,
    }
}

/// Tests that a name is not in the store.
pub fn test_new<S: Store>(alloc: Global, store: &mut S, name: &str) -> Result<(), Ending>
    ensures new { InAnyRun S.state store.old store.new (λ run. OnOk result (IsNew run name.now)) }
    ensures refused { InAnyRun S.state store.old store.new (λ run.
        IfErr result (λ end. IsNotNew run name.now (ending end))) }
    ensures unchanged { IsUnchanged (S.state store.old) (S.state store.new) }
{
    match store.has(name) {
        Ok(false) => Ok(()),
        Ok(true) => Err(exists(alloc, name)),
        Err(CallFault::Failed) => Err(Ending::StoreFailed),
        Err(CallFault::NoMemory) => Err(Ending::NoMemory),
    }
}

/// Tests that two names are new, one after the other.
pub fn test_two_new<S: Store>(
    alloc: Global,
    store: &mut S,
    one: &str,
    two: &str,
) -> Result<(), Ending>
    ensures new { InAnyRun S.state store.old store.new (λ run.
        OnOk result (All (IsNew run) (one.now ∷ two.now ∷ []))) }
    ensures refused { InAnyRun S.state store.old store.new (λ run.
        IfErr result (λ end. FirstNotNew run (one.now ∷ two.now ∷ []) (ending end))) }
    ensures unchanged { IsUnchanged (S.state store.old) (S.state store.new) }
{
    test_new(alloc, store, one)?;
    test_new(alloc, store, two)
}

/// Tests that none of the outputs' names is in the store, in their order.
pub fn test_all_new<S: Store>(
    alloc: Global,
    store: &mut S,
    outputs: &[Output],
) -> Result<(), Ending>
    ensures new { InAnyRun S.state store.old store.new (λ run.
        OnOk result (All (IsNew run) (map (λ output. string_bytes output.name) outputs.now))) }
    ensures refused { InAnyRun S.state store.old store.new (λ run.
        IfErr result (λ end. FirstNotNew run (map (λ output. string_bytes output.name) outputs.now) (ending end))) }
    ensures unchanged { IsUnchanged (S.state store.old) (S.state store.new) }
{
    'outputs: for output in outputs {
        test_new(alloc, store, output.name.as_str())?;
    }
    Ok(())
}

/// Writes a file under a new name.
fn write_output<S: Store>(alloc: Global, store: &mut S, output: &Output) -> Result<(), Ending>
    ensures written { OnOk result (Written (S.state store.old) (string_bytes output.now.name) output.now.bytes.items
        output.now.readers (S.state store.new)) }
    ensures refused { IfErr result (λ end.
        IsNotNew (from_to (S.state store.old) (S.state store.new)) (string_bytes output.now.name) (ending end)) }
    ensures unchanged { OnErr result (SameStore (S.state store.old) (S.state store.new)) }
    ensures onward { StoreOnward (S.state store.old) (S.state store.new) }
{
    let name = output.name.as_str();
    match store.write_new(alloc, name, &output.bytes, output.readers) {
        Ok(()) => Ok(()),
        Err(fault) => Err(end_of_new(alloc, name, fault)),
    }
}

/// Writes files under names that differ and were found new, in their order.
pub fn write_all<S: Store>(alloc: Global, store: &mut S, outputs: &[Output]) -> Result<(), Ending>
    requires differ { AreDifferent (map (λ output. string_bytes output.name) outputs.now) }
    requires new { All (IsNew (from_to (S.state store.old) (S.state store.old)))
        (map (λ output. string_bytes output.name) outputs.now) }
    ensures written { (first : S) → IsUnchanged (S.state first) (S.state store.old)
        → OnOk result (IsLeft (from_to (S.state first) (S.state store.new)) (map output_of outputs.now)) }
    ensures refused { (first : S) → IsUnchanged (S.state first) (S.state store.old)
        → let run = from_to (S.state first) (S.state store.new) in IfErr result (λ end.
        EndsWith (λ end written. StopsAfter run (map output_of outputs.now) written end) run (ending end)) }
    ensures back { IsBack (S.state store.old) (S.state store.new) }
{
    'outputs: for output in outputs {
        write_output(alloc, store, output)?;
    }
    Ok(())
}
