//! The command `rehearse`.

ghost use Rattle.std.specs.Prelude.{◌≡◌, ◌≢◌, [], ◌∷◌, map, IfOk, IfErr};
ghost use Rattle.lms_bytes.specs.PublicKey.{public_bytes};
ghost use Rattle.stream_io.specs.declared.store.Readers.TheVariants.{Anyone};
ghost use Rattle.tool_base.specs.Endings.{ending};
ghost use Rattle.tool_base.specs.OutputOf.{output_of};
ghost use Rattle.tool_base.specs.Outputs.{EndsWith};
ghost use Rattle.tool_keys.specs.Rehearse.{IsBegun, IsNotRehearsed, IsReady, IsRehearsedTo, RehearseEnds};
ghost use Rattle.tool_base.specs.World.{InAnyRun, IsBack, IsUnchanged, from_to};

use crate::reading::read_two;
use crate::undealt::end_of_fault;
use dealer::{Rehearsed, public_file, rehearse};
use memory::NoMemory;
use std::alloc::Global;
use stream_io::Store;
use tool_base::{Ending, Output, test_two_new, two_outputs, write_all};

/// Deals a key and signs a message with its first leaf in memory, and writes the public key and the signature.
pub fn rehearse_files<S: Store>(
    alloc: Global,
    store: &mut S,
    entropy: &str,
    message: &str,
    key_out: &str,
    signature_out: &str,
) -> Ending
    requires { key_out.now ≢ signature_out.now }
    ensures ended { let run = from_to (S.state store.old) (S.state store.new) in
        EndsWith (RehearseEnds run entropy.now message.now key_out.now signature_out.now) run (ending result) }
    ensures back { IsBack (S.state store.old) (S.state store.new) }
{
    let outputs = match new_outputs(alloc, store, entropy, message, key_out, signature_out) {
        Ok(outputs) => outputs,
        Err(end) => return end,
    };
    match write_all(alloc, store, &outputs) {
        Ok(()) => Ending::Rehearsed,
        Err(end) => end,
    }
}

/// Tests the names of the outputs, reads the entropy and the message, and deals and signs in memory.
fn new_outputs<S: Store>(
    alloc: Global,
    store: &mut S,
    entropy: &str,
    message: &str,
    key_out: &str,
    signature_out: &str,
) -> Result<[Output; 2], Ending>
    ensures ready { InAnyRun S.state store.old store.new (λ run. IfOk result (λ outputs.
        IsReady run entropy.now message.now key_out.now signature_out.now (map output_of outputs))) }
    ensures refused { InAnyRun S.state store.old store.new (λ run.
        IfErr result (λ end. RehearseEnds run entropy.now message.now key_out.now signature_out.now (ending end) [])) }
    ensures unchanged { IsUnchanged (S.state store.old) (S.state store.new) }
{
    let (seeds, text) = read_new(alloc, store, entropy, message, key_out, signature_out)?;
    rehearsed_outputs(alloc, &seeds, &text, key_out, signature_out)
}

/// Tests the names of the outputs, and reads the entropy and the message.
fn read_new<S: Store>(
    alloc: Global,
    store: &mut S,
    entropy: &str,
    message: &str,
    key_out: &str,
    signature_out: &str,
) -> Result<(Vec<u8>, Vec<u8>), Ending>
    ensures begun { InAnyRun S.state store.old store.new (λ run. IfOk result (λ both.
        IsBegun run entropy.now message.now key_out.now signature_out.now both.0.items both.1.items)) }
    ensures refused { InAnyRun S.state store.old store.new (λ run.
        IfErr result (λ end. RehearseEnds run entropy.now message.now key_out.now signature_out.now (ending end) [])) }
    ensures unchanged { IsUnchanged (S.state store.old) (S.state store.new) }
{
    test_two_new(alloc, store, key_out, signature_out)?;
    read_two(alloc, store, entropy, message)
}

/// The files of a rehearsal: the public key and the signature.
fn rehearsed_outputs(
    alloc: Global,
    entropy: &[u8],
    message: &[u8],
    key_out: &str,
    signature_out: &str,
) -> Result<[Output; 2], Ending>
    ensures rehearsed { IfOk result (λ outputs.
        IsRehearsedTo entropy.now message.now key_out.now signature_out.now (map output_of outputs)) }
    ensures refused { IfErr result (λ end. IsNotRehearsed entropy.now (ending end)) }
{
    let rehearsed = match rehearse(alloc, entropy, message) {
        Ok(rehearsed) => rehearsed,
        Err(fault) => return Err(end_of_fault(fault)),
    };
    match named_outputs(alloc, rehearsed, key_out, signature_out) {
        Ok(outputs) => Ok(outputs),
        Err(NoMemory) => Err(Ending::NoMemory),
    }
}

/// A public key and a signature with the names of their files.
fn named_outputs(
    alloc: Global,
    rehearsed: Rehearsed,
    key_out: &str,
    signature_out: &str,
) -> Result<[Output; 2], NoMemory>
    ensures { IfOk result (λ outputs. map output_of outputs ≡
        record { name = key_out.now; bytes = public_bytes rehearsed.public; readers = Anyone }
        ∷ record { name = signature_out.now; bytes = rehearsed.signature.items; readers = Anyone } ∷ []) }
{
    let key = public_file(alloc, &rehearsed.public)?;
    two_outputs(alloc, key_out, key, signature_out, rehearsed.signature)
}
