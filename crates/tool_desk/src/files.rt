//! The public key and the tree of a dealing, and whether the reference goes with them.

ghost use Rattle.std.specs.Prelude.{◌≡◌, ◌⊎◌, ◌↔◌, ◌++◌, string_bytes, IfOk, IfErr, OnOk, IsTrue};
ghost use Rattle.tool_base.specs.Ending as spec;
ghost use Rattle.tool_base.specs.Endings.{ending};
ghost use Rattle.tool_base.specs.World.{InAnyRun, IsUnchanged};
ghost use Rattle.tool_desk.specs.Files.{AreKeyFiles, AreOfOneKey, FailsKeyFiles, HaveSizesOf, IsOfKey, IsOfOtherKey};

use crate::reading::{read_key_file, read_tree_file};
use crate::tree::DealtTree;
use lms_bytes::{KeyId, Params, PublicKey};
use share_files::{FileFault, RefHeader};
use std::alloc::{AllocError, Global};
use stream_io::Store;
use tool_base::{Ending, unreadable};

/// The public key and the tree of a dealing. They may be of different keys until `test_same_key` has tested them.
#[derive(Drop)]
pub struct KeyFiles {
    /// The public key.
    pub key: PublicKey,
    /// The tree.
    pub tree: DealtTree,
}

/// Reads the public key and the tree of a dealing. The key is tested before the tree is read.
pub fn read_key_and_tree<S: Store>(
    alloc: Global,
    store: &mut S,
    prefix: &str,
) -> Result<KeyFiles, Ending>
    ensures files { InAnyRun S.state store.old store.new (λ run. IfOk result (AreKeyFiles run prefix.now)) }
    ensures refused { InAnyRun S.state store.old store.new (λ run.
        IfErr result (λ end. FailsKeyFiles run prefix.now (ending end))) }
    ensures unchanged { IsUnchanged (S.state store.old) (S.state store.new) }
{
    let name = file_name(alloc, prefix, ".pub")?;
    let key = read_key_file(alloc, store, name.as_str())?;
    let name = file_name(alloc, prefix, ".tree")?;
    let tree = read_tree_file(alloc, store, name.as_str())?;
    Ok(KeyFiles { key, tree })
}

/// Tests that the tree and the reference of a dealing are of its public key, the tree first.
pub fn test_same_key(
    alloc: Global,
    prefix: &str,
    files: &KeyFiles,
    header: &RefHeader,
) -> Result<(), Ending>
    ensures same { OnOk result (AreOfOneKey files.now header.now) }
    ensures sizes { OnOk result (HaveSizesOf files.now header.now) }
    ensures refused { IfErr result (λ end. IsOfOtherKey prefix.now files.now header.now (ending end)) }
{
    if !is_of_key(&files.key, &files.tree.params, &files.tree.id) {
        return Err(other_key(alloc, prefix, ".tree", &files.tree.id));
    }
    if !is_of_key(&files.key, &header.params, &header.id) {
        return Err(other_key(alloc, prefix, ".ref", &header.id));
    }
    Ok(())
}

/// Whether a file with this parameter set and identifier is of a key. The typecodes decide everything else in a set.
fn is_of_key(key: &PublicKey, params: &Params, id: &KeyId) -> bool
    ensures { IsTrue result ↔ IsOfKey key.now params.now id.now }
{
    params.lms == key.params.lms && params.ots == key.params.ots && *id == key.id
}

/// The end if the file of a dealing with this suffix is of another key, with this identifier.
pub(crate) fn other_key(alloc: Global, prefix: &str, suffix: &str, got: &KeyId) -> Ending
    ensures { (ending result ≡ spec.NoMemory) ⊎ (ending result ≡ spec.Unreadable (prefix.now ++ suffix.now) 7) }
{
    match file_name(alloc, prefix, suffix) {
        Ok(name) => {
            let fault = FileFault::OtherKey { got: *got };
            unreadable(alloc, name.as_str(), fault.number())
        }
        Err(end) => end,
    }
}

/// The name of the file of a dealing with this suffix.
pub fn file_name(alloc: Global, prefix: &str, suffix: &str) -> Result<String, Ending>
    ensures name { IfOk result (λ name. string_bytes name ≡ prefix.now ++ suffix.now) }
    ensures refused { IfErr result (λ end. ending end ≡ spec.NoMemory) }
{
    match format!(in alloc; "{prefix}{suffix}") {
        Ok(name) => Ok(name),
        Err(AllocError) => Err(Ending::NoMemory),
    }
}
