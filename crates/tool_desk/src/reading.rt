//! Files of a dealing that are read whole.

ghost use Rattle.std.specs.Prelude.{IfOk, IfErr};
ghost use Rattle.tool_base.specs.Endings.{ending};
ghost use Rattle.tool_base.specs.World.{InAnyRun, IsUnchanged};
ghost use Rattle.tool_desk.specs.Key.{FailsKey, IsKeyRead};
ghost use Rattle.tool_desk.specs.Tree.{FailsTree, IsTreeRead};

use crate::tree::DealtTree;
use lms_bytes::{PublicKey, read_public};
use merkle_path::Tree;
use share_files::{HEAD, TreeView, read_tree};
use std::alloc::Global;
use stream_io::Store;
use tool_base::{Ending, FILE_LIMIT, read_file, unreadable};

/// Reads a public key.
pub fn read_key_file<S: Store>(
    alloc: Global,
    store: &mut S,
    name: &str,
) -> Result<PublicKey, Ending>
    ensures key { InAnyRun S.state store.old store.new (λ run. IfOk result (IsKeyRead run name.now)) }
    ensures refused { InAnyRun S.state store.old store.new (λ run.
        IfErr result (λ end. FailsKey run name.now (ending end))) }
    ensures unchanged { IsUnchanged (S.state store.old) (S.state store.new) }
{
    let bytes = read_file(alloc, store, name, FILE_LIMIT)?;
    match read_public(&bytes) {
        Ok(key) => Ok(key),
        Err(fault) => Err(unreadable(alloc, name, fault.number())),
    }
}

/// Reads a tree file.
pub fn read_tree_file<S: Store>(
    alloc: Global,
    store: &mut S,
    name: &str,
) -> Result<DealtTree, Ending>
    ensures tree { InAnyRun S.state store.old store.new (λ run. IfOk result (IsTreeRead run name.now)) }
    ensures refused { InAnyRun S.state store.old store.new (λ run.
        IfErr result (λ end. FailsTree run name.now (ending end))) }
    ensures unchanged { IsUnchanged (S.state store.old) (S.state store.new) }
{
    let bytes = read_file(alloc, store, name, FILE_LIMIT)?;
    let TreeView { params, id, .. } = match read_tree(&bytes) {
        Ok(view) => view,
        Err(fault) => return Err(unreadable(alloc, name, fault.number())),
    };
    let nodes = Tree::behind(&params, bytes, HEAD);
    Ok(DealtTree { params, id, nodes })
}
