//! The lines that say what files hold.

ghost use Rattle.std.specs.Prelude.{◌≡◌, ◌≤◌, IfOk, length, string_bytes};
ghost use Rattle.tool_show.specs.Lines as spec;

use crate::words::key_words;
use coalition_map::Plan;
use hss_levels::HssKey;
use lms_bytes::{KeyId, Params, PublicKey};
use share_files::{RefHeader, Share, TreeView};
use std::alloc::{AllocError, Global};

/// The line of a share, which does not say its key.
pub(crate) fn share_line(alloc: Global, share: &Share) -> Result<String, AllocError>
    ensures { IfOk result (λ line. string_bytes line ≡ spec.share_line share.now) }
{
    let member = share.member;
    let plan = plan_words(alloc, &share.plan)?;
    let set = key_words(alloc, share.params.lms, share.params.ots, &share.id)?;
    format!(in alloc; "share member {member}{plan}{set}\n")
}

/// The line of a tree file. Its first node is the root.
pub(crate) fn tree_line(alloc: Global, tree: &TreeView) -> Result<String, AllocError>
    requires { tree.now.params.n ≤ length tree.now.nodes.now }
    ensures { IfOk result (λ line.
        string_bytes line ≡ spec.tree_line tree.now.params tree.now.id tree.now.nodes.now) }
{
    let root = &tree.nodes[..tree.params.n as usize];
    let root = root_words(alloc, &tree.params, &tree.id, root)?;
    format!(in alloc; "tree{root}\n")
}

/// The line of a file of `size` bytes with the head of a reference, after the name of the file.
pub(crate) fn header_line(
    alloc: Global,
    name: &str,
    header: &RefHeader,
    size: usize,
) -> Result<String, AllocError>
    ensures { IfOk result (λ line. string_bytes line ≡ spec.header_line name.now header.now size) }
{
    let plan = plan_words(alloc, &header.plan)?;
    let set = key_words(alloc, header.params.lms, header.params.ots, &header.id)?;
    format!(in alloc; "{name}{plan}{set} bytes {size}\n")
}

/// The line of an LMS key.
pub(crate) fn key_line(alloc: Global, key: &PublicKey) -> Result<String, AllocError>
    ensures { IfOk result (λ line. string_bytes line ≡ spec.key_line key.now) }
{
    let root = root_words(alloc, &key.params, &key.id, key.root.bytes())?;
    format!(in alloc; "key{root}\n")
}

/// The line of an HSS key.
pub(crate) fn hss_key_line(alloc: Global, key: &HssKey) -> Result<String, AllocError>
    ensures { IfOk result (λ line. string_bytes line ≡ spec.hss_key_line key.now) }
{
    let levels = key.levels;
    let root = root_words(alloc, &key.top.params, &key.top.id, key.top.root.bytes())?;
    format!(in alloc; "hss key levels {levels}{root}\n")
}

/// What a line says about a plan.
fn plan_words(alloc: Global, plan: &Plan) -> Result<String, AllocError>
    ensures { IfOk result (λ words. string_bytes words ≡ spec.plan_words plan.now) }
{
    let n = plan.n();
    let k = plan.k();
    format!(in alloc; " of {n} threshold {k}")
}

/// What a line says about a key with its root.
fn root_words(alloc: Global, params: &Params, id: &KeyId, root: &[u8]) -> Result<String, AllocError>
    ensures { IfOk result (λ words. string_bytes words ≡ spec.root_words params.now id.now root.now) }
{
    let set = key_words(alloc, params.lms, params.ots, id)?;
    let root = hex::encode(alloc, root)?;
    format!(in alloc; "{set} root {root}")
}
