//! The tree file.

ghost use Rattle.std.specs.Prelude.{◌≡◌, ℕ, List, ◌+◌, ◌-◌, ◌*◌, ◌^◌, None, Some, OnOk, IfOk, IfErr, IsOkAnd};
ghost use Rattle.lms_bytes.specs.declared.params.Params.{Params};
ghost use Rattle.share_files.specs.TreeFile.{HasTreeLayout, SameTree, tree_fault, tree_head};

use crate::faults::FileFault;
use crate::head::{check_front, check_length, check_zero, read_head, write_head};
use lms_bytes::bytes::part;
use lms_bytes::{KeyId, Params};
use mask_prf::HEAD;

/// What a tree file begins with.
const TREE_MAGIC: &[u8; 4] = b"TLTR";

/// The parts of a tree file, where they lie.
#[derive(Clone, Copy, Debug, PartialEq, Eq)]
pub struct TreeView<'a> {
    pub params: Params,
    /// The identifier of the key.
    pub id: KeyId,
    /// The nodes T[1] to T[2^(h+1) - 1], n bytes each.
    pub nodes: &'a [u8],
}

/// Reads a tree file that is all of `bytes`. The nodes are borrowed from `bytes`.
pub fn read_tree<'a>(bytes: &'a [u8]) -> Result<TreeView<'a>, FileFault>
    ensures layout { IfOk result (λ view. HasTreeLayout view.params bytes.now view.id view.nodes.now) }
    ensures read { (params : Params) (id nodes : List ℕ) → HasTreeLayout params bytes.now id nodes
        → IsOkAnd result (λ view. SameTree params view.params id view.id nodes view.nodes.now) }
    ensures faultless { OnOk result (tree_fault bytes.now ≡ None) }
    ensures refused { IfErr result (λ fault. tree_fault bytes.now ≡ Some fault) }
{
    check_front(bytes, HEAD)?;
    let head = read_head(TREE_MAGIC, bytes)?;
    check_zero(bytes, 5)?;
    check_zero(bytes, 6)?;
    check_zero(bytes, 7)?;
    check_length(bytes.len() as u64, tree_length(&head.params))?;
    Ok(TreeView {
        params: head.params,
        id: head.id,
        nodes: part(bytes, HEAD, bytes.len() - HEAD),
    })
}

/// How long the tree file of a parameter set is, in bytes.
fn tree_length(params: &Params) -> u64
    ensures { result ≡ 32 + params.now.n * (2 ^ (params.now.h + 1) - 1) }
{
    HEAD as u64 + u64::from(params.n) * (2 * u64::from(params.leaves()) - 1)
}

/// Writes the head of a tree file, which the nodes follow.
pub fn write_tree_head(params: &Params, id: &KeyId, out: &mut [u8; 32])
    ensures { out.new ≡ tree_head params.now id.now }
{
    write_head(TREE_MAGIC, &[0; 3], params, id, out);
}
