//! Heads that say which coalition signs with which leaf.

ghost use Rattle.std.specs.Prelude.{◌≡◌, None, Some, OnOk, IfOk, IfErr, IsOkAnd};
ghost use Rattle.share_files.specs.Reference.{HasCodes, SameHeader, plan_head, plan_head_fault};
ghost use Rattle.share_files.specs.Sets.{CanBeDealt};
ghost use Rattle.share_files.specs.declared.reference.RefHeader.{RefHeader};

use crate::faults::FileFault;
use crate::head::{check_zero, read_head, read_plan, write_head};
use crate::reference::RefHeader;

/// Reads a head with a plan, whatever the length of its file.
#[tactic(auto, unfolding(crate::specs::Reference::plan_head_fault, crate::specs::Head::first_fault))]
pub(crate) fn read_plan_head(magic: &[u8; 4], head: &[u8; 32]) -> Result<RefHeader, FileFault>
    ensures header { IfOk result (λ header. head.now ≡ plan_head magic.now header) }
    ensures codes { IfOk result (HasCodes head.now) }
    ensures dealt { IfOk result (λ header. CanBeDealt header.params) }
    ensures read { (header : RefHeader) → CanBeDealt header.params → head.now ≡ plan_head magic.now header
        → IsOkAnd result (SameHeader header) }
    ensures faultless { OnOk result (plan_head_fault magic.now head.now ≡ None) }
    ensures refused { IfErr result (λ fault. plan_head_fault magic.now head.now ≡ Some fault) }
{
    let found = read_head(magic, head)?;
    let plan = read_plan(head, &found.params)?;
    check_zero(head, 5)?;
    Ok(RefHeader {
        params: found.params,
        plan,
        id: found.id,
    })
}

/// Writes a head with a plan.
pub(crate) fn write_plan_head(magic: &[u8; 4], header: &RefHeader, out: &mut [u8; 32])
    ensures { out.new ≡ plan_head magic.now header.now }
{
    let own = [0, header.plan.k(), header.plan.n()];
    write_head(magic, &own, &header.params, &header.id, out);
}
