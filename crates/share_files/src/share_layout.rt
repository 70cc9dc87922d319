//! How shares are read and written.

ghost use Rattle.std.specs.Prelude.{◌≡◌, ◌≤◌, length, slice_index, None, Some, OnOk, IfOk, IfErr, IsOkAnd};
ghost use Rattle.share_files.specs.Sets.{CanBeDealt};
ghost use Rattle.share_files.specs.Share.{member_fault, share_bytes, share_fault, SameShare};
ghost use Rattle.share_files.specs.declared.share.Share.{Share};

use crate::faults::FileFault;
use crate::head::{check_front, check_length, read_head, read_plan, write_head};
use crate::share::Share;
use coalition_map::Plan;
use lms_bytes::bytes::{part, put};
use mask_prf::HEAD;

/// The length of a share file in bytes.
const SHARE: usize = 64;

/// What a share file begins with.
const SHARE_MAGIC: &[u8; 4] = b"TLSH";

/// Reads a share that is all of `bytes`.
pub fn read_share(bytes: &[u8]) -> Result<Share, FileFault>
    ensures share { IfOk result (λ share. bytes.now ≡ share_bytes share) }
    ensures dealt { IfOk result (λ share. CanBeDealt share.params) }
    ensures read { (share : Share) → CanBeDealt share.params → bytes.now ≡ share_bytes share
        → IsOkAnd result (SameShare share) }
    ensures faultless { OnOk result (share_fault bytes.now ≡ None) }
    ensures refused { IfErr result (λ fault. share_fault bytes.now ≡ Some fault) }
{
    check_front(bytes, SHARE)?;
    let head = read_head(SHARE_MAGIC, bytes)?;
    let plan = read_plan(bytes, &head.params)?;
    let member = read_member(bytes, &plan)?;
    check_length(bytes.len() as u64, SHARE as u64)?;
    let mut key = [0; 32];
    key.copy_from_slice(part(bytes, HEAD, 32));
    Ok(Share {
        member,
        plan,
        params: head.params,
        id: head.id,
        key,
    })
}

/// Reads the number of the trustee.
fn read_member(bytes: &[u8], plan: &Plan) -> Result<u8, FileFault>
    requires head { 32 ≤ length bytes.now }
    requires plan { plan.now.n ≡ slice_index bytes.now 7 }
    ensures member { IfOk result (λ member. member ≡ slice_index bytes.now 5) }
    ensures range { IfOk result (λ member. (1 ≤ member) × (member ≤ plan.now.n)) }
    ensures faultless { OnOk result (member_fault bytes.now ≡ None) }
    ensures refused { IfErr result (λ fault. member_fault bytes.now ≡ Some fault) }
{
    let got = bytes[5];
    if got < 1 || got > plan.n() {
        return Err(FileFault::Number { got });
    }
    Ok(got)
}

/// Writes a share file.
pub fn write_share(share: &Share, out: &mut [u8; 64])
    ensures { out.new ≡ share_bytes share.now }
{
    let own = [share.member, share.plan.k(), share.plan.n()];
    write_head(SHARE_MAGIC, &own, &share.params, &share.id, out);
    put(out, HEAD, &share.key);
}
