//! How the head of a commitment file is read and written.

ghost use Rattle.std.specs.Prelude.{◌≡◌, ◌+◌, ◌*◌, ◌^◌, None, Some, OnOk, IfOk, IfErr, IsOkAnd};
ghost use Rattle.share_files.specs.Commits.{commits_head, commits_head_fault, commits_length, commits_length_of};
ghost use Rattle.mask_prf.specs.Lengths.{leaf_commits_length};
ghost use Rattle.share_files.specs.Reference.{SameHeader};
ghost use Rattle.share_files.specs.Sets.{CanBeDealt};
ghost use Rattle.share_files.specs.declared.reference.RefHeader.{RefHeader};

use crate::faults::FileFault;
use crate::head::check_length;
use crate::plan_head::{read_plan_head, write_plan_head};
use crate::reference::RefHeader;
use lms_bytes::Params;
use mask_prf::{HEAD, leaf_commits_bytes};

/// What a commitment file begins with.
const COMMITS_MAGIC: &[u8; 4] = b"TLCM";

/// Reads the head of a commitment file of this length in bytes. It says the same as the head of a reference file.
#[tactic(auto, unfolding(crate::specs::Commits::commits_head_fault, crate::specs::Head::first_fault))]
pub fn read_commits_header(head: &[u8; 32], file_length: u64) -> Result<RefHeader, FileFault>
    ensures header { IfOk result (λ header. head.now ≡ commits_head header) }
    ensures size { IfOk result (λ header. file_length ≡ commits_length header.params header.plan) }
    ensures dealt { IfOk result (λ header. CanBeDealt header.params) }
    ensures read { (header : RefHeader) → CanBeDealt header.params → head.now ≡ commits_head header
        → file_length ≡ commits_length header.params header.plan → IsOkAnd result (SameHeader header) }
    ensures faultless { OnOk result (commits_head_fault head.now file_length ≡ None) }
    ensures refused { IfErr result (λ fault. commits_head_fault head.now file_length ≡ Some fault) }
{
    let header = read_plan_head(COMMITS_MAGIC, head)?;
    check_length(file_length, length_of_file(&header))?;
    Ok(header)
}

/// How long the file with this header is, in bytes.
fn length_of_file(header: &RefHeader) -> u64
    ensures length { result ≡ commits_length header.now.params header.now.plan }
    ensures codes { result ≡ commits_length_of header.now.params.lms header.now.params.ots header.now.plan.k }
{
    length_of_commits(&header.params, header.plan.k())
}

/// Writes the head of a commitment file, which the leaves follow.
pub fn write_commits_head(header: &RefHeader, out: &mut [u8; 32])
    ensures { out.new ≡ commits_head header.now }
{
    write_plan_head(COMMITS_MAGIC, header, out);
}

/// How long the commitment file of a parameter set and a threshold is, in bytes.
pub fn length_of_commits(params: &Params, k: u8) -> u64
    ensures { result ≡ 32 + leaf_commits_length params.now k * 2 ^ params.now.h }
{
    HEAD as u64 + leaf_commits_bytes(params, k) as u64 * u64::from(params.leaves())
}
