//! How reference files are read and written.

ghost use Rattle.std.specs.Prelude.{◌≡◌, ℕ, List, ◌+◌, ◌*◌, ◌^◌, None, Some, OnOk, IfOk, IfErr, IsOkAnd};
ghost use Rattle.share_files.specs.Reference.{HasReferenceLayout, SameHeader, length_of, reference_fault};
ghost use Rattle.mask_prf.specs.Lengths.{leaf_length};
ghost use Rattle.share_files.specs.Reference.{reference_head, reference_head_fault, reference_length};
ghost use Rattle.share_files.specs.Sets.{CanBeDealt};
ghost use Rattle.share_files.specs.declared.reference.RefHeader.{RefHeader};

use crate::faults::FileFault;
use crate::head::{check_front, check_length};
use crate::plan_head::{read_plan_head, write_plan_head};
use crate::reference::{RefHeader, RefView};
use lms_bytes::Params;
use lms_bytes::bytes::part;
use mask_prf::{HEAD, leaf_bytes};

/// What a reference file begins with.
const REFERENCE_MAGIC: &[u8; 4] = b"TLRF";

/// Reads the head of a reference file of this length in bytes.
#[tactic(auto, unfolding(crate::specs::Reference::reference_head_fault, crate::specs::Head::first_fault))]
pub fn read_ref_header(head: &[u8; 32], file_length: u64) -> Result<RefHeader, FileFault>
    ensures header { IfOk result (λ header. head.now ≡ reference_head header) }
    ensures size { IfOk result (λ header. file_length ≡ reference_length header) }
    ensures dealt { IfOk result (λ header. CanBeDealt header.params) }
    ensures read { (header : RefHeader) → CanBeDealt header.params → head.now ≡ reference_head header
        → file_length ≡ reference_length header → IsOkAnd result (SameHeader header) }
    ensures faultless { OnOk result (reference_head_fault head.now file_length ≡ None) }
    ensures refused { IfErr result (λ fault. reference_head_fault head.now file_length ≡ Some fault) }
{
    let header = read_plan_head(REFERENCE_MAGIC, head)?;
    check_length(file_length, length_of_file(&header))?;
    Ok(header)
}

/// Reads a reference file that is all of `bytes`. The leaves are borrowed from `bytes`.
pub fn read_reference<'a>(bytes: &'a [u8]) -> Result<RefView<'a>, FileFault>
    ensures layout { IfOk result (λ view. HasReferenceLayout view.header bytes.now view.leaves.now) }
    ensures read { (header : RefHeader) (leaves : List ℕ) → HasReferenceLayout header bytes.now leaves
        → IsOkAnd result (λ view. SameHeader header view.header × (view.leaves.now ≡ leaves)) }
    ensures faultless { OnOk result (reference_fault bytes.now ≡ None) }
    ensures refused { IfErr result (λ fault. reference_fault bytes.now ≡ Some fault) }
{
    check_front(bytes, HEAD)?;
    let mut head = [0; HEAD];
    head.copy_from_slice(part(bytes, 0, HEAD));
    Ok(RefView {
        header: read_ref_header(&head, bytes.len() as u64)?,
        leaves: part(bytes, HEAD, bytes.len() - HEAD),
    })
}

/// Writes the head of a reference file, which the leaves follow.
pub fn write_ref_head(header: &RefHeader, out: &mut [u8; 32])
    ensures { out.new ≡ reference_head header.now }
{
    write_plan_head(REFERENCE_MAGIC, header, out);
}

/// How long the file with this header is, in bytes.
fn length_of_file(header: &RefHeader) -> u64
    ensures length { result ≡ reference_length header.now }
    ensures codes { result ≡ length_of header.now.params.lms header.now.params.ots header.now.plan.k }
{
    length_of_reference(&header.params, header.plan.k())
}

/// How long the reference file of a parameter set and a threshold is, in bytes.
pub fn length_of_reference(params: &Params, k: u8) -> u64
    ensures { result ≡ 32 + leaf_length params.now k * 2 ^ params.now.h }
{
    HEAD as u64 + leaf_bytes(params, k) as u64 * u64::from(params.leaves())
}
