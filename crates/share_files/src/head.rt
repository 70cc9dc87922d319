//! The 32 bytes with which each file of a dealing begins.

ghost use Rattle.std.specs.Prelude.{◌≡◌, ◌↔◌, ◌<◌, ◌≤◌, [], ◌∷◌, length, slice_index, take, drop, None, false};
ghost use Rattle.std.specs.Prelude.{Some, OnOk, IfOk, IfErr, IfSome, is_some};
ghost use Rattle.lms_bytes.specs.Bytes.{bytes_at};
ghost use Rattle.share_files.specs.Head.{has_version, head_bytes, head_fault, length_fault, lms_at, ots_at};
ghost use Rattle.share_files.specs.Head.{code_fault, first_fault, plan_fault, short_fault, version_fault, zero_fault};
ghost use Rattle.share_files.specs.Sets.{CanBeDealt, IsSmall, version_of};

use crate::faults::FileFault;
use coalition_map::Plan;
use lms_bytes::bytes::{part, put, u32_at};
use lms_bytes::{KeyId, Params};

/// What all heads have: the parameter set, and the identifier of the key.
#[derive(Clone, Copy)]
pub(crate) struct Head {
    pub(crate) params: Params,
    pub(crate) id: KeyId,
    ghost id_length: { length id ≡ 16 },
}

/// Whether a file has the bytes of its head.
pub(crate) fn check_front(bytes: &[u8], want: usize) -> Result<(), FileFault>
    ensures room { OnOk result (want ≤ length bytes.now) }
    ensures faultless { OnOk result (short_fault want bytes.now ≡ None) }
    ensures refused { IfErr result (λ fault. short_fault want bytes.now ≡ Some fault) }
{
    if bytes.len() < want {
        return Err(FileFault::Length {
            got: bytes.len() as u64,
            want: want as u64,
        });
    }
    Ok(())
}

/// Whether a length is the right one.
pub(crate) fn check_length(got: u64, want: u64) -> Result<(), FileFault>
    ensures length { OnOk result (got ≡ want) }
    ensures faultless { OnOk result (length_fault got want ≡ None) }
    ensures refused { IfErr result (λ fault. length_fault got want ≡ Some fault) }
{
    if got != want {
        return Err(FileFault::Length { got, want });
    }
    Ok(())
}

/// Whether the byte at a place is zero.
pub(crate) fn check_zero(bytes: &[u8], place: usize) -> Result<(), FileFault>
    requires { place < length bytes.now }
    ensures zero { OnOk result (slice_index bytes.now place ≡ 0) }
    ensures faultless { OnOk result (zero_fault place bytes.now ≡ None) }
    ensures refused { IfErr result (λ fault. zero_fault place bytes.now ≡ Some fault) }
{
    let got = bytes[place];
    if got != 0 {
        return Err(FileFault::Number { got });
    }
    Ok(())
}

/// Reads what all heads have, after the magic of the file's kind.
pub(crate) fn read_head(magic: &[u8; 4], bytes: &[u8]) -> Result<Head, FileFault>
    requires { 32 ≤ length bytes.now }
    ensures head { IfOk result (λ head. take 32 bytes.now ≡ head_bytes magic.now
        (slice_index bytes.now 5 ∷ slice_index bytes.now 6 ∷ slice_index bytes.now 7 ∷ []) head.params head.id) }
    ensures codes { IfOk result (λ head. (head.params.lms ≡ lms_at bytes.now) × (head.params.ots ≡ ots_at bytes.now)) }
    ensures id { IfOk result (λ head. head.id ≡ bytes_at bytes.now 16 16) }
    ensures dealt { IfOk result (λ head. CanBeDealt head.params) }
    ensures faultless { OnOk result (head_fault magic.now bytes.now ≡ None) }
    ensures refused { IfErr result (λ fault. head_fault magic.now bytes.now ≡ Some fault) }
{
    if part(bytes, 0, 4) != magic.as_slice() {
        return Err(FileFault::Magic);
    }
    let Some(params) = find_params(bytes) else {
        return Err(refused_codes(bytes));
    };
    let mut id = [0; 16];
    id.copy_from_slice(part(bytes, 16, 16));
    Ok(Head { params, id })
}

/// The parameter set of the typecodes of a head, if it can be dealt and the head has the version of its files.
fn find_params(bytes: &[u8]) -> Option<Params>
    requires { 32 ≤ length bytes.now }
    ensures found { is_some result ≡ has_version bytes.now }
    ensures codes { IfSome result (λ params. (params.lms ≡ lms_at bytes.now) × (params.ots ≡ ots_at bytes.now)) }
    ensures version { IfSome result (λ params. slice_index bytes.now 4 ≡ version_of params.lms params.ots) }
    ensures dealt { IfSome result (λ params. CanBeDealt params) }
{
    let Ok(params) = Params::of_codes(u32_at(bytes, 8), u32_at(bytes, 12)) else {
        return None;
    };
    if params.h <= 20 && version_of(&params) == bytes[4] {
        Some(params)
    } else {
        None
    }
}

/// Why a head is refused whose version is not that of its typecodes.
fn refused_codes(bytes: &[u8]) -> FileFault
    requires head { 32 ≤ length bytes.now }
    requires none { has_version bytes.now ≡ false }
    ensures { first_fault (version_fault bytes.now ∷ code_fault bytes.now ∷ []) ≡ Some result }
{
    if bytes[4] != 1 {
        return FileFault::Version { got: bytes[4] };
    }
    FileFault::Code {
        lms: u32_at(bytes, 8),
        ots: u32_at(bytes, 12),
    }
}

/// The version of the files of a parameter set: 1 for the small sets, and 2 for all others.
pub fn version_of(params: &Params) -> u8
    ensures version { result ≡ version_of params.now.lms params.now.ots }
    ensures small { (result ≡ 1) ↔ IsSmall params.now }
{
    if params.h < 10 || params.h == 10 && params.w < 8 {
        1
    } else {
        2
    }
}

/// Reads the plan of a head: k, then n.
pub(crate) fn read_plan(bytes: &[u8], params: &Params) -> Result<Plan, FileFault>
    requires head { 32 ≤ length bytes.now }
    requires codes { params.now.lms ≡ lms_at bytes.now }
    ensures plan { IfOk result (λ plan. plan
        ≡ record { n = slice_index bytes.now 7; k = slice_index bytes.now 6; h = params.now.h }) }
    ensures faultless { OnOk result (plan_fault bytes.now ≡ None) }
    ensures refused { IfErr result (λ fault. plan_fault bytes.now ≡ Some fault) }
{
    match Plan::new(bytes[7], bytes[6], params.h) {
        Ok(plan) => Ok(plan),
        Err(_) => Err(FileFault::Plan),
    }
}

/// Writes a head at the front of `out`, with three bytes of the file's own.
pub(crate) fn write_head(
    magic: &[u8; 4],
    own: &[u8; 3],
    params: &Params,
    id: &KeyId,
    out: &mut [u8],
)
    requires { 32 ≤ length out.old }
    ensures head { take 32 out.new ≡ head_bytes magic.now own.now params.now id.now }
    ensures rest { drop 32 out.new ≡ drop 32 out.old }
{
    put(out, 0, magic);
    put(out, 4, &[version_of(params)]);
    put(out, 5, own);
    put(out, 8, &params.lms.to_be_bytes());
    put(out, 12, &params.ots.to_be_bytes());
    put(out, 16, id);
}
