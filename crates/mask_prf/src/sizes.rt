//! How long the masked values of a leaf are, and the commitments to their masks, in bytes.

ghost use Rattle.std.specs.Prelude.{◌≡◌, ◌*◌, ◌≤◌, ◌^◌};
ghost use Rattle.mask_prf.specs.Lengths.{leaf_commits_length, leaf_length};

use lms_bytes::Params;

/// The length of the head that comes before them in a file.
pub const HEAD: usize = 32;

/// The length of a check tag.
pub const TAG: usize = 32;

/// The length of a commitment to a mask.
pub const COMMITMENT: usize = 32;

/// The length of a chain's cells in a leaf of the reference.
pub fn chain_bytes(params: &Params) -> usize
    ensures length { result ≡ params.now.n * 2 ^ params.now.w }
    ensures all { result * params.now.p ≤ 2170880 }
{
    (params.n as usize) << params.w
}

/// The length of a leaf of the reference, if each leaf has `k` members.
pub fn leaf_bytes(params: &Params, k: u8) -> usize
    ensures { result ≡ leaf_length params.now k }
{
    params.n as usize + TAG * k as usize + chain_bytes(params) * params.p as usize
}

/// The length of the commitments to a chain's masks in a leaf, if each leaf has `k` members.
pub fn chain_commits_bytes(params: &Params, k: u8) -> usize
    ensures length { result ≡ 32 * k * 2 ^ params.now.w }
    ensures small { result ≤ 2 ^ 21 }
{
    (COMMITMENT * k as usize) << params.w
}

/// The length of the commitments of a leaf, if each leaf has `k` members.
pub fn leaf_commits_bytes(params: &Params, k: u8) -> usize
    ensures { result ≡ leaf_commits_length params.now k }
{
    COMMITMENT * k as usize + chain_commits_bytes(params, k) * params.p as usize
}
