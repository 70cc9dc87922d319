//! The parameter sets: what the typecodes of LM-OTS and LMS stand for.

ghost use Rattle.std.specs.Prelude.{◌≡◌, ◌+◌, ◌-◌, ◌*◌, ◌/◌, ◌^◌, ◌<◌, ◌≤◌, Some, None, IfSome, IfOk, IfErr};
ghost use Rattle.lms_bytes.specs.HashLength.{IsHashLength, IsHashLength-prop, IsDigitWidth, IsDigitWidth-prop};
ghost use Rattle.lms_bytes.specs.ParameterSets.{LmotsBounds, lmots_row, lms_row};

use crate::faults::KeyFault;

/// What an LM-OTS typecode stands for (RFC 8554 section 4.1).
#[derive(Clone, Copy, Debug, PartialEq, Eq)]
pub struct LmotsRow {
    /// The length of hash values, in bytes.
    pub n: u8,
    /// The width of the Winternitz digits, in bits.
    pub w: u8,
    /// The number of chains.
    pub p: u16,
    /// How far the checksum is shifted to the left, in bits.
    pub ls: u8,
}

/// What an LMS typecode stands for (RFC 8554 section 5.1).
#[derive(Clone, Copy, Debug, PartialEq, Eq)]
pub struct LmsRow {
    /// The length of tree nodes, in bytes.
    pub m: u8,
    /// The height of the tree.
    pub h: u8,
}

/// A parameter set: an LMS typecode with an LM-OTS typecode of the same hash length.
#[derive(Clone, Copy, Debug, PartialEq, Eq)]
pub struct Params {
    /// The LMS typecode.
    pub lms: u32,
    /// The LM-OTS typecode.
    pub ots: u32,
    /// The length of hash values and nodes, in bytes.
    pub n: u8,
    /// The width of the Winternitz digits, in bits.
    pub w: u8,
    /// The number of chains.
    pub p: u16,
    /// How far the checksum is shifted to the left, in bits.
    pub ls: u8,
    /// The height of the tree.
    pub h: u8,
    pub ghost lms_is: { lms_row lms ≡ Some (record { m = n; h = h }) },
    pub ghost ots_is: { lmots_row ots ≡ Some (record { n = n; w = w; p = p; ls = ls }) },
    pub ghost hash_length: { IsHashLength n } by { IsHashLength-prop n },
    pub ghost digit_width: { IsDigitWidth w } by { IsDigitWidth-prop w },
    pub ghost lms_small: { lms ≤ 14 },
    pub ghost ots_small: { ots ≤ 8 },
    pub ghost height: { h ≤ 25 },
    pub ghost checksum_shift: { ls ≤ 8 },
    pub ghost digest_digits: { 8 * n / w ≤ p },
    pub ghost checksum_digits: { p * w ≤ 8 * n + 16 },
    pub ghost checksum_fits: { 8 * n / w * (2 ^ w - 1) * 2 ^ ls < 2 ^ 16 },
    pub ghost chains_length: { p * n ≤ 8480 },
    pub ghost path_length: { h * n ≤ 800 },
    pub ghost digit_count: { 2 ^ w ≤ 256 },
    pub ghost leaf_count: { 2 ^ h ≤ 2 ^ 25 },
}

/// The row of an LM-OTS typecode.
#[tactic(auto, unfolding(crate::specs::ParameterSets::lmots_row))]
fn find_lmots_row(code: u32) -> Option<LmotsRow>
    ensures row { result ≡ lmots_row code }
    ensures bounds { IfSome result (LmotsBounds code) }
{
    let (n, w, p, ls) = match code {
        1 => (32, 1, 265, 7),
        2 => (32, 2, 133, 6),
        3 => (32, 4, 67, 4),
        4 => (32, 8, 34, 0),
        5 => (24, 1, 200, 8),
        6 => (24, 2, 101, 6),
        7 => (24, 4, 51, 4),
        8 => (24, 8, 26, 0),
        _ => return None,
    };
    Some(LmotsRow { n, w, p, ls })
}

/// The row of an LMS typecode.
#[tactic(auto, unfolding(crate::specs::ParameterSets::lms_row))]
fn find_lms_row(code: u32) -> Option<LmsRow>
    ensures row { result ≡ lms_row code }
    ensures small { IfSome result (λ _. code ≤ 14) }
    ensures height { IfSome result (λ r. r.h ≤ 25) }
    ensures path_length { IfSome result (λ r. r.h * r.m ≤ 800) }
    ensures leaf_count { IfSome result (λ r. 2 ^ r.h ≤ 2 ^ 25) }
{
    let (m, h) = match code {
        5 => (32, 5),
        6 => (32, 10),
        7 => (32, 15),
        8 => (32, 20),
        9 => (32, 25),
        10 => (24, 5),
        11 => (24, 10),
        12 => (24, 15),
        13 => (24, 20),
        14 => (24, 25),
        _ => return None,
    };
    Some(LmsRow { m, h })
}

impl Params {
    ghost use Rattle.lms_bytes.specs.Params.{codes_fault};

    /// The parameter set of these typecodes, LMS first.
    #[tactic(auto, unfolding(crate::specs::Params::codes_fault))]
    pub fn of_codes(lms: u32, ots: u32) -> Result<Params, KeyFault>
        ensures codes { IfOk result (λ params. (params.lms ≡ lms) × (params.ots ≡ ots)) }
        ensures accepted { IfOk result (λ _. codes_fault lms ots ≡ None) }
        ensures refused { IfErr result (λ fault. codes_fault lms ots ≡ Some fault) }
    {
        let Some(tree) = find_lms_row(lms) else {
            return Err(KeyFault::UnknownLms { code: lms });
        };
        let Some(chains) = find_lmots_row(ots) else {
            return Err(KeyFault::UnknownOts { code: ots });
        };
        if chains.n != tree.m {
            return Err(KeyFault::MixedWidths);
        }
        let LmotsRow { n, w, p, ls } = chains;
        Ok(Params {
            lms,
            ots,
            n,
            w,
            p,
            ls,
            h: tree.h,
        })
    }

    /// The number of leaves, 2^h.
    pub fn leaves(&self) -> u32
        ensures { result ≡ 2 ^ self.now.h }
    {
        1 << self.h
    }

    /// The greatest digit, 2^w - 1, which is also the number of steps in a chain.
    pub fn greatest_digit(&self) -> u16
        ensures { result ≡ 2 ^ self.now.w - 1 }
    {
        (1 << self.w) - 1
    }
}
