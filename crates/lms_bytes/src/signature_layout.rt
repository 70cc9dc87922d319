//! How LMS signatures are read and written.

ghost use Rattle.std.specs.Prelude.{◌≡◌, ◌+◌, ◌*◌, ◌^◌, ◌<◌, ◌≤◌, ℕ, List, length, take, drop};
ghost use Rattle.std.specs.Prelude.{None, IfNone, IfOk, OnOk, IfErr, IsOkAnd};
ghost use Rattle.lms_bytes.specs.Bytes.{u32str, str_to_u32, bytes_at};
ghost use Rattle.lms_bytes.specs.Signature.{HasLayout, signature_bytes, signature_fault, signature_length, tree_place};

use crate::bytes::{part, put, u32_at};
use crate::faults::SigFault;
use crate::params::Params;
use crate::val::Val;

/// The parts of an LMS signature, where they lie.
#[derive(Clone, Copy, Debug, PartialEq, Eq)]
pub struct SigView<'a> {
    /// The number q of the leaf that signed.
    pub leaf: u32,
    /// The randomizer C, n bytes.
    pub c: &'a [u8],
    /// The chain values y[0] to y[p - 1], n bytes each.
    pub chains: &'a [u8],
    /// The nodes path[0] to path[h - 1], n bytes each.
    pub path: &'a [u8],
}

/// Reads a signature that takes up all of `bytes`. The parts are borrowed from `bytes`.
pub fn read_signature<'a>(params: &Params, bytes: &'a [u8]) -> Result<SigView<'a>, SigFault>
    ensures layout { IfOk result (λ s. HasLayout params.now bytes.now s.leaf s.c.now s.chains.now s.path.now) }
    ensures read { (q : ℕ) (c y path : List ℕ) → HasLayout params.now bytes.now q c y path
        → IsOkAnd result (λ s. (s.leaf ≡ q) × (s.c.now ≡ c) × (s.chains.now ≡ y) × (s.path.now ≡ path)) }
    ensures faultless { OnOk result (signature_fault params.now bytes.now ≡ None) }
    ensures refused { IfErr result (λ fault. signature_fault params.now bytes.now ≡ Some fault) }
{
    if let Some(fault) = find_fault(params, bytes) {
        return Err(fault);
    }
    let n = params.n as usize;
    let chains_length = n * params.p as usize;
    let path_length = n * params.h as usize;
    Ok(SigView {
        leaf: u32_at(bytes, 0),
        c: part(bytes, 8, n),
        chains: part(bytes, 8 + n, chains_length),
        path: part(bytes, 8 + n + chains_length + 4, path_length),
    })
}

/// The first test that bytes fail as a signature (RFC 8554 section 5.4.2, Algorithm 6a, step 2).
#[tactic(auto, unfolding(crate::specs::Signature::signature_fault))]
fn find_fault(params: &Params, bytes: &[u8]) -> Option<SigFault>
    ensures fault { result ≡ signature_fault params.now bytes.now }
    ensures length { IfNone result (length bytes.now ≡ signature_length params.now) }
    ensures ots { IfNone result (u32str params.now.ots ≡ bytes_at bytes.now 4 4) }
    ensures lms { IfNone result (u32str params.now.lms ≡ bytes_at bytes.now (tree_place params.now) 4) }
    ensures leaf { IfNone result (str_to_u32 (bytes_at bytes.now 0 4) < 2 ^ params.now.h) }
{
    if bytes.len() < 8 {
        return Some(SigFault::Short);
    }
    let got = u32_at(bytes, 4);
    if got != params.ots {
        return Some(SigFault::OtsCode { got });
    }
    let n = params.n as usize;
    let tree = 8 + n * (params.p as usize + 1);
    if bytes.len() < tree + 4 {
        return Some(SigFault::TooShort { got: bytes.len() });
    }
    let got = u32_at(bytes, tree);
    if got != params.lms {
        return Some(SigFault::LmsCode { got });
    }
    let leaf = u32_at(bytes, 0);
    if leaf >= params.leaves() {
        return Some(SigFault::Leaf { q: leaf });
    }
    let want = tree + 4 + n * params.h as usize;
    if bytes.len() != want {
        return Some(SigFault::Length {
            got: bytes.len(),
            want,
        });
    }
    None
}

/// Writes the signature with these parts at the front of `out`, and answers its length.
pub fn write_layout(
    params: &Params,
    leaf: u32,
    c: &Val,
    chains: &[u8],
    path: &[u8],
    out: &mut [u8],
) -> usize
    requires c { length c.now ≡ params.now.n }
    requires chains { length chains.now ≡ params.now.n * params.now.p }
    requires path { length path.now ≡ params.now.n * params.now.h }
    requires room { signature_length params.now ≤ length out.old }
    ensures length { result ≡ signature_length params.now }
    ensures bytes { take result out.new ≡ signature_bytes params.now leaf c.now chains.now path.now }
    ensures rest { drop result out.new ≡ drop result out.old }
{
    let n = params.n as usize;
    let tree = 8 + n + chains.len();
    put(out, 0, &leaf.to_be_bytes());
    put(out, 4, &params.ots.to_be_bytes());
    put(out, 8, c.bytes());
    put(out, 8 + n, chains);
    put(out, tree, &params.lms.to_be_bytes());
    put(out, tree + 4, path);
    tree + 4 + path.len()
}
