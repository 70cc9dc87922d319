//! Hash values.

ghost use Rattle.std.specs.Prelude.{◌≡◌, ℕ, ◌-◌, length, take};
ghost use Rattle.lms_bytes.specs.Bytes.{xor};
ghost use Rattle.lms_bytes.specs.HashLength.{IsHashLength};

use std::marker::Model;

/// A hash value of 24 or 32 bytes: a chain value, a node, a digest, a randomizer or a mask.
#[derive(Clone, Copy, Debug)]
pub struct Val {
    bytes: [u8; 32],
    length: u8,
}

impl Model for Val {
    ghost use Rattle.std.specs.Prelude.{ℕ, List, take};

    ghost Value = { List ℕ };

    ghost use Rattle.lms_bytes.specs.Val.{filled, IsFilled, filled-view};

    ghost view = { λ v. take v.length v.bytes };

    ghost invariant = { IsFilled };

    ghost inverse = { filled };

    ghost inverse_ok = { filled-view };
}

impl PartialEq for Val {
    ghost use Rattle.std.specs.Str.{bytes_eq};
    ghost use Rattle.std.specs.Cmp.Rules.{comparing};
    ghost use Rattle.std.proofs.Common.{rules};

    ghost eq = { bytes_eq };

    ghost laws = { Prim.search (comparing, rules) };

    fn eq(&self, other: &Val) -> bool {
        self.bytes() == other.bytes()
    }
}

impl Eq for Val {
    ghost use Rattle.std.specs.Cmp.Rules.{comparing};
    ghost use Rattle.std.proofs.Common.{rules};

    ghost laws = { Prim.search (comparing, rules) };
}

impl Val {
    /// The value of these 24 or 32 bytes.
    pub fn of(bytes: &[u8]) -> Val
        requires { IsHashLength (length bytes.now) }
        ensures { result ≡ bytes.now }
    {
        let mut out = [0; 32];
        out[..bytes.len()].copy_from_slice(bytes);
        Val {
            bytes: out,
            length: bytes.len() as u8,
        }
    }

    /// The first `n` bytes of a digest.
    pub fn cut(digest: &[u8; 32], n: u8) -> Val
        requires { IsHashLength n }
        ensures bytes { result ≡ take n digest.now }
        ensures length { length result ≡ n }
    {
        Val::of(&digest[..n as usize])
    }

    /// Its bytes.
    pub fn bytes(&self) -> &[u8]
        ensures bytes { result.now ≡ self.now }
        ensures hash_length { IsHashLength (length self.now) }
    {
        &self.bytes[..self.length as usize]
    }

    /// Each byte XOR the other's byte at the same place.
    pub fn xor(&self, other: &Val) -> Val
        requires { length self.now ≡ length other.now }
        ensures { result ≡ xor self.now other.now }
    {
        let mut out = [0; 32];
        let (left, right) = (self.bytes(), other.bytes());
        write_xor(left, right, &mut out[..left.len()]);
        Val {
            bytes: out,
            length: left.len() as u8,
        }
    }
}

/// Writes each byte of `left` XOR the byte of `right` at the same place.
fn write_xor(left: &[u8], right: &[u8], out: &mut [u8])
    requires others { length left.now ≡ length right.now }
    requires room { length left.now ≡ length out.old }
    ensures { out.new ≡ xor left.now right.now }
{
    for i in 0..left.len() {
        out[i] = left[i] ^ right[i];
    }
}
