//! The Winternitz digits of a digest and of its checksum.

ghost use Rattle.std.specs.Prelude.{◌≡◌, ◌+◌, ◌-◌, ◌*◌, ◌/◌, ◌%◌, ◌^◌, ◌<◌, ◌≤◌, length};
ghost use Rattle.lms_bytes.specs.Digits.{coef, shortfall, checksum, digit_of};
ghost use Rattle.lms_bytes.specs.HashLength.{IsDigitWidth};

use crate::params::Params;
use crate::val::Val;

/// Digit `i` of the digest followed by its checksum (RFC 8554 section 4.5).
pub fn digit(params: &Params, digest: &Val, i: u16) -> u8
    requires index { i < params.now.p }
    requires digest { length digest.now ≡ params.now.n }
    ensures { result ≡ digit_of params.now digest.now i }
{
    let digest_digits = 8 * params.n as u16 / params.w as u16;
    if i < digest_digits {
        digit_in(digest.bytes(), i as usize, params.w)
    } else {
        let sum = checksum_of(params, digest);
        digit_in(&sum.to_be_bytes(), (i - digest_digits) as usize, params.w)
    }
}

/// The checksum of a digest (RFC 8554 section 4.4).
fn checksum_of(params: &Params, digest: &Val) -> u16
    requires { length digest.now ≡ params.now.n }
    ensures { result ≡ checksum params.now digest.now }
{
    let sum = shortfall_of(digest.bytes(), params.w, params.greatest_digit());
    sum << params.ls
}

/// Digit `i` of the string `s`, in digits of `w` bits (RFC 8554 section 3.1.3).
fn digit_in(s: &[u8], i: usize, w: u8) -> u8
    requires width { IsDigitWidth w }
    requires short { length s.now ≤ 32 }
    requires inside { i < 8 * length s.now / w }
    ensures { result ≡ coef s.now i w }
{
    let byte = s[i * w as usize / 8];
    let per_byte = 8 / w;
    let place = (i % per_byte as usize) as u8;
    let shifted = byte >> (8 - (w * place + w));
    if w == 8 {
        shifted
    } else {
        shifted & ((1 << w) - 1)
    }
}

/// How far the digits of `s` fall short of the greatest digit 2^w - 1, all together.
#[tactic(auto, unfolding(crate::specs::Digits::shortfall))]
fn shortfall_of(s: &[u8], w: u8, greatest: u16) -> u16
    requires width { IsDigitWidth w }
    requires greatest { greatest ≡ 2 ^ w - 1 }
    requires short { length s.now ≤ 32 }
    ensures { result ≡ shortfall s.now w (8 * length s.now / w) }
{
    let mut sum = 0;
    'digits: for i in 0..8 * s.len() / w as usize {
        sum += greatest - digit_in(s, i, w) as u16;
    }
    sum
}
