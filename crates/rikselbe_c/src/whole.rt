//! Verification of messages that lie in memory as a whole.

ghost use Rattle.std.specs.Prelude.{◌≡◌, ℕ};
ghost use Rattle.rikselbe_c.specs.Answers.{IsHssVerified, IsLmsVerified};

use crate::answers::{of_hss, of_hss_key, of_lms, of_lms_key};
use hss_levels::{hss_verify, read_hss_key};
use lms_bytes::read_public;
use lms_verify::verify;

/// Verifies an LMS signature (RFC 8554 section 5.4.2, Algorithm 6): 0 if it is accepted, and then `leaf` is the leaf
/// that signed.
#[unsafe(no_mangle)]
pub extern "C" fn rikselbe_lms_verify(
    key: &[u8],
    message: &[u8],
    signature: &[u8],
    leaf: &mut u32,
) -> u32
    ensures verified { IsLmsVerified key.now message.now signature.now leaf.old result leaf.new }
    ensures alone { (number new : ℕ) → IsLmsVerified key.now message.now signature.now leaf.old number new
        → (number ≡ result) × (new ≡ leaf.new) }
{
    match read_public(key) {
        Ok(key) => of_lms(&verify(&key, message, signature), leaf),
        Err(fault) => of_lms_key(&fault),
    }
}

/// Verifies an HSS signature (RFC 8554 section 6.3): 0 if it is accepted.
#[unsafe(no_mangle)]
pub extern "C" fn rikselbe_hss_verify(key: &[u8], message: &[u8], signature: &[u8]) -> u32
    ensures verified { IsHssVerified key.now message.now signature.now result }
    ensures alone { (number : ℕ) → IsHssVerified key.now message.now signature.now number → number ≡ result }
{
    match read_hss_key(key) {
        Ok(key) => of_hss(&hss_verify(&key, message, signature)),
        Err(fault) => of_hss_key(&fault),
    }
}
