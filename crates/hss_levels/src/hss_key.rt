//! HSS public keys.

ghost use Rattle.std.specs.Prelude.{◌≤◌};

use lms_bytes::PublicKey;

/// An HSS public key (RFC 8554 section 6.1).
#[derive(Clone, Copy, Debug, PartialEq, Eq)]
pub struct HssKey {
    /// The number of levels L, 1 to 8.
    pub levels: u8,
    /// The LMS public key of the top level.
    pub top: PublicKey,
    pub ghost first: { 1 ≤ levels },
    pub ghost last: { levels ≤ 8 },
}
