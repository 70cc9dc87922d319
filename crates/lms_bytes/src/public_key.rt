//! Public keys.

ghost use Rattle.std.specs.Prelude.{◌≡◌, length};

use crate::params::Params;
use crate::val::Val;

/// The identifier I of a key (RFC 8554 section 5.3).
pub type KeyId = [u8; 16];

/// An LMS public key (RFC 8554 section 5.3).
#[derive(Clone, Copy, Debug, PartialEq, Eq)]
pub struct PublicKey {
    pub params: Params,
    pub id: KeyId,
    /// The node T[1], of the set's hash length.
    pub root: Val,
    pub ghost id_length: { length id ≡ 16 },
    pub ghost root_length: { length root ≡ params.n },
}
