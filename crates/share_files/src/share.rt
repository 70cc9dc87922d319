//! The shares of trustees.

ghost use Rattle.std.specs.Prelude.{◌≡◌, ◌≤◌, length};
ghost use Rattle.coalition_map.specs.Coalitions.{IsPlan};

use coalition_map::Plan;
use lms_bytes::{KeyId, Params};

/// What a trustee gets. It is not printed: the key is secret.
#[derive(Clone, Copy, PartialEq, Eq)]
pub struct Share {
    /// The number of the trustee, from 1 on.
    pub member: u8,
    /// Which coalition signs with which leaf. Its height is the set's.
    pub plan: Plan,
    pub params: Params,
    /// The identifier of the key.
    pub id: KeyId,
    /// The trustee's mask key.
    pub key: [u8; 32],
    pub ghost first: { 1 ≤ member },
    pub ghost last: { member ≤ plan.n },
    pub ghost plan_is: { IsPlan plan },
    pub ghost height: { plan.h ≡ params.h },
    pub ghost id_length: { length id ≡ 16 },
    pub ghost key_length: { length key ≡ 32 },
}
