//! The reference file.

ghost use Rattle.std.specs.Prelude.{◌≡◌, length};
ghost use Rattle.coalition_map.specs.Coalitions.{IsPlan};

use coalition_map::Plan;
use lms_bytes::{KeyId, Params};

/// What the head of a reference file says.
#[derive(Clone, Copy, Debug, PartialEq, Eq)]
pub struct RefHeader {
    pub params: Params,
    /// Which coalition signs with which leaf. Its height is the set's.
    pub plan: Plan,
    /// The identifier of the key.
    pub id: KeyId,
    pub ghost plan_is: { IsPlan plan },
    pub ghost height: { plan.h ≡ params.h },
    pub ghost id_length: { length id ≡ 16 },
}

/// The parts of a reference file, where they lie.
#[derive(Clone, Copy, Debug, PartialEq, Eq)]
pub struct RefView<'a> {
    pub header: RefHeader,
    /// The leaves 0 to 2^h - 1.
    pub leaves: &'a [u8],
}
