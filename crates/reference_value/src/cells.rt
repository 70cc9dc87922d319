//! What a reference value is read through.

ghost use Rattle.std.specs.Prelude.{◌≡◌, ℕ, ◌<◌, ◌^◌, Bool, List, Contains, length, IsTrue, IsOk, IfOk};
ghost use Rattle.coalition_map.specs.Coalitions.{PlanNumbers, leaf_members};
ghost use Rattle.disk_trait.specs.Faults.{HasCause};
ghost use Rattle.lms_bytes.specs.declared.params.Params.{Params};
ghost use Rattle.reference_value.specs.Kinds.{StayAs};
ghost use Rattle.reference_value.specs.Places.{cell_in, randomizer_in, tag_in};
ghost use Rattle.mask_prf.specs.Lengths.{leaves_length};

use disk_trait::Faults;
use lms_bytes::Val;
use thiserror::Error;

/// A value of the reference could not be read.
#[derive(Clone, Copy, Debug, PartialEq, Eq, Error)]
#[error("a value of the reference could not be read")]
pub struct RefFault;

/// The masked values of a reference: of leaf `q` the cell of chain `i` after `j` steps, the randomizer, and the check
/// tags. A value of `n` bytes has the set's hash length.
pub trait Cells: Faults {
    /// The parameter set.
    ghost set: { Self → Params };

    /// The plan.
    ghost plan: { Self → PlanNumbers };

    /// Whether the content is told.
    ghost told: { Self → Bool };

    /// The leaves, one after the other, if they are told.
    ghost leaves: { Self → List ℕ };

    /// The cell of chain `i` of leaf `q` after `j` steps, `n` bytes.
    fn cell(&mut self, q: u32, i: u16, j: u8) -> Result<Val, RefFault>
        requires leaf { q < 2 ^ (set self.old).h }
        requires chain { i < (set self.old).p }
        requires step { j < 2 ^ (set self.old).w }
        ensures value { IsTrue (told self.old)
            → IfOk result (λ v. v ≡ cell_in (set self.old) (plan self.old) (leaves self.old) q i j) }
        ensures length { IfOk result (λ v. length v ≡ (set self.old).n) }
        ensures succeeds { IsTrue (Self.steady self.old) → IsTrue (told self.old)
            → length (leaves self.old) ≡ leaves_length (set self.old) (plan self.old) → IsOk result }
        ensures cause { HasCause (Self.count self.old) (Self.count self.new) result }

        ensures stays { StayAs set plan told Self.steady leaves self.old self.new };

    /// The randomizer of leaf `q`, masked, `n` bytes.
    fn randomizer(&mut self, q: u32) -> Result<Val, RefFault>
        requires { q < 2 ^ (set self.old).h }
        ensures value { IsTrue (told self.old)
            → IfOk result (λ v. v ≡ randomizer_in (set self.old) (plan self.old) (leaves self.old) q) }
        ensures length { IfOk result (λ v. length v ≡ (set self.old).n) }
        ensures succeeds { IsTrue (Self.steady self.old) → IsTrue (told self.old)
            → length (leaves self.old) ≡ leaves_length (set self.old) (plan self.old) → IsOk result }
        ensures cause { HasCause (Self.count self.old) (Self.count self.new) result }

        ensures stays { StayAs set plan told Self.steady leaves self.old self.new };

    /// The check tag of leaf `q` for its member `t`.
    fn tag(&mut self, q: u32, t: u8) -> Result<[u8; 32], RefFault>
        requires leaf { q < 2 ^ (set self.old).h }
        requires member { Contains (leaf_members (plan self.old) q) t }
        ensures value { IsTrue (told self.old)
            → IfOk result (λ v. v ≡ tag_in (set self.old) (plan self.old) (leaves self.old) q t) }
        ensures succeeds { IsTrue (Self.steady self.old) → IsTrue (told self.old)
            → length (leaves self.old) ≡ leaves_length (set self.old) (plan self.old) → IsOk result }
        ensures cause { HasCause (Self.count self.old) (Self.count self.new) result }

        ensures stays { StayAs set plan told Self.steady leaves self.old self.new };
}
