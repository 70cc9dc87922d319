//! What the value under a lock means.
#![tactic(auto)]

ghost use Rattle.std.specs.Prelude.{ℕ, List};

/// A value that stands for a list of entries.
///
/// What a turn does to the value may only add entries at the list's end and raise the number, and never changes the
/// name: `TurnLock::give` asks for it.
pub trait Kept {
    /// An entry.
    type Entry;

    /// What distinguishes one value from another for good.
    type Name;

    /// The entries that the value stands for.
    ghost entries: { Self → List Self.Entry };

    /// A number that never falls.
    ghost number: { Self → ℕ };

    /// A name that never changes.
    ghost name: { Self → Self.Name };
}
