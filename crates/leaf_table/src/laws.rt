//! What follows from the definitions. No function here does anything.

ghost use Rattle.std.specs.Prelude.{◌≡◌, ◌<◌, ℕ, List, length, slice_index_or};
ghost use Rattle.coalition_map.specs.Coalitions.{PlanNumbers};
ghost use Rattle.lms_bytes.specs.declared.message.MessageId.{MessageId};
ghost use Rattle.leaf_table.specs.Entries.{OneLease, map_of};
ghost use Rattle.leaf_table.specs.Runs.{Grows, KeepsOneLease, TableRun};
ghost use Rattle.leaf_table.specs.State.{TableState};
ghost use Rattle.leaf_table.specs.declared.lease.Lease.{Lease};

/// Whatever is leased and burnt, and however the table is stopped and loaded again: a table in which each leaf is for
/// one message keeps that, its leaves only go on, and no leaf is in two leases.
pub fn one_lease()
    ensures keeps { (plan : PlanNumbers) (before after : TableState) → TableRun plan before after
        → KeepsOneLease before → KeepsOneLease after }
    ensures grows { (plan : PlanNumbers) (before after : TableState) → TableRun plan before after
        → KeepsOneLease before → (leaf : ℕ) → Grows (map_of before.entries leaf) (map_of after.entries leaf) }
    ensures once { (entries : List Lease) (none : Lease) (i j leaf : ℕ) (one other : MessageId) → OneLease entries
        → i < length entries → j < length entries → slice_index_or entries i none ≡ Lease.Leased leaf one
        → slice_index_or entries j none ≡ Lease.Leased leaf other → i ≡ j }
{}
