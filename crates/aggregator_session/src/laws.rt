//! What follows from the definitions. No function here does anything.

ghost use Rattle.std.specs.Prelude.{ℕ, List, IsTrue, Result};
ghost use Rattle.aggregator_session.specs.Desks.{DeskState};
ghost use Rattle.aggregator_session.specs.Faults.{LostBy};
ghost use Rattle.aggregator_session.specs.Reaching.{Reachable};
ghost use Rattle.aggregator_session.specs.Runs.{CellsRead, SignRun};
ghost use Rattle.aggregator_session.specs.Tasks.{AllEnded};
ghost use Rattle.aggregator_session.specs.Written.{Written};
ghost use Rattle.aggregator_session.specs.declared.fault.SignFault.{SignFault};
ghost use Rattle.aggregator_session.specs.declared.fault.Why.TheVariants.{DialFailed};
ghost use Rattle.coalition_map.specs.Coalitions.{leaf_members};
ghost use Rattle.session_core.specs.State.{State};
ghost use Rattle.stream_io.specs.Net.{PortState};
ghost use Rattle.stream_io.specs.Talk.{Talk};

/// What a session writes on its links, as they end, if the port tells its content: the ask of round one on each, and
/// the ask of round two after it on the first of them, and only if all members answered round one with masks.
pub fn written()
    ensures { (desk : DeskState) (reads : CellsRead) (message : List ℕ) (port : PortState) (s last : State)
        (talks lasts : List Talk) (result : Result (List ℕ) SignFault)
        → SignRun desk reads message port s talks last result → AllEnded talks lasts → IsTrue port.told
        → Written desk.addresses reads message port s lasts }
{}

/// A session at a steady port that tells its content loses nobody by a failed dial, if somebody is there at the place
/// of each member and no two have the same place.
pub fn reached()
    ensures { (desk : DeskState) (reads : CellsRead) (message : List ℕ) (port : PortState) (s last : State)
        (talks : List Talk) (result : Result (List ℕ) SignFault)
        → SignRun desk reads message port s talks last result → IsTrue port.told → IsTrue port.steady
        → Reachable desk.addresses port.reaches (leaf_members s.plan s.leaf) → ¬ LostBy DialFailed result }
{}
