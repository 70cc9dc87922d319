//! What follows from the definitions. No function here does anything.

ghost use Rattle.std.specs.Prelude.{ℕ, All, IsTrue, List, Option, map};
ghost use Rattle.aggregator_node.specs.Ports.{Place, ServedClients};
ghost use Rattle.aggregator_node.specs.Roomy.{HasRoomyLinks, NoLinkFails, TakesAll};
ghost use Rattle.aggregator_session.specs.Desks.{DeskState};
ghost use Rattle.aggregator_session.specs.Tables.{TableSeen};
ghost use Rattle.stream_io.specs.Net.{IsNewPort, NetState};
ghost use Rattle.stream_io.specs.declared.totals.Totals.{Totals};

/// Over steady ports whose links have room for 65,536 of the longest replies of the key's parameter set, no client's
/// connection ended because a link failed. New ports of a steady net with that room are such ports.
pub fn no_link_fails()
    ensures ports { (desk : DeskState) (asked : ℕ) (old new : TableSeen) (before after : List Place) (totals : Totals)
        → (all : ServedClients desk asked old new before after totals)
        → All (HasRoomyLinks desk.key.params) before → NoLinkFails all.runs }
    ensures net { (desk : DeskState) (asked : ℕ) (old new : TableSeen) (before after : List Place) (totals : Totals)
        (net : NetState) (place : Option (List ℕ)) → (all : ServedClients desk asked old new before after totals)
        → IsTrue net.steady → TakesAll desk.key.params net.room
        → All (IsNewPort net place) (map (λ (one : Place). one.port) before) → NoLinkFails all.runs }
{}
