//! What follows from the definitions. No function here does anything.

ghost use Rattle.std.specs.Prelude.{ℕ, All, List, Option};
ghost use Rattle.opening_journal.specs.Entries.{IsLegalList};
ghost use Rattle.share_files.specs.declared.share.Share.{Share};
ghost use Rattle.trustee_core.specs.Lives.{OneOpening};
ghost use Rattle.trustee_node.specs.Places.{granted_in};
ghost use Rattle.trustee_node.specs.Ports.{HasRoomyLinks, NoLinkFails, PortsRun, ServedPorts, turns_in};
ghost use Rattle.trustee_node.specs.Trustees.{TrusteeState};
ghost use Rattle.stream_io.specs.declared.totals.Totals.{Totals};

/// All that was granted at all ports is of one opening if each entry of the trustee may follow those before it, as
/// `Trustee::end` says.
pub fn one_opening()
    ensures { (share : Share) (ids : Option (List (List ℕ))) (asked : ℕ) (old new : TrusteeState)
        (ports : PortsRun) (totals : Totals) → (all : ServedPorts share ids asked old new ports totals)
        → IsLegalList new.entries → OneOpening share (granted_in (turns_in all.runs)) }
{}

/// Over steady ports whose links have room for 65,536 of the longest replies of the share's parameter set, no
/// connection ended by a link that failed.
pub fn no_link_fails()
    ensures { (share : Share) (ids : Option (List (List ℕ))) (asked : ℕ) (old new : TrusteeState)
        (ports : PortsRun) (totals : Totals) → (all : ServedPorts share ids asked old new ports totals)
        → All (HasRoomyLinks share.params) ports.before → NoLinkFails all.runs }
{}
