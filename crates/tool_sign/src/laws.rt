//! What follows from the definitions. No function here does anything.

ghost use Rattle.std.specs.Prelude.{◌≡◌, ℕ, List, Ok, Result};
ghost use Rattle.aggregator_session.specs.Desks.{DeskState};
ghost use Rattle.aggregator_session.specs.Runs.{CellsRead, HasRun};
ghost use Rattle.aggregator_session.specs.declared.fault.SignFault.{SignFault};
ghost use Rattle.disk_trait.specs.Faults.{Rose};
ghost use Rattle.aggregator_session.specs.Signing.{Signature};
ghost use Rattle.aggregator_session.specs.Tables.{TableSeen};
ghost use Rattle.lms_verify.specs.UndividedKey.{UndividedKey, rfc_signature};
ghost use Rattle.reference_value.specs.Dealing.{Dealing, leaf_randomizer};
ghost use Rattle.session_core.specs.State.{State};
ghost use Rattle.stream_io.specs.Net.{PortState};
ghost use Rattle.tool_base.specs.Ending as ending;
ghost use Rattle.tool_base.specs.World.{from_to};
ghost use Rattle.tool_base.specs.declared.unsigned.Unsigned.TheVariants.{Missing};
ghost use Rattle.tool_sign.specs.Causes.{FailuresAreCounted, OnlyWhere};
ghost use Rattle.tool_sign.specs.Dealt.{IsDealt};
ghost use Rattle.tool_sign.specs.HssSign.{HssSigningRun};
ghost use Rattle.tool_sign.specs.Ports.{NetRun, SignedOver, Signing};
ghost use Rattle.tool_sign.specs.Lost.{LostByCall, MissesReply};
ghost use Rattle.tool_sign.specs.LostLower.{MissesLower};
ghost use Rattle.tool_sign.specs.Sign.{SigningRun};

use stream_io::Store;

/// The causes of four ends of `sign`: the store fails only if its count of faults rose, a device only if that of its
/// disks and views rose, and the net only if its count of failed ports rose (`failed`). A member is lost only if the
/// net's count of faults rose, or because its link ended before a reply, what it sent is no frame of a reply, or no
/// address names it (`lost`): in a session, that it could not be dialled, written to or read is the cause only if that
/// count rose (`links`). Over a steady net whose links have room for the asks of the longest message, a member is lost
/// only because nobody could be dialled, because its link ended or what it sent is no frame of a reply, or because no
/// address names it, and never by a write or a read that failed (`peer` of `MissesReply`).
pub fn causes<S: Store>(before: &S, after: &S)
    ensures failed { FailuresAreCounted SigningRun (from_to (S.state before.now) (S.state after.now)) }
    ensures lost { (member round : ℕ) → let run = from_to (S.state before.now) (S.state after.now) in
        OnlyWhere SigningRun run (ending.NotSigned (Missing member round))
        (λ words net. MissesReply words run net member round) }
    ensures links { (signing : Signing) (old new : TableSeen) (net : NetRun) (outcome : Result Signature SignFault)
        → SignedOver signing old new net outcome → LostByCall outcome → Rose net.before.count net.after.count }
{}

/// The causes of four ends of `hss sign`: the store fails only if its count of faults rose, a device only if that of
/// its disks and views rose, and the net only if its count of failed ports rose (`failed`). A member is lost only if
/// the net's count of faults rose, or because its link ended before a reply, what it sent is no frame of a reply, or no
/// address names it (`lost`). Over a steady net whose links have room for the asks of the longest message, a member is
/// lost only because nobody could be dialled, because its link ended or what it sent is no frame of a reply, or because
/// no address names it, and never by a write or a read that failed (`peer` of `MissesLower`).
pub fn hss_causes<S: Store>(before: &S, after: &S)
    ensures failed { FailuresAreCounted HssSigningRun (from_to (S.state before.now) (S.state after.now)) }
    ensures lost { (member round : ℕ) → let run = from_to (S.state before.now) (S.state after.now) in
        OnlyWhere HssSigningRun run (ending.NotSigned (Missing member round))
        (λ words net. MissesLower words run net member round) }
{}

/// A signature of a session over what a dealer made is that of the undivided key, for the session's leaf, the dealer's
/// randomizer and the message.
pub fn dealt_signature()
    ensures { (d : Dealing) (key : UndividedKey) (desk : DeskState) (reads : CellsRead) (message : List ℕ)
        (before now : PortState) (s last : State) (bytes : List ℕ)
        → HasRun desk reads message before now s last (Ok bytes) → IsDealt d key reads desk.tree message s last
        → bytes ≡ rfc_signature key s.leaf (leaf_randomizer d s.leaf) message }
{}
