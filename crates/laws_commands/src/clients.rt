//! What follows from the definitions. No function here does anything.

ghost use Rattle.aggregator_session.specs.Desks.{DeskState};
ghost use Rattle.laws_commands.specs.Every.{AllAnswered};
ghost use Rattle.laws_commands.specs.Requests.{IsComplete, IsDealtDesk, IsDealtRun, IsDealtTable, IsWell};
ghost use Rattle.laws_commands.specs.Uses.{LeasesAreLeft};
ghost use Rattle.aggregator_node.specs.Clients.{IsSigned, Request, Stand};
ghost use Rattle.aggregator_node.specs.Ports.{Place};
ghost use Rattle.lms_verify.specs.UndividedKey.{UndividedKey};
ghost use Rattle.reference_value.specs.Dealing.{Dealing};
ghost use Rattle.share_files.specs.declared.reference.RefHeader.{RefHeader};
ghost use Rattle.tool_base.specs.Ending.{Ending};
ghost use Rattle.tool_base.specs.World.{from_to};
ghost use Rattle.tool_aggregate.specs.Serving.{ServedTable};
ghost use Rattle.tool_sign.specs.Ports.{NetRun};
ghost use Rattle.tool_words.specs.Words.{AggregateWords};

use stream_io::Store;

/// Each request of a client came to a leaf, that of its signature if it has one, unless none was leased for it. What is
/// left of that leaf is its lease for the request's message, or its burning, whatever the outcome and the port. No two
/// requests whose messages have different ids came to one leaf.
pub fn leases_left<S: Store>(before: &S, after: &S)
    ensures { (words : AggregateWords) (net : NetRun) (header : RefHeader) (desk : DeskState) (end : Ending)
        (run : ServedTable words (from_to (S.state before.now) (S.state after.now)) net header desk end)
        → LeasesAreLeft run }
{}

/// A request of a client for which all is well, at desk and table of a dealing, comes to RFC 8554's signature of the
/// undivided key, for its leaf, the dealer's randomizer and the message; or memory runs out; or the pass of its worker
/// is worn.
pub fn answered<S: Store>(before: &S, after: &S)
    ensures { (words : AggregateWords) (header : RefHeader) (desk : DeskState) (d : Dealing) (key : UndividedKey)
        (place : Place) (old new : Stand) (request : Request)
        → IsDealtDesk words (from_to (S.state before.now) (S.state after.now)) d key header desk place
        → IsDealtTable d old.pass → (signed : IsSigned desk place.reference old new request)
        → IsWell words d key signed → IsComplete d key request.message new.pass request.outcome }
{}

/// In a run in which clients were served over the files of a dealing, every request of every client at every port for
/// which all is well comes to RFC 8554's signature of the undivided key, for its leaf, the dealer's randomizer and the
/// message; or memory runs out.
pub fn all_answered<S: Store>(before: &S, after: &S)
    ensures { (words : AggregateWords) (net : NetRun) (header : RefHeader) (desk : DeskState) (end : Ending)
        (d : Dealing) (key : UndividedKey)
        (run : ServedTable words (from_to (S.state before.now) (S.state after.now)) net header desk end)
        → IsDealtRun words (from_to (S.state before.now) (S.state after.now)) d key header desk
        → AllAnswered words d key run.serves.over.served }
{}
