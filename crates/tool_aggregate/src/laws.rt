//! What follows from the definitions. No function here does anything.

ghost use Rattle.aggregator_session.specs.Desks.{DeskState};
ghost use Rattle.std.specs.Prelude.{◌≡◌, IsTrue};
ghost use Rattle.aggregator_node.specs.Ports.{requests_in};
ghost use Rattle.aggregator_node.specs.Connections.{with_status};
ghost use Rattle.share_files.specs.declared.reference.RefHeader.{RefHeader};
ghost use Rattle.tool_base.specs.Ending.{Ending};
ghost use Rattle.tool_base.specs.World.{from_to};
ghost use Rattle.tool_aggregate.specs.Desks.{IsDesk};
ghost use Rattle.tool_aggregate.specs.Serving.{ServedTable};
ghost use Rattle.tool_aggregate.specs.Steady.{HasNoNetFault};
ghost use Rattle.tool_sign.specs.Ports.{NetRun};
ghost use Rattle.tool_words.specs.Words.{AggregateWords};

use aggregator_node::client_laws::no_link_fails;
use stream_io::Store;

/// If the net is steady, no port of a service for clients fails to accept, and the command ends with the numbers of
/// what was served; and if its links also have room for 65,536 of the longest replies, no client's connection ended by
/// a link that failed (`net`). If the store tells its content and no call of it fails except because of its arguments,
/// no reply has failure 10, which tells of a table or a reference that failed (`failures`).
pub fn steady_aggregate<S: Store>(before: &S, after: &S)
    ensures net { (words : AggregateWords) (net : NetRun) (header : RefHeader) (desk : DeskState) (end : Ending)
        (run : ServedTable words (from_to (S.state before.now) (S.state after.now)) net header desk end)
        → IsTrue net.before.steady → HasNoNetFault run }
    ensures failures { (words : AggregateWords) (net : NetRun) (header : RefHeader) (desk : DeskState) (end : Ending)
        (run : ServedTable words (from_to (S.state before.now) (S.state after.now)) net header desk end)
        → IsDesk words (from_to (S.state before.now) (S.state after.now)) header desk
        → IsTrue (S.state before.now).told → IsTrue (S.state before.now).steady
        → with_status 10 (requests_in run.serves.over.served.runs) ≡ 0 }
{
    no_link_fails();
}
