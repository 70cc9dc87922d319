//! Service over the ports of a net.

ghost use Rattle.std.specs.Prelude.{◌≡◌, ◌≤◌};
ghost use Rattle.std.specs.Option.{option_map};
ghost use Rattle.trustee_core.specs.Approved.{ids_of};
ghost use Rattle.tool_base.specs.Endings.{ending};
ghost use Rattle.tool_base.specs.World.{IsNetBack};
ghost use Rattle.tool_trustee.specs.Nets.{NetServiceEnds, service_of};
ghost use Rattle.tool_words.specs.Rows.{trustee_words};
ghost use Rattle.trustee_core.specs.Trustee.{share_of};
ghost use Rattle.trustee_node.specs.Trustees.{trustee_state};

use crate::clocks::Clocks;
use disk_trait::Disk;
use memory::NoMemory;
use std::alloc::Global;
use std::sync::Wait;
use std::thread::Threads;
use stream_io::{CallFault, Net};
use tool_base::{Ending, end_of_service};
use tool_words::TrusteeWords;
use trustee_core::{Approved, KeyKeeper, Trustee};
use trustee_node::serve_ports;
use turn_lock::TurnsOnly;

/// Makes ports, serves a trustee over them, and gives them back.
pub(crate) fn serve_net<R: Threads + Wait + Sync, D: Disk + Send, N: Net, T: Clocks>(
    turns: &TurnsOnly<R>,
    alloc: Global,
    words: &TrusteeWords,
    trustee: Trustee<D>,
    share: &KeyKeeper,
    book: Option<&Approved>,
    net: &mut N,
    time: &mut T,
) -> (Trustee<D>, Ending)
    requires { share_of trustee ≡ share.now }
    ensures ends { NetServiceEnds (trustee_words words.now)
        (service_of share.now (trustee_state trustee) (trustee_state result.0))
        (option_map (λ b. ids_of b.now) book.entry) (result.0 ≡ trustee)
        (N.state net.old) (N.state net.new) (T.state time.old) (ending result.1) }
    ensures name { (trustee_state result.0).name ≡ (trustee_state trustee).name }
    ensures faults { (trustee_state trustee).faults ≤ (trustee_state result.0).faults }
    ensures net { IsNetBack (N.state net.old) (N.state net.new) }
    ensures time { T.state time.new ≡ T.state time.old }
{
    let mut ports = match net.ports(alloc, Some(words.place), words.workers) {
        Ok(ports) => ports,
        Err(CallFault::Failed) => return (trustee, Ending::NetFailed),
        Err(CallFault::NoMemory) => return (trustee, Ending::NoMemory),
    };
    let clocks = match time.clocks(alloc, words.workers) {
        Ok(clocks) => clocks,
        Err(NoMemory) => {
            net.gather(ports);
            return (trustee, Ending::NoMemory);
        }
    };
    let connections = words.connections;
    let (trustee, totals) = serve_ports(
        turns,
        alloc,
        trustee,
        share,
        book,
        &mut ports,
        clocks,
        connections,
    );
    let end = end_of_service(&ports, totals);
    net.gather(ports);
    (trustee, end)
}
