//! The command `aggregate`.

ghost use Rattle.tool_base.specs.Endings.{ending};
ghost use Rattle.tool_base.specs.World.{from_to};
ghost use Rattle.tool_aggregate.specs.Aggregate.{AggregateRun};
ghost use Rattle.tool_sign.specs.Ports.{over_net};
ghost use Rattle.tool_words.specs.Rows.{aggregate_words};

use crate::serving::serve_table;
use aggregator_session::Desk;
use std::alloc::Global;
use std::sync::Wait;
use std::thread::Threads;
use stream_io::{Net, Store};
use tool_base::Ending;
use tool_desk::{KeyFiles, end_cells, read_key_and_tree, view_cells};
use tool_sign::addresses_of;
use tool_words::AggregateWords;
use turn_lock::TurnsOnly;

/// Signs for clients: reads the files of a dealing, with a view of the reference for each worker, and serves clients
/// with a leaf of the table for each message.
pub fn aggregate<R: Threads + Wait + Sync, S: Store, N: Net>(
    turns: &TurnsOnly<R>,
    alloc: Global,
    words: &AggregateWords,
    store: &mut S,
    net: &mut N,
) -> Ending
    ensures { AggregateRun (aggregate_words words.now) (from_to (S.state store.old) (S.state store.new))
        (over_net (N.state net.old) (N.state net.new)) (ending result) }
{
    let files = match read_key_and_tree(alloc, store, words.prefix) {
        Ok(files) => files,
        Err(end) => return end,
    };
    let Ok(addresses) = addresses_of(alloc, &words.places.list()) else {
        return Ending::NoMemory;
    };
    let viewed = view_cells(alloc, store, words.prefix, &files, words.workers);
    let (mut cells, header) = match viewed {
        Ok(viewed) => viewed,
        Err(end) => return end,
    };
    let desk = Desk {
        key: &files.key,
        plan: &header.plan,
        tree: &files.tree.nodes,
        addresses: &addresses,
    };
    let end = serve_table(turns, alloc, words, &desk, &mut cells, store, net);
    end_cells(cells, store);
    end
}
