//! The command `trustee`.

ghost use Rattle.std.specs.Prelude.{◌≡◌, ◌≤◌};
ghost use Rattle.tool_base.specs.Endings.{ending};
ghost use Rattle.tool_base.specs.Touched.{EndsTouching};
ghost use Rattle.tool_base.specs.World.{IsNetBack, from_to};
ghost use Rattle.tool_trustee.specs.Nets.{service_of};
ghost use Rattle.tool_trustee.specs.Services.{BookEnds, end_of_call};
ghost use Rattle.tool_trustee.specs.Trustee.{TrusteeRun};
ghost use Rattle.tool_words.specs.Rows.{trustee_words};
ghost use Rattle.trustee_core.specs.Trustee.{share_of};
ghost use Rattle.trustee_node.specs.Trustees.{trustee_state};

use crate::clocks::Clocks;
use crate::keeping::{header_of, load_journal, read_keeper};
use crate::loads::end_of_journal;
use crate::nets::serve_net;
use approval_book::Book;
use std::alloc::Global;
use std::sync::Wait;
use std::thread::Threads;
use stream_io::{CallFault, Net, Store};
use tool_base::{Ending, end_of_slots};
use tool_words::TrusteeWords;
use trustee_core::{KeyKeeper, Trustee};
use turn_lock::TurnsOnly;

/// Serves a trustee: reads its share, loads its journal and its book, if there is one, and serves it over ports. The
/// key stays with the keeper of the share.
pub fn serve_trustee<R: Threads + Wait + Sync, S: Store, N: Net, T: Clocks>(
    turns: &TurnsOnly<R>,
    alloc: Global,
    words: &TrusteeWords,
    store: &mut S,
    net: &mut N,
    time: &mut T,
) -> Ending
    ensures { TrusteeRun (trustee_words words.now)
        (record { store = S.state store.old; net = N.state net.old; time = T.state time.old })
        (record { store = S.state store.new; net = N.state net.new; time = T.state time.new })
        (ending result) }
{
    let share = match read_keeper(alloc, store, words.share) {
        Ok(share) => share,
        Err(end) => return end,
    };
    let disk = match store.take_disk(words.journal) {
        Ok(disk) => disk,
        Err(fault) => return end_of_call(fault),
    };
    let journal = match load_journal(alloc, disk, &share) {
        Ok(journal) => journal,
        Err((disk, fault)) => {
            store.return_disk(words.journal, disk);
            return end_of_journal(fault);
        }
    };
    let trustee = Trustee::of_keeper(&share, journal);
    let (trustee, end) = serve_with_book(turns, alloc, words, trustee, &share, store, net, time);
    store.return_disk(words.journal, trustee.end());
    end
}

/// Loads the book, if there is one, and serves a trustee with it.
fn serve_with_book<R: Threads + Wait + Sync, S: Store, N: Net, T: Clocks>(
    turns: &TurnsOnly<R>,
    alloc: Global,
    words: &TrusteeWords,
    trustee: Trustee<S::Disk>,
    share: &KeyKeeper,
    store: &mut S,
    net: &mut N,
    time: &mut T,
) -> (Trustee<S::Disk>, Ending)
    requires { share_of trustee ≡ share.now }
    ensures ended { EndsTouching (BookEnds (trustee_words words.now)
        (service_of share.now (trustee_state trustee) (trustee_state result.0)) (result.0 ≡ trustee)
        (record { store = S.state store.old; net = N.state net.old; time = T.state time.old })
        (record { store = S.state store.new; net = N.state net.new; time = T.state time.new }))
        (from_to (S.state store.old) (S.state store.new)) (ending result.1) }
    ensures name { (trustee_state result.0).name ≡ (trustee_state trustee).name }
    ensures faults { (trustee_state trustee).faults ≤ (trustee_state result.0).faults }
    ensures net { IsNetBack (N.state net.old) (N.state net.new) }
    ensures time { T.state time.new ≡ T.state time.old }
{
    let Some(name) = words.book else {
        return serve_net(turns, alloc, words, trustee, share, None, net, time);
    };
    let disk = match store.take_disk(name) {
        Ok(disk) => disk,
        Err(fault) => return (trustee, end_of_call(fault)),
    };
    let book = match Book::load(alloc, disk, &header_of(share, 3)) {
        Ok(book) => book,
        Err((disk, fault)) => {
            store.return_disk(name, disk);
            return (trustee, end_of_slots(fault));
        }
    };
    let ids = Some(book.approved());
    let (trustee, end) = serve_net(turns, alloc, words, trustee, share, ids, net, time);
    store.return_disk(name, book.end());
    (trustee, end)
}

/// The end if a disk was not taken.
fn end_of_call(fault: CallFault) -> Ending
    ensures { ending result ≡ end_of_call fault }
{
    match fault {
        CallFault::Failed => Ending::StoreFailed,
        CallFault::NoMemory => Ending::NoMemory,
    }
}
