//! The command `blame`.

ghost use Rattle.std.specs.Prelude.{IsTrue};
ghost use Rattle.share_blame.specs.Commits.{AreOf, pages_of};
ghost use Rattle.tool_base.specs.Endings.{ending};
ghost use Rattle.tool_base.specs.World.{IsUnchanged, from_to};
ghost use Rattle.tool_blame.specs.Beside.{EndsBeside};
ghost use Rattle.tool_blame.specs.Blame.{BlameRun, NamingRun};
ghost use Rattle.tool_blame.specs.Commits.{AreCommitsOf};
ghost use Rattle.tool_desk.specs.Views.{view_state};
ghost use Rattle.tool_sign.specs.Ports.{over_net};
ghost use Rattle.tool_sign.specs.Sessions.{answer_by};
ghost use Rattle.tool_words.specs.Rows.{sign_words};

use crate::commits::view_commits;
use crate::names::told_outcome;
use disk_trait::Pages;
use share_blame::Commits;
use share_files::RefHeader;
use std::alloc::Global;
use stream_io::{Net, Store};
use tool_base::{Ending, test_new};
use tool_desk::{KeyFiles, read_key_and_tree, view_reference};
use tool_sign::{Message, SessionWords, SignedBy, read_task, sign_task, write_signature};
use tool_words::SignWords;

/// Signs a message as `sign` does. If the masks of the session are not accepted, it names the members whose masks are
/// not those that the dealer committed to.
pub fn blame<S: Store, N: Net>(
    alloc: Global,
    words: &SignWords,
    store: &mut S,
    net: &mut N,
) -> Ending
    ensures { BlameRun (sign_words words.now) (from_to (S.state store.old) (S.state store.new))
        (over_net (N.state net.old) (N.state net.new)) (ending result) }
{
    if let Err(end) = test_new(alloc, store, words.out) {
        return end;
    }
    match sign_or_name(alloc, words, store, net) {
        Ok(by) => write_signature(alloc, words.out, by.signed, store),
        Err(end) => end,
    }
}

/// Reads the files of the dealing and the message, tests that they go together, and runs one session with a leaf of the
/// table. Commitments and reference are read through views, which are both given back.
fn sign_or_name<S: Store, N: Net>(
    alloc: Global,
    words: &SignWords,
    store: &mut S,
    net: &mut N,
) -> Result<SignedBy, Ending>
    ensures { (first : S) → IsUnchanged (S.state first) (S.state store.old)
        → NamingRun (sign_words words.now) (S.state first) (S.state store.new)
        (over_net (N.state net.old) (N.state net.new)) result }
{
    let files = match read_key_and_tree(alloc, store, words.prefix) {
        Ok(files) => files,
        Err(end) => return Err(end),
    };
    let (view, header) = match view_reference(alloc, store, words.prefix) {
        Ok(viewed) => viewed,
        Err(end) => return Err(end),
    };
    let mut commits = match view_commits(alloc, store, words.prefix, &header) {
        Ok(commits) => commits,
        Err(end) => {
            store.end_view(view);
            return Err(end);
        }
    };
    let (view, outcome) = name_beside(
        alloc,
        words,
        &files,
        &header,
        view,
        &mut commits,
        store,
        net,
    );
    store.end_view(commits.end());
    store.end_view(view);
    outcome
}

/// Reads the message, tests that everything goes together, and runs one session, whose end is told by these
/// commitments. The session reads the reference from this view, which is given back.
fn name_beside<V: Pages, S: Store, N: Net>(
    alloc: Global,
    words: &SignWords,
    files: &KeyFiles,
    header: &RefHeader,
    view: V,
    commits: &mut Commits<V>,
    store: &mut S,
    net: &mut N,
) -> (V, Result<SignedBy, Ending>)
    requires fits { AreOf header.now.params header.now.plan commits.old }
    requires whole { IsTrue (V.told (pages_of commits.old))
        → AreCommitsOf header.now (V.reads (pages_of commits.old)) }
    ensures { EndsBeside S.state (sign_words words.now) files.now header.now
        (record {
          reference = view_state V.Pages.own V.Faults view;
          reference_now = view_state V.Pages.own V.Faults result.0;
          commits = view_state V.Pages.own V.Faults (pages_of commits.old);
          commits_now = view_state V.Pages.own V.Faults (pages_of commits.new);
        })
        store.old store.new (over_net (N.state net.old) (N.state net.new)) (answer_by result.1) }
{
    let session = SessionWords {
        prefix: words.prefix,
        table: words.table,
        places: words.places,
    };
    let message = Message::InFile(words.message);
    let task = match read_task(alloc, &session, message, files, header, store) {
        Ok(task) => task,
        Err(end) => return (view, Err(end)),
    };
    let table = words.table;
    let (view, ended) = sign_task(alloc, table, files, header, view, &task, store, net);
    let outcome = told_outcome(commits, &files.key, ended, &task.message);
    (view, outcome)
}
