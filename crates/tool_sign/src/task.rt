//! Sessions with the files of a dealing.

ghost use Rattle.std.specs.Prelude.{◌≡◌, drop, IfErr, IfOk, OnOk};
ghost use Rattle.tool_base.specs.Endings.{ending};
ghost use Rattle.tool_base.specs.World.{IsUnchanged, from_to};
ghost use Rattle.tool_desk.specs.Files.{HaveSizesOf};
ghost use Rattle.tool_sign.specs.Ended.{TableTo};
ghost use Rattle.tool_sign.specs.Ports.{is_exact, over_net, reads_on};
ghost use Rattle.tool_sign.specs.Sessions.{SessionRun, answer_by};
ghost use Rattle.tool_sign.specs.Signs.{answer_in};
ghost use Rattle.tool_sign.specs.Sources.{session_words, source_of};
ghost use Rattle.tool_sign.specs.Tasks.{GoesWith, LacksTask, desk_of};

use crate::members::{addresses_of, members_of, test_members};
use crate::session::sign_with_table;
use aggregator_session::{Address, Desk, Ended, Signed};
use coalition_map::Members;
use disk_trait::Pages;
use lms_bytes::{LIMIT, PublicKey};
use memory::NoMemory;
use reference_value::Paged;
use share_files::RefHeader;
use std::alloc::Global;
use stream_io::{Net, Store};
use tool_base::{Ending, read_file};
use tool_desk::{KeyFiles, read_key_and_tree, test_same_key, view_reference};
use tool_words::Places;

/// How long a message that is signed may be, in bytes.
const MESSAGE_LIMIT: u64 = LIMIT as u64;

/// What a session is run with.
#[derive(Clone, Copy)]
pub struct SessionWords<'a> {
    /// What the names of the key's, the tree's and the reference file begin with.
    pub prefix: &'a str,
    /// The name of the leaf table.
    pub table: &'a str,
    /// The places of trustees.
    pub places: Places<'a>,
}

/// Where the message of a session comes from.
#[derive(Drop)]
pub enum Message<'a> {
    /// The file of this name.
    InFile(&'a str),
    /// These bytes.
    Known(Vec<u8>),
}

/// A signature that a session gave.
#[derive(Drop)]
pub struct SignedBy {
    /// The key that it was made with, which is that of the dealing.
    pub key: PublicKey,
    /// The leaf and the signature.
    pub signed: Signed,
}

/// What is signed with the files of a dealing.
#[derive(Drop)]
pub struct Task {
    /// The message.
    pub message: Vec<u8>,
    /// The members that are asked, which are a coalition of the dealing.
    pub members: Members,
    /// Where they are dialled, in ascending order.
    pub addresses: Vec<Address>,
}

/// Reads the files of a dealing and the message, tests that they go together, and runs one session with a leaf of the
/// table over a port that only dials.
pub fn sign_message<S: Store, N: Net>(
    alloc: Global,
    words: &SessionWords,
    message: Message,
    store: &mut S,
    net: &mut N,
) -> Result<SignedBy, Ending>
    ensures { (first : S) → IsUnchanged (S.state first) (S.state store.old)
        → SessionRun (session_words words.now) (source_of message.entry) (S.state first) (S.state store.new)
        (over_net (N.state net.old) (N.state net.new)) result }
{
    let files = match read_key_and_tree(alloc, store, words.prefix) {
        Ok(files) => files,
        Err(end) => return Err(end),
    };
    let (view, header) = match view_reference(alloc, store, words.prefix) {
        Ok(viewed) => viewed,
        Err(end) => return Err(end),
    };
    let task = match read_task(alloc, words, message, &files, &header, store) {
        Ok(task) => task,
        Err(end) => {
            store.end_view(view);
            return Err(end);
        }
    };
    let table = words.table;
    let (view, ended) = sign_task(alloc, table, &files, &header, view, &task, store, net);
    store.end_view(view);
    let Ended { outcome, .. } = ended;
    outcome
}

/// Reads the message, and tests that the files of the dealing are of one key and that the members are a coalition.
pub fn read_task<S: Store>(
    alloc: Global,
    words: &SessionWords,
    message: Message,
    files: &KeyFiles,
    header: &RefHeader,
    store: &mut S,
) -> Result<Task, Ending>
    ensures task { IfOk result (λ task. GoesWith (session_words words.now)
        (source_of message.entry (from_to (S.state store.old) (S.state store.new))) files.now header.now
        task.message.items task.members task.addresses.items) }
    ensures sizes { OnOk result (HaveSizesOf files.now header.now) }
    ensures refused { IfErr result (λ end. LacksTask (session_words words.now)
        (source_of message.entry (from_to (S.state store.old) (S.state store.new))) files.now header.now
        (ending end)) }
    ensures unchanged { IsUnchanged (S.state store.old) (S.state store.new) }
{
    let message = read_message(alloc, message, store)?;
    test_same_key(alloc, words.prefix, files, header)?;
    let places = words.places.list();
    let members = members_of(&places);
    test_members(&header.plan, members)?;
    match addresses_of(alloc, &places) {
        Ok(addresses) => Ok(Task {
            message,
            members,
            addresses,
        }),
        Err(NoMemory) => Err(Ending::NoMemory),
    }
}

/// Reads the message from where it comes from.
fn read_message<S: Store>(alloc: Global, message: Message, store: &mut S) -> Result<Vec<u8>, Ending>
    ensures bytes { IfOk result (λ bytes.
        (source_of message.entry (from_to (S.state store.old) (S.state store.new))).is bytes.items) }
    ensures refused { IfErr result (λ end.
        (source_of message.entry (from_to (S.state store.old) (S.state store.new))).fails (ending end)) }
    ensures unchanged { IsUnchanged (S.state store.old) (S.state store.new) }
{
    match message {
        Message::InFile(name) => read_file(alloc, store, name, MESSAGE_LIMIT),
        Message::Known(bytes) => Ok(bytes),
    }
}

/// Signs with a leaf of the table of this name. The session reads the reference from this view, which is given back,
/// and is given as it stands at its end, if one was begun.
pub fn sign_task<V: Pages, S: Store, N: Net>(
    alloc: Global,
    table: &str,
    files: &KeyFiles,
    header: &RefHeader,
    view: V,
    task: &Task,
    store: &mut S,
    net: &mut N,
) -> (V, Ended<Result<SignedBy, Ending>>)
    requires { HaveSizesOf files.now header.now }
    ensures run { TableTo
        (record {
          desk = desk_of files.now header.now task.now.addresses.items;
          reads = reads_on V.Pages.own V.Faults view result.0;
          exact = is_exact (V.told view) (V.steady view) (drop 32 (V.reads view)) files.now.key.params header.now.plan;
          members = task.now.members;
          message = task.now.message.items;
        })
        table.now (from_to (S.state store.old) (S.state store.new)) (over_net (N.state net.old) (N.state net.new))
        (answer_by result.1.outcome) result.1.session }
    ensures key { IfOk result.1.outcome (λ by. by.key ≡ files.now.key) }
{
    let desk = Desk {
        key: &files.key,
        plan: &header.plan,
        tree: &files.tree.nodes,
        addresses: &task.addresses,
    };
    let mut cells = Paged::new(&files.key.params, &header.plan, view);
    let members = task.members;
    let message = &task.message;
    let ended = sign_with_table(
        alloc, &desk, &mut cells, table, members, message, store, net,
    );
    let Ended { outcome, session } = ended;
    let outcome = signed_by(files.key, outcome);
    (cells.end(), Ended { outcome, session })
}

/// A signature with the key that it was made with, or the end.
fn signed_by(key: PublicKey, outcome: Result<Signed, Ending>) -> Result<SignedBy, Ending>
    ensures answer { answer_by result ≡ answer_in outcome }
    ensures key { IfOk result (λ by. by.key ≡ key) }
{
    match outcome {
        Ok(signed) => Ok(SignedBy { key, signed }),
        Err(end) => Err(end),
    }
}
