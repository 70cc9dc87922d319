//! The command `sign`.

ghost use Rattle.tool_base.specs.Endings.{ending};
ghost use Rattle.tool_base.specs.Outputs.{IsNew};
ghost use Rattle.tool_base.specs.World.{IsBack, from_to};
ghost use Rattle.tool_sign.specs.Ports.{over_net};
ghost use Rattle.tool_sign.specs.Sign.{SigningRun};
ghost use Rattle.tool_sign.specs.Writes.{WriteEnds};
ghost use Rattle.tool_words.specs.Rows.{sign_words};

use crate::task::{Message, SessionWords, sign_message};
use aggregator_session::Signed;
use std::alloc::Global;
use stream_io::{Net, Readers, Store};
use tool_base::{Ending, Output, test_new, write_all};
use tool_words::SignWords;

/// Writes a signature under a name that was found new.
pub fn write_signature<S: Store>(alloc: Global, name: &str, signed: Signed, store: &mut S) -> Ending
    requires new { IsNew (from_to (S.state store.old) (S.state store.old)) name.now }
    ensures ends { WriteEnds (from_to (S.state store.old) (S.state store.new)) name.now signed.leaf signed.bytes.items
        (ending result) }
    ensures back { IsBack (S.state store.old) (S.state store.new) }
{
    let Ok(name) = String::from_str(alloc, name) else {
        return Ending::NoMemory;
    };
    let outputs = [Output {
        name,
        bytes: signed.bytes,
        readers: Readers::Anyone,
    }];
    match write_all(alloc, store, &outputs) {
        Ok(()) => Ending::Signed { leaf: signed.leaf },
        Err(end) => end,
    }
}

/// Signs a message: reads the files of a dealing and the message, runs one session with a leaf of the table, and writes
/// the signature under a new name.
pub fn sign<S: Store, N: Net>(
    alloc: Global,
    words: &SignWords,
    store: &mut S,
    net: &mut N,
) -> Ending
    ensures { SigningRun (sign_words words.now) (from_to (S.state store.old) (S.state store.new))
        (over_net (N.state net.old) (N.state net.new)) (ending result) }
{
    if let Err(end) = test_new(alloc, store, words.out) {
        return end;
    }
    let session = SessionWords {
        prefix: words.prefix,
        table: words.table,
        places: words.places,
    };
    match sign_message(alloc, &session, Message::InFile(words.message), store, net) {
        Ok(by) => write_signature(alloc, words.out, by.signed, store),
        Err(end) => end,
    }
}
