//! The command `hss sign`.

ghost use Rattle.std.specs.Prelude.{◌≢◌};
ghost use Rattle.lms_bytes.specs.PublicKey.{public_bytes};
ghost use Rattle.tool_base.specs.Endings.{ending};
ghost use Rattle.tool_base.specs.World.{IsUnchanged, from_to};
ghost use Rattle.tool_sign.specs.HssSign.{HssSigningRun, session_words};
ghost use Rattle.tool_sign.specs.Ports.{over_net};
ghost use Rattle.tool_sign.specs.Sessions.{SessionRun};
ghost use Rattle.tool_sign.specs.Tasks.{message_of};
ghost use Rattle.tool_words.specs.Rows.{hss_sign_words};

use crate::lower::accepted_lower;
use crate::task::{Message, SessionWords, SignedBy, sign_message};
use crate::writing::write_levels;
use dealer::public_file;
use lms_bytes::PublicKey;
use memory::NoMemory;
use std::alloc::Global;
use stream_io::{Net, Store};
use tool_base::Ending;
use tool_words::HssSignWords;

/// Signs a lower key with the trustees of an upper one, and writes the key and the signature of two levels: reads the
/// lower key, its signature and the message, verifies that signature, and runs one session for the bytes of the lower
/// key with a leaf of the table.
pub fn hss_sign<S: Store, N: Net>(
    alloc: Global,
    words: &HssSignWords,
    store: &mut S,
    net: &mut N,
) -> Ending
    requires { words.now.key_out.now ≢ words.now.signature_out.now }
    ensures { HssSigningRun (hss_sign_words words.now) (from_to (S.state store.old) (S.state store.new))
        (over_net (N.state net.old) (N.state net.new)) (ending result) }
{
    let lower = match accepted_lower(alloc, words, store) {
        Ok(lower) => lower,
        Err(end) => return end,
    };
    match sign_lower(alloc, words, &lower.key, store, net) {
        Ok(by) => write_levels(alloc, words, &lower, &by, store),
        Err(end) => end,
    }
}

/// Runs a session for the bytes of the lower key.
fn sign_lower<S: Store, N: Net>(
    alloc: Global,
    words: &HssSignWords,
    lower: &PublicKey,
    store: &mut S,
    net: &mut N,
) -> Result<SignedBy, Ending>
    ensures { (first : S) → IsUnchanged (S.state first) (S.state store.old)
        → SessionRun (session_words (hss_sign_words words.now)) (λ store. message_of (public_bytes lower.now))
        (S.state first) (S.state store.new) (over_net (N.state net.old) (N.state net.new)) result }
{
    let bytes = match public_file(alloc, lower) {
        Ok(bytes) => bytes,
        Err(NoMemory) => return Err(Ending::NoMemory),
    };
    let session = SessionWords {
        prefix: words.prefix,
        table: words.table,
        places: words.places,
    };
    sign_message(alloc, &session, Message::Known(bytes), store, net)
}
