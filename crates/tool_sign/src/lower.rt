//! The lower key, its signature and the message.

ghost use Rattle.std.specs.Prelude.{IfErr, IfOk};
ghost use Rattle.stream_io.specs.Net.{NetState};
ghost use Rattle.stream_io.specs.Store.{StoreOnward};
ghost use Rattle.tool_base.specs.Endings.{ending};
ghost use Rattle.tool_base.specs.World.{InAnyRun, IsUnchanged, from_to};
ghost use Rattle.tool_sign.specs.HssSign.{HssSigningRun};
ghost use Rattle.tool_sign.specs.Lower.{FailsLower, IsLower, IsReady, lower_of};
ghost use Rattle.tool_sign.specs.Ports.{over_net};
ghost use Rattle.tool_words.specs.Rows.{hss_sign_words};

use lms_bytes::PublicKey;
use lms_verify::{Verdict, verify};
use std::alloc::Global;
use stream_io::Store;
use tool_base::{Ending, FILE_LIMIT, read_file, test_two_new};
use tool_desk::read_key_file;
use tool_words::HssSignWords;

/// The lower key, and its signature of the message.
#[derive(Drop)]
pub(crate) struct Lower {
    pub(crate) key: PublicKey,
    pub(crate) signature: Vec<u8>,
    pub(crate) message: Vec<u8>,
}

/// Tests that both outputs are new, reads the lower key, its signature and the message, and verifies that signature.
pub(crate) fn accepted_lower<S: Store>(
    alloc: Global,
    words: &HssSignWords,
    store: &mut S,
) -> Result<Lower, Ending>
    ensures ready { (last : S) → StoreOnward (S.state store.new) (S.state last) → IfOk result (λ lower.
        IsReady (hss_sign_words words.now) (from_to (S.state store.old) (S.state last)) (lower_of lower)) }
    ensures refused { (net : NetState) → IfErr result (λ end. HssSigningRun (hss_sign_words words.now)
        (from_to (S.state store.old) (S.state store.new)) (over_net net net) (ending end)) }
    ensures unchanged { IsUnchanged (S.state store.old) (S.state store.new) }
{
    test_two_new(alloc, store, words.key_out, words.signature_out)?;
    let lower = read_lower(alloc, words, store)?;
    let verdict = verify(&lower.key, &lower.message, &lower.signature);
    match verdict {
        Verdict::Accepted { .. } => Ok(lower),
        Verdict::Malformed(_) | Verdict::OtherRoot { .. } => Err(Ending::Verified(verdict)),
    }
}

/// Reads the lower key, its signature and the message.
fn read_lower<S: Store>(alloc: Global, words: &HssSignWords, store: &mut S) -> Result<Lower, Ending>
    ensures lower { InAnyRun S.state store.old store.new (λ run.
        IfOk result (λ lower. IsLower (hss_sign_words words.now) run (lower_of lower))) }
    ensures refused { InAnyRun S.state store.old store.new (λ run.
        IfErr result (λ end. FailsLower (hss_sign_words words.now) run (ending end))) }
    ensures unchanged { IsUnchanged (S.state store.old) (S.state store.new) }
{
    let key = read_key_file(alloc, store, words.low_key)?;
    let signature = read_file(alloc, store, words.low_signature, FILE_LIMIT)?;
    let message = read_file(alloc, store, words.message, FILE_LIMIT)?;
    Ok(Lower {
        key,
        signature,
        message,
    })
}
