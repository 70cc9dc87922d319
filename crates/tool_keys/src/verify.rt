//! Verifying a signature under a public key, and the command `verify`.

ghost use Rattle.std.specs.Prelude.{◌≡◌, ℕ, List, [], IfErr, IfOk};
ghost use Rattle.tool_base.specs.Ending as spec;
ghost use Rattle.tool_base.specs.Endings.{ending};
ghost use Rattle.tool_base.specs.Outputs.{Output};
ghost use Rattle.tool_base.specs.World.{InAnyRun, IsUnchanged, from_to};
ghost use Rattle.tool_keys.specs.Steps.{TextThen};
ghost use Rattle.tool_keys.specs.Verify.{VerifyEnds};

use crate::reading::read_two;
use lms_bytes::PublicKey;
use lms_verify::verify;
use std::alloc::Global;
use stream_io::Store;
use tool_base::Ending;
use tool_desk::read_key_file;

/// A public key that signatures are verified under.
pub(crate) trait VerifyingKey: Copy {
    /// How an end tells the verdict on a message and a signature.
    ghost tells: { Self → List ℕ → List ℕ → spec.Ending → List Output → Type 0 };

    /// Verifies a signature of a message, and tells the verdict.
    fn tell(&self, message: &[u8], signature: &[u8]) -> Ending
        ensures { tells self.now message.now signature.now (ending result) [] };
}

/// Verifies a signature of a message, both by the names of their files, under a key that was read before. If it was not
/// read, that is the end.
pub(crate) fn verify_under<K: VerifyingKey, S: Store>(
    alloc: Global,
    store: &mut S,
    read: Result<K, Ending>,
    message: &str,
    signature: &str,
) -> Ending
    ensures told { IfOk read (λ key. InAnyRun S.state store.old store.new (λ run.
        TextThen run message.now (λ text. TextThen run signature.now (λ bytes. K.tells key text bytes))
        (ending result) [])) }
    ensures not_read { IfErr read (λ end. ending result ≡ ending end) }
    ensures unchanged { IsUnchanged (S.state store.old) (S.state store.new) }
{
    let key = match read {
        Ok(key) => key,
        Err(end) => return end,
    };
    match read_two(alloc, store, message, signature) {
        Ok((text, bytes)) => key.tell(&text, &bytes),
        Err(end) => end,
    }
}

impl VerifyingKey for PublicKey {
    ghost use Rattle.lms_verify.specs.Verdict.{IsVerdict};
    ghost use Rattle.tool_base.specs.Ending.{Verified};
    ghost use Rattle.tool_keys.specs.Steps.{Tells};

    ghost tells = { λ key message signature. Tells Verified (IsVerdict key message signature) };

    fn tell(&self, message: &[u8], signature: &[u8]) -> Ending {
        Ending::Verified(verify(self, message, signature))
    }
}

/// Verifies a signature of a message under a key, all three by the names of their files.
pub fn verify_files<S: Store>(
    alloc: Global,
    store: &mut S,
    key: &str,
    message: &str,
    signature: &str,
) -> Ending
    ensures ended { VerifyEnds (from_to (S.state store.old) (S.state store.new)) key.now message.now signature.now
        (ending result) [] }
    ensures unchanged { IsUnchanged (S.state store.old) (S.state store.new) }
{
    let read = read_key_file(alloc, store, key);
    verify_under(alloc, store, read, message, signature)
}
