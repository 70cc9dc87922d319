//! The command `hss check`.

ghost use Rattle.std.specs.Prelude.{[], IfOk, IfErr};
ghost use Rattle.tool_base.specs.Endings.{ending};
ghost use Rattle.tool_base.specs.Grammars.{FailsGrammar};
ghost use Rattle.tool_keys.specs.HssCheck.{HssCheckEnds, IsHssKeyRead, hss_key_file_fault};
ghost use Rattle.tool_base.specs.World.{InAnyRun, IsUnchanged, from_to};

use crate::verify::{VerifyingKey, verify_under};
use hss_levels::{HssKey, hss_verify, read_hss_key};
use std::alloc::Global;
use stream_io::Store;
use tool_base::{Ending, FILE_LIMIT, read_file, unreadable};

/// Verifies a signature of a message under an HSS key, all three by the names of their files.
pub fn hss_check_files<S: Store>(
    alloc: Global,
    store: &mut S,
    key: &str,
    message: &str,
    signature: &str,
) -> Ending
    ensures ended { HssCheckEnds (from_to (S.state store.old) (S.state store.new)) key.now message.now signature.now
        (ending result) [] }
    ensures unchanged { IsUnchanged (S.state store.old) (S.state store.new) }
{
    let read = read_hss_key_file(alloc, store, key);
    verify_under(alloc, store, read, message, signature)
}

impl VerifyingKey for HssKey {
    ghost use Rattle.hss_levels.specs.Verdict.{IsHssVerdict};
    ghost use Rattle.tool_base.specs.Ending.{Checked};
    ghost use Rattle.tool_keys.specs.Steps.{Tells};

    ghost tells = { λ key message signature. Tells Checked (IsHssVerdict key message signature) };

    fn tell(&self, message: &[u8], signature: &[u8]) -> Ending {
        Ending::Checked(hss_verify(self, message, signature))
    }
}

/// Reads an HSS key.
fn read_hss_key_file<S: Store>(alloc: Global, store: &mut S, name: &str) -> Result<HssKey, Ending>
    ensures key { InAnyRun S.state store.old store.new (λ run. IfOk result (IsHssKeyRead run name.now)) }
    ensures refused { InAnyRun S.state store.old store.new (λ run.
        IfErr result (λ end. FailsGrammar hss_key_file_fault run name.now (ending end))) }
    ensures unchanged { IsUnchanged (S.state store.old) (S.state store.new) }
{
    let bytes = read_file(alloc, store, name, FILE_LIMIT)?;
    match read_hss_key(&bytes) {
        Ok(key) => Ok(key),
        Err(fault) => Err(unreadable(alloc, name, fault.number())),
    }
}
