//! The key and the signature of two levels, and their files.

ghost use Rattle.std.specs.Prelude.{◌≡◌, ◌≢◌, All, IfOk, map};
ghost use Rattle.hss_levels.specs.Levels.{Accepts};
ghost use Rattle.lms_bytes.specs.PublicKey.{public_bytes};
ghost use Rattle.tool_base.specs.Endings.{ending};
ghost use Rattle.tool_base.specs.OutputOf.{output_of};
ghost use Rattle.tool_base.specs.Outputs.{IsNew};
ghost use Rattle.tool_base.specs.World.{IsBack, from_to};
ghost use Rattle.tool_sign.specs.HssSign.{LevelsEnd, two_levels};
ghost use Rattle.tool_sign.specs.Lower.{lower_of, output_names};
ghost use Rattle.tool_words.specs.Rows.{hss_sign_words};

use crate::lower::Lower;
use crate::task::SignedBy;
use hss_levels::join_two;
use memory::NoMemory;
use std::alloc::Global;
use stream_io::Store;
use tool_base::{Ending, Output, two_outputs, write_all};
use tool_words::HssSignWords;

/// Joins both levels, and writes their key and their signature under names that differ and were found new. `by` is the
/// upper key's signature of the lower key.
pub(crate) fn write_levels<S: Store>(
    alloc: Global,
    words: &HssSignWords,
    lower: &Lower,
    by: &SignedBy,
    store: &mut S,
) -> Ending
    requires differ { words.now.key_out.now ≢ words.now.signature_out.now }
    requires new { All (IsNew (from_to (S.state store.old) (S.state store.old)))
        (output_names (hss_sign_words words.now)) }
    requires accepted { Accepts by.now.key (public_bytes lower.now.key) by.now.signed.bytes.items }
    ensures ends { LevelsEnd (from_to (S.state store.old) (S.state store.new))
        (two_levels (hss_sign_words words.now) by.now.key by.now.signed.bytes.items (lower_of lower.now))
        by.now.signed.leaf (ending result) }
    ensures back { IsBack (S.state store.old) (S.state store.new) }
{
    let Ok(outputs) = joined_outputs(alloc, words, lower, by) else {
        return Ending::NoMemory;
    };
    match write_all(alloc, store, &outputs) {
        Ok(()) => Ending::SignedLevels {
            leaf: by.signed.leaf,
        },
        Err(end) => end,
    }
}

/// The files of both levels.
fn joined_outputs(
    alloc: Global,
    words: &HssSignWords,
    lower: &Lower,
    by: &SignedBy,
) -> Result<[Output; 2], NoMemory>
    requires { Accepts by.now.key (public_bytes lower.now.key) by.now.signed.bytes.items }
    ensures { IfOk result (λ outputs. map output_of outputs
        ≡ two_levels (hss_sign_words words.now) by.now.key by.now.signed.bytes.items (lower_of lower.now)) }
{
    let (key, signature) = join_two(
        alloc,
        &by.key,
        &by.signed.bytes,
        &lower.key,
        &lower.signature,
    )?;
    two_outputs(alloc, words.key_out, key, words.signature_out, signature)
}
