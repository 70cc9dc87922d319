//! Files that a command reads one after the other.

ghost use Rattle.std.specs.Prelude.{IfOk, IfErr};
ghost use Rattle.tool_base.specs.Endings.{ending};
ghost use Rattle.tool_base.specs.World.{InAnyRun, IsUnchanged};
ghost use Rattle.tool_keys.specs.Steps.{AreRead, FailsToReadTwo};

use std::alloc::Global;
use stream_io::Store;
use tool_base::{Ending, FILE_LIMIT, read_file};

/// Reads two files whole, one after the other.
pub(crate) fn read_two<S: Store>(
    alloc: Global,
    store: &mut S,
    one: &str,
    two: &str,
) -> Result<(Vec<u8>, Vec<u8>), Ending>
    ensures bytes { InAnyRun S.state store.old store.new (λ run.
        IfOk result (λ both. AreRead run one.now two.now both.0.items both.1.items)) }
    ensures refused { InAnyRun S.state store.old store.new (λ run.
        IfErr result (λ end. FailsToReadTwo run one.now two.now (ending end))) }
    ensures unchanged { IsUnchanged (S.state store.old) (S.state store.new) }
{
    let first = read_file(alloc, store, one, FILE_LIMIT)?;
    let second = read_file(alloc, store, two, FILE_LIMIT)?;
    Ok((first, second))
}
