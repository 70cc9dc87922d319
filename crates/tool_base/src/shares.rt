//! Shares that a command reads.

ghost use Rattle.std.specs.Prelude.{◌≡◌, ◌⊎◌, IfOk, IfErr};
ghost use Rattle.tool_base.specs.Ending as spec;
ghost use Rattle.tool_base.specs.Endings.{ending};
ghost use Rattle.tool_base.specs.Grammars.{FailsGrammar, IsShareRead, share_fault_number};
ghost use Rattle.tool_base.specs.World.{InAnyRun, IsUnchanged};

use crate::FILE_LIMIT;
use crate::ending::Ending;
use crate::reading::{read_file, unreadable};
use share_files::{Share, read_share};
use std::alloc::Global;
use stream_io::Store;

/// Reads the share of a trustee.
pub fn read_share_file<S: Store>(alloc: Global, store: &mut S, name: &str) -> Result<Share, Ending>
    ensures share { InAnyRun S.state store.old store.new (λ run. IfOk result (IsShareRead run name.now)) }
    ensures refused { InAnyRun S.state store.old store.new (λ run.
        IfErr result (λ end. (ending end ≡ spec.NoMemory) ⊎ FailsGrammar share_fault_number run name.now
        (ending end))) }
    ensures unchanged { IsUnchanged (S.state store.old) (S.state store.new) }
{
    let bytes = read_file(alloc, store, name, FILE_LIMIT)?;
    match read_share(&bytes) {
        Ok(share) => Ok(share),
        Err(fault) => Err(unreadable(alloc, name, fault.number())),
    }
}
