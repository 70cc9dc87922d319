//! Files that a command reads whole.

ghost use Rattle.std.specs.Prelude.{◌≡◌, ◌⊎◌, IfOk, IfErr};
ghost use Rattle.tool_base.specs.Ending as spec;
ghost use Rattle.tool_base.specs.Endings.{ending};
ghost use Rattle.tool_base.specs.Reads.{FailsUpTo};
ghost use Rattle.tool_base.specs.World.{Bytes, InAnyRun, IsUnchanged, IsReadUpTo};

use crate::ending::Ending;
use std::alloc::{AllocError, Global};
use stream_io::{ReadAllFault, Store};

/// The end if the file of this name is not in its grammar.
pub fn unreadable(alloc: Global, name: &str, fault: u8) -> Ending
    ensures { (ending result ≡ spec.NoMemory) ⊎ (ending result ≡ spec.Unreadable name.now fault) }
{
    match String::from_str(alloc, name) {
        Ok(name) => Ending::Unreadable { name, fault },
        Err(AllocError) => Ending::NoMemory,
    }
}

/// Reads a file whole, if it has at most `limit` bytes.
pub fn read_file<S: Store>(
    alloc: Global,
    store: &mut S,
    name: &str,
    limit: u64,
) -> Result<Vec<u8>, Ending>
    ensures bytes { InAnyRun S.state store.old store.new (λ run.
        IfOk result (λ bytes. IsReadUpTo limit run name.now (Bytes bytes.items))) }
    ensures refused { InAnyRun S.state store.old store.new (λ run.
        IfErr result (λ end. FailsUpTo limit run name.now (ending end))) }
    ensures unchanged { IsUnchanged (S.state store.old) (S.state store.new) }
{
    match store.read_all(alloc, name, limit) {
        Ok(bytes) => Ok(bytes),
        Err(ReadAllFault::Failed) => Err(Ending::StoreFailed),
        Err(ReadAllFault::TooLong { got }) => Err(Ending::TooLong { got }),
        Err(ReadAllFault::NoMemory) => Err(Ending::NoMemory),
    }
}
