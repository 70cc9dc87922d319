//! What errors of the system mean to the code above: memory ran out, a name is taken, or a fault.

ghost use Rattle.std.specs.Prelude.{◌≢◌, ℕ};
ghost use Rattle.stream_io.specs.declared.store.ReadAllFault.{ReadAllFault};

use std::io;
use std::io::ErrorKind;
use stream_io::{CallFault, NewFault, ReadAllFault};

/// Why a call was not done.
pub fn call_fault(error: io::Error) -> CallFault {
    match error.kind() {
        ErrorKind::OutOfMemory => CallFault::NoMemory,
        _ => CallFault::Failed,
    }
}

/// Why a new file was not made.
pub fn new_fault(error: io::Error) -> NewFault {
    match error.kind() {
        ErrorKind::AlreadyExists => NewFault::Exists,
        ErrorKind::OutOfMemory => NewFault::NoMemory,
        _ => NewFault::Failed,
    }
}

/// Why a file was not read.
pub fn read_fault(error: io::Error) -> ReadAllFault
    ensures { (got : ℕ) → result ≢ ReadAllFault.TooLong got }
{
    match error.kind() {
        ErrorKind::OutOfMemory => ReadAllFault::NoMemory,
        _ => ReadAllFault::Failed,
    }
}
