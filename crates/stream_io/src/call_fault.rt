//! The refusal of a call that may also run out of memory.

ghost use Rattle.std.specs.Prelude.{◌≡◌};
ghost use Rattle.stream_io.specs.declared.call_fault.CallFault.{CallFault};

use crate::failed::Failed;
use memory::NoMemory;
use std::alloc::{AllocError, AllocFailed};
use thiserror::Error;

/// Why a call that takes memory was not done.
#[derive(Clone, Copy, Debug, PartialEq, Eq, Error)]
pub enum CallFault {
    /// The call failed, and the count of faults of its object has risen.
    #[error("a call to the outside failed")]
    Failed,
    /// Memory ran out.
    #[error("out of memory")]
    NoMemory,
}

/// Why there are no ports.
pub type PortsFault = CallFault;

/// Why there is no view.
pub type ViewFault = CallFault;

impl From<Failed> for CallFault {
    ghost from_gives = { λ _ fault. fault ≡ CallFault.Failed };

    fn from(_failed: Failed) -> CallFault {
        CallFault::Failed
    }
}

impl From<NoMemory> for CallFault {
    ghost from_gives = { λ _ fault. fault ≡ CallFault.NoMemory };

    fn from(_error: NoMemory) -> CallFault {
        CallFault::NoMemory
    }
}

impl From<AllocError> for CallFault {
    ghost from_gives = { λ _ fault. fault ≡ CallFault.NoMemory };

    fn from(_error: AllocError) -> CallFault {
        CallFault::NoMemory
    }
}

impl<T: Drop> From<AllocFailed<T>> for CallFault {
    ghost from_gives = { λ _ fault. fault ≡ CallFault.NoMemory };

    fn from(_error: AllocFailed<T>) -> CallFault {
        CallFault::NoMemory
    }
}
