//! The refusal of a call that failed.

use thiserror::Error;

/// A call failed, and the count of faults of its object has risen.
#[derive(Clone, Copy, Debug, PartialEq, Eq, Error)]
#[error("a call to the outside failed")]
pub struct Failed;
