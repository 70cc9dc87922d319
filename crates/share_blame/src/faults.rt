//! Why there are no commitments, or no file of them.

use share_files::FileFault;
use thiserror::Error;

/// Why there is no commitment file of a dealing.
#[derive(Clone, Copy, Debug, PartialEq, Eq, Error)]
pub enum CommitFault {
    /// The file would have more than 67,108,864 bytes.
    #[error("a commitment file of {bytes} bytes, where at most 67108864 are made")]
    TooLarge {
        /// How many it would have.
        bytes: u64,
    },
    /// There was not enough memory.
    #[error("out of memory")]
    NoMemory,
}

/// Why commitments are not read.
#[derive(Clone, Copy, Debug, PartialEq, Eq, Error)]
pub enum CommitsFault {
    /// The pages are no commitment file, or one of a dealing other than the reference's.
    #[error("no commitments of this dealing: {0}")]
    File(FileFault),
    /// A call of the pages failed.
    #[error("a call of the pages failed")]
    Device,
}
