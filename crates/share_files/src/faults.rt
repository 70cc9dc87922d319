//! Why files are refused.

ghost use Rattle.std.specs.Prelude.{◌≡◌};

use lms_bytes::KeyId;
use thiserror::Error;

/// Why bytes are no file of a dealing.
#[derive(Clone, Copy, Debug, PartialEq, Eq, Error)]
pub enum FileFault {
    /// The file does not begin with the letters of its kind.
    #[error("the letters at the front are not those of this kind of file")]
    Magic,
    /// Another version than 1, and not that of the typecodes.
    #[error("version {got}, where that of the typecodes is wanted: 1 for small sets, 2 for large ones")]
    Version { got: u8 },
    /// The typecodes are no parameter set that can be dealt, or one whose files have version 2 where this one has 1.
    #[error("typecodes {lms} and {ots} are no parameter set that can be dealt in a file of this version")]
    Code { lms: u32, ots: u32 },
    /// The numbers of trustees are no plan.
    #[error("the numbers of trustees are no plan: 2 <= k <= n <= 12 and no more coalitions than leaves are wanted")]
    Plan,
    /// The length in bytes is not that of the file.
    #[error("{got} bytes, where {want} are wanted")]
    Length { got: u64, want: u64 },
    /// No trustee of the plan has this number, or a byte that must be zero is not.
    #[error("byte {got}, where the number of a trustee or zero is wanted")]
    Number { got: u8 },
    /// The file is of another key than a file beside it.
    #[error("the file is of another key than the file beside it: its identifier is {got:?}")]
    OtherKey { got: KeyId },
}

impl FileFault {
    ghost use Rattle.share_files.specs.FaultNumbers.{file_fault_number};

    /// The number that users see.
    pub fn number(&self) -> u8
        ensures { result ≡ file_fault_number self.now }
    {
        match self {
            FileFault::Magic => 1,
            FileFault::Version { .. } => 2,
            FileFault::Code { .. } => 3,
            FileFault::Plan => 4,
            FileFault::Length { .. } => 5,
            FileFault::Number { .. } => 6,
            FileFault::OtherKey { .. } => 7,
        }
    }
}
