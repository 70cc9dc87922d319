//! Why HSS keys and signatures are refused.

ghost use Rattle.std.specs.Prelude.{◌≡◌};

use lms_bytes::{KeyFault, SigFault};
use thiserror::Error;

/// Why bytes are no HSS key.
#[derive(Clone, Copy, Debug, PartialEq, Eq, Error)]
pub enum HssKeyFault {
    /// Fewer than the four bytes of the number of levels.
    #[error("fewer than the 4 bytes of a number of levels")]
    Short,
    /// An HSS key has 1 to 8 levels (RFC 8554 section 6).
    #[error("{got} levels where 1 to 8 are wanted")]
    Levels { got: u32 },
    /// What follows the number of levels is no LMS public key.
    #[error("the key of the top level: {0}")]
    Key(KeyFault),
}

impl HssKeyFault {
    ghost use Rattle.hss_levels.specs.FaultNumbers.{hss_key_fault_number};

    /// The number that users see: the place of its test in the order of the tests, counted from 1.
    pub fn number(&self) -> u8
        ensures { result ≡ hss_key_fault_number self.now }
    {
        match self {
            HssKeyFault::Short => 1,
            HssKeyFault::Levels { .. } => 2,
            HssKeyFault::Key(fault) => 2 + fault.number(),
        }
    }
}

/// Why bytes are no HSS signature under a key. The top level is level 0.
#[derive(Clone, Copy, Debug, PartialEq, Eq, Error)]
pub enum HssFault {
    /// Fewer than the four bytes of the number of signed keys.
    #[error("fewer than the 4 bytes of a number of signed keys")]
    Short,
    /// The number of signed keys is not one less than the key's levels.
    #[error("{got} signed keys where one less than the key's levels is wanted")]
    Levels { got: u32 },
    /// The signature of this level does not read.
    #[error("the signature of level {level}: {fault}")]
    Sig { level: u8, fault: SigFault },
    /// The public key of this level does not read.
    #[error("the public key of level {level}: {fault}")]
    Pub { level: u8, fault: KeyFault },
}
