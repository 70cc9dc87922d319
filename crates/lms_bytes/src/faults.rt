//! Why keys and signatures are refused.

ghost use Rattle.std.specs.Prelude.{◌≡◌};

use thiserror::Error;

/// Why bytes are no public key, or why typecodes are no parameter set.
#[derive(Clone, Copy, Debug, PartialEq, Eq, Error)]
pub enum KeyFault {
    /// Fewer than the eight bytes of the two typecodes.
    #[error("fewer than the 8 bytes of two typecodes")]
    Short,
    /// No LMS typecode (RFC 8554 section 5.1).
    #[error("LMS typecode {code} where one from 5 to 14 is wanted")]
    UnknownLms { code: u32 },
    /// No LM-OTS typecode (RFC 8554 section 4.1).
    #[error("LM-OTS typecode {code} where one from 1 to 8 is wanted")]
    UnknownOts { code: u32 },
    /// The two typecodes have different hash lengths.
    #[error("typecodes of two hash lengths where one is wanted")]
    MixedWidths,
    /// The length in bytes is not that of the parameter set.
    #[error("a public key of {got} bytes where {want} are wanted")]
    Length { got: usize, want: usize },
}

impl KeyFault {
    ghost use Rattle.lms_bytes.specs.FaultNumbers.{key_fault_number};

    /// The number that users see: the place of its test in the order of the tests, counted from 1.
    pub fn number(&self) -> u8
        ensures { result ≡ key_fault_number self.now }
    {
        match self {
            KeyFault::Short => 1,
            KeyFault::UnknownLms { .. } => 2,
            KeyFault::UnknownOts { .. } => 3,
            KeyFault::MixedWidths => 4,
            KeyFault::Length { .. } => 5,
        }
    }
}

/// Why bytes are no signature of a parameter set (RFC 8554 section 5.4.2, Algorithm 6a).
#[derive(Clone, Copy, Debug, PartialEq, Eq, Error)]
pub enum SigFault {
    /// Fewer than the eight bytes of the leaf's number and the LM-OTS typecode.
    #[error("fewer than the 8 bytes of a leaf's number and a typecode")]
    Short,
    /// The LM-OTS typecode is not the key's.
    #[error("LM-OTS typecode {got} where the key's is wanted")]
    OtsCode { got: u32 },
    /// Too few bytes for the LM-OTS signature and the LMS typecode.
    #[error("{got} bytes where an LM-OTS signature and an LMS typecode are wanted")]
    TooShort { got: usize },
    /// The LMS typecode is not the key's.
    #[error("LMS typecode {got} where the key's is wanted")]
    LmsCode { got: u32 },
    /// The tree has no leaf of this number.
    #[error("leaf {q} where a leaf of the key's tree is wanted")]
    Leaf { q: u32 },
    /// The length in bytes is not that of the parameter set.
    #[error("a signature of {got} bytes where {want} are wanted")]
    Length { got: usize, want: usize },
}

impl SigFault {
    ghost use Rattle.lms_bytes.specs.FaultNumbers.{signature_fault_number};

    /// The number that users see: the place of its test in the order of the tests, counted from 1.
    pub fn number(&self) -> u8
        ensures { result ≡ signature_fault_number self.now }
    {
        match self {
            SigFault::Short => 1,
            SigFault::OtsCode { .. } => 2,
            SigFault::TooShort { .. } => 3,
            SigFault::LmsCode { .. } => 4,
            SigFault::Leaf { .. } => 5,
            SigFault::Length { .. } => 6,
        }
    }
}
