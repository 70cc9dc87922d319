//! Faults of frames.

use thiserror::Error;

/// Why no frame was read.
#[derive(Clone, Copy, Debug, PartialEq, Eq, Error)]
pub enum FrameFault {
    /// The stream is at its end where a frame would begin.
    #[error("no frame follows")]
    End,
    /// The stream ends within a frame.
    #[error("the stream ends within a frame")]
    Cut,
    /// A frame begins with bytes other than the magic.
    #[error("the bytes do not begin with the magic of a frame")]
    Magic,
    /// The frame is of a kind that is not read here.
    #[error("a frame of kind {got} came where another was wanted")]
    Kind {
        /// The kind.
        got: u8,
    },
    /// The frame is longer than any that is read here.
    #[error("the payload has {got} bytes, more than any that is read here")]
    TooLong {
        /// The length of its payload in bytes.
        got: u32,
    },
    /// The length or the payload is not one of the kind's.
    #[error("the payload is not of its kind's shape")]
    Shape,
    /// A read failed.
    #[error("the stream could not be read")]
    ReadFault,
    /// Want of memory.
    #[error("out of memory")]
    NoMemory,
}
