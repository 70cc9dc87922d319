//! How a connection ended.

ghost use Rattle.std.specs.Prelude.{◌≡◌};
ghost use Rattle.node_workers.specs.Ends.{end_by};

use round_frames::FrameFault;

/// The most frames that a node of either kind serves on one connection.
pub const MOST_FRAMES: u32 = 65_536;

/// Why a connection ended.
#[derive(Clone, Copy, Debug, PartialEq, Eq)]
pub enum ServedEnd {
    /// The peer's bytes ended where a frame would begin.
    Closed,
    /// The next frame could not be read. The fault is not `FrameFault::End`.
    Frame(FrameFault),
    /// A write failed.
    WriteFailed,
    /// The pass has no more turns. The ask that met this was answered with code 11.
    Worn,
    /// As many frames were served as one connection may have.
    Full,
}

/// What came of a connection.
#[derive(Clone, Copy, Debug, PartialEq, Eq)]
pub struct Served {
    /// How many replies were written whole.
    pub frames: u32,
    /// Why it ended.
    pub ended: ServedEnd,
}

/// The end of a connection whose next frame has this fault.
pub fn end_by(fault: FrameFault) -> ServedEnd
    ensures { result ≡ end_by fault }
{
    match fault {
        FrameFault::End => ServedEnd::Closed,
        FrameFault::Cut
        | FrameFault::Magic
        | FrameFault::Kind { .. }
        | FrameFault::TooLong { .. }
        | FrameFault::Shape
        | FrameFault::ReadFault
        | FrameFault::NoMemory => ServedEnd::Frame(fault),
    }
}
