//! Streams: what has gone over them, whichever way.

ghost use Rattle.std.specs.Prelude.{◌≡◌};
ghost use Rattle.stream_io.specs.Talk.{Talk};

use disk_trait::Faults;

/// What bytes go over: a source, a sink, or both in one.
pub trait Stream: Faults {
    /// What has gone over it, and what it tells of that.
    ghost talk: { Self → Talk };

    /// The count of the talk is the stream's count of faults.
    ghost counts: { (stream : Self) → (talk stream).count ≡ Self.count stream };
}
