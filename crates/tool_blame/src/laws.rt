//! What follows from the definitions. No function here does anything.

ghost use Rattle.tool_base.specs.Ending.{Ending};
ghost use Rattle.tool_base.specs.World.{from_to};
ghost use Rattle.tool_blame.specs.AsSign.{IsAsSign};
ghost use Rattle.tool_blame.specs.Blame.{BlameRun};
ghost use Rattle.tool_sign.specs.Causes.{FailuresAreCounted};
ghost use Rattle.tool_sign.specs.Ports.{NetRun};
ghost use Rattle.tool_words.specs.Words.{SignWords};

use stream_io::Store;

/// The causes of three ends of `blame`: the store fails only if its count of faults rose, a device only if the count of
/// its disks and views rose, and the net only if its count of failed ports rose.
pub fn causes<S: Store>(before: &S, after: &S)
    ensures { FailuresAreCounted BlameRun (from_to (S.state before.now) (S.state after.now)) }
{}

/// A run of `blame` is one of `sign`, except if there are no commitments, and except for the end in the place of status
/// 8. So what is known about each run of `sign` is also known about it.
pub fn as_sign<S: Store>(before: &S, after: &S)
    ensures { (words : SignWords) (net : NetRun) (end : Ending)
        → BlameRun words (from_to (S.state before.now) (S.state after.now)) net end
        → IsAsSign words (from_to (S.state before.now) (S.state after.now)) net end }
{}
