//! What follows from the definitions. No function here does anything.

ghost use Rattle.std.specs.Prelude.{◌≡◌, ◌⊎◌, ℕ, List, Some};
ghost use Rattle.lms_verify.specs.declared.verification.Verdict.TheVariants.{Accepted};
ghost use Rattle.stream_io.specs.Net.{NetState};
ghost use Rattle.tool_base.specs.Ending as ending;
ghost use Rattle.tool_base.specs.Ending.{Ending};
ghost use Rattle.tool_base.specs.World.{OutputRun, TimeState};
ghost use Rattle.laws_commands.specs.Accepting.{IsAcceptable};
ghost use Rattle.laws_commands.specs.Steady.{HasCauses};
ghost use Rattle.tool_run.specs.Worlds.{IsSteadyWorld, outside_of, world_of};
ghost use Rattle.tool_run.specs.ToolRun.{CommandRun, ToolRun};
ghost use Rattle.tool_words.specs.Words.{Row, Verify, command_of};

use stream_io::Store;
use tool_aggregate::laws::steady_aggregate;
use tool_trustee::laws::steady_trustee;

/// Over a store that does not fail, `verify` of a signature that is accepted says so, or ends because memory ran out.
pub fn accepted_is_said<S: Store>(before: &S, after: &S)
    ensures { (key message signature : List ℕ) (net_old net_new : NetState) (time later : TimeState) (end : Ending)
        (leaf : ℕ) → CommandRun (Verify key message signature)
        (record { store = S.state before.now; net = net_old; time = time })
        (record { store = S.state after.now; net = net_new; time = later }) end
        → IsAcceptable (S.state before.now) key message signature leaf
        → (end ≡ ending.NoMemory) ⊎ (end ≡ ending.Verified (Accepted leaf)) }
{}

/// What is left of a call with a command's words if nothing outside fails: store and net tell their content and do not
/// fail except for their arguments, and the output has room for its line.
///
/// Status 10 never comes, status 3 only if nothing is read under a name that the command reads, takes or views, and
/// status 17 only if the net does not offer its place. Every other end is that of a test that the command's rules tell,
/// or means that memory ran out. The end whose line is printed tells that each name is there that the command asks for
/// before the test that this end shows, with two limits: a file that is too long tells of the first name alone, and no
/// end tells that a trustee's book is not named as its journal.
///
/// If a command served, its place is offered, no port failed to accept, and no reply tells of a device that failed. A
/// trustee granted each ask that is granted on the entries that its turn met. No link failed if all have room for
/// 65,536 of the longest replies. If links have room for the asks of the longest message, a session lost a member only
/// because nobody could be dialled, because its link ended or what it sent is no frame of a reply, or because no
/// address names it. This also holds if there was no memory for the line.
pub fn steady<S: Store>(before: &S, after: &S)
    ensures { (words : List (List ℕ)) (row : Row) (net_old net_new : NetState) (time later : TimeState)
        (output : OutputRun) (status : ℕ) → command_of words ≡ Some row
        → let world = world_of (outside_of (S.state before.now) net_old time)
        (outside_of (S.state after.now) net_new later) output in
        (run : ToolRun words world status) → IsSteadyWorld run → HasCauses world row status }
{
    steady_trustee(before, after);
    steady_aggregate(before, after);
}
