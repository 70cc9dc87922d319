//! What follows from the definitions. No function here does anything.

ghost use Rattle.std.specs.Prelude.{◌≡◌, IsTrue, List};
ghost use Rattle.opening_journal.specs.Entries.{JournalState};
ghost use Rattle.share_files.specs.declared.share.Share.{Share};
ghost use Rattle.tool_base.specs.Ending as ending;
ghost use Rattle.tool_trustee.specs.Lives.{ServedRuns};
ghost use Rattle.tool_trustee.specs.Steady.{GrantsAll, InAnyService};
ghost use Rattle.trustee_core.specs.Lives.{OneOpening};
ghost use Rattle.trustee_node.specs.Places.{IsLegal, granted_by};
ghost use Rattle.trustee_node.specs.Turns.{Turn};
ghost use Rattle.trustee_node.specs.Ports.{NoLinkFails, TakesAll, turns_in};

use stream_io::Store;

/// All that was granted at all ports by all runs of `trustee` over one journal is of one opening: for each leaf one
/// message id, and in round two one randomizer and one digest.
pub fn one_opening<S: Store>()
    ensures { (share : Share) (state : JournalState) (passes : List (List Turn)) → IsLegal state
        → ServedRuns share S.state state passes → OneOpening share (granted_by passes) }
{}

/// If the store tells its content and no call of it fails except because of its arguments, each ask that the trustee
/// grants on the entries that its turn met is granted, so it is answered with its masks. If the net is steady too, the
/// command ends with the numbers of what was served; and if its links also have room for 65,536 of the longest replies,
/// no connection ended by a link that failed.
pub fn steady_trustee<S: Store>(before: &S, after: &S)
    ensures grants { InAnyService (S.state before.now) (S.state after.now) (λ words old new end run.
        IsTrue old.store.told → IsTrue old.store.steady
        → GrantsAll run.share run.ids (turns_in run.net.served.runs)) }
    ensures ends { InAnyService (S.state before.now) (S.state after.now) (λ words old new end run.
        IsTrue old.net.steady → end ≡ ending.Served run.net.totals.connections run.net.totals.frames) }
    ensures links { InAnyService (S.state before.now) (S.state after.now) (λ words old new end run.
        IsTrue old.net.steady → TakesAll run.share.params old.net.room → NoLinkFails run.net.served.runs) }
{}
