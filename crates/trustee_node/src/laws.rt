//! What follows from the definitions. No function here does anything.

ghost use Rattle.std.specs.Prelude.{ℕ, All, List, Option, length};
ghost use Rattle.lms_bytes.specs.declared.ask.Ask.{Ask};
ghost use Rattle.opening_journal.specs.Entries.{IsLegalList, JournalState};
ghost use Rattle.opening_journal.specs.declared.entry.Entry.{Entry};
ghost use Rattle.round_frames.specs.Asks.{HasSizes};
ghost use Rattle.round_frames.specs.Frames.{ReadsBack};
ghost use Rattle.round_frames.specs.Replies.{HasParts, replies};
ghost use Rattle.share_files.specs.declared.share.Share.{Share};
ghost use Rattle.trustee_core.specs.Lives.{OneOpening};
ghost use Rattle.trustee_node.specs.Places.{IsLegal, Runs, StandInLog, StandUnder, granted_by};
ghost use Rattle.trustee_node.specs.Replies.{KeepsSizes, reply_body, reply_bytes, reply_head};
ghost use Rattle.trustee_node.specs.Turns.{Outcome, ServedTurns, Turn};

/// Each turn met the first entries of the last log, no fewer than there were at the start and than the turns before it
/// left, and what it added stands just after them.
pub fn turns_stand_in_the_log()
    ensures { (share : Share) (ids : Option (List (List ℕ))) (log last : List Entry) (turns : List Turn)
        → ServedTurns share ids log turns last → StandInLog last (length log) turns }
{}

/// The grants in all turns of passes are of one opening if one legal log goes on from all their logs, whatever books
/// they were asked under.
pub fn one_opening()
    ensures { (share : Share) (last : List Entry) (passes : List (List Turn)) → IsLegalList last
        → All (StandUnder share last) passes → OneOpening share (granted_by passes) }
{}

/// The same through all runs of one journal, one after another, whether an entry in doubt was made or was not.
pub fn one_opening_of_runs()
    ensures { (share : Share) (before last : JournalState) (passes : List (List Turn)) → IsLegal before
        → Runs share before passes last → OneOpening share (granted_by passes) }
{}

/// A reply whose parts have their lengths is read back as its head and what follows it.
pub fn replies_are_read()
    ensures { (share : Share) (ask : Ask) (outcome : Outcome) → HasParts (reply_head share ask outcome)
        → HasSizes share.params ask → KeepsSizes share.params outcome
        → ReadsBack (replies share.params) (reply_bytes share ask outcome)
        (reply_head share ask outcome, reply_body share ask outcome) }
{}
