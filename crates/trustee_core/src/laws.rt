//! What follows from the definitions. No function here does anything.

ghost use Rattle.std.specs.Prelude.{◌≡◌, ◌^◌, ℕ, List, All, None};
ghost use Rattle.lms_bytes.specs.declared.ask.Ask.{Ask};
ghost use Rattle.opening_journal.specs.Entries.{JournalState};
ghost use Rattle.share_files.specs.declared.share.Share.{Share};
ghost use Rattle.trustee_core.specs.Approvals.{BookAnswered, BookLives, IsApproved, decided_in};
ghost use Rattle.trustee_core.specs.Decisions.{Answer, Decides};
ghost use Rattle.trustee_core.specs.Growth.{Extends, MapGrows};
ghost use Rattle.trustee_core.specs.Lives.{Answered, Lives, OneOpening, granted_in};

/// Whatever is asked, and however the journal is stopped and loaded again, a trustee answers for at most one message
/// per leaf, and for one randomizer and one digest, and what it keeps of the leaves only grows.
pub fn one_opening()
    ensures opening { (share : Share) (before last : JournalState) (answers : List Answered) → before.doubt ≡ None
        → Lives share before answers last → OneOpening share (granted_in answers) }
    ensures grows { (share : Share) (before last : JournalState) (answers : List Answered) → before.doubt ≡ None
        → Lives share before answers last → MapGrows (2 ^ share.params.h) before.entries last.entries }
{}

/// A decision adds to the end of the list: at most the entry in doubt, and at most one more.
pub fn decision_extends()
    ensures { (share : Share) (before after : JournalState) (ask : Ask) (moment : ℕ) (answer : Answer)
        → Decides share before ask moment answer after → Extends before after.entries }
{}

/// Whatever is asked, the answers of a trustee with a book to the asks that were not denied are those of one without,
/// so all that is said of such a trustee's answers holds. A grant of round one is for a message that the book lists,
/// and a denial names a message that it does not.
pub fn only_approved()
    ensures lives { (share : Share) (before last : JournalState) (answers : List BookAnswered)
        → BookLives share before answers last → Lives share before (decided_in answers) last }
    ensures approved { (share : Share) (before last : JournalState) (answers : List BookAnswered)
        → BookLives share before answers last → All IsApproved answers }
{}
