//! The trustee.

ghost use Rattle.std.specs.Prelude.{◌≡◌, ◌≢◌, ◌≤◌, ◌^◌, [], length, IfOk, IfErr, IfSome, OnOk, None, Some, Ok, Err};
ghost use Rattle.opening_journal.specs.Entries.{JournalState, StandsFor};
ghost use Rattle.lms_bytes.specs.declared.ask.Second.{Second};
ghost use Rattle.opening_journal.specs.Opening.{Binds, Opens};
ghost use Rattle.opening_journal.specs.declared.entry.Entry.{Entry};
ghost use Rattle.opening_journal.specs.Journal.{Enters, Holds, IsTold, disk_of, header_of, params_of, state_of};
ghost use Rattle.trustee_core.specs.Codes.{refusal_code};
ghost use Rattle.trustee_core.specs.Decisions.{Decides, FailsTest, HasTag, IsForLeaf, PassesTests, answer_in};
ghost use Rattle.trustee_core.specs.Decisions.{answer_of};
ghost use Rattle.trustee_core.specs.Grants.{ask_of};
ghost use Rattle.trustee_core.specs.Lives.{Lives};
ghost use Rattle.trustee_core.specs.Notes.{HasNote, Notes, entries_in, first_notes};
ghost use Rattle.trustee_core.specs.declared.note.Note.TheVariants.{Doubted};

use crate::MESSAGE_LIMIT;
use crate::grant::Grant;
use crate::keeper::KeyKeeper;
use crate::note::NoteLog;
use crate::refusal::Refusal;
use disk_trait::Disk;
use lms_bytes::{Ask, Second};
use mask_prf::check_tag;
use opening_journal::{Entered, Journal, JournalFault};
use share_files::Share;
use std::snapshot::Snapshot;

/// A trustee: its share, and its journal on a disk.
#[derive(Drop)]
pub struct Trustee<D: Disk> {
    share: Share,
    journal: Journal<D>,
    log: NoteLog,
    ghost params: { params_of journal ≡ share.params },
    ghost header: { header_of journal ≡ record {
      version = 2;
      number = share.member;
      lms = share.params.lms;
      ots = share.params.ots;
      id = share.id;
    } },
    ghost made: { entries_in log.notes ≡ (state_of journal).entries },
    ghost doubted: { (entry : Entry) → (state_of journal).doubt ≡ Some entry → HasNote log.notes (Doubted entry) },
}

impl<D: Disk> Trustee<D> {
    ghost use Rattle.trustee_core.specs.Trustee.{Decided, journal_header, journal_of, notes_of, share_of};

    /// The trustee of this share, given its journal. A journal that was loaded from what an earlier life left goes on
    /// with that life.
    pub fn new(share: Share, journal: Journal<D>) -> Trustee<D>
        requires header { header_of journal ≡ journal_header share }
        requires params { params_of journal ≡ share.params }
        ensures share { share_of result ≡ share }
        ensures journal { journal_of result ≡ journal }
        ensures notes { notes_of result ≡ first_notes (state_of journal) }
        ensures restarts { IsTold journal → (state_of journal).doubt ≡ None → (earlier : JournalState)
            → StandsFor share.params.n (2 ^ share.params.h) (D.reads (disk_of journal)) earlier
            → Lives share earlier [] (state_of journal) }
    {
        let log = NoteLog::of(&journal);
        Trustee {
            share,
            journal,
            log,
        }
    }

    /// The trustee of the share that is kept, as `new` makes it.
    pub fn of_keeper(share: &KeyKeeper, journal: Journal<D>) -> Trustee<D>
        requires header { header_of journal ≡ journal_header share.now }
        requires params { params_of journal ≡ share.now.params }
        ensures share { share_of result ≡ share.now }
        ensures journal { journal_of result ≡ journal }
        ensures notes { notes_of result ≡ first_notes (state_of journal) }
        ensures restarts { IsTold journal → (state_of journal).doubt ≡ None → (earlier : JournalState)
            → StandsFor share.now.params.n (2 ^ share.now.params.h) (D.reads (disk_of journal)) earlier
            → Lives share.now earlier [] (state_of journal) }
    {
        Trustee::new(*share.share(), journal)
    }

    /// Decides on an ask at a moment, in seconds since the start of 1970. The randomizer and the digest of a round-two
    /// ask have `n` bytes. A grant comes only after the sync that makes its entry stable. A refusal by a test that
    /// needs no journal leaves the trustee as it is, and if no entry is in doubt only a new entry makes calls of the
    /// disk.
    pub fn decide(&mut self, ask: &Ask, moment: u64) -> Result<Grant, Refusal>
        requires c { IfSome ask.now.second (λ second. length second.c ≡ (share_of self.old).params.n) }
        requires digest { IfSome ask.now.second (λ second. length second.digest ≡ (share_of self.old).params.n) }
        ensures event { Decides (share_of self.old) (state_of (journal_of self.old)) ask.now moment (answer_in result)
            (state_of (journal_of self.new)) }
        ensures ask { IfOk result (λ grant. ask_of grant ≡ ask.now) }
        ensures tested { IfErr result (λ why. refusal_code why ≤ 5 → self.new ≡ self.old) }
        ensures idle { (state_of (journal_of self.old)).doubt ≡ None
            → result ≢ Err (Refusal.Journal JournalFault.Device)
            → (state_of (journal_of self.new)).entries ≡ (state_of (journal_of self.old)).entries
            → journal_of self.new ≡ journal_of self.old }
        ensures notes { Notes ask.now moment (answer_in result) (notes_of self.old) (notes_of self.new) }
        ensures decided { Decided self.old self.new result }
    {
        if let Err(why) = test(&self.share, ask) {
            return Err(why);
        }
        match self.enter(ask, moment) {
            Ok(_) => Ok(Grant { ask: *ask }),
            Err(fault) => Err(Refusal::Journal(fault)),
        }
    }

    // Enters an ask that passes the tests into the journal, and notes what came of it.
    fn enter(&mut self, ask: &Ask, moment: u64) -> Result<Entered, JournalFault>
        requires ask { PassesTests (share_of self.old) ask.now }
        ensures event { Decides (share_of self.old) (state_of (journal_of self.old)) ask.now moment (answer_of result)
            (state_of (journal_of self.new)) }
        ensures idle { (state_of (journal_of self.old)).doubt ≡ None → result ≢ Ok Entered.New
            → result ≢ Err JournalFault.Device → journal_of self.new ≡ journal_of self.old }
        ensures added { result ≡ Ok Entered.New
            → (state_of (journal_of self.new)).entries ≢ (state_of (journal_of self.old)).entries }
        ensures enters { Enters (journal_of self.old) (journal_of self.new) result }
        ensures share { share_of self.new ≡ share_of self.old }
        ensures notes { Notes ask.now moment (answer_of result) (notes_of self.old) (notes_of self.new) }
    {
        let result = enter_journal(&self.share, &mut self.journal, ask, moment);
        let entering = Entering {
            log: Snapshot::of(&self.log),
            journal: Snapshot::of(&self.journal),
            ask: Snapshot::of(ask),
            moment,
            result: Snapshot::of(&result),
        };
        self.log = NoteLog::of(&entering);
        result
    }

    /// Gives the disk back.
    pub fn end(self) -> D
        ensures disk { result ≡ disk_of (journal_of self) }
        ensures header { header_of (journal_of self) ≡ journal_header (share_of self) }
        ensures params { params_of (journal_of self) ≡ (share_of self).params }
        ensures holds { Holds (journal_of self) }
    {
        self.journal.end()
    }
}

/// A call of the journal, as it is shown to the notes.
#[derive(Drop)]
struct Entering<D: Disk> {
    /// The notes before it.
    log: Snapshot<NoteLog>,
    /// The journal after it.
    journal: Snapshot<Journal<D>>,
    ask: Snapshot<Ask>,
    moment: u64,
    result: Snapshot<Result<Entered, JournalFault>>,
}

/// Enters an ask that passes the tests into the journal: round one binds its leaf, and round two opens it.
fn enter_journal<D: Disk>(
    share: &Share,
    journal: &mut Journal<D>,
    ask: &Ask,
    moment: u64,
) -> Result<Entered, JournalFault>
    requires params { params_of journal.old ≡ share.now.params }
    requires ask { PassesTests share.now ask.now }
    ensures event { Decides share.now (state_of journal.old) ask.now moment (answer_of result) (state_of journal.new) }
    ensures idle { (state_of journal.old).doubt ≡ None → result ≢ Ok Entered.New → result ≢ Err JournalFault.Device
        → journal.new ≡ journal.old }
    ensures added { result ≡ Ok Entered.New → (state_of journal.new).entries ≢ (state_of journal.old).entries }
    ensures enters { Enters journal.old journal.new result }
    ensures binds { ask.now.second ≡ None
        → Binds (state_of journal.old) ask.now.leaf ask.now.message result (state_of journal.new) }
    ensures opens { (pair : Second) → ask.now.second ≡ Some pair
        → Opens (state_of journal.old) ask.now.leaf ask.now.message pair.c pair.digest moment result
        (state_of journal.new) }
{
    let (leaf, message) = (ask.leaf, &ask.message);
    match &ask.second {
        None => journal.bind(leaf, message),
        Some(second) => journal.open_leaf(leaf, message, &second.c, &second.digest, moment),
    }
}

/// The tests that need no journal, in their order.
fn test(share: &Share, ask: &Ask) -> Result<(), Refusal>
    ensures own { OnOk result (IsForLeaf share.now ask.now) }
    ensures tag { OnOk result (IfSome ask.now.second (HasTag share.now ask.now)) }
    ensures refused { IfErr result (FailsTest share.now ask.now) }
{
    if let Err(why) = test_leaf(share, ask) {
        return Err(why);
    }
    match &ask.second {
        None => Ok(()),
        Some(second) => test_tag(share, ask, second),
    }
}

/// Whether the ask is for a leaf of the trustee's own, of a message within the limit.
fn test_leaf(share: &Share, ask: &Ask) -> Result<(), Refusal>
    ensures own { OnOk result (IsForLeaf share.now ask.now) }
    ensures refused { IfErr result (FailsTest share.now ask.now) }
{
    if ask.key != share.id {
        return Err(Refusal::ForeignKey);
    }
    if ask.leaf >= share.params.leaves() {
        return Err(Refusal::NoSuchLeaf);
    }
    if !share.plan.is_member(ask.leaf, share.member) {
        return Err(Refusal::NotMember);
    }
    let got = ask.message.length;
    if got > MESSAGE_LIMIT {
        return Err(Refusal::TooLong { got });
    }
    Ok(())
}

/// Whether the check tag is the trustee's own for the randomizer.
fn test_tag(share: &Share, ask: &Ask, second: &Second) -> Result<(), Refusal>
    requires own { IsForLeaf share.now ask.now }
    requires second { ask.now.second ≡ Some second.now }
    ensures tag { OnOk result (HasTag share.now ask.now second.now) }
    ensures refused { IfErr result (FailsTest share.now ask.now) }
{
    // The comparison need not hide how long it takes: a forged tag spends the leaf on another randomizer, and never
    // opens it twice.
    if second.tag != check_tag(&share.key, &share.id, ask.leaf, &second.c) {
        return Err(Refusal::BadCheck);
    }
    Ok(())
}
