//! What happens to a trustee whose journal is on a disk in memory.

ghost use Rattle.std.specs.Prelude.{◌≡◌, ◌≢◌, ◌<◌, ℕ, length, None, IfOk, IfSome, IsSome, IsTrue};
ghost use Rattle.disk_trait.specs.MemDisk.{MayLeave, is_steady};
ghost use Rattle.lms_bytes.specs.declared.ask.Second.{Second};
ghost use Rattle.drill_trustees.specs.declared.member.Answer.{Answer};
ghost use Rattle.drill_trustees.specs.Members.{CutSets, HasJournal, MayAsk, SameLeaves, Sets, answer_to, leaf_in};
ghost use Rattle.drill_trustees.specs.Members.{state_after};
ghost use Rattle.opening_journal.specs.Entries.{IsFree, map_of, state_in_file};
ghost use Rattle.opening_journal.specs.Journal.{IsSteady, header_of as journal_header_of, params_of, state_of};
ghost use Rattle.opening_journal.specs.Loading.{IsJournalFile};
ghost use Rattle.trustee_core.specs.Grants.{ask_of};
ghost use Rattle.trustee_core.specs.Trustee.{journal_header};

use crate::member::{Answer, Member};
use disk_trait::MemDisk;
use lms_bytes::Ask;
use memory::NoMemory;
use opening_journal::{Journal, JournalFault, JournalLoad};
use share_files::Share;
use slot_file::{Header, PrepareFault, prepare};
use std::alloc::Global;
use trustee_core::{Grant, Refusal, Trustee};

/// How many leaves the key of a drill has.
const LEAVES: u32 = 32;

/// The bytes of a journal with a slot for each leaf.
const ROOM: usize = 5248;

/// The moment of every ask.
const MOMENT: u64 = 0;

/// The header of a trustee's journal.
fn header_of(share: &Share) -> Header
    ensures { result ≡ journal_header share.now }
{
    Header {
        version: 2,
        number: share.member,
        lms: share.params.lms,
        ots: share.params.ots,
        id: share.id,
    }
}

/// The journal of a share on this disk; `None` if the disk failed while it was loaded.
fn load_journal(
    alloc: Global,
    share: &Share,
    disk: MemDisk,
) -> Result<Option<Journal<MemDisk>>, NoMemory>
    requires file { IsJournalFile (journal_header share.now) 32 disk.bytes }
    requires hash_length { share.now.params.n ≡ 32 }
    requires height { share.now.params.h ≡ 5 }
    ensures header { IfOk result (λ found.
        IfSome found (λ journal. journal_header_of journal ≡ journal_header share.now)) }
    ensures params { IfOk result (λ found. IfSome found (λ journal. params_of journal ≡ share.now.params)) }
    ensures settled { IfOk result (λ found. IfSome found (λ journal. (state_of journal).doubt ≡ None)) }
    ensures leaves { IfOk result (λ found. IfSome found (λ journal.
        (q : ℕ) → q < 32 → map_of (state_of journal).entries q ≡ state_in_file 32 disk.bytes q)) }
    ensures steady { IsTrue (is_steady disk) → IfOk result (λ found. IfSome found IsSteady) }
    ensures some { IsTrue (is_steady disk) → IfOk result IsSome }
{
    match Journal::load(alloc, disk, &header_of(share), &share.params) {
        Ok(journal) => Ok(Some(journal)),
        Err((_, fault)) => match fault {
            JournalLoad::Device => Ok(None),
            JournalLoad::NoMemory => Err(NoMemory),
            JournalLoad::Slots(_) => unreachable!(),
            JournalLoad::Damaged { .. } => unreachable!(),
        },
    }
}

/// The trustee of a share whose journal is on this disk.
fn load(alloc: Global, share: &Share, disk: MemDisk) -> Result<Member, NoMemory>
    requires steady { IsTrue (is_steady disk) }
    requires file { IsJournalFile (journal_header share.now) 32 disk.bytes }
    requires hash_length { share.now.params.n ≡ 32 }
    requires height { share.now.params.h ≡ 5 }
    ensures share { IfOk result (λ member. member.share ≡ share.now) }
    ensures leaves { IfOk result (λ member. (q : ℕ) → q < 32 → leaf_in member q ≡ state_in_file 32 disk.bytes q) }
{
    match load_journal(alloc, share, disk)? {
        Some(journal) => Ok(Member {
            share: *share,
            trustee: Trustee::new(*share, journal),
        }),
        None => unreachable!(),
    }
}

/// What became of an ask, by the decision on it.
fn answer_of(decision: Result<Grant, Refusal>) -> Answer
    ensures { result ≡ answer_to decision }
{
    match decision {
        Ok(grant) => Answer::Granted(grant),
        Err(Refusal::Journal(JournalFault::Device)) => Answer::Stopped,
        Err(
            Refusal::ForeignKey
            | Refusal::NoSuchLeaf
            | Refusal::NotMember
            | Refusal::TooLong { .. }
            | Refusal::BadCheck
            | Refusal::Journal(_),
        ) => Answer::Refused,
    }
}

/// A steady disk of the same bytes.
fn steady_copy(alloc: Global, disk: &MemDisk) -> Result<MemDisk, NoMemory>
    ensures image { IfOk result (λ copy. MayLeave disk.now copy.bytes) }
    ensures bytes { IfOk result (λ copy. copy.bytes ≡ disk.now.bytes) }
    ensures steady { IfOk result (λ copy. IsTrue (is_steady copy)) }
{
    MemDisk::of_bytes(alloc, disk.bytes(), disk.capacity(), usize::MAX)
}

/// A disk of the same bytes that stops at the device call of number `pick` modulo 4 of the next ask.
fn stopping_copy(alloc: Global, disk: &MemDisk, pick: u32) -> Result<MemDisk, NoMemory>
    ensures { IfOk result (λ copy. copy.bytes ≡ disk.now.bytes) }
{
    // Loading makes one sync.
    let calls = 1 + pick as usize % 4;
    MemDisk::of_bytes(alloc, disk.bytes(), disk.capacity(), calls)
}

/// What a crash of this pick leaves of a disk.
fn crashed(alloc: Global, disk: MemDisk, pick: u32) -> Result<MemDisk, NoMemory>
    ensures image { IfOk result (λ image. MayLeave disk image.bytes) }
    ensures steady { IfOk result (λ image. IsTrue (is_steady image)) }
{
    match disk.crash(alloc, pick as u64) {
        Ok(image) => Ok(image),
        Err(_) => Err(NoMemory),
    }
}

/// The disk that a trustee goes on with after an ask: if its disk stopped, what a crash leaves.
fn disk_after(alloc: Global, disk: MemDisk, answer: &Answer, pick: u32) -> Result<MemDisk, NoMemory>
    ensures image { IfOk result (λ image. MayLeave disk image.bytes) }
    ensures same { answer.now ≢ Answer.Stopped → IfOk result (λ image. image.bytes ≡ disk.bytes) }
    ensures steady { IfOk result (λ image. IsTrue (is_steady image)) }
{
    match answer {
        Answer::Stopped => crashed(alloc, disk, pick),
        Answer::Granted(_) | Answer::Refused => steady_copy(alloc, &disk),
    }
}

impl Member {
    /// A trustee that has answered nothing.
    pub fn new(alloc: Global, share: &Share) -> Result<Member, NoMemory>
        requires hash_length { share.now.params.n ≡ 32 }
        requires height { share.now.params.h ≡ 5 }
        ensures share { IfOk result (λ member. member.share ≡ share.now) }
        ensures free { IfOk result (λ member. (q : ℕ) → q < 32 → leaf_in member q ≡ IsFree) }
    {
        let mut disk = MemDisk::new(alloc, ROOM, usize::MAX)?;
        match prepare(&mut disk, &header_of(share), LEAVES) {
            Ok(()) => load(alloc, share, disk),
            Err(fault) => match fault {
                PrepareFault::NotEmpty { .. } => unreachable!(),
                PrepareFault::Device => unreachable!(),
            },
        }
    }

    /// Puts an ask to it.
    pub fn ask(self, ask: &Ask) -> (Member, Option<Grant>)
        requires c { IfSome ask.now.second (λ (second : Second). length second.c ≡ 32) }
        requires digest { IfSome ask.now.second (λ (second : Second). length second.digest ≡ 32) }
        ensures share { result.0.share ≡ self.share }
        ensures ask { IfSome result.1 (λ grant. ask_of grant ≡ ask.now) }
        ensures granted { MayAsk self.share (leaf_in self) ask.now → IsSome result.1 }
        ensures sets { MayAsk self.share (leaf_in self) ask.now
            → Sets (leaf_in self) (leaf_in result.0) ask.now.leaf (state_after ask.now) }
    {
        let Member { share, mut trustee } = self;
        match trustee.decide(ask, MOMENT) {
            Ok(grant) => (Member { share, trustee }, Some(grant)),
            Err(_) => (Member { share, trustee }, None),
        }
    }

    /// Loads it anew from its disk.
    pub fn restarted(self, alloc: Global) -> Result<Member, NoMemory>
        ensures share { IfOk result (λ member. member.share ≡ self.share) }
        ensures leaves { IfOk result (λ member. SameLeaves (leaf_in self) (leaf_in member)) }
    {
        let Member { share, trustee } = self;
        load(alloc, &share, trustee.end())
    }

    /// Puts an ask to it while its disk stops at the device call of number `pick` modulo 4 of this ask. If it stopped,
    /// the trustee goes on from what a crash of this pick leaves.
    pub fn cut(self, alloc: Global, ask: &Ask, pick: u32) -> Result<(Member, Answer), NoMemory>
        requires c { IfSome ask.now.second (λ (second : Second). length second.c ≡ 32) }
        requires digest { IfSome ask.now.second (λ (second : Second). length second.digest ≡ 32) }
        ensures share { IfOk result (λ pair. pair.0.share ≡ self.share) }
        ensures sets { MayAsk self.share (leaf_in self) ask.now
            → IfOk result (λ pair. CutSets (leaf_in self) (leaf_in pair.0) ask.now pair.1) }
    {
        let Member { share, trustee } = self;
        let disk = trustee.end();
        let stopping = stopping_copy(alloc, &disk, pick)?;
        match load_journal(alloc, &share, stopping)? {
            Some(journal) => ask_stopping(alloc, &share, journal, ask, pick),
            None => Ok((load(alloc, &share, disk)?, Answer::Stopped)),
        }
    }

    /// Its disk.
    pub fn end(self) -> MemDisk
        ensures { HasJournal self result }
    {
        self.trustee.end()
    }
}

/// Puts an ask to a trustee whose disk may stop, and loads it anew.
fn ask_stopping(
    alloc: Global,
    share: &Share,
    journal: Journal<MemDisk>,
    ask: &Ask,
    pick: u32,
) -> Result<(Member, Answer), NoMemory>
    requires header { journal_header_of journal ≡ journal_header share.now }
    requires params { params_of journal ≡ share.now.params }
    requires settled { (state_of journal).doubt ≡ None }
    requires hash_length { share.now.params.n ≡ 32 }
    requires height { share.now.params.h ≡ 5 }
    requires c { IfSome ask.now.second (λ (second : Second). length second.c ≡ 32) }
    requires digest { IfSome ask.now.second (λ (second : Second). length second.digest ≡ 32) }
    ensures share { IfOk result (λ pair. pair.0.share ≡ share.now) }
    ensures sets { MayAsk share.now (map_of (state_of journal).entries) ask.now
        → IfOk result (λ pair.
        CutSets (map_of (state_of journal).entries) (leaf_in pair.0) ask.now pair.1) }
{
    let mut trustee = Trustee::new(*share, journal);
    let answer = answer_of(trustee.decide(ask, MOMENT));
    let disk = disk_after(alloc, trustee.end(), &answer, pick)?;
    Ok((load(alloc, share, disk)?, answer))
}
