//! The three trustees of a drill.

ghost use Rattle.std.specs.Prelude.{◌≡◌, ◌<◌, ◌≤◌, length, All, IfOk, IfSome, IsSome};
ghost use Rattle.drill_trustees.specs.Members.{MayAsk, state_after};
ghost use Rattle.drill_trustees.specs.Trustees.{AreJournals, AreNew, CutAt, SameAt, SameShares, SetsAt, leaf_at};
ghost use Rattle.drill_trustees.specs.Trustees.{member_at, put_back, share_at};
ghost use Rattle.share_files.specs.declared.share.Share.{Share};
ghost use Rattle.trustee_core.specs.Grants.{ask_of};

use crate::member::{Answer, Member};
use disk_trait::MemDisk;
use lms_bytes::Ask;
use memory::NoMemory;
use share_files::Share;
use std::alloc::Global;
use trustee_core::Grant;

/// Trustees 1, 2 and 3.
#[derive(Drop)]
pub struct Trustees {
    one: Member,
    two: Member,
    three: Member,
}

/// The trustees but for one of them.
#[derive(Drop)]
struct Others {
    missing: u8,
    first: Member,
    second: Member,
}

impl Others {
    /// All three, with the one that is missing.
    fn with(self, member: Member) -> Trustees
        ensures { result ≡ put_back self member }
    {
        let Others {
            missing,
            first,
            second,
        } = self;
        match missing {
            1 => Trustees {
                one: member,
                two: first,
                three: second,
            },
            2 => Trustees {
                one: first,
                two: member,
                three: second,
            },
            _ => Trustees {
                one: first,
                two: second,
                three: member,
            },
        }
    }
}

impl Trustees {
    /// Trustees of these shares that have answered nothing.
    pub fn new(alloc: Global, shares: &[Share]) -> Result<Trustees, NoMemory>
        requires count { length shares.now ≡ 3 }
        requires hash_length { All (λ (share : Share). share.params.n ≡ 32) shares.now }
        requires height { All (λ (share : Share). share.params.h ≡ 5) shares.now }
        ensures { IfOk result (AreNew shares.now) }
    {
        Ok(Trustees {
            one: Member::new(alloc, &shares[0])?,
            two: Member::new(alloc, &shares[1])?,
            three: Member::new(alloc, &shares[2])?,
        })
    }

    /// One of them, and the others.
    fn split(self, member: u8) -> (Member, Others)
        requires low { 1 ≤ member }
        requires high { member ≤ 3 }
        ensures member { result.0 ≡ member_at self member }
        ensures same { put_back result.1 result.0 ≡ self }
        ensures missing { result.1.missing ≡ member }
    {
        let Trustees { one, two, three } = self;
        match member {
            1 => (
                one,
                Others {
                    missing: 1,
                    first: two,
                    second: three,
                },
            ),
            2 => (
                two,
                Others {
                    missing: 2,
                    first: one,
                    second: three,
                },
            ),
            _ => (
                three,
                Others {
                    missing: 3,
                    first: one,
                    second: two,
                },
            ),
        }
    }

    /// The share of a trustee.
    pub fn share(&self, member: u8) -> &Share
        requires low { 1 ≤ member }
        requires high { member ≤ 3 }
        ensures share { result.now ≡ share_at self.now member }
        ensures hash_length { result.now.params.n ≡ 32 }
    {
        match member {
            1 => &self.one.share,
            2 => &self.two.share,
            _ => &self.three.share,
        }
    }

    /// Puts an ask to a trustee.
    pub fn ask(self, member: u8, ask: &Ask) -> (Trustees, Option<Grant>)
        requires low { 1 ≤ member }
        requires high { member ≤ 3 }
        requires c { IfSome ask.now.second (λ second. length second.c ≡ 32) }
        requires digest { IfSome ask.now.second (λ second. length second.digest ≡ 32) }
        ensures shares { SameShares self result.0 }
        ensures ask { IfSome result.1 (λ grant. ask_of grant ≡ ask.now) }
        ensures granted { MayAsk (share_at self member) (leaf_at self member) ask.now → IsSome result.1 }
        ensures sets { MayAsk (share_at self member) (leaf_at self member) ask.now
            → SetsAt self result.0 member ask.now.leaf (state_after ask.now) }
    {
        let (asked, others) = self.split(member);
        let (asked, grant) = asked.ask(ask);
        (others.with(asked), grant)
    }

    /// Loads a trustee anew from its disk.
    pub fn restarted(self, alloc: Global, member: u8) -> Result<Trustees, NoMemory>
        requires low { 1 ≤ member }
        requires high { member ≤ 3 }
        ensures shares { IfOk result (SameShares self) }
        ensures leaves { IfOk result (SameAt self) }
    {
        let (loaded, others) = self.split(member);
        Ok(others.with(loaded.restarted(alloc)?))
    }

    /// Puts an ask to a trustee while its disk stops at the device call of number `pick` modulo 4 of this ask. If it
    /// stopped, the trustee goes on from what a crash of this pick leaves.
    pub fn cut(
        self,
        alloc: Global,
        member: u8,
        ask: &Ask,
        pick: u32,
    ) -> Result<(Trustees, Answer), NoMemory>
        requires low { 1 ≤ member }
        requires high { member ≤ 3 }
        requires c { IfSome ask.now.second (λ second. length second.c ≡ 32) }
        requires digest { IfSome ask.now.second (λ second. length second.digest ≡ 32) }
        ensures shares { IfOk result (λ pair. SameShares self pair.0) }
        ensures sets { MayAsk (share_at self member) (leaf_at self member) ask.now
            → IfOk result (λ pair. CutAt self pair.0 member ask.now pair.1) }
    {
        let (asked, others) = self.split(member);
        let (asked, answer) = asked.cut(alloc, ask, pick)?;
        Ok((others.with(asked), answer))
    }

    /// Their disks, that of trustee 1 first.
    pub fn end(self, alloc: Global) -> Result<Vec<MemDisk>, NoMemory>
        ensures { IfOk result (λ disks. AreJournals self disks.items) }
    {
        let Trustees { one, two, three } = self;
        let mut disks = Vec::with_capacity(alloc, 3)?;
        disks.push(one.end())?;
        disks.push(two.end())?;
        disks.push(three.end())?;
        Ok(disks)
    }
}
