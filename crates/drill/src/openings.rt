//! What trustees opened leaves under.

ghost use Rattle.std.specs.Prelude.{◌≡◌, ◌≢◌, ◌<◌, ◌≤◌, [], count_by, false, length, All, IfOk, IsSome, IsTrue};
ghost use Rattle.drill.specs.Openings.{AreSingle, Notes, is_at};
ghost use Rattle.drill.specs.declared.openings.Opening.{Opening};

use lms_bytes::{Ask, Val};
use memory::NoMemory;
use std::alloc::Global;

/// A randomizer and a digest under which a trustee opened a leaf.
#[derive(Clone, Copy, PartialEq)]
pub(crate) struct Opening {
    pub(crate) member: u8,
    pub(crate) leaf: u32,
    pub(crate) c: Val,
    pub(crate) digest: Val,
}

/// All different openings that were granted.
#[derive(Drop)]
pub(crate) struct Openings {
    pub(crate) list: Vec<Opening>,
}

impl Openings {
    /// None yet.
    pub(crate) fn new(alloc: Global) -> Openings
        ensures { result.list.items ≡ [] }
    {
        Openings {
            list: Vec::new(alloc),
        }
    }

    /// Whether this opening is there.
    fn has(&self, opening: &Opening) -> bool
        ensures absent { result ≡ false → All (λ (kept : Opening). kept ≢ opening.now) self.now.list.items }
        ensures some { IsTrue result → 0 < length self.now.list.items }
    {
        'openings: for i in 0..self.list.len() {
            if self.list[i] == *opening {
                return true;
            }
        }
        false
    }

    /// Notes an ask if a trustee granted it: in round two it opens the leaf.
    pub(crate) fn note(&mut self, member: u8, ask: &Ask, granted: bool) -> Result<(), NoMemory>
        ensures notes { IfOk result (λ _. Notes self.old.list.items member ask.now self.new.list.items) }
        ensures some { IsTrue granted → IsSome ask.now.second → IfOk result (λ _. 0 < length self.new.list.items) }
    {
        if !granted {
            return Ok(());
        }
        let Some(second) = &ask.second else {
            return Ok(());
        };
        let opening = Opening {
            member,
            leaf: ask.leaf,
            c: second.c,
            digest: second.digest,
        };
        if self.has(&opening) {
            return Ok(());
        }
        self.list.push(opening)?;
        Ok(())
    }

    /// How many openings there are of one leaf by one trustee.
    fn count(&self, member: u8, leaf: u32) -> u32
        ensures most { result ≤ count_by (is_at member leaf) self.now.list.items }
        ensures least { 1 ≤ count_by (is_at member leaf) self.now.list.items → 1 ≤ result }
    {
        let mut count: u32 = 0;
        'openings: for i in 0..self.list.len() {
            if self.list[i].member == member && self.list[i].leaf == leaf {
                count = count.saturating_add(1);
            }
        }
        count
    }

    /// The most openings of one leaf by one trustee.
    pub(crate) fn most(&self) -> u32
        ensures single { AreSingle self.now.list.items → result ≤ 1 }
        ensures none { length self.now.list.items ≡ 0 → result ≡ 0 }
        ensures some { 0 < length self.now.list.items → 1 ≤ result }
    {
        let mut most = 0;
        'openings: for i in 0..self.list.len() {
            let count = self.count(self.list[i].member, self.list[i].leaf);
            if most < count {
                most = count;
            }
        }
        most
    }
}
