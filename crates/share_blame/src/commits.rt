//! Commitments that are read from pages.

ghost use Rattle.std.specs.Prelude.{◌≡◌, ◌≢◌, ◌↔◌, None, Some, Ok, Err, IfErr, IfOk, IsOk, IsTrue, OnErr, OnOk};
ghost use Rattle.std.specs.Prelude.{◌+◌, ◌≤◌, ◌^◌, length};
ghost use Rattle.sha2.specs.Sha256.{sha256};
ghost use Rattle.disk_trait.specs.Faults.{HasCause, Rose};
ghost use Rattle.lms_bytes.specs.Bytes.{bytes_at};
ghost use Rattle.share_files.specs.Commits.{commits_length};
ghost use Rattle.share_files.specs.declared.faults.FileFault.{FileFault};
ghost use Rattle.share_blame.specs.Commits.{AreOf, PagesStay, leaves_on, pages_of};
ghost use Rattle.share_blame.specs.Loads.{IsOfKey, IsOfPlan, commits_fault, difference};
ghost use Rattle.share_blame.specs.declared.faults.CommitsFault.TheVariants.{Device, File};

use crate::faults::CommitsFault;
use crate::places::Places;
use disk_trait::Pages;
use reference_value::{RefFault, read_behind_header};
use sha2::{Digest, Sha256};
use share_files::{FileFault, HEAD, RefHeader, read_commits_header};

/// The commitments of a dealing on pages, after a head of 32 bytes. Each takes one read, at the place wanted.
#[derive(Drop)]
pub struct Commits<V: Pages> {
    pub(crate) places: Places,
    pub(crate) pages: V,
}

impl<V: Pages> Commits<V> {
    /// The commitments on these pages, which go with the reference of this header. Only their head is read.
    pub fn load(pages: V, header: &RefHeader) -> Result<Commits<V>, (V, CommitsFault)>
        ensures loaded { IfOk result (λ commits. AreOf header.now.params header.now.plan commits
            × PagesStay V.Pages.own V.Faults pages (pages_of commits)
            × (V.count (pages_of commits) ≡ V.count pages)) }
        ensures faultless { IsTrue (V.told pages) → OnOk result (commits_fault header.now (V.reads pages) ≡ None) }
        ensures length { IsTrue (V.told pages)
            → OnOk result (length (V.reads pages) ≡ commits_length header.now.params header.now.plan) }
        ensures back { IfErr result (λ e. PagesStay V.Pages.own V.Faults pages e.0) }
        ensures file { IfErr result (λ e. (fault : FileFault) → e.1 ≡ File fault
            → (V.count e.0 ≡ V.count pages)
            × (IsTrue (V.told pages) → commits_fault header.now (V.reads pages) ≡ Some fault)) }
        ensures device { IfErr result (λ e. e.1 ≡ Device → Rose (V.count pages) (V.count e.0)) }
        ensures succeeds { IsTrue (V.told pages) → IsTrue (V.steady pages) → IfErr result (λ e. e.1 ≢ Device) }
    {
        let mut pages = pages;
        match test_head(&mut pages, header) {
            Ok(()) => Ok(Commits {
                places: Places {
                    params: header.params,
                    plan: header.plan,
                },
                pages,
            }),
            Err(fault) => Err((pages, fault)),
        }
    }

    /// Gives the pages back.
    pub fn end(self) -> V
        ensures { result ≡ pages_of self }
    {
        self.pages
    }
}

/// Tests that the commitment file on these pages goes with the reference of this header.
fn test_head<V: Pages>(pages: &mut V, header: &RefHeader) -> Result<(), CommitsFault>
    ensures faultless { IsTrue (V.told pages.old) → OnOk result (commits_fault header.now (V.reads pages.old) ≡ None) }
    ensures length { IsTrue (V.told pages.old)
        → OnOk result (length (V.reads pages.old) ≡ commits_length header.now.params header.now.plan) }
    ensures file { (fault : FileFault) → result ≡ Err (File fault)
        → IsTrue (V.told pages.old) → commits_fault header.now (V.reads pages.old) ≡ Some fault }
    ensures succeeds { IsTrue (V.told pages.old) → IsTrue (V.steady pages.old) → result ≢ Err Device }
    ensures rose { result ≡ Err Device → Rose (V.count pages.old) (V.count pages.new) }
    ensures still { result ≢ Err Device → V.count pages.new ≡ V.count pages.old }
    ensures stays { PagesStay V.Pages.own V.Faults pages.old pages.new }
{
    let Ok(length) = pages.len() else {
        return Err(CommitsFault::Device);
    };
    if length < HEAD as u64 {
        return Err(CommitsFault::File(FileFault::Length {
            got: length,
            want: HEAD as u64,
        }));
    }
    let mut head = [0; HEAD];
    let Ok(()) = pages.read_at(0, &mut head) else {
        return Err(CommitsFault::Device);
    };
    let found = match read_commits_header(&head, length) {
        Ok(found) => found,
        Err(fault) => return Err(CommitsFault::File(fault)),
    };
    match test_header(&found, header) {
        Ok(()) => Ok(()),
        Err(fault) => Err(CommitsFault::File(fault)),
    }
}

/// Tests that a commitment file is of the key and the plan of the reference.
fn test_header(found: &RefHeader, header: &RefHeader) -> Result<(), FileFault>
    ensures key { OnOk result (IsOfKey header.now found.now.id found.now.params.lms found.now.params.ots) }
    ensures plan { OnOk result (IsOfPlan header.now found.now.plan.k found.now.plan.n) }
    ensures faultless { OnOk result (difference header.now found.now.id found.now.params.lms found.now.params.ots
        found.now.plan.k found.now.plan.n ≡ None) }
    ensures refused { IfErr result (λ fault. difference header.now found.now.id found.now.params.lms
        found.now.params.ots found.now.plan.k found.now.plan.n ≡ Some fault) }
{
    if !is_of_key(found, header) {
        return Err(FileFault::OtherKey { got: found.id });
    }
    if !is_of_plan(found, header) {
        return Err(FileFault::Plan);
    }
    Ok(())
}

/// Whether a commitment file is of the key of the reference.
fn is_of_key(found: &RefHeader, header: &RefHeader) -> bool
    ensures { IsTrue result ↔ IsOfKey header.now found.now.id found.now.params.lms found.now.params.ots }
{
    found.id == header.id
        && found.params.lms == header.params.lms
        && found.params.ots == header.params.ots
}

/// Whether a commitment file is of the plan of the reference.
fn is_of_plan(found: &RefHeader, header: &RefHeader) -> bool
    ensures { IsTrue result ↔ IsOfPlan header.now found.now.plan.k found.now.plan.n }
{
    found.plan.k() == header.plan.k() && found.plan.n() == header.plan.n()
}

/// Whether the commitment at a place of the leaves is to another mask.
pub(crate) fn is_other<V: Pages>(pages: &mut V, place: usize, mask: &[u8]) -> Result<bool, RefFault>
    requires place { place ≤ 2 ^ 50 }
    ensures other { IsTrue (V.told pages.old)
        → IfOk result (λ b. IsTrue b ↔ (sha256 mask.now ≢ bytes_at (leaves_on V.Pages.own pages.old) place 32)) }
    ensures succeeds { IsTrue (V.steady pages.old) → IsTrue (V.told pages.old)
        → place + 32 ≤ length (leaves_on V.Pages.own pages.old) → IsOk result }
    ensures cause { HasCause (V.count pages.old) (V.count pages.new) result }
    ensures stays { PagesStay V.Pages.own V.Faults pages.old pages.new }
{
    let mut commitment = [0; 32];
    read_behind_header(pages, place, &mut commitment)?;
    let hash: [u8; 32] = Sha256::digest(mask);
    Ok(hash != commitment)
}
