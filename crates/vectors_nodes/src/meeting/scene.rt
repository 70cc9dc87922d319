//! What an aggregator signs with, from a dealing.

ghost use Rattle.std.specs.Prelude.{◌≡◌, IfSome};
ghost use Rattle.leaf_table.specs.Table.{plan_of};

use crate::disks::fresh_disk;
use aggregator_session::{Address, Desk};
use coalition_map::Plan;
use dealer::{Dealt, deal};
use disk_trait::MemDisk;
use leaf_table::Table;
use lms_bytes::{Params, PublicKey};
use reference_value::{Cells, Paged};
use share_files::HEAD;
use slot_file::Header;
use std::alloc::Global;

/// The bytes of a table of 32 leaves.
const TABLE: usize = 4224;

/// What an aggregator signs with, and the shares of the trustees. The place of a trustee is its number.
#[derive(Drop)]
pub(crate) struct Scene {
    pub(crate) dealt: Dealt,
    pub(crate) plan: Plan,
    pub(crate) addresses: Vec<Address>,
    pub(crate) ghost plan_height: { plan.h ≡ dealt.public.params.h },
    pub(crate) ghost hash_length: { dealt.tree.n ≡ dealt.public.params.n },
    pub(crate) ghost tree_height: { dealt.tree.h ≡ dealt.public.params.h },
}

impl Scene {
    /// Deals the key of this entropy: of the typecodes 5 and 3, for coalitions of 3 of 5 trustees.
    pub(crate) fn deal(alloc: Global, entropy: &[u8]) -> Option<Scene> {
        let params = Params::of_codes(5, 3).ok()?;
        let plan = Plan::new(5, 3, params.h).ok()?;
        Scene::of_plan(alloc, &params, plan, entropy)
    }

    /// Deals the key of this entropy, with these parameters and for the coalitions of this plan.
    fn of_plan(alloc: Global, params: &Params, plan: Plan, entropy: &[u8]) -> Option<Scene>
        requires { plan.h ≡ params.now.h }
    {
        let addresses = addresses(alloc)?;
        let dealt = dealing(alloc, params, &plan, entropy)?;
        Some(Scene {
            dealt,
            plan,
            addresses,
        })
    }

    /// Cells of the reference, on a disk of their own. The head is zeros: no cell is read there.
    pub(crate) fn cells(&self, alloc: Global) -> Option<Paged<MemDisk>>
        ensures set { IfSome result (λ own.
            ⟦<Paged<MemDisk> as Cells>⟧.set own ≡ self.now.dealt.public.params) }
        ensures plan { IfSome result (λ own. ⟦<Paged<MemDisk> as Cells>⟧.plan own ≡ self.now.plan) }
    {
        let disk = reference_disk(alloc, &self.dealt.reference)?;
        Some(Paged::new(&self.dealt.public.params, &self.plan, disk))
    }

    /// What the aggregator signs with.
    pub(crate) fn desk(&self) -> Desk<'_>
        ensures key { result.key.now ≡ self.now.dealt.public }
        ensures plan { result.plan.now ≡ self.now.plan }
        ensures tree { result.tree.now ≡ self.now.dealt.tree }
    {
        Desk {
            key: &self.dealt.public,
            plan: &self.plan,
            tree: &self.dealt.tree,
            addresses: &self.addresses,
        }
    }

    /// A fresh table for the leaves of the key.
    pub(crate) fn table(&self, alloc: Global) -> Option<Table<MemDisk>>
        ensures { IfSome result (λ table. plan_of table ≡ self.now.plan) }
    {
        let header = header(&self.dealt.public);
        let disk = fresh_disk(alloc, &header, TABLE)?;
        Table::load(alloc, disk, &header, &self.plan).ok()
    }
}

/// The header of a key's table.
fn header(key: &PublicKey) -> Header
    ensures { result.version ≡ 1 }
{
    Header {
        version: 1,
        number: 0,
        lms: key.params.lms,
        ots: key.params.ots,
        id: key.id,
    }
}

/// A disk with the file of a reference.
fn reference_disk(alloc: Global, reference: &[u8]) -> Option<MemDisk> {
    let mut bytes = vec![in alloc; 0; HEAD].ok()?;
    bytes.extend_from_slice(reference).ok()?;
    MemDisk::of_bytes(alloc, &bytes, bytes.len(), usize::MAX).ok()
}

/// The dealing of this entropy.
fn dealing(alloc: Global, params: &Params, plan: &Plan, entropy: &[u8]) -> Option<Dealt>
    requires { plan.now.h ≡ params.now.h }
    ensures params { IfSome result (λ dealt. dealt.public.params ≡ params.now) }
    ensures tree { IfSome result (λ dealt. (dealt.tree.n ≡ params.now.n) × (dealt.tree.h ≡ params.now.h)) }
{
    deal(alloc, params, plan, entropy).ok()
}

/// The addresses of the five trustees.
fn addresses(alloc: Global) -> Option<Vec<Address>> {
    let mut addresses = Vec::new(alloc);
    for member in 1..6 {
        let place = format!(in alloc; "{member}").ok()?;
        addresses.push(Address { member, place }).ok()?;
    }
    Some(addresses)
}
