//! Tests of what no clause says: that ports are served and come back in their order, and what answer a client gets.

ghost use Rattle.std.specs.Prelude.{◌≡◌, [], false, All, vec_len, IfOk, IfSome};
ghost use Rattle.leaf_table.specs.Table.{plan_of};

use crate::ports::{have_written, two_ports};
use aggregator_node::serve_clients;
use aggregator_session::{Address, Desk};
use coalition_map::Plan;
use disk_trait::{Faults, MemDisk};
use leaf_table::Table;
use lms_bytes::{Params, PublicKey, Val};
use memory::NoMemory;
use merkle_path::Tree;
use reference_value::{Cells, RefFault};
use slot_file::{Header, prepare};
use std::alloc::Global;
use std::process::Abort;
use std::sync::Wait;
use std::thread::Threads;
use stream_memory::MemPort;
use trustee_node::Totals;
use turn_lock::TurnsOnly;

/// A request for the signature of `hello` by trustees 1 and 2.
const REQUEST: [u8; 15] = [
    0x54, 0x4c, 1, 6, 0, 0, 0, 7, 0, 0b11, b'h', b'e', b'l', b'l', b'o',
];

/// Its failure: no reply came from trustee 1 in round one.
const FAILURE: [u8; 15] = [0x54, 0x4c, 1, 8, 0, 0, 0, 7, 6, 1, 1, 0, 0, 0, 0];

/// How many leaves the key has.
const LEAVES: u32 = 32;

/// A reference from which nothing can be read.
#[derive(Drop)]
struct Unread {
    params: Params,
    plan: Plan,
    faults: u64,
}

impl Faults for Unread {
    ghost count = { λ own. own.faults };

    ghost steady = { λ _. false };

    fn faults(&self) -> u64 {
        self.faults
    }
}

impl Cells for Unread {
    ghost set = { λ own. own.params };

    ghost plan = { λ own. own.plan };

    ghost told = { λ _. false };

    ghost leaves = { λ _. [] };

    fn cell(&mut self, _: u32, _: u16, _: u8) -> Result<Val, RefFault> {
        self.faults = self.faults.saturating_add(1);
        Err(RefFault)
    }

    fn randomizer(&mut self, _: u32) -> Result<Val, RefFault> {
        self.faults = self.faults.saturating_add(1);
        Err(RefFault)
    }

    fn tag(&mut self, _: u32, _: u8) -> Result<[u8; 32], RefFault> {
        self.faults = self.faults.saturating_add(1);
        Err(RefFault)
    }
}

/// What an aggregator signs with: a key of the typecodes 5 and 3 for coalitions of 2 of 3 trustees, whose tree is
/// zeros. Only trustee 1 has an address, and nobody listens there.
#[derive(Drop)]
struct Scene {
    key: PublicKey,
    plan: Plan,
    tree: Tree,
    addresses: Vec<Address>,
    ghost plan_height: { plan.h ≡ key.params.h },
    ghost hash_length: { tree.n ≡ key.params.n },
    ghost tree_height: { tree.h ≡ key.params.h },
}

/// The parameter set of the typecodes 5 and 3.
fn params(rt: &impl Abort) -> Params
    ensures { (result.n ≡ 32) × (result.h ≡ 5) }
{
    let params = Params::of_codes(5, 3).expect(rt, "typecodes");
    assert!(rt; params.h == 5 && params.n == 32);
    params
}

impl Scene {
    /// Makes the scene. Trustee 1 has to be dialled where nobody listens.
    fn new(rt: &impl Abort, alloc: Global) -> Scene {
        let params = params(rt);
        let plan = Plan::new(3, 2, 5).expect(rt, "a plan");
        let tree = Tree::of_nodes(alloc, &params, &[0; 32 * 63]).expect(rt, "memory");
        let place = String::from_str(alloc, "nowhere").expect(rt, "memory");
        let mut addresses = Vec::new(alloc);
        let pushed = addresses.push(Address { member: 1, place });
        assert!(rt; pushed.is_ok());
        let key = PublicKey {
            params,
            id: [0x1D; 16],
            root: Val::cut(&[0; 32], 32),
        };
        Scene {
            key,
            plan,
            tree,
            addresses,
        }
    }

    /// What the aggregator signs with.
    fn desk(&self) -> Desk<'_>
        ensures key { result.key.now ≡ self.now.key }
        ensures plan { result.plan.now ≡ self.now.plan }
        ensures tree { result.tree.now ≡ self.now.tree }
    {
        Desk {
            key: &self.key,
            plan: &self.plan,
            tree: &self.tree,
            addresses: &self.addresses,
        }
    }

    /// A fresh table for the leaves of the key.
    fn table(&self, alloc: Global) -> Option<Table<MemDisk>>
        ensures { IfSome result (λ table. plan_of table ≡ self.now.plan) }
    {
        let header = Header {
            version: 1,
            number: 0,
            lms: self.key.params.lms,
            ots: self.key.params.ots,
            id: self.key.id,
        };
        let mut disk = MemDisk::new(alloc, 128 * (LEAVES as usize + 1), usize::MAX).ok()?;
        prepare(&mut disk, &header, LEAVES).ok()?;
        Table::load(alloc, disk, &header, &self.plan).ok()
    }
}

/// The cells of one port.
fn own_cells(desk: &Desk) -> Unread
    ensures params { result.params ≡ desk.now.key.now.params }
    ensures plan { result.plan ≡ desk.now.plan.now }
{
    Unread {
        params: desk.key.params,
        plan: *desk.plan,
        faults: 0,
    }
}

/// The cells of two ports.
fn cells(alloc: Global, desk: &Desk) -> Result<Vec<Unread>, NoMemory>
    ensures count { IfOk result (λ cells. vec_len cells ≡ 2) }
    ensures own { IfOk result (λ cells. All (λ own. (own.params ≡ desk.now.key.now.params)
        × (own.plan ≡ desk.now.plan.now)) cells.items) }
{
    let mut cells = Vec::new(alloc);
    cells.push(own_cells(desk))?;
    cells.push(own_cells(desk))?;
    Ok(cells)
}

/// Serves the clients at two ports with the scene and a fresh table.
fn serve<R: Threads + Wait + Sync + Abort>(
    rt: &R,
    alloc: Global,
    scene: &Scene,
    ports: &mut Vec<MemPort>,
) -> Result<Totals, NoMemory>
    requires { vec_len ports.old ≡ 2 }
{
    let desk = scene.desk();
    let mut cells = cells(alloc, &desk)?;
    let table = scene.table(alloc).expect(rt, "a table");
    let turns = TurnsOnly::of(rt);
    let (_, served) = serve_clients(&turns, alloc, &desk, table, &mut cells, ports, 5);
    served
}

#[test]
fn a_request_at_a_port_is_answered(rt: HostRuntime) -> Result<(), NoMemory> {
    let scene = Scene::new(&rt, rt.alloc());
    let mut ports = two_ports(rt.alloc(), &[&REQUEST])?;
    let served = serve(&rt, rt.alloc(), &scene, &mut ports);
    let totals = Totals {
        connections: 1,
        frames: 1,
    };
    assert!(rt; served == Ok(totals));
    assert!(rt; have_written(&ports, &FAILURE));
    Ok(())
}
