//! A dealing whose reference is written onto a disk part by part, so that it never stands in memory whole.

ghost use Rattle.std.specs.Prelude.{◌≡◌, ◌≢◌, ◌+◌, ◌≤◌, [], false, length, true, Err, IfErr, IfOk, IsOk, IsTrue, OnOk};
ghost use Rattle.disk_trait.specs.Faults.{HasCause, RisesAt};
ghost use Rattle.disk_trait.specs.Gate.{AreUnready, NeverHalf};
ghost use Rattle.disk_trait.specs.Images.{Only};
ghost use Rattle.disk_trait.specs.SameDisk.{SameDisk};
ghost use Rattle.mask_prf.specs.Lengths.{leaves_length};
ghost use Rattle.reference_value.specs.Dealing.{Dealing};
ghost use Rattle.dealer.specs.Entropy.{dealing_of, entropy_length};
ghost use Rattle.dealer.specs.Faults.{HasFault};
ghost use Rattle.dealer.specs.Files.{reference_file};
ghost use Rattle.dealer.specs.Material.{are_asked, dealing_with};
ghost use Rattle.dealer.specs.Onto.{FailsOnto, FailsToBuild, HoldsShut, IsDealtOnto, IsKeyDealt, IsWritten};
ghost use Rattle.dealer.specs.OntoRoom.{IsRoomOf};
ghost use Rattle.dealer.specs.declared.faults.DealFault.{DealFault};
ghost use Rattle.dealer.specs.declared.onto.OntoFault.TheVariants.{Deal, Device};

use crate::building::build_public;
use crate::checks::test_dealing;
use crate::entropy::read_entropy;
use crate::faults::DealFault;
use crate::material::KeyMaterial;
use crate::onto_room::{OntoRoom, room_onto};
use crate::onto_writing::write_reference;
use coalition_map::Plan;
use disk_trait::{Disk, DiskFault, open_gate};
use lms_bytes::{Params, PublicKey};
use memory::NoMemory;
use merkle_path::Tree;
use share_files::Share;
use std::alloc::Global;
use std::fmt::{self, Formatter, Write};
use std::thread::Threads;
use stream_io::Progress;
use thiserror::Error;

/// The first byte of a reference, which is its gate.
const GATE: u8 = b'T';

/// What a dealing onto a disk gives besides the reference.
#[derive(Drop)]
pub struct DealtKey {
    /// The public key.
    pub public: PublicKey,
    /// The tree, with all its nodes.
    pub tree: Tree,
    /// The shares, that of trustee 1 first.
    pub shares: Vec<Share>,
}

/// Why there is no dealing onto a disk.
#[derive(Clone, Copy, PartialEq, Eq, Error)]
pub enum OntoFault {
    /// There is no dealing.
    #[error("no dealing: {0}")]
    Deal(DealFault),
    /// A call of the disk failed.
    #[error("a call of the disk failed")]
    Device,
}

impl fmt::Debug for OntoFault {
    /// Writes the line that is displayed.
    fn fmt<W: Write>(&self, f: &mut Formatter<W>) -> fmt::Result {
        fmt::Display::fmt(self, f)
    }
}

/// Deals the key that the entropy stands for, as `deal` does, and writes its reference onto an empty disk with its gate
/// shut; `open_reference` opens it. The leaves are built by several threads, in parts of 512 leaves, or of 32 with
/// digits of 8 bits. Each part is written behind the one before it, and then `progress` is told how many leaves there
/// are, so no more than one part stands in memory. The entropy is tested before memory is taken, and all memory but
/// that of the tree is taken before the disk is called.
pub fn deal_onto<R: Threads + Sync, P: Progress, D: Disk>(
    rt: &R,
    progress: &mut P,
    alloc: Global,
    params: &Params,
    plan: &Plan,
    entropy: &[u8],
    reference: &mut D,
) -> Result<DealtKey, OntoFault>
    requires height { plan.now.h ≡ params.now.h }
    requires empty { IsTrue (D.told reference.old) → D.reads reference.old ≡ [] }
    ensures dealt { IfOk result (IsDealtOnto D.Pages.own P.told params.now plan.now entropy.now
        reference.old reference.new progress.old progress.new) }
    ensures refused { (fault : DealFault) → HasFault true params.now plan.now entropy.now fault
        → result ≡ Err (Deal fault) }
    ensures cause { IfErr result (FailsOnto D.Pages.own P.told params.now plan.now entropy.now
        reference.old reference.new progress.old progress.new) }
    ensures unready { AreUnready D.Pages.own 0x54 32 reference.old reference.new }
    ensures succeeds { IsTrue (D.steady reference.old) → IsTrue (D.told reference.old)
        → 32 + leaves_length params.now plan.now ≤ D.room reference.old → result ≢ Err Device }
    ensures device { RisesAt (D.count reference.old) (D.count reference.new) result (Err Device) }
    ensures stays { SameDisk D.Pages.own D.Faults reference.old reference.new }
{
    if let Err(fault) = test_dealing(true, params, plan, entropy) {
        return Err(OntoFault::Deal(fault));
    }
    match take_room(alloc, params, plan, entropy) {
        Ok((material, room)) => build_onto(rt, progress, alloc, &material, room, reference),
        Err(NoMemory) => Err(OntoFault::Deal(DealFault::NoMemory)),
    }
}

/// Reads what the entropy stands for, and takes the memory that the dealing needs before the disk is called.
fn take_room(
    alloc: Global,
    params: &Params,
    plan: &Plan,
    entropy: &[u8],
) -> Result<(KeyMaterial, OntoRoom), NoMemory>
    requires height { plan.now.h ≡ params.now.h }
    requires size { length entropy.now ≡ entropy_length plan.now.n }
    ensures dealing { IfOk result (λ both. dealing_with both.0 ≡ dealing_of params.now plan.now entropy.now) }
    ensures alone { IfOk result (λ both. are_asked both.0 ≡ false) }
    ensures room { IfOk result (λ both. IsRoomOf both.0 both.1) }
{
    let material = read_entropy(alloc, params, plan, entropy, false)?;
    let room = room_onto(alloc, &material)?;
    Ok((material, room))
}

/// Writes the reference onto an empty disk, with its gate shut, and builds the tree.
fn build_onto<R: Threads + Sync, P: Progress, D: Disk>(
    rt: &R,
    progress: &mut P,
    alloc: Global,
    material: &KeyMaterial,
    room: OntoRoom,
    reference: &mut D,
) -> Result<DealtKey, OntoFault>
    requires low { material.now.params.h ≤ 20 }
    requires alone { are_asked material.now ≡ false }
    requires room { IsRoomOf material.now room }
    requires empty { IsTrue (D.told reference.old) → D.reads reference.old ≡ [] }
    ensures dealt { IfOk result (IsKeyDealt (dealing_with material.now)) }
    ensures written { OnOk result (IsWritten D.Pages.own P.told (dealing_with material.now)
        reference.old reference.new progress.old progress.new) }
    ensures fails { IfErr result (FailsToBuild D.Pages.own P.told (dealing_with material.now)
        reference.old reference.new progress.old progress.new) }
    ensures unready { AreUnready D.Pages.own 0x54 32 reference.old reference.new }
    ensures succeeds { IsTrue (D.steady reference.old) → IsTrue (D.told reference.old)
        → 32 + leaves_length material.now.params material.now.plan ≤ D.room reference.old → result ≢ Err Device }
    ensures device { RisesAt (D.count reference.old) (D.count reference.new) result (Err Device) }
    ensures stays { SameDisk D.Pages.own D.Faults reference.old reference.new }
{
    let OntoRoom {
        mut leaves,
        mut keys,
        shares,
    } = room;
    if let Err(DiskFault) = write_reference(
        rt,
        progress,
        material,
        &mut leaves,
        &mut keys,
        reference,
    ) {
        return Err(OntoFault::Device);
    }
    match build_public(alloc, material, &keys) {
        Ok((public, tree)) => Ok(DealtKey {
            public,
            tree,
            shares,
        }),
        Err(NoMemory) => Err(OntoFault::Deal(DealFault::NoMemory)),
    }
}

/// Opens the gate of a reference that a dealing wrote onto this disk. All else is stable before, so no crash leaves a
/// reference that is taken for one and is not whole.
pub fn open_reference<D: Disk>(disk: &mut D) -> Result<(), DiskFault>
    ensures opened { (d : Dealing) → HoldsShut D.Pages.own d disk.old → IsTrue (D.told disk.old)
        → OnOk result (D.reads disk.new ≡ reference_file d) }
    ensures stable { IsTrue (D.told disk.old) → IsTrue (D.honest disk.old)
        → OnOk result (Only (D.reads disk.new) (D.may_leave disk.new)) }
    ensures half { (d : Dealing) → HoldsShut D.Pages.own d disk.old
        → NeverHalf D.Pages.own 0x54 32 (λ file. file ≡ reference_file d) disk.old disk.new }
    ensures succeeds { IsTrue (D.steady disk.old) → IsTrue (D.told disk.old) → 1 ≤ D.room disk.old → IsOk result }
    ensures cause { HasCause (D.count disk.old) (D.count disk.new) result }
    ensures stays { SameDisk D.Pages.own D.Faults disk.old disk.new }
{
    open_gate(disk, GATE)
}
