//! What is taken of memory before a reference is written onto a disk.

ghost use Rattle.std.specs.Prelude.{◌≡◌, IfOk};
ghost use Rattle.dealer.specs.Onto.{part_leaves};
ghost use Rattle.dealer.specs.OntoRoom.{IsRoomOf};

use crate::material::KeyMaterial;
use crate::shares::build_shares;
use lms_bytes::Params;
use memory::NoMemory;
use reference_value::leaf_bytes;
use share_files::Share;
use std::alloc::Global;

/// How many leaves are built as one part, if there are that many.
const PART: u32 = 512;

/// The same with digits of 8 bits, whose leaves are longer.
const WIDE_PART: u32 = 32;

/// What is taken of memory before the disk is called.
#[derive(Drop)]
pub(crate) struct OntoRoom {
    /// Room for the leaves of one part.
    pub(crate) leaves: Vec<u8>,
    /// Room for the public values of all leaves, `n` bytes each.
    pub(crate) keys: Vec<u8>,
    /// The shares, that of trustee 1 first.
    pub(crate) shares: Vec<Share>,
}

/// How many leaves make up a part.
pub(crate) fn part_count(params: &Params) -> u32
    ensures { result ≡ part_leaves params.now }
{
    let most = if params.w == 8 { WIDE_PART } else { PART };
    most.min(params.leaves())
}

/// Takes the memory.
pub(crate) fn room_onto(alloc: Global, material: &KeyMaterial) -> Result<OntoRoom, NoMemory>
    ensures { IfOk result (IsRoomOf material.now) }
{
    let KeyMaterial { params, plan, .. } = material;
    let size = leaf_bytes(params, plan.k()) * part_count(params) as usize;
    let leaves = vec![in alloc; 0; size]?;
    let keys = vec![in alloc; 0; params.n as usize * params.leaves() as usize]?;
    let shares = build_shares(alloc, material)?;
    Ok(OntoRoom {
        leaves,
        keys,
        shares,
    })
}
