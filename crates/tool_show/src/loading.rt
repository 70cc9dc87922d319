//! Loading the slots of a file.

ghost use Rattle.std.specs.Prelude.{◌≡◌, IfOk, IfErr};
ghost use Rattle.slot_file.specs.Cache.{state_of};
ghost use Rattle.tool_show.specs.Heads.{IsHead};
ghost use Rattle.tool_show.specs.SlotKinds.{Loads, slots_of};
ghost use Rattle.tool_show.specs.Loading.{IsRefused};

use crate::kind::Head;
use disk_trait::MemDisk;
use slot_file::{CacheLoad, CachedSlots};
use std::alloc::Global;

/// Loads the slots of a file that is this by its header. The fault is not `CacheLoad::Device`.
pub(crate) fn load_slots(
    alloc: Global,
    bytes: &[u8],
    head: &Head,
) -> Result<CachedSlots<MemDisk>, CacheLoad>
    requires { IsHead bytes.now head.now }
    ensures loads { IfOk result (λ _. Loads head.now.kind bytes.now) }
    ensures slots { IfOk result (λ cache. (state_of cache).slots ≡ slots_of head.now.kind bytes.now) }
    ensures refused { IfErr result (IsRefused head.now.kind bytes.now) }
{
    let Ok(disk) = MemDisk::of_bytes(alloc, bytes, bytes.len(), usize::MAX) else {
        return Err(CacheLoad::NoMemory);
    };
    match CachedSlots::load(alloc, disk, &head.header, head.count) {
        Ok(cache) => Ok(cache),
        Err((_, fault)) => Err(fault),
    }
}
