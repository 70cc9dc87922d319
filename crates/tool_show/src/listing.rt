//! The listing of a file of slots.

ghost use Rattle.std.specs.Prelude.{IfOk, IfErr, string_bytes};
ghost use Rattle.tool_show.specs.Listing.{IsListing, IsNotListed};

use crate::kind::read_head;
use crate::loading::load_slots;
use crate::slot_lines::all_lines;
use slot_file::CacheLoad;
use std::alloc::{AllocError, Global};
use thiserror::Error;
use tool_base::{DAMAGED, load_fault_number};

/// Why bytes are not listed, in the order of the tests.
#[derive(Clone, Copy, Debug, PartialEq, Eq, Error)]
pub enum ListingFault {
    /// They are no file of slots by the first 32 bytes.
    #[error("the bytes are no journal, leaf table or book")]
    NotASlotFile,
    /// They are a file of slots that does not load.
    #[error("the file of slots does not load: fault {fault}")]
    NotLoaded {
        /// 1 its length, 2 its gate is closed, 6 a damaged slot.
        fault: u8,
    },
    /// Memory ran out.
    #[error("out of memory")]
    NoMemory,
}

/// Says in one line what a file of slots holds, and with `leaves` in one more line for each slot that is not free.
pub fn list_slots(alloc: Global, bytes: Vec<u8>, leaves: bool) -> Result<String, ListingFault>
    ensures listed { IfOk result (λ text. IsListing bytes.items leaves (string_bytes text)) }
    ensures refused { IfErr result (IsNotListed bytes.items) }
{
    let Some(head) = read_head(&bytes) else {
        return Err(ListingFault::NotASlotFile);
    };
    let cache = match load_slots(alloc, &bytes, &head) {
        Ok(cache) => cache,
        Err(CacheLoad::Slots(fault)) => {
            return Err(ListingFault::NotLoaded {
                fault: load_fault_number(fault),
            });
        }
        Err(CacheLoad::Damaged { .. }) => return Err(ListingFault::NotLoaded { fault: DAMAGED }),
        Err(CacheLoad::NoMemory) => return Err(ListingFault::NoMemory),
        // The disk in memory does not fail.
        Err(CacheLoad::Device) => unreachable!(),
    };
    let Ok(slots) = cache.to_vec(alloc) else {
        return Err(ListingFault::NoMemory);
    };
    match all_lines(alloc, head.kind, &head.header, &slots, leaves) {
        Ok(text) => Ok(text),
        Err(AllocError) => Err(ListingFault::NoMemory),
    }
}
