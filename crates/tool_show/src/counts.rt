//! What the slots of a file add up to.

ghost use Rattle.std.specs.Prelude.{◌≡◌, count_by};
ghost use Rattle.slot_file.specs.Copies.{taken_count};
ghost use Rattle.tool_show.specs.SlotLines.{full_moment, is_full, is_half, known, last_moment, later, slot_moment};

use crate::SlotKind;
use slot_file::Slot;

/// Whether gate A alone is open.
fn is_half(slot: &Slot) -> bool
    ensures { result ≡ is_half slot.now }
{
    matches!(slot, Slot::Half(_))
}

/// Whether both gates are open.
fn is_full(slot: &Slot) -> bool
    ensures { result ≡ is_full slot.now }
{
    matches!(slot, Slot::Full(..))
}

/// How many slots have gate A alone open.
pub(crate) fn half_count(slots: &[Slot]) -> usize
    ensures { result ≡ count_by is_half slots.now }
{
    slots.iter().filter(|slot| is_half(slot)).count()
}

/// How many slots have both gates open.
pub(crate) fn full_count(slots: &[Slot]) -> usize
    ensures { result ≡ count_by is_full slots.now }
{
    slots.iter().filter(|slot| is_full(slot)).count()
}

/// How many slots are not free.
pub(crate) fn taken_count(slots: &[Slot]) -> usize
    ensures { result ≡ taken_count slots.now }
{
    slots.iter().filter(|slot| !slot.is_free()).count()
}

/// A moment that is known, in seconds since the beginning of 1970: a journal that was migrated has zero where it knows
/// none.
fn known(moment: u64) -> Option<u64>
    ensures { result ≡ known moment }
{
    if moment == 0 { None } else { Some(moment) }
}

/// The moment of an opening, in seconds since the beginning of 1970, if it is known.
fn full_moment(slot: &Slot) -> Option<u64>
    ensures { result ≡ full_moment slot.now }
{
    match slot {
        Slot::Full(_, _, moment) => known(*moment),
        Slot::Free | Slot::Half(_) | Slot::Damaged { .. } => None,
    }
}

/// The moment of a slot, which a journal of version 2 alone keeps.
pub(crate) fn slot_moment(kind: SlotKind, slot: &Slot) -> Option<u64>
    ensures { result ≡ slot_moment kind slot.now }
{
    match kind {
        SlotKind::Journal => full_moment(slot),
        SlotKind::OldJournal | SlotKind::Table | SlotKind::Book => None,
    }
}

/// The greater of two moments.
fn later(last: Option<u64>, moment: Option<u64>) -> Option<u64>
    ensures { result ≡ later last moment }
{
    match (last, moment) {
        (Some(last), Some(moment)) => Some(last.max(moment)),
        (Some(last), None) => Some(last),
        (None, moment) => moment,
    }
}

/// The greatest moment of the slots.
pub(crate) fn last_moment(kind: SlotKind, slots: &[Slot]) -> Option<u64>
    ensures { result ≡ last_moment kind slots.now }
{
    let mut last = None;
    for slot in slots {
        last = later(last, slot_moment(kind, slot));
    }
    last
}
