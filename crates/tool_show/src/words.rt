//! The words of lines.

ghost use Rattle.std.specs.Prelude.{◌≡◌, IfOk, string_bytes};
ghost use Rattle.tool_show.specs.Lines.{key_words};
ghost use Rattle.tool_show.specs.SlotLines.{book_slot_line, id_words, journal_slot_line, slot_line, table_slot_line};

use crate::SlotKind;
use lms_bytes::{KeyId, MessageId};
use slot_file::{Header, Slot};
use std::alloc::{AllocError, Global};

/// What a line says about a key: the codes of its parameter set, and its identifier.
pub(crate) fn key_words(alloc: Global, lms: u32, ots: u32, id: &KeyId) -> Result<String, AllocError>
    ensures { IfOk result (λ words. string_bytes words ≡ key_words lms ots id.now) }
{
    let id = hex::encode(alloc, id)?;
    format!(in alloc; " codes {lms} {ots} key {id}")
}

/// The message id that lies in body A.
fn id_words(alloc: Global, body: &[u8; 36]) -> Result<String, AllocError>
    ensures { IfOk result (λ words. string_bytes words ≡ id_words body.now) }
{
    let id = MessageId::of_bytes(body);
    let length = id.length;
    let hash = hex::encode(alloc, &id.hash)?;
    format!(in alloc; "{length}:{hash}")
}

/// The line of a leaf in a journal, with the word of its moment, or nothing if it is free.
fn journal_slot_line(
    alloc: Global,
    leaf: usize,
    slot: &Slot,
    moment: &str,
) -> Result<String, AllocError>
    ensures { IfOk result (λ line. string_bytes line ≡ journal_slot_line leaf slot.now moment.now) }
{
    match slot {
        Slot::Half(a) => {
            let id = id_words(alloc, a)?;
            format!(in alloc; "leaf {leaf} bound {id}\n")
        }
        Slot::Full(a, ..) => {
            let id = id_words(alloc, a)?;
            format!(in alloc; "leaf {leaf} opened {id} {moment}\n")
        }
        Slot::Free | Slot::Damaged { .. } => Ok(String::new(alloc)),
    }
}

/// The line of a leaf in a leaf table, or nothing if it is free.
fn table_slot_line(alloc: Global, leaf: usize, slot: &Slot) -> Result<String, AllocError>
    ensures { IfOk result (λ line. string_bytes line ≡ table_slot_line leaf slot.now) }
{
    match slot {
        Slot::Half(a) => {
            let id = id_words(alloc, a)?;
            format!(in alloc; "leaf {leaf} leased {id}\n")
        }
        Slot::Full(a, b, _) => {
            let id = id_words(alloc, a)?;
            let by = b[36];
            format!(in alloc; "leaf {leaf} burnt {id} by {by}\n")
        }
        Slot::Free | Slot::Damaged { .. } => Ok(String::new(alloc)),
    }
}

/// The line of a slot in a book, or nothing if it is free.
fn book_slot_line(alloc: Global, place: usize, slot: &Slot) -> Result<String, AllocError>
    ensures { IfOk result (λ line. string_bytes line ≡ book_slot_line place slot.now) }
{
    match slot {
        Slot::Half(a) | Slot::Full(a, ..) => {
            let id = id_words(alloc, a)?;
            format!(in alloc; "slot {place} {id}\n")
        }
        Slot::Free | Slot::Damaged { .. } => Ok(String::new(alloc)),
    }
}

/// The line of a slot, with the word of its moment.
pub(crate) fn slot_line(
    alloc: Global,
    kind: SlotKind,
    place: usize,
    slot: &Slot,
    moment: &str,
) -> Result<String, AllocError>
    ensures { IfOk result (λ line. string_bytes line ≡ slot_line kind place slot.now moment.now) }
{
    match kind {
        SlotKind::Journal | SlotKind::OldJournal => journal_slot_line(alloc, place, slot, moment),
        SlotKind::Table => table_slot_line(alloc, place, slot),
        SlotKind::Book => book_slot_line(alloc, place, slot),
    }
}
