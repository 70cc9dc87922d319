//! The lines of a file of slots.

ghost use Rattle.std.specs.Prelude.{◌≡◌, length, IfOk, string_bytes};
ghost use Rattle.tool_show.specs.SlotLines.{AreFurtherLines, AreLines, AreSlotLines, IsFileLine, IsSlotLine};
ghost use Rattle.tool_show.specs.SlotLines.{book_line, file_line, journal_line, opened_words, table_line};

use crate::SlotKind;
use crate::counts::{full_count, half_count, last_moment, slot_moment, taken_count};
use crate::moment::moment_word;
use crate::words::{key_words, slot_line};
use slot_file::{Header, Slot};
use std::alloc::{AllocError, Global};

/// The words about the leaves of a journal, with the word of its last moment.
fn opened_words(alloc: Global, slots: &[Slot], last: &str) -> Result<String, AllocError>
    ensures { IfOk result (λ words. string_bytes words ≡ opened_words slots.now last.now) }
{
    let leaves = slots.len();
    let bound = half_count(slots);
    let opened = full_count(slots);
    format!(in alloc; " leaves {leaves} bound {bound} opened {opened} last {last}")
}

/// The line of a journal, with the word of its last moment.
fn journal_line(
    alloc: Global,
    header: &Header,
    slots: &[Slot],
    last: &str,
) -> Result<String, AllocError>
    ensures { IfOk result (λ line. string_bytes line ≡ journal_line header.now slots.now last.now) }
{
    let (member, version) = (header.number, header.version);
    let key = key_words(alloc, header.lms, header.ots, &header.id)?;
    let leaves = opened_words(alloc, slots, last)?;
    format!(in alloc; "journal member {member} version {version}{key}{leaves}\n")
}

/// The line of a leaf table.
fn table_line(alloc: Global, header: &Header, slots: &[Slot]) -> Result<String, AllocError>
    ensures { IfOk result (λ line. string_bytes line ≡ table_line header.now slots.now) }
{
    let key = key_words(alloc, header.lms, header.ots, &header.id)?;
    let leaves = slots.len();
    let leased = half_count(slots);
    let burnt = full_count(slots);
    format!(in alloc; "table{key} leaves {leaves} leased {leased} burnt {burnt}\n")
}

/// The line of a book.
fn book_line(alloc: Global, header: &Header, slots: &[Slot]) -> Result<String, AllocError>
    ensures { IfOk result (λ line. string_bytes line ≡ book_line header.now slots.now) }
{
    let member = header.number;
    let key = key_words(alloc, header.lms, header.ots, &header.id)?;
    let listed = taken_count(slots);
    format!(in alloc; "book member {member}{key} slots 1024 listed {listed}\n")
}

/// The line of a file.
fn file_line(
    alloc: Global,
    kind: SlotKind,
    header: &Header,
    slots: &[Slot],
) -> Result<String, AllocError>
    ensures { IfOk result (λ line. IsFileLine kind header.now slots.now (string_bytes line)) }
{
    let last = moment_word(alloc, last_moment(kind, slots))?;
    match kind {
        SlotKind::Journal | SlotKind::OldJournal => {
            journal_line(alloc, header, slots, last.as_str())
        }
        SlotKind::Table => table_line(alloc, header, slots),
        SlotKind::Book => book_line(alloc, header, slots),
    }
}

/// The line of a slot, or nothing if it is free.
fn line_of_slot(
    alloc: Global,
    kind: SlotKind,
    place: usize,
    slot: &Slot,
) -> Result<String, AllocError>
    ensures { IfOk result (λ line. IsSlotLine kind place slot.now (string_bytes line)) }
{
    let moment = moment_word(alloc, slot_moment(kind, slot))?;
    slot_line(alloc, kind, place, slot, moment.as_str())
}

/// Adds the lines of the slots that are not free.
fn slot_lines(alloc: Global, kind: SlotKind, slots: &[Slot]) -> Result<String, AllocError>
    ensures { IfOk result (λ lines. AreSlotLines kind slots.now (length slots.now) (string_bytes lines)) }
{
    let mut lines = String::new(alloc);
    for (place, slot) in slots.iter().enumerate() {
        let line = line_of_slot(alloc, kind, place, slot)?;
        lines.push_str(line.as_str())?;
    }
    Ok(lines)
}

/// The lines after that of the file.
fn further_lines(
    alloc: Global,
    kind: SlotKind,
    slots: &[Slot],
    leaves: bool,
) -> Result<String, AllocError>
    ensures { IfOk result (λ lines. AreFurtherLines leaves kind slots.now (string_bytes lines)) }
{
    if leaves {
        slot_lines(alloc, kind, slots)
    } else {
        Ok(String::new(alloc))
    }
}

/// All lines of a file.
pub(crate) fn all_lines(
    alloc: Global,
    kind: SlotKind,
    header: &Header,
    slots: &[Slot],
    leaves: bool,
) -> Result<String, AllocError>
    ensures { IfOk result (λ text. AreLines kind header.now slots.now leaves (string_bytes text)) }
{
    let mut text = file_line(alloc, kind, header, slots)?;
    let further = further_lines(alloc, kind, slots, leaves)?;
    text.push_str(further.as_str())?;
    Ok(text)
}
