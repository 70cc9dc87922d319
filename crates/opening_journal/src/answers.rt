//! What a leaf answers.

ghost use Rattle.std.specs.Prelude.{◌≡◌, false};
ghost use Rattle.lms_bytes.specs.HashLength.{IsHashLength};
ghost use Rattle.opening_journal.specs.Answers.{AnswersAs, BindsAs, IsOldOrSpent, IsSamePair, OpensAs};
ghost use Rattle.opening_journal.specs.Entries.{state_of_slot};
ghost use Rattle.slot_file.specs.Copies.{is_damaged};

use crate::bodies::value_at;
use crate::entry::Entry;
use crate::faults::{Entered, JournalFault};
use lms_bytes::{MessageId, Val};
use slot_file::Slot;

/// Whether an entry can be made, as `Entered::New`, or was. The slot of its leaf is not damaged.
pub(crate) fn answer(slot: &Slot, n: u8, entry: &Entry) -> Result<Entered, JournalFault>
    requires whole { is_damaged slot.now ≡ false }
    requires n { IsHashLength n }
    ensures { AnswersAs entry.now (state_of_slot n slot.now) result }
{
    match entry {
        Entry::Bound { message, .. } => binding(slot, n, message),
        Entry::Opened {
            message,
            c,
            digest,
            ..
        } => opening(slot, n, message, c, digest),
    }
}

/// Whether a leaf can be bound to a message, as `Entered::New`, or is. Its slot is not damaged.
fn binding(slot: &Slot, n: u8, message: &MessageId) -> Result<Entered, JournalFault>
    requires { is_damaged slot.now ≡ false }
    ensures { BindsAs message.now (state_of_slot n slot.now) result }
{
    match slot {
        Slot::Half(a) => old_if_same(a, message),
        Slot::Full(a, ..) => old_if_same(a, message),
        Slot::Free | Slot::Damaged { .. } => Ok(Entered::New),
    }
}

/// The answer of a leaf that is bound to the message of a body A.
fn old_if_same(kept: &[u8; 36], message: &MessageId) -> Result<Entered, JournalFault>
    ensures { IsOldOrSpent kept.now message.now result }
{
    if *kept == message.to_bytes() {
        Ok(Entered::Old)
    } else {
        Err(JournalFault::Spent {
            kept: MessageId::of_bytes(kept),
        })
    }
}

/// Whether a leaf can be opened for a message with C and Q, as `Entered::New`, or is. Its slot is not damaged.
fn opening(
    slot: &Slot,
    n: u8,
    message: &MessageId,
    c: &Val,
    digest: &Val,
) -> Result<Entered, JournalFault>
    requires whole { is_damaged slot.now ≡ false }
    requires n { IsHashLength n }
    ensures { OpensAs message.now c.now digest.now (state_of_slot n slot.now) result }
{
    match slot {
        Slot::Free | Slot::Damaged { .. } => Err(JournalFault::NotBound),
        Slot::Half(a) => match old_if_same(a, message) {
            Ok(_) => Ok(Entered::New),
            Err(fault) => Err(fault),
        },
        Slot::Full(a, b, _) => match old_if_same(a, message) {
            Ok(_) => old_if_equal(b, n, c, digest),
            Err(fault) => Err(fault),
        },
    }
}

/// The answer of a leaf that was opened with the pair of a body B.
fn old_if_equal(body: &[u8; 64], n: u8, c: &Val, digest: &Val) -> Result<Entered, JournalFault>
    requires { IsHashLength n }
    ensures { IsSamePair n body.now c.now digest.now result }
{
    let (kept_c, kept_digest) = (value_at(body, 0, n), value_at(body, 32, n));
    if kept_c != *c || kept_digest != *digest {
        return Err(JournalFault::OtherDigest {
            c: kept_c,
            digest: kept_digest,
        });
    }
    Ok(Entered::Old)
}
