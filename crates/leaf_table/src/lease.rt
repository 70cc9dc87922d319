//! The entries of a leaf table.

ghost use Rattle.std.specs.Prelude.{◌≡◌};
ghost use Rattle.leaf_table.specs.Slots.{lease_of_slot};

use lms_bytes::MessageId;
use slot_file::Slot;

/// An entry of a leaf table.
#[derive(Clone, Copy, PartialEq, Eq)]
pub enum Lease {
    /// The leaf is for this message alone.
    Leased {
        /// The leaf.
        leaf: u32,
        /// The message's id.
        message: MessageId,
    },
    /// The leaf is for no message any more.
    Burnt {
        /// The leaf.
        leaf: u32,
    },
}

/// The entry that made a slot what it is.
pub(crate) fn lease_of_slot(leaf: u32, slot: &Slot) -> Lease
    ensures { result ≡ lease_of_slot leaf slot.now }
{
    match slot {
        Slot::Half(a) => Lease::Leased {
            leaf,
            message: MessageId::of_bytes(a),
        },
        Slot::Free | Slot::Full(..) | Slot::Damaged { .. } => Lease::Burnt { leaf },
    }
}
