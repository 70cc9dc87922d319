//! The bodies of a table's slots.

ghost use Rattle.std.specs.Prelude.{◌≡◌};
ghost use Rattle.lms_bytes.specs.MessageId.{message_id_bytes};
ghost use Rattle.leaf_table.specs.Slots.{report_body};

use lms_bytes::MessageId;

/// Body B: the message id, and the member that reported the leaf spent.
pub(crate) fn report_bytes(message: &MessageId, by: u8) -> [u8; 64]
    ensures { result ≡ report_body (message_id_bytes message.now) by }
{
    let mut body = [0; 64];
    body[..36].copy_from_slice(&message.to_bytes());
    body[36] = by;
    body
}
