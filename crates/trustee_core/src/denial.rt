//! The answers of a trustee with a book.

use crate::refusal::Refusal;
use lms_bytes::MessageId;
use thiserror::Error;

/// Why an ask is not granted.
#[derive(Clone, Copy, Debug, PartialEq, Eq, Error)]
pub enum Denial {
    /// There is a book, the ask is of round one, and the book does not list its message.
    #[error("the message of {} bytes is not approved", message.length)]
    NotApproved {
        /// The message that was asked for.
        message: MessageId,
    },
    /// What the trustee answers.
    #[error(transparent)]
    Core(Refusal),
}
