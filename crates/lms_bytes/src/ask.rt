//! What an aggregator asks of a trustee, and the heads of the trustee's replies.

use crate::message::MessageId;
use crate::public_key::KeyId;
use crate::val::Val;

/// An ask for the masks of a leaf. Without `second` it is an ask of round one.
#[derive(Clone, Copy, Debug, PartialEq, Eq)]
pub struct Ask {
    /// The key's identifier.
    pub key: KeyId,
    /// The number of the leaf.
    pub leaf: u32,
    /// The message to be signed.
    pub message: MessageId,
    /// What round two adds.
    pub second: Option<Second>,
}

/// What an ask of round two adds: the randomizer, its check tag, and the digest of the message under it.
#[derive(Clone, Copy, Debug, PartialEq, Eq)]
pub struct Second {
    /// The randomizer C, n bytes.
    pub c: Val,
    /// The check tag of the trustee that is asked.
    pub tag: [u8; 32],
    /// The digest Q, n bytes.
    pub digest: Val,
}

/// What a reply says before its masks: which ask it answers, and how.
#[derive(Clone, Copy, Debug, PartialEq, Eq)]
pub struct ReplyHead {
    /// The key's identifier.
    pub key: KeyId,
    /// The number of the leaf.
    pub leaf: u32,
    /// The trustee that replies.
    pub member: u8,
    /// The message to be signed.
    pub message: MessageId,
    /// 1 or 2.
    pub round: u8,
    /// The randomizer of the ask, or n zero bytes in round one.
    pub c: Val,
    /// 0 for masks, and the number of the refusal otherwise.
    pub code: u8,
}
