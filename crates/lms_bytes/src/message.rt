//! Message ids.

ghost use Rattle.std.specs.Prelude.{◌≡◌, ◌+◌, ◌<◌, ◌^◌, length};

use sha2::{Digest, Sha256};

/// The longest message that a signing session takes, in bytes.
pub const LIMIT: u32 = 16_777_216;

/// What stands for a message: its length and its SHA-256.
#[derive(Clone, Copy, Debug, PartialEq, Eq, PartialOrd, Ord)]
pub struct MessageId {
    /// The length of the message in bytes.
    pub length: u32,
    /// SHA-256 of the message.
    pub hash: [u8; 32],
}

impl MessageId {
    ghost use Rattle.lms_bytes.specs.MessageId.{message_id, message_id_bytes, message_id_of};

    /// The id of a message.
    pub fn of(message: &[u8]) -> MessageId
        requires { length message.now < 2 ^ 32 }
        ensures { result ≡ message_id message.now }
    {
        let mut hash = IdHash::new();
        hash.update(message);
        hash.finish()
    }

    /// Its 36 bytes.
    pub fn to_bytes(&self) -> [u8; 36]
        ensures { result ≡ message_id_bytes self.now }
    {
        let mut bytes = [0; 36];
        bytes[..4].copy_from_slice(&self.length.to_be_bytes());
        bytes[4..].copy_from_slice(&self.hash);
        bytes
    }

    /// The id that lies in these bytes.
    pub fn of_bytes(bytes: &[u8; 36]) -> MessageId
        ensures fields { result ≡ message_id_of bytes.now }
        ensures bytes { message_id_bytes result ≡ bytes.now }
    {
        let mut length = [0; 4];
        length.copy_from_slice(&bytes[..4]);
        let mut hash = [0; 32];
        hash.copy_from_slice(&bytes[4..]);
        MessageId {
            length: u32::from_be_bytes(length),
            hash,
        }
    }
}

/// A message id in the making: the message is taken piece by piece.
#[derive(Drop)]
pub struct IdHash {
    hasher: Sha256,
    length: u32,
}

impl IdHash {
    ghost use Rattle.std.specs.Prelude.{[], List, ℕ, ◌++◌};
    ghost use Rattle.lms_bytes.specs.IdHash.{HasTaken, taken_length};
    ghost use Rattle.lms_bytes.specs.MessageId.{message_id};

    /// The hash before any of a message is taken.
    pub fn new() -> IdHash
        ensures taken { HasTaken result [] }
        ensures length { taken_length result ≡ 0 }
    {
        IdHash {
            hasher: Sha256::new(),
            length: 0,
        }
    }

    /// Takes the next piece of the message.
    pub fn update(&mut self, piece: &[u8])
        requires { taken_length self.old + length piece.now < 2 ^ 32 }
        ensures taken { (message : List ℕ) → HasTaken self.old message → HasTaken self.new (message ++ piece.now) }
        ensures length { taken_length self.new ≡ taken_length self.old + length piece.now }
    {
        self.hasher.update(piece);
        self.length += piece.len() as u32;
    }

    /// The id of the message.
    pub fn finish(self) -> MessageId
        ensures { (message : List ℕ) → HasTaken self message → result ≡ message_id message }
    {
        MessageId {
            length: self.length,
            hash: self.hasher.finalize(),
        }
    }
}
