//! Digests of messages.

ghost use Rattle.std.specs.Prelude.{◌≡◌, length};
ghost use Rattle.lms_bytes.specs.HashLength.{IsHashLength, IsHashLength-prop};

use crate::D_MESG;
use lms_bytes::{KeyId, Params, Val};
use sha2::{Digest, Sha256};

/// A digest in the making: a message under a leaf and a randomizer, taken piece by piece.
#[derive(Drop)]
pub struct MessageHash {
    hasher: Sha256,
    hash_length: u8,
    ghost sized: { IsHashLength hash_length } by { IsHashLength-prop hash_length },
}

impl MessageHash {
    ghost use Rattle.std.specs.Prelude.{[], List, ℕ, ◌++◌};
    ghost use Rattle.lms_bytes.specs.declared.params.Params.{Params};
    ghost use Rattle.ots_chain.specs.MessageHash.{HasTaken, message_digest};

    /// The digest Q of a whole message (RFC 8554 section 4.5).
    pub fn of(params: &Params, id: &KeyId, q: u32, c: &Val, message: &[u8]) -> Val
        requires { length c.now ≡ params.now.n }
        ensures digest { result ≡ message_digest params.now id.now q c.now message.now }
        ensures length { length result ≡ params.now.n }
    {
        let mut hash = MessageHash::new(params, id, q, c);
        hash.update(message);
        hash.finish()
    }

    /// The hash before any of a message is taken, for leaf `q` and the randomizer `c`.
    pub fn new(params: &Params, id: &KeyId, q: u32, c: &Val) -> MessageHash
        requires { length c.now ≡ params.now.n }
        ensures { HasTaken result params.now id.now q c.now [] }
    {
        let mut hasher = Sha256::new();
        hasher.update(id.as_slice());
        hasher.update(q.to_be_bytes().as_slice());
        hasher.update(D_MESG.to_be_bytes().as_slice());
        hasher.update(c.bytes());
        MessageHash {
            hasher,
            hash_length: params.n,
        }
    }

    /// Takes the next piece of the message.
    pub fn update(&mut self, piece: &[u8])
        ensures { (params : Params) (id : List ℕ) (q : ℕ) (c message : List ℕ)
            → HasTaken self.old params id q c message → HasTaken self.new params id q c (message ++ piece.now) }
    {
        self.hasher.update(piece);
    }

    /// The digest Q of the message (RFC 8554 section 4.5).
    pub fn finish(self) -> Val
        ensures digest { (params : Params) (id : List ℕ) (q : ℕ) (c message : List ℕ)
            → HasTaken self params id q c message → result ≡ message_digest params id q c message }
        ensures length { (params : Params) (id : List ℕ) (q : ℕ) (c message : List ℕ)
            → HasTaken self params id q c message → length result ≡ params.n }
    {
        let digest: [u8; 32] = self.hasher.finalize();
        Val::cut(&digest, self.hash_length)
    }
}
