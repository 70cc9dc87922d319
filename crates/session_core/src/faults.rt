//! Why a session gives no signature.

ghost use Rattle.std.specs.Prelude.{◌≡◌};
ghost use Rattle.session_core.specs.declared.faults.SessionFault.TheVariants as fault;

use lms_bytes::{MessageId, Val};
use reference_value::RefFault;
use std::alloc::AllocError;
use thiserror::Error;

/// What a member has kept for a leaf that is spent.
#[derive(Clone, Copy, Debug, PartialEq, Eq)]
pub enum KeptValue {
    /// The message that the leaf is bound to.
    Message(MessageId),
    /// The randomizer and the digest under which the leaf was opened.
    Digest { c: Val, digest: Val },
}

/// Why a session does not go on.
#[derive(Clone, Copy, Debug, PartialEq, Eq, Error)]
pub enum SessionFault {
    /// No reply from a member is kept.
    #[error("round {round} has no reply of trustee {member}")]
    Missing {
        member: u8,
        round: u8,
    },
    /// A member has opened the leaf for something else.
    #[error("leaf {leaf} is spent: trustee {member} has opened it for something else")]
    SpentLeaf {
        leaf: u32,
        member: u8,
        kept: KeptValue,
    },
    /// A member does not know the randomizer.
    #[error("trustee {member} finds another check of leaf {leaf}'s randomizer than the reference has")]
    WrongCheck {
        leaf: u32,
        member: u8,
    },
    /// What was joined is not a signature under the key.
    #[error("the signature of leaf {leaf} leads to another root than the key's")]
    WrongRoot {
        leaf: u32,
        got: Val,
        want: Val,
    },
    /// A member refused.
    #[error("trustee {member} refused with code {code}")]
    MemberRefused {
        member: u8,
        code: u8,
    },
    /// The reference could not be read.
    #[error("the reference could not be read")]
    Reference,
    /// Memory ran out.
    #[error("out of memory")]
    NoMemory,
}

impl From<AllocError> for SessionFault {
    ghost from_gives = { λ _ e. e ≡ fault.NoMemory };

    fn from(_: AllocError) -> Self {
        SessionFault::NoMemory
    }
}

impl From<RefFault> for SessionFault {
    ghost from_gives = { λ _ e. e ≡ fault.Reference };

    fn from(_: RefFault) -> Self {
        SessionFault::Reference
    }
}
