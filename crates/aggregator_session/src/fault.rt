//! Why a session gives no signature.

ghost use Rattle.std.specs.Prelude.{◌≡◌};
ghost use Rattle.aggregator_session.specs.Faults.{sign_fault, why_of};
ghost use Rattle.aggregator_session.specs.declared.fault.SignFault.TheVariants as fault;
ghost use Rattle.session_core.specs.declared.faults.SessionFault.TheVariants.{Reference};

use leaf_table::TableFault;
use reference_value::RefFault;
use round_frames::FrameFault;
use session_core::SessionFault;
use std::alloc::AllocError;
use std::fmt::{self, Formatter, Write};
use thiserror::Error;

/// Why a member is lost.
#[derive(Clone, Copy, PartialEq, Eq, Error)]
pub enum Why {
    /// No address names it.
    #[error("no address names it")]
    NoAddress,
    /// Nobody could be dialled at its place.
    #[error("it could not be dialled")]
    DialFailed,
    /// An ask could not be written.
    #[error("an ask could not be written to it")]
    WriteFailed,
    /// Its reply could not be read.
    #[error("its reply could not be read")]
    ReadFailed,
    /// Its link ended before a reply.
    #[error("its link ended before a reply")]
    Ended,
    /// What it sent is not a frame of a reply.
    #[error("what it sent is no reply: fault {fault} of frames")]
    Garbled {
        /// The number of the frame's fault: 3 to 6.
        fault: u8,
    },
}

impl fmt::Debug for Why {
    /// Writes the line that is displayed.
    fn fmt<W: Write>(&self, f: &mut Formatter<W>) -> fmt::Result {
        fmt::Display::fmt(self, f)
    }
}

/// Why there is no signature.
#[derive(Clone, Copy, PartialEq, Eq, Error)]
pub enum SignFault {
    /// The message is longer than a session signs.
    #[error("the message has {got} bytes, more than a session signs")]
    TooLong {
        /// Its length in bytes.
        got: usize,
    },
    /// The turns of the table's lock are used up.
    #[error("the table's lock has no more turns")]
    Worn,
    /// No leaf was leased.
    #[error("no leaf was leased: {0}")]
    Table(TableFault),
    /// A member is lost.
    #[error("trustee {member} is lost in round {round}: {why}")]
    Lost {
        /// The number of the member.
        member: u8,
        /// The round.
        round: u8,
        /// Why it is lost.
        why: Why,
    },
    /// A member sent eight frames in a row, none of which was a reply to the ask.
    #[error("trustee {member} sent eight frames in round {round}, none of which answers the ask")]
    Stray {
        /// The number of the member.
        member: u8,
        /// The round.
        round: u8,
    },
    /// The session has no signature.
    #[error("{0}")]
    Session(SessionFault),
    /// Memory ran out.
    #[error("out of memory")]
    NoMemory,
}

impl fmt::Debug for SignFault {
    /// Writes the line that is displayed.
    fn fmt<W: Write>(&self, f: &mut Formatter<W>) -> fmt::Result {
        fmt::Display::fmt(self, f)
    }
}

impl From<AllocError> for SignFault {
    ghost from_gives = { λ _ e. e ≡ fault.NoMemory };

    fn from(_: AllocError) -> Self {
        SignFault::NoMemory
    }
}

impl From<RefFault> for SignFault {
    ghost from_gives = { λ _ e. e ≡ fault.Session Reference };

    fn from(_: RefFault) -> Self {
        SignFault::Session(SessionFault::Reference)
    }
}

impl From<SessionFault> for SignFault {
    ghost from_gives = { λ f e. e ≡ sign_fault f };

    fn from(why: SessionFault) -> Self {
        match why {
            SessionFault::NoMemory => SignFault::NoMemory,
            _ => SignFault::Session(why),
        }
    }
}

/// Why a member is lost if its next frame has this fault.
pub(crate) fn why_of(fault: FrameFault) -> Why
    ensures { result ≡ why_of fault }
{
    match fault {
        FrameFault::End | FrameFault::Cut => Why::Ended,
        FrameFault::Magic => Why::Garbled { fault: 3 },
        FrameFault::Kind { .. } => Why::Garbled { fault: 4 },
        FrameFault::TooLong { .. } => Why::Garbled { fault: 5 },
        FrameFault::Shape => Why::Garbled { fault: 6 },
        // The reader of replies takes no memory, so it never answers the last one.
        FrameFault::ReadFault | FrameFault::NoMemory => Why::ReadFailed,
    }
}
