//! One ask in one turn of the lock.

ghost use Rattle.std.specs.Prelude.{◌≡◌};
ghost use Rattle.std.specs.Option.{option_map};
ghost use Rattle.trustee_core.specs.Approved.{ids_of};
ghost use Rattle.round_frames.specs.Asks.{HasSizes};
ghost use Rattle.trustee_node.specs.Replies.{IsGrantOf, OneTurn, outcome_in};
ghost use Rattle.trustee_node.specs.Turns.{IsIdle, code_of, is_worn};

use disk_trait::Disk;
use lms_bytes::Ask;
use std::sync::Wait;
use trustee_core::{Approved, Denial, Grant, KeyKeeper, Trustee, decide_approved};
use turn_lock::{Pass, TurnLock, TurnsOnly};

/// What came of an ask.
#[derive(Drop)]
pub(crate) enum Answer {
    /// It was decided in a turn of its own.
    Decided(Result<Grant, Denial>),
    /// The pass has no more turns.
    Worn,
}

impl Answer {
    /// The code of the reply: 0 for a grant, 11 if the pass has no more turns, and the refusal's number otherwise.
    pub(crate) fn code(&self) -> u8
        ensures { result ≡ code_of (outcome_in self.now) }
    {
        match self {
            Answer::Decided(Ok(_)) => 0,
            Answer::Decided(Err(Denial::Core(why))) => why.code(),
            Answer::Decided(Err(Denial::NotApproved { .. })) => 12,
            Answer::Worn => 11,
        }
    }

    /// Whether the pass has no more turns.
    pub(crate) fn is_worn(&self) -> bool
        ensures { result ≡ is_worn (outcome_in self.now) }
    {
        match self {
            Answer::Decided(_) => false,
            Answer::Worn => true,
        }
    }
}

/// Decides on an ask at a moment, in seconds since the start of 1970. The lock is held for the decision alone. The
/// randomizer and the digest of a round-two ask have `n` bytes. It takes no memory.
pub(crate) fn decide_in_turn<D: Disk>(
    turns: &TurnsOnly<impl Wait>,
    lock: &TurnLock<Trustee<D>>,
    pass: &mut Pass<Trustee<D>>,
    share: &KeyKeeper,
    book: Option<&Approved>,
    ask: &Ask,
    moment: u64,
) -> Answer
    requires pass { IsIdle lock.now share.now pass.old }
    requires sizes { HasSizes share.now.params ask.now }
    ensures turn { OneTurn share.now (option_map (λ b. ids_of b.now) book.entry) ask.now moment result
        pass.old pass.new }
    ensures ask { IsGrantOf result ask.now }
    ensures pass { IsIdle lock.now share.now pass.new }
{
    let Ok(mut trustee) = lock.take_turn(turns, pass) else {
        return Answer::Worn;
    };
    let decided = decide_approved(book, &mut trustee, ask, moment);
    lock.give(pass, trustee);
    Answer::Decided(decided)
}
