//! What is wrong with the replies of a round.

ghost use Rattle.std.specs.Prelude.{◌≡◌, ◌*◌, All, Some, length, map};
ghost use Rattle.session_core.specs.Judging.{first_fault, kept_message, opened_fault, refusal_fault};
ghost use Rattle.session_core.specs.Judging.{round_fault, seat_fault, spent_fault};
ghost use Rattle.session_core.specs.State.{IsSeat, body_length, round_of};

use crate::faults::{KeptValue, SessionFault};
use crate::seat::Seat;
use crate::session::{Session, is_same_message};
use lms_bytes::bytes::{part, u32_at};
use lms_bytes::{MessageId, Val};

impl Session {
    /// What is wrong with the present round: the first fault by ascending member. `digest` is read in round two alone.
    pub(crate) fn round_fault(&self, digest: &Val) -> Option<SessionFault>
        requires { length digest.now ≡ self.now.key.params.n }
        ensures { result ≡ round_fault self.now digest.now }
    {
        self.fault_among(self.seats(), digest)
    }

    /// The first fault of these seats of the present round.
    fn fault_among(&self, seats: &[Seat], digest: &Val) -> Option<SessionFault>
        requires digest { length digest.now ≡ self.now.key.params.n }
        requires seats { All (IsSeat self.now.key.params (round_of self.now)) seats.now }
        ensures { result ≡ first_fault (map (seat_fault self.now digest.now) seats.now) }
    {
        'seats: for i in 0..seats.len() {
            if let Some(fault) = self.seat_fault(&seats[i], digest) {
                return Some(fault);
            }
        }
        None
    }

    /// What is wrong with what is kept for a member.
    fn seat_fault(&self, seat: &Seat, digest: &Val) -> Option<SessionFault>
        requires digest { length digest.now ≡ self.now.key.params.n }
        requires seat { IsSeat self.now.key.params (round_of self.now) seat.now }
        ensures { result ≡ seat_fault self.now digest.now seat.now }
    {
        let member = seat.member();
        match seat.code() {
            None => {
                Some(SessionFault::Missing {
                    member,
                    round: self.round(),
                })
            }
            Some(0) => None,
            Some(code) => Some(self.refusal_fault(digest, member, code, seat.body())),
        }
    }

    /// What a refusal means.
    fn refusal_fault(&self, digest: &Val, member: u8, code: u8, body: &[u8]) -> SessionFault
        requires digest { length digest.now ≡ self.now.key.params.n }
        requires body { length body.now ≡ body_length self.now.key.params (round_of self.now) code }
        ensures { result ≡ refusal_fault self.now digest.now member code body.now }
    {
        match (code, self.randomizer()) {
            (9, _) => self.spent_fault(member, body),
            (5, Some(_)) => {
                SessionFault::WrongCheck {
                    leaf: self.leaf(),
                    member,
                }
            }
            (10, Some(c)) => self.opened_fault(&c, digest, member, body),
            _ => SessionFault::MemberRefused { member, code },
        }
    }

    /// A leaf that is bound to another message is spent. The body has the id of that message.
    fn spent_fault(&self, member: u8, body: &[u8]) -> SessionFault
        requires { length body.now ≡ 36 }
        ensures { result ≡ spent_fault self.now member body.now }
    {
        let kept = message_in(body);
        if is_same_message(&kept, &self.message) {
            SessionFault::MemberRefused { member, code: 9 }
        } else {
            SessionFault::SpentLeaf {
                leaf: self.leaf,
                member,
                kept: KeptValue::Message(kept),
            }
        }
    }

    /// A leaf that was opened under another randomizer or digest is spent. The body has both, `n` bytes each.
    fn opened_fault(&self, c: &Val, digest: &Val, member: u8, body: &[u8]) -> SessionFault
        requires { length body.now ≡ 2 * self.now.key.params.n }
        ensures { result ≡ opened_fault self.now c.now digest.now member body.now }
    {
        let n = self.key.params.n as usize;
        let kept_c = Val::of(part(body, 0, n));
        let kept_digest = Val::of(part(body, n, n));
        if kept_c == *c && kept_digest == *digest {
            SessionFault::MemberRefused { member, code: 10 }
        } else {
            SessionFault::SpentLeaf {
                leaf: self.leaf,
                member,
                kept: KeptValue::Digest {
                    c: kept_c,
                    digest: kept_digest,
                },
            }
        }
    }
}

/// The message id in the body of a refusal, 36 bytes.
fn message_in(body: &[u8]) -> MessageId
    requires { length body.now ≡ 36 }
    ensures { result ≡ kept_message body.now }
{
    let mut hash = [0; 32];
    hash.copy_from_slice(part(body, 4, 32));
    MessageId {
        length: u32_at(body, 0),
        hash,
    }
}
