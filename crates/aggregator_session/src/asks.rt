//! One ask to one member.

ghost use Rattle.std.specs.Prelude.{◌≡◌, ◌≢◌, ◌+◌, ◌*◌, ◌≤◌, ⊤, length, Err, IsTrue, if◌then◌else◌};
ghost use Rattle.aggregator_session.specs.Causes.{LinkCauses};
ghost use Rattle.aggregator_session.specs.Hearing.{HasAsked, HasHeard, is_answer};
ghost use Rattle.aggregator_session.specs.Tasks.{MayAsk};
ghost use Rattle.round_frames.specs.Asks.{ask_frame, ask_length};
ghost use Rattle.session_core.specs.Replies.{with_delivery};
ghost use Rattle.session_core.specs.State.{SameAsk};
ghost use Rattle.session_core.specs.declared.faults.SessionFault.TheVariants.{Reference};

use crate::fault::{SignFault, Why, why_of};
use disk_trait::Faults;
use lms_bytes::{Ask, Params, ReplyHead};
use round_frames::{next_reply, write_ask};
use session_core::{Session, Step};
use stream_io::{Failed, Sink, Source, Stream};

/// The most frames that are read for an answer to an ask.
const MOST_FRAMES: u32 = 8;

/// Asks a member and awaits its answer, and tells whether it is masks. An answer is kept in the session; its body is
/// read into the room.
pub(crate) fn ask_member<L: Source + Sink>(
    params: &Params,
    session: &mut Session,
    member: u8,
    ask: &Ask,
    message: &[u8],
    link: &mut L,
    room: &mut [u8],
) -> Result<bool, SignFault>
    requires ask { MayAsk params.now session.old ask.now message.now (length room.old) }
    ensures asked { HasAsked session.old session.new member (ask_frame ask.now message.now)
        (L.talk link.old) (L.talk link.new) result }
    ensures links { LinkCauses (IsTrue (L.steady link.old))
        (ask_length params.now ask.now message.now ≤ L.room link.old) result }
    ensures room { L.room link.old ≤ L.room link.new + ask_length params.now ask.now message.now }
    ensures takes { (L.talk link.old).room ≡ L.room link.old }
    ensures reference { result ≢ Err (SignFault.Session Reference) }
    ensures same { SameAsk session.old session.new }
    ensures steady { L.steady link.new ≡ L.steady link.old }
{
    if let Err(Failed) = write_ask(params, ask, message, link) {
        return Err(SignFault::Lost {
            member,
            round: session.round(),
            why: Why::WriteFailed,
        });
    }
    hear(params, session, member, link, room)
}

/// Reads on until a frame answers the ask. The eighth in a row that does not is a stray.
fn hear<L: Source>(
    params: &Params,
    session: &mut Session,
    member: u8,
    link: &mut L,
    room: &mut [u8],
) -> Result<bool, SignFault>
    requires params { session.old.key.params ≡ params.now }
    requires room { params.now.p * params.now.n ≤ length room.old }
    ensures heard { HasHeard session.old session.new member (L.talk link.old) (L.talk link.new) result }
    ensures links { LinkCauses (IsTrue (L.steady link.old)) ⊤ result }
    ensures reference { result ≢ Err (SignFault.Session Reference) }
    ensures same { SameAsk session.old session.new }
    ensures steady { L.steady link.new ≡ L.steady link.old }
{
    for _ in 0..MOST_FRAMES {
        match next_reply(params, link, room) {
            Ok((head, length)) => {
                if is_answer(session, member, &head, &room[..length]) {
                    return Ok(head.code == 0);
                }
            }
            Err(fault) => {
                return Err(SignFault::Lost {
                    member,
                    round: session.round(),
                    why: why_of(fault),
                });
            }
        }
    }
    Err(SignFault::Stray {
        member,
        round: session.round(),
    })
}

/// Hands a reply to the session if its head names this member, and tells whether it is kept.
fn is_answer(session: &mut Session, member: u8, head: &ReplyHead, body: &[u8]) -> bool
    ensures answer { result ≡ is_answer session.old member (head.now, body.now) }
    ensures state { session.new ≡ (if result then with_delivery session.old head.now body.now else session.old) }
    ensures same { SameAsk session.old session.new }
{
    if head.member != member {
        return false;
    }
    matches!(session.take(head, body), Step::Kept)
}
