//! Replies. They are written outside the turn, and take no memory.

ghost use Rattle.std.specs.Prelude.{◌≡◌, ◌<◌, ◌≤◌, ◌+◌, ◌++◌, length, replicate, take, IfSome};
ghost use Rattle.lms_bytes.specs.Bytes.{joined};
ghost use Rattle.round_frames.specs.Asks.{HasSizes};
ghost use Rattle.round_frames.specs.Replies.{IsHead};
ghost use Rattle.trustee_core.specs.Grants.{ask_in, ask_of, granted_by, mask_of, masks_of};
ghost use Rattle.trustee_node.specs.Replies.{HasDigest, IsGrantOf, KeepsFew, body_in, c_of, kept_by, outcome_in};
ghost use Rattle.trustee_node.specs.Replies.{longest_reply, masks_joined, reply_bytes, reply_head, round_of};
ghost use Rattle.round_frames.specs.Sending.{Sends, sink_state};

use crate::turn::Answer;
use disk_trait::Faults;
use lms_bytes::bytes::put;
use lms_bytes::{Ask, Params, ReplyHead, Val};
use opening_journal::JournalFault;
use round_frames::put_reply_head;
use stream_io::{Failed, Sink, Stream, write_whole};
use trustee_core::{Denial, Grant, GrantMasks, KeyKeeper, Refusal};

/// How many bytes of a reply are written at once: usually all of them.
const ROOM: usize = 4096;

/// Writes the reply to an ask: its head, followed by the masks of a grant, or by what a refusal keeps.
pub(crate) fn write_reply<K: Sink>(
    share: &KeyKeeper,
    ask: &Ask,
    answer: &Answer,
    link: &mut K,
) -> Result<(), Failed>
    requires sizes { HasSizes share.now.params ask.now }
    requires answer { IsGrantOf answer.now ask.now }
    ensures sends { Sends (reply_bytes share.now ask.now (outcome_in answer.now))
        (sink_state K.talk K.steady K.room link.old) (sink_state K.talk K.steady K.room link.new) result }
    ensures length { length (reply_bytes share.now ask.now (outcome_in answer.now)) ≤ longest_reply share.now.params }
{
    let head = head_of(share, ask, answer);
    let mut room = [0; ROOM];
    let front = put_reply_head(share.params(), &head, &mut room);
    write_body(share, answer, &mut room, front, link)
}

/// The head of the reply to an ask.
fn head_of(share: &KeyKeeper, ask: &Ask, answer: &Answer) -> ReplyHead
    requires { HasSizes share.now.params ask.now }
    ensures head { result ≡ reply_head share.now ask.now (outcome_in answer.now) }
    ensures written { IsHead share.now.params result }
{
    ReplyHead {
        key: ask.key,
        leaf: ask.leaf,
        member: share.member(),
        message: ask.message,
        round: round_of(ask),
        c: randomizer_of(share.params(), ask),
        code: answer.code(),
    }
}

/// The round of an ask.
fn round_of(ask: &Ask) -> u8
    ensures { result ≡ round_of ask.now.second }
{
    match ask.second {
        None => 1,
        Some(_) => 2,
    }
}

/// The randomizer of an ask, or `n` zero bytes in round one.
fn randomizer_of(params: &Params, ask: &Ask) -> Val
    ensures { result ≡ c_of params.now ask.now.second }
{
    match &ask.second {
        None => zeros(params),
        Some(second) => second.c,
    }
}

/// As many zero bytes as a hash value has.
fn zeros(params: &Params) -> Val
    ensures { result ≡ replicate params.now.n 0 }
{
    let zeros = [0; 32];
    Val::of(&zeros[..params.n as usize])
}

/// Writes the front of the room, and what follows it.
fn write_body<K: Sink>(
    share: &KeyKeeper,
    answer: &Answer,
    room: &mut [u8; ROOM],
    front: usize,
    link: &mut K,
) -> Result<(), Failed>
    requires digest { HasDigest share.now answer.now }
    requires front { front ≤ 99 }
    ensures sends { Sends (take front room.old ++ body_in share.now answer.now)
        (sink_state K.talk K.steady K.room link.old) (sink_state K.talk K.steady K.room link.new) result }
    ensures keeps { KeepsFew answer.now }
{
    match answer {
        Answer::Decided(Ok(grant)) => write_granted(share, grant, room, front, link),
        Answer::Decided(Err(Denial::Core(why))) => write_kept(why, room, front, link),
        Answer::Decided(Err(Denial::NotApproved { .. })) => write_whole(link, &room[..front]),
        Answer::Worn => write_whole(link, &room[..front]),
    }
}

/// Writes the front of the room, and what a refusal keeps.
fn write_kept<K: Sink>(
    why: &Refusal,
    room: &mut [u8; ROOM],
    front: usize,
    link: &mut K,
) -> Result<(), Failed>
    requires { front ≤ 99 }
    ensures sends { Sends (take front room.old ++ kept_by why.now)
        (sink_state K.talk K.steady K.room link.old) (sink_state K.talk K.steady K.room link.new) result }
    ensures keeps { length (kept_by why.now) ≤ 64 }
{
    let length = put_behind(why, room, front);
    write_whole(link, &room[..length])
}

/// Puts what a refusal keeps after the front of the room, and answers the length of both together.
fn put_behind(why: &Refusal, room: &mut [u8; ROOM], front: usize) -> usize
    requires { front ≤ 99 }
    ensures keeps { length (kept_by why.now) ≤ 64 }
    ensures length { result ≤ 4096 }
    ensures bytes { take result room.new ≡ take front room.old ++ kept_by why.now }
{
    front + put_kept(why, &mut room[front..])
}

/// Puts what a refusal keeps at the front of the room, and answers its length: the two gates, the kept message's id, or
/// the kept randomizer and digest.
fn put_kept(why: &Refusal, out: &mut [u8]) -> usize
    requires { 64 ≤ length out.old }
    ensures length { result ≤ 64 }
    ensures bytes { take result out.new ≡ kept_by why.now }
{
    match why {
        Refusal::Journal(JournalFault::Damaged { a, b, .. }) => {
            put(out, 0, &[*a, *b]);
            2
        }
        Refusal::Journal(JournalFault::Spent { kept }) => {
            put(out, 0, &kept.to_bytes());
            36
        }
        Refusal::Journal(JournalFault::OtherDigest { c, digest }) => put_pair(c, digest, out),
        Refusal::ForeignKey
        | Refusal::NoSuchLeaf
        | Refusal::NotMember
        | Refusal::TooLong { .. }
        | Refusal::BadCheck
        | Refusal::Journal(JournalFault::Device | JournalFault::NotBound) => 0,
    }
}

/// Puts two values one after the other at the front of the room, and answers their total length.
fn put_pair(first: &Val, second: &Val, out: &mut [u8]) -> usize
    requires { 64 ≤ length out.old }
    ensures length { result ≤ 64 }
    ensures bytes { take result out.new ≡ first.now ++ second.now }
{
    let (first, second) = (first.bytes(), second.bytes());
    put(out, 0, first);
    put(out, first.len(), second);
    first.len() + second.len()
}

/// Masks in a room.
#[derive(Clone, Copy)]
struct Batch {
    /// The first mask that is not there.
    next: u16,
    /// How many bytes those before it take.
    length: usize,
}

/// Writes the front of the room, and the masks of a grant.
fn write_granted<K: Sink>(
    share: &KeyKeeper,
    grant: &Grant,
    room: &mut [u8; ROOM],
    front: usize,
    link: &mut K,
) -> Result<(), Failed>
    requires digest { IfSome (ask_of grant.now).second (λ second. length second.digest ≡ share.now.params.n) }
    requires front { front ≤ 99 }
    ensures sends { Sends (take front room.old ++ masks_joined share.now (ask_of grant.now))
        (sink_state K.talk K.steady K.room link.old) (sink_state K.talk K.steady K.room link.new) result }
{
    // The key is hashed once for all masks.
    let masks = grant.masks(share);
    write_masks(&masks, room, front, link)
}

/// Writes the front of the room, and all these masks, as much at a time as there is room for.
fn write_masks<K: Sink>(
    masks: &GrantMasks,
    room: &mut [u8; ROOM],
    front: usize,
    link: &mut K,
) -> Result<(), Failed>
    requires front { front ≤ 99 }
    ensures sends { Sends (take front room.old ++ masks_joined (granted_by masks.now) (ask_in masks.now))
        (sink_state K.talk K.steady K.room link.old) (sink_state K.talk K.steady K.room link.new) result }
{
    let count = masks.count();
    let mut unwritten = front;
    let mut next = 0;
    'batches: while next < count {
        let batch = put_masks(masks, next, &mut room[unwritten..]);
        if let Err(failed) = write_whole(link, &room[..unwritten + batch.length]) {
            return Err(failed);
        }
        unwritten = 0;
        next = batch.next;
    }
    Ok(())
}

/// Puts masks of a grant at the front of the room, from mask `from` on, as many as there is room for.
fn put_masks(masks: &GrantMasks, from: u16, room: &mut [u8]) -> Batch
    requires from { from < masks_of (granted_by masks.now).params (ask_in masks.now) }
    requires room { 32 ≤ length room.old }
    ensures later { from < result.next }
    ensures within { result.next ≤ masks_of (granted_by masks.now).params (ask_in masks.now) }
    ensures length { result.length ≤ length room.old }
    ensures bytes { joined (mask_of (granted_by masks.now) (ask_in masks.now)) from ++ take result.length room.new
        ≡ joined (mask_of (granted_by masks.now) (ask_in masks.now)) result.next }
{
    let n = masks.mask_length();
    let count = masks.count();
    let mut length = 0;
    for i in from..count {
        let is_full = length + n > room.len();
        if is_full {
            return Batch { next: i, length };
        }
        put(room, length, masks.mask(i).bytes());
        length += n;
    }
    Batch {
        next: count,
        length,
    }
}
