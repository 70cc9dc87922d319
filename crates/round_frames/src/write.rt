//! Frames that are written.

ghost use Rattle.std.specs.Prelude.{◌≡◌, ◌+◌, ◌≤◌, ◌++◌, ◌^◌, ◌<◌, ⊤, length, take, IsTrue, IsOk};
ghost use Rattle.std.specs.Prelude.{MatchOption};
ghost use Rattle.disk_trait.specs.Faults.{HasCause};
ghost use Rattle.lms_bytes.specs.MessageId.{message_id};
ghost use Rattle.stream_io.specs.Talk.{OnlyWrote};
ghost use Rattle.round_frames.specs.Asks.{ask_frame, ask_length, first_payload, second_front};
ghost use Rattle.round_frames.specs.Frames.{frame, header_bytes};
ghost use Rattle.round_frames.specs.Replies.{IsHead, head_parts, kind_of, payload_length, reply_front};
ghost use Rattle.round_frames.specs.Requests.{request_frame};
ghost use Rattle.round_frames.specs.Results.{failure_frame, signature_frame};
ghost use Rattle.round_frames.specs.Sending.{Sends, Wrote, sink_state};

use crate::outcome::Failure;
use crate::reply::kept_length;
use coalition_map::Members;
use disk_trait::Faults;
use lms_bytes::bytes::put;
use lms_bytes::{Ask, Params, ReplyHead, Second};
use stream_io::{Failed, Sink, Stream, write_whole};

/// Writes a header to the front of the room.
fn put_header(out: &mut [u8], kind: u8, size: u32)
    requires { 8 ≤ length out.old }
    ensures { take 8 out.new ≡ header_bytes kind size }
{
    put(out, 0, &[0x54, 0x4C, 1, kind]);
    put(out, 4, &size.to_be_bytes());
}

/// The most bytes of a head and what follows it that are written together.
const ROOM: usize = 4096;

/// Writes a head, and then what follows it: by one call of the sink if both are short.
fn write_both<K: Sink>(head: &[u8], rest: &[u8], sink: &mut K) -> Result<(), Failed>
    ensures wrote { Wrote (K.talk sink.old) (K.talk sink.new) (head.now ++ rest.now) result }
    ensures only { OnlyWrote (K.talk sink.old) (K.talk sink.new) }
    ensures cause { HasCause (K.talk sink.old).count (K.talk sink.new).count result }
    ensures succeeds { IsTrue (K.steady sink.old) → length head.now + length rest.now ≤ K.room sink.old → IsOk result }
    ensures room { K.room sink.old ≤ K.room sink.new + (length head.now + length rest.now) }
    ensures steady { K.steady sink.new ≡ K.steady sink.old }
{
    if head.len() + rest.len() > ROOM {
        return write_apart(head, rest, sink);
    }
    let room = join(head, rest);
    write_whole(sink, &room[..head.len() + rest.len()])
}

/// A head and what follows it at the front of a room.
fn join(head: &[u8], rest: &[u8]) -> [u8; ROOM]
    requires { length head.now + length rest.now ≤ 4096 }
    ensures { take (length head.now + length rest.now) result ≡ head.now ++ rest.now }
{
    let mut room = [0; ROOM];
    put(&mut room, 0, head);
    put(&mut room, head.len(), rest);
    room
}

/// Writes a head, and then what follows it by a call of its own.
fn write_apart<K: Sink>(head: &[u8], rest: &[u8], sink: &mut K) -> Result<(), Failed>
    ensures wrote { Wrote (K.talk sink.old) (K.talk sink.new) (head.now ++ rest.now) result }
    ensures only { OnlyWrote (K.talk sink.old) (K.talk sink.new) }
    ensures cause { HasCause (K.talk sink.old).count (K.talk sink.new).count result }
    ensures succeeds { IsTrue (K.steady sink.old) → length head.now + length rest.now ≤ K.room sink.old → IsOk result }
    ensures room { K.room sink.old ≤ K.room sink.new + (length head.now + length rest.now) }
    ensures steady { K.steady sink.new ≡ K.steady sink.old }
{
    write_whole(sink, head)?;
    write_whole(sink, rest)
}

/// Writes an ask, with its message in round two.
pub fn write_ask<K: Sink>(
    params: &Params,
    ask: &Ask,
    message: &[u8],
    sink: &mut K,
) -> Result<(), Failed>
    requires id { ask.now.message ≡ message_id message.now }
    requires c { MatchOption ask.now.second ⊤ (λ second. length second.c ≡ params.now.n) }
    requires limit { MatchOption ask.now.second ⊤ (λ second. length message.now ≤ 16777216) }
    ensures wrote { Wrote (K.talk sink.old) (K.talk sink.new) (ask_frame ask.now message.now) result }
    ensures only { OnlyWrote (K.talk sink.old) (K.talk sink.new) }
    ensures cause { HasCause (K.talk sink.old).count (K.talk sink.new).count result }
    ensures succeeds { IsTrue (K.steady sink.old)
        → length (ask_frame ask.now message.now) ≤ K.room sink.old → IsOk result }
    ensures room { K.room sink.old ≤ K.room sink.new + length (ask_frame ask.now message.now) }
    ensures length { length (ask_frame ask.now message.now) ≡ ask_length params.now ask.now message.now }
    ensures steady { K.steady sink.new ≡ K.steady sink.old }
{
    match &ask.second {
        None => write_first(ask, sink),
        Some(second) => write_second(params, ask, second, message, sink),
    }
}

/// Writes an ask of round one.
fn write_first<K: Sink>(ask: &Ask, sink: &mut K) -> Result<(), Failed>
    ensures wrote { Wrote (K.talk sink.old) (K.talk sink.new) (frame 1 (first_payload ask.now)) result }
    ensures only { OnlyWrote (K.talk sink.old) (K.talk sink.new) }
    ensures cause { HasCause (K.talk sink.old).count (K.talk sink.new).count result }
    ensures succeeds { IsTrue (K.steady sink.old)
        → length (frame 1 (first_payload ask.now)) ≤ K.room sink.old → IsOk result }
    ensures room { K.room sink.old ≤ K.room sink.new + length (frame 1 (first_payload ask.now)) }
    ensures length { length (frame 1 (first_payload ask.now)) ≡ 64 }
    ensures steady { K.steady sink.new ≡ K.steady sink.old }
{
    let bytes = first_frame(ask);
    write_whole(sink, &bytes)
}

/// The frame of an ask of round one.
fn first_frame(ask: &Ask) -> [u8; 64]
    ensures { result ≡ frame 1 (first_payload ask.now) }
{
    let mut bytes = [0; 64];
    put_header(&mut bytes, 1, 56);
    put(&mut bytes, 8, &ask.key);
    put(&mut bytes, 24, &ask.leaf.to_be_bytes());
    put(&mut bytes, 28, &ask.message.length.to_be_bytes());
    put(&mut bytes, 32, &ask.message.hash);
    bytes
}

/// Writes an ask of round two with its message.
fn write_second<K: Sink>(
    params: &Params,
    ask: &Ask,
    second: &Second,
    message: &[u8],
    sink: &mut K,
) -> Result<(), Failed>
    requires c { length second.now.c ≡ params.now.n }
    requires limit { length message.now ≤ 16777216 }
    ensures sends { Sends (second_front ask.now second.now message.now ++ message.now)
        (sink_state K.talk K.steady K.room sink.old) (sink_state K.talk K.steady K.room sink.new) result }
    ensures length { length (second_front ask.now second.now message.now ++ message.now)
        ≡ 60 + params.now.n + length message.now }
{
    let mut room = [0; 92];
    put_second(&mut room, ask, second, message);
    write_both(&room[..60 + params.n as usize], message, sink)
}

/// Puts what comes before the message of an ask of round two to the front of the room.
fn put_second(out: &mut [u8; 92], ask: &Ask, second: &Second, message: &[u8])
    requires { length message.now ≤ 16777216 }
    ensures { take (60 + length second.now.c) out.new ≡ second_front ask.now second.now message.now }
{
    let c = second.c.bytes();
    put_header(out, 2, (52 + c.len() + message.len()) as u32);
    put(out, 8, &ask.key);
    put(out, 24, &ask.leaf.to_be_bytes());
    put(out, 28, c);
    put(out, 28 + c.len(), &second.tag);
}

/// Writes the header and the head of a reply. Its body is still to be written.
pub fn write_reply_head<K: Sink>(
    params: &Params,
    head: &ReplyHead,
    sink: &mut K,
) -> Result<(), Failed>
    requires { IsHead params.now head.now }
    ensures wrote { Wrote (K.talk sink.old) (K.talk sink.new) (reply_front params.now head.now) result }
    ensures only { OnlyWrote (K.talk sink.old) (K.talk sink.new) }
    ensures cause { HasCause (K.talk sink.old).count (K.talk sink.new).count result }
    ensures succeeds { IsTrue (K.steady sink.old)
        → length (reply_front params.now head.now) ≤ K.room sink.old → IsOk result }
    ensures room { K.room sink.old ≤ K.room sink.new + length (reply_front params.now head.now) }
    ensures steady { K.steady sink.new ≡ K.steady sink.old }
{
    let mut room = [0; 99];
    let size = put_reply_head(params, head, &mut room);
    write_whole(sink, &room[..size])
}

/// Puts the header and the head of a reply to the front of the room, and answers how long they are. A caller that has
/// the body beside it writes both at once.
pub fn put_reply_head(params: &Params, head: &ReplyHead, out: &mut [u8]) -> usize
    requires head { IsHead params.now head.now }
    requires room { 99 ≤ length out.old }
    ensures size { result ≤ 99 }
    ensures bytes { take result out.new ≡ reply_front params.now head.now }
{
    let n = params.n as usize;
    put_header(out, kind_of(head), reply_length(params, head));
    put_parts(out, head);
    match (head.code, head.round) {
        (0, 1) => 65,
        (0, _) => {
            put(out, 65, head.c.bytes());
            65 + n
        }
        _ => {
            put(out, 65, head.c.bytes());
            put(out, 65 + n, &[head.round, head.code]);
            67 + n
        }
    }
}

/// The kind of a reply.
fn kind_of(head: &ReplyHead) -> u8
    ensures { result ≡ kind_of head.now }
{
    match (head.code, head.round) {
        (0, 1) => 3,
        (0, _) => 4,
        _ => 5,
    }
}

/// The length of the payload of a reply.
fn reply_length(params: &Params, head: &ReplyHead) -> u32
    ensures { result ≡ payload_length params.now head.now }
{
    let n = params.n as usize;
    let length = match (head.code, head.round) {
        (0, 1) => 57 + n,
        (0, _) => 57 + n + params.p as usize * n,
        (code, _) => 59 + n + kept_length(params, code),
    };
    length as u32
}

/// Puts what all heads of replies have after the header.
fn put_parts(out: &mut [u8], head: &ReplyHead)
    requires { 65 ≤ length out.old }
    ensures { take 65 out.new ≡ take 8 out.old ++ head_parts head.now }
{
    put(out, 8, &head.key);
    put(out, 24, &head.leaf.to_be_bytes());
    put(out, 28, &[head.member]);
    put(out, 29, &head.message.length.to_be_bytes());
    put(out, 33, &head.message.hash);
}

/// Writes a request.
pub fn write_request<K: Sink>(members: Members, message: &[u8], sink: &mut K) -> Result<(), Failed>
    requires { length message.now ≤ 16777216 }
    ensures wrote { Wrote (K.talk sink.old) (K.talk sink.new) (request_frame members message.now) result }
    ensures only { OnlyWrote (K.talk sink.old) (K.talk sink.new) }
    ensures cause { HasCause (K.talk sink.old).count (K.talk sink.new).count result }
    ensures succeeds { IsTrue (K.steady sink.old)
        → length (request_frame members message.now) ≤ K.room sink.old → IsOk result }
    ensures room { K.room sink.old ≤ K.room sink.new + length (request_frame members message.now) }
    ensures steady { K.steady sink.new ≡ K.steady sink.old }
{
    let mut head = [0; 10];
    put_header(&mut head, 6, (2 + message.len()) as u32);
    put(&mut head, 8, &members.bits().to_be_bytes());
    write_both(&head, message, sink)
}

/// Writes the bytes of a signature.
pub fn write_signature<K: Sink>(bytes: &[u8], sink: &mut K) -> Result<(), Failed>
    requires { length bytes.now < 2 ^ 32 }
    ensures wrote { Wrote (K.talk sink.old) (K.talk sink.new) (signature_frame bytes.now) result }
    ensures only { OnlyWrote (K.talk sink.old) (K.talk sink.new) }
    ensures cause { HasCause (K.talk sink.old).count (K.talk sink.new).count result }
    ensures succeeds { IsTrue (K.steady sink.old)
        → length (signature_frame bytes.now) ≤ K.room sink.old → IsOk result }
    ensures room { K.room sink.old ≤ K.room sink.new + length (signature_frame bytes.now) }
    ensures steady { K.steady sink.new ≡ K.steady sink.old }
{
    let mut head = [0; 8];
    put_header(&mut head, 7, bytes.len() as u32);
    write_both(&head, bytes, sink)
}

/// Writes why there is no signature.
pub fn write_failure<K: Sink>(failure: &Failure, sink: &mut K) -> Result<(), Failed>
    ensures wrote { Wrote (K.talk sink.old) (K.talk sink.new) (failure_frame failure.now) result }
    ensures only { OnlyWrote (K.talk sink.old) (K.talk sink.new) }
    ensures cause { HasCause (K.talk sink.old).count (K.talk sink.new).count result }
    ensures succeeds { IsTrue (K.steady sink.old)
        → length (failure_frame failure.now) ≤ K.room sink.old → IsOk result }
    ensures room { K.room sink.old ≤ K.room sink.new + length (failure_frame failure.now) }
    ensures steady { K.steady sink.new ≡ K.steady sink.old }
{
    let bytes = failure_bytes(failure);
    write_whole(sink, &bytes)
}

/// The frame of a failure.
fn failure_bytes(failure: &Failure) -> [u8; 15]
    ensures { result ≡ failure_frame failure.now }
{
    let mut bytes = [0; 15];
    put_header(&mut bytes, 8, 7);
    put(
        &mut bytes,
        8,
        &[failure.status, failure.member, failure.round],
    );
    put(&mut bytes, 11, &failure.leaf.to_be_bytes());
    bytes
}
