//! Replies, as frames.

ghost use Rattle.std.specs.Prelude.{◌≡◌, ◌≢◌, ◌+◌, ◌*◌, ◌-◌, ◌≤◌, ◌==◌, length, replicate, IsTrue, IfErr, IfOk};
ghost use Rattle.std.specs.Prelude.{IfSome};
ghost use Rattle.std.specs.Prelude.{Ok, Err, None};
ghost use Rattle.std.specs.List.{list_all};
ghost use Rattle.stream_io.specs.Store.{RisesWhere};
ghost use Rattle.stream_io.specs.Talk.{OnlyRead};
ghost use Rattle.round_frames.specs.Frames.{frame_of, header_fault, payload_in, whole};
ghost use Rattle.round_frames.specs.Reads.{Reads};
ghost use Rattle.round_frames.specs.Replies.{body_seen, head_length, head_of, is_refusal, is_reply_length};
ghost use Rattle.round_frames.specs.Replies.{kept_length, replies, reply_in, reply_seen};
ghost use Rattle.round_frames.specs.declared.fault.FrameFault.TheVariants.{ReadFault, NoMemory, Shape};

use crate::fault::FrameFault;
use crate::fill::fill;
use crate::header::{Header, fault_of, next_header};
use disk_trait::Faults;
use lms_bytes::bytes::{part, u32_at};
use lms_bytes::{LIMIT, MessageId, Params, ReplyHead, Val};
use stream_io::{Source, Stream};

/// Reads a reply: its head, and its body, which is put to the front of the room. It answers the body's length too.
pub fn next_reply<S: Source>(
    params: &Params,
    source: &mut S,
    body: &mut [u8],
) -> Result<(ReplyHead, usize), FrameFault>
    requires { params.now.p * params.now.n ≤ length body.old }
    ensures told { IsTrue (S.talk source.old).told → Reads (S.talk source.old) (S.talk source.new)
        (reply_seen result body.new) (frame_of (replies params.now) (S.talk source.old).left) }
    ensures within { IfOk result (λ found. found.1 ≤ length body.old) }
    ensures only { OnlyRead (S.talk source.old) (S.talk source.new) }
    ensures cause { RisesWhere (result ≡ Err ReadFault) (S.talk source.old).count (S.talk source.new).count }
    ensures answers { IsTrue (S.steady source.old) → result ≢ Err ReadFault }
    ensures steady { S.steady source.new ≡ S.steady source.old }
    ensures no_memory { result ≢ Err NoMemory }
{
    let header = next_header(source)?;
    next_payload(params, source, &header, body)
}

/// Reads what follows a header.
fn next_payload<S: Source>(
    params: &Params,
    source: &mut S,
    header: &Header,
    body: &mut [u8],
) -> Result<(ReplyHead, usize), FrameFault>
    requires { params.now.p * params.now.n ≤ length body.old }
    ensures told { IsTrue (S.talk source.old).told → Reads (S.talk source.old) (S.talk source.new)
        (reply_seen result body.new) (payload_in (replies params.now) header.now (S.talk source.old).left) }
    ensures within { IfOk result (λ found. found.1 ≤ length body.old) }
    ensures only { OnlyRead (S.talk source.old) (S.talk source.new) }
    ensures cause { RisesWhere (result ≡ Err ReadFault) (S.talk source.old).count (S.talk source.new).count }
    ensures answers { IsTrue (S.steady source.old) → result ≢ Err ReadFault }
    ensures steady { S.steady source.new ≡ S.steady source.old }
    ensures no_memory { result ≢ Err NoMemory }
{
    if let Some(fault) = reply_fault(params, header) {
        return Err(fault);
    }
    let size = head_length(params, header.kind);
    let length = header.length as usize - size;
    let mut room = [0; 91];
    let head = &mut room[..size];
    fill(source, head)?;
    let found = next_body(params, source, header.kind, head, &mut body[..length])?;
    Ok((found, length))
}

/// How long the head of a reply of this kind is.
fn head_length(params: &Params, kind: u8) -> usize
    ensures length { result ≡ head_length params.now.n kind }
    ensures bound { result ≤ 91 }
{
    let n = params.n as usize;
    match kind {
        3 => 57,
        4 => 57 + n,
        _ => 59 + n,
    }
}

/// What is wrong with the header of a reply.
#[tactic(auto, unfolding(crate::specs::Frames::header_fault))]
fn reply_fault(params: &Params, header: &Header) -> Option<FrameFault>
    ensures fault { result ≡ header_fault (replies params.now) header.now }
    ensures head { result ≡ None → head_length params.now.n header.now.kind ≤ header.now.length }
    ensures body { result ≡ None
        → header.now.length ≤ head_length params.now.n header.now.kind + params.now.p * params.now.n }
    ensures test { IfSome result (λ fault. (fault ≢ ReadFault) × (fault ≢ NoMemory)) }
{
    let n = u32::from(params.n);
    let reads = header.kind == 3 || header.kind == 4 || header.kind == 5;
    fault_of(
        header,
        reads,
        52 + n + LIMIT,
        is_reply_length(params, header),
    )
}

/// Whether the length is one of the kind's.
fn is_reply_length(params: &Params, header: &Header) -> bool
    ensures { result ≡ is_reply_length params.now header.now }
{
    let n = u32::from(params.n);
    let length = header.length;
    match header.kind {
        3 => length == 57 + n,
        4 => length == 57 + n + u32::from(params.p) * n,
        _ => { length == 59 + n || length == 61 + n || length == 95 + n || length == 59 + 3 * n }
    }
}

/// Reads the body of a reply, which fills the room, after its head.
fn next_body<S: Source>(
    params: &Params,
    source: &mut S,
    kind: u8,
    head: &[u8],
    body: &mut [u8],
) -> Result<ReplyHead, FrameFault>
    requires { length head.now ≡ head_length params.now.n kind }
    ensures told { IsTrue (S.talk source.old).told → Reads (S.talk source.old) (S.talk source.new)
        (body_seen result body.new)
        (whole (length body.old) (λ rest. reply_in params.now.n kind head.now rest) (S.talk source.old).left) }
    ensures only { OnlyRead (S.talk source.old) (S.talk source.new) }
    ensures cause { RisesWhere (result ≡ Err ReadFault) (S.talk source.old).count (S.talk source.new).count }
    ensures answers { IsTrue (S.steady source.old) → result ≢ Err ReadFault }
    ensures steady { S.steady source.new ≡ S.steady source.old }
    ensures no_memory { result ≢ Err NoMemory }
{
    fill(source, body)?;
    reply_of(params, kind, head, body)
}

/// The reply of a head and a body.
#[tactic(auto, unfolding(crate::specs::Replies::reply_in))]
fn reply_of(params: &Params, kind: u8, head: &[u8], body: &[u8]) -> Result<ReplyHead, FrameFault>
    requires { length head.now ≡ head_length params.now.n kind }
    ensures reply { body_seen result body.now ≡ reply_in params.now.n kind head.now body.now }
    ensures fault { IfErr result (λ fault. fault ≡ Shape) }
{
    let n = params.n as usize;
    match kind {
        3 => Ok(head_of(head, zeros(params), 1, 0)),
        4 => Ok(head_of(head, Val::of(part(head, 57, n)), 2, 0)),
        _ if is_refusal(params, head, body) => {
            let c = Val::of(part(head, 57, n));
            Ok(head_of(head, c, head[57 + n], head[58 + n]))
        }
        _ => Err(FrameFault::Shape),
    }
}

/// As many zero bytes as a hash value has.
fn zeros(params: &Params) -> Val
    ensures { result ≡ replicate params.now.n 0 }
{
    let zeros = [0; 32];
    Val::of(&zeros[..params.n as usize])
}

/// The head that these bytes begin, with what its kind tells.
fn head_of(head: &[u8], c: Val, round: u8, code: u8) -> ReplyHead
    requires { 57 ≤ length head.now }
    ensures { result ≡ head_of head.now c round code }
{
    let mut key = [0; 16];
    key.copy_from_slice(part(head, 0, 16));
    let mut hash = [0; 32];
    hash.copy_from_slice(part(head, 25, 32));
    ReplyHead {
        key,
        leaf: u32_at(head, 16),
        member: head[20],
        message: MessageId {
            length: u32_at(head, 21),
            hash,
        },
        round,
        c,
        code,
    }
}

/// Whether a refusal has a round and a code, the body of its code, and no C in round one.
fn is_refusal(params: &Params, head: &[u8], body: &[u8]) -> bool
    requires { length head.now ≡ 59 + params.now.n }
    ensures { result ≡ is_refusal params.now.n head.now body.now }
{
    let n = params.n as usize;
    let round = head[57 + n];
    let code = head[58 + n];
    (round == 1 || round == 2)
        && (1 <= code && code <= 12)
        && body.len() == kept_length(params, code)
        && (round == 2 || is_zero(part(head, 57, n)))
}

/// Whether all bytes are zero.
fn is_zero(bytes: &[u8]) -> bool
    ensures { result ≡ list_all (λ byte. byte == 0) bytes.now }
{
    bytes.iter().all(|byte| *byte == 0)
}

/// The length of what a refusal of this code keeps.
pub(crate) fn kept_length(params: &Params, code: u8) -> usize
    ensures { result ≡ kept_length params.now.n code }
{
    match code {
        7 => 2,
        9 => 36,
        10 => 2 * params.n as usize,
        _ => 0,
    }
}
