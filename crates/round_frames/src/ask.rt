//! Asks, as frames.

ghost use Rattle.std.specs.Prelude.{◌≡◌, ◌≢◌, ◌+◌, ◌≤◌, length, IsTrue, IfOk, IfSome, Ok, Err, None};
ghost use Rattle.stream_io.specs.Store.{RisesWhere};
ghost use Rattle.stream_io.specs.Talk.{OnlyRead};
ghost use Rattle.round_frames.specs.Asks.{HasSizes, ask_of, asks, first_ask, second_ask};
ghost use Rattle.round_frames.specs.Frames.{frame_of, header_fault, payload_in, whole};
ghost use Rattle.round_frames.specs.Reads.{Reads};
ghost use Rattle.round_frames.specs.declared.fault.FrameFault.TheVariants.{ReadFault, NoMemory};

use crate::fault::FrameFault;
use crate::fill::fill;
use crate::header::{Header, fault_of, next_header};
use crate::message::{Hashes, take_message};
use disk_trait::Faults;
use lms_bytes::bytes::{part, u32_at};
use lms_bytes::{Ask, IdHash, LIMIT, MessageId, Params, Second, Val};
use ots_chain::MessageHash;
use stream_io::{Source, Stream};

/// Reads an ask. The message of an ask of round two is hashed as it comes, and not kept.
pub fn next_ask<S: Source>(params: &Params, source: &mut S) -> Result<Ask, FrameFault>
    ensures told { IsTrue (S.talk source.old).told → Reads (S.talk source.old) (S.talk source.new) result
        (frame_of (asks params.now) (S.talk source.old).left) }
    ensures only { OnlyRead (S.talk source.old) (S.talk source.new) }
    ensures cause { RisesWhere (result ≡ Err ReadFault) (S.talk source.old).count (S.talk source.new).count }
    ensures answers { IsTrue (S.steady source.old) → result ≢ Err ReadFault }
    ensures steady { S.steady source.new ≡ S.steady source.old }
    ensures no_memory { result ≢ Err NoMemory }
    ensures sizes { IfOk result (HasSizes params.now) }
{
    let header = next_header(source)?;
    next_payload(params, source, &header)
}

/// Reads what follows a header.
fn next_payload<S: Source>(
    params: &Params,
    source: &mut S,
    header: &Header,
) -> Result<Ask, FrameFault>
    ensures told { IsTrue (S.talk source.old).told → Reads (S.talk source.old) (S.talk source.new) result
        (payload_in (asks params.now) header.now (S.talk source.old).left) }
    ensures only { OnlyRead (S.talk source.old) (S.talk source.new) }
    ensures cause { RisesWhere (result ≡ Err ReadFault) (S.talk source.old).count (S.talk source.new).count }
    ensures answers { IsTrue (S.steady source.old) → result ≢ Err ReadFault }
    ensures steady { S.steady source.new ≡ S.steady source.old }
    ensures no_memory { result ≢ Err NoMemory }
    ensures sizes { IfOk result (HasSizes params.now) }
{
    if let Some(fault) = ask_fault(params, header) {
        return Err(fault);
    }
    if header.kind == 1 {
        next_first(source)
    } else {
        next_second(params, source, header.length)
    }
}

/// What is wrong with the header of an ask.
#[tactic(auto, unfolding(crate::specs::Frames::header_fault))]
fn ask_fault(params: &Params, header: &Header) -> Option<FrameFault>
    ensures fault { result ≡ header_fault (asks params.now) header.now }
    ensures first { result ≡ None → header.now.kind ≡ 1 → header.now.length ≡ 56 }
    ensures second { result ≡ None → header.now.kind ≢ 1 → 52 + params.now.n ≤ header.now.length }
    ensures test { IfSome result (λ fault. (fault ≢ ReadFault) × (fault ≢ NoMemory)) }
{
    let head = 52 + u32::from(params.n);
    let reads = header.kind == 1 || header.kind == 2;
    let fits = if header.kind == 1 {
        header.length == 56
    } else {
        head <= header.length
    };
    fault_of(header, reads, head + LIMIT, fits)
}

/// Reads the payload of an ask of round one.
fn next_first<S: Source>(source: &mut S) -> Result<Ask, FrameFault>
    ensures told { IsTrue (S.talk source.old).told → Reads (S.talk source.old) (S.talk source.new) result
        (whole 56 (λ payload. Ok (first_ask payload)) (S.talk source.old).left) }
    ensures only { OnlyRead (S.talk source.old) (S.talk source.new) }
    ensures cause { RisesWhere (result ≡ Err ReadFault) (S.talk source.old).count (S.talk source.new).count }
    ensures answers { IsTrue (S.steady source.old) → result ≢ Err ReadFault }
    ensures steady { S.steady source.new ≡ S.steady source.old }
    ensures no_memory { result ≢ Err NoMemory }
    ensures first { IfOk result (λ ask. ask.second ≡ None) }
{
    let mut payload = [0; 56];
    fill(source, &mut payload)?;
    Ok(read_first(&payload))
}

/// The ask of round one of this payload.
fn read_first(payload: &[u8; 56]) -> Ask
    ensures { result ≡ first_ask payload.now }
{
    let mut key = [0; 16];
    key.copy_from_slice(part(payload, 0, 16));
    let mut hash = [0; 32];
    hash.copy_from_slice(part(payload, 24, 32));
    Ask {
        key,
        leaf: u32_at(payload, 16),
        message: MessageId {
            length: u32_at(payload, 20),
            hash,
        },
        second: None,
    }
}

/// Reads the payload of an ask of round two, of this length: its head, and then its message.
fn next_second<S: Source>(params: &Params, source: &mut S, length: u32) -> Result<Ask, FrameFault>
    requires { 52 + params.now.n ≤ length }
    ensures told { IsTrue (S.talk source.old).told → Reads (S.talk source.old) (S.talk source.new) result
        (whole length (λ payload. Ok (second_ask params.now payload)) (S.talk source.old).left) }
    ensures only { OnlyRead (S.talk source.old) (S.talk source.new) }
    ensures cause { RisesWhere (result ≡ Err ReadFault) (S.talk source.old).count (S.talk source.new).count }
    ensures answers { IsTrue (S.steady source.old) → result ≢ Err ReadFault }
    ensures steady { S.steady source.new ≡ S.steady source.old }
    ensures no_memory { result ≢ Err NoMemory }
    ensures sizes { IfOk result (HasSizes params.now) }
{
    let mut room = [0; 84];
    let size = 52 + params.n as usize;
    let head = &mut room[..size];
    fill(source, head)?;
    finish_second(params, source, head, length - size as u32)
}

/// Reads the message of an ask of round two, of this size, after its head.
fn finish_second<S: Source>(
    params: &Params,
    source: &mut S,
    head: &[u8],
    size: u32,
) -> Result<Ask, FrameFault>
    requires { length head.now ≡ 52 + params.now.n }
    ensures told { IsTrue (S.talk source.old).told → Reads (S.talk source.old) (S.talk source.new) result
        (whole size (λ message. Ok (ask_of params.now head.now message)) (S.talk source.old).left) }
    ensures only { OnlyRead (S.talk source.old) (S.talk source.new) }
    ensures cause { RisesWhere (result ≡ Err ReadFault) (S.talk source.old).count (S.talk source.new).count }
    ensures answers { IsTrue (S.steady source.old) → result ≢ Err ReadFault }
    ensures steady { S.steady source.new ≡ S.steady source.old }
    ensures no_memory { result ≢ Err NoMemory }
    ensures sizes { IfOk result (HasSizes params.now) }
{
    let n = params.n as usize;
    let mut key = [0; 16];
    key.copy_from_slice(part(head, 0, 16));
    let mut tag = [0; 32];
    tag.copy_from_slice(part(head, 20 + n, 32));
    let leaf = u32_at(head, 16);
    let c = Val::of(part(head, 20, n));
    let mut hashes = Hashes {
        id: IdHash::new(),
        digest: MessageHash::new(params, &key, leaf, &c),
    };
    take_message(source, &mut hashes, size)?;
    Ok(Ask {
        key,
        leaf,
        message: hashes.id.finish(),
        second: Some(Second {
            c,
            tag,
            digest: hashes.digest.finish(),
        }),
    })
}
