//! Requests, as frames.

ghost use Rattle.std.specs.Prelude.{◌≡◌, ◌≢◌, ◌⊎◌, ◌≤◌, IsTrue, IfSome, Err, None};
ghost use Rattle.stream_io.specs.Store.{RisesWhere};
ghost use Rattle.stream_io.specs.Talk.{OnlyRead};
ghost use Rattle.round_frames.specs.Frames.{frame_of, header_fault, payload_in};
ghost use Rattle.round_frames.specs.Reads.{Reads};
ghost use Rattle.round_frames.specs.Requests.{request_seen, requests};
ghost use Rattle.round_frames.specs.declared.fault.FrameFault.TheVariants.{ReadFault, NoMemory};

use crate::fault::FrameFault;
use crate::fill::{fill, take_bytes};
use crate::header::{Header, fault_of, next_header};
use coalition_map::Members;
use disk_trait::Faults;
use lms_bytes::LIMIT;
use std::alloc::Global;
use stream_io::{Source, Stream};

/// Reads a request: the trustees that are to sign, and the message. Memory is taken as its bytes come.
pub fn next_request<S: Source>(
    alloc: Global,
    source: &mut S,
) -> Result<(Members, Vec<u8>), FrameFault>
    ensures told { IsTrue (S.talk source.old).told → (result ≡ Err NoMemory) ⊎ Reads (S.talk source.old)
        (S.talk source.new) (request_seen result) (frame_of requests (S.talk source.old).left) }
    ensures only { OnlyRead (S.talk source.old) (S.talk source.new) }
    ensures cause { RisesWhere (result ≡ Err ReadFault) (S.talk source.old).count (S.talk source.new).count }
    ensures answers { IsTrue (S.steady source.old) → result ≢ Err ReadFault }
    ensures steady { S.steady source.new ≡ S.steady source.old }
{
    let header = next_header(source)?;
    next_payload(alloc, source, &header)
}

/// Reads what follows a header.
fn next_payload<S: Source>(
    alloc: Global,
    source: &mut S,
    header: &Header,
) -> Result<(Members, Vec<u8>), FrameFault>
    ensures told { IsTrue (S.talk source.old).told → (result ≡ Err NoMemory) ⊎ Reads (S.talk source.old)
        (S.talk source.new) (request_seen result) (payload_in requests header.now (S.talk source.old).left) }
    ensures only { OnlyRead (S.talk source.old) (S.talk source.new) }
    ensures cause { RisesWhere (result ≡ Err ReadFault) (S.talk source.old).count (S.talk source.new).count }
    ensures answers { IsTrue (S.steady source.old) → result ≢ Err ReadFault }
    ensures steady { S.steady source.new ≡ S.steady source.old }
{
    if let Some(fault) = request_fault(header) {
        return Err(fault);
    }
    let mut members = [0; 2];
    fill(source, &mut members)?;
    let message = take_bytes(alloc, source, header.length - 2)?;
    Ok((Members::of_bits(u16::from_be_bytes(members)), message))
}

/// What is wrong with the header of a request.
#[tactic(auto, unfolding(crate::specs::Frames::header_fault))]
fn request_fault(header: &Header) -> Option<FrameFault>
    ensures fault { result ≡ header_fault requests header.now }
    ensures length { result ≡ None → 2 ≤ header.now.length }
    ensures test { IfSome result (λ fault. (fault ≢ ReadFault) × (fault ≢ NoMemory)) }
{
    fault_of(header, header.kind == 6, 2 + LIMIT, 2 <= header.length)
}
