//! Results, as frames.

ghost use Rattle.std.specs.Prelude.{◌≡◌, ◌≢◌, ◌⊎◌, IsTrue, IfSome, Ok, Err, None};
ghost use Rattle.stream_io.specs.Store.{RisesWhere};
ghost use Rattle.stream_io.specs.Talk.{OnlyRead};
ghost use Rattle.round_frames.specs.Frames.{frame_of, header_fault, payload_in};
ghost use Rattle.round_frames.specs.Reads.{Reads};
ghost use Rattle.round_frames.specs.Results.{failure_of, result_seen, results};
ghost use Rattle.round_frames.specs.declared.fault.FrameFault.TheVariants.{ReadFault, NoMemory};

use crate::fault::FrameFault;
use crate::fill::{fill, take_bytes};
use crate::header::{Header, fault_of, next_header};
use disk_trait::Faults;
use lms_bytes::bytes::u32_at;
use lms_bytes::{LIMIT, Params};
use std::alloc::Global;
use stream_io::{Source, Stream};

/// What came of a request.
#[derive(Debug, PartialEq, Eq, Drop)]
pub enum Outcome {
    /// The bytes of a signature.
    Signature(Vec<u8>),
    /// There is no signature.
    Failure(Failure),
}

/// Why there is no signature. What the status does not name is zero.
#[derive(Clone, Copy, Debug, PartialEq, Eq)]
pub struct Failure {
    /// The status that a run of the tool would have ended with.
    pub status: u8,
    /// The number of a trustee.
    pub member: u8,
    /// 1 or 2.
    pub round: u8,
    /// The number of a leaf.
    pub leaf: u32,
}

/// Reads what came of a request. Memory is taken as its bytes come.
pub fn next_result<S: Source>(
    alloc: Global,
    params: &Params,
    source: &mut S,
) -> Result<Outcome, FrameFault>
    ensures told { IsTrue (S.talk source.old).told → (result ≡ Err NoMemory) ⊎ Reads (S.talk source.old)
        (S.talk source.new) (result_seen result) (frame_of (results params.now) (S.talk source.old).left) }
    ensures only { OnlyRead (S.talk source.old) (S.talk source.new) }
    ensures cause { RisesWhere (result ≡ Err ReadFault) (S.talk source.old).count (S.talk source.new).count }
    ensures answers { IsTrue (S.steady source.old) → result ≢ Err ReadFault }
    ensures steady { S.steady source.new ≡ S.steady source.old }
{
    let header = next_header(source)?;
    next_payload(alloc, params, source, &header)
}

/// Reads what follows a header.
fn next_payload<S: Source>(
    alloc: Global,
    params: &Params,
    source: &mut S,
    header: &Header,
) -> Result<Outcome, FrameFault>
    ensures told { IsTrue (S.talk source.old).told → (result ≡ Err NoMemory) ⊎ Reads (S.talk source.old)
        (S.talk source.new) (result_seen result) (payload_in (results params.now) header.now (S.talk source.old).left) }
    ensures only { OnlyRead (S.talk source.old) (S.talk source.new) }
    ensures cause { RisesWhere (result ≡ Err ReadFault) (S.talk source.old).count (S.talk source.new).count }
    ensures answers { IsTrue (S.steady source.old) → result ≢ Err ReadFault }
    ensures steady { S.steady source.new ≡ S.steady source.old }
{
    if let Some(fault) = result_fault(params, header) {
        return Err(fault);
    }
    if header.kind == 7 {
        let bytes = take_bytes(alloc, source, header.length)?;
        return Ok(Outcome::Signature(bytes));
    }
    let mut payload = [0; 7];
    fill(source, &mut payload)?;
    Ok(Outcome::Failure(read_failure(&payload)))
}

/// What is wrong with the header of a result.
#[tactic(auto, unfolding(crate::specs::Frames::header_fault))]
fn result_fault(params: &Params, header: &Header) -> Option<FrameFault>
    ensures fault { result ≡ header_fault (results params.now) header.now }
    ensures failure { result ≡ None → header.now.kind ≢ 7 → header.now.length ≡ 7 }
    ensures test { IfSome result (λ fault. (fault ≢ ReadFault) × (fault ≢ NoMemory)) }
{
    let n = u32::from(params.n);
    let size = 12 + n * (u32::from(params.p) + 1) + n * u32::from(params.h);
    let reads = header.kind == 7 || header.kind == 8;
    let fits = if header.kind == 7 {
        header.length == size
    } else {
        header.length == 7
    };
    fault_of(header, reads, 52 + n + LIMIT, fits)
}

/// The failure of this payload.
fn read_failure(payload: &[u8; 7]) -> Failure
    ensures { result ≡ failure_of payload.now }
{
    Failure {
        status: payload[0],
        member: payload[1],
        round: payload[2],
        leaf: u32_at(payload, 3),
    }
}
