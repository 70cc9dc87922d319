//! Tests of what no contract says: that calls succeed if there is memory and no call fails.

ghost use Rattle.std.specs.Prelude.{◌≡◌, None, false, refl};
ghost use Rattle.round_frames.specs.Replies.{IsHead};

use coalition_map::Members;
use disk_trait::Faults;
use lms_bytes::{Ask, MessageId, Params, ReplyHead, Val};
use round_frames::{
    Failure, FrameFault, Outcome, next_ask, next_reply, next_request, next_result, write_ask,
    write_failure, write_reply_head, write_request, write_signature,
};
use std::alloc::Global;
use std::process::Abort;
use stream_io::{Failed, Sink, Source, Stream, write_whole};
use stream_memory::{MemSink, MemSource};

/// A failure of round two.
const FAILURE: Failure = Failure {
    status: 8,
    member: 3,
    round: 0,
    leaf: 9,
};

/// The bytes of a signature.
const SIGNATURE: [u8; 2348] = [3; 2348];

/// The ask of round one for a message on leaf 7.
fn ask(message: &MessageId) -> Ask
    ensures message { result.message ≡ message.now }
    ensures first { result.second ≡ None }
{
    Ask {
        key: [0x1d; 16],
        leaf: 7,
        message: *message,
        second: None,
    }
}

/// The head of a reply of round two.
fn head(params: &Params) -> ReplyHead
    ensures { IsHead params.now result }
{
    let c = [5; 32];
    ReplyHead {
        key: [0x1d; 16],
        leaf: 7,
        member: 2,
        message: MessageId::of(b"abc"),
        round: 2,
        c: Val::of(&c[..params.n as usize]),
        code: 0,
    }
}

/// A sink with room for each of the frames, seven bytes at a time.
fn sink(alloc: Global) -> Option<MemSink> {
    MemSink::new(alloc, 10_000, 7, Vec::new(alloc)).ok()
}

/// A source of these bytes, five at a time. The listed calls fail.
fn source(alloc: Global, bytes: &[u8], failing: &[u64]) -> Option<MemSource> {
    let mut pieces = Vec::new(alloc);
    pieces.resize(bytes.len(), 5).ok()?;
    let bytes = Vec::from_slice(alloc, bytes).ok()?;
    Some(MemSource::new(bytes, pieces, Vec::from_slice(alloc, failing).ok()?))
}

/// Whether a request to the members of these bits is written.
fn writes_request<K: Sink>(bits: u16, sink: &mut K) -> bool {
    write_request(Members::of_bits(bits), b"abc", sink).is_ok()
}

/// Whether a request, a failure and an ask are written.
fn writes_three<K: Sink>(params: &Params, sink: &mut K) -> bool {
    writes_request(0b1011, sink)
        && write_failure(&FAILURE, sink).is_ok()
        && write_ask(params, &ask(&MessageId::of(b"abc")), b"abc", sink).is_ok()
}

/// Whether the next frame is that request.
fn reads_request<S: Source>(alloc: Global, source: &mut S) -> bool {
    let request = next_request(alloc, source);
    matches!(&request, Ok((members, message))
        if members.bits() == 0b1011 && message.as_slice() == b"abc".as_slice())
}

/// Whether the next frame is that failure.
fn reads_failure<S: Source>(alloc: Global, params: &Params, source: &mut S) -> bool {
    let failure = next_result(alloc, params, source);
    matches!(&failure, Ok(Outcome::Failure(found)) if *found == FAILURE)
}

/// Whether the next frame is that ask, and the last.
fn reads_last_ask<S: Source>(params: &Params, source: &mut S) -> bool {
    next_ask(params, source) == Ok(ask(&MessageId::of(b"abc")))
        && next_ask(params, source) == Err(FrameFault::End)
}

/// Whether a reply of round two is written.
fn writes_reply<K: Sink>(params: &Params, sink: &mut K) -> bool {
    write_reply_head(params, &head(params), sink).is_ok() && write_whole(sink, &[9; 2144]).is_ok()
}

/// Whether the next frame is that reply.
fn reads_reply<S: Source>(params: &Params, source: &mut S) -> bool {
    let mut room = [0; 8480];
    next_reply(params, source, &mut room) == Ok((head(params), 2144))
        && room.iter().take(2144).all(|byte| *byte == 9)
}

/// Whether the next frame is the signature.
fn reads_signature<S: Source>(alloc: Global, params: &Params, source: &mut S) -> bool {
    let result = next_result(alloc, params, source);
    matches!(&result, Ok(Outcome::Signature(bytes)) if bytes.as_slice() == SIGNATURE.as_slice())
}

/// Whether a request ends with one read that fails.
fn fails_once<S: Source>(alloc: Global, source: &mut S) -> bool {
    match next_request(alloc, source) {
        Err(FrameFault::ReadFault) => source.faults() == 1,
        _ => false,
    }
}

/// Frames that are written one after the other.
#[derive(Clone, Copy)]
enum Frames {
    Request,
    Three,
    Reply,
    Signature,
}

/// Whether they are written.
fn writes<K: Sink>(params: &Params, frames: Frames, sink: &mut K) -> bool {
    match frames {
        Frames::Request => writes_request(3, sink),
        Frames::Three => writes_three(params, sink),
        Frames::Reply => writes_reply(params, sink),
        Frames::Signature => write_signature(&SIGNATURE, sink).is_ok(),
    }
}

/// Whether they are read, but for a request, one read of which fails.
fn reads<S: Source>(alloc: Global, params: &Params, frames: Frames, source: &mut S) -> bool {
    match frames {
        Frames::Request => fails_once(alloc, source),
        Frames::Three => {
            reads_request(alloc, source)
                && reads_failure(alloc, params, source)
                && reads_last_ask(params, source)
        }
        Frames::Reply => reads_reply(params, source),
        Frames::Signature => reads_signature(alloc, params, source),
    }
}

/// The same for a sink and a source in memory, whose listed calls fail. The tests share it, since what costs a proof is
/// a call over these very types.
fn run(rt: &impl Abort, alloc: Global, frames: Frames, failing: &[u64]) {
    let params = Params::of_codes(5, 3).ok().expect(rt, "a set");
    let mut sink = sink(alloc).expect(rt, "a sink");
    assert!(rt; writes(&params, frames, &mut sink));
    let mut source = source(alloc, sink.written(), failing).expect(rt, "a source");
    assert!(rt; reads(alloc, &params, frames, &mut source));
}

#[test]
fn requests_failures_and_asks_are_read(rt: HostRuntime) {
    run(&rt, rt.alloc(), Frames::Three, &[]);
}

#[test]
fn replies_are_read(rt: HostRuntime) {
    run(&rt, rt.alloc(), Frames::Reply, &[]);
}

#[test]
fn signatures_are_read(rt: HostRuntime) {
    run(&rt, rt.alloc(), Frames::Signature, &[]);
}

#[test]
fn each_read_that_fails_ends_a_request(rt: HostRuntime) {
    // Two reads of the header, one of the members and one of the message.
    for call in 0..4 {
        run(&rt, rt.alloc(), Frames::Request, &[call]);
    }
}

/// A source that notes the most bytes that were asked of it at once.
#[derive(Drop)]
struct Watched {
    source: MemSource,
    most: usize,
}

impl Faults for Watched {
    ghost count = { λ watched. ⟦<MemSource as Faults>⟧.count watched.source };

    ghost steady = { λ _. false };

    fn faults(&self) -> u64 {
        self.source.faults()
    }
}

impl Stream for Watched {
    ghost talk = { λ watched. ⟦<MemSource as Stream>⟧.talk watched.source };

    ghost counts = { λ _. refl };
}

impl Source for Watched {
    fn read(&mut self, out: &mut [u8]) -> Result<usize, Failed> {
        self.most = self.most.max(out.len());
        self.source.read(out)
    }
}

/// The most bytes that are asked for at once in a request whose header promises the longest message, if `sent` bytes of
/// it come.
fn most_asked(alloc: Global, sent: usize) -> Option<usize> {
    let mut bytes = Vec::from_slice(alloc, b"\x54\x4c\x01\x06\x01\x00\x00\x02\x00\x07").ok()?;
    bytes.resize(bytes.len().checked_add(sent)?, 0).ok()?;
    let mut watched = Watched {
        source: MemSource::new(bytes, Vec::new(alloc), Vec::new(alloc)),
        most: 0,
    };
    match next_request(alloc, &mut watched) {
        Err(FrameFault::Cut) => Some(watched.most),
        _ => None,
    }
}

#[test]
fn no_room_is_made_for_what_may_never_come(rt: HostRuntime) {
    assert!(rt; most_asked(rt.alloc(), 0) == Some(4096));
    assert!(rt; most_asked(rt.alloc(), 5_000) == Some(4096));
    assert!(rt; most_asked(rt.alloc(), 100_000) == Some(65_536));
}
