//! Tests of links and ports over sockets that are made up: what the system is asked, in which order, and what comes of
//! a call of it that fails.

use crate::network::fake_sockets::{ACCEPT, FakeNet, PAUSE, READ, SAY, Step, WRITE, Wire};
use crate::scripts::none_wrong;
use crate::scripts::port_calls::meet;
use std::alloc::{AllocError, Global};
use std::sync::Arc;
use stream_host::TcpNet;

/// Numbers of errors, as Linux has them in its headers.
const EINTR: i32 = 4;

const ECONNABORTED: i32 = 103;

const ECONNRESET: i32 = 104;

const EMFILE: i32 = 24;

/// The place of a port or none, what the system is asked, and what the port and its links are asked.
type Row = (&'static str, &'static [Step], &'static str);

static ROWS: [Row; 14] = [
    // Many small reads are one call. For a large room nothing is copied, and for none nothing is asked.
    (
        "",
        &[
            (READ, Ok(4096)),
            (READ, Ok(5000)),
            (READ, Ok(952)),
            (READ, Ok(0)),
        ],
        "link dial 0; ok take 0 8 8 0; ok take 0 92 92 8; ok take 0 5000 3996 100; \
         ok take 0 5000 5000 4096; ok take 0 0 0 0; ok take 0 1000 952 9096; ok take 0 1000 0 0; \
         ok count 0 0; ok hang 0 0; ok faults 0 0 0",
    ),
    // A read goes on after a signal, and after a fault.
    (
        "",
        &[
            (READ, Err(EINTR)),
            (READ, Ok(1)),
            (READ, Err(ECONNRESET)),
            (READ, Ok(0)),
        ],
        "link dial 0; ok take 0 2 1 0; failed take 0 2; ok take 0 2 0 0; ok count 0 1; \
         ok hang 0 0; ok faults 0 1 0",
    ),
    // If nothing is left to read, a write is a call. It goes on after a signal, and one that takes nothing fails.
    (
        "",
        &[
            (WRITE, Err(EINTR)),
            (WRITE, Ok(1)),
            (WRITE, Ok(2)),
            (WRITE, Err(ECONNRESET)),
            (WRITE, Ok(0)),
        ],
        "link dial 0; ok give 0 3 1 0; ok give 0 2 2 1; failed give 0 1 0 3; failed give 0 1 0 3; \
         ok give 0 0 0 3; ok count 0 2; ok hang 0 0; ok faults 0 1 0",
    ),
    // What is written while there is more to read goes out together, before the next byte that is not held,
    (
        "",
        &[(READ, Ok(4096)), (WRITE, Ok(4000)), (WRITE, Ok(10))],
        "link dial 0; ok take 0 100 100 0; ok give 0 2000 2000 0; ok give 0 2000 2000 2000; \
         ok take 0 3996 3996 100; ok give 0 10 10 4000; ok count 0 0; ok hang 0 0; ok faults 0 0 0",
    ),
    // before the link waits for more,
    (
        "",
        &[(READ, Ok(200)), (WRITE, Ok(2000)), (READ, Ok(4096))],
        "link dial 0; ok take 0 100 100 0; ok give 0 2000 2000 0; ok take 0 100 100 100; \
         ok take 0 100 100 200; ok count 0 0; ok hang 0 0; ok faults 0 0 0",
    ),
    // if there is no room for the next piece, and when the link is hung up;
    (
        "",
        &[(READ, Ok(2)), (WRITE, Ok(3000)), (WRITE, Ok(3000))],
        "link dial 0; ok take 0 1 1 0; ok give 0 3000 3000 0; ok give 0 3000 3000 3000; \
         ok count 0 0; ok hang 0 0; ok faults 0 0 0",
    ),
    // a piece that is larger than the whole room is not held.
    (
        "",
        &[(READ, Ok(2)), (WRITE, Ok(10)), (WRITE, Ok(7))],
        "link dial 0; ok take 0 1 1 0; ok give 0 10 10 0; ok give 0 4097 7 10; ok count 0 0; \
         ok hang 0 0; ok faults 0 0 0",
    ),
    // What is held goes out whole, even if the system takes it in parts.
    (
        "",
        &[
            (READ, Ok(2)),
            (WRITE, Ok(3)),
            (WRITE, Err(EINTR)),
            (WRITE, Ok(7)),
        ],
        "link dial 0; ok take 0 1 1 0; ok give 0 10 10 0; ok count 0 0; ok hang 0 0; ok faults 0 0 0",
    ),
    // If it cannot go out, the read or the write that needed it fails. It stays held, and the next one tries again.
    (
        "",
        &[
            (READ, Ok(2)),
            (WRITE, Err(ECONNRESET)),
            (WRITE, Ok(10)),
            (READ, Ok(1)),
        ],
        "link dial 0; ok take 0 1 1 0; ok give 0 10 10 0; ok take 0 1 1 1; failed take 0 1; \
         ok take 0 1 1 2; ok count 0 1; ok hang 0 0; ok faults 0 1 0",
    ),
    (
        "",
        &[(READ, Ok(2)), (WRITE, Ok(0)), (WRITE, Ok(3000))],
        "link dial 0; ok take 0 1 1 0; ok give 0 3000 3000 0; failed give 0 3000 0 3000; \
         ok count 0 1; ok hang 0 0; ok faults 0 1 0",
    ),
    // Bytes that are lost when a link is hung up are a fault of its port.
    (
        "",
        &[(READ, Ok(2)), (WRITE, Err(ECONNRESET))],
        "link dial 0; ok take 0 1 1 0; ok give 0 10 10 0; ok count 0 0; ok hang 0 0; ok faults 0 1 0",
    ),
    // Each error that is of one connection is passed over at once: EPERM, EINTR, ENONET, EPROTO, ENOPROTOOPT,
    // EOPNOTSUPP, ENETDOWN, ENETUNREACH, ECONNABORTED, ETIMEDOUT, EHOSTDOWN and EHOSTUNREACH.
    (
        "@",
        &[
            (ACCEPT, Err(1)),
            (ACCEPT, Err(4)),
            (ACCEPT, Err(64)),
            (ACCEPT, Err(71)),
            (ACCEPT, Err(92)),
            (ACCEPT, Err(95)),
            (ACCEPT, Err(100)),
            (ACCEPT, Err(101)),
            (ACCEPT, Err(103)),
            (ACCEPT, Err(110)),
            (ACCEPT, Err(112)),
            (ACCEPT, Err(113)),
            (ACCEPT, Ok(0)),
        ],
        "link accept 0; ok hang 0 0; ok faults 0 0 0",
    ),
    // After each shortage (ENOMEM, ENFILE, EMFILE and ENOBUFS) there is a pause; before the first of them it is said
    // that the worker waits: once for each link.
    (
        "@",
        &[
            (ACCEPT, Err(12)),
            (SAY, Ok(0)),
            (PAUSE, Ok(100)),
            (ACCEPT, Err(23)),
            (PAUSE, Ok(100)),
            (ACCEPT, Err(ECONNABORTED)),
            (ACCEPT, Err(24)),
            (PAUSE, Ok(100)),
            (ACCEPT, Err(105)),
            (PAUSE, Ok(100)),
            (ACCEPT, Ok(0)),
            (ACCEPT, Ok(0)),
            (ACCEPT, Err(ECONNABORTED)),
            (ACCEPT, Err(EMFILE)),
            (SAY, Ok(0)),
            (PAUSE, Ok(100)),
            (ACCEPT, Ok(0)),
        ],
        "link accept 0; link accept 0; link accept 0; ok hang 0 0; ok hang 0 0; ok hang 0 0; ok faults 0 0 0",
    ),
    // Any other error is a fault of accepting, and that is said: EBADF, EAGAIN, EINVAL, ENOSYS, ENOTSOCK.
    (
        "@",
        &[
            (ACCEPT, Err(9)),
            (SAY, Ok(0)),
            (ACCEPT, Err(11)),
            (SAY, Ok(0)),
            (ACCEPT, Err(ECONNABORTED)),
            (ACCEPT, Err(22)),
            (SAY, Ok(0)),
            (ACCEPT, Err(EMFILE)),
            (SAY, Ok(0)),
            (PAUSE, Ok(100)),
            (ACCEPT, Err(38)),
            (SAY, Ok(0)),
            (ACCEPT, Err(88)),
            (SAY, Ok(0)),
        ],
        "failed accept 0; failed accept 0; failed accept 0; failed accept 0; failed accept 0; ok faults 0 5 5",
    ),
];

/// Makes the one port of a net over a wire do what a script says, and returns what went wrong, or nothing.
fn wrong_over(
    wire: &Arc<Wire>,
    alloc: Global,
    place: &'static str,
    script: &'static str,
) -> &'static str {
    let mut net = TcpNet::new(FakeNet(wire));
    meet(&mut net, alloc, "127.0.0.1:1", &(place, 1, "ok", script))
}

/// Does what a script says over a wire on which these calls are to be made, and returns what went wrong, or nothing.
fn wrong_of(
    alloc: Global,
    place: &'static str,
    steps: &[Step],
    script: &'static str,
) -> Result<&'static str, AllocError> {
    let wire = Wire::new(alloc, steps)?;
    let wrong = wrong_over(&wire, alloc, place, script);
    Ok(wire.wrong(wrong))
}

/// What links and ports ask of sockets that are made up.
#[test]
fn a_link_makes_few_calls_of_the_system(rt: HostRuntime) {
    for (place, steps, script) in &ROWS {
        let wrong = wrong_of(rt.alloc(), place, steps, script).unwrap_or("no memory");
        none_wrong(&rt, wrong, script);
    }
}

/// Adds steps to others, this many times.
fn repeat(steps: &mut Vec<Step>, count: u32, more: &[Step]) -> Result<(), AllocError> {
    for _ in 0..count {
        for step in more {
            steps.push(*step)?;
        }
    }
    Ok(())
}

/// What the system is asked for a link that comes with the last call of as many as are made for one, and for one that
/// would come with the next call. Each call is followed by these steps, the first one of each link by these others.
fn steps_at_the_limit(
    alloc: Global,
    first: &[Step],
    others: &[Step],
) -> Result<Vec<Step>, AllocError> {
    let mut steps = Vec::new(alloc);
    repeat(&mut steps, 1, first)?;
    repeat(&mut steps, 65_534, others)?;
    steps.push((ACCEPT, Ok(0)))?;
    repeat(&mut steps, 1, first)?;
    repeat(&mut steps, 65_535, others)?;
    steps.push((SAY, Ok(0)))?;
    Ok(steps)
}

/// The calls of the first error of a link, and of each other one.
type Lasting = (&'static [Step], &'static [Step]);

static LASTING: [Lasting; 2] = [
    (
        &[(ACCEPT, Err(ECONNABORTED))],
        &[(ACCEPT, Err(ECONNABORTED))],
    ),
    (
        &[(ACCEPT, Err(EMFILE)), (SAY, Ok(0)), (PAUSE, Ok(100))],
        &[(ACCEPT, Err(EMFILE)), (PAUSE, Ok(100))],
    ),
];

/// 65,536 calls are made for a link, and not one more.
#[test]
fn a_port_gives_up(rt: HostRuntime) -> Result<(), AllocError> {
    for (first, others) in &LASTING {
        let steps = steps_at_the_limit(rt.alloc(), first, others)?;
        let script = "link accept 0; failed accept 0; ok hang 0 0; ok faults 0 1 1";
        none_wrong(&rt, wrong_of(rt.alloc(), "@", &steps, script)?, script);
    }
    Ok(())
}
