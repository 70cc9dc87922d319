//! Tests of links, ports and nets over the machine's own sockets.

use crate::scripts::none_wrong;
use crate::scripts::port_calls::{Met, meet_all};
use std::net::TcpListener;
use std::test::Fail;
use stream_host::TcpNet;

/// A place of this machine at which nobody listens, until the next program takes it.
fn free_place(rt: &HostRuntime) -> Result<String, Fail> {
    let socket = TcpListener::bind(rt, "127.0.0.1:0")?;
    let port = socket.local_addr()?.port();
    Ok(format!(in rt.alloc(); "127.0.0.1:{port}")?)
}

/// What is done at a place at which nobody listens beforehand. A port has no link to accept if it listens at no place.
static MET: [Met; 4] = [
    // Nobody is reached if nobody listens.
    (
        (
            "",
            1,
            "ok",
            "end accept 0; failed dial 0; failed dial 0 no place; ok faults 0 2 0",
        ),
        1,
        0,
    ),
    (("no place", 1, "failed", "made 0"), 2, 1),
    // Two ports of a place accept a link each, over which bytes go in both directions, until one end is hung up.
    (
        (
            "@",
            2,
            "ok",
            "link dial 0; link accept 0; link dial 1; link accept 1; \
                     ok send 0 abcd; ok exact 1 abcd; ok send 3 wxyz; ok exact 2 wxyz; \
                     ok send 1 efgh; ok exact 0 efgh; ok hang 0 0; ok read 0; \
                     ok hang 0 0; ok hang 1 1; ok hang 1 0; ok faults 0 0 0; ok faults 1 0 0",
        ),
        2,
        1,
    ),
    // One of two links breaks, since a socket that is closed with bytes that nobody has read resets its connection.
    // That link alone fails.
    (
        (
            "@",
            1,
            "ok",
            "link dial 0; link accept 0; link dial 0; link accept 0; \
                     ok send 0 abcd; ok hang 0 1; failed read 0; ok count 0 1; \
                     ok send 1 wxyz; ok exact 2 wxyz; ok faults 0 0 0; \
                     ok hang 0 1; ok hang 0 1; ok faults 0 0 0; ok hang 0 0; ok faults 0 1 0",
        ),
        3,
        1,
    ),
];

/// Nets, ports and links over the machine's sockets.
#[test]
fn links_and_ports_are_the_machine_s(rt: HostRuntime) -> Result<(), Fail> {
    let place = free_place(&rt)?;
    let wrong = meet_all(&mut TcpNet::new(rt), rt.alloc(), place.as_str(), &MET);
    none_wrong(&rt, wrong, "a net");
    Ok(())
}
