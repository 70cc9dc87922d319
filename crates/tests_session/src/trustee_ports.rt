//! Tests of what no clause says: that ports are served and come back in their order, and what answer a peer gets. The
//! ask and the reply are from a session that another implementation ran.

ghost use Rattle.std.specs.Prelude.{◌≡◌, IfSome};
ghost use Rattle.trustee_core.specs.Trustee.{share_of};

use crate::ports::{have_written, two_ports};
use disk_trait::MemDisk;
use memory::NoMemory;
use opening_journal::Journal;
use share_files::{Share, read_share};
use slot_file::prepare;
use std::alloc::Global;
use std::process::Abort;
use tool_base::header_of;
use tool_trustee::{Clocks, MemClocks};
use trustee_core::{KeyKeeper, Trustee};
use trustee_node::{Totals, serve_ports};
use turn_lock::TurnsOnly;

/// The share of trustee 1 in a dealing of the typecodes 5 and 3 to coalitions of 3 of 5 trustees.
const SHARE: [u8; 64] = [
    0x54, 0x4c, 0x53, 0x48, 1, 1, 3, 5, 0, 0, 0, 5, 0, 0, 0, 3, 0, 1, 2, 3, 4, 5, 6, 7, 8, 9, 10,
    11, 12, 13, 14, 15, 80, 81, 82, 83, 84, 85, 86, 87, 88, 89, 90, 91, 92, 93, 94, 95, 96, 97, 98,
    99, 100, 101, 102, 103, 104, 105, 106, 107, 108, 109, 110, 111,
];

/// An ask of round one for leaf 0.
const ASK: [u8; 64] = [
    0x54, 0x4c, 1, 1, 0, 0, 0, 0x38, 0, 1, 2, 3, 4, 5, 6, 7, 8, 9, 0x0a, 0x0b, 0x0c, 0x0d, 0x0e,
    0x0f, 0, 0, 0, 0, 0, 0, 1, 0x4d, 0x1e, 0xe9, 0xab, 0xc0, 0x8e, 0xe9, 0x52, 0x56, 0x2a, 0x8a,
    0xac, 0xa5, 0xf4, 0x79, 0xda, 0x84, 0xf4, 0x74, 0x6d, 0x86, 0x85, 0xeb, 0x2f, 0x1d, 0xbb, 0xb6,
    0x7c, 0xae, 0x51, 0x7a, 0xff, 0x2b,
];

/// The reply to it, if the leaf is free.
const REPLY: [u8; 97] = [
    0x54, 0x4c, 1, 3, 0, 0, 0, 0x59, 0, 1, 2, 3, 4, 5, 6, 7, 8, 9, 0x0a, 0x0b, 0x0c, 0x0d, 0x0e,
    0x0f, 0, 0, 0, 0, 1, 0, 0, 1, 0x4d, 0x1e, 0xe9, 0xab, 0xc0, 0x8e, 0xe9, 0x52, 0x56, 0x2a, 0x8a,
    0xac, 0xa5, 0xf4, 0x79, 0xda, 0x84, 0xf4, 0x74, 0x6d, 0x86, 0x85, 0xeb, 0x2f, 0x1d, 0xbb, 0xb6,
    0x7c, 0xae, 0x51, 0x7a, 0xff, 0x2b, 0xb9, 0x28, 1, 0x12, 0x95, 0xa4, 0x7e, 0x37, 0x27, 0x57,
    0xb8, 0x1b, 0xf7, 0xd6, 0xa2, 0x1b, 0xa3, 0x50, 0xbf, 0x70, 0x74, 0x23, 0xc5, 0xb4, 0xcc, 0x18,
    0x6f, 0xd5, 0x6e, 0x9e, 0x6b, 0xdd,
];

/// The bytes of a journal of 32 leaves.
const JOURNAL: usize = 5248;

/// The share.
fn share(rt: &impl Abort) -> Share {
    read_share(&SHARE).expect(rt, "share")
}

/// A trustee of the share, whose journal is empty.
fn trustee(alloc: Global, share: &Share) -> Option<Trustee<MemDisk>>
    ensures { IfSome result (λ trustee. share_of trustee ≡ share.now) }
{
    let mut disk = MemDisk::new(alloc, JOURNAL, usize::MAX).ok()?;
    let header = header_of(share, 2);
    prepare(&mut disk, &header, 32).ok()?;
    let journal = Journal::load(alloc, disk, &header, &share.params).ok()?;
    Some(Trustee::new(*share, journal))
}

#[test]
fn an_ask_at_a_port_is_answered(rt: HostRuntime) -> Result<(), NoMemory> {
    let alloc = rt.alloc();
    let share = share(&rt);
    let trustee = trustee(alloc, &share).expect(&rt, "trustee");
    let mut ports = two_ports(alloc, &[&ASK, &[]])?;
    let clocks = MemClocks::new(0).clocks(alloc, 2)?;
    let turns = TurnsOnly::of(&rt);
    let keeper = KeyKeeper::of(&share);
    let (_, served) = serve_ports(&turns, alloc, trustee, &keeper, None, &mut ports, clocks, 5);
    let totals = Totals {
        connections: 2,
        frames: 1,
    };
    assert!(rt; served == Ok(totals));
    assert!(rt; have_written(&ports, &REPLY));
    Ok(())
}
