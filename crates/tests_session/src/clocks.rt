//! Tests of what no contract says: what the clocks give.

use std::alloc::Global;
use tool_trustee::{Clocks, MemClocks, SystemClocks};
use trustee_core::Clock;

/// The first two answers of the second of two clocks.
fn second_clock<T: Clocks>(time: &mut T, alloc: Global) -> Option<(u64, u64)> {
    let mut clocks = time.clocks(alloc, 2).ok()?;
    let mut clock = clocks.pop()?;
    Some((clock.now(), clock.now()))
}

/// Whether clocks that begin at a moment tell it, and then this one.
fn tells(alloc: Global, start: u64, then: u64) -> bool {
    second_clock(&mut MemClocks::new(start), alloc) == Some((start, then))
}

/// Whether that is in 2026 or later.
fn is_present(told: Option<(u64, u64)>) -> bool {
    match told {
        Some((first, _)) => 1_767_225_600 <= first,
        None => false,
    }
}

#[test]
fn clocks_tell_the_moment(rt: HostRuntime) {
    assert!(rt; tells(rt.alloc(), 7, 8) && tells(rt.alloc(), u64::MAX, u64::MAX));
    let told = second_clock(&mut SystemClocks::new(rt), rt.alloc());
    assert!(rt; is_present(told));
}
