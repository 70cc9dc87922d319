//! Values that several files of tests need.

use lms_bytes::{KeyId, Params, Val};
use std::alloc::Global;
use std::fmt::Display;
use std::process::Abort;

/// The identifier of a key: the bytes 0 to 15.
pub const ID: KeyId = [0, 1, 2, 3, 4, 5, 6, 7, 8, 9, 10, 11, 12, 13, 14, 15];

/// The parameter set of typecodes that are known.
pub fn set_of(rt: &impl Abort, lms: u32, ots: u32) -> Params {
    Params::of_codes(lms, ots).expect(rt, "typecodes")
}

/// Stops the test, and names the row of its data, unless what was looked at is right.
pub fn holds(rt: &impl Abort, row: u32, right: bool) {
    assert!(rt; right, "row {row}");
}

/// Whether a value is printed as this text.
pub fn reads_as<T: Display>(alloc: Global, value: &T, want: &str) -> bool {
    match value.to_string(alloc) {
        Ok(text) => text.as_str() == want,
        Err(_) => false,
    }
}

/// The first `count` of these bytes, or all if there are no more.
pub fn first(bytes: &[u8], count: usize) -> &[u8] {
    &bytes[..count.min(bytes.len())]
}

/// The first eight bytes of a value.
pub fn front(value: &Val) -> u64 {
    let mut bytes = [0; 8];
    bytes.copy_from_slice(&value.bytes()[..8]);
    u64::from_be_bytes(bytes)
}
