//! Parts of byte strings, read and written.

ghost use Rattle.std.specs.Prelude.{◌≡◌, ◌+◌, ◌≤◌, ◌++◌, length, take, drop};
ghost use Rattle.lms_bytes.specs.Bytes.{bytes_at, u32str, str_to_u32};

use byteorder::{BigEndian, ByteOrder};

/// The `count` bytes from `place` on.
pub fn part(bytes: &[u8], place: usize, count: usize) -> &[u8]
    requires { place + count ≤ length bytes.now }
    ensures bytes { result.now ≡ bytes_at bytes.now place count }
    ensures length { length result.now ≡ count }
{
    &bytes[place..place + count]
}

/// The number in the four bytes from `place` on.
pub fn u32_at(bytes: &[u8], place: usize) -> u32
    requires { place + 4 ≤ length bytes.now }
    ensures number { result ≡ str_to_u32 (bytes_at bytes.now place 4) }
    ensures bytes { u32str result ≡ bytes_at bytes.now place 4 }
{
    BigEndian::read_u32(part(bytes, place, 4))
}

/// Writes `bytes` from `place` on.
pub fn put(out: &mut [u8], place: usize, bytes: &[u8])
    requires { place + length bytes.now ≤ length out.old }
    ensures before { take place out.new ≡ take place out.old }
    ensures bytes { bytes_at out.new place (length bytes.now) ≡ bytes.now }
    ensures front { take (place + length bytes.now) out.new ≡ take place out.old ++ bytes.now }
    ensures after { drop (place + length bytes.now) out.new ≡ drop (place + length bytes.now) out.old }
{
    out[place..place + bytes.len()].copy_from_slice(bytes);
}
