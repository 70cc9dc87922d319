//! The joining of masks.

ghost use Rattle.std.specs.Prelude.{◌≡◌, length};
ghost use Rattle.lms_bytes.specs.Bytes.{xor};
ghost use Rattle.lms_bytes.specs.HashLength.{IsHashLength};
ghost use Rattle.reference_value.specs.Dealing.{masked, sum_of_masks};
ghost use Rattle.session_core.specs.Verdicts.{HaveLength, bodies_of};

use crate::seat::Seat;
use lms_bytes::Val;

/// The sum of bodies of `n` bytes.
pub(crate) fn sum_of_values(seats: &[Seat], n: u8) -> Val
    requires hash_length { IsHashLength n }
    requires bodies { HaveLength n seats.now }
    ensures sum { result ≡ sum_of_masks n (bodies_of seats.now) }
    ensures length { length result ≡ n }
{
    let mut sum = [0; 32];
    let out = &mut sum[..n as usize];
    add_bodies(seats, out);
    Val::of(out)
}

/// Adds the bodies of seats to a string of their length.
pub(crate) fn add_bodies(seats: &[Seat], out: &mut [u8])
    requires { HaveLength (length out.old) seats.now }
    ensures { out.new ≡ masked out.old (bodies_of seats.now) }
{
    'seats: for i in 0..seats.len() {
        add_body(seats[i].body(), out);
    }
}

/// Adds a body to a string of its length.
fn add_body(body: &[u8], out: &mut [u8])
    requires { length body.now ≡ length out.old }
    ensures { out.new ≡ xor out.old body.now }
{
    'bytes: for i in 0..body.len() {
        out[i] ^= body[i];
    }
}
