//! Verification of messages that come in pieces, with the state in memory that the caller gives.

ghost use Rattle.std.specs.Prelude.{◌≡◌, ◌++◌, [], List, ℕ};
ghost use Rattle.std.specs.Borrow.{sem};
ghost use Rattle.rikselbe_c.specs.Answers.{IsHssVerified, IsLmsVerified};
ghost use Rattle.rikselbe_c.specs.States.{HssStateAt, LmsStateAt, Taken, hss_room, lms_room};

use crate::hss_stream::HssStream;
use crate::lms_stream::LmsStream;
use crate::{hss_stream, lms_stream};
use std::mem::{align_of, size_of};

/// The size of `rikselbe_state` in the header, in bytes, and its alignment.
const STATE_SIZE: usize = 256;

const STATE_ALIGN: usize = 8;

const _: () = prove!(size_of::<LmsStream>() <= STATE_SIZE);

const _: () = prove!(size_of::<HssStream>() <= STATE_SIZE);

const _: () = prove!(align_of::<HssStream>() <= STATE_ALIGN);

const _: () = prove!(align_of::<LmsStream>() <= STATE_ALIGN);

/// Begins a verification under an LMS key. `state` is room for one state, which the caller provides.
#[unsafe(no_mangle)]
pub unsafe extern "C" fn rikselbe_lms_begin(state: *mut LmsStream, key: &[u8], signature: &[u8])
    requires* { sem 𝓛 (lms_room state) }
    ensures* { sem 𝓛 (LmsStateAt state key.now signature.now []) }
{
    state.write(lms_stream::begun(key, signature));
}

/// Takes the next piece of the message.
#[unsafe(no_mangle)]
pub unsafe extern "C" fn rikselbe_lms_update(state: *mut LmsStream, piece: &[u8])
    ghost had: { Taken }
    requires* { sem 𝓛 (LmsStateAt state had.key had.signature had.message) }
    ensures* { sem 𝓛 (LmsStateAt state had.key had.signature (had.message ++ piece.now)) }
{
    state.write(lms_stream::updated(state.read(), piece));
}

/// Ends a verification, and answers as `rikselbe_lms_verify` does for the key, the message and the signature. The
/// signature is the one with which it was begun. The state is then room again.
#[unsafe(no_mangle)]
pub unsafe extern "C" fn rikselbe_lms_finish(
    state: *mut LmsStream,
    signature: &[u8],
    leaf: &mut u32,
) -> u32
    ghost had: { Taken }
    requires* { sem 𝓛 (LmsStateAt state had.key signature.now had.message) }
    ensures* room { sem 𝓛 (lms_room state) }
    ensures verified { IsLmsVerified had.key had.message signature.now leaf.old result leaf.new }
{
    lms_stream::finished(state.read(), signature, leaf)
}

/// Begins a verification under an HSS key. All levels above the last are verified here. `state` is room for one state,
/// which the caller provides.
#[unsafe(no_mangle)]
pub unsafe extern "C" fn rikselbe_hss_begin(state: *mut HssStream, key: &[u8], signature: &[u8])
    requires* { sem 𝓛 (hss_room state) }
    ensures* { sem 𝓛 (HssStateAt state key.now signature.now []) }
{
    state.write(hss_stream::begun(key, signature));
}

/// Takes the next piece of the message.
#[unsafe(no_mangle)]
pub unsafe extern "C" fn rikselbe_hss_update(state: *mut HssStream, piece: &[u8])
    ghost had: { Taken }
    requires* { sem 𝓛 (HssStateAt state had.key had.signature had.message) }
    ensures* { sem 𝓛 (HssStateAt state had.key had.signature (had.message ++ piece.now)) }
{
    state.write(hss_stream::updated(state.read(), piece));
}

/// Ends a verification, and answers as `rikselbe_hss_verify` does for the key, the message and the signature. The
/// signature is the one with which it was begun. The state is then room again.
#[unsafe(no_mangle)]
pub unsafe extern "C" fn rikselbe_hss_finish(state: *mut HssStream, signature: &[u8]) -> u32
    ghost had: { Taken }
    requires* { sem 𝓛 (HssStateAt state had.key signature.now had.message) }
    ensures* room { sem 𝓛 (hss_room state) }
    ensures verified { IsHssVerified had.key had.message signature.now result }
{
    hss_stream::finished(state.read(), signature)
}
