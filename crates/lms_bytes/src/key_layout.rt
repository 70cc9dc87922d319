//! How public keys are read and written.

ghost use Rattle.std.specs.Prelude.{◌≡◌, ◌+◌, ◌≤◌, length, take, drop, None, Some, IfOk, OnOk, IfErr, IsOkAnd};
ghost use Rattle.lms_bytes.specs.PublicKey.{SameKey, public_bytes, public_fault};
ghost use Rattle.lms_bytes.specs.declared.public_key.PublicKey.{PublicKey};

use crate::bytes::{part, put, u32_at};
use crate::faults::KeyFault;
use crate::params::Params;
use crate::public_key::PublicKey;
use crate::val::Val;

/// Reads a public key that takes up all of `bytes`.
#[tactic(auto, unfolding(crate::specs::PublicKey::public_fault))]
pub fn read_public(bytes: &[u8]) -> Result<PublicKey, KeyFault>
    ensures key { IfOk result (λ key. bytes.now ≡ public_bytes key) }
    ensures read { (key : PublicKey) → bytes.now ≡ public_bytes key → IsOkAnd result (SameKey key) }
    ensures faultless { OnOk result (public_fault bytes.now ≡ None) }
    ensures refused { IfErr result (λ fault. public_fault bytes.now ≡ Some fault) }
{
    if bytes.len() < 8 {
        return Err(KeyFault::Short);
    }
    let params = Params::of_codes(u32_at(bytes, 0), u32_at(bytes, 4))?;
    let want = 24 + params.n as usize;
    if bytes.len() != want {
        return Err(KeyFault::Length {
            got: bytes.len(),
            want,
        });
    }
    let mut id = [0; 16];
    id.copy_from_slice(part(bytes, 8, 16));
    Ok(PublicKey {
        params,
        id,
        root: Val::of(part(bytes, 24, params.n as usize)),
    })
}

/// Writes a public key at the front of `out`, and answers its length, `24 + n`.
pub fn write_public(key: &PublicKey, out: &mut [u8]) -> usize
    requires { 24 + key.now.params.n ≤ length out.old }
    ensures length { result ≡ 24 + key.now.params.n }
    ensures bytes { take result out.new ≡ public_bytes key.now }
    ensures rest { drop result out.new ≡ drop result out.old }
{
    put(out, 0, &key.params.lms.to_be_bytes());
    put(out, 4, &key.params.ots.to_be_bytes());
    put(out, 8, &key.id);
    put(out, 24, key.root.bytes());
    24 + key.params.n as usize
}
