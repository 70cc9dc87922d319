//! How HSS keys are read.

ghost use Rattle.std.specs.Prelude.{◌≡◌, None, Some, Ok, OnOk, IfOk, IfErr};
ghost use Rattle.hss_levels.specs.HssKey.{hss_key_bytes, hss_key_fault};
ghost use Rattle.hss_levels.specs.declared.hss_key.HssKey.{HssKey};

use crate::faults::HssKeyFault;
use crate::hss_key::HssKey;
use lms_bytes::bytes::u32_at;
use lms_bytes::read_public;

/// Reads an HSS key that takes up all of `bytes`.
#[tactic(auto, unfolding(crate::specs::HssKey::hss_key_fault))]
pub fn read_hss_key(bytes: &[u8]) -> Result<HssKey, HssKeyFault>
    ensures key { IfOk result (λ key. bytes.now ≡ hss_key_bytes key) }
    ensures read { (key : HssKey) → bytes.now ≡ hss_key_bytes key → result ≡ Ok key }
    ensures faultless { OnOk result (hss_key_fault bytes.now ≡ None) }
    ensures refused { IfErr result (λ fault. hss_key_fault bytes.now ≡ Some fault) }
{
    if bytes.len() < 4 {
        return Err(HssKeyFault::Short);
    }
    let levels = u32_at(bytes, 0);
    if levels < 1 || levels > 8 {
        return Err(HssKeyFault::Levels { got: levels });
    }
    match read_public(&bytes[4..]) {
        Ok(top) => Ok(HssKey {
            levels: levels as u8,
            top,
        }),
        Err(fault) => Err(HssKeyFault::Key(fault)),
    }
}
