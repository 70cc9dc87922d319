//! Verification of HSS signatures.

ghost use Rattle.std.specs.Prelude.{◌≡◌, ◌+◌, ◌<◌, ℕ, List};
ghost use Rattle.hss_levels.specs.HssAccepts.{HssAccepts};
ghost use Rattle.hss_levels.specs.HssKey.{hss_key_bytes};
ghost use Rattle.hss_levels.specs.Levels.{SignedKey, levels_of};
ghost use Rattle.hss_levels.specs.Parts.{ArePartsOf, IsHssFault};
ghost use Rattle.hss_levels.specs.Verdict.{IsHssVerdict, IsLevelsVerdict};
ghost use Rattle.hss_levels.specs.declared.faults.HssFault.{HssFault};

use crate::faults::HssFault;
use crate::hss_key::HssKey;
use crate::parts::{find_fault, read_signed_key};
use lms_bytes::bytes::u32_at;
use lms_bytes::{PublicKey, Val};
use lms_verify::{Verdict, verify};
use std::fmt::{self, Display, Formatter, Write};

/// What verification says about a message and an HSS signature. The top level is level 0.
#[derive(Clone, Copy, Debug, PartialEq, Eq)]
pub enum HssVerdict {
    /// The signature is accepted, by all levels of the key.
    Accepted { levels: u8 },
    /// The bytes are no signature under the key.
    Malformed(HssFault),
    /// The signature of this level, and of none above it, leads to another root than its key's.
    OtherRoot { level: u8, got: Val, want: Val },
}

impl Display for HssVerdict {
    fn fmt<W: Write>(&self, f: &mut Formatter<W>) -> fmt::Result {
        match self {
            HssVerdict::Accepted { levels } => write!(f, "accepted: {levels} levels signed"),
            HssVerdict::Malformed(fault) => write!(f, "no signature under the key: {fault}"),
            HssVerdict::OtherRoot { level, .. } => write!(
                f,
                "the signature of level {level} leads to another root than its key's"
            ),
        }
    }
}

/// Verifies an HSS signature that takes up all of `sig` (RFC 8554 section 6.3). All parts are read before a level is
/// verified, and each level costs what its LMS signature costs. It takes no memory.
pub fn hss_verify(key: &HssKey, message: &[u8], sig: &[u8]) -> HssVerdict
    ensures verdict { IsHssVerdict key.now message.now sig.now result }
    ensures accepted { HssAccepts (hss_key_bytes key.now) message.now sig.now
        → result ≡ HssVerdict.Accepted key.now.levels }
    ensures malformed { (fault : HssFault) → IsHssFault key.now sig.now fault → result ≡ HssVerdict.Malformed fault }
{
    if sig.len() < 4 {
        return HssVerdict::Malformed(HssFault::Short);
    }
    let signed_keys = key.levels - 1;
    let got = u32_at(sig, 0);
    if got != signed_keys as u32 {
        return HssVerdict::Malformed(HssFault::Levels { got });
    }
    let parts = &sig[4..];
    match find_fault(&key.top, 0, signed_keys, parts) {
        Some(fault) => HssVerdict::Malformed(fault),
        None => verify_levels(&key.top, 0, signed_keys, message, parts),
    }
}

/// Verifies the levels from `level` on: its key is `key`, and `below` levels stand below it.
fn verify_levels(key: &PublicKey, level: u8, below: u8, message: &[u8], parts: &[u8]) -> HssVerdict
    requires { level + below < 8 }
    ensures { (keys : List SignedKey) (last : List ℕ) → ArePartsOf key.now below parts.now keys last
        → IsLevelsVerdict level (levels_of key.now keys message.now last) result }
{
    if below == 0 {
        return match verify(key, message, parts) {
            Verdict::Accepted { .. } => HssVerdict::Accepted { levels: level + 1 },
            Verdict::Malformed(fault) => HssVerdict::Malformed(HssFault::Sig { level, fault }),
            Verdict::OtherRoot { got, want } => HssVerdict::OtherRoot { level, got, want },
        };
    }
    let signed = match read_signed_key(key, level, parts) {
        Ok(signed) => signed,
        Err(fault) => return HssVerdict::Malformed(fault),
    };
    match verify(key, signed.message, signed.signature) {
        Verdict::Accepted { .. } => {
            verify_levels(&signed.key, level + 1, below - 1, message, signed.behind)
        }
        Verdict::Malformed(fault) => HssVerdict::Malformed(HssFault::Sig { level, fault }),
        Verdict::OtherRoot { got, want } => HssVerdict::OtherRoot { level, got, want },
    }
}
