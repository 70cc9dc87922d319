//! The numbers that C sees.

ghost use Rattle.std.specs.Prelude.{◌≡◌, ◌+◌, ◌*◌, ◌<◌};
ghost use Rattle.rikselbe_c.specs.Numbers.{at_last_level, hss_fault_number, hss_key_number, hss_number};
ghost use Rattle.rikselbe_c.specs.Numbers.{key_number, leaf_of, lms_key_number, lms_number, signature_number};

use hss_levels::{HssFault, HssKeyFault, HssVerdict};
use lms_bytes::{KeyFault, SigFault};
use lms_verify::Verdict;

/// The signature is accepted.
const ACCEPTED: u32 = 0;

/// The signature leads to another root than its key's.
const OTHER_ROOT: u32 = 1;

/// What is added to the number of a key's fault, and of a signature's.
const KEY: u32 = 0x10;

const SIGNATURE: u32 = 0x20;

/// What HSS keys and signatures have before their LMS keys and signatures.
const HSS_KEY_SHORT: u32 = 0x31;

const HSS_KEY_LEVELS: u32 = 0x32;

const HSS_SIGNATURE_SHORT: u32 = 0x33;

const HSS_SIGNATURE_LEVELS: u32 = 0x34;

/// What is added for each level above the one in question.
const LEVEL: u32 = 0x100;

/// The number of an LMS key's fault.
pub(crate) fn of_lms_key(fault: &KeyFault) -> u32
    ensures { result ≡ lms_key_number fault.now }
{
    of_key(0, fault)
}

/// The number of an LMS signature's fault.
pub(crate) fn of_lms_signature(fault: &SigFault) -> u32
    ensures { result ≡ signature_number 0 fault.now }
{
    of_signature(0, fault)
}

/// The number of a verdict under an LMS key. If it is the number of acceptance, `leaf` is then the leaf that signed.
pub(crate) fn of_lms(verdict: &Verdict, leaf: &mut u32) -> u32
    ensures number { result ≡ lms_number verdict.now }
    ensures leaf { leaf.new ≡ leaf_of verdict.now leaf.old }
{
    match verdict {
        Verdict::Accepted { leaf: signed } => {
            *leaf = *signed;
            ACCEPTED
        }
        Verdict::Malformed(fault) => of_signature(0, fault),
        Verdict::OtherRoot { .. } => OTHER_ROOT,
    }
}

/// The number of an HSS key's fault.
pub(crate) fn of_hss_key(fault: &HssKeyFault) -> u32
    ensures { result ≡ hss_key_number fault.now }
{
    match fault {
        HssKeyFault::Short => HSS_KEY_SHORT,
        HssKeyFault::Levels { .. } => HSS_KEY_LEVELS,
        HssKeyFault::Key(fault) => of_key(0, fault),
    }
}

/// The number of a verdict under an HSS key.
pub(crate) fn of_hss(verdict: &HssVerdict) -> u32
    ensures { result ≡ hss_number verdict.now }
{
    match verdict {
        HssVerdict::Accepted { .. } => ACCEPTED,
        HssVerdict::Malformed(fault) => of_hss_fault(fault),
        HssVerdict::OtherRoot { level, .. } => at_level(*level, OTHER_ROOT),
    }
}

/// The number of a verdict under the key of the last level, which is this one, if all levels above are signed.
pub(crate) fn of_last_level(level: u8, verdict: &Verdict) -> u32
    ensures { result ≡ hss_number (at_last_level level verdict.now) }
{
    match verdict {
        Verdict::Accepted { .. } => ACCEPTED,
        Verdict::Malformed(fault) => of_signature(level, fault),
        Verdict::OtherRoot { .. } => at_level(level, OTHER_ROOT),
    }
}

/// The number of an HSS signature's fault.
fn of_hss_fault(fault: &HssFault) -> u32
    ensures { result ≡ hss_fault_number fault.now }
{
    match fault {
        HssFault::Short => HSS_SIGNATURE_SHORT,
        HssFault::Levels { .. } => HSS_SIGNATURE_LEVELS,
        HssFault::Sig { level, fault } => of_signature(*level, fault),
        HssFault::Pub { level, fault } => of_key(*level, fault),
    }
}

/// The number of a fault of the key of this level.
fn of_key(level: u8, fault: &KeyFault) -> u32
    ensures { result ≡ key_number level fault.now }
{
    at_level(level, KEY + fault.number() as u32)
}

/// The number of a fault of the signature of this level.
pub(crate) fn of_signature(level: u8, fault: &SigFault) -> u32
    ensures { result ≡ signature_number level fault.now }
{
    at_level(level, SIGNATURE + fault.number() as u32)
}

/// A number of level 0, at another level.
fn at_level(level: u8, number: u32) -> u32
    requires { number < 256 }
    ensures { result ≡ 256 * level + number }
{
    LEVEL * level as u32 + number
}
