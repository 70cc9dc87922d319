//! RFC 8554's Algorithm 6.

ghost use Rattle.std.specs.Prelude.{◌≡◌, ◌*◌, ◌^◌, ◌<◌, ℕ, List, Some, length};
ghost use Rattle.lms_bytes.specs.Signature.{signature_fault};
ghost use Rattle.lms_bytes.specs.declared.faults.SigFault.{SigFault};
ghost use Rattle.lms_verify.specs.Accepts.{AcceptsAt, IsDigestOf, root_of_digest};
ghost use Rattle.lms_verify.specs.Verdict.{IsVerdict, verdict_by};
ghost use Rattle.ots_chain.specs.MessageHash.{message_digest};

use lms_bytes::{PublicKey, SigFault, SigView, Val, read_signature};
use merkle_path::root_from;
use ots_chain::{MessageHash, leaf_key_from};
use std::fmt::{self, Display, Formatter, Write};

/// What verification says about a message and a signature.
#[derive(Clone, Copy, Debug, PartialEq, Eq)]
pub enum Verdict {
    /// The signature is accepted; this leaf signed.
    Accepted { leaf: u32 },
    /// The bytes are no signature of the key's parameter set.
    Malformed(SigFault),
    /// The signature leads to another root than the key's.
    OtherRoot { got: Val, want: Val },
}

impl Display for Verdict {
    fn fmt<W: Write>(&self, f: &mut Formatter<W>) -> fmt::Result {
        match self {
            Verdict::Accepted { leaf } => write!(f, "accepted: leaf {leaf} signed"),
            Verdict::Malformed(fault) => write!(f, "no signature of the key's set: {fault}"),
            Verdict::OtherRoot { .. } => write!(
                f,
                "the signature leads to another root than the key's"
            ),
        }
    }
}

/// Verifies a signature that takes up all of `sig` (RFC 8554 section 5.4.2, Algorithm 6). It takes no memory.
pub fn verify(key: &PublicKey, message: &[u8], sig: &[u8]) -> Verdict
    ensures verdict { IsVerdict key.now message.now sig.now result }
    ensures accepted { (q : ℕ) → AcceptsAt key.now message.now sig.now q → result ≡ Verdict.Accepted q }
    ensures malformed { (fault : SigFault)
        → signature_fault key.now.params sig.now ≡ Some fault → result ≡ Verdict.Malformed fault }
{
    match read_signature(&key.params, sig) {
        Ok(view) => verdict_of(key, &digest_of(key, message, &view), &view),
        Err(fault) => Verdict::Malformed(fault),
    }
}

/// Verifies a signature that takes up all of `sig` from the digest Q of its message, of `n` bytes: it gives what
/// `verify` says about every message that has this digest under the signature's leaf and randomizer. It takes no
/// memory.
pub fn verify_digest(key: &PublicKey, digest: &Val, sig: &[u8]) -> Verdict
    requires digest { length digest.now ≡ key.now.params.n }
    ensures verdict { (message : List ℕ) → IsDigestOf key.now message sig.now digest.now
        → IsVerdict key.now message sig.now result }
    ensures malformed { (fault : SigFault)
        → signature_fault key.now.params sig.now ≡ Some fault → result ≡ Verdict.Malformed fault }
{
    match read_signature(&key.params, sig) {
        Ok(view) => verdict_of(key, digest, &view),
        Err(fault) => Verdict::Malformed(fault),
    }
}

/// The digest of a message under the leaf and the randomizer of a signature.
fn digest_of(key: &PublicKey, message: &[u8], view: &SigView) -> Val
    requires { length view.now.c.now ≡ key.now.params.n }
    ensures digest { result ≡ message_digest key.now.params key.now.id view.now.leaf view.now.c.now message.now }
    ensures length { length result ≡ key.now.params.n }
{
    MessageHash::of(&key.params, &key.id, view.leaf, &Val::of(view.c), message)
}

/// What the candidate root of a digest and a signature says.
fn verdict_of(key: &PublicKey, digest: &Val, view: &SigView) -> Verdict
    requires digest { length digest.now ≡ key.now.params.n }
    requires leaf { view.now.leaf < 2 ^ key.now.params.h }
    requires chains { length view.now.chains.now ≡ key.now.params.n * key.now.params.p }
    requires path { length view.now.path.now ≡ key.now.params.n * key.now.params.h }
    ensures { result ≡ verdict_by key.now view.now.leaf
        (root_of_digest key.now digest.now view.now.leaf view.now.chains.now view.now.path.now) }
{
    let got = candidate_root_of(key, digest, view);
    if got == key.root {
        Verdict::Accepted { leaf: view.leaf }
    } else {
        Verdict::OtherRoot {
            got,
            want: key.root,
        }
    }
}

/// The candidate root that a digest and a signature lead to (RFC 8554 section 5.4.2, Algorithm 6a, steps 3 and 4).
fn candidate_root_of(key: &PublicKey, digest: &Val, view: &SigView) -> Val
    requires digest { length digest.now ≡ key.now.params.n }
    requires leaf { view.now.leaf < 2 ^ key.now.params.h }
    requires chains { length view.now.chains.now ≡ key.now.params.n * key.now.params.p }
    requires path { length view.now.path.now ≡ key.now.params.n * key.now.params.h }
    ensures { result ≡ root_of_digest key.now digest.now
        view.now.leaf view.now.chains.now view.now.path.now }
{
    let leaf_key = leaf_key_from(&key.params, &key.id, view.leaf, digest, view.chains);
    root_from(&key.params, &key.id, view.leaf, &leaf_key, view.path)
}
