//! What follows from the definitions, for proofs about signatures. No function here does anything.

ghost use Rattle.std.specs.Prelude.{◌≡◌, ℕ, List, ◌^◌, ◌<◌, length};
ghost use Rattle.lms_verify.specs.Accepts.{AcceptsAt};
ghost use Rattle.lms_verify.specs.UndividedKey.{UndividedKey, public_key_of, rfc_signature};

/// The signature that an undivided key makes with leaf `q` is accepted under its public key, and names that leaf.
pub fn signature_accepted()
    ensures { (key : UndividedKey) (q : ℕ) (c message : List ℕ) → q < 2 ^ key.params.h → length c ≡ key.params.n
        → AcceptsAt (public_key_of key) message (rfc_signature key q c message) q }
{}
