//! What follows from the definitions, for proofs about HSS. No function here does anything.

ghost use Rattle.std.specs.Prelude.{◌++◌, ◌↔◌, ℕ, List};
ghost use Rattle.lms_bytes.specs.Bytes.{u32str};
ghost use Rattle.lms_bytes.specs.PublicKey.{public_bytes};
ghost use Rattle.lms_bytes.specs.declared.public_key.PublicKey.{PublicKey};
ghost use Rattle.hss_levels.specs.HssAccepts.{HssAccepts};
ghost use Rattle.hss_levels.specs.Levels.{Accepts};

/// An HSS key of one level accepts `u32str(0) || signature` exactly if its LMS key accepts the signature.
pub fn one_level()
    ensures { (key : PublicKey) (message signature : List ℕ)
        → HssAccepts (u32str 1 ++ public_bytes key) message (u32str 0 ++ signature) ↔ Accepts key message signature }
{}
