//! What follows from the definitions, for proofs about dealings. No function here does anything.

ghost use Rattle.std.specs.Prelude.{◌≡◌, ℕ, Bool, List, ◌<◌, ◌^◌, length};
ghost use Rattle.coalition_map.specs.Coalitions.{PlanNumbers};
ghost use Rattle.lms_bytes.specs.PublicKey.{public_bytes};
ghost use Rattle.lms_bytes.specs.declared.params.Params.{Params};
ghost use Rattle.lms_verify.specs.Accepts.{AcceptsAt};
ghost use Rattle.lms_verify.specs.UndividedKey.{UndividedKey, leaf_key, public_key_of, rfc_signature};
ghost use Rattle.merkle_path.specs.Tree.{tree_of};
ghost use Rattle.reference_value.specs.Dealing.{Dealing};
ghost use Rattle.dealer.specs.Dealt.{IsDealt, IsKeyOf};
ghost use Rattle.dealer.specs.Entropy.{dealing_of};
ghost use Rattle.dealer.specs.Faults.{IsDealable};
ghost use Rattle.dealer.specs.declared.dealing.Dealt.{Dealt};

/// The key that is dealt is the undivided key of the dealing's parameter set, I and SEED: it has its public key and its
/// tree, and what the undivided key signs is accepted under it.
pub fn undivided_key()
    ensures key { (large : Bool) (params : Params) (plan : PlanNumbers) (entropy : List ℕ)
        → IsDealable large params plan entropy → (key : UndividedKey) × IsKeyOf (dealing_of params plan entropy) key }
    ensures public { (d : Dealing) (dealt : Dealt) (key : UndividedKey) → IsKeyOf d key → IsDealt d dealt
        → public_bytes dealt.public ≡ public_bytes (public_key_of key) }
    ensures tree { (d : Dealing) (dealt : Dealt) (key : UndividedKey) → IsKeyOf d key → IsDealt d dealt
        → dealt.tree ≡ tree_of key.params key.id (leaf_key key) }
    ensures accepted { (d : Dealing) (dealt : Dealt) (key : UndividedKey) (q : ℕ) (c message : List ℕ)
        → IsKeyOf d key → IsDealt d dealt → q < 2 ^ key.params.h → length c ≡ key.params.n
        → AcceptsAt dealt.public message (rfc_signature key q c message) q }
{}
