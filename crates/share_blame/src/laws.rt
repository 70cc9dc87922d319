//! What follows from the definitions, for proofs about blame. No function here does anything.

ghost use Rattle.std.specs.Prelude.{◌≡◌, ℕ, List, ◌<◌, ◌^◌, Contains, length};
ghost use Rattle.coalition_map.specs.Coalitions.{IsPlan};
ghost use Rattle.sha2.specs.Sha256.{sha256};
ghost use Rattle.lms_verify.specs.UndividedKey.{UndividedKey};
ghost use Rattle.merkle_path.specs.Tree.{TreeNodes};
ghost use Rattle.reference_value.specs.Commitments.{cell_commitment_in, commitments, random_commitment_in};
ghost use Rattle.reference_value.specs.Dealing.{Dealing, chain_mask, members_of, random_mask};
ghost use Rattle.session_core.specs.State.{IsSession, State};
ghost use Rattle.session_core.specs.Verdicts.{digest_of};
ghost use Rattle.share_blame.specs.Blamed.{IsBlamed};
ghost use Rattle.share_blame.specs.Liars.{EndsAstray, GaveOther, IsNamed, IsOver, LiedAlone, NamedAlone};
ghost use Rattle.mask_prf.specs.Lengths.{all_commits_length};

/// The commitments of a dealing are found at their places.
pub fn commitments_at_places()
    ensures all { (d : Dealing) → IsPlan d.plan → length (commitments d) ≡ all_commits_length d.params d.plan }
    ensures randomizer { (d : Dealing) (q t : ℕ) → IsPlan d.plan → q < 2 ^ d.params.h → Contains (members_of d q) t
        → random_commitment_in d.params d.plan (commitments d) q t ≡ sha256 (random_mask d q t) }
    ensures cell { (d : Dealing) (q i j t : ℕ) → IsPlan d.plan → q < 2 ^ d.params.h → i < d.params.p
        → j < 2 ^ d.params.w → Contains (members_of d q) t
        → cell_commitment_in d.params d.plan (commitments d) q i j t ≡ sha256 (chain_mask d q i j t) }
{}

/// If the commitments are the dealer's, each member that is blamed gave masks other than those the dealing gives it;
/// and each member that gave other masks is blamed, unless it found a string with the SHA-256 of a mask that it had to
/// give. So if one member alone gave other masks, it alone is named, and if a signature over the dealer's reference and
/// tree is not accepted, some member is named.
pub fn liar_named()
    ensures accused { (d : Dealing) (s : State) (digest : List ℕ) (t : ℕ) → IsOver d s digest
        → IsBlamed (commitments d) s digest t → GaveOther d s digest t }
    ensures named { (d : Dealing) (s : State) (digest : List ℕ) (t : ℕ) → IsOver d s digest → GaveOther d s digest t
        → IsNamed d s digest t }
    ensures alone { (d : Dealing) (s : State) (digest : List ℕ) (t : ℕ) → IsOver d s digest → LiedAlone d s digest t
        → NamedAlone d s digest t }
    ensures astray { (d : Dealing) (key : UndividedKey) (s : State) (tree : TreeNodes) (message : List ℕ)
        → IsOver d s (digest_of s message) → EndsAstray d key s tree message
        → (t : ℕ) × IsNamed d s (digest_of s message) t }
{}
