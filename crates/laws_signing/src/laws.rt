//! What follows from the definitions. No function here does anything.

ghost use Rattle.std.specs.Prelude.{◌≡◌, ◌⊎◌, ◌++◌, ◌<◌, ◌≤◌, ◌^◌, ℕ, Contains, List, length};
ghost use Rattle.coalition_map.specs.Coalitions.{leaf_members};
ghost use Rattle.lms_bytes.specs.MessageId.{message_id};
ghost use Rattle.lms_bytes.specs.PublicKey.{public_bytes};
ghost use Rattle.lms_verify.specs.UndividedKey.{UndividedKey, public_key_of, rfc_signature};
ghost use Rattle.reference_value.specs.Dealing.{Dealing, leaf_randomizer};
ghost use Rattle.session_core.specs.State.{started};
ghost use Rattle.share_files.specs.declared.share.Share.{Share};
ghost use Rattle.laws_signing.specs.AllIsWell.{AllIsWell, IsDealing};
ghost use Rattle.laws_signing.specs.LevelsAreWell.{LevelsAreWell};
ghost use Rattle.laws_signing.specs.Answering.{Gave, IsShareOf, grants};
ghost use Rattle.stream_io.specs.Talk.{Talk};
ghost use Rattle.tool_base.specs.Ending as ending;
ghost use Rattle.tool_base.specs.Ending.{Ending};
ghost use Rattle.tool_base.specs.World.{from_to};
ghost use Rattle.tool_sign.specs.HssSign.{AreWritten, HssSigningRun, two_levels};
ghost use Rattle.tool_sign.specs.Lower.{Lower};
ghost use Rattle.tool_sign.specs.Ports.{NetRun};
ghost use Rattle.tool_sign.specs.Sign.{SigningRun};
ghost use Rattle.tool_sign.specs.Tasks.{message_limit};
ghost use Rattle.tool_sign.specs.Writes.{IsWritten};
ghost use Rattle.tool_words.specs.Words.{HssSignWords, SignWords};

use stream_io::Store;

/// If all is well, `sign` ends with status 0 and writes RFC 8554's signature of the undivided key, for the leaf of
/// the coalition and the message, the dealer's randomizer and the message; or it ends for want of memory.
pub fn completeness<S: Store>(before: &S, after: &S)
    ensures { (words : SignWords) (net : NetRun) (end : Ending) (d : Dealing) (key : UndividedKey) (message : List ℕ)
        (leaf : ℕ) → SigningRun words (from_to (S.state before.now) (S.state after.now)) net end
        → AllIsWell words (from_to (S.state before.now) (S.state after.now)) net d key message leaf
        → (end ≡ ending.NoMemory) ⊎ ((end ≡ ending.Signed leaf)
        × IsWritten (from_to (S.state before.now) (S.state after.now)) words.out
        (rfc_signature key leaf (leaf_randomizer d leaf) message)) }
{}

/// If all is well, `hss sign` ends with status 0 and writes the key and the signature of two levels, the upper one
/// being RFC 8554's signature of the undivided key for the lower key's bytes; or it ends for want of memory.
pub fn levels_completeness<S: Store>(before: &S, after: &S)
    ensures { (words : HssSignWords) (net : NetRun) (end : Ending) (d : Dealing) (key : UndividedKey) (lower : Lower)
        (leaf : ℕ) → HssSigningRun words (from_to (S.state before.now) (S.state after.now)) net end
        → LevelsAreWell words (from_to (S.state before.now) (S.state after.now)) net d key lower leaf
        → (end ≡ ending.NoMemory) ⊎ ((end ≡ ending.SignedLevels leaf)
        × AreWritten (from_to (S.state before.now) (S.state after.now)) (two_levels words (public_key_of key)
        (rfc_signature key leaf (leaf_randomizer d leaf) (public_bytes lower.key)) lower)) }
{}

/// A link that first gave the replies of a trustee of the dealing that grants both asks gave what [`completeness`] asks
/// for, whatever came after them.
pub fn granted_links()
    ensures { (d : Dealing) (key : UndividedKey) (message : List ℕ) (leaf : ℕ) (share : Share) (tag more : List ℕ)
        (talk : Talk) → IsDealing d key → IsShareOf d share → length message ≤ message_limit → leaf < 2 ^ d.plan.h
        → Contains (leaf_members d.plan leaf) share.member → talk.count ≡ 0 → talk.taken ++ talk.left
        ≡ grants d (started (public_key_of key) d.plan leaf (message_id message)) message share tag ++ more
        → Gave d (started (public_key_of key) d.plan leaf (message_id message)) message share.member talk }
{}
