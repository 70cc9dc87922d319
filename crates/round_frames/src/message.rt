//! Messages that are hashed piece by piece.

ghost use Rattle.std.specs.Prelude.{◌≡◌, ◌+◌, ◌<◌, ◌^◌, ◌++◌, ◌⊎◌, ℕ, List, [], length, take, IsTrue, IfErr, OnOk};
ghost use Rattle.lms_bytes.specs.IdHash.{taken_length};
ghost use Rattle.lms_bytes.specs.declared.params.Params.{Params};
ghost use Rattle.ots_chain.specs.MessageHash.{HasTaken};
ghost use Rattle.round_frames.specs.Reads.{Hashed, OnlyTakes, Passed};
ghost use Rattle.round_frames.specs.declared.fault.FrameFault.TheVariants.{Cut, ReadFault};

use crate::fault::FrameFault;
use crate::fill::fill;
use disk_trait::Faults;
use lms_bytes::IdHash;
use ots_chain::MessageHash;
use stream_io::{Source, Stream};

/// Both hashes of a message in the making.
#[derive(Drop)]
pub(crate) struct Hashes {
    pub(crate) id: IdHash,
    pub(crate) digest: MessageHash,
}

/// How many bytes of a message are held at once.
const ROOM: u32 = 4096;

/// Takes a message of this length from the source, piece by piece.
pub(crate) fn take_message<S: Source>(
    source: &mut S,
    hashes: &mut Hashes,
    size: u32,
) -> Result<(), FrameFault>
    requires { taken_length hashes.old.id ≡ 0 }
    ensures hashed { IsTrue (S.talk source.old).told → OnOk result (Hashed hashes.old.id hashes.old.digest
        hashes.new.id hashes.new.digest [] (take size (S.talk source.old).left)) }
    ensures some { OnOk result ((params : Params) (key : List ℕ) (q : ℕ) (c : List ℕ)
        → HasTaken hashes.old.digest params key q c []
        → (xs : List ℕ) × HasTaken hashes.new.digest params key q c xs) }
    ensures passed { IsTrue (S.talk source.old).told → Passed (S.talk source.old) (S.talk source.new) result size }
    ensures faults { IfErr result (λ fault. (fault ≡ Cut) ⊎ (fault ≡ ReadFault)) }
    ensures takes { OnlyTakes (S.steady source.old) (S.steady source.new)
        (S.talk source.old) (S.talk source.new) result }
{
    let mut piece = [0; ROOM as usize];
    let mut at = 0;
    'pieces: while at < size {
        let count = ROOM.min(size - at);
        take_piece(source, hashes, &mut piece[..count as usize])?;
        at += count;
    }
    Ok(())
}

/// Takes a piece that fills the room.
fn take_piece<S: Source>(
    source: &mut S,
    hashes: &mut Hashes,
    room: &mut [u8],
) -> Result<(), FrameFault>
    requires { taken_length hashes.old.id + length room.old < 2 ^ 32 }
    ensures length { OnOk result (taken_length hashes.new.id ≡ taken_length hashes.old.id + length room.old) }
    ensures hashed { IsTrue (S.talk source.old).told → OnOk result ((xs : List ℕ)
        → Hashed hashes.old.id hashes.old.digest hashes.new.id hashes.new.digest xs
        (xs ++ take (length room.old) (S.talk source.old).left)) }
    ensures some { OnOk result ((params : Params) (key : List ℕ) (q : ℕ) (c xs : List ℕ)
        → HasTaken hashes.old.digest params key q c xs → (ys : List ℕ) × HasTaken hashes.new.digest params key q c ys) }
    ensures passed { IsTrue (S.talk source.old).told
        → Passed (S.talk source.old) (S.talk source.new) result (length room.old) }
    ensures faults { IfErr result (λ fault. (fault ≡ Cut) ⊎ (fault ≡ ReadFault)) }
    ensures takes { OnlyTakes (S.steady source.old) (S.steady source.new)
        (S.talk source.old) (S.talk source.new) result }
{
    fill(source, room)?;
    hashes.id.update(room);
    hashes.digest.update(room);
    Ok(())
}
