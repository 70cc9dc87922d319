//! Trustees: the answers of one of a whole dealing, each refusal by its number, and its masks.

pub(crate) mod shares;

ghost use Rattle.std.specs.Prelude.{◌≡◌, length, IfSome};
ghost use Rattle.std.proofs.Props.{props};
ghost use Rattle.trustee_core.specs.Grants.{ask_of};
ghost use Rattle.trustee_core.specs.Trustee.{share_of};

use crate::disks::LOAD_CALLS;
use disk_trait::MemDisk;
use lms_bytes::{Ask, LIMIT, MessageId, Second, Val};
use mask_prf::{chain_mask, check_tag, random_mask};
use opening_journal::JournalFault;
use share_files::Share;
use shares::{empty_journal, share, trustee_on};
use std::alloc::Global;
use std::process::Abort;
use trustee_core::{Grant, Refusal, Trustee, mask_count, release};

/// An ask, whose randomizer and digest have 32 bytes.
#[derive(Drop)]
struct Question {
    ask: Ask,
    ghost c: { IfSome ask.second (λ second. length second.c ≡ 32) } by { Prim.hlevel props },
    ghost digest: { IfSome ask.second (λ second. length second.digest ≡ 32) } by { Prim.hlevel props },
}

/// A grant, whose digest has 32 bytes.
#[derive(Drop)]
struct Granted {
    grant: Grant,
    ghost digest: { IfSome (ask_of grant).second (λ second. length second.digest ≡ 32) } by { Prim.hlevel props },
}

/// A trustee of 32 leaves.
#[derive(Drop)]
struct Signer {
    trustee: Trustee<MemDisk>,
    ghost n: { (share_of trustee).params.n ≡ 32 },
}

/// An ask of round one for a leaf of the key of this id.
fn first(key: [u8; 16], leaf: u32, message: MessageId) -> Question {
    Question {
        ask: Ask {
            key,
            leaf,
            message,
            second: None,
        },
    }
}

/// An ask of round two with a randomizer of bytes `byte`, and with the check tag of a randomizer of bytes `tagged`.
fn second(share: &Share, leaf: u32, message: MessageId, byte: u8, tagged: u8) -> Question {
    let second = Second {
        c: Val::of(&[byte; 32]),
        tag: check_tag(&share.key, &share.id, leaf, &Val::of(&[tagged; 32])),
        digest: Val::of(&[0xDD; 32]),
    };
    Question {
        ask: Ask {
            key: share.id,
            leaf,
            message,
            second: Some(second),
        },
    }
}

impl Granted {
    /// What is granted to this question.
    fn of(question: &Question, grant: Grant) -> Granted
        requires { ask_of grant ≡ question.now.ask }
    {
        Granted { grant }
    }

    /// How many masks there are.
    fn count(&self, share: &Share) -> u16 {
        mask_count(&share.params, &self.grant)
    }

    /// Mask `i`.
    fn mask(&self, share: &Share, i: u16) -> Option<Val>
        requires { share.now.params.n ≡ 32 }
    {
        if i < mask_count(&share.params, &self.grant) {
            Some(release(share, &self.grant, i))
        } else {
            None
        }
    }
}

impl Signer {
    /// The trustee whose journal a disk holds.
    fn open(rt: &impl Abort, alloc: Global, disk: MemDisk) -> Signer {
        Signer {
            trustee: trustee_on(rt, alloc, disk),
        }
    }

    /// A trustee that has answered nothing yet.
    fn new(rt: &impl Abort, alloc: Global) -> Signer {
        Signer::open(rt, alloc, empty_journal(rt, alloc))
    }

    /// What is granted to an ask.
    fn grant(&mut self, question: &Question) -> Result<Granted, Refusal> {
        match self.trustee.decide(&question.ask, 7) {
            Ok(grant) => Ok(Granted::of(question, grant)),
            Err(why) => Err(why),
        }
    }

    /// Whether an ask is granted.
    fn grants(&mut self, question: &Question) -> bool {
        self.grant(question).is_ok()
    }

    /// Whether an ask is refused for this cause.
    fn refuses(&mut self, question: &Question, why: Refusal) -> bool {
        match self.grant(question) {
            Ok(_) => false,
            Err(got) => got == why,
        }
    }

    /// Gives the disk back.
    fn end(self) -> MemDisk {
        self.trustee.end()
    }
}

/// Whether leaf 0 is bound to `abc`, and to no other message.
fn binds_once(signer: &mut Signer, key: [u8; 16]) -> bool {
    let kept = MessageId::of(b"abc");
    let bound = signer.grants(&first(key, 0, kept));
    let again = signer.grants(&first(key, 0, kept));
    let empty = first(key, 0, MessageId::of(b""));
    bound & again & signer.refuses(&empty, Refusal::Journal(JournalFault::Spent { kept }))
}

/// Whether asks are refused if they are for a leaf that is not the trustee's, for another key, or for too long a
/// message.
fn refuses_others(signer: &mut Signer, key: [u8; 16]) -> bool {
    let abc = MessageId::of(b"abc");
    let got = LIMIT + 1;
    let long = MessageId { length: got, ..abc };
    let other = signer.refuses(&first(key, 9, abc), Refusal::NotMember);
    let none = signer.refuses(&first(key, 32, abc), Refusal::NoSuchLeaf);
    let too_long = signer.refuses(&first(key, 10, long), Refusal::TooLong { got });
    let foreign = signer.refuses(&first([0x1D; 16], 0, abc), Refusal::ForeignKey);
    other & none & too_long & foreign & (got == 16_777_217)
}

/// Whether a trustee that is loaded from what an earlier life left goes on with that life.
fn goes_on(rt: &impl Abort, alloc: Global, disk: MemDisk, key: [u8; 16]) -> bool {
    binds_once(&mut Signer::open(rt, alloc, disk), key)
}

#[test]
fn round_one_is_for_one_message(rt: HostRuntime) {
    let mut signer = Signer::new(&rt, rt.alloc());
    let key = share(&rt).id;
    let once = binds_once(&mut signer, key);
    let others = refuses_others(&mut signer, key);
    assert!(rt; once & others & goes_on(&rt, rt.alloc(), signer.end(), key));
}

/// Whether leaf 10 is opened for one randomizer, once it is bound.
fn opens_once(signer: &mut Signer, share: &Share) -> bool {
    let abc = MessageId::of(b"abc");
    let ask = second(share, 10, abc, 0xCC, 0xCC);
    let unbound = signer.refuses(&ask, Refusal::Journal(JournalFault::NotBound));
    let bound = signer.grants(&first(share.id, 10, abc));
    let opened = signer.grants(&ask);
    unbound & bound & opened & signer.grants(&ask)
}

/// Whether leaf 10 is opened for no other randomizer.
fn opens_no_other(signer: &mut Signer, share: &Share) -> bool {
    let abc = MessageId::of(b"abc");
    let untagged = second(share, 10, abc, 0xCE, 0xCC);
    let other = second(share, 10, abc, 0xCE, 0xCE);
    let (c, digest) = (Val::of(&[0xCC; 32]), Val::of(&[0xDD; 32]));
    let forged = signer.refuses(&untagged, Refusal::BadCheck);
    forged
        & signer.refuses(
            &other,
            Refusal::Journal(JournalFault::OtherDigest { c, digest }),
        )
}

#[test]
fn round_two_is_for_one_randomizer(rt: HostRuntime) {
    let mut signer = Signer::new(&rt, rt.alloc());
    let share = share(&rt);
    let once = opens_once(&mut signer, &share);
    assert!(rt; once & opens_no_other(&mut signer, &share));
}

/// Refusals, and their numbers.
const NUMBERS: [(Refusal, u8); 7] = [
    (Refusal::ForeignKey, 1),
    (Refusal::NoSuchLeaf, 2),
    (Refusal::NotMember, 3),
    (Refusal::TooLong { got: 16_777_217 }, 4),
    (Refusal::BadCheck, 5),
    (Refusal::Journal(JournalFault::Device), 6),
    (Refusal::Journal(JournalFault::NotBound), 8),
];

/// Whether a refusal has this number.
fn has_number(refusal: &Refusal, number: u8) -> bool {
    refusal.code() == number
}

#[test]
fn a_refusal_has_its_number(rt: HostRuntime) {
    for (refusal, number) in &NUMBERS {
        assert!(rt; has_number(refusal, *number));
    }
    let kept = MessageId::of(b"abc");
    let (c, digest) = (Val::of(&[0xCC; 32]), Val::of(&[0xDD; 32]));
    assert!(rt; has_number(&Refusal::Journal(JournalFault::Spent { kept }), 9));
    assert!(rt;
        has_number(
            &Refusal::Journal(JournalFault::OtherDigest { c, digest }),
            10
        )
    );
}

/// Whether a grant of round one for leaf 0 gives the mask of the randomizer.
fn gives_random_mask(signer: &mut Signer, share: &Share) -> bool
    requires { share.now.params.n ≡ 32 }
{
    let want = random_mask(&share.key, &share.params, &share.id, 0);
    match signer.grant(&first(share.id, 0, MessageId::of(b"abc"))) {
        Ok(granted) => granted.count(share) == 1 && granted.mask(share, 0) == Some(want),
        Err(_) => false,
    }
}

/// Whether mask `i` of a grant for leaf 0 is that of chain `i` at a digit.
fn gives_chain_mask(granted: &Granted, share: &Share, i: u16, digit: u8) -> bool
    requires { share.now.params.n ≡ 32 }
{
    let want = chain_mask(&share.key, &share.params, &share.id, 0, i, digit);
    granted.mask(share, i) == Some(want)
}

/// Whether a grant of round two for leaf 0 gives the mask of each chain at its digit.
fn gives_chain_masks(signer: &mut Signer, share: &Share) -> bool
    requires { share.now.params.n ≡ 32 }
{
    let Ok(granted) = signer.grant(&second(share, 0, MessageId::of(b"abc"), 0xCC, 0xCC)) else {
        return false;
    };
    // 64 digits 13 fall short of 15 by 128, which is the checksum 0x0800 once it is shifted.
    for (i, digit) in &[(0, 13), (63, 13), (64, 0), (65, 8), (66, 0)] {
        if !gives_chain_mask(&granted, share, *i, *digit) {
            return false;
        }
    }
    granted.count(share) == 67
}

#[test]
fn a_grant_gives_the_masks_of_its_round(rt: HostRuntime) {
    let mut signer = Signer::new(&rt, rt.alloc());
    let share = share(&rt);
    let random = gives_random_mask(&mut signer, &share);
    let again = gives_random_mask(&mut signer, &share);
    assert!(rt; random & again & gives_chain_masks(&mut signer, &share));
}

/// A trustee that has answered nothing yet, over a disk that fails at a call after the load.
fn failing(rt: &impl Abort, alloc: Global, call: u64) -> Signer {
    let mut disk = empty_journal(rt, alloc);
    disk.fail_once(LOAD_CALLS.saturating_add(call));
    Signer::open(rt, alloc, disk)
}

/// Whether an ask is refused because its leaf is bound to `abc`, or `None` if it is refused for another cause.
fn is_spent(signer: &mut Signer, question: &Question) -> Option<bool> {
    let kept = MessageId::of(b"abc");
    match signer.grant(question) {
        Ok(_) => Some(false),
        Err(why) if why == Refusal::Journal(JournalFault::Spent { kept }) => Some(true),
        Err(_) => None,
    }
}

/// Asks for leaf 0 in round one, which fails, and then for another message. Whether that one is refused.
fn is_spent_after_failing(signer: &mut Signer, key: [u8; 16]) -> Option<bool> {
    let (abc, empty) = (
        first(key, 0, MessageId::of(b"abc")),
        first(key, 0, MessageId::of(b"")),
    );
    let failed = signer.refuses(&abc, Refusal::Journal(JournalFault::Device));
    let spent = is_spent(signer, &empty);
    if failed { spent } else { None }
}

/// Asks for leaf 0 in round one over a disk that fails at a call, and then for another message. Whether that one is
/// refused.
fn is_refused_after_failing(rt: &impl Abort, alloc: Global, call: u64) -> Option<bool> {
    let key = share(rt).id;
    is_spent_after_failing(&mut failing(rt, alloc, call), key)
}

#[test]
fn a_disk_that_fails_is_asked_again(rt: HostRuntime) {
    for call in 0..4 {
        assert!(rt; is_refused_after_failing(&rt, rt.alloc(), call) == Some(call == 3));
    }
}

#[test]
fn a_refusal_says_what_the_leaf_is_bound_to(rt: HostRuntime) {
    let kept = MessageId::of(b"abc");
    let text = "the leaf is bound to another message, of 3 bytes";
    let said = Refusal::Journal(JournalFault::Spent { kept }).to_string(rt.alloc());
    assert!(rt; said.expect(&rt, "memory").as_str() == text);
}
