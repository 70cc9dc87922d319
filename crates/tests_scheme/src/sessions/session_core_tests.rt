//! Tests of what no clause says: that whole sessions give the signatures of another implementation, and each refusal.

use crate::sessions::meeting::{LEAVES, MESSAGE, Meeting};
use crate::values::{ID, holds};
use disk_trait::MemDisk;
use lms_bytes::bytes::put;
use lms_bytes::{Ask, MessageId, Second, Val};
use reference_value::Paged;
use session_core::{KeptValue, SessionFault, Step};
use sha2::{Digest, Sha256};
use std::alloc::Global;
use std::process::Abort;

/// The replies of round one: of trustees 3, 1 and 2, of trustee 4, which is no member, and of trustee 3 again.
const FIRST: [(u8, Step); 5] = [
    (3, Step::Kept),
    (4, Step::NotMine),
    (1, Step::Kept),
    (3, Step::Repeat),
    (2, Step::Kept),
];

/// Typecodes, and SHA-256 of the signatures of another implementation.
const SIGNED: [(u32, u32, [u8; 32]); 2] = [
    (
        5,
        3,
        [
            0xd3, 0x0e, 0x37, 0x16, 0xb0, 0xf5, 0x8c, 0x89, 0xce, 0x38, 0x9f, 0x61, 0xc9, 0xa9,
            0xfe, 0xc2, 0x70, 0x96, 0xe4, 0xb1, 0x0e, 0xbc, 0x7a, 0x73, 0x2b, 0x8d, 0x5f, 0x96,
            0xba, 0xca, 0x1b, 0xce,
        ],
    ),
    (
        10,
        7,
        [
            0x6a, 0xfb, 0xf4, 0x1c, 0xdb, 0xf8, 0xae, 0x15, 0x0c, 0xcb, 0x24, 0xa4, 0x0d, 0xde,
            0xd8, 0x60, 0xd5, 0x55, 0x38, 0x0d, 0xbf, 0x71, 0x73, 0x71, 0xde, 0x89, 0xe2, 0xa2,
            0x52, 0x0c, 0x05, 0x8c,
        ],
    ),
];

/// Whether each step of round one is as it should be.
fn answer_first(meeting: &mut Meeting) -> bool {
    let mut right = true;
    for (member, want) in &FIRST {
        right &= meeting.give_mask(*member) == *want;
    }
    right
}

/// Whether the replies of round two of trustees 2, 1 and 3 are kept.
fn answer_second(meeting: &mut Meeting) -> bool {
    let mut right = true;
    for member in &[2, 1, 3] {
        right &= meeting.give_masks(*member) == Some(Step::Kept);
    }
    right
}

/// Goes through both rounds, up to the end.
fn run(meeting: &mut Meeting) -> bool {
    answer_first(meeting) && meeting.turn() == Some(Ok(())) && answer_second(meeting)
}

/// Whether a whole session gives a signature of this SHA-256.
fn signs(meeting: &mut Meeting, alloc: Global, want: &[u8; 32]) -> bool {
    run(meeting)
        && match meeting.finish(alloc) {
            Some(Ok(signature)) => Sha256::digest(&signature) == *want,
            _ => false,
        }
}

#[test]
fn a_session_signs_as_another_implementation_does(rt: HostRuntime) {
    for (lms, ots, want) in &SIGNED {
        let mut meeting = Meeting::dealt(&rt, rt.alloc(), *lms, *ots);
        holds(&rt, *lms, signs(&mut meeting, rt.alloc(), want));
    }
}

/// The fault in which a whole session ends.
fn fault_of(meeting: &mut Meeting, alloc: Global) -> Option<SessionFault> {
    if run(meeting) {
        meeting.finish(alloc)?.err()
    } else {
        None
    }
}

#[test]
fn a_changed_reference_gives_no_signature(rt: HostRuntime) {
    // The root to which the signature of another implementation leads with the first byte of value 0 changed.
    let got =
        b"\x67\x94\xb7\x60\xd2\xbb\xdd\xab\xbe\xe4\x4e\xa0\x0e\xfa\x89\xa2\xbb\x14\x93\x79\x87\xcc\x54\x43";
    let want =
        b"\x6c\x65\xc3\xa9\xb0\xc3\xab\x09\x47\x78\xe6\x9c\x0d\xbc\x07\xf5\xec\xc5\x3b\x94\x61\x5f\x19\x90";
    let fault = SessionFault::WrongRoot {
        leaf: 0,
        got: Val::of(got),
        want: Val::of(want),
    };
    let mut meeting = Meeting::dealt(&rt, rt.alloc(), 10, 7);
    // The values of chain 0 lie after the randomizer and three tags, and the digest's first digit is 4.
    meeting.spoil(24 + 96 + 24 * 4);
    assert!(rt; fault_of(&mut meeting, rt.alloc()) == Some(fault));
}

/// Whether a session in which trustee 1 alone has answered, with this refusal, turns with this fault.
fn turns_with(rt: &impl Abort, alloc: Global, code: u8, body: &[u8], want: SessionFault) -> bool {
    let mut meeting = Meeting::blank(rt, alloc);
    meeting.take(1, code, body);
    meeting.turn() == Some(Err(want))
}

/// The bytes of a message's id: its length and its hash.
fn bytes_of(id: &MessageId) -> [u8; 36] {
    let mut bytes = [0; 36];
    put(&mut bytes, 0, &id.length.to_be_bytes());
    put(&mut bytes, 4, &id.hash);
    bytes
}

/// The id of a message that differs from this one's in the last bit.
fn other_id(id: &MessageId) -> MessageId {
    let mut other = *id;
    other.hash[31] ^= 1;
    other
}

/// The fault that trustee 1 keeps another value of leaf 0.
fn spent(kept: KeptValue) -> SessionFault {
    SessionFault::SpentLeaf {
        leaf: 0,
        member: 1,
        kept,
    }
}

/// Whether a refusal of trustee 1 that says nothing more is told as it is, and one that says what it may not is none.
fn tells_refusals(rt: &impl Abort, alloc: Global) -> bool {
    let member = 1;
    let refused = SessionFault::MemberRefused { member, code: 12 };
    let missing = SessionFault::Missing { member, round: 1 };
    turns_with(rt, alloc, 12, &[], refused) & turns_with(rt, alloc, 12, &[0], missing)
}

/// Whether a refusal of trustee 1 that names a message is told by whether it is another one.
fn tells_messages(rt: &impl Abort, alloc: Global) -> bool {
    let own = MessageId::of(MESSAGE);
    let other = other_id(&own);
    let refused = SessionFault::MemberRefused { member: 1, code: 9 };
    let same = turns_with(rt, alloc, 9, &bytes_of(&own), refused);
    let kept = spent(KeptValue::Message(other));
    same & turns_with(rt, alloc, 9, &bytes_of(&other), kept)
}

#[test]
fn refusals_are_told_apart(rt: HostRuntime) {
    assert!(rt; tells_refusals(&rt, rt.alloc()));
    assert!(rt; tells_messages(&rt, rt.alloc()));
}

/// What `finish` says about a session over a reference of zeros in which trustees 1, 2 and 3 have answered round one
/// with zeros, and trustee 1 has answered round two with a refusal.
fn fault_of_later_refusal(
    meeting: &mut Meeting,
    alloc: Global,
    code: u8,
    body: &[u8],
) -> Option<SessionFault> {
    for member in 1..4 {
        meeting.take(member, 0, &[0; 24]);
    }
    meeting.turn()?.ok()?;
    meeting.take(1, code, body);
    meeting.finish(alloc)?.err()
}

/// Whether that fault is this one.
fn ends_with(rt: &impl Abort, alloc: Global, code: u8, body: &[u8], want: SessionFault) -> bool {
    let mut meeting = Meeting::blank(rt, alloc);
    fault_of_later_refusal(&mut meeting, alloc, code, body) == Some(want)
}

/// Whether a refusal of round two that says nothing more is told by its code.
fn tells_codes(rt: &impl Abort, alloc: Global) -> bool {
    let (leaf, member) = (0, 1);
    let wrong = SessionFault::WrongCheck { leaf, member };
    let refused = SessionFault::MemberRefused { member, code: 8 };
    ends_with(rt, alloc, 5, &[], wrong) & ends_with(rt, alloc, 8, &[], refused)
}

/// A randomizer of zeros, and the message's digest under it, which another implementation hashed.
const DIGEST: &[u8; 48] = b"\0\0\0\0\0\0\0\0\0\0\0\0\0\0\0\0\0\0\0\0\0\0\0\0\
    \x1f\xb3\xd6\x31\xf1\xc7\x65\x3d\x73\xf8\xe1\x57\x19\x5f\x98\x1a\xe3\x20\x0e\x73\x5f\xd6\x7f\x66";

/// Whether a refusal of round two that names a digest is told by whether it is another one.
fn tells_digests(rt: &impl Abort, alloc: Global) -> bool {
    let refused = SessionFault::MemberRefused {
        member: 1,
        code: 10,
    };
    let mut other = *DIGEST;
    other[47] ^= 1;
    let kept = spent(KeptValue::Digest {
        c: Val::of(&other[..24]),
        digest: Val::of(&other[24..]),
    });
    ends_with(rt, alloc, 10, DIGEST, refused) & ends_with(rt, alloc, 10, &other, kept)
}

#[test]
fn refusals_of_round_two_are_told_apart(rt: HostRuntime) {
    assert!(rt; tells_codes(&rt, rt.alloc()));
    assert!(rt; tells_digests(&rt, rt.alloc()));
}

/// The ask of leaf 0, by what round two adds.
fn ask_with(second: Option<Second>) -> Ask {
    Ask {
        key: ID,
        leaf: 0,
        message: MessageId::of(MESSAGE),
        second,
    }
}

/// Whether these masks of a member are kept for a round.
fn keeps(meeting: &Meeting, round: u8, member: u8, masks: &[u8]) -> bool {
    meeting
        .session
        .kept_reply(round, member)
        .is_some_and(|kept| kept == masks)
}

/// Whether nothing from a member is kept in a round.
fn keeps_none(meeting: &Meeting, round: u8, member: u8) -> bool {
    meeting.session.kept_reply(round, member).is_none()
}

/// Whether trustee 2 is asked this, by this digest.
fn asks(meeting: &Meeting, digest: &[u8; 24], second: Option<Second>) -> bool {
    meeting.ask(&Val::of(digest)) == Some(Ok(ask_with(second)))
}

/// The mask that another implementation had from trustee 2.
const MASK: &[u8; 24] =
    b"\x2e\x88\xf5\x5e\xc3\xf9\x50\xe6\xba\x46\xf4\x98\xb8\x94\x4c\x4b\x48\xe0\x8e\x73\x94\x2a\x5b\xfe";

/// Whether that mask is kept for round one, and nothing from trustee 4 or for round two.
fn keeps_first(meeting: &Meeting) -> bool {
    keeps(meeting, 1, 2, MASK) && keeps_none(meeting, 1, 4) && keeps_none(meeting, 2, 2)
}

#[test]
fn round_one_tells_what_it_asks_and_keeps(rt: HostRuntime) {
    let mut meeting = Meeting::blank(&rt, rt.alloc());
    assert!(rt; asks(&meeting, &[0; 24], None) && keeps_none(&meeting, 1, 2));
    assert!(rt; answer_first(&mut meeting) && keeps_first(&meeting));
}

/// What another implementation asked of trustee 2 and had from it: a randomizer.
const C: &[u8; 24] =
    b"\x44\xeb\xb5\xe6\xe3\x18\x9c\xe4\x3e\xf1\x3b\xeb\xc0\x51\xdb\x04\xcd\xba\x90\xf2\x6f\x2e\x38\x63";

/// Its tag.
const TAG: &[u8; 32] = b"\xc1\x13\xa8\xd5\xef\x68\xfb\xb0\xb3\xbe\x33\x32\xff\xfe\xa7\xac\
    \xd9\xda\x27\xdf\xbc\xe1\x00\xf3\x86\xe3\x63\x2d\x77\xb7\xcc\xfb";

/// The message's digest under it.
const ASKED: &[u8; 24] =
    b"\x4e\xa0\x13\x64\x44\xdb\xcf\x0f\x14\x5a\xc7\x7a\xc6\x78\x39\x13\x09\xf5\x1a\x89\xb9\xdf\xef\x40";

/// The SHA-256 of the masks.
const MASKS: &[u8; 32] = b"\x63\xa9\x60\x4f\x1a\x73\xa8\x5a\x41\xb1\xfb\x1a\x0a\x96\x5e\x91\
    \x17\x44\xde\x23\x28\xb9\xcc\xbc\x98\xe0\x9a\xeb\x95\xdd\xf1\xcb";

/// Whether trustee 2 is asked by the randomizer, its tag and the digest.
fn asks_second(meeting: &Meeting) -> bool {
    let second = Second {
        c: Val::of(C),
        tag: *TAG,
        digest: Val::of(ASKED),
    };
    asks(meeting, ASKED, Some(second))
}

/// Whether the masks are kept for round two, and nothing from trustee 1 or for another round.
fn keeps_second(meeting: &Meeting) -> bool {
    match meeting.session.kept_reply(2, 2) {
        Some(kept) => {
            let same = Sha256::digest(kept) == *MASKS;
            same && keeps_none(meeting, 2, 1) && keeps_none(meeting, 3, 2)
        }
        None => false,
    }
}

#[test]
fn round_two_tells_what_it_asks_and_keeps(rt: HostRuntime) {
    let mut meeting = Meeting::dealt(&rt, rt.alloc(), 10, 7);
    assert!(rt; answer_first(&mut meeting) && meeting.turn() == Some(Ok(())));
    assert!(rt; asks_second(&meeting) && meeting.give_masks(2) == Some(Step::Kept));
    assert!(rt; keeps_second(&meeting));
}

/// A reference of zeros on a disk whose first read fails.
fn failing_disk(rt: &impl Abort, alloc: Global) -> MemDisk {
    let file = vec![in alloc; 0; 32 + LEAVES].expect(rt, "memory");
    let mut disk = MemDisk::of_bytes(alloc, &file, file.len(), usize::MAX).expect(rt, "memory");
    disk.fail_once(0);
    disk
}

/// Ends round one over a reference on this disk.
fn turn_over(meeting: &mut Meeting, disk: MemDisk) -> Option<Result<(), SessionFault>> {
    meeting.in_first()?;
    let mut cells = Paged::new(&meeting.params, &meeting.plan, disk);
    Some(meeting.session.turn(&mut cells))
}

#[test]
fn a_read_that_fails_leaves_the_session(rt: HostRuntime) {
    let mut meeting = Meeting::blank(&rt, rt.alloc());
    let disk = failing_disk(&rt, rt.alloc());
    assert!(rt; answer_first(&mut meeting));
    assert!(rt; turn_over(&mut meeting, disk) == Some(Err(SessionFault::Reference)));
    assert!(rt; meeting.session.randomizer().is_none());
    assert!(rt; !keeps_none(&meeting, 1, 2));
}
