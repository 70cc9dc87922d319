//! The replies of a drill's trustees.

ghost use Rattle.std.specs.Prelude.{◌≡◌, ◌*◌, length, IfOk, IfSome};
ghost use Rattle.lms_bytes.specs.Bytes.{joined};
ghost use Rattle.drill.specs.Courses.{head_with, masks_joined};
ghost use Rattle.session_core.specs.Replies.{with_delivery};
ghost use Rattle.session_core.specs.State.{IsSession, SameAsk};
ghost use Rattle.trustee_core.specs.Grants.{ask_of, mask_of, masks_of as mask_count_of};

use crate::asks::NextAsk;
use crate::desk::Desk;
use lms_bytes::bytes::put;
use lms_bytes::{Ask, Params, ReplyHead, Val};
use memory::NoMemory;
use session_core::Session;
use share_files::Share;
use std::alloc::Global;
use trustee_core::{Grant, mask_count, release};

/// Writes the masks of a grant, one after the other.
fn write_masks(share: &Share, grant: &Grant, out: &mut [u8])
    requires digest { IfSome (ask_of grant.now).second (λ second. length second.digest ≡ share.now.params.n) }
    requires room { length out.old
        ≡ share.now.params.n * mask_count_of share.now.params (ask_of grant.now) }
    ensures { out.new ≡ joined (mask_of share.now (ask_of grant.now))
        (mask_count_of share.now.params (ask_of grant.now)) }
{
    let n = share.params.n as usize;
    'masks: for i in 0..mask_count(&share.params, grant) {
        let mask = release(share, grant, i);
        put(out, n * i as usize, mask.bytes());
    }
}

/// The masks of a grant, one after the other.
pub(crate) fn masks_of(alloc: Global, share: &Share, grant: &Grant) -> Result<Vec<u8>, NoMemory>
    requires { IfSome (ask_of grant.now).second (λ second. length second.digest ≡ share.now.params.n) }
    ensures { IfOk result (λ masks. masks.items ≡ masks_joined share.now (ask_of grant.now)) }
{
    let count = mask_count(&share.params, grant);
    let mut masks = vec![in alloc; 0; share.params.n as usize * count as usize]?;
    write_masks(share, grant, &mut masks);
    Ok(masks)
}

/// The head of a reply with masks.
pub(crate) fn head_of(params: &Params, member: u8, ask: &Ask) -> ReplyHead
    ensures { result ≡ head_with params.now member ask.now }
{
    let (round, c) = match &ask.second {
        None => (1, Val::cut(&[0; 32], params.n)),
        Some(second) => (2, second.c),
    };
    ReplyHead {
        key: ask.key,
        leaf: ask.leaf,
        member,
        message: ask.message,
        round,
        c,
        code: 0,
    }
}

/// Lets a session take the masks of a grant.
pub(crate) fn take_masks(
    alloc: Global,
    desk: &Desk,
    share: &Share,
    session: &mut Session,
    next: &NextAsk,
    grant: &Grant,
) -> Result<(), NoMemory>
    requires { IfSome (ask_of grant.now).second (λ second. length second.digest ≡ share.now.params.n) }
    ensures same { SameAsk session.old session.new }
    ensures taken { IfOk result (λ _. session.new ≡ with_delivery session.old
        (head_with desk.now.dealt.public.params next.now.member next.now.ask)
        (masks_joined share.now (ask_of grant.now))) }
    ensures session { IfOk result (λ _. IsSession session.new) }
{
    let masks = masks_of(alloc, share, grant)?;
    session.take(&head_of(desk.params(), next.member, &next.ask), &masks);
    // What is true of every session.
    let _round = session.round();
    Ok(())
}
