//! The members that commitments blame, as the end of a command.

ghost use Rattle.std.specs.Prelude.{◌≡◌, ◌↔◌, IfErr, IfSome, IsTrue, is_some, length};
ghost use Rattle.share_blame.specs.Commits.{AreOf, PagesStay, leaves_on, pages_of};
ghost use Rattle.session_core.specs.Verdicts.{digest_of};
ghost use Rattle.mask_prf.specs.Lengths.{all_commits_length};
ghost use Rattle.tool_base.specs.Ending.{status_of};
ghost use Rattle.tool_base.specs.Endings.{ending};
ghost use Rattle.tool_blame.specs.Names.{NamesEnd, TellsEnd};
ghost use Rattle.tool_sign.specs.Ports.{reads_on};
ghost use Rattle.tool_sign.specs.Sessions.{answer_by};

use aggregator_session::Ended;
use disk_trait::Pages;
use lms_bytes::PublicKey;
use session_core::Session;
use share_blame::{Commits, blamed};
use tool_base::{Ending, Unsigned};
use tool_sign::SignedBy;

/// What is told about the outcome of a session of this key and message: if its masks were not accepted, the end that
/// names the members that the commitments blame, otherwise the outcome itself.
pub(crate) fn told_outcome<V: Pages>(
    commits: &mut Commits<V>,
    key: &PublicKey,
    ended: Ended<Result<SignedBy, Ending>>,
    message: &[u8],
) -> Result<SignedBy, Ending>
    requires session { IfSome ended.session (λ session. (session.key ≡ key.now)
        × AreOf key.now.params session.plan commits.old) }
    requires whole { IfSome ended.session (λ session. IsTrue (V.told (pages_of commits.old))
        → length (leaves_on V.Pages.own (pages_of commits.old)) ≡ all_commits_length key.now.params session.plan) }
    requires begun { IfErr ended.outcome (λ end. status_of (ending end) ≡ 8 → IsTrue (is_some ended.session)) }
    ensures tells { TellsEnd (reads_on V.Pages.own V.Faults (pages_of commits.old) (pages_of commits.new))
        (V.steady (pages_of commits.old)) message.now ended.session (answer_by ended.outcome) (answer_by result) }
    ensures stays { PagesStay V.Pages.own V.Faults (pages_of commits.old) (pages_of commits.new) }
{
    let Ended { outcome, session } = ended;
    let end = match outcome {
        Ok(by) => return Ok(by),
        Err(end) => end,
    };
    if !is_not_accepted(&end) {
        return Err(end);
    }
    match session {
        Some(session) => Err(name_blamed(commits, key, &session, message)),
        None => Err(end),
    }
}

/// Whether this is the end of a session whose masks were not accepted.
fn is_not_accepted(end: &Ending) -> bool
    ensures { IsTrue result ↔ (status_of (ending end.now) ≡ 8) }
{
    match end {
        Ending::NotSigned(Unsigned::WrongCheck { .. } | Unsigned::WrongRoot { .. }) => true,
        Ending::NotSigned(Unsigned::Blamed { .. }) => true,
        _ => false,
    }
}

/// The end of a session of this key and message whose masks were not accepted: it names the members that the
/// commitments blame, in round two at the digits of the message's digest.
pub fn name_blamed<V: Pages>(
    commits: &mut Commits<V>,
    key: &PublicKey,
    session: &Session,
    message: &[u8],
) -> Ending
    requires commits { AreOf key.now.params session.now.plan commits.old }
    requires key { session.now.key ≡ key.now }
    requires whole { IsTrue (V.told (pages_of commits.old))
        → length (leaves_on V.Pages.own (pages_of commits.old)) ≡ all_commits_length key.now.params session.now.plan }
    ensures names { NamesEnd (reads_on V.Pages.own V.Faults (pages_of commits.old) (pages_of commits.new))
        (V.steady (pages_of commits.old)) session.now (digest_of session.now message.now) (ending result) }
    ensures stays { PagesStay V.Pages.own V.Faults (pages_of commits.old) (pages_of commits.new) }
{
    let digest = session.digest(message);
    match blamed(commits, &key.params, session, &digest) {
        Ok(members) => Ending::NotSigned(Unsigned::Blamed { members }),
        Err(_) => Ending::DeviceFailed,
    }
}
