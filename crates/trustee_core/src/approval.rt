//! Decisions of a trustee with a book.

ghost use Rattle.std.specs.Prelude.{◌≡◌, length, ◌↔◌, IsTrue, IfOk, IfSome, Result};
ghost use Rattle.std.specs.Option.{option_map};
ghost use Rattle.trustee_core.specs.Approved.{ids_of};
ghost use Rattle.trustee_core.specs.Approvals.{BookDecides, Decided as DecidedBy, IsDenied, as_denial};
ghost use Rattle.trustee_core.specs.Approvals.{book_answer_in};
ghost use Rattle.opening_journal.specs.Journal.{state_of};
ghost use Rattle.trustee_core.specs.Grants.{ask_of};
ghost use Rattle.trustee_core.specs.Decisions.{Answer};
ghost use Rattle.trustee_core.specs.Notes.{Notes};
ghost use Rattle.trustee_core.specs.Trustee.{Decided, journal_of, notes_of, share_of};
ghost use Rattle.trustee_core.specs.declared.grant.Grant.{Grant as Granted};
ghost use Rattle.trustee_core.specs.declared.refusal.Refusal.{Refusal as Refused};

use crate::approved::Approved;
use crate::denial::Denial;
use crate::grant::Grant;
use crate::trustee::Trustee;
use disk_trait::Disk;
use lms_bytes::Ask;

/// Decides on an ask at a moment, in seconds since the start of 1970. If there is a book, an ask of round one whose
/// message it does not list is denied; that is tested first, makes no call of the disk and changes nothing. All other
/// asks are decided on as without a book.
pub fn decide_approved<D: Disk>(
    book: Option<&Approved>,
    trustee: &mut Trustee<D>,
    ask: &Ask,
    moment: u64,
) -> Result<Grant, Denial>
    requires c { IfSome ask.now.second (λ second. length second.c ≡ (share_of trustee.old).params.n) }
    requires digest { IfSome ask.now.second (λ second. length second.digest ≡ (share_of trustee.old).params.n) }
    ensures event { BookDecides (share_of trustee.old) (option_map (λ b. ids_of b.now) book.entry)
        (state_of (journal_of trustee.old)) ask.now moment (book_answer_in result) (state_of (journal_of trustee.new)) }
    ensures ask { IfOk result (λ grant. ask_of grant ≡ ask.now) }
    ensures denied { IsDenied (option_map (λ b. ids_of b.now) book.entry) ask.now → trustee.new ≡ trustee.old }
    ensures decided { (IsDenied (option_map (λ b. ids_of b.now) book.entry) ask.now → ⊥)
        → (core : Result Granted Refused) × (result ≡ as_denial core) × Decided trustee.old trustee.new core }
    ensures notes { (answer : Answer) → book_answer_in result ≡ DecidedBy answer
        → Notes ask.now moment answer (notes_of trustee.old) (notes_of trustee.new) }
{
    if is_denied(book, ask) {
        let message = ask.message;
        return Err(Denial::NotApproved { message });
    }
    match trustee.decide(ask, moment) {
        Ok(grant) => Ok(grant),
        Err(why) => Err(Denial::Core(why)),
    }
}

/// Whether there is a book, the ask is of round one, and the book does not list its message.
fn is_denied(book: Option<&Approved>, ask: &Ask) -> bool
    ensures { IsTrue result ↔ IsDenied (option_map (λ b. ids_of b.now) book.entry) ask.now }
{
    match (book, &ask.second) {
        (Some(book), None) => !book.lists(&ask.message.to_bytes()),
        _ => false,
    }
}
