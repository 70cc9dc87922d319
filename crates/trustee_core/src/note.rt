//! Notes: what a trustee made of its journal's list, including doubts.

ghost use Rattle.std.specs.Prelude.{◌≡◌, List};
ghost use Rattle.std.specs.Borrow.{ftrue};
ghost use Rattle.trustee_core.specs.declared.note.Note.{Note};

use opening_journal::Entry;
use std::marker::{Model, PhantomData};

/// What a trustee did to its list of entries. No value of it is made.
#[derive(Clone, Copy, PartialEq, Eq)]
pub enum Note {
    /// This entry was made.
    Made(Entry),
    /// A fault of the disk left this entry in doubt.
    Doubted(Entry),
}

/// The notes of a trustee, in their order. Only proofs read them, and they take no memory.
#[derive(Drop)]
pub struct NoteLog {
    marker: PhantomData<()>,
    pub ghost notes: { List Note },
}

impl Model for NoteLog {
    ghost also_owns = { λ _. ftrue };
}

// It owns nothing.
unsafe impl Send for NoteLog {}

unsafe impl Sync for NoteLog {}

impl NoteLog {
    // Any notes: a proof says which, by what it is shown.
    pub(crate) fn of<T>(_seen: &T) -> NoteLog
        ghost items: { List Note }
        ensures { result.notes ≡ items }
    {
        NoteLog {
            marker: PhantomData,
        }
    }
}
