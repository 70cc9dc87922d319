//! How a call ends, and the line that says so.

ghost use Rattle.std.specs.Prelude.{◌≡◌, IfOk, string_bytes};
ghost use Rattle.tool_base.specs.Ending.{drilled_asks, drilled_sessions, hss_fault_line, levels_line, line_of};
ghost use Rattle.lms_verify.specs.declared.verification.Verdict.TheVariants as verdict;
ghost use Rattle.tool_base.specs.Ending as spec;
ghost use Rattle.tool_base.specs.Endings.{ending};

use crate::lines::{number_line, numbers_line, roots_line};
use crate::undealt::Undealt;
use crate::unsigned::Unsigned;
use drill_schedule::Summary;
use hss_levels::{HssFault, HssVerdict};
use lms_bytes::Val;
use lms_verify::Verdict;
use std::alloc::{AllocError, Global};

/// How a call of the tool ends.
#[derive(Debug, Drop)]
pub enum Ending {
    /// A signature was verified.
    Verified(Verdict),
    /// A signature of one to eight levels was verified.
    Checked(HssVerdict),
    /// A signature was made in a rehearsal, and written with its key.
    Rehearsed,
    /// A key was dealt, and its files were written.
    Dealt { leaves: u32, coalitions: u32 },
    /// A journal was made for the trustee of this number, or a leaf table, whose number is 0.
    Enrolled { number: u8 },
    /// A journal was copied, with `slots` slots that are not free.
    Migrated { slots: u32 },
    /// A message is listed in a book, of which `slots` slots are not free.
    Approved { slots: u32 },
    /// A signature was made with this leaf, and written.
    Signed { leaf: u32 },
    /// A signature of two levels was made, the upper one with this leaf, and written with its key.
    SignedLevels { leaf: u32 },
    /// `connections` connections were served, with `frames` replies.
    Served { connections: u32, frames: u32 },
    /// A drill was run.
    Drilled(Summary),
    /// What a file holds was told by these lines, each ended by a line feed.
    Shown { text: String },
    /// The words are not a command.
    Usage,
    /// A call of the store failed, or a name is not in it.
    StoreFailed,
    /// The file of this name is not in its grammar, by the fault of this number.
    Unreadable { name: String, fault: u8 },
    /// A key is not dealt.
    NotDealt(Undealt),
    /// Nothing is signed.
    NotSigned(Unsigned),
    /// A call of a disk or of a view failed.
    DeviceFailed,
    /// A file is longer than its limit.
    TooLong { got: u64 },
    /// A journal, a table or a book was not loaded, by the fault of this number.
    NotLoaded { fault: u8 },
    /// Memory ran out.
    NoMemory,
    /// An output of this name is in the store.
    Exists { name: String },
    /// Ports were not made, or accepting failed.
    NetFailed,
    /// A book has no free slot.
    BookFull,
}

impl Ending {
    ghost use Rattle.tool_base.specs.Ending.{status_of};

    /// The status that the tool answers.
    pub fn status(&self) -> u8
        ensures { result ≡ status_of (ending self.now) }
    {
        match self {
            Ending::Verified(Verdict::Accepted { .. }) => 0,
            Ending::Verified(_) => 1,
            Ending::Checked(HssVerdict::Accepted { .. }) => 0,
            Ending::Checked(_) => 1,
            Ending::Rehearsed | Ending::Dealt { .. } | Ending::Enrolled { .. } => 0,
            Ending::Migrated { .. } | Ending::Approved { .. } => 0,
            Ending::Signed { .. } | Ending::SignedLevels { .. } => 0,
            Ending::Served { .. } | Ending::Drilled(_) | Ending::Shown { .. } => 0,
            Ending::Usage => 2,
            Ending::StoreFailed => 3,
            Ending::Unreadable { .. } => 4,
            Ending::NotDealt(_) => 5,
            Ending::NotSigned(why) => why.status(),
            Ending::DeviceFailed => 10,
            Ending::TooLong { .. } => 12,
            Ending::NotLoaded { .. } => 13,
            Ending::NoMemory => 14,
            Ending::Exists { .. } => 15,
            Ending::NetFailed => 17,
            Ending::BookFull => 19,
        }
    }

    /// The line that the tool prints.
    pub fn line(&self, alloc: Global) -> Result<String, AllocError>
        ensures { IfOk result (λ line. string_bytes line ≡ line_of (ending self.now)) }
    {
        match self {
            Ending::Verified(verdict) => verdict_line(alloc, verdict),
            Ending::Checked(verdict) => levels_line(alloc, verdict),
            Ending::Rehearsed => String::from_str(alloc, "rehearsed leaf 0\n"),
            Ending::Dealt { leaves, coalitions } => dealt_line(alloc, *leaves, *coalitions),
            Ending::Enrolled { number } => number_line(alloc, "enrolled ", u32::from(*number)),
            Ending::Migrated { slots } => number_line(alloc, "migrated ", *slots),
            Ending::Approved { slots } => number_line(alloc, "approved ", *slots),
            Ending::Signed { leaf } => number_line(alloc, "signed leaf ", *leaf),
            Ending::SignedLevels { leaf } => format!(in alloc; "signed leaf {leaf} levels 2\n"),
            Ending::Served {
                connections,
                frames,
            } => served_line(alloc, *connections, *frames),
            Ending::Drilled(summary) => drill_line(alloc, summary),
            Ending::Shown { text } => String::from_str(alloc, text.as_str()),
            Ending::Usage => String::from_str(alloc, "error 2 usage\n"),
            Ending::StoreFailed => String::from_str(alloc, "error 3 store\n"),
            Ending::Unreadable { name, fault } => file_line(alloc, name.as_str(), *fault),
            Ending::NotDealt(why) => why.line(alloc),
            Ending::NotSigned(why) => why.line(alloc),
            Ending::DeviceFailed => String::from_str(alloc, "error 10 device\n"),
            Ending::TooLong { got } => format!(in alloc; "error 12 too long {got}\n"),
            Ending::NotLoaded { fault } => format!(in alloc; "error 13 journal fault {fault}\n"),
            Ending::NoMemory => String::from_str(alloc, "error 14 memory\n"),
            Ending::Exists { name } => exists_line(alloc, name.as_str()),
            Ending::NetFailed => String::from_str(alloc, "error 17 network\n"),
            Ending::BookFull => String::from_str(alloc, "error 19 book full\n"),
        }
    }
}

/// The line of a verdict.
fn verdict_line(alloc: Global, verdict: &Verdict) -> Result<String, AllocError>
    ensures { IfOk result (λ line. string_bytes line ≡ line_of (spec.Verified verdict.now)) }
{
    match verdict {
        Verdict::Accepted { leaf } => number_line(alloc, "accepted leaf ", *leaf),
        Verdict::Malformed(fault) => {
            let number = u32::from(fault.number());
            number_line(alloc, "not accepted: malformed ", number)
        }
        Verdict::OtherRoot { got, want } => root_line(alloc, got, want),
    }
}

/// The line of a signature that leads to another root than the key's.
fn root_line(alloc: Global, got: &Val, want: &Val) -> Result<String, AllocError>
    ensures { IfOk result (λ line. string_bytes line ≡ line_of (spec.Verified (verdict.OtherRoot got.now want.now))) }
{
    let got = hex::encode(alloc, got.bytes())?;
    let want = hex::encode(alloc, want.bytes())?;
    format!(in alloc; "not accepted: root {got} key {want}\n")
}

/// The line of a verdict on an HSS signature.
fn levels_line(alloc: Global, verdict: &HssVerdict) -> Result<String, AllocError>
    ensures { IfOk result (λ line. string_bytes line ≡ levels_line verdict.now) }
{
    match verdict {
        HssVerdict::Accepted { levels } => format!(in alloc; "accepted levels {levels}\n"),
        HssVerdict::Malformed(fault) => hss_fault_line(alloc, fault),
        HssVerdict::OtherRoot { level, got, want } => {
            let level = u32::from(*level);
            roots_line(alloc, "not accepted: hss root ", level, got, want)
        }
    }
}

/// The line of bytes that are not an HSS signature under a key.
fn hss_fault_line(alloc: Global, fault: &HssFault) -> Result<String, AllocError>
    ensures { IfOk result (λ line. string_bytes line ≡ hss_fault_line fault.now) }
{
    match fault {
        HssFault::Short => String::from_str(alloc, "not accepted: hss short\n"),
        HssFault::Levels { got } => number_line(alloc, "not accepted: hss levels ", *got),
        HssFault::Sig { level, fault } => {
            let number = fault.number();
            numbers_line(alloc, "not accepted: hss sig ", number, " level ", *level)
        }
        HssFault::Pub { level, fault } => {
            let number = fault.number();
            numbers_line(alloc, "not accepted: hss key ", number, " level ", *level)
        }
    }
}

/// The line of a file that is not in its grammar.
fn file_line(alloc: Global, name: &str, fault: u8) -> Result<String, AllocError>
    ensures { IfOk result (λ line. string_bytes line ≡ line_of (spec.Unreadable name.now fault)) }
{
    format!(in alloc; "error 4 file {name} fault {fault}\n")
}

/// The line of a dealing.
fn dealt_line(alloc: Global, leaves: u32, coalitions: u32) -> Result<String, AllocError>
    ensures { IfOk result (λ line. string_bytes line ≡ line_of (spec.Dealt leaves coalitions)) }
{
    format!(in alloc; "dealt {leaves} leaves to {coalitions} coalitions\n")
}

/// The line of a service.
fn served_line(alloc: Global, connections: u32, frames: u32) -> Result<String, AllocError>
    ensures { IfOk result (λ line. string_bytes line ≡ line_of (spec.Served connections frames)) }
{
    format!(in alloc; "served {connections} connections {frames} frames\n")
}

/// The line of a drill.
fn drill_line(alloc: Global, summary: &Summary) -> Result<String, AllocError>
    ensures { IfOk result (λ line. string_bytes line ≡ line_of (spec.Drilled summary.now)) }
{
    let sessions = sessions_part(alloc, summary)?;
    let asks = asks_part(alloc, summary)?;
    format!(in alloc; "{sessions}{asks}\n")
}

/// What a drill's line says of its sessions.
fn sessions_part(alloc: Global, summary: &Summary) -> Result<String, AllocError>
    ensures { IfOk result (λ part. string_bytes part ≡ drilled_sessions summary.now) }
{
    let Summary {
        sessions,
        signed,
        refused,
        ..
    } = *summary;
    format!(in alloc; "sessions {sessions} signed {signed} refused {refused}")
}

/// What a drill's line says of its asks.
fn asks_part(alloc: Global, summary: &Summary) -> Result<String, AllocError>
    ensures { IfOk result (λ part. string_bytes part ≡ drilled_asks summary.now) }
{
    let Summary {
        asks,
        granted,
        cuts,
        restarts,
        most,
        ..
    } = *summary;
    format!(in alloc; " asks {asks} granted {granted} cuts {cuts} restarts {restarts} most {most}")
}

/// The line of an output that is in the store.
fn exists_line(alloc: Global, name: &str) -> Result<String, AllocError>
    ensures { IfOk result (λ line. string_bytes line ≡ line_of (spec.Exists name.now)) }
{
    format!(in alloc; "error 15 exists {name}\n")
}
