//! Why a key is not dealt.

ghost use Rattle.std.specs.Prelude.{◌≡◌, IfOk, string_bytes};

use crate::lines::{number_line, numbers_line};
use std::alloc::{AllocError, Global};

/// Why a key is not dealt.
#[derive(Clone, Copy, Debug, PartialEq, Eq)]
pub enum Undealt {
    /// No parameter set has these typecodes.
    Code,
    /// Not `2 <= k <= n <= 12`.
    Threshold,
    /// More coalitions than leaves.
    Coalitions { count: u32 },
    /// The tree is too high.
    Height { h: u8 },
    /// The digits are too wide for the height of the tree.
    Width,
    /// The entropy has another length.
    Entropy { got: usize, want: usize },
    /// Two trustees have the same key.
    Keys { t: u8, u: u8 },
    /// The commitment file would have `bytes` bytes, which is above its limit.
    Commitments { bytes: u64 },
}

impl Undealt {
    ghost use Rattle.tool_base.specs.Ending.{undealt_line};

    /// The line that says so.
    pub(crate) fn line(&self, alloc: Global) -> Result<String, AllocError>
        ensures { IfOk result (λ line. string_bytes line ≡ undealt_line self.now) }
    {
        match self {
            Undealt::Code => String::from_str(alloc, "error 5 code\n"),
            Undealt::Threshold => String::from_str(alloc, "error 5 threshold\n"),
            Undealt::Coalitions { count } => number_line(alloc, "error 5 coalitions ", *count),
            Undealt::Height { h } => number_line(alloc, "error 5 height ", u32::from(*h)),
            Undealt::Width => String::from_str(alloc, "error 5 width\n"),
            Undealt::Entropy { got, want } => format!(in alloc; "error 5 entropy {got} {want}\n"),
            Undealt::Keys { t, u } => numbers_line(alloc, "error 5 keys ", *t, " ", *u),
            Undealt::Commitments { bytes } => format!(in alloc; "error 5 commitments {bytes}\n"),
        }
    }
}
