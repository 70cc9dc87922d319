//! The line that shows how far a dealing is.

use std::io::{IsTerminal, Stderr, Write};
use stream_io::Progress;

/// Shows on standard error how many leaves are built, on one line that is written again at each call and ended after
/// the last leaf. If standard error is not a terminal, nothing is shown.
#[derive(Drop)]
pub struct ProgressLine {
    rt: HostRuntime,
    is_shown: bool,
}

impl ProgressLine {
    /// The line of a dealing of which nothing was told yet.
    pub fn new(rt: HostRuntime) -> ProgressLine {
        ProgressLine {
            rt,
            is_shown: rt.stderr().is_terminal(),
        }
    }

    /// Writes the line again, followed by `end`. If it cannot be shown, that is ignored.
    fn show(&self, leaves: u32, all: u32, end: &str) {
        if let Ok(line) = format!(in self.rt.alloc(); "\r{leaves} of {all} leaves{end}") {
            let _ = self.rt.stderr().write_all(line.as_bytes());
        }
    }
}

impl Progress for ProgressLine {
    ghost told = { λ it _ _. it };

    fn built(&mut self, leaves: u32, all: u32) {
        if self.is_shown {
            self.show(leaves, all, if leaves == all { "\n" } else { "" });
        }
    }
}
