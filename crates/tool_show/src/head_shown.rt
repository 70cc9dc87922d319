//! What a file holds that is too long to be read whole.

ghost use Rattle.std.specs.Prelude.{◌≡◌, ◌<◌, Bool, IfErr, IfOk, IfSome, List, None, Ok, length, string_bytes, ℕ};
ghost use Rattle.tool_base.specs.Contents.{HasHead};
ghost use Rattle.tool_show.specs.Keys.{IsFaultOfHead};
ghost use Rattle.tool_show.specs.Show.{HasOtherLetters};
ghost use Rattle.tool_show.specs.Shown.{IsShown};

use crate::bytes_shown::ShowFault;
use crate::lines::header_line;
use share_files::{read_commits_header, read_ref_header};
use std::alloc::Global;

/// What a file with this head and this length holds, if its letters are those of a reference or of commitments, and
/// nothing otherwise. What is behind the head is not looked at.
pub(crate) fn show_head(
    alloc: Global,
    head: &[u8; 32],
    got: u64,
) -> Result<Option<String>, ShowFault>
    ensures shown { IfOk result (λ text. IfSome text (λ text. (file : List ℕ) (leaves : Bool)
        → HasHead head.now file → length file ≡ got → IsShown file leaves (string_bytes text))) }
    ensures other { result ≡ Ok None → HasOtherLetters head.now }
    ensures refused { IfErr result (IsFaultOfHead head.now got) }
{
    if head.starts_with(b"TLRF") {
        let header = read_ref_header(head, got)?;
        return Ok(Some(header_line(alloc, "reference", &header, got as usize)?));
    }
    if head.starts_with(b"TLCM") {
        let header = read_commits_header(head, got)?;
        return Ok(Some(header_line(alloc, "commitments", &header, got as usize)?));
    }
    Ok(None)
}
