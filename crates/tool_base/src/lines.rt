//! Lines that have the same parts.

ghost use Rattle.hex.specs.Hex.{encode_lower};
ghost use Rattle.std.specs.Fmt.{decimal};
ghost use Rattle.std.specs.Prelude.{◌≡◌, ◌++◌, IfOk, codes, string_bytes};
ghost use Rattle.tool_base.specs.Ending.{end_of_line, two_numbers};

use lms_bytes::Val;
use std::alloc::{AllocError, Global};

/// The line of a number after words.
pub(crate) fn number_line(alloc: Global, words: &str, number: u32) -> Result<String, AllocError>
    ensures { IfOk result (λ line. string_bytes line ≡ words.now ++ (decimal number ++ end_of_line)) }
{
    format!(in alloc; "{words}{number}\n")
}

/// The line of two numbers, each after words.
pub(crate) fn numbers_line(
    alloc: Global,
    words: &str,
    first: u8,
    more: &str,
    second: u8,
) -> Result<String, AllocError>
    ensures { IfOk result (λ line. string_bytes line ≡ two_numbers words.now first more.now second) }
{
    format!(in alloc; "{words}{first}{more}{second}\n")
}

/// The line of a number after words, and of the root that a signature leads to and the one that it should lead to.
pub(crate) fn roots_line(
    alloc: Global,
    words: &str,
    number: u32,
    got: &Val,
    want: &Val,
) -> Result<String, AllocError>
    ensures { IfOk result (λ line. string_bytes line ≡ words.now ++ (decimal number
        ++ (codes " " ++ (encode_lower got.now ++ (codes " " ++ (encode_lower want.now ++ end_of_line)))))) }
{
    let got = hex::encode(alloc, got.bytes())?;
    let want = hex::encode(alloc, want.bytes())?;
    format!(in alloc; "{words}{number} {got} {want}\n")
}
