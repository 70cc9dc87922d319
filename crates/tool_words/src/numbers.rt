//! Words that are numbers.

ghost use Rattle.std.specs.Prelude.{◌≡◌, ◌≤◌, IfSome};
ghost use Rattle.std.specs.Char.{is_ascii_digit};
ghost use Rattle.std.specs.List.{list_all};
ghost use Rattle.tool_words.specs.Words.{number_of, number_within};

/// The number that a word is, if it is one from `least` to `most`.
pub(crate) fn number_within(word: &str, least: u32, most: u32) -> Option<u32>
    ensures number { result ≡ number_within least most word.now }
    ensures within { IfSome result (λ number. (least ≤ number) × (number ≤ most)) }
{
    let number = number_of(word)?;
    if least <= number && number <= most {
        Some(number)
    } else {
        None
    }
}

/// The number that a word is: one to ten decimal digits of a number below 2^32.
pub(crate) fn number_of(word: &str) -> Option<u32>
    ensures { result ≡ number_of word.now }
{
    if word.len() > 10 || !is_decimal(word) {
        return None;
    }
    word.parse().ok()
}

/// Whether the word consists of decimal digits alone.
fn is_decimal(word: &str) -> bool
    ensures { result ≡ list_all is_ascii_digit word.now }
{
    word.as_bytes().iter().all(|digit| digit.is_ascii_digit())
}
