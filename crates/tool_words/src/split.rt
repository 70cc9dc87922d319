//! The split of the words by `clap`.

use clap::{Arg, ArgAction, ArgMatches, Command as Parser, Error};
use std::alloc::{AllocError, Global};

/// The words of a command, its name first, in the order in which `clap` splits them off, or why it takes none. No
/// clause says what comes: the caller compares each word with the one that was given.
pub fn split_words(alloc: Global, words: &[String]) -> Result<Vec<&str>, Error> {
    let found = parser_of(alloc)?.try_get_matches_from(words)?;
    Ok(values_of(alloc, &found)?)
}

/// The words that were found.
fn values_of<'a>(alloc: Global, found: &ArgMatches<'a>) -> Result<Vec<&'a str>, AllocError> {
    let mut split = Vec::new(alloc);
    if let Some(values) = found.get_strs("words") {
        split.extend_from_slice(values)?;
    }
    Ok(split)
}

/// The parser of one word or more. How many words each command has is the rule's to say, which compares them all.
fn parser_of<'a>(alloc: Global) -> Result<Parser<'a>, AllocError> {
    Parser::new(alloc, "rikselbe").no_binary_name(true).arg(
        Arg::new(alloc, "words")
            .required(true)
            .action(ArgAction::Append)
            .num_args(1..=usize::MAX),
    )
}
