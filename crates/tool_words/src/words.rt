//! The rule of the words: which of them are a command.

ghost use Rattle.std.specs.Prelude.{◌≡◌, ◌∷◌, List, map, option_map, string_bytes, ℕ};
ghost use Rattle.std.specs.Option.{option_and_then};
ghost use Rattle.std.specs.List.{list_any};
ghost use Rattle.tool_words.specs.Words.{Row, aggregate_of, approve_of, command_of, deal_flags_of, deal_of};
ghost use Rattle.tool_words.specs.Words.{deal_with, drill_of};
ghost use Rattle.tool_words.specs.Words.{enrol_of, flag_of, hss_of, hss_sign_of, is_option, migrate_of, of_three};
ghost use Rattle.tool_words.specs.Words.{rehearse_of, row_of, show_of, sign_words_of, trustee_of, trustee_with};
ghost use Rattle.tool_words.specs.Words.{verify_of};
ghost use Rattle.tool_words.specs.Rows.{row, sign_words};

use crate::aggregate_words::AggregateWords;
use crate::command::Command;
use crate::deal_words::{DealFlags, DealWords};
use crate::drill_words::DrillWords;
use crate::hss_sign_words::HssSignWords;
use crate::numbers::{number_of, number_within};
use crate::places::Places;
use crate::sign_words::SignWords;
use crate::split::split_words;
use crate::trustee_words::TrusteeWords;
use std::alloc::Global;

/// The command that the words are, if they are one. The rule of the words decides, and `clap` splits them: a word of
/// its split is taken if it is the word of the rule. Numbers and address words are read from those that were given.
pub fn command_of(alloc: Global, words: &[String]) -> Option<Command<'_>>
    ensures { option_map row result ≡ command_of (map string_bytes words.now) }
{
    if has_option(words) {
        return None;
    }
    match split_words(alloc, words) {
        Ok(split) => row_of(words, split.as_slice()),
        Err(_) => row_of(words, &[]),
    }
}

/// Whether a word begins with `-`.
fn has_option(words: &[String]) -> bool
    ensures { result ≡ list_any (λ word. is_option (string_bytes word)) words.now }
{
    words.iter().any(|word| is_option(word.as_str()))
}

/// Whether the word begins with `-`.
fn is_option(word: &str) -> bool
    ensures { result ≡ is_option word.now }
{
    matches!(word.as_bytes(), [b'-', ..])
}

/// The words of a command, its name first.
fn row_of<'a>(words: &'a [String], split: &[&'a str]) -> Option<Command<'a>>
    ensures { option_map row result ≡ row_of (map string_bytes words.now) }
{
    let (name, words) = words.split_first()?;
    let split = rest_of(split);
    match name.as_str() {
        "verify" => verify_of(words, split),
        "rehearse" => rehearse_of(words, split),
        "deal" => deal_of(words, split),
        "enrol" => enrol_of(words, split),
        "migrate" => migrate_of(words, split),
        "approve" => approve_of(words, split),
        "trustee" => trustee_of(words, split),
        "sign" => sign_of(words, split),
        "blame" => blame_of(words, split),
        "hss" => hss_of(words, split),
        "aggregate" => aggregate_of(words, split),
        "drill" => drill_of(words),
        "show" => show_of(words, split),
        _ => None,
    }
}

/// The words after `verify`.
fn verify_of<'a>(words: &'a [String], split: &[&'a str]) -> Option<Command<'a>>
    ensures { option_map row result ≡ verify_of (map string_bytes words.now) }
{
    let (key, message, signature) = three_of(words, split)?;
    Some(Command::Verify {
        key,
        message,
        signature,
    })
}

/// The words after `rehearse`.
fn rehearse_of<'a>(words: &'a [String], split: &[&'a str]) -> Option<Command<'a>>
    ensures { option_map row result ≡ rehearse_of (map string_bytes words.now) }
{
    let [entropy, message, key_out, signature_out] = words else {
        return None;
    };
    if key_out.as_str() == signature_out.as_str() {
        return None;
    }
    Some(Command::Rehearse {
        entropy: word_at(split, 0, entropy.as_str()),
        message: word_at(split, 1, message.as_str()),
        key_out: word_at(split, 2, key_out.as_str()),
        signature_out: word_at(split, 3, signature_out.as_str()),
    })
}

/// The words after `deal`: six, and what may follow them. The prefix of the outputs' names is not empty.
fn deal_of<'a>(words: &'a [String], split: &[&'a str]) -> Option<Command<'a>>
    ensures { option_map row result ≡ deal_of (map string_bytes words.now) }
{
    let [entropy, lms, ots, n, k, prefix, last @ ..] = words else {
        return None;
    };
    let flags = deal_flags_of(last)?;
    deal_with(
        word_at(split, 0, entropy.as_str()),
        lms.as_str(),
        ots.as_str(),
        n.as_str(),
        k.as_str(),
        word_at(split, 5, prefix.as_str()),
        &flags,
    )
}

/// What follows the prefix: `commit`, `large` or nothing.
fn deal_flags_of(words: &[String]) -> Option<DealFlags>
    ensures { result ≡ deal_flags_of (map string_bytes words.now) }
{
    let (commit, large) = match words {
        [] => (false, false),
        [word] if word.as_str() == "commit" => (true, false),
        [word] if word.as_str() == "large" => (false, true),
        _ => return None,
    };
    Some(DealFlags { commit, large })
}

/// The words of a dealing, with what follows the prefix.
fn deal_with<'a>(
    entropy: &'a str,
    lms: &str,
    ots: &str,
    n: &str,
    k: &str,
    prefix: &'a str,
    flags: &DealFlags,
) -> Option<Command<'a>>
    ensures { option_map row result
        ≡ deal_with entropy.now lms.now ots.now n.now k.now prefix.now flags.now }
{
    if prefix.is_empty() {
        return None;
    }
    Some(Command::Deal(DealWords {
        entropy,
        lms: number_of(lms)?,
        ots: number_of(ots)?,
        n: number_of(n)?,
        k: number_of(k)?,
        prefix,
        commit: flags.commit,
        large: flags.large,
    }))
}

/// The words after `enrol`.
fn enrol_of<'a>(words: &'a [String], split: &[&'a str]) -> Option<Command<'a>>
    ensures { option_map row result ≡ enrol_of (map string_bytes words.now) }
{
    let [file, journal] = words else {
        return None;
    };
    Some(Command::Enrol {
        file: word_at(split, 0, file.as_str()),
        journal: word_at(split, 1, journal.as_str()),
    })
}

/// The words after `migrate`.
fn migrate_of<'a>(words: &'a [String], split: &[&'a str]) -> Option<Command<'a>>
    ensures { option_map row result ≡ migrate_of (map string_bytes words.now) }
{
    let (share, journal, new) = three_of(words, split)?;
    Some(Command::Migrate {
        share,
        journal,
        new,
    })
}

/// The words after `approve`.
fn approve_of<'a>(words: &'a [String], split: &[&'a str]) -> Option<Command<'a>>
    ensures { option_map row result ≡ approve_of (map string_bytes words.now) }
{
    let (share, book, message) = three_of(words, split)?;
    Some(Command::Approve {
        share,
        book,
        message,
    })
}

/// The words after `trustee`.
fn trustee_of<'a>(words: &'a [String], split: &[&'a str]) -> Option<Command<'a>>
    ensures { option_map row result ≡ trustee_of (map string_bytes words.now) }
{
    let [share, journal, place, workers, connections, last @ ..] = words else {
        return None;
    };
    let book = book_of(last, split)?;
    trustee_with(
        word_at(split, 0, share.as_str()),
        word_at(split, 1, journal.as_str()),
        word_at(split, 2, place.as_str()),
        workers.as_str(),
        connections.as_str(),
        book,
    )
}

/// The book that is named: by the one word that is left, or none.
fn book_of<'a>(words: &'a [String], split: &[&'a str]) -> Option<Option<&'a str>>
    ensures { (share journal place workers connections : List ℕ)
        → option_and_then (λ book. trustee_with share journal place workers connections (option_map (λ book. book.now)
        book)) result
        ≡ trustee_of (share ∷ journal ∷ place ∷ workers ∷ connections ∷ map string_bytes words.now) }
{
    match words {
        [] => Some(None),
        [book] => Some(Some(word_at(split, 5, book.as_str()))),
        _ => None,
    }
}

/// The words of a trustee with this book, or with none.
fn trustee_with<'a>(
    share: &'a str,
    journal: &'a str,
    place: &'a str,
    workers: &str,
    connections: &str,
    book: Option<&'a str>,
) -> Option<Command<'a>>
    ensures { option_map row result ≡ trustee_with share.now journal.now place.now workers.now connections.now
        (option_map (λ book. book.now) book.entry) }
{
    Some(Command::Trustee(TrusteeWords {
        share,
        journal,
        place,
        workers: number_within(workers, 1, 64)?,
        connections: number_within(connections, 1, u32::MAX)?,
        book,
    }))
}

/// The words after `sign`.
fn sign_of<'a>(words: &'a [String], split: &[&'a str]) -> Option<Command<'a>>
    ensures { option_map row result ≡ option_map Row.Sign (sign_words_of (map string_bytes words.now)) }
{
    sign_words_of(words, split).map(Command::Sign)
}

/// The words after `blame`.
fn blame_of<'a>(words: &'a [String], split: &[&'a str]) -> Option<Command<'a>>
    ensures { option_map row result ≡ option_map Row.Blame (sign_words_of (map string_bytes words.now)) }
{
    sign_words_of(words, split).map(Command::Blame)
}

/// The words after `sign` and after `blame`. The prefix of the names of the dealing's files is not empty.
fn sign_words_of<'a>(words: &'a [String], split: &[&'a str]) -> Option<SignWords<'a>>
    ensures { option_map sign_words result ≡ sign_words_of (map string_bytes words.now) }
{
    let [prefix, table, message, out, addresses @ ..] = words else {
        return None;
    };
    if prefix.is_empty() {
        return None;
    }
    let places = Places::of(addresses)?;
    Some(SignWords {
        prefix: word_at(split, 0, prefix.as_str()),
        table: word_at(split, 1, table.as_str()),
        message: word_at(split, 2, message.as_str()),
        out: word_at(split, 3, out.as_str()),
        places,
    })
}

/// The words after `hss`: what is to be done, and its words. To the split, what is to be done is a value.
fn hss_of<'a>(words: &'a [String], split: &[&'a str]) -> Option<Command<'a>>
    ensures { option_map row result ≡ hss_of (map string_bytes words.now) }
{
    let (name, words) = words.split_first()?;
    let split = rest_of(split);
    match name.as_str() {
        "check" => three_of(words, split).map(|(key, message, signature)| Command::HssCheck {
            key,
            message,
            signature,
        }),
        "sign" => hss_sign_of(words, split),
        _ => None,
    }
}

/// The words after `hss sign`. The prefix of the names of the dealing's files is not empty, and the outputs have
/// different names.
fn hss_sign_of<'a>(words: &'a [String], split: &[&'a str]) -> Option<Command<'a>>
    ensures { option_map row result ≡ hss_sign_of (map string_bytes words.now) }
{
    let [
        prefix,
        table,
        low_key,
        low_signature,
        message,
        key_out,
        signature_out,
        addresses @ ..,
    ] = words
    else {
        return None;
    };
    if prefix.is_empty() || key_out.as_str() == signature_out.as_str() {
        return None;
    }
    let places = Places::of(addresses)?;
    Some(Command::HssSign(HssSignWords {
        prefix: word_at(split, 0, prefix.as_str()),
        table: word_at(split, 1, table.as_str()),
        low_key: word_at(split, 2, low_key.as_str()),
        low_signature: word_at(split, 3, low_signature.as_str()),
        message: word_at(split, 4, message.as_str()),
        key_out: word_at(split, 5, key_out.as_str()),
        signature_out: word_at(split, 6, signature_out.as_str()),
        places,
    }))
}

/// The words after `aggregate`.
fn aggregate_of<'a>(words: &'a [String], split: &[&'a str]) -> Option<Command<'a>>
    ensures { option_map row result ≡ aggregate_of (map string_bytes words.now) }
{
    let [prefix, table, place, workers, connections, addresses @ ..] = words else {
        return None;
    };
    aggregate_with(
        word_at(split, 0, prefix.as_str()),
        word_at(split, 1, table.as_str()),
        word_at(split, 2, place.as_str()),
        workers.as_str(),
        connections.as_str(),
        addresses,
    )
}

/// The words of an aggregator with these address words. The prefix of the names of the files that it reads is not
/// empty.
fn aggregate_with<'a>(
    prefix: &'a str,
    table: &'a str,
    place: &'a str,
    workers: &str,
    connections: &str,
    addresses: &'a [String],
) -> Option<Command<'a>>
    ensures { option_map row result ≡ aggregate_of (prefix.now ∷ table.now ∷ place.now ∷ workers.now
        ∷ connections.now ∷ map string_bytes addresses.now) }
{
    if prefix.is_empty() {
        return None;
    }
    Some(Command::Aggregate(AggregateWords {
        prefix,
        table,
        place,
        workers: number_within(workers, 1, 64)?,
        connections: number_within(connections, 1, u32::MAX)?,
        places: Places::of(addresses)?,
    }))
}

/// The words after `drill`.
fn drill_of(words: &[String]) -> Option<Command<'_>>
    ensures { option_map row result ≡ drill_of (map string_bytes words.now) }
{
    let [number, sessions, events] = words else {
        return None;
    };
    Some(Command::Drill(DrillWords {
        number: number_of(number.as_str())?,
        sessions: number_within(sessions.as_str(), 0, 10_000)?,
        events: number_within(events.as_str(), 0, 100_000)?,
    }))
}

/// The words after `show`: a file, and `leaves` or nothing.
fn show_of<'a>(words: &'a [String], split: &[&'a str]) -> Option<Command<'a>>
    ensures { option_map row result ≡ show_of (map string_bytes words.now) }
{
    let [file, last @ ..] = words else {
        return None;
    };
    let leaves = flag_of(last, "leaves")?;
    Some(Command::Show {
        file: word_at(split, 0, file.as_str()),
        leaves,
    })
}

/// The words, if there are three.
fn three_of<'a>(words: &'a [String], split: &[&'a str]) -> Option<(&'a str, &'a str, &'a str)>
    ensures { (make : List ℕ → List ℕ → List ℕ → Row)
        → option_map (λ three. make three.0.now three.1.now three.2.now) result
        ≡ of_three make (map string_bytes words.now) }
{
    let [first, second, third] = words else {
        return None;
    };
    Some((
        word_at(split, 0, first.as_str()),
        word_at(split, 1, second.as_str()),
        word_at(split, 2, third.as_str()),
    ))
}

/// Whether a flag is given: by the one word that is left, or by none.
fn flag_of(words: &[String], flag: &str) -> Option<bool>
    ensures { result ≡ flag_of flag.now (map string_bytes words.now) }
{
    match words {
        [] => Some(false),
        [word] if word.as_str() == flag => Some(true),
        _ => None,
    }
}

/// What comes after the first word of the split.
fn rest_of<'s, 'a>(split: &'s [&'a str]) -> &'s [&'a str] {
    match split {
        [_, rest @ ..] => rest,
        [] => split,
    }
}

/// The word of the split at this place, if it is this word, or else the word itself.
fn word_at<'a>(split: &[&'a str], place: usize, word: &'a str) -> &'a str
    ensures { result.now ≡ word.now }
{
    match split.get(place) {
        Some(found) if *found == word => found,
        _ => word,
    }
}
