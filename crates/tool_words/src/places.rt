//! Address words, and the places of trustees that they name.

ghost use Rattle.std.specs.Prelude.{◌≡◌, ◌≤◌, ◌-◌, IfSome, None, Some, if◌then◌else◌, map, option_map, string_bytes};
ghost use Rattle.tool_words.specs.Words.{HasPlaces, address_of, places_named, places_of, with_address, with_addresses};

use crate::numbers::number_within;

/// The places of trustees, as one to twelve address words name them.
#[derive(Clone, Copy)]
pub struct Places<'a> {
    /// The address words.
    pub words: &'a [String],
    pub ghost placed: { HasPlaces (places_named (map string_bytes words.now)) },
}

impl<'a> Places<'a> {
    /// The places that one to twelve address words name: none if a word is not an address word, or two have one number.
    pub(crate) fn of(words: &'a [String]) -> Option<Places<'a>>
        ensures { option_map (λ places. places_named (map string_bytes places.words.now)) result
            ≡ places_of (map string_bytes words.now) }
    {
        if words.is_empty() || words.len() > 12 {
            return None;
        }
        let mut places = [None; 12];
        if !fill(&mut places, words) {
            return None;
        }
        Some(Places { words })
    }

    /// The place of trustee t, or none, at t - 1.
    pub fn list(&self) -> [Option<&'a str>; 12]
        ensures { map (option_map (λ place. place.now)) result ≡ places_named (map string_bytes self.now.words.now) }
    {
        let mut places = [None; 12];
        let _complete = fill(&mut places, self.words);
        places
    }
}

/// Adds the places of address words. It gives up at a word that is not an address word, or whose trustee has a place.
fn fill<'a>(places: &mut [Option<&'a str>; 12], words: &'a [String]) -> bool
    ensures { with_addresses (map (option_map (λ place. place.now)) places.old) (map string_bytes words.now)
        ≡ (if result then Some (map (option_map (λ place. place.now)) places.new) else None) }
{
    for word in words {
        if !add(places, word.as_str()) {
            return false;
        }
    }
    true
}

/// Adds the place of an address word, if the word is one and its trustee has no place yet.
fn add<'a>(places: &mut [Option<&'a str>; 12], word: &'a str) -> bool
    ensures { with_address (map (option_map (λ place. place.now)) places.old) word.now
        ≡ (if result then Some (map (option_map (λ place. place.now)) places.new) else None) }
{
    let Some((number, place)) = address_of(word) else {
        return false;
    };
    let slot = number as usize - 1;
    if places[slot].is_some() {
        return false;
    }
    places[slot] = Some(place);
    true
}

/// The number of a trustee and its place, as an address word has them.
fn address_of(word: &str) -> Option<(u32, &str)>
    ensures value { option_map (λ address. (address.0, address.1.now)) result ≡ address_of word.now }
    ensures within { IfSome result (λ address. (1 ≤ address.0) × (address.0 ≤ 12)) }
{
    let (number, place) = word.split_once('=')?;
    if place.is_empty() {
        return None;
    }
    Some((number_within(number, 1, 12)?, place))
}
