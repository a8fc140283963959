//! Octets as rows write them: pairs of digits; `M` for a Marker; `3*080a` for a repetition; a name that the file defines.

use crate::row::{Row, split_word};
use crate::trouble::Trouble;
use arrayvec::ArrayVec;

/// The octets of a row. They allocate nothing, so that a row can be tried with each allocation failing in turn.
pub type Octets = ArrayVec<u8, 16384>;

const TOO_MANY: Trouble = Trouble::Row("more than 16384 octets");

const NO_OCTETS: Trouble = Trouble::Row(
    "octets that aren't pairs of digits, M, or a name of this file",
);

/// The octet of two digits.
fn pair_of(pair: &[u8]) -> Option<u8> {
    let [high, low] = pair else {
        return None;
    };
    let high = char::from(*high).to_digit(16)?;
    let low = char::from(*low).to_digit(16)?;
    u8::try_from(high.wrapping_mul(16).wrapping_add(low)).ok()
}

/// Adds the octets of digits.
fn add_digits(digits: &str, octets: &mut Octets) -> Result<(), Trouble> {
    for pair in digits.as_bytes().chunks(2) {
        let octet = pair_of(pair).ok_or(NO_OCTETS)?;
        if octets.try_push(octet).is_err() {
            return Err(TOO_MANY);
        }
    }
    Ok(())
}

/// Adds a Marker.
fn add_marker(octets: &mut Octets) -> Result<(), Trouble> {
    if octets.try_extend_from_slice(&[255; 16]).is_err() {
        return Err(TOO_MANY);
    }
    Ok(())
}

/// Adds the octets of digits a number of times.
fn add_repeated(count: &str, digits: &str, octets: &mut Octets) -> Result<(), Trouble> {
    let Ok(count) = count.parse::<u16>() else {
        return Err(NO_OCTETS);
    };
    for _ in 0..count {
        add_digits(digits, octets)?;
    }
    Ok(())
}

/// Adds the octets of a word that isn't a name.
fn add_word(word: &str, octets: &mut Octets) -> Result<(), Trouble> {
    if word == "M" {
        return add_marker(octets);
    }
    match word.split_once('*') {
        Some((count, digits)) => add_repeated(count, digits, octets),
        None => add_digits(word, octets),
    }
}

/// Adds the octets of words that aren't names.
fn add_plain(words: &str, octets: &mut Octets) -> Result<(), Trouble> {
    for word in words.split_whitespace() {
        add_word(word, octets)?;
    }
    Ok(())
}

/// The octets that the file defines for a name, in a line `name NAME OCTETS`.
fn named<'a>(file: &'a str, name: &str) -> Option<&'a str> {
    for line in file.split('\n') {
        if let Some(line) = line.strip_prefix("name ") {
            let (first, octets) = split_word(line);
            if first == name {
                return Some(octets);
            }
        }
    }
    None
}

/// Adds the octets of words.
pub fn add_octets(row: &Row<'_>, words: &str, octets: &mut Octets) -> Result<(), Trouble> {
    for word in words.split_whitespace() {
        match named(row.file, word) {
            Some(words) => add_plain(words, octets)?,
            None => add_word(word, octets)?,
        }
    }
    Ok(())
}

/// Adds the octets of a row's lines `octets`.
pub fn add_given(row: &Row<'_>, octets: &mut Octets) -> Result<(), Trouble> {
    for line in row.given.split('\n') {
        if let Some(words) = line.strip_prefix("octets ") {
            add_octets(row, words, octets)?;
        }
    }
    Ok(())
}
