//! Lists of attribute types that aren't recognised.

ghost use Rattle.std.specs.Prelude.{◌≡◌, map, option_map, IfOk};
ghost use Rattle.bgp_wire.specs.Prelude.{has_octet};
ghost use Rattle.bgp_words.specs.TypeList.{all_but, octet_of, type_of, types_of, words_of};

use bgp_attr::is_recognised;
use bgp_numbers::attribute;
use bgp_wire::OctetSet;
use std::alloc::{AllocError, Global};

// The words between the commas of a list.
fn words_of<'a>(alloc: Global, list: &'a str) -> Result<Vec<&'a str>, AllocError>
    ensures { IfOk result (λ words. map (λ word. word.now) words.items ≡ words_of list.now) }
{
    list.split(',').collect(alloc)
}

// The number of decimal digits, if there is no other character and it is at most 255.
fn octet_of(word: &str) -> Option<u8>
    ensures { result ≡ octet_of word.now }
{
    if word.starts_with('+') {
        return None;
    }
    word.parse::<u8>().ok()
}

// The type that a word names, if that isn't recognised.
fn type_of(word: &str) -> Option<u8>
    ensures { result ≡ type_of word.now }
{
    match octet_of(word) {
        Some(kind) if !is_recognised(kind) => Some(kind),
        _ => None,
    }
}

/// The types of a list, if it is valid.
pub fn types_of(alloc: Global, list: &str) -> Result<Option<OctetSet>, AllocError>
    ensures { IfOk result (λ types. option_map has_octet types ≡ types_of list.now) }
{
    let words = words_of(alloc, list)?;
    let mut types = OctetSet::new();
    'words: for word in words.iter() {
        match type_of(word) {
            Some(kind) => types.insert(kind),
            None => return Ok(None),
        }
    }
    Ok(Some(types))
}

/// What is wrong with the first faulty word of a list.
pub fn list_fault(alloc: Global, list: &str) -> Result<String, AllocError> {
    for word in list.split(',') {
        match octet_of(word) {
            None => return format!(in alloc; "'{word}' is no number from 0 to 255"),
            Some(kind) if is_recognised(kind) => {
                return format!(in alloc; "type {kind} is recognised");
            }
            Some(_) => {}
        }
    }
    format!(in alloc; "it is no list of types")
}

/// Every type that isn't recognised, except these.
pub fn all_but(types: OctetSet) -> OctetSet
    ensures { has_octet result ≡ all_but (has_octet types) }
{
    // The recognised ones too, from the last row of their table to the first.
    let mut kept = types;
    kept.insert(attribute::LARGE_COMMUNITY);
    kept.insert(attribute::AS4_AGGREGATOR);
    kept.insert(attribute::AS4_PATH);
    kept.insert(attribute::MP_UNREACH_NLRI);
    kept.insert(attribute::MP_REACH_NLRI);
    kept.insert(attribute::COMMUNITIES);
    kept.insert(attribute::AGGREGATOR);
    kept.insert(attribute::ATOMIC_AGGREGATE);
    kept.insert(attribute::LOCAL_PREF);
    kept.insert(attribute::MULTI_EXIT_DISC);
    kept.insert(attribute::NEXT_HOP);
    kept.insert(attribute::AS_PATH);
    kept.insert(attribute::ORIGIN);
    kept.others()
}
