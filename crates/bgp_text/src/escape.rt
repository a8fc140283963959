//! Text from a peer, as a string that is safe for a terminal and for a reader of JSON.

ghost use Rattle.std.specs.Prelude.{◌≡◌, ◌<◌, ◌++◌, codes, OnOk};
ghost use Rattle.bgp_text.specs.Below.{flat_map, chars, string_bytes, hex_octet};
ghost use Rattle.bgp_text.specs.Escape.{escaped, escaped_string};

use crate::json::put_octet;
use std::alloc::AllocError;

/// Adds the number of a control character.
fn put_control(text: &mut String, number: u8) -> Result<(), AllocError>
    ensures { OnOk result (string_bytes text.new ≡ string_bytes text.old ++ (codes "\\u00" ++ hex_octet number)) }
{
    text.push_str("\\u00")?;
    put_octet(text, number)
}

/// Adds a character, escaped if necessary.
fn put_character(text: &mut String, c: char) -> Result<(), AllocError>
    ensures { OnOk result (string_bytes text.new ≡ string_bytes text.old ++ escaped c) }
{
    match c {
        '"' => text.push_str("\\\""),
        '\\' => text.push_str("\\\\"),
        c if c.is_control() => put_control(text, u32::from(c) as u8),
        c => text.push(c),
    }
}

/// Adds characters, escaped if necessary.
fn put_characters(text: &mut String, told: &str) -> Result<(), AllocError>
    ensures { OnOk result (string_bytes text.new ≡ string_bytes text.old ++ flat_map escaped (chars told.now)) }
{
    for c in told.chars() {
        put_character(text, c)?;
    }
    Ok(())
}

/// Adds text as a string in quotation marks.
#[tactic(auto, unfolding(crate::specs::Escape::escaped_string))]
pub(crate) fn put_escaped(text: &mut String, told: &str) -> Result<(), AllocError>
    ensures { OnOk result (string_bytes text.new ≡ string_bytes text.old ++ escaped_string told.now) }
{
    text.push_str("\"")?;
    put_characters(text, told)?;
    text.push_str("\"")
}
