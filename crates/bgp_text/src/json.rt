//! Parts of JSON text.

ghost use Rattle.std.specs.Prelude.{◌≡◌, ◌+◌, ◌≤◌, ◌++◌, codes, OnOk};
ghost use Rattle.bgp_text.specs.Below.{decimal, flat_map, string_bytes, hex_octet};
ghost use Rattle.bgp_text.specs.Json.{quoted, octets_json, boolean, named, member, line_end, where_named, where_said};

use crate::escape::put_escaped;
use crate::short::{Decimal, Short, put_one};
use crate::word::Word;
use std::alloc::AllocError;

/// Adds a string of characters that need no escape.
#[tactic(auto, unfolding(crate::specs::Json::quoted))]
pub(crate) fn put_quoted(text: &mut String, characters: &str) -> Result<(), AllocError>
    ensures { OnOk result (string_bytes text.new ≡ string_bytes text.old ++ quoted characters.now) }
{
    text.push_str("\"")?;
    text.push_str(characters)?;
    text.push_str("\"")
}

/// Adds a short value as a string whose text needs no escape.
#[tactic(auto, unfolding(crate::specs::Json::quoted))]
#[inline(always)]
pub(crate) fn put_string<T: Short>(text: &mut String, value: T) -> Result<(), AllocError>
    requires { T.most + 4 ≤ 72 }
    ensures { OnOk result (string_bytes text.new ≡ string_bytes text.old ++ quoted (T.text value)) }
{
    let mut word = Word::new();
    word.character(b'"');
    value.put(&mut word);
    word.character(b'"');
    text.push_str(word.text())
}

/// Adds a number.
pub(crate) fn put_decimal(text: &mut String, number: u32) -> Result<(), AllocError>
    ensures { OnOk result (string_bytes text.new ≡ string_bytes text.old ++ decimal number) }
{
    put_one(text, Decimal(number))
}

/// Adds an octet's two digits.
pub(crate) fn put_octet(text: &mut String, octet: u8) -> Result<(), AllocError>
    ensures { OnOk result (string_bytes text.new ≡ string_bytes text.old ++ hex_octet octet) }
{
    let mut word = Word::new();
    word.hex_octet(octet);
    text.push_str(word.text())
}

/// Adds the digits of octets.
pub(crate) fn put_digits(text: &mut String, octets: &[u8]) -> Result<(), AllocError>
    ensures { OnOk result (string_bytes text.new ≡ string_bytes text.old ++ flat_map hex_octet octets.now) }
{
    for octet in octets {
        put_octet(text, *octet)?;
    }
    Ok(())
}

/// Adds octets as a string of hexadecimal digits.
#[tactic(auto, unfolding(crate::specs::Json::octets_json, crate::specs::Json::quoted))]
pub(crate) fn put_octets(text: &mut String, octets: &[u8]) -> Result<(), AllocError>
    ensures { OnOk result (string_bytes text.new ≡ string_bytes text.old ++ octets_json octets.now) }
{
    text.push_str("\"")?;
    put_digits(text, octets)?;
    text.push_str("\"")
}

/// Adds the name of a further member, after a comma.
#[tactic(auto, unfolding(crate::specs::Json::named))]
pub(crate) fn put_name(text: &mut String, name: &str) -> Result<(), AllocError>
    ensures { OnOk result (string_bytes text.new ≡ string_bytes text.old ++ named name.now) }
{
    text.push_str(",\"")?;
    text.push_str(name)?;
    text.push_str("\":")
}

/// Adds a member that is a number.
pub(crate) fn put_number_member(
    text: &mut String,
    name: &str,
    number: u32,
) -> Result<(), AllocError>
    ensures { OnOk result (string_bytes text.new ≡ string_bytes text.old ++ member name.now decimal number) }
{
    put_name(text, name)?;
    put_decimal(text, number)
}

/// Adds a member that is a string.
pub(crate) fn put_word_member(
    text: &mut String,
    name: &str,
    characters: &str,
) -> Result<(), AllocError>
    ensures { OnOk result (string_bytes text.new ≡ string_bytes text.old ++ member name.now quoted characters.now) }
{
    put_name(text, name)?;
    put_quoted(text, characters)
}

/// Adds a member that is a string, unless it is empty.
#[tactic(auto, unfolding(crate::specs::Json::where_named))]
pub(crate) fn put_name_member(
    text: &mut String,
    name: &str,
    characters: &str,
) -> Result<(), AllocError>
    ensures { OnOk result (string_bytes text.new ≡ string_bytes text.old ++ where_named name.now characters.now) }
{
    if characters.is_empty() {
        return Ok(());
    }
    put_word_member(text, name, characters)
}

/// Adds a member that is text from a peer, unless it is empty.
#[tactic(auto, unfolding(crate::specs::Json::where_said))]
pub(crate) fn put_said_member(text: &mut String, name: &str, said: &str) -> Result<(), AllocError>
    ensures { OnOk result (string_bytes text.new ≡ string_bytes text.old ++ where_said name.now said.now) }
{
    if said.is_empty() {
        return Ok(());
    }
    put_name(text, name)?;
    put_escaped(text, said)
}

/// Adds a member that is octets.
pub(crate) fn put_octets_member(
    text: &mut String,
    name: &str,
    octets: &[u8],
) -> Result<(), AllocError>
    ensures { OnOk result (string_bytes text.new ≡ string_bytes text.old ++ member name.now octets_json octets.now) }
{
    put_name(text, name)?;
    put_octets(text, octets)
}

/// The word for a truth value.
fn boolean(is_so: bool) -> &'static str
    ensures { result.now ≡ boolean is_so }
{
    if is_so { "true" } else { "false" }
}

/// Adds a member that is a truth value.
pub(crate) fn put_flag_member(text: &mut String, name: &str, is_so: bool) -> Result<(), AllocError>
    ensures { OnOk result (string_bytes text.new ≡ string_bytes text.old ++ member name.now boolean is_so) }
{
    put_name(text, name)?;
    text.push_str(boolean(is_so))
}

/// Adds the end of an object.
pub(crate) fn put_object_end(text: &mut String) -> Result<(), AllocError>
    ensures { OnOk result (string_bytes text.new ≡ string_bytes text.old ++ codes "}") }
{
    text.push_str("}")
}

/// Adds the end of an object and of its line.
pub(crate) fn put_line_end(text: &mut String) -> Result<(), AllocError>
    ensures { OnOk result (string_bytes text.new ≡ string_bytes text.old ++ line_end) }
{
    text.push_str("}\n")
}
