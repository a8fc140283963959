//! The object of a stream's end.

ghost use Rattle.std.specs.Prelude.{◌≡◌, ◌++◌, OnOk};
ghost use Rattle.bgp_text.specs.Below.{string_bytes};
ghost use Rattle.bgp_frame.specs.declared.end.End.TheVariants.{Wait};
ghost use Rattle.bgp_text.specs.Json.{line_end};
ghost use Rattle.bgp_text.specs.JsonEnd.{ended, end_json};

use crate::json::{put_line_end, put_number_member, put_quoted, put_word_member};
use bgp_frame::End;
use std::alloc::AllocError;

/// Adds the beginning of the object: the word that says how the stream ended.
#[tactic(auto, unfolding(crate::specs::JsonEnd::ended))]
fn put_ended(text: &mut String, word: &str) -> Result<(), AllocError>
    ensures { OnOk result (string_bytes text.new ≡ string_bytes text.old ++ ended word.now) }
{
    text.push_str("{\"kind\":")?;
    put_quoted(text, "END")?;
    put_word_member(text, "end", word)
}

/// Adds the whole object, where it has no number.
fn put_over(text: &mut String, word: &str) -> Result<(), AllocError>
    ensures { OnOk result (string_bytes text.new ≡ string_bytes text.old ++ (ended word.now ++ line_end)) }
{
    put_ended(text, word)?;
    put_line_end(text)
}

/// Adds the object of a stream that ends with this number of octets of an incomplete message.
fn put_waiting(text: &mut String, count: u16) -> Result<(), AllocError>
    ensures { OnOk result (string_bytes text.new ≡ string_bytes text.old ++ end_json (Wait count)) }
{
    put_ended(text, "wait")?;
    put_number_member(text, "octets", u32::from(count))?;
    put_line_end(text)
}

/// Adds how a stream ended, as a JSON object on a line.
///
/// # Errors
/// `AllocError` where an allocation failed.
pub fn put_end_json(text: &mut String, end: End) -> Result<(), AllocError>
    ensures { OnOk result (string_bytes text.new ≡ string_bytes text.old ++ end_json end) }
{
    match end {
        End::Reset => put_over(text, "reset"),
        End::Head => put_over(text, "head"),
        End::Wait(count) => put_waiting(text, count),
    }
}
