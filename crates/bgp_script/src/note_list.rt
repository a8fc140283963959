//! The NOTIFICATIONs of one side, as a list in a line.

ghost use Rattle.std.specs.Prelude.{◌≡◌, ◌++◌, OnOk, codes};
ghost use Rattle.std.specs.Fmt.{decimal};
ghost use Rattle.std.specs.String.{string_bytes};
ghost use Rattle.bgp_script.specs.NoteList.{side_name, is_same, mark_of, own_notes, notes_text};

use bgp_session::Side;
use std::alloc::AllocError;

/// The name of a side, as scripts and reports have it.
pub fn side_name(side: Side) -> &'static str
    ensures { result.now ≡ side_name side }
{
    match side {
        Side::A => "a",
        Side::B => "b",
    }
}

fn is_same(side: Side, other: Side) -> bool
    ensures { result ≡ is_same side other }
{
    match (side, other) {
        (Side::A, Side::A) | (Side::B, Side::B) => true,
        (Side::A, Side::B) | (Side::B, Side::A) => false,
    }
}

// Adds a NOTIFICATION, after a comma if it isn't the first.
fn put_note(text: &mut String, is_first: bool, code: u8, subcode: u8) -> Result<(), AllocError>
    ensures { OnOk result (string_bytes text.new ≡ string_bytes text.old ++ (mark_of is_first ++ (decimal code ++ (codes "/" ++ decimal subcode)))) }
{
    let mark = if is_first { "" } else { "," };
    write!(text, "{mark}{code}/{subcode}")
}

/// Adds the NOTIFICATIONs that this side sent, joined by commas: a dash if there is none.
pub(crate) fn put_notes(
    text: &mut String,
    side: Side,
    notes: &[(Side, u8, u8)],
) -> Result<(), AllocError>
    ensures { OnOk result (string_bytes text.new ≡ string_bytes text.old ++ notes_text (own_notes side notes.now)) }
{
    let mut is_first = true;
    'notes: for note in notes {
        let (sender, code, subcode) = *note;
        if is_same(sender, side) {
            put_note(text, is_first, code, subcode)?;
            is_first = false;
        }
    }
    if is_first {
        text.push_str("-")?;
    }
    Ok(())
}
