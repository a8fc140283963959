//! The lines of notes.

ghost use Rattle.std.specs.Prelude.{◌≡◌, ◌++◌, OnOk};
ghost use Rattle.bgp_text.specs.Below.{flat_map, string_bytes, notes_left, notes_value};
ghost use Rattle.bgp_text.specs.NoteLines.{why_name, note_line, note_line_at};
ghost use Rattle.bgp_text.specs.PlacedNotes.{placed_line, placed_notes};
ghost use Rattle.bgp_paths.specs.Prelude.{shifted};

use crate::placed_notes::PlacedNotes;
use crate::source::Source;
use bgp_attr::Why;
use bgp_update::{Note, UpdateView};
use std::alloc::AllocError;

/// The name of a reason, as notes are printed.
pub fn why_name(why: Why) -> &'static str
    ensures { result.now ≡ why_name why }
{
    match why {
        Why::Flags => "Flags",
        Why::Length => "Length",
        Why::Value => "Value",
        Why::SegmentType => "SegmentType",
        Why::SegmentCount => "SegmentCount",
        Why::SegmentEnd => "SegmentEnd",
        Why::Repeated => "Repeated",
        Why::External => "External",
        Why::FourOctet => "FourOctet",
        Why::Family => "Family",
        Why::Unneeded => "Unneeded",
        Why::Emptied => "Emptied",
        Why::Cut => "Cut",
        Why::Missing => "Missing",
        Why::AsZero => "AsZero",
    }
}

fn put_note(text: &mut String, at: u64, note: Note) -> Result<(), AllocError>
    ensures { OnOk result (string_bytes text.new ≡ string_bytes text.old ++ note_line_at at note) }
{
    let kind = note.kind;
    let why = why_name(note.why);
    write!(text, "  note {at} {kind} {why}\n")
}

/// Adds the lines of the notes on an UPDATE.
pub(crate) fn put_notes(text: &mut String, view: &UpdateView<'_>) -> Result<(), AllocError>
    ensures { OnOk result (string_bytes text.new ≡ string_bytes text.old ++ flat_map note_line (notes_value view.now)) }
{
    let mut left = view.notes();
    'row: while let Some(note) = left.next() {
        put_note(text, u64::from(note.at), note)?;
    }
    Ok(())
}

/// Adds the lines of notes at other offsets.
pub(crate) fn put_placed_notes(text: &mut String, notes: PlacedNotes<'_>) -> Result<(), AllocError>
    ensures { OnOk result (string_bytes text.new ≡ string_bytes text.old ++ flat_map placed_line (placed_notes (shifted notes.entry.shifts) (notes_left notes.entry.notes))) }
{
    let mut left = notes;
    'row: while let Some(placed) = left.step() {
        put_note(text, placed.at, placed.note)?;
    }
    Ok(())
}
