//! The notes on an UPDATE, in its body as it was received.

ghost use Rattle.std.specs.Prelude.{◌≡◌};
ghost use Rattle.bgp_paths.specs.Prelude.{shifted};
ghost use Rattle.bgp_text.specs.NoteRow.{note_by, notes_received, received_at, row_left};
ghost use Rattle.bgp_text.specs.Below.{notes_left};

use crate::placed_notes::placed_at;
use bgp_paths::PathShifts;
use bgp_update::{Note, NoteIter};

/// The notes on an UPDATE, at the offsets of its body as it was received: without path identifiers, or by these shifts with them.
#[derive(Clone, Copy)]
pub(crate) struct NoteRow<'a> {
    pub(crate) notes: NoteIter<'a>,
    pub(crate) shifts: Option<PathShifts>,
}

/// The offset as received of a note's attribute.
fn received_at(shifts: &PathShifts, at: u16) -> u16
    ensures { result ≡ received_at (shifted shifts.now) at }
{
    let place = placed_at(shifts, at);
    if place < 65536 {
        place as u16
    } else {
        u16::MAX
    }
}

/// A note at the offset as received.
fn received(shifts: &Option<PathShifts>, note: Note) -> Note
    ensures { result ≡ note_by shifts.now note }
{
    match shifts {
        None => note,
        Some(shifts) => Note {
            at: received_at(shifts, note.at),
            ..note
        },
    }
}

impl<'a> NoteRow<'a> {
    ghost use Rattle.std.specs.Iterator.{YieldsFirst};

    /// Those of an UPDATE without path identifiers.
    pub(crate) fn plain(notes: NoteIter<'a>) -> NoteRow<'a>
        ensures { row_left result ≡ notes_left notes.entry }
    {
        NoteRow {
            notes,
            shifts: None,
        }
    }

    /// Those of the body without path identifiers, by these shifts.
    pub(crate) fn shifted(notes: NoteIter<'a>, shifts: PathShifts) -> NoteRow<'a>
        ensures { row_left result ≡ notes_received (shifted shifts) (notes_left notes.entry) }
    {
        NoteRow {
            notes,
            shifts: Some(shifts),
        }
    }

    /// The next one.
    pub(crate) fn step(&mut self) -> Option<Note>
        ensures { YieldsFirst row_left self.old result self.new }
    {
        let note = self.notes.next()?;
        Some(received(&self.shifts, note))
    }
}
