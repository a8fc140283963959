//! Notes at the offsets of the body as it was received, where its routes have path identifiers.

ghost use Rattle.std.specs.Prelude.{◌≡◌};
ghost use Rattle.bgp_paths.specs.Prelude.{shifted};
ghost use Rattle.bgp_text.specs.PlacedNotes.{placed_at};

use crate::source::Source;
use bgp_paths::PathShifts;
use bgp_update::{Note, NoteIter};

/// A note, and the offset of its attribute.
#[derive(Clone, Copy)]
pub(crate) struct PlacedNote {
    pub(crate) note: Note,
    pub(crate) at: u64,
}

/// The notes on a body without path identifiers, at the offsets of the body with them.
#[derive(Clone, Copy)]
pub(crate) struct PlacedNotes<'a> {
    pub(crate) notes: NoteIter<'a>,
    pub(crate) shifts: PathShifts,
}

/// The offset as received of a note's attribute.
pub(crate) fn placed_at(shifts: &PathShifts, at: u16) -> u64
    ensures { result ≡ placed_at (shifted shifts.now) at }
{
    if at == 0 {
        return 0;
    }
    shifts.place(usize::from(at)) as u64
}

impl<'a> Source for PlacedNotes<'a> {
    ghost use Rattle.bgp_paths.specs.Prelude.{shifted};
    ghost use Rattle.bgp_text.specs.Below.{notes_left};
    ghost use Rattle.bgp_text.specs.PlacedNotes.{placed_notes};

    type Item = PlacedNote;

    ghost left = { λ s. placed_notes (shifted s.shifts) (notes_left s.notes) };

    fn step(&mut self) -> Option<PlacedNote> {
        let note = self.notes.step()?;
        let at = placed_at(&self.shifts, note.at);
        Some(PlacedNote { note, at })
    }
}
