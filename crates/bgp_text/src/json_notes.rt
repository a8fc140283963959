//! Notes as JSON.

ghost use Rattle.std.specs.Prelude.{◌≡◌, ◌++◌, OnOk};
ghost use Rattle.bgp_text.specs.Below.{string_bytes, notes_value};
ghost use Rattle.bgp_text.specs.JsonNotes.{note_json_at, notes_member};

use crate::json::{put_name_member, put_number_member, put_word_member};
use crate::json_list::{Element, put_list_member};
use crate::note_lines::why_name;
use crate::placed_notes::PlacedNote;
use crate::short::{Decimal, put_one};
use bgp_names::attribute_name;
use bgp_update::{Note, UpdateView};
use std::alloc::AllocError;

/// Adds a note on an attribute at this offset.
#[tactic(auto, unfolding(crate::specs::JsonNotes::note_json_at))]
fn put_note(text: &mut String, at: u64, note: &Note) -> Result<(), AllocError>
    ensures { OnOk result (string_bytes text.new ≡ string_bytes text.old ++ note_json_at at note.now) }
{
    text.push_str("{\"at\":")?;
    put_one(text, Decimal(at))?;
    put_number_member(text, "type", u32::from(note.kind))?;
    put_name_member(text, "name", attribute_name(note.kind))?;
    put_word_member(text, "why", why_name(note.why))?;
    text.push_str("}")
}

impl Element for Note {
    ghost use Rattle.bgp_text.specs.JsonNotes.{note_json};

    ghost json = { note_json };

    fn put_json(&self, text: &mut String) -> Result<(), AllocError> {
        put_note(text, u64::from(self.at), self)
    }
}

impl Element for PlacedNote {
    ghost use Rattle.bgp_text.specs.JsonPaths.{placed_json};

    ghost json = { placed_json };

    fn put_json(&self, text: &mut String) -> Result<(), AllocError> {
        put_note(text, self.at, &self.note)
    }
}

/// Adds the notes on an UPDATE.
pub(crate) fn put_notes_member(text: &mut String, view: &UpdateView<'_>) -> Result<(), AllocError>
    ensures { OnOk result (string_bytes text.new ≡ string_bytes text.old ++ notes_member (notes_value view.now)) }
{
    put_list_member(text, "notes", view.notes())
}
