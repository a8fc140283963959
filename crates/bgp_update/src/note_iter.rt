//! The notes on a message, one after another.

ghost use Rattle.std.specs.Prelude.{◌≡◌, ◌≤◌, [], ◌∷◌, MatchOption, Some, None};
ghost use Rattle.std.specs.List.{flat_map};
ghost use Rattle.bgp_update.specs.MarkIter.{marks_left};
ghost use Rattle.bgp_update.specs.Notes.{mark_notes, missing_notes};

use crate::mark::MarkIter;
use crate::missing::Missing;
use crate::note::Note;
use bgp_attr::{Ruling, Why};
use bgp_numbers::attribute::{AS_PATH, NEXT_HOP, ORIGIN};
use std::iter::FusedIterator;

/// The notes on a message: each attribute that isn't kept, by offset, the one that is cut off, then what is missing. It allocates nothing.
#[derive(Clone, Copy)]
pub struct NoteIter<'a> {
    field_at: usize,
    marks: MarkIter<'a>,
    missing: Missing,
    ghost short: { field_at ≤ 4077 },
}

impl<'a> NoteIter<'a> {
    ghost use Rattle.std.specs.Prelude.{◌++◌};
    ghost use Rattle.bgp_update.specs.Iters.{notes_left};

    /// The notes of these marks of a field at this offset, and of what is missing.
    pub(crate) fn new(field_at: usize, marks: MarkIter<'a>, missing: Missing) -> NoteIter<'a>
        requires { field_at ≤ 4077 }
        ensures { notes_left result ≡ flat_map (mark_notes field_at) (marks_left marks.entry) ++ missing_notes missing }
    {
        NoteIter {
            field_at,
            marks,
            missing,
        }
    }
}

/// The first note of marks of a field at this offset: the marks after it are left.
#[inline(always)]
fn first_note(field_at: usize, marks: &mut MarkIter<'_>) -> Option<Note>
    requires { field_at ≤ 4077 }
    ensures { MatchOption result ((flat_map (mark_notes field_at) (marks_left marks.old) ≡ []) × (flat_map (mark_notes field_at) (marks_left marks.new) ≡ []))
        (λ n. flat_map (mark_notes field_at) (marks_left marks.old) ≡ n ∷ flat_map (mark_notes field_at) (marks_left marks.new)) }
{
    'field: while let Some(mark) = marks.next_ruled() {
        if let Ruling::Discard(why) | Ruling::Withdraw(why) = mark.ruling {
            return Some(Note {
                at: (field_at + mark.at) as u16,
                kind: mark.kind,
                why,
            });
        }
    }
    None
}

/// The first of what is missing, which is cleared.
fn first_missing(missing: &mut Missing) -> Option<Note>
    ensures { MatchOption result ((missing_notes missing.old ≡ []) × (missing_notes missing.new ≡ []))
        (λ n. missing_notes missing.old ≡ n ∷ missing_notes missing.new) }
{
    let kind = if missing.origin {
        missing.origin = false;
        ORIGIN
    } else if missing.as_path {
        missing.as_path = false;
        AS_PATH
    } else if missing.next_hop {
        missing.next_hop = false;
        NEXT_HOP
    } else {
        return None;
    };
    Some(Note {
        at: 0,
        kind,
        why: Why::Missing,
    })
}

impl<'a> Iterator for NoteIter<'a> {
    ghost use Rattle.std.specs.Iterator.{YieldsFirst, item_count};
    ghost use Rattle.bgp_update.specs.Iters.{notes_left};

    type Item = Note;

    ghost next_gives = { YieldsFirst notes_left };

    ghost remaining = { item_count notes_left };

    fn next(&mut self) -> Option<Note> {
        if let Some(note) = first_note(self.field_at, &mut self.marks) {
            return Some(note);
        }
        first_missing(&mut self.missing)
    }
}

impl<'a> FusedIterator for NoteIter<'a> {}
