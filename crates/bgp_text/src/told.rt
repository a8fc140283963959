//! What is reported at each field of a message: a mark, and what is wrong there.

ghost use Rattle.std.specs.Prelude.{◌≡◌, ◌∷◌, List, Some};
ghost use Rattle.bgp_text.specs.Below.{Field as FieldValue, fields_left};
ghost use Rattle.bgp_text.specs.NoteRow.{row_left};
ghost use Rattle.bgp_text.specs.JsonFields.{faulty_field};
ghost use Rattle.bgp_text.specs.steps.Rows.{noting_fields, noting_left, plain_field, row_of};

use crate::field_lines::{Noting, holds, is_next, note_at, overlaps};
use crate::reasons::{is_in, note_place};
use crate::source::Source;
use bgp_fields::{Cause, Fault, Field, FieldIter};
use bgp_update::Note;
use std::alloc::Global;

/// What is wrong at a field.
#[derive(Clone, Copy)]
pub(crate) enum Wrong {
    /// Nothing is reported there.
    Nothing,
    /// The subject of a note.
    Noted(Note),
    /// The cause of a NOTIFICATION: its code and subcode, and the test that failed.
    Answered(u8, u8, Cause),
}

/// What is reported at a field.
#[derive(Clone, Copy)]
pub(crate) struct Told {
    pub(crate) field: Field,
    /// Whether it is of an attribute with a note, or of the octets that cause a NOTIFICATION.
    pub(crate) marked: bool,
    pub(crate) wrong: Wrong,
}

/// The same, in a message.
#[derive(Clone, Copy)]
pub(crate) struct Shown<'a> {
    pub(crate) alloc: Global,
    pub(crate) message: &'a [u8],
    pub(crate) told: Told,
}

impl<'a> Noting<'a> {
    /// What is reported at the next field.
    #[tactic(auto, using(crate::proofs::ToldFields::tell_none, crate::proofs::ToldFields::tell_note, crate::proofs::ToldFields::leave_none, crate::proofs::ToldFields::leave_note))]
    fn tell(&mut self, message: &[u8], field: &Field) -> Told
        ensures fields { (fields : List FieldValue) → noting_fields message.now self.old (field.now ∷ fields) ≡ result ∷ noting_fields message.now self.new fields }
        ensures left { (fields : List FieldValue) → noting_left message.now self.old (field.now ∷ fields) ≡ noting_left message.now self.new fields }
    {
        let marked = is_next(self.next, field) || is_in(self.place, field.group);
        match note_at(self.next, message, field) {
            Some(note) => {
                self.place = note_place(&note);
                self.next = self.later.step();
                Told {
                    field: *field,
                    marked,
                    wrong: Wrong::Noted(note),
                }
            }
            None => Told {
                field: *field,
                marked,
                wrong: Wrong::Nothing,
            },
        }
    }
}

/// The notes that are reported at none of the fields, the next one removed.
#[tactic(auto, using(crate::proofs::ToldFields::all_left))]
pub(crate) fn behind_fields<'a>(
    message: &[u8],
    noting: Noting<'a>,
    fields: FieldIter<'_>,
) -> Noting<'a>
    ensures { row_of result.next (row_left result.later) ≡ noting_left message.now noting.entry (fields_left fields.entry) }
{
    let mut noting = noting;
    let mut left = fields;
    'fields: while let Some(field) = left.next() {
        noting.tell(message, &field);
    }
    noting
}

/// The fields of an UPDATE, with its notes.
#[derive(Clone, Copy)]
pub(crate) struct NotedFields<'a> {
    pub(crate) alloc: Global,
    pub(crate) message: &'a [u8],
    pub(crate) noting: Noting<'a>,
    pub(crate) fields: FieldIter<'a>,
}

impl<'a> Source for NotedFields<'a> {
    ghost use Rattle.std.specs.Prelude.{map};
    ghost use Rattle.bgp_text.specs.Below.{fields_left};
    ghost use Rattle.bgp_text.specs.steps.Rows.{noting_fields};

    type Item = Shown<'a>;

    ghost left = { λ s. map (λ t. record { alloc = s.alloc; message = s.message; told = t }) (noting_fields s.message.now s.noting (fields_left s.fields)) };

    #[tactic(auto, using(crate::proofs::ToldFields::no_fields))]
    fn step(&mut self) -> Option<Shown<'a>> {
        let field = self.fields.next()?;
        Some(Shown {
            alloc: self.alloc,
            message: self.message,
            told: self.noting.tell(self.message, &field),
        })
    }
}

/// What is reported at a field of a message without notes.
fn plain_field(field: Field) -> Told
    ensures { result ≡ plain_field field }
{
    Told {
        field,
        marked: is_in(0, field.group),
        wrong: Wrong::Nothing,
    }
}

/// The fields of a message without notes.
#[derive(Clone, Copy)]
pub(crate) struct PlainFields<'a> {
    pub(crate) alloc: Global,
    pub(crate) message: &'a [u8],
    pub(crate) fields: FieldIter<'a>,
}

impl<'a> Source for PlainFields<'a> {
    ghost use Rattle.std.specs.Prelude.{map};
    ghost use Rattle.bgp_text.specs.Below.{fields_left};
    ghost use Rattle.bgp_text.specs.steps.Rows.{plain_field};

    type Item = Shown<'a>;

    ghost left = { λ s. map (λ f. record { alloc = s.alloc; message = s.message; told = plain_field f }) (fields_left s.fields) };

    fn step(&mut self) -> Option<Shown<'a>> {
        let field = self.fields.next()?;
        Some(Shown {
            alloc: self.alloc,
            message: self.message,
            told: plain_field(field),
        })
    }
}

/// What is reported at a field of a message with a fault.
fn blamed_field(fault: &Fault, code: u8, subcode: u8, field: Field) -> Told
    ensures { result ≡ faulty_field (Some fault.now) code subcode field }
{
    Told {
        field,
        marked: overlaps(fault.span, &field),
        wrong: if holds(fault.span, &field) {
            Wrong::Answered(code, subcode, fault.cause)
        } else {
            Wrong::Nothing
        },
    }
}

/// What is reported at a field of a message that causes a NOTIFICATION.
fn faulty_field(fault: &Option<Fault>, code: u8, subcode: u8, field: Field) -> Told
    ensures { result ≡ faulty_field fault.now code subcode field }
{
    match fault {
        None => Told {
            field,
            marked: false,
            wrong: Wrong::Nothing,
        },
        Some(fault) => blamed_field(fault, code, subcode, field),
    }
}

/// The fields of a message that causes a NOTIFICATION of this code and subcode.
#[derive(Clone, Copy)]
pub(crate) struct FaultyFields<'a> {
    pub(crate) alloc: Global,
    pub(crate) message: &'a [u8],
    pub(crate) fault: Option<Fault>,
    pub(crate) code: u8,
    pub(crate) subcode: u8,
    pub(crate) fields: FieldIter<'a>,
}

impl<'a> Source for FaultyFields<'a> {
    ghost use Rattle.std.specs.Prelude.{map};
    ghost use Rattle.bgp_text.specs.Below.{fields_left};
    ghost use Rattle.bgp_text.specs.JsonFields.{faulty_field};

    type Item = Shown<'a>;

    ghost left = { λ s. map (λ f. record { alloc = s.alloc; message = s.message; told = faulty_field s.fault s.code s.subcode f }) (fields_left s.fields) };

    fn step(&mut self) -> Option<Shown<'a>> {
        let field = self.fields.next()?;
        Some(Shown {
            alloc: self.alloc,
            message: self.message,
            told: faulty_field(&self.fault, self.code, self.subcode, field),
        })
    }
}
