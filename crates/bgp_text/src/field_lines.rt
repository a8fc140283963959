//! The lines of a message's fields.

ghost use Rattle.std.specs.Prelude.{◌≡◌, ◌≤◌, Some, ◌++◌, [], ◌∷◌, ℕ, List, true, codes, length, OnOk};
ghost use Rattle.bgp_text.specs.Below.{flat_map, string_bytes, hex_octet, attribute_name};
ghost use Rattle.bgp_text.specs.Below.{notification_of_view, fields_left, Field as FieldValue};
ghost use Rattle.bgp_text.specs.NoteRow.{row_left};
ghost use Rattle.bgp_text.specs.steps.Rows.{is_next, row_of, note_at, noting_lines, plain_line};
ghost use Rattle.bgp_text.specs.FieldLines.{margin, field_said, field_text, field_line, type_text, wanted_text, note_reason, reason_place, reason_line, unplaced_line, noted_lines, answer_text, reset_reason, overlaps, holds, faulty_line};

use crate::details::{code_of, put_detail};
use crate::field_names::field_name;
use crate::field_values::{part, put_spaced, put_value};
use crate::json::put_digits;
use crate::note_lines::why_name;
use crate::note_row::NoteRow;
use crate::reasons::{cause_wanted, is_at, is_in, is_of, note_place, note_wanted};
use crate::sections::{cause_section, note_section};
use crate::short::{Decimal, put_one};
use bgp_fields::{Cause, Fault, Field, FieldIter, Span};
use bgp_frame::NotificationView;
use bgp_names::{attribute_name, subcode_name};
use bgp_update::Note;
use std::alloc::AllocError;

/// The beginning of a line: marked where a fault is.
fn margin(marked: bool) -> &'static str
    ensures { result.now ≡ margin marked }
{
    if marked { "  > " } else { "    " }
}

/// Adds the value of a field.
pub(crate) fn put_said(text: &mut String, message: &[u8], field: &Field) -> Result<(), AllocError>
    ensures { OnOk result (string_bytes text.new ≡ string_bytes text.old ++ field_said message.now field.now) }
{
    let octets = part(message, usize::from(field.at), usize::from(field.len));
    put_value(text, message, field.kind, octets)?;
    put_detail(text, code_of(field.group), field.kind, octets)
}

/// Adds a field: its offset in the message, its octets, its name and its value.
#[tactic(auto, unfolding(crate::specs::FieldLines::field_text))]
fn put_field(
    text: &mut String,
    marked: bool,
    message: &[u8],
    field: &Field,
) -> Result<(), AllocError>
    ensures { OnOk result (string_bytes text.new ≡ string_bytes text.old ++ field_text marked message.now field.now) }
{
    let octets = part(message, usize::from(field.at), usize::from(field.len));
    text.push_str(margin(marked))?;
    put_one(text, Decimal(field.at))?;
    text.push_str(" ")?;
    put_digits(text, octets)?;
    text.push_str(" ")?;
    text.push_str(field_name(field.kind))?;
    put_said(text, message, field)
}

/// Adds the line of a field.
fn put_plain(
    text: &mut String,
    marked: bool,
    message: &[u8],
    field: &Field,
) -> Result<(), AllocError>
    ensures { OnOk result (string_bytes text.new ≡ string_bytes text.old ++ field_line marked message.now field.now) }
{
    put_field(text, marked, message, field)?;
    text.push_str("\n")
}

/// Adds an attribute by name, else by its type.
fn put_type(text: &mut String, kind: u8) -> Result<(), AllocError>
    ensures { OnOk result (string_bytes text.new ≡ string_bytes text.old ++ type_text kind (attribute_name kind)) }
{
    let name = attribute_name(kind);
    if name.is_empty() {
        text.push_str("type ")?;
        return put_one(text, Decimal(kind));
    }
    text.push_str(name)
}

/// Adds what was expected, and by which rule.
fn put_wanted(text: &mut String, wanted: &str, section: &str) -> Result<(), AllocError>
    ensures { OnOk result (string_bytes text.new ≡ string_bytes text.old ++ wanted_text wanted.now section.now) }
{
    text.push_str(": expected ")?;
    text.push_str(wanted)?;
    text.push_str(" (")?;
    text.push_str(section)?;
    text.push_str(")")
}

/// Adds why an attribute isn't kept, and by which rule.
pub(crate) fn put_note_reason(text: &mut String, note: &Note) -> Result<(), AllocError>
    ensures { OnOk result (string_bytes text.new ≡ string_bytes text.old ++ note_reason note.now) }
{
    put_type(text, note.kind)?;
    text.push_str(" ")?;
    text.push_str(why_name(note.why))?;
    put_wanted(
        text,
        note_wanted(note.kind, note.why),
        note_section(note.kind, note.why),
    )
}

/// Adds the beginning of a reason's line: its offset.
fn put_place(text: &mut String, at: u16) -> Result<(), AllocError>
    ensures { OnOk result (string_bytes text.new ≡ string_bytes text.old ++ reason_place at) }
{
    text.push_str("  ! ")?;
    put_one(text, Decimal(at))?;
    text.push_str(" ")
}

/// Adds a field at which a note is reported, with the marks of its attribute.
fn put_noted(
    text: &mut String,
    marked: bool,
    message: &[u8],
    note: &Note,
    field: &Field,
) -> Result<(), AllocError>
    ensures { OnOk result (string_bytes text.new ≡ string_bytes text.old ++ (reason_line field.now.at (note_reason note.now) ++ field_line marked message.now field.now)) }
{
    put_place(text, field.at)?;
    put_note_reason(text, note)?;
    text.push_str("\n")?;
    put_plain(text, marked, message, field)
}

/// Adds a note on an attribute that is missing.
fn put_unplaced(text: &mut String, note: &Note) -> Result<(), AllocError>
    ensures { OnOk result (string_bytes text.new ≡ string_bytes text.old ++ unplaced_line note.now) }
{
    text.push_str("  ! ")?;
    put_note_reason(text, note)?;
    text.push_str("\n")
}

/// The lines of notes that have no field: those of a row whose first one was removed.
fn put_unplaced_row(
    text: &mut String,
    first: Option<Note>,
    later: NoteRow<'_>,
) -> Result<(), AllocError>
    ensures { OnOk result (string_bytes text.new ≡ string_bytes text.old ++ flat_map unplaced_line (row_of first (row_left later.entry))) }
{
    let mut next = first;
    let mut left = later;
    'row: while let Some(note) = next {
        put_unplaced(text, &note)?;
        next = left.step();
    }
    Ok(())
}

/// Notes in their order, the next one removed, and the offset of the attribute of the last one: 0 before the first one.
#[derive(Clone, Copy)]
pub(crate) struct Noting<'a> {
    pub(crate) next: Option<Note>,
    pub(crate) later: NoteRow<'a>,
    pub(crate) place: u32,
}

/// The next note, if it is reported at a field.
pub(crate) fn note_at(next: Option<Note>, message: &[u8], field: &Field) -> Option<Note>
    ensures { result ≡ note_at next message.now field.now }
{
    match next {
        Some(note) if is_at(message, &note, field) => Some(note),
        _ => None,
    }
}

/// Whether a field is of the attribute that the next note is about.
pub(crate) fn is_next(next: Option<Note>, field: &Field) -> bool
    ensures { result ≡ is_next next field.now }
{
    match next {
        Some(note) => is_of(&note, field),
        None => false,
    }
}

impl<'a> Noting<'a> {
    /// Before all notes.
    pub(crate) fn new(notes: NoteRow<'a>) -> Noting<'a>
        ensures row { row_of result.next (row_left result.later) ≡ row_left notes.entry }
        ensures place { result.place ≡ 0 }
        ensures lines { (message : List ℕ) (fields : List FieldValue) → noting_lines message result fields ≡ noted_lines message 0 (row_left notes.entry) fields }
    {
        let mut later = notes;
        let next = later.step();
        Noting {
            next,
            later,
            place: 0,
        }
    }

    /// Adds the lines of the next field.
    #[tactic(auto, using(crate::proofs::FieldLines::put_none, crate::proofs::FieldLines::put_note))]
    fn put(&mut self, text: &mut String, message: &[u8], field: &Field) -> Result<(), AllocError>
        ensures { OnOk result ((fields : List FieldValue) → string_bytes text.new ++ noting_lines message.now self.new fields
            ≡ string_bytes text.old ++ noting_lines message.now self.old (field.now ∷ fields)) }
    {
        let marked = is_next(self.next, field) || is_in(self.place, field.group);
        match note_at(self.next, message, field) {
            Some(note) => {
                put_noted(text, marked, message, &note, field)?;
                self.place = note_place(&note);
                self.next = self.later.step();
                Ok(())
            }
            None => put_plain(text, marked, message, field),
        }
    }
}

/// Adds the lines of fields, with each note above the field where it is reported.
#[tactic(auto, using(crate::proofs::FieldLines::at_end))]
pub(crate) fn put_noted_fields(
    text: &mut String,
    message: &[u8],
    notes: NoteRow<'_>,
    fields: FieldIter<'_>,
) -> Result<(), AllocError>
    ensures { OnOk result (string_bytes text.new ≡ string_bytes text.old ++ noted_lines message.now 0 (row_left notes.entry) (fields_left fields.entry)) }
{
    let mut noting = Noting::new(notes);
    let mut left = fields;
    'fields: while let Some(field) = left.next() {
        noting.put(text, message, &field)?;
    }
    put_unplaced_row(text, noting.next, noting.later)
}

/// Adds the lines of fields of a message without notes.
pub(crate) fn put_plain_fields(
    text: &mut String,
    message: &[u8],
    fields: FieldIter<'_>,
) -> Result<(), AllocError>
    ensures { OnOk result (string_bytes text.new ≡ string_bytes text.old ++ flat_map (plain_line message.now) (fields_left fields.entry)) }
{
    let mut left = fields;
    'fields: while let Some(field) = left.next() {
        put_plain(text, is_in(0, field.group), message, &field)?;
    }
    Ok(())
}

/// Adds the code and the subcode of a NOTIFICATION, and its name.
fn put_answer(text: &mut String, code: u8, subcode: u8) -> Result<(), AllocError>
    ensures { OnOk result (string_bytes text.new ≡ string_bytes text.old ++ answer_text code subcode) }
{
    put_one(text, Decimal(code))?;
    text.push_str("/")?;
    put_one(text, Decimal(subcode))?;
    put_spaced(text, subcode_name(code, subcode))
}

/// Adds the NOTIFICATION that a message causes, what was expected, and by which rule.
pub(crate) fn put_reset_reason(
    text: &mut String,
    code: u8,
    subcode: u8,
    cause: Cause,
) -> Result<(), AllocError>
    ensures { OnOk result (string_bytes text.new ≡ string_bytes text.old ++ reset_reason code subcode cause) }
{
    put_answer(text, code, subcode)?;
    put_wanted(text, cause_wanted(cause, subcode), cause_section(cause))
}

/// Whether a field and a span overlap.
pub(crate) fn overlaps(span: Span, field: &Field) -> bool
    ensures { result ≡ overlaps span field.now }
{
    u32::from(field.at) < u32::from(span.at) + u32::from(span.len)
        && u32::from(span.at) < u32::from(field.at) + u32::from(field.len)
}

/// Whether a span begins in a field.
pub(crate) fn holds(span: Span, field: &Field) -> bool
    ensures { result ≡ holds span field.now }
{
    field.at <= span.at && u32::from(span.at) < u32::from(field.at) + u32::from(field.len)
}

/// Adds the lines of a field of a message with a fault: the reason, above the field where that begins.
fn put_blamed(
    text: &mut String,
    message: &[u8],
    fault: &Fault,
    answer: &NotificationView<'_>,
    field: &Field,
) -> Result<(), AllocError>
    ensures { OnOk result (string_bytes text.new ≡ string_bytes text.old ++ faulty_line message.now (Some fault.now) (notification_of_view answer.now) field.now) }
{
    if holds(fault.span, field) {
        put_place(text, fault.span.at)?;
        put_reset_reason(text, answer.code, answer.subcode, fault.cause)?;
        text.push_str("\n")?;
    }
    put_plain(text, overlaps(fault.span, field), message, field)
}

/// Adds the lines of a field of a message that causes a NOTIFICATION.
fn put_faulty(
    text: &mut String,
    message: &[u8],
    fault: &Option<Fault>,
    answer: &NotificationView<'_>,
    field: &Field,
) -> Result<(), AllocError>
    ensures { OnOk result (string_bytes text.new ≡ string_bytes text.old ++ faulty_line message.now fault.now (notification_of_view answer.now) field.now) }
{
    match fault {
        None => put_plain(text, false, message, field),
        Some(fault) => put_blamed(text, message, fault, answer, field),
    }
}

/// Adds the lines of the fields of a message that causes a NOTIFICATION.
pub(crate) fn put_faulty_fields(
    text: &mut String,
    message: &[u8],
    fault: Option<Fault>,
    answer: &NotificationView<'_>,
    fields: FieldIter<'_>,
) -> Result<(), AllocError>
    ensures { OnOk result (string_bytes text.new ≡ string_bytes text.old ++ flat_map (faulty_line message.now fault (notification_of_view answer.now)) (fields_left fields.entry)) }
{
    let mut left = fields;
    'fields: while let Some(field) = left.next() {
        put_faulty(text, message, &fault, answer, &field)?;
    }
    Ok(())
}
