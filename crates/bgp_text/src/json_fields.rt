//! What `explain --json` prints for a message.

ghost use Rattle.std.specs.Prelude.{◌≡◌, ◌≤◌, ◌++◌, codes, length, map, OnOk};
ghost use Rattle.bgp_text.specs.Below.{flat_map, string_bytes, fields_left, outcome_value, refresh_value};
ghost use Rattle.bgp_text.specs.NoteRow.{row_left};
ghost use Rattle.bgp_text.specs.FieldLines.{field_said, reset_reason};
ghost use Rattle.bgp_text.specs.Json.{behind_comma, quoted, where_said};
ghost use Rattle.bgp_text.specs.JsonFields.{without_space, field_members, marked_member, wrong_member, told_json, faulty_field, fields_member, unplaced_json, faults_member, noted_members, explained_members, span_of, explained_json, explained_refresh_json};
ghost use Rattle.bgp_text.specs.steps.Rows.{noting_fields, noting_left, plain_field, row_of};

use crate::field_lines::{Noting, put_note_reason, put_reset_reason, put_said};
use crate::field_names::field_name;
use crate::field_values::part;
use crate::json::{
    put_decimal, put_flag_member, put_line_end, put_name, put_number_member, put_octets_member,
    put_said_member, put_word_member,
};
use crate::json_list::{Element, put_list_member};
use crate::json_outcome::put_viewed_members;
use crate::json_refresh::put_refresh_members;
use crate::note_row::NoteRow;
use crate::told::{FaultyFields, NotedFields, PlainFields, Shown, Wrong, behind_fields};
use bgp_fields::{Cause, Fault, Field, FieldIter, Span};
use bgp_frame::NotificationView;
use bgp_msg::OutcomeView;
use bgp_open::Context;
use bgp_refresh::RefreshView;
use bgp_update::Note;
use std::alloc::{AllocError, Global};

/// The value of a field, without the space before it.
fn without_space(said: &str) -> &str
    ensures { result.now ≡ without_space said.now }
{
    match said.strip_prefix(" ") {
        Some(value) => value,
        None => said,
    }
}

/// Adds a field's offset, its octets and its name.
fn put_field(text: &mut String, message: &[u8], field: &Field) -> Result<(), AllocError>
    ensures { OnOk result (string_bytes text.new ≡ string_bytes text.old ++ field_members message.now field.now) }
{
    let octets = part(message, usize::from(field.at), usize::from(field.len));
    text.push_str("\"offset\":")?;
    put_decimal(text, u32::from(field.at))?;
    put_number_member(text, "length", u32::from(field.len))?;
    put_octets_member(text, "octets", octets)?;
    put_word_member(text, "name", field_name(field.kind))
}

/// Adds the value of a field, if it has one.
fn put_value(
    alloc: Global,
    text: &mut String,
    message: &[u8],
    field: &Field,
) -> Result<(), AllocError>
    ensures { OnOk result (string_bytes text.new ≡ string_bytes text.old ++ where_said (codes "value") (without_space (field_said message.now field.now))) }
{
    let mut said = String::new(alloc);
    put_said(&mut said, message, field)?;
    put_said_member(text, "value", without_space(said.as_str()))
}

/// Adds a mark, if it has one.
fn put_marked(text: &mut String, marked: bool) -> Result<(), AllocError>
    ensures { OnOk result (string_bytes text.new ≡ string_bytes text.old ++ marked_member marked) }
{
    if marked {
        return put_flag_member(text, "marked", true);
    }
    Ok(())
}

/// Adds a note as a string.
#[tactic(auto, unfolding(crate::specs::Json::quoted))]
fn put_note(text: &mut String, note: &Note) -> Result<(), AllocError>
    ensures { OnOk result (string_bytes text.new ≡ string_bytes text.old ++ unplaced_json note.now) }
{
    text.push_str("\"")?;
    put_note_reason(text, note)?;
    text.push_str("\"")
}

/// Adds the reason of a NOTIFICATION as a string.
#[tactic(auto, unfolding(crate::specs::Json::quoted))]
fn put_answer(text: &mut String, code: u8, subcode: u8, cause: Cause) -> Result<(), AllocError>
    ensures { OnOk result (string_bytes text.new ≡ string_bytes text.old ++ quoted (reset_reason code subcode cause)) }
{
    text.push_str("\"")?;
    put_reset_reason(text, code, subcode, cause)?;
    text.push_str("\"")
}

/// Adds what is wrong at a field, if anything.
fn put_wrong(text: &mut String, wrong: &Wrong) -> Result<(), AllocError>
    ensures { OnOk result (string_bytes text.new ≡ string_bytes text.old ++ wrong_member wrong.now) }
{
    match wrong {
        Wrong::Nothing => Ok(()),
        Wrong::Noted(note) => {
            put_name(text, "fault")?;
            put_note(text, note)
        }
        Wrong::Answered(code, subcode, cause) => {
            put_name(text, "fault")?;
            put_answer(text, *code, *subcode, *cause)
        }
    }
}

impl<'a> Element for Shown<'a> {
    ghost use Rattle.bgp_text.specs.JsonFields.{told_json};

    ghost json = { λ s. told_json s.message.now s.told };

    #[tactic(auto, unfolding(crate::specs::JsonFields::told_json))]
    fn put_json(&self, text: &mut String) -> Result<(), AllocError> {
        text.push_str("{")?;
        put_field(text, self.message, &self.told.field)?;
        put_value(self.alloc, text, self.message, &self.told.field)?;
        put_marked(text, self.told.marked)?;
        put_wrong(text, &self.told.wrong)?;
        text.push_str("}")
    }
}

/// Adds notes that have no field, each after a comma.
fn put_further(text: &mut String, notes: NoteRow<'_>) -> Result<(), AllocError>
    ensures { OnOk result (string_bytes text.new ≡ string_bytes text.old ++ flat_map (behind_comma unplaced_json) (row_left notes.entry)) }
{
    let mut left = notes;
    'row: while let Some(note) = left.step() {
        text.push_str(",")?;
        put_note(text, &note)?;
    }
    Ok(())
}

/// Adds the notes that have no field, if there are any: those of a row whose first one was removed.
#[tactic(auto, unfolding(crate::specs::Json::joined))]
fn put_faults(text: &mut String, first: Option<Note>, later: NoteRow<'_>) -> Result<(), AllocError>
    ensures { OnOk result (string_bytes text.new ≡ string_bytes text.old ++ faults_member (row_of first (row_left later.entry))) }
{
    let Some(note) = first else {
        return Ok(());
    };
    put_name(text, "faults")?;
    text.push_str("[")?;
    put_note(text, &note)?;
    put_further(text, later)?;
    text.push_str("]")
}

/// Adds the notes that are reported at none of the fields.
fn put_unplaced(
    text: &mut String,
    message: &[u8],
    noting: Noting<'_>,
    fields: FieldIter<'_>,
) -> Result<(), AllocError>
    ensures { OnOk result (string_bytes text.new ≡ string_bytes text.old ++ faults_member (noting_left message.now noting.entry (fields_left fields.entry))) }
{
    match noting.next {
        None => Ok(()),
        Some(_) => {
            let rest = behind_fields(message, noting, fields);
            put_faults(text, rest.next, rest.later)
        }
    }
}

/// Adds the fields that are left of an UPDATE.
#[tactic(auto, using(crate::proofs::JsonLists::listed_map))]
fn put_noting(
    alloc: Global,
    text: &mut String,
    message: &[u8],
    noting: Noting<'_>,
    fields: FieldIter<'_>,
) -> Result<(), AllocError>
    ensures { OnOk result (string_bytes text.new ≡ string_bytes text.old ++ fields_member message.now (noting_fields message.now noting.entry (fields_left fields.entry))) }
{
    let told = NotedFields {
        alloc,
        message,
        noting,
        fields,
    };
    put_list_member(text, "fields", told)
}

/// Adds the fields of an UPDATE, and the notes that have none.
pub(crate) fn put_noted(
    alloc: Global,
    text: &mut String,
    message: &[u8],
    notes: NoteRow<'_>,
    fields: FieldIter<'_>,
) -> Result<(), AllocError>
    ensures { OnOk result (string_bytes text.new ≡ string_bytes text.old ++ noted_members message.now (row_left notes.entry) (fields_left fields.entry)) }
{
    let noting = Noting::new(notes);
    put_noting(alloc, text, message, noting, fields)?;
    put_unplaced(text, message, noting, fields)
}

/// Adds the fields of a message without notes.
#[tactic(auto, using(crate::proofs::JsonLists::listed_map))]
pub(crate) fn put_plain(
    alloc: Global,
    text: &mut String,
    message: &[u8],
    fields: FieldIter<'_>,
) -> Result<(), AllocError>
    ensures { OnOk result (string_bytes text.new ≡ string_bytes text.old ++ fields_member message.now (map plain_field (fields_left fields.entry))) }
{
    let told = PlainFields {
        alloc,
        message,
        fields,
    };
    put_list_member(text, "fields", told)
}

/// Adds the fields of a message that causes a NOTIFICATION.
#[tactic(auto, using(crate::proofs::JsonLists::listed_map))]
pub(crate) fn put_faulty(
    alloc: Global,
    text: &mut String,
    message: &[u8],
    fault: Option<Fault>,
    answer: &NotificationView<'_>,
    fields: FieldIter<'_>,
) -> Result<(), AllocError>
    ensures { OnOk result (string_bytes text.new ≡ string_bytes text.old ++ fields_member message.now (map (faulty_field fault answer.now.code answer.now.subcode) (fields_left fields.entry))) }
{
    let told = FaultyFields {
        alloc,
        message,
        fault,
        code: answer.code,
        subcode: answer.subcode,
        fields,
    };
    put_list_member(text, "fields", told)
}

/// Adds the fields of a message.
#[tactic(auto, unfolding(crate::specs::JsonFields::explained_members), using(crate::proofs::ToldFields::plain_members))]
fn put_fields(
    alloc: Global,
    text: &mut String,
    ctx: &Context,
    message: &[u8],
    fault: Option<Fault>,
    outcome: &OutcomeView<'_>,
) -> Result<(), AllocError>
    requires { length message.now ≤ 4096 }
    ensures { OnOk result (string_bytes text.new ≡ string_bytes text.old ++ explained_members ctx.now message.now fault (outcome_value outcome.now)) }
{
    let fields = FieldIter::new(ctx, message);
    match outcome {
        OutcomeView::Update(view) | OutcomeView::Withdraw(view) => {
            put_noted(alloc, text, message, NoteRow::plain(view.notes()), fields)
        }
        OutcomeView::Open(_) | OutcomeView::Notification(_) | OutcomeView::Keepalive => {
            put_plain(alloc, text, message, fields)
        }
        OutcomeView::Reset(answer) => put_faulty(alloc, text, message, fault, answer, fields),
    }
}

/// The octets at fault.
pub(crate) fn span_of(fault: Option<Fault>) -> Option<Span>
    ensures { result ≡ span_of fault }
{
    match fault {
        None => None,
        Some(fault) => Some(fault.span),
    }
}

/// Adds a message, or the header of one, as a JSON object on a line: as [`put_viewed_json`](crate::put_viewed_json), with the fields of
/// its octets at the end, as [`put_explained`](crate::put_explained) reports them.
///
/// # Errors
/// `AllocError` where an allocation failed.
pub fn put_explained_json(
    alloc: Global,
    text: &mut String,
    ctx: &Context,
    place: u64,
    len: u16,
    octets: &[u8],
    fault: Option<Fault>,
    outcome: &OutcomeView<'_>,
) -> Result<(), AllocError>
    requires { length octets.now ≤ 4096 }
    ensures { OnOk result (string_bytes text.new ≡ string_bytes text.old ++ explained_json ctx.now place len octets.now fault (outcome_value outcome.now)) }
{
    put_viewed_members(alloc, text, place, len, span_of(fault), outcome)?;
    put_fields(alloc, text, ctx, octets, fault, outcome)?;
    put_line_end(text)
}

/// Adds a ROUTE-REFRESH that is accepted as a JSON object on a line: as [`put_refresh_json`](crate::put_refresh_json), with the fields of its octets at
/// the end, as [`put_explained_refresh`](crate::put_explained_refresh) reports them.
///
/// # Errors
/// `AllocError` where an allocation failed.
pub fn put_explained_refresh_json(
    alloc: Global,
    text: &mut String,
    ctx: &Context,
    place: u64,
    len: u16,
    octets: &[u8],
    refresh: &RefreshView<'_>,
) -> Result<(), AllocError>
    requires { length octets.now ≤ 4096 }
    ensures { OnOk result (string_bytes text.new ≡ string_bytes text.old ++ explained_refresh_json ctx.now place len octets.now (refresh_value refresh.now)) }
{
    put_refresh_members(text, place, len, refresh)?;
    put_plain(alloc, text, octets, FieldIter::of_refresh(ctx, octets))?;
    put_line_end(text)
}
