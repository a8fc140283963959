//! The octets of the fault of a message, and those that a note on it is about.

ghost use Rattle.std.specs.Prelude.{◌≡◌, ◌≤◌, ℕ, List, length, drop};
ghost use Rattle.bgp_fields.specs.Prelude.{note_place};
ghost use Rattle.bgp_update.specs.declared.note.Note.{Note as NoteValue};
ghost use Rattle.ristulva_c.specs.Prelude.{context_of, place_told, noted_place, IsFault, IsNotePlace, note_told};

use crate::context::{SessionContext, context_of};
use crate::fields::first;
use crate::notes::ToldNote;
use crate::span::Span;
use crate::status::{INCOMPLETE, OK};
use bgp_attr::Why;
use bgp_fields::{header_span, message_span, note_span};
use bgp_frame::{Step, front};
use bgp_update::Note;

/// A span as reported: empty where there is none.
fn place_told(place: Option<bgp_fields::Span>) -> Span
    ensures { result ≡ place_told place }
{
    match place {
        None => Span { at: 0, len: 0 },
        Some(span) => Span {
            at: u32::from(span.at),
            len: u32::from(span.len),
        },
    }
}

/// Reports the octets for which the message that octets begin with, or a header with a fault, is answered by a reset:
/// none where it isn't.
#[unsafe(no_mangle)]
pub extern "C" fn ristulva_fault(ctx: &SessionContext, octets: &[u8], out: &mut Span) -> u32
    ensures { IsFault (context_of ctx.now) octets.now (record { status = result; before = out.old; behind = out.new }) }
{
    match front(octets) {
        Step::More => INCOMPLETE,
        Step::Frame(frame) => {
            *out = place_told(message_span(&context_of(ctx), frame));
            OK
        }
        Step::Fault(fault) => {
            *out = place_told(Some(header_span(first(octets, 19), fault)));
            OK
        }
    }
}

/// The octets of a whole message that a note on it is about.
fn noted_span(message: &[u8], told: &ToldNote) -> Option<bgp_fields::Span>
    requires { length message.now ≤ 4096 }
    ensures { result ≡ noted_place message.now told.now }
{
    if told.why == 14 || told.at < 19 {
        return None;
    }
    if told.at > 4096 {
        return None;
    }
    // Any reason but a missing attribute.
    let why = Why::Flags;
    let at = (told.at - 19) as u16;
    let kind = told.kind;
    note_span(message, &Note { at, kind, why })
}

/// Reports which octets of the message that octets begin with a note on it is about.
#[unsafe(no_mangle)]
pub extern "C" fn ristulva_note_span(octets: &[u8], note: &ToldNote, out: &mut Span) -> u32
    ensures place { IsNotePlace octets.now note.now (record { status = result; before = out.old; behind = out.new }) }
    // For each note on a message it is the span that `bgp_fields` gives.
    ensures notes { (n : NoteValue) (message : List ℕ) → noted_place message (note_told n) ≡ note_place (drop 19 message) n }
{
    match front(octets) {
        Step::More => INCOMPLETE,
        Step::Frame(frame) => {
            *out = place_told(noted_span(first(octets, frame.len as usize), note));
            OK
        }
        Step::Fault(_) => {
            *out = place_told(None);
            OK
        }
    }
}
