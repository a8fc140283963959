//! The notes on an UPDATE.

ghost use Rattle.std.specs.Prelude.{◌≡◌, ◌+◌, ◌≤◌, List, [], ◌∷◌, ◌++◌, length, map};
ghost use Rattle.bgp_frame.specs.Prelude.{IsLength};
ghost use Rattle.bgp_frame.specs.declared.step.Step.TheVariants as step;
ghost use Rattle.bgp_update.specs.Prelude.{notes_value};
ghost use Rattle.bgp_msg.specs.Prelude.{outcome_value};
ghost use Rattle.ristulva_c.specs.Prelude.{context_of, number_of_why, note_told, told_in, listed, Lists, IsNoted};
ghost use Rattle.ristulva_c.specs.declared.notes.ToldNote.{ToldNote};

use crate::context::{SessionContext, context_of};
use crate::status::{INCOMPLETE, OK, ROOM};
use bgp_attr::Why;
use bgp_frame::{Frame, Step, front};
use bgp_msg::{OutcomeView, view_frame};
use bgp_update::{Note, UpdateView};

/// A note on an UPDATE (RFC 7606, section 6).
#[repr(C)]
#[derive(Clone, Copy)]
pub struct ToldNote {
    /// The offset of the attribute's flags in the message; 0 for one that is missing.
    pub at: u32,
    /// Its type; 0 for one that is cut off before its type.
    pub kind: u8,
    /// What is wrong with it: 1 to 15.
    pub why: u8,
}

/// The number of what is wrong.
fn number_of_why(why: Why) -> u8
    ensures { result ≡ number_of_why why }
{
    match why {
        Why::Flags => 1,
        Why::Length => 2,
        Why::Value => 3,
        Why::SegmentType => 4,
        Why::SegmentCount => 5,
        Why::SegmentEnd => 6,
        Why::Repeated => 7,
        Why::External => 8,
        Why::FourOctet => 9,
        Why::Family => 10,
        Why::Unneeded => 11,
        Why::Emptied => 12,
        Why::Cut => 13,
        Why::Missing => 14,
        Why::AsZero => 15,
    }
}

/// A note in numbers.
fn note_told(note: Note) -> ToldNote
    ensures { result ≡ note_told note }
{
    let at = u32::from(note.at);
    ToldNote {
        at: if at == 0 { 0 } else { 19 + at },
        kind: note.kind,
        why: number_of_why(note.why),
    }
}

/// Writes a note after `count` others, where there is room for it.
fn put_note(list: &mut [ToldNote], count: usize, note: Note)
    ensures { (before places : List ToldNote) → length before ≡ count → list.old ≡ listed before places → list.new ≡ listed (before ++ note_told note ∷ []) places }
{
    if count < list.len() {
        list[count] = note_told(note);
    }
}

/// Writes the notes of an UPDATE to a list, as many as fit. Answers their number.
pub(crate) fn list_view(view: &UpdateView<'_>, list: &mut [ToldNote]) -> usize
    ensures list { list.new ≡ listed (map note_told (notes_value view.now)) list.old }
    ensures count { result ≡ length (map note_told (notes_value view.now)) }
    ensures few { result ≤ 1361 }
{
    let mut count = 0;
    let mut left = view.notes();
    'notes: while let Some(note) = left.next() {
        put_note(list, count, note);
        count += 1;
    }
    count
}

/// As `list_view`, for an outcome: only an UPDATE has notes.
fn list_outcome(outcome: &OutcomeView<'_>, list: &mut [ToldNote]) -> usize
    ensures list { list.new ≡ listed (told_in (outcome_value outcome.now)) list.old }
    ensures count { result ≡ length (told_in (outcome_value outcome.now)) }
    ensures few { result ≤ 1361 }
{
    match outcome {
        OutcomeView::Update(view) => list_view(view, list),
        OutcomeView::Withdraw(view) => list_view(view, list),
        _ => 0,
    }
}

/// Lists the notes of a message, and writes their number.
fn list_frame(
    ctx: &SessionContext,
    frame: Frame<'_>,
    list: &mut [ToldNote],
    count: &mut usize,
) -> u32
    requires { IsLength frame.kind (19 + length frame.body.now) }
    ensures { Lists (context_of ctx.now) (step.Frame frame.entry) (record { status = result; before = list.old; behind = list.new; count_before = count.old; count_behind = count.new }) }
{
    let room = list.len();
    let mut view = UpdateView::empty();
    let found = list_outcome(&view_frame(&context_of(ctx), frame, &mut view), list);
    *count = found;
    if found <= room { OK } else { ROOM }
}

/// Lists the notes of the message that octets begin with, as many as the list has room for, and reports their number.
#[unsafe(no_mangle)]
pub extern "C" fn ristulva_notes(
    ctx: &SessionContext,
    octets: &[u8],
    list: &mut [ToldNote],
    count: &mut usize,
) -> u32
    ensures { IsNoted (context_of ctx.now) octets.now (record { status = result; before = list.old; behind = list.new; count_before = count.old; count_behind = count.new }) }
{
    match front(octets) {
        Step::More => INCOMPLETE,
        Step::Frame(frame) => list_frame(ctx, frame, list, count),
        Step::Fault(_) => {
            *count = 0;
            OK
        }
    }
}
