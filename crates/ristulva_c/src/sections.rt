//! The sections of the RFCs by which messages are judged.

ghost use Rattle.std.specs.Prelude.{◌≡◌, Some};
ghost use Rattle.ristulva_c.specs.Prelude.{context_of, section_of, why_of, IsFaultSection, IsNoteSection};

use crate::context::{SessionContext, context_of};
use crate::notes::ToldNote;
use crate::status::{INCOMPLETE, RANGE};
use crate::written::write;
use bgp_attr::Why;
use bgp_fields::{Cause, message_cause};
use bgp_frame::{Step, front};
use bgp_text::{cause_section, note_section};

/// The section by which a message is answered by a reset: empty where it isn't.
fn section_of(cause: Option<Cause>) -> &'static str
    ensures { result.now ≡ section_of cause }
{
    match cause {
        None => "",
        Some(cause) => cause_section(cause),
    }
}

/// Writes the section of an RFC by which the first message is answered by a reset.
#[unsafe(no_mangle)]
pub extern "C" fn ristulva_fault_section(
    ctx: &SessionContext,
    octets: &[u8],
    buffer: &mut [u8],
    len: &mut usize,
) -> u32
    ensures { IsFaultSection (context_of ctx.now) octets.now (record { status = result; before = buffer.old; behind = buffer.new; len_before = len.old; len_behind = len.new }) }
{
    match front(octets) {
        Step::More => INCOMPLETE,
        Step::Frame(frame) => {
            let section = section_of(message_cause(&context_of(ctx), frame));
            write(section.as_bytes(), buffer, len)
        }
        Step::Fault(_) => write(section_of(Some(Cause::Header)).as_bytes(), buffer, len),
    }
}

/// What is wrong, by its number.
#[tactic(auto, unfolding(crate::specs::Sections::why_of))]
fn why_of(number: u8) -> Option<Why>
    ensures { result ≡ why_of number }
{
    match number {
        1 => Some(Why::Flags),
        2 => Some(Why::Length),
        3 => Some(Why::Value),
        4 => Some(Why::SegmentType),
        5 => Some(Why::SegmentCount),
        6 => Some(Why::SegmentEnd),
        7 => Some(Why::Repeated),
        8 => Some(Why::External),
        9 => Some(Why::FourOctet),
        10 => Some(Why::Family),
        11 => Some(Why::Unneeded),
        12 => Some(Why::Emptied),
        13 => Some(Why::Cut),
        14 => Some(Why::Missing),
        15 => Some(Why::AsZero),
        _ => None,
    }
}

/// Writes the section of an RFC that requires a note.
#[unsafe(no_mangle)]
pub extern "C" fn ristulva_note_section(note: &ToldNote, buffer: &mut [u8], len: &mut usize) -> u32
    ensures { IsNoteSection note.now (record { status = result; before = buffer.old; behind = buffer.new; len_before = len.old; len_behind = len.new }) }
{
    match why_of(note.why) {
        None => RANGE,
        Some(why) => write(note_section(note.kind, why).as_bytes(), buffer, len),
    }
}
