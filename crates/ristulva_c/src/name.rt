//! The names of numbers.

ghost use Rattle.std.specs.Prelude.{◌≡◌, option_map};
ghost use Rattle.ristulva_c.specs.Name.{status_name, reason_name, name_of, IsNamed};

use crate::status::RANGE;
use crate::written::write;
use bgp_attr::Why;
use bgp_names::{attribute_name, capability_name, error_name, subcode_name};
use bgp_text::why_name;

/// A status of a call.
pub const STATUS: u8 = 1;

/// A reason of a note.
pub const WHY: u8 = 2;

/// A type of path attribute.
pub const ATTRIBUTE: u8 = 3;

/// A code of a capability.
pub const CAPABILITY: u8 = 4;

/// A code of a NOTIFICATION.
pub const ERROR: u8 = 5;

/// A subcode of one.
pub const SUBCODE: u8 = 6;

/// The name of a status: empty where it isn't one.
#[tactic(auto, unfolding(crate::specs::Name::status_name))]
fn status_name(status: u8) -> &'static str
    ensures { result.now ≡ status_name status }
{
    match status {
        0 => "OK",
        1 => "no session, decoder or guard",
        2 => "an allocation failed",
        3 => "out of range",
        4 => "an incomplete message",
        5 => "too little room",
        6 => "nothing is left",
        7 => "not accepted",
        8 => "can't be written",
        9 => "not in this state",
        10 => "a configuration that isn't allowed",
        11 => "the handle is in use",
        12 => "routes of several kinds",
        _ => "",
    }
}

/// The name of the number of a reason: empty where it isn't one.
#[tactic(auto, unfolding(crate::specs::Name::reason_name))]
fn reason_name(number: u8) -> &'static str
    ensures { result.now ≡ reason_name number }
{
    match number {
        1 => why_name(Why::Flags),
        2 => why_name(Why::Length),
        3 => why_name(Why::Value),
        4 => why_name(Why::SegmentType),
        5 => why_name(Why::SegmentCount),
        6 => why_name(Why::SegmentEnd),
        7 => why_name(Why::Repeated),
        8 => why_name(Why::External),
        9 => why_name(Why::FourOctet),
        10 => why_name(Why::Family),
        11 => why_name(Why::Unneeded),
        12 => why_name(Why::Emptied),
        13 => why_name(Why::Cut),
        14 => why_name(Why::Missing),
        15 => why_name(Why::AsZero),
        _ => "",
    }
}

/// The name of a number of this kind, where there are names of this kind.
fn name_of(kind: u8, number: u8, subcode: u8) -> Option<&'static str>
    ensures { option_map (λ name. name.now) result ≡ name_of kind number subcode }
{
    match kind {
        STATUS => Some(status_name(number)),
        WHY => Some(reason_name(number)),
        ATTRIBUTE => Some(attribute_name(number)),
        CAPABILITY => Some(capability_name(number)),
        ERROR => Some(error_name(number)),
        SUBCODE => Some(subcode_name(number, subcode)),
        _ => None,
    }
}

/// Writes the name of a number of this kind, or of a subcode of a code: an empty one where it isn't known here.
#[unsafe(no_mangle)]
pub extern "C" fn ristulva_name(
    kind: u8,
    number: u8,
    subcode: u8,
    buffer: &mut [u8],
    len: &mut usize,
) -> u32
    ensures { IsNamed (name_of kind number subcode) (record { status = result; before = buffer.old; behind = buffer.new; len_before = len.old; len_behind = len.new }) }
{
    match name_of(kind, number, subcode) {
        None => RANGE,
        Some(name) => write(name.as_bytes(), buffer, len),
    }
}
