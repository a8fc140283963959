//! What octets begin with.

ghost use Rattle.std.specs.Prelude.{◌≡◌};
ghost use Rattle.bgp_frame.specs.Prelude.{wanted, Waits, ShowsFront};
ghost use Rattle.ristulva_c.specs.declared.status.TheConstants.{OK};
ghost use Rattle.ristulva_c.specs.Front.{fault_told, step_told, IsFound};

use crate::span::Span;
use crate::status::OK;
use bgp_frame::{HeadFault, Step, front};
use bgp_numbers::error;

/// Less than a message.
pub const MORE: u8 = 0;

/// A whole message.
pub const MESSAGE: u8 = 1;

/// A header with a fault.
pub const FAULT: u8 = 2;

/// What octets begin with (RFC 4271, sections 4.1 and 6.1).
#[repr(C)]
#[derive(Clone, Copy)]
pub struct ToldFront {
    /// `MORE`, `MESSAGE` or `FAULT`.
    pub what: u8,
    /// The type of the message, 1 to 4, where it is one; else 0.
    pub kind: u8,
    /// The code of the NOTIFICATION that answers the fault, where it is one; else 0.
    pub code: u8,
    /// Its subcode.
    pub subcode: u8,
    /// The length of the message, where it is one; where it is less than one, the least length that it will have: 19,
    /// or what its header says where that is whole; else 0.
    pub len: u32,
    /// The data of that NOTIFICATION: the faulty field of the header.
    pub info: Span,
}

pub(crate) fn fault_told(fault: HeadFault) -> ToldFront
    ensures { result ≡ fault_told fault }
{
    let (subcode, at, len) = match fault {
        HeadFault::Marker => (error::NOT_SYNCHRONIZED, 0, 0),
        HeadFault::Length(_) => (error::BAD_MESSAGE_LENGTH, 16, 2),
        HeadFault::Kind(_) => (error::BAD_MESSAGE_TYPE, 18, 1),
    };
    ToldFront {
        what: FAULT,
        kind: 0,
        code: error::MESSAGE_HEADER,
        subcode,
        len: 0,
        info: Span { at, len },
    }
}

/// The length of the first message, or of its header where that is incomplete.
#[tactic(auto, using(crate::proofs::Wanted::wanted_is_length, crate::proofs::Wanted::wanted_is_header))]
fn wanted(octets: &[u8]) -> u32
    requires { Waits octets.now }
    ensures { result ≡ wanted octets.now }
{
    if octets.len() < 19 {
        return 19;
    }
    u32::from(u16::from_be_bytes([octets[16], octets[17]]))
}

fn step_told(octets: &[u8], step: Step<'_>) -> ToldFront
    requires { ShowsFront octets.now step }
    ensures { result ≡ step_told octets.now step.entry }
{
    match step {
        Step::More => ToldFront {
            what: MORE,
            kind: 0,
            code: 0,
            subcode: 0,
            len: wanted(octets),
            info: Span { at: 0, len: 0 },
        },
        Step::Frame(frame) => ToldFront {
            what: MESSAGE,
            kind: frame.kind as u8,
            code: 0,
            subcode: 0,
            len: u32::from(frame.len),
            info: Span { at: 0, len: 0 },
        },
        Step::Fault(fault) => fault_told(fault),
    }
}

/// Classifies what octets begin with: less than a message, a message, or a header with a fault. Octets after a message
/// are ignored.
#[unsafe(no_mangle)]
pub extern "C" fn ristulva_front(octets: &[u8], out: &mut ToldFront) -> u32
    ensures status { result ≡ OK }
    ensures found { IsFound octets.now out.new }
{
    *out = step_told(octets, front(octets));
    OK
}
