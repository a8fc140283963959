//! What an OPEN says.

ghost use Rattle.std.specs.Prelude.{◌≡◌, ◌+◌, length};
ghost use Rattle.bgp_frame.specs.Prelude.{IsLength};
ghost use Rattle.bgp_open.specs.Prelude.{open_value};
ghost use Rattle.ristulva_c.specs.Prelude.{flag_of, open_told, accepted_in, TellsOpen, IsOpened};

use crate::capabilities::Capabilities;
use crate::status::{INCOMPLETE, OK, REFUSED};
use bgp_frame::{Frame, Kind, Step, front};
use bgp_open::{OpenView, view_open};

/// What an OPEN says (RFC 4271, section 4.2).
#[repr(C)]
#[derive(Clone, Copy)]
pub struct OpenFields {
    /// The AS number of its speaker: that of the first capability for 4-octet AS numbers, else My Autonomous System
    /// (RFC 6793, section 4.1).
    pub as_number: u32,
    /// My Autonomous System.
    pub as_field: u16,
    /// The Hold Time in seconds: 0 for none, and never 1 or 2.
    pub hold: u16,
    /// The BGP Identifier: never zero (RFC 6286, section 2.1).
    pub id: [u8; 4],
    /// Whether 4-octet AS numbers are offered (RFC 6793, section 4.1): 1, or 0 for no.
    pub as4: u8,
    /// Whether IPv4 unicast is offered (RFC 4760, section 8): 1, or 0 for no.
    pub ip4: u8,
    /// Whether IPv6 unicast is offered: 1, or 0 for no.
    pub ip6: u8,
    /// A cursor at the first of its capabilities.
    pub capabilities: Capabilities,
}

/// 1 for yes, 0 for no.
pub(crate) fn flag_of(is: bool) -> u8
    ensures { result ≡ flag_of is }
{
    if is { 1 } else { 0 }
}

/// An OPEN in numbers, by the length of its message.
fn open_told(view: &OpenView<'_>, len: u16) -> OpenFields
    ensures { result ≡ open_told len (open_value view.now) }
{
    let peer = view.peer();
    OpenFields {
        as_number: peer.as_number(),
        as_field: view.as_field(),
        hold: view.hold(),
        id: view.id(),
        as4: flag_of(peer.as4.is_some()),
        ip4: flag_of(peer.ip4),
        ip6: flag_of(peer.ip6),
        capabilities: Capabilities {
            at: 29,
            stop: 29,
            end: u32::from(len),
        },
    }
}

/// Writes what an OPEN says.
fn tell_open(frame: Frame<'_>, out: &mut OpenFields) -> u32
    requires { IsLength frame.kind (19 + length frame.body.now) }
    ensures { TellsOpen frame.entry.len (accepted_in frame.entry.kind frame.entry.body.now) result out.old out.new }
{
    if frame.kind != Kind::Open {
        return REFUSED;
    }
    match view_open(frame.body) {
        Err(_) => REFUSED,
        Ok(view) => {
            *out = open_told(&view, frame.len);
            OK
        }
    }
}

/// Reports the OPEN that octets begin with, where it is accepted. Octets after it are ignored.
#[unsafe(no_mangle)]
pub extern "C" fn ristulva_open(octets: &[u8], out: &mut OpenFields) -> u32
    ensures { IsOpened octets.now result out.old out.new }
{
    match front(octets) {
        Step::More => INCOMPLETE,
        Step::Frame(frame) => tell_open(frame, out),
        Step::Fault(_) => REFUSED,
    }
}
