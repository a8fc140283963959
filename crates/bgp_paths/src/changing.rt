//! Attributes whose routes have path identifiers.

ghost use Rattle.std.specs.Prelude.{◌≡◌, ◌+◌, ◌<◌, ◌≤◌, ◌++◌, false, length};
ghost use Rattle.bgp_attr.specs.Prelude.{is_extended, next_hop_length, tlv_octets, tlv_value};
ghost use Rattle.bgp_paths.specs.Plain.{head_length, plain_behind, plain_tlv};

use crate::families::{PathFamilies, Width};
use crate::plain_routes::{BODY, put, put_routes};
use bgp_attr::{Flags, Tlv};
use bgp_numbers::attribute::{MP_REACH_NLRI, MP_UNREACH_NLRI};
use bgp_wire::{Output, Page, are_octets};

/// The length of the next hop of MP_REACH_NLRI.
fn next_hop_length(value: &[u8]) -> usize
    ensures value { result ≡ next_hop_length value.now }
    ensures small { result ≤ 255 }
{
    match value {
        [_, _, _, length, ..] => usize::from(*length),
        _ => 0,
    }
}

/// The number of octets before the routes of an attribute that has some (RFC 4760, sections 3 and 4).
pub(crate) fn head_length(tlv: &Tlv<'_>) -> Option<usize>
    ensures { result ≡ head_length (tlv_value tlv.now) }
{
    match tlv.kind {
        MP_REACH_NLRI => Some(5 + next_hop_length(tlv.value)),
        MP_UNREACH_NLRI => Some(3),
        _ => None,
    }
}

/// Appends a value without the path identifiers of the routes after its first `head` octets.
fn put_value(family: Option<Width>, head: usize, value: &[u8], out: &mut Page<BODY>)
    requires { length out.old + length (plain_behind family head value.now) ≤ 4077 }
    ensures { out.new ≡ out.old ++ plain_behind family head value.now }
{
    match family {
        None => put(value, out),
        Some(width) => match value.split_at_checked(head) {
            None => put(value, out),
            Some((front, routes)) => {
                put(front, out);
                put_routes(width, routes, out);
            }
        },
    }
}

/// Appends an attribute with these flags, of this type and value.
fn put_octets(flags: Flags, kind: u8, value: &[u8], out: &mut Page<BODY>)
    requires room { length out.old + length (tlv_octets flags.0 kind value.now) ≤ 4077 }
    requires short { is_extended flags.0 ≡ false → length value.now < 256 }
    ensures { out.new ≡ out.old ++ tlv_octets flags.0 kind value.now }
{
    let length = value.len();
    if flags.is_extended() {
        let [high, low] = (length as u16).to_be_bytes();
        put(&[flags.0, kind, high, low], out);
    } else {
        put(&[flags.0, kind, length as u8], out);
    }
    put(value, out);
}

/// Appends an attribute without the path identifiers of its routes. `room` is used to write its value, whatever it held.
pub(crate) fn put_tlv(
    families: PathFamilies,
    tlv: &Tlv<'_>,
    room: &mut Page<BODY>,
    out: &mut Page<BODY>,
)
    requires short { length tlv.now.value.now ≤ 4077 }
    requires room { length out.old + length (plain_tlv families (tlv_value tlv.now)) ≤ 4077 }
    ensures { out.new ≡ out.old ++ plain_tlv families (tlv_value tlv.now) }
{
    match head_length(tlv) {
        None => put(tlv.whole, out),
        Some(head) => {
            are_octets(tlv.whole);
            room.truncate(0);
            put_value(families.identified(tlv.value), head, tlv.value, room);
            put_octets(tlv.flags, tlv.kind, room.as_slice(), out);
        }
    }
}
