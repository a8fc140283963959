//! The attributes of a message, with the path identifiers of their routes.

ghost use Rattle.std.specs.Prelude.{◌≡◌, ◌+◌, ◌<◌, ◌≤◌, ◌++◌, length, take, OnOk, OnErr, IfOk};
ghost use Rattle.bgp_attr.specs.Prelude.{tlv_octets, tlv_value};
ghost use Rattle.bgp_paths.specs.Families.{width_of};
ghost use Rattle.bgp_paths.specs.PathBody.{field_numbers, field_with, mp_flags, numbers_for, octets_with, routes_with, tlv_behind};
ghost use Rattle.bgp_paths.specs.Runs.{numbers_left};

use crate::changing::head_length;
use crate::families::{PathFamilies, Width};
use crate::path_routes::put_routes_with;
use crate::plain_field::octets_of_tail;
use crate::plain_routes::BODY;
use crate::runs::{PathRun, PathRuns};
use bgp_attr::{Tlv, TlvIter};
use bgp_numbers::attribute::MP_REACH_NLRI;
use bgp_wire::{Output, Page};
use std::alloc::AllocError;

/// The flags of an attribute with routes: optional, non-transitive.
const OPTIONAL: u8 = 0x80;

/// The same with a length of two octets.
const EXTENDED: u8 = 0x90;

/// Appends an MP_REACH_NLRI or MP_UNREACH_NLRI with this value.
fn put_mp(kind: u8, value: &Page<BODY>, out: &mut Page<BODY>) -> Result<(), AllocError>
    ensures ok { OnOk result (out.new ≡ out.old ++ tlv_octets (mp_flags (length value.now)) kind value.now) }
    ensures full { OnErr result (4077 < length out.old + length (tlv_octets (mp_flags (length value.now)) kind value.now)) }
{
    let length = value.count();
    if length > 255 {
        let [high, low] = (length as u16).to_be_bytes();
        out.put(&[EXTENDED, kind, high, low])?;
    } else {
        out.put(&[OPTIONAL, kind, length as u8])?;
    }
    out.put(value.as_slice())
}

/// Appends an attribute whose routes follow `front` in its value, each after its path identifier. `room` is used to write its value, whatever it held.
fn put_behind(
    width: Width,
    kind: u8,
    front: &[u8],
    numbers: PathRun<'_>,
    routes: &[u8],
    room: &mut Page<BODY>,
    out: &mut Page<BODY>,
) -> Result<(), AllocError>
    ensures ok { OnOk result (out.new ≡ out.old
        ++ tlv_octets (mp_flags (length (front.now ++ routes_with (width_of width) (numbers_left numbers.entry) routes.now))) kind (front.now ++ routes_with (width_of width) (numbers_left numbers.entry) routes.now)) }
    ensures full { OnErr result (4077 < length out.old
        + length (tlv_octets (mp_flags (length (front.now ++ routes_with (width_of width) (numbers_left numbers.entry) routes.now))) kind (front.now ++ routes_with (width_of width) (numbers_left numbers.entry) routes.now))) }
{
    room.truncate(0);
    room.put(front)?;
    put_routes_with(width, numbers, routes, room)?;
    put_mp(kind, room, out)
}

/// The path identifiers of the routes of an attribute of this type.
fn numbers_for<'a>(numbers: &PathRuns<'a>, kind: u8) -> PathRun<'a>
    ensures { numbers_left result ≡ numbers_for (field_numbers numbers.now) kind }
{
    if kind == MP_REACH_NLRI {
        numbers.reached
    } else {
        numbers.unreached
    }
}

/// Appends an attribute, with the path identifiers of its routes. `room` is used to write its value, whatever it held.
fn put_tlv_with(
    families: PathFamilies,
    numbers: &PathRuns<'_>,
    tlv: &Tlv<'_>,
    room: &mut Page<BODY>,
    out: &mut Page<BODY>,
) -> Result<(), AllocError>
    ensures ok { OnOk result (out.new ≡ out.old ++ octets_with families (field_numbers numbers.now) (tlv_value tlv.now)) }
    ensures full { OnErr result (4077 < length out.old + length (octets_with families (field_numbers numbers.now) (tlv_value tlv.now))) }
{
    let Some(head) = head_length(tlv) else {
        return out.put(tlv.whole);
    };
    let Some(width) = families.identified(tlv.value) else {
        return out.put(tlv.whole);
    };
    let Some((front, routes)) = tlv.value.split_at_checked(head) else {
        return out.put(tlv.whole);
    };
    put_behind(
        width,
        tlv.kind,
        front,
        numbers_for(numbers, tlv.kind),
        routes,
        room,
        out,
    )
}

/// Appends the attributes of a field with the path identifiers of their routes. `room` is used to write the values, whatever it held.
pub(crate) fn put_field_with(
    families: PathFamilies,
    numbers: &PathRuns<'_>,
    field: &[u8],
    room: &mut Page<BODY>,
    out: &mut Page<BODY>,
) -> Result<(), AllocError>
    ensures ok { OnOk result (out.new ≡ out.old ++ field_with families (field_numbers numbers.now) field.now) }
    ensures full { OnErr result (4077 < length out.old + length (field_with families (field_numbers numbers.now) field.now)) }
{
    let mut tlvs = TlvIter::new(field);
    'field: while let Some(tlv) = tlvs.next() {
        put_tlv_with(families, numbers, &tlv, room, out)?;
    }
    out.put(octets_of_tail(tlvs.tail()))
}
