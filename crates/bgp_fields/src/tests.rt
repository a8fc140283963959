//! Fields and spans of messages that were written by hand.

use crate::field::Span;
use crate::iter::FieldIter;
use crate::kind::FieldKind;
use crate::place::reset_span;
use bgp_open::Context;

/// AS numbers of two octets, only IPv4.
const TWO: Context = Context {
    internal: false,
    as4: false,
    ip4: true,
    ip6: false,
    hold: 90,
};

/// An UPDATE that withdraws 192.0.2.0/24 and announces 10.0.0.0/8 with ORIGIN, AS_PATH and NEXT_HOP (RFC 4271, section 4.3).
const UPDATE: [u8; 49] = [
    255, 255, 255, 255, 255, 255, 255, 255, 255, 255, 255, 255, 255, 255, 255, 255, 0, 49, 2, 0, 4,
    24, 192, 0, 2, 0, 20, 64, 1, 1, 0, 64, 2, 6, 2, 2, 253, 232, 253, 233, 64, 3, 4, 192, 0, 2, 1,
    8, 10,
];

/// A Marker whose fourth octet isn't 255.
const MARKER: [u8; 19] = [
    255, 255, 255, 254, 255, 255, 255, 255, 255, 255, 255, 255, 255, 255, 255, 255, 0, 19, 4,
];

/// An OPEN whose second capability, for AS numbers of four octets, has no value.
const CAPABILITY: [u8; 39] = [
    255, 255, 255, 255, 255, 255, 255, 255, 255, 255, 255, 255, 255, 255, 255, 255, 0, 39, 1, 4,
    253, 232, 0, 90, 192, 0, 2, 1, 10, 2, 8, 1, 4, 0, 1, 0, 1, 65, 0,
];

/// An OPEN whose second parameter has type 3.
const PARAMETER: [u8; 35] = [
    255, 255, 255, 255, 255, 255, 255, 255, 255, 255, 255, 255, 255, 255, 255, 255, 0, 35, 1, 4,
    253, 232, 0, 90, 192, 0, 2, 1, 6, 2, 0, 3, 2, 7, 7,
];

/// An UPDATE whose second withdrawn prefix has 33 bits.
const WITHDRAWN: [u8; 29] = [
    255, 255, 255, 255, 255, 255, 255, 255, 255, 255, 255, 255, 255, 255, 255, 255, 0, 29, 2, 0, 6,
    24, 192, 0, 2, 33, 1, 0, 0,
];

/// An UPDATE with a Total Path Attribute Length of 5, and 4 octets after it.
const ROOM: [u8; 27] = [
    255, 255, 255, 255, 255, 255, 255, 255, 255, 255, 255, 255, 255, 255, 255, 255, 0, 27, 2, 0, 0,
    0, 5, 64, 1, 1, 0,
];

/// An UPDATE that announces nothing, with an ORIGIN of 3.
const UNREACHABLE: [u8; 27] = [
    255, 255, 255, 255, 255, 255, 255, 255, 255, 255, 255, 255, 255, 255, 255, 255, 0, 27, 2, 0, 0,
    0, 4, 64, 1, 1, 3,
];

/// An UPDATE whose MP_REACH_NLRI is cut off.
const CUT: [u8; 30] = [
    255, 255, 255, 255, 255, 255, 255, 255, 255, 255, 255, 255, 255, 255, 255, 255, 0, 30, 2, 0, 0,
    0, 7, 64, 1, 1, 0, 128, 14, 9,
];

/// An UPDATE with a well-known attribute of type 99.
const WELL_KNOWN: [u8; 31] = [
    255, 255, 255, 255, 255, 255, 255, 255, 255, 255, 255, 255, 255, 255, 255, 255, 0, 31, 2, 0, 0,
    0, 8, 64, 1, 1, 0, 64, 99, 1, 5,
];

/// An UPDATE that withdraws 192.0.2.0/24.
const ACCEPTED: [u8; 27] = [
    255, 255, 255, 255, 255, 255, 255, 255, 255, 255, 255, 255, 255, 255, 255, 255, 0, 27, 2, 0, 4,
    24, 192, 0, 2, 0, 0,
];

/// A ROUTE-REFRESH that ends a refresh of IPv6 unicast (RFC 7313, section 3.2), with two octets after it.
const REFRESH: [u8; 25] = [
    255, 255, 255, 255, 255, 255, 255, 255, 255, 255, 255, 255, 255, 255, 255, 255, 0, 25, 5, 0, 2,
    2, 1, 7, 7,
];

#[test]
fn tells_an_update(rt: HostRuntime) {
    let want = [
        (0, 16, FieldKind::Marker),
        (16, 2, FieldKind::MessageLength),
        (18, 1, FieldKind::MessageType),
        (19, 2, FieldKind::WithdrawnLength),
        (21, 4, FieldKind::WithdrawnPrefix),
        (25, 2, FieldKind::AttributesLength),
        (27, 1, FieldKind::AttributeFlags),
        (28, 1, FieldKind::AttributeType),
        (29, 1, FieldKind::AttributeLength),
        (30, 1, FieldKind::Origin),
        (31, 1, FieldKind::AttributeFlags),
        (32, 1, FieldKind::AttributeType),
        (33, 1, FieldKind::AttributeLength),
        (34, 1, FieldKind::SegmentType),
        (35, 1, FieldKind::SegmentCount),
        (36, 2, FieldKind::AsNumber),
        (38, 2, FieldKind::AsNumber),
        (40, 1, FieldKind::AttributeFlags),
        (41, 1, FieldKind::AttributeType),
        (42, 1, FieldKind::AttributeLength),
        (43, 4, FieldKind::Address),
        (47, 2, FieldKind::NlriPrefix),
    ];
    let mut fields = FieldIter::new(&TWO, &UPDATE);
    for (at, len, kind) in want {
        match fields.next() {
            None => assert!(rt; false, "no field at {at}"),
            Some(field) => {
                assert!(rt;
                    field.at == at && field.len == len && field.kind == kind,
                    "the field at {at}"
                );
            }
        }
    }
    assert!(rt; fields.next().is_none(), "a field more");
}

/// Whether fields follow the header of a message, and are these: offset, length and kind.
fn follow_the_header(fields: FieldIter<'_>, want: &[(u16, u16, FieldKind)]) -> bool {
    let mut left = fields.skip(3);
    for (at, len, kind) in want {
        match left.next() {
            None => return false,
            Some(field) => {
                if field.at != *at || field.len != *len || field.kind != *kind {
                    return false;
                }
            }
        }
    }
    left.next().is_none()
}

#[test]
fn tells_a_refresh(rt: HostRuntime) {
    let row = [
        (19, 2, FieldKind::Afi),
        (21, 1, FieldKind::Subtype),
        (22, 1, FieldKind::Safi),
        (23, 2, FieldKind::Unread),
    ];
    let whole = FieldIter::of_refresh(&TWO, &REFRESH);
    assert!(rt; follow_the_header(whole, &row));
    let plain = FieldIter::of_refresh(&TWO, &REFRESH[..23]);
    assert!(rt; follow_the_header(plain, &row[..3]));
    let short = FieldIter::of_refresh(&TWO, &REFRESH[..22]);
    assert!(rt; follow_the_header(short, &[(19, 3, FieldKind::Unread)]));
    let refused = FieldIter::new(&TWO, &REFRESH);
    assert!(rt; follow_the_header(refused, &[(19, 6, FieldKind::Unread)]));
}

#[test]
fn finds_the_place(rt: HostRuntime) {
    let cases: [(&[u8], Option<(u16, u16)>); 9] = [
        (&MARKER, Some((3, 1))),
        (&CAPABILITY, Some((37, 2))),
        (&PARAMETER, Some((31, 4))),
        (&WITHDRAWN, Some((25, 2))),
        (&ROOM, Some((21, 2))),
        (&UNREACHABLE, Some((23, 4))),
        (&CUT, Some((27, 3))),
        (&WELL_KNOWN, Some((27, 4))),
        (&ACCEPTED, None),
    ];
    for (octets, want) in cases {
        let want = want.map(|(at, len)| Span { at, len });
        assert!(rt;
            reset_span(&TWO, octets) == want,
            "the place of {} octets",
            octets.len()
        );
    }
}
