//! Bodies written down by hand, with path identifiers and without.

ghost use Rattle.std.specs.Prelude.{◌≤◌, length};

use crate::families::PathFamilies;
use crate::path_body::PathBody;
use crate::places::{PathShifts, data_received};
use crate::plain_body::PlainBody;
use crate::runs::path_runs;
use std::test::*;

/// IPv4 and IPv6 have path identifiers.
const BOTH: PathFamilies = PathFamilies {
    ip4: true,
    ip6: true,
};

/// IPv4 alone has them.
const IP4: PathFamilies = PathFamilies {
    ip4: true,
    ip6: false,
};

/// ORIGIN 3, AS_PATH, NEXT_HOP, MP_REACH_NLRI of path 9 of 2001:db8::/32, and NLRI of path 1 of 10.0.0.0/8.
const ANNOUNCED: [u8; 63] = [
    0, 0, 0, 53, 64, 1, 1, 3, 64, 2, 6, 2, 1, 0, 0, 253, 232, 64, 3, 4, 192, 0, 2, 1, 128, 14, 30,
    0, 2, 1, 16, 32, 1, 13, 184, 0, 0, 0, 0, 0, 0, 0, 0, 0, 0, 0, 1, 0, 0, 0, 0, 9, 32, 32, 1, 13,
    184, 0, 0, 0, 1, 8, 10,
];

/// The same without path identifiers.
const PLAIN: [u8; 55] = [
    0, 0, 0, 49, 64, 1, 1, 3, 64, 2, 6, 2, 1, 0, 0, 253, 232, 64, 3, 4, 192, 0, 2, 1, 128, 14, 26,
    0, 2, 1, 16, 32, 1, 13, 184, 0, 0, 0, 0, 0, 0, 0, 0, 0, 0, 0, 1, 0, 32, 32, 1, 13, 184, 8, 10,
];

/// Paths 1 of 10.0.0.0/8 and 2 of 0.0.0.0/0 are withdrawn, and in MP_UNREACH_NLRI 1 of 2001:db8::/32 and 2 of ::/0.
const GONE: [u8; 35] = [
    0, 11, 0, 0, 0, 1, 8, 10, 0, 0, 0, 2, 0, 0, 20, 128, 15, 17, 0, 2, 1, 0, 0, 0, 1, 32, 32, 1,
    13, 184, 0, 0, 0, 2, 0,
];

/// The same without path identifiers.
const PLAIN_GONE: [u8; 19] = [
    0, 3, 8, 10, 0, 0, 12, 128, 15, 9, 0, 2, 1, 32, 32, 1, 13, 184, 0,
];

/// Whether a body without path identifiers is this one.
fn becomes(families: PathFamilies, body: &[u8], expected: &[u8]) -> bool
    requires { length body.now ≤ 4077 }
{
    let mut plain = PlainBody::new();
    plain.fill(families, body);
    plain.as_slice() == expected
}

#[test]
fn each_place_loses_its_identifiers(rt: HostRuntime) {
    assert!(rt; becomes(BOTH, &ANNOUNCED, &PLAIN));
    assert!(rt; becomes(BOTH, &GONE, &PLAIN_GONE));
}

#[test]
fn a_family_without_identifiers_stays(rt: HostRuntime) {
    let neither = PathFamilies {
        ip4: false,
        ip6: false,
    };
    assert!(rt; becomes(neither, &ANNOUNCED, &ANNOUNCED));
    assert!(rt; becomes(IP4, &[0, 0, 0, 0, 0, 0, 0, 7, 8, 10], &[0, 0, 0, 0, 8, 10]));
}

#[test]
fn octets_that_are_no_route_stay_none(rt: HostRuntime) {
    // an identifier that is cut off, one without a prefix, and a length of 33
    assert!(rt; becomes(IP4, &[0, 0, 0, 0, 0, 0, 0], &[0, 0, 0, 0, 255]));
    assert!(rt; becomes(IP4, &[0, 0, 0, 0, 0, 0, 0, 1], &[0, 0, 0, 0, 255]));
    assert!(rt;
        becomes(
            IP4,
            &[0, 0, 0, 0, 0, 0, 0, 1, 8, 10, 0, 0, 0, 1, 33],
            &[0, 0, 0, 0, 8, 10, 255]
        )
    );
    assert!(rt; becomes(IP4, &[0, 9, 0, 0, 0, 1], &[0, 9, 0, 0, 0, 1]));
}

#[test]
fn identifiers_beside_their_routes(rt: HostRuntime) {
    let mut announced = path_runs(BOTH, &ANNOUNCED);
    assert!(rt; announced.nlri.step() == 1 && announced.nlri.step() == 0);
    assert!(rt; announced.reached.step() == 9 && announced.reached.step() == 0);
    assert!(rt; announced.withdrawn.step() == 0 && announced.unreached.step() == 0);
    let mut gone = path_runs(BOTH, &GONE);
    assert!(rt; gone.withdrawn.step() == 1 && gone.withdrawn.step() == 2);
    assert!(rt;
        gone.unreached.step() == 1 && gone.unreached.step() == 2 && gone.unreached.step() == 0
    );
    assert!(rt; path_runs(IP4, &ANNOUNCED).reached.step() == 0);
}

#[test]
fn offsets_after_identifiers(rt: HostRuntime) {
    let announced = PathShifts::between(&PLAIN, &ANNOUNCED);
    assert!(rt; announced.place(4) == 4 && announced.place(24) == 24 && announced.place(53) == 57);
    let gone = PathShifts::between(&PLAIN_GONE, &GONE);
    assert!(rt; gone.place(7) == 15 && gone.place(19) == 35);
    assert!(rt; data_received(&GONE, &PLAIN_GONE[7..]) == &GONE[15..]);
    assert!(rt; data_received(&ANNOUNCED, &[64, 1, 1, 3]) == [64, 1, 1, 3].as_slice());
}

/// Whether a body gets the path identifiers of the one that was received, and is that one then.
fn is_written_back(families: PathFamilies, received: &[u8], plain: &[u8]) -> bool {
    let mut body = PathBody::new();
    match body.fill(families, &path_runs(families, received), plain) {
        Ok(()) => body.as_slice() == received,
        Err(_) => false,
    }
}

#[test]
fn each_route_gets_its_identifier_back(rt: HostRuntime) {
    assert!(rt; is_written_back(BOTH, &ANNOUNCED, &PLAIN));
    assert!(rt; is_written_back(BOTH, &GONE, &PLAIN_GONE));
}

#[test]
fn a_body_can_be_too_long_with_identifiers(rt: HostRuntime) {
    // 4,073 routes to 0.0.0.0/0, of five octets each
    let routes = [0; 4077];
    let mut body = PathBody::new();
    assert!(rt; body.fill(IP4, &path_runs(IP4, &GONE), &routes).is_err());
    assert!(rt; body.as_slice().is_empty());
}
