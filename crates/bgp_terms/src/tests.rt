//! What OPENs that were written by hand offer, and what two of them agree on.

ghost use Rattle.std.specs.Prelude.{◌≤◌, length};

use crate::families::Families;
use crate::family::Family;
use crate::member::Member;
use crate::negotiated::Terms;
use crate::offers::{Offers, offers_in, offers_of};
use crate::refreshes::Refreshes;
use crate::wide_terms::terms;
use bgp_numbers::capability;
use bgp_open::{Context, view_open};
use std::test::*;

/// Offers capabilities 2, 70, 6, 5 for 1/1 by IPv6, 69 to receive IPv4, 1 for 1/1, and twice 1 for L2VPN EVPN.
const READER: [u8; 50] = [
    4, 253, 232, 0, 90, 192, 0, 2, 1, 40, 2, 38, 2, 0, 70, 0, 6, 0, 5, 6, 0, 1, 0, 1, 0, 2, 69, 4,
    0, 1, 1, 1, 1, 4, 0, 1, 0, 1, 1, 4, 0, 25, 0, 70, 1, 4, 0, 25, 0, 70,
];

/// Offers in two parameters 70, 69 to send IPv4 and to do both with IPv6, 1 for EVPN and for IPv4 VPN, and 6.
const SENDER: [u8; 40] = [
    4, 253, 233, 0, 30, 192, 0, 2, 2, 30, 2, 12, 70, 0, 69, 8, 0, 1, 1, 2, 0, 2, 1, 3, 2, 14, 1, 4,
    0, 25, 0, 70, 1, 4, 0, 1, 0, 128, 6, 0,
];

/// Offers 2, 6 and 70 with an octet each, 5 with an octet left over, and 69 with a Send/Receive of 4 in its second family.
const WRONG: [u8; 40] = [
    4, 253, 234, 0, 90, 192, 0, 2, 3, 30, 2, 28, 2, 1, 0, 6, 1, 0, 70, 1, 0, 5, 7, 0, 1, 0, 1, 0,
    2, 0, 69, 8, 0, 1, 1, 3, 0, 2, 1, 4,
];

const EVPN: Family = Family { afi: 25, safi: 70 };

/// What an OPEN offers.
fn offers(body: &[u8]) -> Option<Offers>
    requires { 10 ≤ length body.now }
{
    match view_open(body) {
        Ok(open) => Some(offers_in(&open)),
        Err(_) => None,
    }
}

/// All answers of terms, for one family.
fn answers<T: Terms>(terms: &T, family: Family) -> ([bool; 6], Refreshes, Member) {
    let flags = [
        terms.long(),
        terms.long_back(),
        terms.paths4(),
        terms.paths6(),
        terms.hop6(),
        terms.has_family(family),
    ];
    (flags, terms.refresh(), terms.member())
}

#[test]
fn codes_are_those_of_the_registry(rt: HostRuntime) {
    // Capability Codes (RFC 2918, RFC 8950, RFC 8654, RFC 7313).
    assert!(rt;
        [
            capability::ROUTE_REFRESH,
            capability::EXTENDED_NEXT_HOP,
            capability::EXTENDED_MESSAGE,
            capability::ENHANCED_ROUTE_REFRESH
        ] == [2, 5, 6, 70]
    );
}

#[test]
fn two_opens_agree_for_each_direction(rt: HostRuntime) {
    let reader = offers(&READER).expect(&rt, "a valid OPEN");
    let sender = offers(&SENDER).expect(&rt, "a valid OPEN");
    let heard = terms(&reader, &sender);
    let (flags, refresh, member) = answers(&heard, EVPN);
    assert!(rt; flags == [true, true, true, false, true, true]);
    assert!(rt; refresh == Refreshes::Enhanced && member == Member::None);
    assert!(rt; heard.families.as_slice().len() == 2);
    assert!(rt; heard.context().hold == 30 && !heard.context().internal);
    let back = terms(&sender, &reader);
    let (flags, refresh, _) = answers(&back, EVPN);
    assert!(rt; flags == [true, true, false, false, false, true]);
    assert!(rt; refresh == Refreshes::None);
    assert!(rt; back.context() == heard.context());
    assert!(rt; !back.has_family(Family { afi: 1, safi: 128 }));
}

#[test]
fn values_of_a_wrong_length_offer_nothing(rt: HostRuntime) {
    let wrong = offers(&WRONG).expect(&rt, "a valid OPEN");
    assert!(rt; !wrong.refresh && !wrong.enhanced && !wrong.long && !wrong.hop6);
    assert!(rt; !wrong.reads4 && !wrong.sends4 && !wrong.reads6 && !wrong.sends6);
    let (flags, refresh, _) = answers(&terms(&wrong, &wrong), EVPN);
    assert!(rt; flags == [false; 6] && refresh == Refreshes::None);
    let reader = offers(&READER).expect(&rt, "a valid OPEN");
    let (flags, refresh, _) = answers(&terms(&reader, &wrong), EVPN);
    assert!(rt; flags == [true, false, false, false, true, false]);
    assert!(rt; refresh == Refreshes::Plain);
}

#[test]
fn a_context_has_nothing_beyond(rt: HostRuntime) {
    let context = Context {
        internal: false,
        as4: true,
        ip4: true,
        ip6: true,
        hold: 90,
    };
    let (flags, refresh, member) = answers(&context, EVPN);
    assert!(rt; flags == [false; 6]);
    assert!(rt; refresh == Refreshes::None && member == Member::None);
    assert!(rt; context.context() == context);
}

#[test]
fn an_open_in_memory_offers_the_same(rt: HostRuntime) {
    let reader = view_open(&READER).expect(&rt, "a valid OPEN");
    let open = reader.own(rt.alloc()).expect(&rt, "memory");
    let heard = terms(&offers_of(&open), &offers_in(&reader));
    let (flags, refresh, _) = answers(&heard, EVPN);
    assert!(rt; flags == [true, true, false, false, true, true]);
    assert!(rt; refresh == Refreshes::Enhanced);
    assert!(rt; heard.context().hold == 90 && heard.context().internal);
}

#[test]
fn the_first_42_families_are_kept(rt: HostRuntime) {
    let mut families = Families::none();
    for safi in 1..44 {
        families = families.with(Family { afi: 25, safi });
    }
    assert!(rt; families.as_slice().len() == 42);
    assert!(rt; families.contains(Family { afi: 25, safi: 42 }));
    assert!(rt; !families.contains(Family { afi: 25, safi: 43 }));
    assert!(rt; families.shared(&Families::none()).as_slice().is_empty());
}
