//! A stream with a ROUTE-REFRESH in it, in pieces.

use crate::decoder::WideDecoder;
use crate::look::WideLook;
use crate::outcome_view::WideOutcomeView;
use bgp_open::Context;
use bgp_refresh::RefreshMark;
use bgp_terms::{Refreshes, WideTerms};
use bgp_update::UpdateView;
use std::test::*;

const CONTEXT: Context = Context {
    internal: false,
    as4: true,
    ip4: true,
    ip6: true,
    hold: 0,
};

/// A request for IPv4 unicast (RFC 2918, section 3).
const REFRESH: [u8; 23] = [
    255, 255, 255, 255, 255, 255, 255, 255, 255, 255, 255, 255, 255, 255, 255, 255, 0, 23, 5, 0, 1,
    0, 1,
];

/// Whether an outcome is a request for IPv4 unicast.
fn is_request(outcome: WideOutcomeView<'_>) -> bool {
    match outcome {
        WideOutcomeView::Refresh(view) => {
            view.afi == 1 && view.safi == 1 && view.mark == RefreshMark::Request
        }
        WideOutcomeView::Base(_) | WideOutcomeView::Refused(_, _) => false,
    }
}

/// What is found of a piece that is a request: its octets in the piece, and whether it is one.
fn found(decoder: &WideDecoder, piece: &[u8]) -> Option<(usize, bool)> {
    let mut place = UpdateView::empty();
    match decoder.look(piece, &mut place) {
        WideLook::Message(taken, _len, outcome, _next) => Some((taken, is_request(outcome))),
        WideLook::Fault(taken, _fault, _next) => Some((taken, false)),
        WideLook::Feed => None,
    }
}

#[test]
fn a_refresh_in_two_pieces(rt: HostRuntime) {
    let mut decoder = WideDecoder::new(WideTerms::with_refresh(CONTEXT, Refreshes::Plain));
    assert!(rt; found(&decoder, &REFRESH[..20]) == None);
    assert!(rt; decoder.feed(&REFRESH[..20]) == 20);
    assert!(rt; decoder.held() == 20);
    assert!(rt; decoder.feed(&REFRESH[20..]) == 3);
    assert!(rt; found(&decoder, &[]) == Some((0, true)));
}

#[test]
fn one_in_a_piece(rt: HostRuntime) {
    let decoder = WideDecoder::new(WideTerms::with_refresh(CONTEXT, Refreshes::Enhanced));
    assert!(rt; found(&decoder, &REFRESH) == Some((23, true)));
}

#[test]
fn one_that_nobody_offered(rt: HostRuntime) {
    let decoder = WideDecoder::new(WideTerms::with_refresh(CONTEXT, Refreshes::None));
    assert!(rt; found(&decoder, &REFRESH) == Some((19, false)));
}
