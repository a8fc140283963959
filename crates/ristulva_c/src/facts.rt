//! Common attributes of an UPDATE, of those that are kept.

ghost use Rattle.std.specs.Prelude.{◌≡◌, ◌+◌, ◌≤◌, length, option_map, is_some};
ghost use Rattle.bgp_frame.specs.Prelude.{IsLength, message_in};
ghost use Rattle.bgp_attr.specs.Prelude.{reach_value};
ghost use Rattle.bgp_update.specs.Prelude.{known_value, parts_of, info_value, update_value};
ghost use Rattle.bgp_msg.specs.Prelude.{out_of};
ghost use Rattle.ristulva_c.specs.Prelude.{context_of, AreWithin, mp_afi, mp_hop, mp_link, hops_told, paths_told, aggregator_as, aggregator_address, origin_number, facts_told, attrs_in, TellsFacts, AreFacts};

use crate::context::{SessionContext, context_of};
use crate::opens::flag_of;
use crate::origin_as::origin_as;
use crate::others::count_others;
use crate::places::kept_at;
use crate::span::Span;
use crate::status::{INCOMPLETE, OK, REFUSED};
use bgp_attr::{Aggregator, MpReachView, Origin};
use bgp_frame::{Frame, Step, front};
use bgp_msg::{OutcomeView, view_frame};
use bgp_numbers::afi;
use bgp_numbers::attribute::{AS_PATH, AS4_PATH, COMMUNITIES, LARGE_COMMUNITY};
use bgp_update::{KeptView, UpdateView};
use bgp_wire::are_octets;

/// The next hops of an UPDATE. Each flag is 1 where the attribute is kept, else 0.
#[repr(C)]
#[derive(Clone, Copy)]
pub struct Hops {
    /// NEXT_HOP, an IPv4 address.
    pub next_hop: [u8; 4],
    /// The next hop of MP_REACH_NLRI: an IPv4 address with zeros after it, or a global IPv6 address.
    pub mp_next_hop: [u8; 16],
    /// The link-local address of MP_REACH_NLRI.
    pub link_local: [u8; 16],
    /// The family of MP_REACH_NLRI: 1 for IPv4, 2 for IPv6, and 0 where there is none.
    pub mp_afi: u16,
    /// Whether there is a NEXT_HOP.
    pub has_next_hop: u8,
    /// Whether MP_REACH_NLRI has a link-local address.
    pub has_link_local: u8,
}

/// The offsets of paths and communities in the octets, and the origin AS of the route. Each flag is 1 where the
/// attribute is kept, else 0.
#[repr(C)]
#[derive(Clone, Copy)]
pub struct Paths {
    /// The value of AS_PATH.
    pub as_path: Span,
    /// The value of AS4_PATH.
    pub as4_path: Span,
    /// The value of COMMUNITIES.
    pub communities: Span,
    /// The value of LARGE_COMMUNITY.
    pub large_communities: Span,
    /// The last number of the path that AS_PATH and AS4_PATH give together, where it ends in a sequence (RFC 6811, section 2); else 0.
    pub origin_as: u32,
    /// Whether there is an AS_PATH.
    pub has_as_path: u8,
    /// Whether there is an AS4_PATH.
    pub has_as4_path: u8,
    /// Whether there are COMMUNITIES.
    pub has_communities: u8,
    /// Whether there is a LARGE_COMMUNITY.
    pub has_large_communities: u8,
    /// Whether the path ends in a sequence.
    pub has_origin_as: u8,
}

/// Common attributes of an UPDATE, of those that are kept. Each flag is 1 for yes, else 0.
#[repr(C)]
#[derive(Clone, Copy)]
pub struct Facts {
    /// The next hops.
    pub hops: Hops,
    /// Paths and communities.
    pub paths: Paths,
    /// MULTI_EXIT_DISC.
    pub med: u32,
    /// LOCAL_PREF.
    pub local_pref: u32,
    /// The AS number of the aggregator that AGGREGATOR and AS4_AGGREGATOR give together.
    pub aggregator_as: u32,
    /// Its address.
    pub aggregator_address: [u8; 4],
    /// The number of attributes of unrecognised types.
    pub unrecognised: u32,
    /// ORIGIN: 0 IGP, 1 EGP, 2 INCOMPLETE.
    pub origin: u8,
    /// Whether there is an ORIGIN.
    pub has_origin: u8,
    /// Whether there is a MULTI_EXIT_DISC.
    pub has_med: u8,
    /// Whether there is a LOCAL_PREF.
    pub has_local_pref: u8,
    /// Whether there is an AGGREGATOR.
    pub has_aggregator: u8,
    /// Whether there is an ATOMIC_AGGREGATE.
    pub atomic_aggregate: u8,
}

/// The family of MP_REACH_NLRI.
fn mp_afi(reach: &Option<MpReachView<'_>>) -> u16
    ensures { result ≡ mp_afi (option_map reach_value reach.now) }
{
    match reach {
        None => 0,
        Some(MpReachView::Ip4 { .. }) => afi::IPV4,
        Some(MpReachView::Ip6 { .. }) => afi::IPV6,
    }
}

/// Its next hop.
fn mp_hop(reach: &Option<MpReachView<'_>>) -> [u8; 16]
    ensures { result ≡ mp_hop (option_map reach_value reach.now) }
{
    match reach {
        None => [0; 16],
        Some(MpReachView::Ip4 { next_hop, .. }) => {
            let [a, b, c, d] = *next_hop;
            [a, b, c, d, 0, 0, 0, 0, 0, 0, 0, 0, 0, 0, 0, 0]
        }
        Some(MpReachView::Ip6 { next_hop, .. }) => *next_hop,
    }
}

/// Its link-local address.
fn mp_link(reach: &Option<MpReachView<'_>>) -> Option<[u8; 16]>
    ensures { result ≡ mp_link (option_map reach_value reach.now) }
{
    match reach {
        Some(MpReachView::Ip6 { link_local, .. }) => *link_local,
        _ => None,
    }
}

/// The next hops that are kept.
fn hops_told(kept: &KeptView<'_>) -> Hops
    ensures { result ≡ hops_told (known_value kept.now) }
{
    let next_hop = kept.next_hop();
    let reach = kept.reach();
    let link = mp_link(&reach);
    Hops {
        next_hop: next_hop.unwrap_or([0; 4]),
        mp_next_hop: mp_hop(&reach),
        link_local: link.unwrap_or([0; 16]),
        mp_afi: mp_afi(&reach),
        has_next_hop: flag_of(next_hop.is_some()),
        has_link_local: flag_of(link.is_some()),
    }
}

/// The paths and communities that are kept, in the message of this body.
pub(crate) fn paths_told(body: &[u8], view: &UpdateView<'_>) -> Paths
    requires { length body.now ≤ 4077 }
    ensures value { result ≡ paths_told (parts_of body.now) (update_value view.now).attrs }
    ensures within { AreWithin result }
{
    let kept = view.kept();
    let from = origin_as(&view.path_info());
    let has_as_path = kept.as_path().is_some();
    let has_as4_path = kept.as4_path().is_some();
    let has_communities = kept.communities().is_some();
    let has_large_communities = kept.large().is_some();
    Paths {
        as_path: kept_at(has_as_path, AS_PATH, body),
        as4_path: kept_at(has_as4_path, AS4_PATH, body),
        communities: kept_at(has_communities, COMMUNITIES, body),
        large_communities: kept_at(has_large_communities, LARGE_COMMUNITY, body),
        origin_as: from.unwrap_or(0),
        has_as_path: flag_of(has_as_path),
        has_as4_path: flag_of(has_as4_path),
        has_communities: flag_of(has_communities),
        has_large_communities: flag_of(has_large_communities),
        has_origin_as: flag_of(from.is_some()),
    }
}

/// The AS number of an aggregator.
fn aggregator_as(aggregator: &Option<Aggregator>) -> u32
    ensures { result ≡ aggregator_as aggregator.now }
{
    match aggregator {
        None => 0,
        Some(aggregator) => aggregator.asn.0,
    }
}

/// Its address.
fn aggregator_address(aggregator: &Option<Aggregator>) -> [u8; 4]
    ensures { result ≡ aggregator_address aggregator.now }
{
    match aggregator {
        None => [0; 4],
        Some(aggregator) => aggregator.addr,
    }
}

/// The number of an ORIGIN.
fn origin_number(origin: Option<Origin>) -> u8
    ensures { result ≡ origin_number origin }
{
    match origin {
        None => 0,
        Some(origin) => origin as u8,
    }
}

/// The facts of an UPDATE that is accepted, in the message of this body.
fn facts_told(body: &[u8], view: &UpdateView<'_>) -> Facts
    requires { length body.now ≤ 4077 }
    ensures { result ≡ facts_told (parts_of body.now) (update_value view.now).attrs }
{
    let kept = view.kept();
    let aggregator = view.path_info().aggregator;
    let (origin, med, local_pref) = (kept.origin(), kept.med(), kept.local_pref());
    Facts {
        hops: hops_told(kept),
        paths: paths_told(body, view),
        med: med.unwrap_or(0),
        local_pref: local_pref.unwrap_or(0),
        aggregator_as: aggregator_as(&aggregator),
        aggregator_address: aggregator_address(&aggregator),
        unrecognised: count_others(view) as u32,
        origin: origin_number(origin),
        has_origin: flag_of(origin.is_some()),
        has_med: flag_of(med.is_some()),
        has_local_pref: flag_of(local_pref.is_some()),
        has_aggregator: flag_of(aggregator.is_some()),
        atomic_aggregate: flag_of(kept.atomic()),
    }
}

/// Writes the facts of a message, where it is an UPDATE that is accepted.
fn tell_facts(ctx: &SessionContext, frame: Frame<'_>, out: &mut Facts) -> u32
    requires { IsLength frame.kind (19 + length frame.body.now) }
    ensures { TellsFacts (parts_of frame.entry.body.now) (attrs_in (out_of (context_of ctx.now) (message_in frame.entry))) result out.old out.new }
{
    let body = frame.body;
    let mut view = UpdateView::empty();
    match view_frame(&context_of(ctx), frame, &mut view) {
        OutcomeView::Update(view) => {
            *out = facts_told(body, view);
            OK
        }
        _ => REFUSED,
    }
}

/// Reports common attributes of the UPDATE that octets begin with, where it is accepted, of those that are kept. Octets
/// after it are ignored.
#[unsafe(no_mangle)]
pub extern "C" fn ristulva_facts(ctx: &SessionContext, octets: &[u8], out: &mut Facts) -> u32
    ensures { AreFacts (context_of ctx.now) octets.now result out.old out.new }
{
    are_octets(octets);
    match front(octets) {
        Step::More => INCOMPLETE,
        Step::Frame(frame) => tell_facts(ctx, frame, out),
        Step::Fault(_) => REFUSED,
    }
}
