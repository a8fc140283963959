//! Whether an announcement violates the owner's limits.

ghost use Rattle.std.specs.List.{list_any};
ghost use Rattle.std.specs.Prelude.{◌≡◌, ◌&&◌, ◌==◌, not, true, nat_lt, length, option_map};
ghost use Rattle.bgp_attr.specs.Prelude.{communities_left, communities_value, path_value, reach_value, segment_value, segments_left};
ghost use Rattle.bgp_clean.specs.NextHops.{is_above_one, is_host4, is_host6, is_link_hop, is_link_local, has_host_hops, has_host_next_hop, has_host_reach};
ghost use Rattle.bgp_clean.specs.steps.Parts.{is_announcing, part_value};
ghost use Rattle.bgp_clean.specs.Limits.{begins_with, breaks, community_count, is_above, is_from, is_from_another, is_sequence_from, numbers_in, path_length};

use crate::limits::Limits;
use crate::part::PartView;
use bgp_attr::{
    CommIter, CommunitiesView, MpReachView, PathView, SegKind, SegmentIter, SegmentView,
};

/// Whether an address isn't of 0.0.0.0/8, 127.0.0.0/8, 224.0.0.0/4 or 240.0.0.0/4.
fn is_host4(address: [u8; 4]) -> bool
    ensures { result ≡ is_host4 address }
{
    let [first, _, _, _] = address;
    first != 0 && first != 127 && first < 224
}

/// Whether an address is of fe80::/10.
fn is_link_local(address: &[u8; 16]) -> bool
    ensures { result ≡ is_link_local address.now }
{
    address[0] == 254 && address[1] >= 128 && address[1] < 192
}

/// Whether some octet isn't 0.
fn has_nonzero(octets: &[u8]) -> bool
    ensures { result ≡ list_any (λ o. not (o == 0)) octets.now }
{
    octets.iter().any(|octet| *octet != 0)
}

/// Whether an address is neither :: nor ::1.
fn is_above_one(address: &[u8; 16]) -> bool
    ensures { result ≡ is_above_one address.now }
{
    has_nonzero(&address[..15]) || address[15] > 1
}

/// Whether an address is of a global scope.
fn is_host6(address: &[u8; 16]) -> bool
    ensures { result ≡ is_host6 address.now }
{
    address[0] != 255 && !is_link_local(address) && is_above_one(address)
}

/// Whether a link-local next hop is a link-local address, where it is present.
fn is_link_hop(link: &Option<[u8; 16]>) -> bool
    ensures { result ≡ is_link_hop link.now }
{
    match link {
        None => true,
        Some(address) => is_link_local(address),
    }
}

/// Whether NEXT_HOP is a host address, where it is present.
pub(crate) fn has_host_next_hop(hop: Option<[u8; 4]>) -> bool
    ensures { result ≡ has_host_next_hop hop }
{
    match hop {
        None => true,
        Some(address) => is_host4(address),
    }
}

/// Whether the next hops of MP_REACH_NLRI are host addresses, where it is present.
pub(crate) fn has_host_reach(reach: &Option<MpReachView<'_>>) -> bool
    ensures { result ≡ has_host_reach (option_map reach_value reach.now) }
{
    match reach {
        None => true,
        Some(MpReachView::Ip4 { next_hop, .. }) => is_host4(*next_hop),
        Some(
            MpReachView::Ip6 {
                next_hop,
                link_local,
                ..
            },
        ) => is_host6(next_hop) && is_link_hop(link_local),
    }
}

/// Whether segments have more AS numbers than this, those of sets too.
fn have_more(segments: SegmentIter<'_>, most: u16) -> bool
    ensures { result ≡ nat_lt most (numbers_in (segments_left segments.entry)) }
{
    let mut left = segments;
    let mut free = usize::from(most);
    'path: while let Some(segment) = left.next() {
        let count = segment.numbers.left();
        if count > free {
            return true;
        }
        free -= count;
    }
    false
}

/// Whether a path has more AS numbers than the owner allows.
pub(crate) fn is_too_long(most: Option<u16>, path: &Option<PathView<'_>>) -> bool
    ensures { result ≡ is_above most (path_length (option_map path_value path.now)) }
{
    match (most, path) {
        (Some(most), Some(path)) => have_more(path.segments(), most),
        _ => false,
    }
}

/// Whether there are more communities than this.
fn has_more(values: CommIter<'_>, most: u16) -> bool
    ensures { result ≡ nat_lt most (length (communities_left values.entry)) }
{
    let mut left = values;
    let mut free = most;
    'row: while let Some(_) = left.next() {
        if free == 0 {
            return true;
        }
        free -= 1;
    }
    false
}

/// Whether there are more communities than the owner allows.
pub(crate) fn are_too_many(most: Option<u16>, communities: &Option<CommunitiesView<'_>>) -> bool
    ensures { result ≡ is_above most (community_count (option_map communities_value communities.now)) }
{
    match (most, communities) {
        (Some(most), Some(communities)) => has_more(communities.values, most),
        _ => false,
    }
}

/// Whether a segment is a sequence that begins with this AS number.
fn is_sequence_from(number: u32, segment: &SegmentView<'_>) -> bool
    ensures { result ≡ is_sequence_from number (segment_value segment.now).kind (segment_value segment.now).numbers }
{
    let mut numbers = segment.numbers;
    match (segment.kind, numbers.next()) {
        (SegKind::Seq, Some(first)) => first.0 == number,
        _ => false,
    }
}

/// Whether a path begins with this AS number.
fn is_from(number: u32, path: &Option<PathView<'_>>) -> bool
    ensures { result ≡ is_from number (option_map path_value path.now) }
{
    let Some(path) = path else {
        return false;
    };
    let mut segments = path.segments();
    match segments.next() {
        None => false,
        Some(segment) => is_sequence_from(number, &segment),
    }
}

/// Whether a path doesn't begin with the neighbour's AS number, where that is required.
pub(crate) fn is_from_another(number: Option<u32>, path: &Option<PathView<'_>>) -> bool
    ensures { result ≡ is_from_another number (option_map path_value path.now) }
{
    match number {
        None => false,
        Some(number) => !is_from(number, path),
    }
}

/// Whether the next hops of a part aren't host addresses, where that is required.
fn has_bad_hop(limits: &Limits, part: &PartView<'_, '_, '_>) -> bool
    ensures { result ≡ (limits.now.host_next_hops && not (has_host_hops (part_value part.now))) }
{
    limits.host_next_hops && !(has_host_next_hop(part.next_hop()) && has_host_reach(&part.reach()))
}

/// Whether a part that announces routes violates the owner's limits.
pub(crate) fn breaks(limits: &Limits, part: &PartView<'_, '_, '_>) -> bool
    requires { is_announcing part.now.part ≡ true }
    ensures { result ≡ breaks limits.now (part_value part.now) }
{
    let kept = part.chosen.view().kept();
    has_bad_hop(limits, part)
        || limits.local_pref && kept.local_pref().is_none()
        || is_from_another(limits.first_as, &kept.as_path())
        || is_too_long(limits.longest_path, &kept.as_path())
        || are_too_many(limits.most_communities, &kept.communities())
}
