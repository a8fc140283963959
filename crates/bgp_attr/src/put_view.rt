//! Writing the values of attributes from borrowed octets, with no list between.

ghost use Rattle.std.specs.Prelude.{◌≡◌, ◌<◌, ◌≤◌, ◌+◌, ◌-◌, ◌%◌, ◌++◌, false, true, length, OnOk, OnErr};
ghost use Rattle.std.specs.List.{flat_map, list_any};
ghost use Rattle.bgp_wire.specs.Prelude.{Extends};
ghost use Rattle.bgp_attr.specs.Prelude.{reach_value, unreach_value, as_numbers_left, communities_left, triples_left, number_octets, numbers_of, row_octets, triple_octets, path_value, segment_value, is_bad_segment, path_octets, reach_octets, reach_row, segment_octets, unreach_octets, unreach_row};
ghost use Rattle.bgp_prefix.specs.Prelude.{prefixes_left};

use crate::large_iter::LargeCommIter;
use crate::mp_view::{MpReachView, MpUnreachView};
use crate::numbers::{AsNumberIter, CommIter};
use crate::path_view::{PathView, SegmentView};
use crate::put::{put_number, put_octets, put_triple, segment_code};
use crate::value_writing::{address_octets, put_hops};
use bgp_numbers::{afi, safi};
use bgp_prefix::PrefixIter;
use bgp_wire::Output;
use std::alloc::AllocError;

/// Appends the numbers of four octets that octets begin with: these octets.
fn put_fours<O: Output>(octets: &[u8], out: &mut O) -> Result<(), AllocError>
    ensures ok { OnOk result (O.written out.new ≡ O.written out.old ++ row_octets true (numbers_of true octets.now)) }
    ensures err { OnErr result (Extends (O.written out.old) (O.written out.new) × (O.room < length (O.written out.old) + length (row_octets true (numbers_of true octets.now)))) }
{
    let whole = octets.len() - octets.len() % 4;
    put_octets(&octets[..whole], out)
}

/// Appends AS numbers one by one.
fn put_each_number<O: Output>(
    wide: bool,
    numbers: AsNumberIter<'_>,
    out: &mut O,
) -> Result<(), AllocError>
    ensures ok { OnOk result (O.written out.new ≡ O.written out.old ++ flat_map (λ n. number_octets wide n.0) (as_numbers_left numbers.entry)) }
    ensures err { OnErr result (Extends (O.written out.old) (O.written out.new) × (O.room < length (O.written out.old) + length (flat_map (λ n. number_octets wide n.0) (as_numbers_left numbers.entry)))) }
{
    'row: for number in numbers {
        put_number(wide, number.0, out)?;
    }
    Ok(())
}

/// Appends AS numbers.
fn put_as_numbers<O: Output>(
    wide: bool,
    numbers: AsNumberIter<'_>,
    out: &mut O,
) -> Result<(), AllocError>
    ensures ok { OnOk result (O.written out.new ≡ O.written out.old ++ flat_map (λ n. number_octets wide n.0) (as_numbers_left numbers.entry)) }
    ensures err { OnErr result (Extends (O.written out.old) (O.written out.new) × (O.room < length (O.written out.old) + length (flat_map (λ n. number_octets wide n.0) (as_numbers_left numbers.entry)))) }
{
    if wide && numbers.wide {
        put_fours(numbers.rest, out)
    } else {
        put_each_number(wide, numbers, out)
    }
}

/// Appends a segment.
fn put_segment<O: Output>(
    wide: bool,
    segment: SegmentView<'_>,
    out: &mut O,
) -> Result<(), AllocError>
    requires { length (as_numbers_left segment.numbers) ≤ 255 }
    ensures ok { OnOk result (O.written out.new ≡ O.written out.old ++ segment_octets wide (segment_value segment.entry)) }
    ensures err { OnErr result (Extends (O.written out.old) (O.written out.new) × (O.room < length (O.written out.old) + length (segment_octets wide (segment_value segment.entry)))) }
{
    let count = segment.numbers.left() as u8;
    out.put(&[segment_code(segment.kind), count])?;
    put_as_numbers(wide, segment.numbers, out)
}

/// Appends the segments of a path.
pub(crate) fn put_path<O: Output>(
    wide: bool,
    path: PathView<'_>,
    out: &mut O,
) -> Result<(), AllocError>
    requires { list_any is_bad_segment (path_value path).segments ≡ false }
    ensures ok { OnOk result (O.written out.new ≡ O.written out.old ++ path_octets wide (path_value path.entry)) }
    ensures err { OnErr result (Extends (O.written out.old) (O.written out.new) × (O.room < length (O.written out.old) + length (path_octets wide (path_value path.entry)))) }
{
    'path: for segment in path.segments() {
        put_segment(wide, segment, out)?;
    }
    Ok(())
}

/// Appends communities.
pub(crate) fn put_communities<O: Output>(
    values: CommIter<'_>,
    out: &mut O,
) -> Result<(), AllocError>
    ensures ok { OnOk result (O.written out.new ≡ O.written out.old ++ row_octets true (communities_left values.entry)) }
    ensures err { OnErr result (Extends (O.written out.old) (O.written out.new) × (O.room < length (O.written out.old) + length (row_octets true (communities_left values.entry)))) }
{
    put_fours(values.rest, out)
}

/// Appends large communities.
pub(crate) fn put_large<O: Output>(values: LargeCommIter<'_>, out: &mut O) -> Result<(), AllocError>
    ensures ok { OnOk result (O.written out.new ≡ O.written out.old ++ flat_map triple_octets (triples_left values.entry)) }
    ensures err { OnErr result (Extends (O.written out.old) (O.written out.new) × (O.room < length (O.written out.old) + length (flat_map triple_octets (triples_left values.entry)))) }
{
    'row: for triple in values {
        put_triple(&triple, out)?;
    }
    Ok(())
}

/// Appends a family, a next hop of one or two addresses, and prefixes.
fn put_reach_row<const W: usize, O: Output>(
    family: u16,
    hop: &[u8],
    link: &[u8],
    routes: PrefixIter<'_, W>,
    out: &mut O,
) -> Result<(), AllocError>
    requires { length hop.now + length link.now ≤ 255 }
    ensures ok { OnOk result (O.written out.new ≡ O.written out.old ++ reach_row family (hop.now ++ link.now) (prefixes_left routes.entry)) }
    ensures err { OnErr result (Extends (O.written out.old) (O.written out.new) × (O.room < length (O.written out.old) + length (reach_row family (hop.now ++ link.now) (prefixes_left routes.entry)))) }
{
    put_hops(family, hop, link, out)?;
    routes.write(out)
}

/// Appends MP_REACH_NLRI's value.
pub(crate) fn put_reach<O: Output>(reach: &MpReachView<'_>, out: &mut O) -> Result<(), AllocError>
    ensures ok { OnOk result (O.written out.new ≡ O.written out.old ++ reach_octets (reach_value reach.now)) }
    ensures err { OnErr result (Extends (O.written out.old) (O.written out.new) × (O.room < length (O.written out.old) + length (reach_octets (reach_value reach.now)))) }
{
    match reach {
        MpReachView::Ip4 { next_hop, nlri } => {
            put_reach_row(afi::IPV4, address_octets(next_hop), &[], *nlri, out)
        }
        MpReachView::Ip6 {
            next_hop,
            link_local: None,
            nlri,
        } => put_reach_row(afi::IPV6, address_octets(next_hop), &[], *nlri, out),
        MpReachView::Ip6 {
            next_hop,
            link_local: Some(link),
            nlri,
        } => put_reach_row(
            afi::IPV6,
            address_octets(next_hop),
            address_octets(link),
            *nlri,
            out,
        ),
    }
}

/// Appends a family and prefixes.
fn put_unreach_row<const W: usize, O: Output>(
    family: u16,
    routes: PrefixIter<'_, W>,
    out: &mut O,
) -> Result<(), AllocError>
    ensures ok { OnOk result (O.written out.new ≡ O.written out.old ++ unreach_row family (prefixes_left routes.entry)) }
    ensures err { OnErr result (Extends (O.written out.old) (O.written out.new) × (O.room < length (O.written out.old) + length (unreach_row family (prefixes_left routes.entry)))) }
{
    let [high, low] = family.to_be_bytes();
    put_octets(&[high, low, safi::UNICAST], out)?;
    routes.write(out)
}

/// Appends MP_UNREACH_NLRI's value.
pub(crate) fn put_unreach<O: Output>(
    unreach: &MpUnreachView<'_>,
    out: &mut O,
) -> Result<(), AllocError>
    ensures ok { OnOk result (O.written out.new ≡ O.written out.old ++ unreach_octets (unreach_value unreach.now)) }
    ensures err { OnErr result (Extends (O.written out.old) (O.written out.new) × (O.room < length (O.written out.old) + length (unreach_octets (unreach_value unreach.now)))) }
{
    match unreach {
        MpUnreachView::Ip4(routes) => put_unreach_row(afi::IPV4, *routes, out),
        MpUnreachView::Ip6(routes) => put_unreach_row(afi::IPV6, *routes, out),
    }
}
