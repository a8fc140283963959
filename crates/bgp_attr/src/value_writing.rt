//! Writing the value of an attribute: by reference, or from its view.

ghost use Rattle.std.specs.Prelude.{◌≡◌, ◌<◌, ◌≤◌, ◌+◌, [], ◌++◌, true, false, length, OnOk, OnErr};
ghost use Rattle.std.specs.List.{AllByRecursion};
ghost use Rattle.std.specs.Int.{to_be_bytes};
ghost use Rattle.bgp_attr.specs.declared.attr.Attr.TheVariants as attr;
ghost use Rattle.bgp_prefix.specs.Prelude.{IsValid};
ghost use Rattle.bgp_wire.specs.Prelude.{AreOctets, Extends};
ghost use Rattle.bgp_attr.specs.Prelude.{attr_value, ref_value, flags_octet, aggregator_octets, reach_row, unreach_row, reach_octets, unreach_octets, value_octets, is_empty, HasRanges, IsAddress, IsFourOctets};

use crate::aggregator::Aggregator;
use crate::attr::{AttrRef, AttrView};
use crate::class::Class;
use crate::mp::{MpReach, MpUnreach};
use crate::opaque::Opaque;
use crate::origin::Origin;
use crate::put::{put_address, put_number, put_numbers, put_octets, put_path, put_triples};
use crate::put_view;
use bgp_numbers::{afi, safi};
use bgp_open::Context;
use bgp_prefix::{Prefix, write_run};
use bgp_wire::Output;
use std::alloc::AllocError;

/// The flags octet of a class.
#[inline(always)]
pub(crate) fn flags_octet(class: Class, partial: bool, extended: bool) -> u8
    ensures { result ≡ flags_octet class partial extended }
{
    let partial_bit = if partial { 0x20 } else { 0 };
    let extended_bit = if extended { 0x10 } else { 0 };
    64 * (class as u8) + (partial_bit + extended_bit)
}

/// Appends an AS number and an address.
pub(crate) fn put_aggregator<O: Output>(
    wide: bool,
    aggregator: &Aggregator,
    out: &mut O,
) -> Result<(), AllocError>
    ensures ok { OnOk result ((O.written out.new ≡ O.written out.old ++ aggregator_octets wide aggregator.now) × IsFourOctets (aggregator.now.asn).0 × IsAddress 4 aggregator.now.addr) }
    ensures err { OnErr result (Extends (O.written out.old) (O.written out.new) × (O.room < length (O.written out.old) + length (aggregator_octets wide aggregator.now))) }
{
    put_number(wide, aggregator.asn.0, out)?;
    let addr = aggregator.addr;
    put_address(&addr, out)
}

/// Appends a family and a next hop of one or two addresses: all that precedes the prefixes.
pub(crate) fn put_hops<O: Output>(
    family: u16,
    hop: &[u8],
    link: &[u8],
    out: &mut O,
) -> Result<(), AllocError>
    requires { length hop.now + length link.now ≤ 255 }
    ensures ok { OnOk result ((O.written out.new ≡ O.written out.old ++ reach_row family (hop.now ++ link.now) []) × AreOctets hop.now × AreOctets link.now) }
    ensures err { OnErr result (Extends (O.written out.old) (O.written out.new) × (O.room < length (O.written out.old) + length (reach_row family (hop.now ++ link.now) []))) }
{
    let [high, low] = family.to_be_bytes();
    let len = (hop.len() + link.len()) as u8;
    put_octets(&[high, low, safi::UNICAST, len], out)?;
    put_octets(hop, out)?;
    put_octets(link, out)?;
    put_octets(&[0], out)
}

/// Appends a family, a next hop of one or two addresses, and prefixes.
fn put_reach_row<const W: usize, O: Output>(
    family: u16,
    hop: &[u8],
    link: &[u8],
    routes: &[Prefix<W>],
    out: &mut O,
) -> Result<(), AllocError>
    requires { length hop.now + length link.now ≤ 255 }
    ensures ok { OnOk result (O.written out.new ≡ O.written out.old ++ reach_row family (hop.now ++ link.now) routes.now) }
    ensures hops { OnOk result (AreOctets hop.now × AreOctets link.now) }
    ensures routes { OnOk result (AllByRecursion (IsValid W) routes.now) }
    ensures err { OnErr result (Extends (O.written out.old) (O.written out.new) × (O.room < length (O.written out.old) + length (reach_row family (hop.now ++ link.now) routes.now))) }
{
    put_hops(family, hop, link, out)?;
    write_run(routes, out)
}

/// The octets of an address.
pub(crate) fn address_octets<const N: usize>(addr: &[u8; N]) -> &[u8]
    ensures value { result.now ≡ addr.now }
    ensures wide { length addr.now ≡ N }
{
    addr.as_slice()
}

/// Appends MP_REACH_NLRI's value.
fn put_reach<O: Output>(reach: &MpReach, out: &mut O) -> Result<(), AllocError>
    ensures ok { OnOk result ((O.written out.new ≡ O.written out.old ++ reach_octets reach.now) × HasRanges (attr.MpReach reach.now)) }
    ensures err { OnErr result (Extends (O.written out.old) (O.written out.new) × (O.room < length (O.written out.old) + length (reach_octets reach.now))) }
{
    match reach {
        MpReach::Ip4 { next_hop, nlri } => {
            let hop = address_octets(next_hop);
            put_reach_row(afi::IPV4, hop, &[], nlri, out)
        }
        MpReach::Ip6 {
            next_hop,
            link_local: None,
            nlri,
        } => {
            let hop = address_octets(next_hop);
            put_reach_row(afi::IPV6, hop, &[], nlri, out)
        }
        MpReach::Ip6 {
            next_hop,
            link_local: Some(link),
            nlri,
        } => {
            let hop = address_octets(next_hop);
            let link = address_octets(link);
            put_reach_row(afi::IPV6, hop, link, nlri, out)
        }
    }
}

/// Appends a family and prefixes.
fn put_unreach_row<const W: usize, O: Output>(
    family: u16,
    routes: &[Prefix<W>],
    out: &mut O,
) -> Result<(), AllocError>
    ensures ok { OnOk result (O.written out.new ≡ O.written out.old ++ unreach_row family routes.now) }
    ensures routes { OnOk result (AllByRecursion (IsValid W) routes.now) }
    ensures err { OnErr result (Extends (O.written out.old) (O.written out.new) × (O.room < length (O.written out.old) + length (unreach_row family routes.now))) }
{
    let [high, low] = family.to_be_bytes();
    put_octets(&[high, low, safi::UNICAST], out)?;
    write_run(routes, out)
}

/// Appends MP_UNREACH_NLRI's value.
fn put_unreach<O: Output>(unreach: &MpUnreach, out: &mut O) -> Result<(), AllocError>
    ensures ok { OnOk result ((O.written out.new ≡ O.written out.old ++ unreach_octets unreach.now) × HasRanges (attr.MpUnreach unreach.now)) }
    ensures err { OnErr result (Extends (O.written out.old) (O.written out.new) × (O.room < length (O.written out.old) + length (unreach_octets unreach.now))) }
{
    match unreach {
        MpUnreach::Ip4(routes) => put_unreach_row(afi::IPV4, routes, out),
        MpUnreach::Ip6(routes) => put_unreach_row(afi::IPV6, routes, out),
    }
}

/// Appends the value of an attribute that isn't recognised.
fn put_opaque<O: Output>(opaque: &Opaque, out: &mut O) -> Result<(), AllocError>
    ensures ok { OnOk result ((O.written out.new ≡ O.written out.old ++ opaque.now.value) × HasRanges (attr.Opaque opaque.now)) }
    ensures err { OnErr result (Extends (O.written out.old) (O.written out.new) × (O.room < length (O.written out.old) + length opaque.now.value)) }
{
    // The type is read only to prove its range.
    let _kind = opaque.kind;
    put_octets(&opaque.value, out)
}

/// Appends the value of an attribute.
pub(crate) fn put_value<O: Output>(
    ctx: &Context,
    attr: AttrRef<'_>,
    out: &mut O,
) -> Result<(), AllocError>
    requires { is_empty (ref_value attr) ≡ false }
    ensures ok { OnOk result ((O.written out.new ≡ O.written out.old ++ value_octets ctx.now (ref_value attr.entry)) × HasRanges (ref_value attr.entry)) }
    ensures err { OnErr result (Extends (O.written out.old) (O.written out.new) × (O.room < length (O.written out.old) + length (value_octets ctx.now (ref_value attr.entry)))) }
{
    match attr {
        AttrRef::Origin(origin) => put_octets(&[origin as u8], out),
        AttrRef::AsPath(path) => put_path(ctx.as4, &path.segments, out),
        AttrRef::NextHop(addr) => put_address(addr, out),
        AttrRef::Med(number) | AttrRef::LocalPref(number) => put_number(true, number, out),
        AttrRef::Atomic => Ok(()),
        AttrRef::Aggregator(aggregator) => put_aggregator(ctx.as4, aggregator, out),
        AttrRef::Communities(communities) => put_numbers(&communities.values, out),
        AttrRef::MpReach(reach) => put_reach(reach, out),
        AttrRef::MpUnreach(unreach) => put_unreach(unreach, out),
        AttrRef::As4Path(path) => put_path(true, &path.path.segments, out),
        AttrRef::As4Aggregator(aggregator) => put_aggregator(true, aggregator, out),
        AttrRef::Large(communities) => put_triples(&communities.values, out),
        AttrRef::Opaque(opaque) => put_opaque(opaque, out),
    }
}

/// Appends the value of an attribute from its view.
#[inline(always)]
pub(crate) fn put_view_value<O: Output>(
    ctx: &Context,
    view: &AttrView<'_>,
    out: &mut O,
) -> Result<(), AllocError>
    requires { is_empty (attr_value view.now) ≡ false }
    ensures ok { OnOk result (O.written out.new ≡ O.written out.old ++ value_octets ctx.now (attr_value view.now)) }
    ensures err { OnErr result (Extends (O.written out.old) (O.written out.new) × (O.room < length (O.written out.old) + length (value_octets ctx.now (attr_value view.now)))) }
{
    match view {
        AttrView::Origin(origin) => put_octets(&[*origin as u8], out),
        AttrView::AsPath(path) => put_view::put_path(ctx.as4, *path, out),
        AttrView::NextHop(addr) => put_address(addr, out),
        AttrView::Med(number) | AttrView::LocalPref(number) => put_number(true, *number, out),
        AttrView::Atomic => Ok(()),
        AttrView::Aggregator(aggregator) => put_aggregator(ctx.as4, aggregator, out),
        AttrView::Communities(communities) => put_view::put_communities(communities.values, out),
        AttrView::MpReach(reach) => put_view::put_reach(reach, out),
        AttrView::MpUnreach(unreach) => put_view::put_unreach(unreach, out),
        AttrView::As4Path(path) => put_view::put_path(true, path.path, out),
        AttrView::As4Aggregator(aggregator) => put_aggregator(true, aggregator, out),
        AttrView::Large(communities) => put_view::put_large(communities.values, out),
        AttrView::Opaque(opaque) => put_octets(opaque.value, out),
    }
}
