//! The lines of attributes.

ghost use Rattle.std.specs.Prelude.{◌≡◌, ◌++◌, map, codes, OnOk};
ghost use Rattle.bgp_text.specs.Below.{flat_map, string_bytes, attr_value, opaque_value};
ghost use Rattle.bgp_text.specs.Lines.{line_of};
ghost use Rattle.bgp_text.specs.AttributeLines.{origin_name, aggregator_line, flags_text, opaque_line, attribute_lines};

use crate::community_lines::{put_communities, put_large};
use crate::info::put_info;
use crate::mp_lines::{put_reach, put_unreach};
use crate::path_line::put_path_line;
use crate::short::{Decimal, put_line, put_one};
use bgp_attr::{Aggregator, AttrView, OpaqueView, Origin};
use bgp_prefix::{Address, AsNumber};
use std::alloc::{AllocError, Global};

/// The name of an origin.
pub(crate) fn origin_name(origin: Origin) -> &'static str
    ensures { result.now ≡ origin_name origin }
{
    match origin {
        Origin::Igp => "IGP",
        Origin::Egp => "EGP",
        Origin::Incomplete => "INCOMPLETE",
    }
}

/// ORIGIN.
fn put_origin(text: &mut String, origin: Origin) -> Result<(), AllocError>
    ensures { OnOk result (string_bytes text.new ≡ string_bytes text.old ++ line_of (codes "  origin ") origin_name origin) }
{
    match origin {
        Origin::Igp => text.push_str("  origin IGP\n"),
        Origin::Egp => text.push_str("  origin EGP\n"),
        Origin::Incomplete => text.push_str("  origin INCOMPLETE\n"),
    }
}

/// An aggregator's AS number and address after a label.
fn put_aggregator(text: &mut String, label: &str, aggregator: Aggregator) -> Result<(), AllocError>
    ensures { OnOk result (string_bytes text.new ≡ string_bytes text.old ++ aggregator_line label.now aggregator) }
{
    let AsNumber(number) = aggregator.asn;
    let addr = Address(aggregator.addr);
    write!(text, "{label}{number} {addr}\n")
}

/// The letters of the Transitive and the Partial bit.
fn flags_text(transitive: bool, partial: bool) -> &'static str
    ensures { result.now ≡ flags_text transitive partial }
{
    match (transitive, partial) {
        (false, false) => "-",
        (true, false) => "t",
        (false, true) => "p",
        (true, true) => "tp",
    }
}

/// An attribute whose type isn't recognised.
fn put_opaque(alloc: Global, text: &mut String, opaque: &OpaqueView<'_>) -> Result<(), AllocError>
    ensures { OnOk result (string_bytes text.new ≡ string_bytes text.old ++ opaque_line (opaque_value opaque.now)) }
{
    text.push_str("  attr ")?;
    put_one(text, Decimal(opaque.kind))?;
    text.push_str(" ")?;
    text.push_str(flags_text(opaque.transitive, opaque.partial))?;
    text.push_str(" ")?;
    put_info(alloc, text, opaque.value)?;
    text.push_str("\n")
}

/// Attributes whose type isn't recognised.
pub(crate) fn put_others(
    alloc: Global,
    text: &mut String,
    others: &[OpaqueView<'_>],
) -> Result<(), AllocError>
    ensures { OnOk result (string_bytes text.new ≡ string_bytes text.old ++ flat_map opaque_line (map opaque_value others.now)) }
{
    for opaque in others {
        put_opaque(alloc, text, opaque)?;
    }
    Ok(())
}

/// Adds the lines of an attribute.
///
/// # Errors
/// `AllocError` where an allocation failed.
#[tactic(auto, unfolding(crate::specs::AttributeLines::attribute_lines))]
#[inline(always)]
pub fn put_attribute(
    alloc: Global,
    text: &mut String,
    attr: &AttrView<'_>,
) -> Result<(), AllocError>
    ensures { OnOk result (string_bytes text.new ≡ string_bytes text.old ++ attribute_lines (attr_value attr.now)) }
{
    match *attr {
        AttrView::Origin(origin) => put_origin(text, origin),
        AttrView::AsPath(path) => put_path_line(text, "  as_path", path),
        AttrView::NextHop(next_hop) => put_line(text, "  next_hop ", Address(next_hop)),
        AttrView::Med(metric) => put_line(text, "  med ", Decimal(metric)),
        AttrView::LocalPref(preference) => put_line(text, "  local_pref ", Decimal(preference)),
        AttrView::Atomic => text.push_str("  atomic\n"),
        AttrView::Aggregator(aggregator) => put_aggregator(text, "  aggregator ", aggregator),
        AttrView::Communities(communities) => put_communities(text, communities.values),
        AttrView::MpReach(reach) => put_reach(text, reach),
        AttrView::MpUnreach(unreach) => put_unreach(text, unreach),
        AttrView::As4Path(as4_path) => put_path_line(text, "  as4_path", as4_path.path),
        AttrView::As4Aggregator(aggregator) => put_aggregator(
            text,
            "  as4_aggregator ",
            aggregator,
        ),
        AttrView::Large(communities) => put_large(text, communities.values),
        AttrView::Opaque(opaque) => put_opaque(alloc, text, &opaque),
    }
}
