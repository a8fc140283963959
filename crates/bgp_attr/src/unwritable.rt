//! Why an attribute isn't written.

ghost use Rattle.std.specs.Prelude.{◌≡◌};
ghost use Rattle.std.specs.List.{list_any};
ghost use Rattle.bgp_attr.specs.Prelude.{ref_value, same_triple, any_number, is_above_two_octets, is_zero, is_too_wide, is_as4, is_bad_segment, is_empty, is_misnamed, has_as_zero, repeats, stands_twice};

use crate::attr::AttrRef;
use crate::judging::is_recognised;
use crate::large_view::is_same;
use crate::path::{AsPath, Segment};
use bgp_open::Context;

/// Why an attribute can't be written in a context: the first reason in this order.
#[derive(Clone, Copy, Debug, PartialEq, Eq)]
pub enum Unwritable {
    /// An AS number above 65535 where AS numbers have two octets (RFC 6793, section 4.2.2).
    AsWidth,
    /// AS4_PATH or AS4_AGGREGATOR where AS numbers have four octets (RFC 6793, section 4.1).
    As4,
    /// A segment of no numbers or more than 255, no communities, or an AS4_PATH without segments.
    Empty,
    /// An [`Opaque`](crate::Opaque) of a type that is recognised.
    Recognised,
    /// An AS number 0 (RFC 7607, section 2).
    AsZero,
    /// A large community that is there twice (RFC 8092, section 3).
    Twice,
    /// A value of more than 65535 octets, which no length field can hold (RFC 4271, section 4.3).
    TooLong,
}

/// Whether a number of the segment needs more than two octets.
fn has_wide_number(segment: &Segment) -> bool
    ensures { result ≡ list_any (λ n. is_above_two_octets n.0) segment.now.numbers }
{
    segment.numbers.iter().any(|n| n.0 > 65535)
}

/// Whether a number of the path needs more than two octets.
fn is_wide_path(path: &AsPath) -> bool
    ensures { result ≡ any_number is_above_two_octets path.now }
{
    path.segments.iter().any(|segment| has_wide_number(segment))
}

/// Whether a number of the segment is 0.
fn has_zero_number(segment: &Segment) -> bool
    ensures { result ≡ list_any (λ n. is_zero n.0) segment.now.numbers }
{
    segment.numbers.iter().any(|n| n.0 == 0)
}

/// Whether a number of the path is 0.
fn is_zero_path(path: &AsPath) -> bool
    ensures { result ≡ any_number is_zero path.now }
{
    path.segments.iter().any(|segment| has_zero_number(segment))
}

/// Whether an AS number doesn't fit its two octets.
pub fn is_too_wide(ctx: &Context, attr: AttrRef<'_>) -> bool
    ensures { result ≡ is_too_wide ctx.now (ref_value attr.entry) }
{
    match attr {
        AttrRef::AsPath(path) => !ctx.as4 && is_wide_path(path),
        AttrRef::Aggregator(aggregator) => !ctx.as4 && aggregator.asn.0 > 65535,
        _ => false,
    }
}

/// Whether the attribute is for speakers with AS numbers of two octets.
pub fn is_as4(attr: AttrRef<'_>) -> bool
    ensures { result ≡ is_as4 (ref_value attr.entry) }
{
    match attr {
        AttrRef::As4Path(_) | AttrRef::As4Aggregator(_) => true,
        _ => false,
    }
}

/// Whether the count of the segment's numbers can't be written.
fn is_bad_segment(segment: &Segment) -> bool
    ensures { result ≡ is_bad_segment segment.now }
{
    segment.numbers.is_empty() || segment.numbers.len() > 255
}

/// Whether the path has a segment whose count can't be written.
fn has_bad_segment(path: &AsPath) -> bool
    ensures { result ≡ list_any is_bad_segment path.now.segments }
{
    path.segments.iter().any(|segment| is_bad_segment(segment))
}

/// Whether something is empty that mustn't be: a segment of no numbers (or of more than 255), no communities, an AS4_PATH of nothing.
pub fn is_empty(attr: AttrRef<'_>) -> bool
    ensures { result ≡ is_empty (ref_value attr.entry) }
{
    match attr {
        AttrRef::AsPath(path) => has_bad_segment(path),
        AttrRef::As4Path(path) => path.path.segments.is_empty() || has_bad_segment(&path.path),
        AttrRef::Communities(communities) => communities.values.is_empty(),
        AttrRef::Large(communities) => communities.values.is_empty(),
        _ => false,
    }
}

/// Whether an `Opaque` has a type that is recognised.
pub fn is_misnamed(attr: AttrRef<'_>) -> bool
    ensures { result ≡ is_misnamed (ref_value attr.entry) }
{
    match attr {
        AttrRef::Opaque(opaque) => is_recognised(opaque.kind),
        _ => false,
    }
}

/// Whether an AS number is 0.
pub fn has_as_zero(attr: AttrRef<'_>) -> bool
    ensures { result ≡ has_as_zero (ref_value attr.entry) }
{
    match attr {
        AttrRef::AsPath(path) => is_zero_path(path),
        AttrRef::As4Path(path) => is_zero_path(&path.path),
        AttrRef::Aggregator(aggregator) | AttrRef::As4Aggregator(aggregator) => aggregator.asn.0
            == 0,
        _ => false,
    }
}

/// Whether a triple is among others.
fn is_among(triple: &[u32; 3], others: &[[u32; 3]]) -> bool
    ensures { result ≡ list_any (same_triple triple.now) others.now }
{
    others.iter().any(|other| is_same(triple, other))
}

/// Whether a triple is also among those after it.
fn repeats(values: &[[u32; 3]]) -> bool
    ensures { result ≡ repeats values.now }
{
    let mut rest = values;
    'row: while let Some((first, later)) = rest.split_first() {
        if is_among(first, later) {
            return true;
        }
        rest = later;
    }
    false
}

/// Whether a large community is there twice.
pub fn stands_twice(attr: AttrRef<'_>) -> bool
    ensures { result ≡ stands_twice (ref_value attr.entry) }
{
    match attr {
        AttrRef::Large(communities) => repeats(&communities.values),
        _ => false,
    }
}
