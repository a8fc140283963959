//! Segments of a path in octets.

ghost use Rattle.std.specs.Prelude.{◌≡◌, ◌==◌, Some, option_map};
ghost use Rattle.std.specs.Option.{option_or};
ghost use Rattle.std.specs.List.{list_any};
ghost use Rattle.bgp_attr.specs.Prelude.{number_width, numbers_of, is_known, one_segment, segment_fault, path_fault, why_malformed, kind_of_segment, wire_segment};
ghost use Rattle.bgp_attr.specs.declared.why.Why.TheVariants as why;

use crate::numbers::first_number;
use crate::path::SegKind;
use crate::path_form::PathForm;
use crate::why::Why;
use bgp_numbers::segment;

/// A segment of any known type, in octets (RFC 4271, section 4.3).
#[derive(Clone, Copy)]
pub struct RawSegment<'a> {
    /// The type.
    pub code: u8,
    /// The octets of its AS numbers.
    pub numbers: &'a [u8],
}

/// The width of an AS number in octets.
pub(crate) fn number_width(wide: bool) -> usize
    ensures { result ≡ number_width wide }
{
    if wide { 4 } else { 2 }
}

/// Whether segments of this type are read.
fn is_known(form: PathForm, code: u8) -> bool
    ensures { result ≡ is_known form code }
{
    match code {
        segment::SET | segment::SEQUENCE => true,
        segment::CONFED_SEQUENCE | segment::CONFED_SET => form.confederations,
        _ => false,
    }
}

/// The kind of a segment of this type: None for those of confederations, which are dropped.
pub(crate) fn kind_of(code: u8) -> Option<SegKind>
    ensures { result ≡ kind_of_segment code }
{
    match code {
        segment::SET => Some(SegKind::Set),
        segment::SEQUENCE => Some(SegKind::Seq),
        _ => None,
    }
}

/// The segment at the front of a path, and what follows it (RFC 4271, section 4.3).
pub fn first_segment(form: PathForm, octets: &[u8]) -> Option<(RawSegment<'_>, &[u8])>
    ensures { option_map (λ x. (wire_segment form.wide x.0, x.1.now)) result ≡ one_segment form octets.now }
{
    let [code, count, rest @ ..] = octets else {
        return None;
    };
    let len = usize::from(*count) * number_width(form.wide);
    let Some((numbers, rest)) = rest.split_at_checked(len) else {
        return None;
    };
    if !is_known(form, *code) || *count == 0 {
        return None;
    }
    let raw = RawSegment {
        code: *code,
        numbers,
    };
    Some((raw, rest))
}

/// Why no segment is at the front of what is left.
fn segment_fault(form: PathForm, rest: &[u8]) -> Option<Why>
    ensures { result ≡ segment_fault form rest.now }
{
    match rest {
        [] => None,
        [_] => Some(Why::SegmentEnd),
        [code, ..] if !is_known(form, *code) => Some(Why::SegmentType),
        [_, 0, ..] => Some(Why::SegmentCount),
        _ => Some(Why::SegmentEnd),
    }
}

/// Whether one of the numbers is 0.
fn has_zero(wide: bool, octets: &[u8]) -> bool
    ensures { result ≡ list_any (λ n. n == 0) (numbers_of wide octets.now) }
{
    let mut rest = octets;
    'row: while let Some((number, after)) = first_number(wide, rest) {
        if number == 0 {
            return true;
        }
        rest = after;
    }
    false
}

/// The first fault of a path.
fn path_fault(form: PathForm, octets: &[u8]) -> Option<Why>
    ensures { result ≡ path_fault form octets.now }
{
    let mut rest = octets;
    'path: while let Some((_, after)) = first_segment(form, rest) {
        rest = after;
    }
    segment_fault(form, rest)
}

/// Why a path is malformed that has an AS number 0 before these octets, which is rare.
#[inline(never)]
fn why_behind_zero(form: PathForm, octets: &[u8]) -> Option<Why>
    ensures { result ≡ option_or (path_fault form octets.now) (Some why.AsZero) }
{
    match path_fault(form, octets) {
        None => Some(Why::AsZero),
        fault => fault,
    }
}

/// Why a path is malformed: its first fault, or else an AS number 0 in a segment, also in one that is dropped (RFC 7607, section 2).
pub(crate) fn why_malformed(form: PathForm, octets: &[u8]) -> Option<Why>
    ensures { result ≡ why_malformed form octets.now }
{
    let mut rest = octets;
    'path: while let Some((segment, after)) = first_segment(form, rest) {
        if has_zero(form.wide, segment.numbers) {
            return why_behind_zero(form, after);
        }
        rest = after;
    }
    segment_fault(form, rest)
}
