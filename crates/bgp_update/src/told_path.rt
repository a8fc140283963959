//! AS_PATH for a 2-octet-AS peer, written from its view.

ghost use Rattle.std.specs.Prelude.{◌≡◌, ◌≤◌, ◌++◌, false, true, length, option_map, OnOk, OnErr};
ghost use Rattle.std.specs.List.{flat_map, list_any, AllByRecursion};
ghost use Rattle.bgp_attr.specs.declared.attr.Attr.TheVariants as attr;
ghost use Rattle.bgp_wire.specs.Prelude.{Extends};
ghost use Rattle.bgp_attr.specs.Prelude.{as_numbers_left, number_octets, path_value, segment_value, any_number, canonical, is_above_two_octets, is_bad_segment, is_writable, path_octets, segment_code, segment_octets};
ghost use Rattle.bgp_update.specs.Prelude.{present, narrow_number, narrow_path, narrow_segment};

use crate::two_octets::narrow_number;
use bgp_attr::{AsNumberIter, AttrView, PathView, SegKind, SegmentView, begin_attr, finish_attr};
use bgp_open::Context;
use bgp_prefix::AsNumber;
use std::alloc::AllocError;

/// Whether a number needs four octets.
fn has_wide_number(numbers: AsNumberIter<'_>) -> bool
    ensures { result ≡ list_any (λ n. is_above_two_octets n.0) (as_numbers_left numbers.entry) }
{
    'row: for number in numbers {
        if number.0 > 65535 {
            return true;
        }
    }
    false
}

/// Whether a number of the path needs four octets.
pub(crate) fn is_wide_path(path: PathView<'_>) -> bool
    ensures { result ≡ any_number is_above_two_octets (path_value path.entry) }
{
    'path: for segment in path.segments() {
        if has_wide_number(segment.numbers) {
            return true;
        }
    }
    false
}

/// Appends a number in two octets, or AS_TRANS.
#[inline(always)]
fn put_number(number: AsNumber, out: &mut Vec<u8>) -> Result<(), AllocError>
    ensures ok { OnOk result (out.new.items ≡ out.old.items ++ number_octets false (narrow_number number).0) }
    ensures err { OnErr result (Extends out.old.items out.new.items) }
{
    let [_, _, high, low] = narrow_number(number).0.to_be_bytes();
    out.extend_from_slice(&[high, low])
}

/// Appends numbers.
fn put_numbers(numbers: AsNumberIter<'_>, out: &mut Vec<u8>) -> Result<(), AllocError>
    ensures ok { OnOk result (out.new.items ≡ out.old.items ++ flat_map (λ n. number_octets false (narrow_number n).0) (as_numbers_left numbers.entry)) }
    ensures err { OnErr result (Extends out.old.items out.new.items) }
{
    'row: for number in numbers {
        put_number(number, out)?;
    }
    Ok(())
}

/// The octet of a segment's type.
fn segment_code(kind: SegKind) -> u8
    ensures { result ≡ segment_code kind }
{
    kind as u8
}

/// Appends a segment.
fn put_segment(segment: SegmentView<'_>, out: &mut Vec<u8>) -> Result<(), AllocError>
    requires { is_bad_segment (narrow_segment (segment_value segment)) ≡ false }
    ensures ok { OnOk result (out.new.items ≡ out.old.items ++ segment_octets false (narrow_segment (segment_value segment.entry))) }
    ensures err { OnErr result (Extends out.old.items out.new.items) }
{
    let count = segment.numbers.left() as u8;
    out.extend_from_slice(&[segment_code(segment.kind), count])?;
    put_numbers(segment.numbers, out)
}

/// Appends the segments of a path.
fn put_path(path: PathView<'_>, out: &mut Vec<u8>) -> Result<(), AllocError>
    requires { list_any is_bad_segment (narrow_path (path_value path)).segments ≡ false }
    ensures ok { OnOk result (out.new.items ≡ out.old.items ++ path_octets false (narrow_path (path_value path.entry))) }
    ensures err { OnErr result (Extends out.old.items out.new.items) }
{
    'path: for segment in path.segments() {
        put_segment(segment, out)?;
    }
    Ok(())
}

/// Appends an AS_PATH; after an error a part of it may remain.
fn put_narrow_path(ctx: &Context, path: PathView<'_>, out: &mut Vec<u8>) -> Result<(), AllocError>
    requires narrow { ctx.now.as4 ≡ false }
    requires writable { is_writable ctx.now (attr.AsPath (narrow_path (path_value path))) ≡ true }
    ensures ok { OnOk result (out.new.items ≡ out.old.items ++ canonical ctx.now (attr.AsPath (narrow_path (path_value path.entry)))) }
    ensures err { OnErr result (Extends out.old.items out.new.items) }
{
    // The width of its numbers is known.
    let _ctx = ctx;
    let start = out.len();
    begin_attr(out)?;
    put_path(path, out)?;
    finish_attr(&AttrView::AsPath(path), start, out)
}

/// Appends an AS_PATH, where there is one; after an error a part of it may remain.
pub(crate) fn put_told_path(
    ctx: &Context,
    path: Option<PathView<'_>>,
    out: &mut Vec<u8>,
) -> Result<(), AllocError>
    requires narrow { ctx.now.as4 ≡ false }
    requires writable { AllByRecursion (λ a. is_writable ctx.now a ≡ true) (present attr.AsPath (option_map narrow_path (option_map path_value path))) }
    ensures ok { OnOk result (out.new.items ≡ out.old.items ++ flat_map (canonical ctx.now) (present attr.AsPath (option_map narrow_path (option_map path_value path.entry)))) }
    ensures err { OnErr result (Extends out.old.items out.new.items) }
{
    match path {
        None => Ok(()),
        Some(path) => put_narrow_path(ctx, path, out),
    }
}
