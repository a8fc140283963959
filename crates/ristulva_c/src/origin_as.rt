//! The origin AS of a route.

ghost use Rattle.std.specs.Prelude.{◌≡◌, Option};
ghost use Rattle.bgp_attr.specs.Prelude.{as_numbers_left, segment_value};
ghost use Rattle.bgp_update.specs.Prelude.{info_value, joined_value};
ghost use Rattle.ristulva_c.specs.Prelude.{last_number, last_by, origin_in, origin_of};

use bgp_attr::{AsNumberIter, SegKind, SegmentView};
use bgp_update::{JoinedPathView, PathInfoView};

/// The last of some AS numbers.
fn last_number(numbers: AsNumberIter<'_>) -> Option<u32>
    ensures { result ≡ last_number (as_numbers_left numbers.entry) }
{
    let mut last = None;
    let mut left = numbers;
    'numbers: while let Some(number) = left.next() {
        last = Some(number.0);
    }
    last
}

/// The last number of a segment, where it is a sequence.
fn last_in(segment: &SegmentView<'_>) -> Option<u32>
    ensures { result ≡ last_by (segment_value segment.now).kind (segment_value segment.now).numbers }
{
    match segment.kind {
        SegKind::Set => None,
        SegKind::Seq => last_number(segment.numbers),
    }
}

/// The last number of a path, where it ends in a sequence.
fn origin_in(path: &JoinedPathView<'_>) -> Option<u32>
    ensures { result ≡ origin_in (joined_value path.now).segments }
{
    let mut last = None;
    let mut left = path.segments();
    'path: while let Some(segment) = left.next() {
        last = last_in(&segment);
    }
    last
}

/// The origin AS of a route, where its path ends in a sequence.
pub(crate) fn origin_as(info: &PathInfoView<'_>) -> Option<u32>
    ensures { result ≡ origin_of (info_value info.now).path }
{
    match &info.path {
        None => None,
        Some(path) => origin_in(path),
    }
}
