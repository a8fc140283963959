//! The items of borrowed paths, and the first of them.

ghost use Rattle.std.specs.Prelude.{◌≡◌, [], ◌∷◌, MatchOption};
ghost use Rattle.bgp_attr.specs.Prelude.{as_numbers_left, path_value, segment_value, segments_left};
ghost use Rattle.bgp_update.specs.Prelude.{items_in, items_of, front_by, lead};

use bgp_attr::{PathView, SegKind, SegmentIter, SegmentView};

/// The items of a segment: each number of a sequence is one, and each set (RFC 4271, section 9.1.2.2).
fn items_in(segment: &SegmentView<'_>) -> usize
    ensures { result ≡ items_in (segment_value segment.now) }
{
    match segment.kind {
        SegKind::Set => 1,
        SegKind::Seq => segment.numbers.left(),
    }
}

/// The items of a path: no more than its octets.
pub(crate) fn items_of(path: PathView<'_>) -> usize
    ensures { result ≡ items_of (path_value path.entry).segments }
{
    let mut items = 0;
    'path: for segment in path.segments() {
        items += items_in(&segment);
    }
    items
}

/// The first items of a segment: a set whole, a sequence as far as they go, and nothing of an empty one.
fn first_items(items: usize, segment: SegmentView<'_>) -> Option<SegmentView<'_>>
    ensures { MatchOption result (front_by items segment.entry.kind (as_numbers_left segment.entry.numbers) ≡ [])
        (λ s. front_by items segment.entry.kind (as_numbers_left segment.entry.numbers) ≡ segment_value s ∷ []) }
{
    if segment.kind == SegKind::Set {
        return Some(segment);
    }
    if segment.numbers.left() == 0 {
        return None;
    }
    Some(SegmentView {
        kind: SegKind::Seq,
        numbers: segment.numbers.first(items),
    })
}

/// The first segment of the first items of a path; the rest remains.
pub(crate) fn next_leading<'a>(
    items: &mut usize,
    segments: &mut SegmentIter<'a>,
) -> Option<SegmentView<'a>>
    ensures { MatchOption result ((lead items.old (segments_left segments.old) ≡ []) × (lead items.new (segments_left segments.new) ≡ []))
        (λ s. lead items.old (segments_left segments.old) ≡ segment_value s ∷ lead items.new (segments_left segments.new)) }
{
    'path: while *items > 0 {
        let segment = segments.next()?;
        let front = first_items(*items, segment);
        *items = items.saturating_sub(items_in(&segment));
        if front.is_some() {
            return front;
        }
    }
    None
}
