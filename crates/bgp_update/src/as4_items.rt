//! The items of AS paths, and the first of them.

ghost use Rattle.std.specs.Prelude.{◌≡◌, ◌≤◌, ◌++◌, take, IfOk, OnOk};
ghost use Rattle.bgp_update.specs.Prelude.{items_in, items_of, front_by, lead};

use bgp_attr::{SegKind, Segment};
use bgp_prefix::AsNumber;
use bgp_wire::List;
use std::alloc::{AllocError, Global};

/// The items of a segment: each number of a sequence is one, and each set (RFC 4271, section 9.1.2.2).
fn items_in(segment: &Segment) -> u128
    ensures value { result ≡ items_in segment.now }
    ensures bound { result ≤ 18446744073709551615 }
{
    let count = segment.numbers.len() as u128;
    match segment.kind {
        SegKind::Set => 1,
        SegKind::Seq => count,
    }
}

/// The items of a path: in 128 bits, since those of all segments together may exceed a `usize`.
pub(crate) fn items_of(segments: &[Segment]) -> u128
    ensures { result ≡ items_of segments.now }
{
    let mut items = 0u128;
    'path: for segment in segments {
        items += items_in(segment);
    }
    items
}

/// The first of the numbers, or all where there are fewer.
fn first_numbers(
    alloc: Global,
    count: u128,
    numbers: &[AsNumber],
) -> Result<List<AsNumber>, AllocError>
    ensures { IfOk result (λ first. first ≡ take count numbers.now) }
{
    let end = if count < numbers.len() as u128 {
        count as usize
    } else {
        numbers.len()
    };
    Ok(List::from_vec(Vec::from_slice(alloc, &numbers[..end])?))
}

/// Appends the first items of a segment: a set whole, a sequence as far as they go.
fn add_front(
    alloc: Global,
    items: u128,
    segment: &Segment,
    to: &mut Vec<Segment>,
) -> Result<(), AllocError>
    ensures { OnOk result (to.new.items ≡ to.old.items ++ front_by items segment.now.kind segment.now.numbers) }
{
    if segment.kind == SegKind::Set {
        to.push(segment.copy(alloc)?)?;
    } else if !segment.numbers.is_empty() {
        let numbers = first_numbers(alloc, items, &segment.numbers)?;
        to.push(Segment {
            kind: SegKind::Seq,
            numbers,
        })?;
    }
    Ok(())
}

/// Appends the first items of a path, in their segments.
pub(crate) fn add_lead(
    alloc: Global,
    items: u128,
    segments: &[Segment],
    to: &mut Vec<Segment>,
) -> Result<(), AllocError>
    ensures { OnOk result (to.new.items ≡ to.old.items ++ lead items segments.now) }
{
    let mut left = items;
    'path: for segment in segments {
        if left == 0 {
            break 'path;
        }
        add_front(alloc, left, segment, to)?;
        left = left.saturating_sub(items_in(segment));
    }
    Ok(())
}

/// Appends equal segments.
pub(crate) fn add_copies(
    alloc: Global,
    segments: &[Segment],
    to: &mut Vec<Segment>,
) -> Result<(), AllocError>
    ensures { OnOk result (to.new.items ≡ to.old.items ++ segments.now) }
{
    'path: for segment in segments {
        to.push(segment.copy(alloc)?)?;
    }
    Ok(())
}
