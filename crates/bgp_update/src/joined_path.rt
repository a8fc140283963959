//! The path of AS_PATH and AS4_PATH together, borrowed.

ghost use Rattle.std.specs.Prelude.{◌≡◌, [], ◌∷◌, ◌++◌, IfOk, OnOk};
ghost use Rattle.bgp_attr.specs.Prelude.{path_value, segment_value};
ghost use Rattle.bgp_update.specs.As4.{joined};

use crate::view_items::{items_of, next_leading};
use bgp_attr::{AsPath, PathView, Segment, SegmentIter, SegmentView};
use bgp_wire::List;
use std::alloc::{AllocError, Global};
use std::iter::FusedIterator;

/// Appends a segment, with memory of its own.
fn push_own(
    alloc: Global,
    segment: SegmentView<'_>,
    to: &mut List<Segment>,
) -> Result<(), AllocError>
    ensures { OnOk result (to.new ≡ to.old ++ segment_value segment.entry ∷ []) }
{
    to.push(segment.own(alloc)?)
}

/// The first items of AS_PATH and then AS4_PATH, or AS_PATH alone, borrowed (RFC 6793, section 4.2.3).
#[derive(Clone, Copy)]
pub struct JoinedPathView<'a> {
    /// The number of leading items of the first path: 0 where AS_PATH is used alone, and is the second path then.
    items: usize,
    leading: PathView<'a>,
    behind: PathView<'a>,
}

impl<'a> JoinedPathView<'a> {
    ghost use Rattle.bgp_update.specs.PathInfoView.{joined_value, joined_left};

    /// A single path.
    #[tactic(auto, using(crate::proofs::PathItems::no_lead))]
    pub(crate) fn alone(path: PathView<'a>) -> JoinedPathView<'a>
        ensures { joined_value result ≡ path_value path.entry }
    {
        JoinedPathView {
            items: 0,
            leading: path,
            behind: path,
        }
    }

    /// AS4_PATH with the surplus leading items of AS_PATH prepended; AS_PATH alone where that has fewer items than AS4_PATH.
    pub(crate) fn new(path: PathView<'a>, wide: PathView<'a>) -> JoinedPathView<'a>
        ensures { joined_value result ≡ joined (path_value path.entry) (path_value wide.entry) }
    {
        let all = items_of(path);
        let known = items_of(wide);
        if all < known {
            return JoinedPathView::alone(path);
        }
        JoinedPathView {
            items: all - known,
            leading: path,
            behind: wide,
        }
    }

    /// The segments, the nearest first.
    pub fn segments(&self) -> JoinedSegmentIter<'a>
        ensures { joined_left result ≡ (joined_value self.now).segments }
    {
        JoinedSegmentIter {
            items: self.items,
            leading: self.leading.segments(),
            behind: self.behind.segments(),
        }
    }

    /// The path, with memory of its own.
    ///
    /// # Errors
    /// `AllocError` where an allocation failed.
    pub fn own(self, alloc: Global) -> Result<AsPath, AllocError>
        ensures { IfOk result (λ p. p ≡ joined_value self.entry) }
    {
        let mut segments = List::new(alloc);
        let mut left = self.segments();
        'path: while let Some(segment) = left.next() {
            push_own(alloc, segment, &mut segments)?;
        }
        Ok(AsPath { segments })
    }
}

/// The segments of such a path, the nearest first. It allocates nothing.
#[derive(Clone, Copy)]
pub struct JoinedSegmentIter<'a> {
    items: usize,
    leading: SegmentIter<'a>,
    behind: SegmentIter<'a>,
}

impl<'a> Iterator for JoinedSegmentIter<'a> {
    ghost use Rattle.std.specs.Iterator.{YieldsFirstBy, item_count};
    ghost use Rattle.bgp_attr.specs.PathView.{segment_value};
    ghost use Rattle.bgp_update.specs.PathInfoView.{joined_left};

    type Item = SegmentView<'a>;

    ghost next_gives = { YieldsFirstBy segment_value joined_left };

    ghost remaining = { item_count joined_left };

    fn next(&mut self) -> Option<SegmentView<'a>> {
        if let Some(segment) = next_leading(&mut self.items, &mut self.leading) {
            return Some(segment);
        }
        self.behind.next()
    }
}

impl<'a> FusedIterator for JoinedSegmentIter<'a> {}
