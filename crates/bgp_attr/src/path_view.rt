//! Paths borrowed from the octets read.

ghost use Rattle.std.specs.Prelude.{◌≡◌, IfOk};
ghost use Rattle.bgp_attr.specs.Path.{path_of};

use crate::first_kept::first_kept;
use crate::numbers::AsNumberIter;
use crate::path::{As4Path, AsPath, SegKind, Segment};
use crate::path_form::PathForm;
use bgp_wire::List;
use std::alloc::{AllocError, Global};
use std::iter::FusedIterator;

/// A segment whose numbers are borrowed.
#[derive(Clone, Copy)]
pub struct SegmentView<'a> {
    /// Whether its numbers are in order.
    pub kind: SegKind,
    /// The AS numbers: 1 to 255.
    pub numbers: AsNumberIter<'a>,
}

impl<'a> SegmentView<'a> {
    ghost use Rattle.bgp_attr.specs.PathView.{segment_value};

    /// The segment, with memory of its own.
    ///
    /// # Errors
    /// `AllocError` where an allocation failed.
    pub fn own(self, alloc: Global) -> Result<Segment, AllocError>
        ensures { IfOk result (λ s. s ≡ segment_value self.entry) }
    {
        let numbers = List::from_vec(self.numbers.collect(alloc)?);
        Ok(Segment {
            kind: self.kind,
            numbers,
        })
    }
}

/// A path whose segments are borrowed.
#[derive(Clone, Copy)]
pub struct PathView<'a> {
    form: PathForm,
    octets: &'a [u8],
}

impl<'a> PathView<'a> {
    ghost use Rattle.bgp_attr.specs.PathView.{path_value, segments_left};

    /// The path in octets of this form.
    pub(crate) fn new(form: PathForm, octets: &'a [u8]) -> PathView<'a>
        ensures { path_value result ≡ path_of form octets.now }
    {
        PathView { form, octets }
    }

    /// The segments that are kept, the nearest first.
    pub fn segments(&self) -> SegmentIter<'a>
        ensures { segments_left result ≡ (path_value self.now).segments }
    {
        SegmentIter {
            form: self.form,
            rest: self.octets,
        }
    }

    /// The path, with memory of its own.
    ///
    /// # Errors
    /// `AllocError` where an allocation failed.
    pub fn own(self, alloc: Global) -> Result<AsPath, AllocError>
        ensures { IfOk result (λ p. p ≡ path_value self.entry) }
    {
        let mut segments = List::new(alloc);
        'path: for segment in self.segments() {
            segments.push(segment.own(alloc)?)?;
        }
        Ok(AsPath { segments })
    }
}

/// The segments of a path that are kept, the nearest first. It allocates nothing.
#[derive(Clone, Copy)]
pub struct SegmentIter<'a> {
    form: PathForm,
    rest: &'a [u8],
}

impl<'a> Iterator for SegmentIter<'a> {
    ghost use Rattle.std.specs.Iterator.{YieldsFirstBy, item_count};
    ghost use Rattle.bgp_attr.specs.PathView.{segment_value, segments_left};

    type Item = SegmentView<'a>;

    ghost next_gives = { YieldsFirstBy segment_value segments_left };

    ghost remaining = { item_count segments_left };

    fn next(&mut self) -> Option<SegmentView<'a>> {
        let (segment, rest) = first_kept(self.form, self.rest)?;
        self.rest = rest;
        Some(segment)
    }
}

impl<'a> FusedIterator for SegmentIter<'a> {}

/// AS4_PATH, borrowed.
#[derive(Clone, Copy)]
pub struct As4PathView<'a> {
    /// The Partial bit.
    pub partial: bool,
    /// The path, of at least one segment in what is read.
    pub path: PathView<'a>,
}

impl As4PathView<'_> {
    ghost use Rattle.bgp_attr.specs.AttrView.{as4_path_value};

    /// The value, with memory of its own.
    ///
    /// # Errors
    /// `AllocError` where an allocation failed.
    pub fn own(self, alloc: Global) -> Result<As4Path, AllocError>
        ensures { IfOk result (λ p. p ≡ as4_path_value self.entry) }
    {
        let path = self.path.own(alloc)?;
        Ok(As4Path {
            partial: self.partial,
            path,
        })
    }
}
