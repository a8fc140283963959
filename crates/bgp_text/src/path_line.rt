//! The lines of AS paths.

ghost use Rattle.std.specs.Prelude.{◌≡◌, ◌++◌, OnOk, codes};
ghost use Rattle.bgp_text.specs.Below.{flat_map, string_bytes, path_value, segment_value, segments_left};
ghost use Rattle.bgp_text.specs.PathLine.{kind_name, segment_text, path_text, path_line};

use crate::short::{Short, put_row};
use crate::word::Word;
use bgp_attr::{PathView, SegKind, SegmentIter, SegmentView};
use bgp_prefix::AsNumber;
use std::alloc::AllocError;

/// The word for a kind of segment, after a space.
#[inline(always)]
fn spaced_name(kind: SegKind) -> &'static str
    ensures { result.now ≡ codes " " ++ kind_name kind }
{
    match kind {
        SegKind::Set => " set",
        SegKind::Seq => " seq",
    }
}

impl Short for AsNumber {
    ghost use Rattle.bgp_text.specs.PathLine.{number_text};

    ghost text = { number_text };

    ghost most = { 11 };

    #[inline(always)]
    fn put(self, word: &mut Word) {
        word.marked(b' ', self.0);
    }
}

/// Adds a segment after a space.
fn put_segment(text: &mut String, segment: &SegmentView<'_>) -> Result<(), AllocError>
    ensures { OnOk result (string_bytes text.new ≡ string_bytes text.old ++ segment_text (segment_value segment.now)) }
{
    text.push_str(spaced_name(segment.kind))?;
    put_row(text, segment.numbers)
}

/// Adds segments, each after a space.
fn put_segments(text: &mut String, segments: SegmentIter<'_>) -> Result<(), AllocError>
    ensures { OnOk result (string_bytes text.new ≡ string_bytes text.old ++ flat_map segment_text (segments_left segments.entry)) }
{
    let mut left = segments;
    'path: while let Some(segment) = left.next() {
        put_segment(text, &segment)?;
    }
    Ok(())
}

/// Adds a path after a space: a dash where it is empty.
#[tactic(auto, unfolding(crate::specs::PathLine::path_text))]
fn put_path(text: &mut String, path: PathView<'_>) -> Result<(), AllocError>
    ensures { OnOk result (string_bytes text.new ≡ string_bytes text.old ++ path_text (path_value path.entry)) }
{
    let mut segments = path.segments();
    let Some(first) = segments.next() else {
        return text.push_str(" -");
    };
    put_segment(text, &first)?;
    put_segments(text, segments)
}

/// Adds the line of a path, after a label.
#[inline(always)]
pub(crate) fn put_path_line(
    text: &mut String,
    label: &str,
    path: PathView<'_>,
) -> Result<(), AllocError>
    ensures { OnOk result (string_bytes text.new ≡ string_bytes text.old ++ path_line label.now (path_value path.entry)) }
{
    text.push_str(label)?;
    put_path(text, path)?;
    text.push_str("\n")
}
