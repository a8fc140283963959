//! AS paths as JSON.

ghost use Rattle.std.specs.Prelude.{◌≡◌, ◌++◌, OnOk};
ghost use Rattle.bgp_text.specs.Below.{flat_map, string_bytes, segment_value, path_value, segments_left};
ghost use Rattle.bgp_text.specs.Json.{member, behind_comma, joined};
ghost use Rattle.bgp_text.specs.JsonPath.{segment_type, segment_json, path_json};

use crate::json::{put_decimal, put_name, put_quoted};
use crate::json_list::{Element, put_list_member};
use bgp_attr::{PathView, SegKind, SegmentIter, SegmentView};
use bgp_prefix::AsNumber;
use std::alloc::AllocError;

impl Element for AsNumber {
    ghost use Rattle.bgp_text.specs.JsonPath.{as_number_json};

    ghost json = { as_number_json };

    fn put_json(&self, text: &mut String) -> Result<(), AllocError> {
        put_decimal(text, self.0)
    }
}

/// The word for a kind of segment.
fn segment_type(kind: SegKind) -> &'static str
    ensures { result.now ≡ segment_type kind }
{
    match kind {
        SegKind::Set => "set",
        SegKind::Seq => "sequence",
    }
}

/// Adds a segment.
#[tactic(auto, unfolding(crate::specs::JsonPath::segment_json))]
fn put_segment(text: &mut String, segment: &SegmentView<'_>) -> Result<(), AllocError>
    ensures { OnOk result (string_bytes text.new ≡ string_bytes text.old ++ segment_json (segment_value segment.now)) }
{
    text.push_str("{\"type\":")?;
    put_quoted(text, segment_type(segment.kind))?;
    put_list_member(text, "as", segment.numbers)?;
    text.push_str("}")
}

/// Adds a segment after a comma.
fn put_another_segment(text: &mut String, segment: &SegmentView<'_>) -> Result<(), AllocError>
    ensures { OnOk result (string_bytes text.new ≡ string_bytes text.old ++ behind_comma segment_json (segment_value segment.now)) }
{
    text.push_str(",")?;
    put_segment(text, segment)
}

/// Adds segments, each after a comma.
fn put_further_segments(text: &mut String, segments: SegmentIter<'_>) -> Result<(), AllocError>
    ensures { OnOk result (string_bytes text.new ≡ string_bytes text.old ++ flat_map (behind_comma segment_json) (segments_left segments.entry)) }
{
    let mut left = segments;
    'path: while let Some(segment) = left.next() {
        put_another_segment(text, &segment)?;
    }
    Ok(())
}

/// Adds the segments of a path, with commas between them.
#[tactic(auto, unfolding(crate::specs::Json::joined))]
fn put_segments(text: &mut String, path: &PathView<'_>) -> Result<(), AllocError>
    ensures { OnOk result (string_bytes text.new ≡ string_bytes text.old ++ joined segment_json (path_value path.now).segments) }
{
    let mut segments = path.segments();
    let Some(first) = segments.next() else {
        return Ok(());
    };
    put_segment(text, &first)?;
    put_further_segments(text, segments)
}

/// Adds a member that is a path.
pub(crate) fn put_path_member(
    text: &mut String,
    name: &str,
    path: &PathView<'_>,
) -> Result<(), AllocError>
    ensures { OnOk result (string_bytes text.new ≡ string_bytes text.old ++ member name.now path_json (path_value path.now)) }
{
    put_name(text, name)?;
    text.push_str("[")?;
    put_segments(text, path)?;
    text.push_str("]")
}
