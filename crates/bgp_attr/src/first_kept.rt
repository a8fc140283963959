//! The first segment of a path that is kept.

ghost use Rattle.std.specs.Prelude.{◌≡◌, [], ◌∷◌, MatchOption};
ghost use Rattle.bgp_attr.specs.Prelude.{kept_segments_of, segment_value};

use crate::numbers::AsNumberIter;
use crate::path_form::PathForm;
use crate::path_view::SegmentView;
use crate::segment::{first_segment, kind_of};

/// The first segment that is kept, and what follows it.
pub(crate) fn first_kept(form: PathForm, octets: &[u8]) -> Option<(SegmentView<'_>, &[u8])>
    ensures { MatchOption result (kept_segments_of form octets.now ≡ [])
        (λ x. kept_segments_of form octets.now ≡ segment_value x.0 ∷ kept_segments_of form x.1.now) }
{
    let mut rest = octets;
    'path: while let Some((raw, after)) = first_segment(form, rest) {
        if let Some(kind) = kind_of(raw.code) {
            let numbers = AsNumberIter::new(form.wide, raw.numbers);
            return Some((SegmentView { kind, numbers }, after));
        }
        rest = after;
    }
    None
}
