//! The segments of a path in sequence.

ghost use Rattle.std.specs.Prelude.{◌≡◌, ◌⊎◌, ◌↔◌, [], ◌∷◌};
ghost use Rattle.ristulva_c.specs.Prelude.{is_set, IsSegments, segments_left, segment_told};
ghost use Rattle.ristulva_c.specs.declared.status.TheConstants.{END, OK, RANGE};

use crate::span::Span;
use crate::status::{END, OK, RANGE};
use bgp_attr::{PathForm, first_segment};

/// The remaining segments of a path.
#[repr(C)]
#[derive(Clone, Copy)]
pub struct Segments {
    /// The offset of the next one.
    pub at: u32,
    /// The end of the path.
    pub end: u32,
    /// Whether AS numbers have four octets: 0 for no.
    pub wide: u8,
    /// Whether segments of confederations are read, as in AS4_PATH: 0 for no.
    pub confederations: u8,
}

/// A segment of a path (RFC 4271, section 4.3).
#[repr(C)]
#[derive(Clone, Copy)]
pub struct PathSegment {
    /// The type: 1 for a set, 2 for a sequence; 3 and 4 for those of confederations.
    pub kind: u8,
    /// Its AS numbers.
    pub numbers: Span,
}

/// Gives the segment at a cursor, and moves the cursor after it.
#[unsafe(no_mangle)]
#[tactic(auto, using(crate::proofs::SegmentSteps::segment_fits))]
pub extern "C" fn ristulva_next_segment(
    octets: &[u8],
    cursor: &mut Segments,
    out: &mut PathSegment,
) -> u32
    ensures ok { result ≡ OK → segments_left octets.now cursor.old ≡ segment_told (is_set cursor.old.wide) octets.now out.new ∷ segments_left octets.now cursor.new }
    ensures over { result ≡ END → segments_left octets.now cursor.old ≡ [] }
    ensures range { (result ≡ RANGE) ↔ (IsSegments octets.now cursor.old → ⊥) }
    ensures kept { (result ≡ OK) ⊎ ((cursor.new ≡ cursor.old) × (out.new ≡ out.old)) }
    ensures field { cursor.new ≡ record cursor.old { at = cursor.new.at } }
    ensures known { (result ≡ OK) ⊎ ((result ≡ END) ⊎ (result ≡ RANGE)) }
{
    let Some(field) = octets.get(cursor.at as usize..cursor.end as usize) else {
        return RANGE;
    };
    let form = PathForm {
        wide: cursor.wide != 0,
        confederations: cursor.confederations != 0,
    };
    match first_segment(form, field) {
        None => END,
        Some((segment, rest)) => {
            let at = cursor.at + 2;
            cursor.at = cursor.end - rest.len() as u32;
            *out = PathSegment {
                kind: segment.code,
                numbers: Span {
                    at,
                    len: cursor.at - at,
                },
            };
            OK
        }
    }
}
