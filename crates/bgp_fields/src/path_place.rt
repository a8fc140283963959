//! The octets for which an UPDATE whose routes have path identifiers is answered by a reset.

ghost use Rattle.std.specs.Prelude.{◌≡◌, ◌≤◌, ◌+◌, length};
ghost use Rattle.bgp_paths.specs.Prelude.{path_run_of, shifted};
ghost use Rattle.bgp_update.specs.Prelude.{marks_of, parts_of};
ghost use Rattle.bgp_fields.specs.Prelude.{sections_value};
ghost use Rattle.bgp_fields.specs.PathPlaces.{path_asking_place, path_fault, path_parts_place, path_run_place, path_update_place, received_place, route_extent};

use crate::asking::first_asking;
use crate::cause::update_cause;
use crate::field::{Fault, Span};
use crate::place::{attribute_span, length_span, run_span, span};
use crate::sections::{Sections, split_body};
use bgp_open::Context;
use bgp_paths::{PathFamilies, PathShifts, first_path_prefix};

/// What is left after the IPv4 routes with path identifiers that octets begin with.
fn rest_of_routes(octets: &[u8]) -> &[u8]
    ensures value { result.now ≡ (path_run_of 4 octets.now).1 }
    ensures within { length result.now ≤ length octets.now }
{
    let mut rest = octets;
    'run: while let Some((_, after)) = first_path_prefix::<4>(rest) {
        rest = after;
    }
    rest
}

/// The length of the IPv4 route at the front that can't be read: its path identifier, and those octets of its prefix that exist.
fn route_extent(octets: &[u8]) -> usize
    ensures value { result ≡ route_extent octets.now }
    ensures within { result ≤ length octets.now }
{
    match octets {
        [_, _, _, _, bits, behind @ ..] => {
            let held = (usize::from(*bits) + 7) / 8;
            5 + held.min(behind.len())
        }
        _ => octets.len(),
    }
}

/// The first IPv4 route that can't be read, of a field that begins at this offset.
fn path_run_span(paths: bool, at: usize, octets: &[u8]) -> Option<Span>
    requires at { at ≤ 8192 }
    requires short { length octets.now ≤ 8192 }
    ensures { result ≡ path_run_place paths at octets.now }
{
    if !paths {
        return run_span(at, octets);
    }
    let rest = rest_of_routes(octets);
    if rest.is_empty() {
        return None;
    }
    let begin = at + octets.len().saturating_sub(rest.len());
    Some(span(begin, route_extent(rest)))
}

/// The attribute as received that is at an offset of the path attributes without path identifiers.
fn received_span(
    sections: &Sections<'_>,
    plain: &Sections<'_>,
    shifts: &PathShifts,
    at: usize,
) -> Option<Span>
    requires at { at ≤ 4096 }
    requires short { length sections.now.withdrawn.now + (length sections.now.attributes.now + length sections.now.nlri.now) ≤ 4096 }
    requires plain { length plain.now.withdrawn.now ≤ 4096 }
    ensures { result ≡ received_place (sections_value sections.now) (sections_value plain.now) (shifted shifts.now) at }
{
    let place = shifts.place(4 + plain.withdrawn.len() + at);
    let found = place.saturating_sub(4 + sections.withdrawn.len());
    if found > sections.attributes.len() {
        return None;
    }
    Some(attribute_span(sections, found))
}

/// The first attribute that calls for a reset, or else for a withdrawal.
fn path_asking_span(
    resets: bool,
    ctx: &Context,
    sections: &Sections<'_>,
    plain: &Sections<'_>,
    shifts: &PathShifts,
) -> Option<Span>
    requires short { length sections.now.withdrawn.now + (length sections.now.attributes.now + length sections.now.nlri.now) ≤ 4073 }
    requires plain { length plain.now.withdrawn.now + (length plain.now.attributes.now + length plain.now.nlri.now) ≤ 4073 }
    ensures { result ≡ path_asking_place resets (sections_value sections.now) (sections_value plain.now) (shifted shifts.now) (marks_of ctx.now (sections_value plain.now)) }
{
    let has_nlri = !plain.nlri.is_empty();
    let at = first_asking(resets, ctx, has_nlri, plain.attributes)?;
    received_span(sections, plain, shifts, at)
}

/// The octets of these sections that cause a reset, if any do.
fn path_parts_span(
    ctx: &Context,
    families: PathFamilies,
    sections: &Sections<'_>,
    plain: &Sections<'_>,
    shifts: &PathShifts,
) -> Option<Span>
    requires short { length sections.now.withdrawn.now + (length sections.now.attributes.now + length sections.now.nlri.now) ≤ 4073 }
    requires plain { length plain.now.withdrawn.now + (length plain.now.attributes.now + length plain.now.nlri.now) ≤ 4073 }
    ensures { result ≡ path_parts_place families (sections_value sections.now) (sections_value plain.now) (shifted shifts.now) (marks_of ctx.now (sections_value plain.now)) }
{
    if let Some(found) = path_asking_span(true, ctx, sections, plain, shifts) {
        return Some(found);
    }
    if let Some(found) = path_run_span(families.ip4, 21, sections.withdrawn) {
        return Some(found);
    }
    let nlri_at = 19 + 4 + sections.withdrawn.len() + sections.attributes.len();
    if let Some(found) = path_run_span(families.ip4, nlri_at, sections.nlri) {
        return Some(found);
    }
    path_asking_span(false, ctx, sections, plain, shifts)
}

/// The octets of a body that cause a reset, if any do.
fn path_update_span(
    ctx: &Context,
    families: PathFamilies,
    body: &[u8],
    plain: &[u8],
    shifts: &PathShifts,
) -> Option<Span>
    requires short { length body.now ≤ 4077 }
    requires plain { length plain.now ≤ 4077 }
    ensures { result ≡ path_update_place ctx.now families body.now (parts_of body.now) (parts_of plain.now) (shifted shifts.now) }
{
    match (split_body(body), split_body(plain)) {
        (Some(sections), Some(plain)) => path_parts_span(ctx, families, &sections, &plain, shifts),
        _ => Some(length_span(body)),
    }
}

/// Why the UPDATE with this body, whose routes of these families have path identifiers (RFC 7911), is answered by a NOTIFICATION of this subcode: the octets
/// of the message as received, and the test that failed. `plain` is the body without path identifiers, and `shifts` are those between both.
pub fn path_fault(
    ctx: &Context,
    families: PathFamilies,
    body: &[u8],
    plain: &[u8],
    shifts: &PathShifts,
    subcode: u8,
) -> Option<Fault>
    requires short { length body.now ≤ 4077 }
    requires plain { length plain.now ≤ 4077 }
    ensures { result ≡ path_fault ctx.now families body.now plain.now (shifted shifts.now) subcode }
{
    let span = path_update_span(ctx, families, body, plain, shifts)?;
    let cause = update_cause(ctx, subcode, plain);
    Some(Fault { span, cause })
}
