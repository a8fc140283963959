//! The End-of-RIB (RFC 4724, section 2).

ghost use Rattle.std.specs.Prelude.{◌≡◌, ◌≤◌, length};
ghost use Rattle.bgp_attr.specs.Prelude.{attr_value};
ghost use Rattle.bgp_update.specs.Prelude.{parts_value, attrs_left, marks_left, parts_of};
ghost use Rattle.bgp_update.specs.EndOfRib.{bare_family, family_of_kept, family_of_marks, end_of_rib, family_in};

use crate::attr_iter::AttrIter;
use crate::body::{Body, split_body};
use crate::mark::MarkIter;
use bgp_attr::{AttrView, MpUnreachView};
use bgp_numbers::afi;
use bgp_open::Context;

/// The family of an attribute that is an MP_UNREACH_NLRI without routes.
fn bare_family(attr: &AttrView<'_>) -> Option<u16>
    ensures { result ≡ bare_family (attr_value attr.now) }
{
    match attr {
        AttrView::MpUnreach(MpUnreachView::Ip4(routes)) => {
            let mut routes = *routes;
            match routes.next() {
                None => Some(afi::IPV4),
                Some(_) => None,
            }
        }
        AttrView::MpUnreach(MpUnreachView::Ip6(routes)) => {
            let mut routes = *routes;
            match routes.next() {
                None => Some(afi::IPV6),
                Some(_) => None,
            }
        }
        _ => None,
    }
}

/// The family of such an MP_UNREACH_NLRI, where it is the only attribute that is kept.
fn family_of_kept(kept: AttrIter<'_>) -> Option<u16>
    ensures { result ≡ family_of_kept (attrs_left kept.entry) }
{
    let mut left = kept;
    let attr = left.next()?;
    match left.next() {
        None => bare_family(&attr),
        Some(_) => None,
    }
}

/// IPv4 where the field has no attribute; the family of a single one, which is kept and is such an MP_UNREACH_NLRI.
fn family_of_marks(marks: MarkIter<'_>) -> Option<u16>
    ensures { result ≡ family_of_marks (marks_left marks.entry) }
{
    let mut left = marks;
    if left.next().is_none() {
        return Some(afi::IPV4);
    }
    match left.next() {
        None => family_of_kept(AttrIter::new(marks)),
        Some(_) => None,
    }
}

/// The family whose End-of-RIB these parts are.
fn family_of_parts(ctx: &Context, body: Body<'_>) -> Option<u16>
    requires { length body.attributes.now ≤ 4075 }
    ensures { result ≡ end_of_rib ctx.now (parts_value body.entry) }
{
    if body.withdrawn.is_empty() && body.nlri.is_empty() {
        family_of_marks(MarkIter::new(ctx, !body.nlri.is_empty(), body.attributes))
    } else {
        None
    }
}

/// The family whose End-of-RIB the body of an UPDATE is in a context (RFC 4724, section 2): IPv4 where all fields are empty; one that is in use
/// where MP_UNREACH_NLRI of it, without routes, is the only attribute and there is nothing else.
pub fn ended_family(ctx: &Context, body: &[u8]) -> Option<u16>
    requires { length body.now ≤ 4077 }
    ensures { result ≡ family_in ctx.now (parts_of body.now) }
{
    match split_body(body) {
        None => None,
        Some(parts) => family_of_parts(ctx, parts),
    }
}
