//! Which messages aren't written.

ghost use Rattle.std.specs.Prelude.{◌≡◌, ◌<◌, true, false, None};
ghost use Rattle.std.specs.List.{list_any, AllByRecursion};
ghost use Rattle.bgp_attr.specs.Prelude.{is_recognised};
ghost use Rattle.bgp_update.specs.Prelude.{has_routes, announces, lacks_some, has_needless_next_hop, has_outside_preference, has_bad_others, rise, invalid_of};
ghost use Rattle.bgp_update.specs.Written.{has_nlri};

use crate::failed::Failed;
use crate::invalid::Invalid;
use crate::update::Update;
use bgp_attr::unwritable::is_misnamed;
use bgp_attr::{AttrRef, MpReach, Opaque};
use bgp_open::Context;

/// Whether MP_REACH_NLRI announces a route.
fn has_routes(reach: &Option<MpReach>) -> bool
    ensures { result ≡ has_routes reach.now }
{
    match reach {
        None => false,
        Some(MpReach::Ip4 { nlri, .. }) => !nlri.is_empty(),
        Some(MpReach::Ip6 { nlri, .. }) => !nlri.is_empty(),
    }
}

/// Whether the NLRI field announces a route.
fn has_nlri(update: &Update) -> bool
    ensures { result ≡ has_nlri update.now }
{
    update.nlri.len() > 0
}

/// Whether an attribute is missing (RFC 4271, section 5).
fn lacks_some(update: &Update) -> bool
    ensures { result ≡ lacks_some update.now }
{
    let attrs = &update.attrs;
    let announces = has_nlri(update) || has_routes(&attrs.mp_reach);
    announces && (attrs.origin.is_none() || attrs.as_path.is_none())
        || has_nlri(update) && attrs.next_hop.is_none()
}

/// Whether each type is above the one before it.
fn rise(others: &[Opaque]) -> bool
    ensures value { result ≡ rise others.now }
    ensures kinds { result ≡ true → AllByRecursion (λ o. o.kind < 256) others.now }
{
    let mut rest = others;
    'types: while let Some((first, later)) = rest.split_first() {
        let kind = first.kind;
        if let Some(next) = later.first() {
            if kind >= next.kind {
                return false;
            }
        }
        rest = later;
    }
    true
}

/// Whether the type of an attribute is recognised.
fn is_recognised(other: &Opaque) -> bool
    ensures { result ≡ is_recognised other.now.kind }
{
    is_misnamed(AttrRef::Opaque(other))
}

/// Whether the type of some attribute is recognised.
fn has_recognised(others: &[Opaque]) -> bool
    ensures { result ≡ list_any (λ o. is_recognised o.kind) others.now }
{
    others.iter().any(|other| is_recognised(other))
}

/// Whether attributes of unrecognised types aren't ascending by type, or are of a recognised one.
fn has_bad_others(others: &[Opaque]) -> bool
    ensures value { result ≡ has_bad_others others.now }
    ensures kinds { result ≡ false → AllByRecursion (λ o. o.kind < 256) others.now }
{
    !rise(others) || has_recognised(others)
}

/// The first reason why a message isn't written; where there is none, each attribute has a type that fits its octet.
pub(crate) fn first_reason(ctx: &Context, update: &Update) -> Option<Invalid>
    ensures why { result ≡ invalid_of ctx.now update.now }
    ensures kinds { result ≡ None → AllByRecursion (λ o. o.kind < 256) update.now.attrs.others }
{
    let attrs = &update.attrs;
    if lacks_some(update) {
        return Some(Invalid::Missing);
    }
    if attrs.next_hop.is_some() && !has_nlri(update) {
        return Some(Invalid::NextHop);
    }
    if attrs.local_pref.is_some() && !ctx.internal {
        return Some(Invalid::LocalPref);
    }
    let failed = Failed::of(ctx, attrs);
    let others = has_bad_others(&attrs.others);
    failed.first(ctx.as4, others)
}

/// Why an UPDATE isn't written in a context: the first reason in the order of their numbers, or `None` where it is valid. It allocates nothing.
pub fn why_invalid(ctx: &Context, update: &Update) -> Option<Invalid>
    ensures { result ≡ invalid_of ctx.now update.now }
{
    first_reason(ctx, update)
}
