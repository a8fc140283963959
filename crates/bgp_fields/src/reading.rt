//! By what the fields of a message are read.

ghost use Rattle.std.specs.Prelude.{◌≡◌};
ghost use Rattle.bgp_fields.specs.Parts.{are_identified, plain_reading};

use bgp_open::Context;
use bgp_paths::PathFamilies;

/// By what the fields of a message are read.
#[derive(Clone, Copy)]
pub(crate) struct Reading {
    pub(crate) ctx: Context,
    /// Whose routes have path identifiers, where that was agreed on (RFC 7911).
    pub(crate) paths: Option<PathFamilies>,
}

impl Reading {
    /// A context without path identifiers.
    #[inline(always)]
    pub(crate) fn plain(ctx: &Context) -> Reading
        ensures { result ≡ plain_reading ctx.now }
    {
        Reading {
            ctx: *ctx,
            paths: None,
        }
    }
}

/// Whether the routes of IPv6 have path identifiers, or those of IPv4.
#[inline(always)]
pub(crate) fn are_identified(paths: Option<PathFamilies>, ip6: bool) -> bool
    ensures { result ≡ are_identified paths ip6 }
{
    match paths {
        None => false,
        Some(families) => { if ip6 { families.ip6 } else { families.ip4 } }
    }
}
