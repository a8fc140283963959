//! The path and the aggregator of a route that 2-octet-AS speakers passed on.

ghost use Rattle.std.specs.Prelude.{◌≡◌, Option, None, option_map, if◌then◌else◌, IfOk};
ghost use Rattle.bgp_attr.specs.declared.path.AsPath.{AsPath};
ghost use Rattle.bgp_attr.specs.declared.path.As4Path.{As4Path};
ghost use Rattle.bgp_update.specs.Prelude.{is_as_trans, joined, rebuilt_path, rebuilt_by, rebuilt};

use crate::as4_items::{add_copies, add_lead, items_of};
use crate::attrs::Attrs;
use crate::path_info::PathInfo;
use bgp_attr::{Aggregator, As4Path, AsPath};
use bgp_numbers::AS_TRANS;
use bgp_wire::List;
use std::alloc::{AllocError, Global};

/// AS4_PATH with the surplus leading items of AS_PATH prepended; AS_PATH alone where that has fewer items than AS4_PATH.
fn joined(alloc: Global, path: &AsPath, wide: &AsPath) -> Result<AsPath, AllocError>
    ensures { IfOk result (λ whole. whole ≡ joined path.now wide.now) }
{
    let all = items_of(&path.segments);
    let known = items_of(&wide.segments);
    if all < known {
        return path.copy(alloc);
    }
    let mut segments = Vec::new(alloc);
    add_lead(alloc, all - known, &path.segments, &mut segments)?;
    add_copies(alloc, &wide.segments, &mut segments)?;
    Ok(AsPath {
        segments: List::from_vec(segments),
    })
}

/// The path of both attributes.
fn rebuilt_path(
    alloc: Global,
    path: &Option<AsPath>,
    as4_path: Option<&As4Path>,
) -> Result<Option<AsPath>, AllocError>
    ensures { IfOk result (λ whole. whole ≡ rebuilt_path path.now (option_map (λ p. p.now) as4_path.entry)) }
{
    let Some(path) = path else {
        return Ok(None);
    };
    let whole = match as4_path {
        None => path.copy(alloc)?,
        Some(wide) => joined(alloc, path, &wide.path)?,
    };
    Ok(Some(whole))
}

/// Whether the aggregator's AS number is AS_TRANS, for one that doesn't fit two octets.
fn is_as_trans(aggregator: Aggregator) -> bool
    ensures { result ≡ is_as_trans aggregator }
{
    aggregator.asn.0 == u32::from(AS_TRANS)
}

/// The aggregator, and whether AS4_PATH is valid: an aggregator other than AS_TRANS voids the AS4 attributes, since a 2-octet-AS
/// speaker aggregated the route later.
pub(crate) fn aggregated(
    aggregator: Option<Aggregator>,
    as4_aggregator: Option<Aggregator>,
) -> (Option<Aggregator>, bool)
    ensures { (path : Option AsPath) (wide : Option As4Path) → rebuilt_by aggregator as4_aggregator path wide
        ≡ record { path = rebuilt_path path (if result.1 then wide else None); aggregator = result.0 } }
{
    match (aggregator, as4_aggregator) {
        (Some(narrow), Some(_)) if !is_as_trans(narrow) => (aggregator, false),
        (Some(_), Some(_)) => (as4_aggregator, true),
        _ => (aggregator, true),
    }
}

/// The path and the aggregator of AS_PATH, AS4_PATH, AGGREGATOR and AS4_AGGREGATOR together, as a 4-octet-AS speaker reads them
/// from a 2-octet-AS peer (RFC 6793, section 4.2.3).
///
/// # Errors
/// `AllocError` where an allocation failed.
pub fn reconcile(alloc: Global, attrs: &Attrs) -> Result<PathInfo, AllocError>
    ensures { IfOk result (λ info. info ≡ rebuilt attrs.now) }
{
    let (aggregator, holds) = aggregated(attrs.aggregator, attrs.as4_aggregator);
    let as4_path = if holds { attrs.as4_path.as_ref() } else { None };
    let path = rebuilt_path(alloc, &attrs.as_path, as4_path)?;
    Ok(PathInfo { path, aggregator })
}
