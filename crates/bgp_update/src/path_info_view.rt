//! The path and the aggregator of a route, read without memory.

ghost use Rattle.std.specs.Prelude.{◌≡◌, option_map, IfOk};
ghost use Rattle.bgp_attr.specs.Prelude.{as4_path_value, path_value};
ghost use Rattle.bgp_update.specs.Prelude.{rebuilt_path, rebuilt, known_value, joined_value, info_value};

use crate::joined_path::JoinedPathView;
use crate::kept_view::KeptView;
use crate::path_info::PathInfo;
use crate::reconciliation::aggregated;
use crate::view::UpdateView;
use bgp_attr::{Aggregator, As4PathView, PathView};
use std::alloc::{AllocError, Global};

/// The path and the aggregator of AS_PATH, AS4_PATH, AGGREGATOR and AS4_AGGREGATOR together (RFC 6793, section 4.2.3), borrowed: a
/// [`PathInfo`] with an iterator instead of lists.
#[derive(Clone, Copy)]
pub struct PathInfoView<'a> {
    /// The path: none without AS_PATH.
    pub path: Option<JoinedPathView<'a>>,
    /// The aggregator: none without AGGREGATOR.
    pub aggregator: Option<Aggregator>,
}

/// The path of both attributes.
fn path_of<'a>(
    path: Option<PathView<'a>>,
    as4_path: Option<As4PathView<'a>>,
) -> Option<JoinedPathView<'a>>
    ensures { option_map joined_value result ≡ rebuilt_path (option_map path_value path.entry) (option_map as4_path_value as4_path.entry) }
{
    let path = path?;
    let whole = match as4_path {
        None => JoinedPathView::alone(path),
        Some(wide) => JoinedPathView::new(path, wide.path),
    };
    Some(whole)
}

/// The path and the aggregator of these attributes.
fn info_of<'a>(kept: &KeptView<'a>) -> PathInfoView<'a>
    ensures { info_value result ≡ rebuilt (known_value kept.now) }
{
    let (aggregator, holds) = aggregated(kept.aggregator(), kept.as4_aggregator());
    let as4_path = if holds { kept.as4_path() } else { None };
    PathInfoView {
        path: path_of(kept.as_path(), as4_path),
        aggregator,
    }
}

impl<'a> PathInfoView<'a> {
    /// The path and the aggregator, with memory of their own.
    ///
    /// # Errors
    /// `AllocError` where an allocation failed.
    pub fn own(self, alloc: Global) -> Result<PathInfo, AllocError>
        ensures { IfOk result (λ info. info ≡ info_value self.entry) }
    {
        let path = match self.path {
            None => None,
            Some(path) => Some(path.own(alloc)?),
        };
        Ok(PathInfo {
            path,
            aggregator: self.aggregator,
        })
    }
}

impl<'a> UpdateView<'a> {
    ghost use Rattle.bgp_update.specs.View.{update_value};

    /// The path in AS numbers of four octets and the aggregator, as [`reconcile`](crate::reconcile) restores them from the owned attributes
    /// (RFC 6793, section 4.2.3). It allocates nothing.
    pub fn path_info(&self) -> PathInfoView<'a>
        ensures { info_value result ≡ rebuilt (update_value self.now).attrs }
    {
        info_of(self.kept())
    }
}
