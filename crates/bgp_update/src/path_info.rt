//! The path and the aggregator of a route, as 4-octet-AS speakers see them.

ghost use Rattle.std.specs.Prelude.{◌≡◌, IfOk};

use bgp_attr::{Aggregator, AsPath};
use bgp_wire::TryCopy;
use std::alloc::{AllocError, Global};

/// The path and the aggregator, restored from AS4_PATH and AS4_AGGREGATOR (RFC 6793, section 4.2.3).
#[derive(Drop, PartialEq)]
pub struct PathInfo {
    /// The path: none without AS_PATH.
    pub path: Option<AsPath>,
    /// The aggregator: none without AGGREGATOR.
    pub aggregator: Option<Aggregator>,
}

impl PathInfo {
    /// An equal value, with memory of its own.
    ///
    /// # Errors
    /// `AllocError` where an allocation failed.
    pub fn copy(&self, alloc: Global) -> Result<PathInfo, AllocError>
        ensures { IfOk result (λ copy. copy ≡ self.now) }
    {
        let path = match &self.path {
            None => None,
            Some(path) => Some(path.copy(alloc)?),
        };
        Ok(PathInfo {
            path,
            aggregator: self.aggregator,
        })
    }
}

impl TryCopy for PathInfo {
    fn try_copy(&self, alloc: Global) -> Result<PathInfo, AllocError> {
        self.copy(alloc)
    }
}
