//! The two sides of a pair.

use bgp_wire::TryCopy;
use std::alloc::{AllocError, Global};

/// One of the two speakers of a pair.
#[derive(Clone, Copy, Debug, PartialEq, Eq, Hash)]
pub enum Side {
    /// The first speaker.
    A,
    /// The second speaker.
    B,
}

impl TryCopy for Side {
    fn try_copy(&self, _alloc: Global) -> Result<Side, AllocError> {
        Ok(*self)
    }
}
