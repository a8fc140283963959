//! The UPDATE.

ghost use Rattle.std.specs.Prelude.{◌≡◌, IfOk};

use crate::attrs::Attrs;
use bgp_prefix::Prefix4;
use bgp_wire::{List, TryCopy};
use std::alloc::{AllocError, Global};

/// The fields of an UPDATE (RFC 4271, section 4.3).
#[derive(Drop, PartialEq)]
pub struct Update {
    /// Withdrawn Routes: IPv4 unicast.
    pub withdrawn: List<Prefix4>,
    /// Path Attributes.
    pub attrs: Attrs,
    /// Network Layer Reachability Information: IPv4 unicast.
    pub nlri: List<Prefix4>,
}

impl Update {
    /// An equal UPDATE, with memory of its own.
    ///
    /// # Errors
    /// `AllocError` where an allocation failed.
    pub fn copy(&self, alloc: Global) -> Result<Update, AllocError>
        ensures { IfOk result (λ copy. copy ≡ self.now) }
    {
        let withdrawn = self.withdrawn.copy(alloc)?;
        let nlri = self.nlri.copy(alloc)?;
        let attrs = self.attrs.copy(alloc)?;
        Ok(Update {
            withdrawn,
            attrs,
            nlri,
        })
    }
}

impl TryCopy for Update {
    fn try_copy(&self, alloc: Global) -> Result<Update, AllocError> {
        self.copy(alloc)
    }
}
