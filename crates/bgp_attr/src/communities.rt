//! COMMUNITIES and LARGE_COMMUNITY.

ghost use Rattle.std.specs.Prelude.{◌≡◌, IfOk};

use bgp_wire::List;
use std::alloc::{AllocError, Global};

/// COMMUNITIES (RFC 1997).
#[derive(Drop, PartialEq)]
pub struct Communities {
    /// The Partial bit.
    pub partial: bool,
    /// The communities, at least one in what is read: 16 bits of an AS number and 16 bits that this AS defines, each.
    pub values: List<u32>,
}

impl Communities {
    /// An equal value, with memory of its own.
    ///
    /// # Errors
    /// `AllocError` where an allocation failed.
    pub fn copy(&self, alloc: Global) -> Result<Communities, AllocError>
        ensures { IfOk result (λ copy. copy ≡ self.now) }
    {
        let values = self.values.copy(alloc)?;
        Ok(Communities {
            partial: self.partial,
            values,
        })
    }
}

/// LARGE_COMMUNITY (RFC 8092).
#[derive(Drop, PartialEq)]
pub struct LargeCommunities {
    /// The Partial bit.
    pub partial: bool,
    /// The communities, at least one and without duplicates in what is read: an AS number and two numbers that this AS defines, each.
    pub values: List<[u32; 3]>,
}

impl LargeCommunities {
    /// An equal value, with memory of its own.
    ///
    /// # Errors
    /// `AllocError` where an allocation failed.
    pub fn copy(&self, alloc: Global) -> Result<LargeCommunities, AllocError>
        ensures { IfOk result (λ copy. copy ≡ self.now) }
    {
        let values = self.values.copy(alloc)?;
        Ok(LargeCommunities {
            partial: self.partial,
            values,
        })
    }
}
