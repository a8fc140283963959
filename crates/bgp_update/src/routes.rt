//! The routes of a message that is treated as a withdrawal.

ghost use Rattle.std.specs.Prelude.{◌≡◌, IfOk};

use bgp_prefix::{Prefix4, Prefix6};
use bgp_wire::{List, TryCopy};
use std::alloc::{AllocError, Global};

/// All routes of a message, announced and withdrawn alike (RFC 7606, section 2). Repetitions are kept.
#[derive(Drop, PartialEq)]
pub struct Routes {
    /// IPv4 unicast: of Withdrawn Routes, MP_UNREACH_NLRI, MP_REACH_NLRI and the NLRI field, in this order.
    pub ip4: List<Prefix4>,
    /// IPv6 unicast: of MP_UNREACH_NLRI and MP_REACH_NLRI, in this order.
    pub ip6: List<Prefix6>,
}

impl Routes {
    /// Equal routes, with memory of their own.
    ///
    /// # Errors
    /// `AllocError` where an allocation failed.
    pub fn copy(&self, alloc: Global) -> Result<Routes, AllocError>
        ensures { IfOk result (λ copy. copy ≡ self.now) }
    {
        let ip4 = self.ip4.copy(alloc)?;
        let ip6 = self.ip6.copy(alloc)?;
        Ok(Routes { ip4, ip6 })
    }
}

impl TryCopy for Routes {
    fn try_copy(&self, alloc: Global) -> Result<Routes, AllocError> {
        self.copy(alloc)
    }
}
