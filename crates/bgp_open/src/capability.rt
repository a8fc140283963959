//! Capabilities.

ghost use Rattle.std.specs.Prelude.{◌≡◌, IfOk};
ghost use Rattle.bgp_open.specs.Prelude.{capability_value};

use crate::capability_view::CapabilityView;
use bgp_wire::{List, TryCopy};
use std::alloc::{AllocError, Global};

/// What a speaker advertises that it can do (RFC 5492, section 4).
#[derive(Drop, PartialEq)]
pub enum Capability {
    /// Routes of this address family and subsequent address family (RFC 4760, section 8).
    Multi(u16, u8),
    /// AS numbers of four octets, and the speaker's own one (RFC 6793, sections 3 and 4.1).
    As4(u32),
    /// Any other code, with the octets of its value: kept, without effect.
    Other(u8, List<u8>),
}

impl Capability {
    /// The capability, borrowed.
    pub fn view(&self) -> CapabilityView<'_>
        ensures { capability_value result ≡ self.now }
    {
        match self {
            Capability::Multi(family, subsequent) => CapabilityView::Multi(*family, *subsequent),
            Capability::As4(number) => CapabilityView::As4(*number),
            Capability::Other(code, value) => CapabilityView::Other(*code, value),
        }
    }

    /// An equal capability, with memory of its own.
    ///
    /// # Errors
    /// `AllocError` where an allocation failed.
    pub fn copy(&self, alloc: Global) -> Result<Capability, AllocError>
        ensures { IfOk result (λ copy. copy ≡ self.now) }
    {
        match self {
            Capability::Multi(family, subsequent) => Ok(Capability::Multi(*family, *subsequent)),
            Capability::As4(number) => Ok(Capability::As4(*number)),
            Capability::Other(code, value) => Ok(Capability::Other(*code, value.copy(alloc)?)),
        }
    }
}

impl TryCopy for Capability {
    fn try_copy(&self, alloc: Global) -> Result<Capability, AllocError> {
        self.copy(alloc)
    }
}
