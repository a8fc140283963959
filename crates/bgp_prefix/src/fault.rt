//! Why octets are no run of prefixes.

ghost use Rattle.std.specs.Prelude.{◌≡◌};
ghost use Rattle.bgp_prefix.specs.declared.fault.RunFault.TheVariants.{Memory};

use std::alloc::AllocError;

/// The first fault, from the left, of octets that are no run.
#[derive(Clone, Copy, Debug, PartialEq, Eq)]
pub enum RunFault {
    /// A length is above that of an address: 32 bits for IPv4, 128 for IPv6.
    TooLong,
    /// A prefix goes past the end of the octets.
    PastEnd,
    /// An allocation for the prefixes failed.
    Memory,
}

impl From<AllocError> for RunFault {
    ghost from_gives = { λ _ fault. fault ≡ Memory };

    fn from(_error: AllocError) -> RunFault {
        RunFault::Memory
    }
}
