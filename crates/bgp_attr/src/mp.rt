//! MP_REACH_NLRI and MP_UNREACH_NLRI.

ghost use Rattle.std.specs.Prelude.{◌≡◌, IfOk};

use bgp_prefix::{Prefix4, Prefix6};
use bgp_wire::List;
use std::alloc::{AllocError, Global};

/// MP_REACH_NLRI: routes and the next hop to them (RFC 4760, section 3).
#[derive(Drop, PartialEq)]
pub enum MpReach {
    /// IPv4 unicast.
    Ip4 {
        /// The next hop: an IPv4 address.
        next_hop: [u8; 4],
        /// The announced prefixes, in their order.
        nlri: List<Prefix4>,
    },
    /// IPv6 unicast: a global address, and a link-local one where it was given (RFC 2545, section 3).
    Ip6 {
        /// The global address of the next hop.
        next_hop: [u8; 16],
        /// The link-local address of the next hop, where the attribute has both.
        link_local: Option<[u8; 16]>,
        /// The announced prefixes, in their order.
        nlri: List<Prefix6>,
    },
}

impl MpReach {
    /// An equal value, with memory of its own.
    ///
    /// # Errors
    /// `AllocError` where an allocation failed.
    pub fn copy(&self, alloc: Global) -> Result<MpReach, AllocError>
        ensures { IfOk result (λ copy. copy ≡ self.now) }
    {
        match self {
            MpReach::Ip4 { next_hop, nlri } => Ok(MpReach::Ip4 {
                next_hop: *next_hop,
                nlri: nlri.copy(alloc)?,
            }),
            MpReach::Ip6 {
                next_hop,
                link_local,
                nlri,
            } => Ok(MpReach::Ip6 {
                next_hop: *next_hop,
                link_local: *link_local,
                nlri: nlri.copy(alloc)?,
            }),
        }
    }
}

/// MP_UNREACH_NLRI: withdrawn routes (RFC 4760, section 4).
#[derive(Drop, PartialEq)]
pub enum MpUnreach {
    /// IPv4 unicast.
    Ip4(List<Prefix4>),
    /// IPv6 unicast.
    Ip6(List<Prefix6>),
}

impl MpUnreach {
    /// An equal value, with memory of its own.
    ///
    /// # Errors
    /// `AllocError` where an allocation failed.
    pub fn copy(&self, alloc: Global) -> Result<MpUnreach, AllocError>
        ensures { IfOk result (λ copy. copy ≡ self.now) }
    {
        match self {
            MpUnreach::Ip4(routes) => Ok(MpUnreach::Ip4(routes.copy(alloc)?)),
            MpUnreach::Ip6(routes) => Ok(MpUnreach::Ip6(routes.copy(alloc)?)),
        }
    }
}
