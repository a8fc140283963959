//! Routes of other address families, borrowed from the octets read.

ghost use Rattle.std.specs.Prelude.{◌≡◌, IfOk};

use crate::mp::{MpReach, MpUnreach};
use bgp_prefix::{PrefixIter4, PrefixIter6};
use bgp_wire::List;
use std::alloc::{AllocError, Global};

/// MP_REACH_NLRI, borrowed.
#[derive(Clone, Copy)]
pub enum MpReachView<'a> {
    /// IPv4 unicast.
    Ip4 {
        /// The next hop: an IPv4 address.
        next_hop: [u8; 4],
        /// The announced prefixes, in their order.
        nlri: PrefixIter4<'a>,
    },
    /// IPv6 unicast.
    Ip6 {
        /// The global address of the next hop.
        next_hop: [u8; 16],
        /// The link-local address of the next hop, where the attribute has both.
        link_local: Option<[u8; 16]>,
        /// The announced prefixes, in their order.
        nlri: PrefixIter6<'a>,
    },
}

impl MpReachView<'_> {
    ghost use Rattle.bgp_attr.specs.MpView.{reach_value};

    /// The routes, with memory of their own.
    ///
    /// # Errors
    /// `AllocError` where an allocation failed.
    pub fn own(self, alloc: Global) -> Result<MpReach, AllocError>
        ensures { IfOk result (λ r. r ≡ reach_value self.entry) }
    {
        match self {
            MpReachView::Ip4 { next_hop, nlri } => {
                let nlri = List::from_vec(nlri.collect(alloc)?);
                Ok(MpReach::Ip4 { next_hop, nlri })
            }
            MpReachView::Ip6 {
                next_hop,
                link_local,
                nlri,
            } => {
                let nlri = List::from_vec(nlri.collect(alloc)?);
                Ok(MpReach::Ip6 {
                    next_hop,
                    link_local,
                    nlri,
                })
            }
        }
    }
}

/// MP_UNREACH_NLRI, borrowed.
#[derive(Clone, Copy)]
pub enum MpUnreachView<'a> {
    /// IPv4 unicast.
    Ip4(PrefixIter4<'a>),
    /// IPv6 unicast.
    Ip6(PrefixIter6<'a>),
}

impl MpUnreachView<'_> {
    ghost use Rattle.bgp_attr.specs.MpView.{unreach_value};

    /// The routes, with memory of their own.
    ///
    /// # Errors
    /// `AllocError` where an allocation failed.
    pub fn own(self, alloc: Global) -> Result<MpUnreach, AllocError>
        ensures { IfOk result (λ r. r ≡ unreach_value self.entry) }
    {
        match self {
            MpUnreachView::Ip4(routes) => {
                let routes = List::from_vec(routes.collect(alloc)?);
                Ok(MpUnreach::Ip4(routes))
            }
            MpUnreachView::Ip6(routes) => {
                let routes = List::from_vec(routes.collect(alloc)?);
                Ok(MpUnreach::Ip6(routes))
            }
        }
    }
}
