//! The attributes of a message as values, and by their types.

ghost use Rattle.std.specs.Prelude.{◌≡◌, ◌==◌, IfOk, option_map};
ghost use Rattle.std.specs.List.{find};
ghost use Rattle.bgp_attr.specs.Prelude.{ref_value};
ghost use Rattle.bgp_update.specs.Prelude.{present, slot};

use bgp_attr::{
    Aggregator, As4Path, AsPath, AttrRef, Communities, LargeCommunities, MpReach, MpUnreach,
    Opaque, Origin,
};
use bgp_numbers::attribute;
use bgp_wire::List;
use std::alloc::{AllocError, Global};

/// The path attributes of an UPDATE, at most one of each type (RFC 4271, section 5).
#[derive(Drop, PartialEq)]
pub struct Attrs {
    /// ORIGIN (RFC 4271, section 5.1.1).
    pub origin: Option<Origin>,
    /// AS_PATH (RFC 4271, section 5.1.2).
    pub as_path: Option<AsPath>,
    /// NEXT_HOP: an IPv4 address.
    pub next_hop: Option<[u8; 4]>,
    /// MULTI_EXIT_DISC.
    pub med: Option<u32>,
    /// LOCAL_PREF (RFC 4271, section 5.1.5).
    pub local_pref: Option<u32>,
    /// ATOMIC_AGGREGATE.
    pub atomic: bool,
    /// AGGREGATOR (RFC 4271, section 5.1.7).
    pub aggregator: Option<Aggregator>,
    /// COMMUNITIES (RFC 1997).
    pub communities: Option<Communities>,
    /// MP_REACH_NLRI (RFC 4760, section 3).
    pub mp_reach: Option<MpReach>,
    /// MP_UNREACH_NLRI (RFC 4760, section 4).
    pub mp_unreach: Option<MpUnreach>,
    /// AS4_PATH (RFC 6793, section 3).
    pub as4_path: Option<As4Path>,
    /// AS4_AGGREGATOR (RFC 6793, section 3).
    pub as4_aggregator: Option<Aggregator>,
    /// LARGE_COMMUNITY.
    pub large: Option<LargeCommunities>,
    /// Those of types that aren't recognised, ascending by type.
    pub others: List<Opaque>,
}

/// The recognised types in the order in which they are written.
pub(crate) const RECOGNISED: [u8; 13] = [14, 15, 1, 2, 3, 4, 5, 6, 7, 8, 17, 18, 32];

/// A copy of an optional value.
macro_rules! copied {
    ($value:expr, $alloc:expr) => {
        match $value {
            None => None,
            Some(value) => Some(value.copy($alloc)?),
        }
    };
}

impl Attrs {
    /// The paths.
    fn copy_paths(&self, alloc: Global) -> Result<(Option<AsPath>, Option<As4Path>), AllocError>
        ensures { IfOk result (λ p. (p.0 ≡ self.now.as_path) × (p.1 ≡ self.now.as4_path)) }
    {
        let as_path = copied!(&self.as_path, alloc);
        let as4_path = copied!(&self.as4_path, alloc);
        Ok((as_path, as4_path))
    }

    /// Communities of both kinds.
    fn copy_communities(
        &self,
        alloc: Global,
    ) -> Result<(Option<Communities>, Option<LargeCommunities>), AllocError>
        ensures { IfOk result (λ p. (p.0 ≡ self.now.communities) × (p.1 ≡ self.now.large)) }
    {
        let communities = copied!(&self.communities, alloc);
        let large = copied!(&self.large, alloc);
        Ok((communities, large))
    }

    /// Announced and withdrawn routes.
    fn copy_routes(&self, alloc: Global) -> Result<(Option<MpReach>, Option<MpUnreach>), AllocError>
        ensures { IfOk result (λ p. (p.0 ≡ self.now.mp_reach) × (p.1 ≡ self.now.mp_unreach)) }
    {
        let mp_reach = copied!(&self.mp_reach, alloc);
        let mp_unreach = copied!(&self.mp_unreach, alloc);
        Ok((mp_reach, mp_unreach))
    }

    /// The attributes that need no allocation, and these others.
    #[inline(always)]
    fn values(&self, others: List<Opaque>) -> Attrs
        ensures { result ≡ record (self.now) { as_path = None; communities = None; mp_reach = None; mp_unreach = None; as4_path = None; large = None; others = others } }
    {
        Attrs {
            as_path: None,
            communities: None,
            mp_reach: None,
            mp_unreach: None,
            as4_path: None,
            large: None,
            others,
            ..*self
        }
    }

    /// With the attributes that need an allocation. It is inlined so that the value is built where it is returned.
    #[inline(always)]
    pub(crate) fn with(
        self,
        paths: (Option<AsPath>, Option<As4Path>),
        communities: (Option<Communities>, Option<LargeCommunities>),
        routes: (Option<MpReach>, Option<MpUnreach>),
    ) -> Attrs
        ensures { result ≡ record self { as_path = paths.0; as4_path = paths.1; communities = communities.0; large = communities.1; mp_reach = routes.0; mp_unreach = routes.1 } }
    {
        let (as_path, as4_path) = paths;
        let (communities, large) = communities;
        let (mp_reach, mp_unreach) = routes;
        Attrs {
            as_path,
            communities,
            mp_reach,
            mp_unreach,
            as4_path,
            large,
            ..self
        }
    }

    /// Equal attributes, with memory of their own.
    ///
    /// # Errors
    /// `AllocError` where an allocation failed.
    pub fn copy(&self, alloc: Global) -> Result<Attrs, AllocError>
        ensures { IfOk result (λ copy. copy ≡ self.now) }
    {
        let paths = self.copy_paths(alloc)?;
        let communities = self.copy_communities(alloc)?;
        let routes = self.copy_routes(alloc)?;
        let others = self.others.copy(alloc)?;
        Ok(self.values(others).with(paths, communities, routes))
    }
}

/// The attribute of a type that isn't recognised.
fn other(others: &[Opaque], kind: u8) -> Option<&Opaque>
    ensures { option_map (λ o. o.now) result ≡ find (λ o. o.kind == kind) others.now }
{
    'others: for other in others {
        if other.kind == kind {
            return Some(other);
        }
    }
    None
}

/// An attribute of an optional value: a `match`, since `?` costs the proof two more calls.
macro_rules! some {
    ($value:expr, $Variant:ident) => {
        match $value {
            Some(value) => AttrRef::$Variant(value),
            None => return None,
        }
    };
}

/// The attribute of a type: at most one.
#[tactic(auto, unfolding(crate::specs::Slots::slot))]
#[inline(always)]
pub(crate) fn slot(attrs: &Attrs, kind: u8) -> Option<AttrRef<'_>>
    ensures { present ref_value result ≡ slot attrs.now kind }
{
    Some(match kind {
        attribute::ORIGIN => some!(attrs.origin, Origin),
        attribute::AS_PATH => some!(&attrs.as_path, AsPath),
        attribute::NEXT_HOP => some!(&attrs.next_hop, NextHop),
        attribute::MULTI_EXIT_DISC => some!(attrs.med, Med),
        attribute::LOCAL_PREF => some!(attrs.local_pref, LocalPref),
        attribute::ATOMIC_AGGREGATE if attrs.atomic => AttrRef::Atomic,
        attribute::ATOMIC_AGGREGATE => return None,
        attribute::AGGREGATOR => some!(&attrs.aggregator, Aggregator),
        attribute::COMMUNITIES => some!(&attrs.communities, Communities),
        attribute::MP_REACH_NLRI => some!(&attrs.mp_reach, MpReach),
        attribute::MP_UNREACH_NLRI => some!(&attrs.mp_unreach, MpUnreach),
        attribute::AS4_PATH => some!(&attrs.as4_path, As4Path),
        attribute::AS4_AGGREGATOR => some!(&attrs.as4_aggregator, As4Aggregator),
        attribute::LARGE_COMMUNITY => some!(&attrs.large, Large),
        _ => {
            return match other(&attrs.others, kind) {
                Some(opaque) => Some(AttrRef::Opaque(opaque)),
                None => None,
            };
        }
    })
}
