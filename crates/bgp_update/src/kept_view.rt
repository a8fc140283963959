//! The kept attributes of a message, by their offsets.

ghost use Rattle.std.specs.Prelude.{◌≡◌, [], length, Some, IfOk};
ghost use Rattle.bgp_update.specs.Places.{ArePlaced};
ghost use Rattle.bgp_update.specs.declared.kept_view.TheConstants.{TYPES};

use crate::attrs::Attrs;
use bgp_attr::{
    Aggregator, As4Path, As4PathView, AsPath, AttrView, Communities, CommunitiesView,
    LargeCommunities, LargeView, MpReach, MpReachView, MpUnreach, MpUnreachView, Opaque, Origin,
    PathView, Tlv, kept_attr, tlv_at,
};
use bgp_numbers::attribute;
use bgp_open::Context;
use bgp_wire::List;
use std::alloc::{AllocError, Global};

/// More than the highest recognised type: the array has a multiple of 16 octets.
const TYPES: usize = 40;

/// The entry of a type whose first attribute isn't kept: no attribute begins at that offset.
const PASSED: u16 = u16::MAX;

/// The kept path attributes of an UPDATE, at most one of each type: the offset of each recognised one. Values are read on demand.
#[derive(Clone, Copy)]
pub struct KeptView<'a> {
    pub(crate) ctx: Context,
    pub(crate) has_nlri: bool,
    /// The attribute field.
    pub(crate) field: &'a [u8],
    /// By type: 0 where there was no attribute, else one more than the offset of the first, or [`PASSED`] where that isn't kept.
    places: [u16; TYPES],
    /// Whether there are others, of types that aren't recognised.
    pub others: bool,
    ghost placed: { ArePlaced ctx has_nlri field.now places },
}

/// The array has an entry for each recognised type.
fn are_all_types(places: &[u16; TYPES])
    ensures { length places.now ≡ TYPES }
{
    let _len = places.len();
}

/// The value of an attribute, where it is of this type.
macro_rules! only {
    ($attr:expr, $Variant:ident) => {
        match $attr {
            Some(AttrView::$Variant(value)) => Some(value),
            _ => None,
        }
    };
}

/// An owned copy of an optional value.
macro_rules! owned {
    ($value:expr, $alloc:expr) => {
        match $value {
            None => None,
            Some(value) => Some(value.own($alloc)?),
        }
    };
}

impl<'a> KeptView<'a> {
    ghost use Rattle.std.specs.Prelude.{◌<◌, ◌≤◌, ◌∷◌, true, false, None, option_map, slice_index_or, IfSome, IsTrue};
    ghost use Rattle.bgp_attr.specs.AttrView.{attr_value};
    ghost use Rattle.bgp_attr.specs.Judgement.{is_recognised, judgement, type_row};
    ghost use Rattle.bgp_attr.specs.JudgedView.{is_kept};
    ghost use Rattle.bgp_attr.specs.TlvIter.{tlv_at};
    ghost use Rattle.bgp_attr.specs.Tlv.{TlvValue};
    ghost use Rattle.bgp_attr.specs.TlvView.{tlv_value};
    ghost use Rattle.bgp_update.specs.KeptView.{kept_attr, kept_behind, kept_in, kept_tlv, kept_value, kept_with, known_value, saw, AreOf};
    ghost use Rattle.bgp_update.specs.Places.{tlv_placed, placed_also, IsKeptAs};
    ghost use Rattle.bgp_update.specs.Fields.{present};
    ghost use Rattle.bgp_update.specs.Slots.{slot};
    ghost use Rattle.bgp_wire.specs.OctetSet.{also, none_of_them};

    /// No attributes, of a field that is to be judged in a context.
    #[inline(always)]
    pub(crate) fn new(ctx: &Context, has_nlri: bool, field: &'a [u8]) -> KeptView<'a>
        ensures value { kept_value result ≡ kept_in [] }
        ensures seen { saw result ≡ none_of_them }
        ensures of { AreOf result ctx.now has_nlri field.now }
    {
        KeptView {
            ctx: *ctx,
            has_nlri,
            field,
            places: [0; TYPES],
            others: false,
        }
    }

    /// Whether there was an attribute of a recognised type, kept or not.
    #[inline(always)]
    pub(crate) fn saw(&self, kind: u8) -> bool
        ensures { result ≡ saw self.now kind }
    {
        self.place(kind) != 0
    }

    /// Sets the entry of a recognised type of which there was no attribute.
    #[inline(always)]
    fn set(&mut self, kind: u8, place: u16)
        requires known { is_recognised kind ≡ true }
        requires first { saw self.old kind ≡ false }
        requires some { 0 < place }
        requires placed { (t : TlvValue) → tlv_placed self.old.field.now place ≡ Some t → IsKeptAs self.old.ctx self.old.has_nlri kind t }
        ensures value { kept_value self.new ≡ kept_with self.old (placed_also kind (tlv_placed self.old.field.now place) (kept_tlv self.old)) }
        ensures seen { saw self.new ≡ also kind (saw self.old) }
        ensures of { AreOf self.new self.old.ctx self.old.has_nlri self.old.field.now }
    {
        are_all_types(&self.places);
        self.places[usize::from(kind)] = place;
    }

    /// Records an attribute of the field that is kept, the first of a recognised type.
    #[inline(always)]
    pub(crate) fn put(&mut self, tlv: &Tlv<'a>)
        requires there { tlv_at self.old.field.now tlv.now.at ≡ Some (tlv_value tlv.now) }
        requires kept { IsTrue (is_kept (judgement self.old.ctx self.old.has_nlri (tlv_value tlv.now))) }
        requires known { is_recognised tlv.now.kind ≡ true }
        requires first { saw self.old tlv.now.kind ≡ false }
        requires small { tlv.now.at ≤ 4075 }
        ensures adds { kept_value self.new ≡ kept_behind (kept_value self.old) ((type_row self.old.ctx self.old.has_nlri (tlv_value tlv.now)).value ∷ []) }
        ensures seen { saw self.new ≡ also tlv.now.kind (saw self.old) }
        ensures of { AreOf self.new self.old.ctx self.old.has_nlri self.old.field.now }
    {
        self.set(tlv.kind, tlv.at as u16 + 1);
    }

    /// Records an attribute of the field that isn't kept, the first of a recognised type.
    #[inline(always)]
    pub(crate) fn pass(&mut self, kind: u8)
        requires known { is_recognised kind ≡ true }
        requires first { saw self.old kind ≡ false }
        requires short { length self.old.field.now ≤ 4075 }
        ensures same { kept_value self.new ≡ kept_value self.old }
        ensures seen { saw self.new ≡ also kind (saw self.old) }
        ensures of { AreOf self.new self.old.ctx self.old.has_nlri self.old.field.now }
    {
        self.set(kind, PASSED);
    }

    /// The entry of a type: 0 where there was no attribute of it.
    #[inline(always)]
    fn place(&self, kind: u8) -> usize
        ensures { result ≡ slice_index_or self.now.places kind 0 }
    {
        match self.places.get(usize::from(kind)) {
            Some(place) => usize::from(*place),
            None => 0,
        }
    }

    /// The attribute of a recognised type, where it is kept.
    #[inline(always)]
    fn tlv(&self, kind: u8) -> Option<Tlv<'a>>
        ensures value { option_map tlv_value result ≡ kept_tlv self.now kind }
        ensures kept { IfSome result (λ t. (t.kind ≡ kind) × IsTrue (is_kept (judgement self.now.ctx self.now.has_nlri (tlv_value t)))) }
    {
        let place = self.place(kind);
        if place == 0 {
            return None;
        }
        tlv_at(self.field, place - 1)
    }

    /// The attribute of a type, where it is recognised and kept: the only call that reads its value.
    #[inline(always)]
    fn known(&self, kind: u8) -> Option<AttrView<'a>>
        ensures { option_map attr_value result ≡ kept_attr self.now kind }
    {
        let tlv = self.tlv(kind)?;
        Some(kept_attr(&self.ctx, self.has_nlri, kind, &tlv))
    }

    /// The attribute of a type, where it is recognised and kept.
    #[inline(always)]
    pub fn attr(&self, kind: u8) -> Option<AttrView<'a>>
        ensures { present attr_value result ≡ slot (known_value self.now) kind }
    {
        self.known(kind)
    }

    /// The attributes that need no allocation, and these others.
    #[tactic(auto, unfolding(crate::specs::Fields::attrs_from))]
    #[inline(always)]
    fn values(&self, others: List<Opaque>) -> Attrs
        ensures { result ≡ record (known_value self.now) { as_path = None; communities = None; mp_reach = None; mp_unreach = None; as4_path = None; large = None; others = others } }
    {
        Attrs {
            origin: self.origin(),
            as_path: None,
            next_hop: self.next_hop(),
            med: self.med(),
            local_pref: self.local_pref(),
            atomic: self.atomic(),
            aggregator: self.aggregator(),
            communities: None,
            mp_reach: None,
            mp_unreach: None,
            as4_path: None,
            as4_aggregator: self.as4_aggregator(),
            large: None,
            others,
        }
    }

    /// Both paths: a separate call, as for other pairs, since proofs pay for each value that `?` may drop.
    #[inline(always)]
    fn own_paths(&self, alloc: Global) -> Result<(Option<AsPath>, Option<As4Path>), AllocError>
        ensures { IfOk result (λ p. (p.0 ≡ (known_value self.now).as_path) × (p.1 ≡ (known_value self.now).as4_path)) }
    {
        let as_path = owned!(self.as_path(), alloc);
        let as4_path = owned!(self.as4_path(), alloc);
        Ok((as_path, as4_path))
    }

    /// Communities of both kinds.
    #[inline(always)]
    fn own_communities(
        &self,
        alloc: Global,
    ) -> Result<(Option<Communities>, Option<LargeCommunities>), AllocError>
        ensures { IfOk result (λ p. (p.0 ≡ (known_value self.now).communities) × (p.1 ≡ (known_value self.now).large)) }
    {
        let communities = owned!(self.communities(), alloc);
        let large = owned!(self.large(), alloc);
        Ok((communities, large))
    }

    /// Announced and withdrawn routes.
    #[inline(always)]
    fn own_routes(&self, alloc: Global) -> Result<(Option<MpReach>, Option<MpUnreach>), AllocError>
        ensures { IfOk result (λ p. (p.0 ≡ (known_value self.now).mp_reach) × (p.1 ≡ (known_value self.now).mp_unreach)) }
    {
        let mp_reach = owned!(self.reach(), alloc);
        let mp_unreach = owned!(self.unreach(), alloc);
        Ok((mp_reach, mp_unreach))
    }

    /// The attributes with memory of their own, and these others.
    #[tactic(auto, unfolding(crate::specs::Fields::attrs_from))]
    #[inline(always)]
    pub(crate) fn own(&self, alloc: Global, others: List<Opaque>) -> Result<Attrs, AllocError>
        ensures { IfOk result (λ a. a ≡ record (known_value self.now) { others = others }) }
    {
        let paths = self.own_paths(alloc)?;
        let communities = self.own_communities(alloc)?;
        let routes = self.own_routes(alloc)?;
        Ok(self.values(others).with(paths, communities, routes))
    }
}

/// The value of each type, where an attribute of it is kept.
#[tactic(auto, unfolding(crate::specs::Fields::attrs_from))]
impl<'a> KeptView<'a> {
    ghost use Rattle.std.specs.Prelude.{option_map};
    ghost use Rattle.bgp_attr.specs.AttrView.{as4_path_value};
    ghost use Rattle.bgp_attr.specs.CommunitiesView.{communities_value, large_value};
    ghost use Rattle.bgp_attr.specs.MpView.{reach_value, unreach_value};
    ghost use Rattle.bgp_attr.specs.PathView.{path_value};
    ghost use Rattle.bgp_update.specs.KeptView.{known_value};

    /// ORIGIN (RFC 4271, section 5.1.1).
    #[inline(always)]
    pub fn origin(&self) -> Option<Origin>
        ensures { result ≡ (known_value self.now).origin }
    {
        only!(self.known(attribute::ORIGIN), Origin)
    }

    /// AS_PATH (RFC 4271, section 5.1.2).
    #[inline(always)]
    pub fn as_path(&self) -> Option<PathView<'a>>
        ensures { option_map path_value result ≡ (known_value self.now).as_path }
    {
        only!(self.known(attribute::AS_PATH), AsPath)
    }

    /// NEXT_HOP: an IPv4 address (RFC 4271, section 5.1.3).
    #[inline(always)]
    pub fn next_hop(&self) -> Option<[u8; 4]>
        ensures { result ≡ (known_value self.now).next_hop }
    {
        only!(self.known(attribute::NEXT_HOP), NextHop)
    }

    /// MULTI_EXIT_DISC (RFC 4271, section 5.1.4).
    #[inline(always)]
    pub fn med(&self) -> Option<u32>
        ensures { result ≡ (known_value self.now).med }
    {
        only!(self.known(attribute::MULTI_EXIT_DISC), Med)
    }

    /// LOCAL_PREF (RFC 4271, section 5.1.5).
    #[inline(always)]
    pub fn local_pref(&self) -> Option<u32>
        ensures { result ≡ (known_value self.now).local_pref }
    {
        only!(self.known(attribute::LOCAL_PREF), LocalPref)
    }

    /// Whether ATOMIC_AGGREGATE is present (RFC 4271, section 5.1.6).
    #[inline(always)]
    pub fn atomic(&self) -> bool
        ensures { result ≡ (known_value self.now).atomic }
    {
        self.tlv(attribute::ATOMIC_AGGREGATE).is_some()
    }

    /// AGGREGATOR (RFC 4271, section 5.1.7).
    #[inline(always)]
    pub fn aggregator(&self) -> Option<Aggregator>
        ensures { result ≡ (known_value self.now).aggregator }
    {
        only!(self.known(attribute::AGGREGATOR), Aggregator)
    }

    /// COMMUNITIES (RFC 1997).
    #[inline(always)]
    pub fn communities(&self) -> Option<CommunitiesView<'a>>
        ensures { option_map communities_value result ≡ (known_value self.now).communities }
    {
        only!(self.known(attribute::COMMUNITIES), Communities)
    }

    /// MP_REACH_NLRI (RFC 4760, section 3).
    #[inline(always)]
    pub fn reach(&self) -> Option<MpReachView<'a>>
        ensures { option_map reach_value result ≡ (known_value self.now).mp_reach }
    {
        only!(self.known(attribute::MP_REACH_NLRI), MpReach)
    }

    /// MP_UNREACH_NLRI (RFC 4760, section 4).
    #[inline(always)]
    pub fn unreach(&self) -> Option<MpUnreachView<'a>>
        ensures { option_map unreach_value result ≡ (known_value self.now).mp_unreach }
    {
        only!(self.known(attribute::MP_UNREACH_NLRI), MpUnreach)
    }

    /// AS4_PATH (RFC 6793, section 3).
    #[inline(always)]
    pub fn as4_path(&self) -> Option<As4PathView<'a>>
        ensures { option_map as4_path_value result ≡ (known_value self.now).as4_path }
    {
        only!(self.known(attribute::AS4_PATH), As4Path)
    }

    /// AS4_AGGREGATOR (RFC 6793, section 3).
    #[inline(always)]
    pub fn as4_aggregator(&self) -> Option<Aggregator>
        ensures { result ≡ (known_value self.now).as4_aggregator }
    {
        only!(self.known(attribute::AS4_AGGREGATOR), As4Aggregator)
    }

    /// LARGE_COMMUNITY (RFC 8092).
    #[inline(always)]
    pub fn large(&self) -> Option<LargeView<'a>>
        ensures { option_map large_value result ≡ (known_value self.now).large }
    {
        only!(self.known(attribute::LARGE_COMMUNITY), Large)
    }
}
