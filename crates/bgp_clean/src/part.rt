//! The messages that replace an UPDATE, each with routes of one field (RFC 7606, section 5.1).

ghost use Rattle.std.specs.Prelude.{◌≡◌, ◌+◌, ◌<◌, ◌≤◌, ◌++◌, ◌==◌, [], true, false, length, option_map, OnOk, OnErr};
ghost use Rattle.bgp_numbers.specs.declared.attribute.TheConstants.{NEXT_HOP, MP_REACH_NLRI, MP_UNREACH_NLRI};
ghost use Rattle.bgp_attr.specs.declared.attr.Attr.TheVariants as attr;
ghost use Rattle.bgp_attr.specs.Prelude.{attr_value, reach_value, unreach_value};
ghost use Rattle.bgp_prefix.specs.Prelude.{prefixes_left};
ghost use Rattle.bgp_update.specs.Prelude.{chosen_update, gone_ip4, present, reached_ip4, slot, update_value, written_body};
ghost use Rattle.bgp_clean.specs.steps.Parts.{is_announcing, part_value, CanBePut};
ghost use Rattle.bgp_clean.specs.Prelude.{has_any, gone_routes, hop_part, nlri_routes, reached_routes, unreach_of};

use bgp_attr::{AttrView, MpReachView, MpUnreachView};
use bgp_numbers::attribute;
use bgp_open::Context;
use bgp_prefix::{PrefixIter4, PrefixIter6};
use bgp_update::{Chosen, ClassicRoutes, HasAttributes, UpdateView, write_body};
use bgp_wire::Output;
use std::alloc::AllocError;

/// A message with some routes of an UPDATE.
#[derive(Clone, Copy)]
pub(crate) enum Part {
    /// It withdraws the withdrawn routes.
    Gone,
    /// It announces those of NLRI.
    Nlri,
    /// It withdraws those of NLRI.
    NlriGone,
    /// It announces those of MP_REACH_NLRI.
    Reached,
    /// It withdraws those of MP_REACH_NLRI.
    ReachedGone,
}

/// A part of an UPDATE with the chosen attributes.
#[derive(Clone, Copy)]
pub(crate) struct PartView<'c, 'b, 'a> {
    pub(crate) chosen: &'c Chosen<'b, 'a>,
    pub(crate) part: Part,
}

/// No IPv4 route.
fn none4<'a>() -> PrefixIter4<'a>
    ensures { prefixes_left result ≡ [] }
{
    PrefixIter4::new(&[])
}

/// The IPv4 routes of MP_UNREACH_NLRI.
fn gone4<'a>(view: &UpdateView<'a>) -> PrefixIter4<'a>
    ensures { prefixes_left result ≡ gone_ip4 (update_value view.now).attrs.mp_unreach }
{
    match view.unreach() {
        Some(MpUnreachView::Ip4(routes)) => routes,
        _ => none4(),
    }
}

/// The IPv4 routes of MP_REACH_NLRI.
fn reached4<'a>(view: &UpdateView<'a>) -> PrefixIter4<'a>
    ensures { prefixes_left result ≡ reached_ip4 (update_value view.now).attrs.mp_reach }
{
    match view.reach() {
        Some(MpReachView::Ip4 { nlri, .. }) => nlri,
        _ => none4(),
    }
}

/// Whether routes are withdrawn.
pub(crate) fn has_gone(view: &UpdateView<'_>) -> bool
    ensures { result ≡ has_any (gone_routes (update_value view.now)) }
{
    if view.withdrawn().has_next() {
        return true;
    }
    match view.unreach() {
        None => false,
        Some(MpUnreachView::Ip4(routes)) => routes.has_next(),
        Some(MpUnreachView::Ip6(routes)) => routes.has_next(),
    }
}

/// Whether there are routes in NLRI.
pub(crate) fn has_nlri(view: &UpdateView<'_>) -> bool
    ensures { result ≡ has_any (nlri_routes (update_value view.now)) }
{
    view.nlri().has_next()
}

/// Whether there are routes in MP_REACH_NLRI.
pub(crate) fn has_reached(view: &UpdateView<'_>) -> bool
    ensures { result ≡ has_any (reached_routes (update_value view.now)) }
{
    match view.reach() {
        None => false,
        Some(MpReachView::Ip4 { nlri, .. }) => nlri.has_next(),
        Some(MpReachView::Ip6 { nlri, .. }) => nlri.has_next(),
    }
}

/// An MP_UNREACH_NLRI with these IPv6 routes, where there are some.
fn unreach_of(routes: PrefixIter6<'_>) -> Option<MpUnreachView<'_>>
    ensures { option_map unreach_value result ≡ unreach_of (prefixes_left routes.entry) }
{
    if routes.has_next() {
        Some(MpUnreachView::Ip6(routes))
    } else {
        None
    }
}

/// The next hop of IPv4 routes in MP_REACH_NLRI, where there are some.
fn hop_of(reach: Option<MpReachView<'_>>) -> Option<[u8; 4]>
    ensures { result ≡ hop_part (option_map reach_value reach.entry) }
{
    let Some(MpReachView::Ip4 { next_hop, nlri }) = reach else {
        return None;
    };
    let mut routes = nlri;
    match routes.next() {
        None => None,
        Some(_) => Some(next_hop),
    }
}

/// A NEXT_HOP, where there is one.
fn hop_attr<'a>(hop: Option<[u8; 4]>) -> Option<AttrView<'a>>
    ensures { present attr_value result ≡ present attr.NextHop hop }
{
    Some(AttrView::NextHop(hop?))
}

/// An MP_REACH_NLRI, where there is one.
fn reach_attr(reach: Option<MpReachView<'_>>) -> Option<AttrView<'_>>
    ensures { present attr_value result ≡ present attr.MpReach (option_map reach_value reach.entry) }
{
    Some(AttrView::MpReach(reach?))
}

/// An MP_UNREACH_NLRI, where there is one.
fn unreach_attr(unreach: Option<MpUnreachView<'_>>) -> Option<AttrView<'_>>
    ensures { present attr_value result ≡ present attr.MpUnreach (option_map unreach_value unreach.entry) }
{
    Some(AttrView::MpUnreach(unreach?))
}

impl<'a> PartView<'_, '_, 'a> {
    /// The UPDATE that it is a part of.
    fn view(&self) -> &UpdateView<'a>
        ensures { result.now ≡ self.now.chosen.now.view.now }
    {
        self.chosen.view()
    }

    /// Whether it announces routes.
    fn announces(&self) -> bool
        ensures { result ≡ is_announcing self.now.part }
    {
        match self.part {
            Part::Nlri | Part::Reached => true,
            Part::Gone | Part::NlriGone | Part::ReachedGone => false,
        }
    }

    /// The NEXT_HOP.
    #[tactic(auto, unfolding(bgp_update::specs::Fields::attrs_from))]
    pub(crate) fn next_hop(&self) -> Option<[u8; 4]>
        ensures { result ≡ (part_value self.now).attrs.next_hop }
    {
        match self.part {
            Part::Nlri => self.view().kept().next_hop(),
            Part::Reached => hop_of(self.view().reach()),
            Part::Gone => None,
            Part::NlriGone => None,
            Part::ReachedGone => None,
        }
    }

    /// The MP_REACH_NLRI.
    #[tactic(auto, unfolding(bgp_update::specs::Fields::attrs_from))]
    pub(crate) fn reach(&self) -> Option<MpReachView<'a>>
        ensures { option_map reach_value result ≡ (part_value self.now).attrs.mp_reach }
    {
        match self.part {
            Part::Reached => match self.view().reach() {
                Some(MpReachView::Ip4 { .. }) => None,
                reach => reach,
            },
            Part::Gone => None,
            Part::Nlri => None,
            Part::NlriGone => None,
            Part::ReachedGone => None,
        }
    }

    /// The MP_UNREACH_NLRI.
    fn unreach(&self) -> Option<MpUnreachView<'a>>
        ensures { option_map unreach_value result ≡ (part_value self.now).attrs.mp_unreach }
    {
        match self.part {
            Part::Gone => match self.view().unreach() {
                Some(MpUnreachView::Ip6(routes)) => unreach_of(routes),
                _ => None,
            },
            Part::ReachedGone => match self.view().reach() {
                Some(MpReachView::Ip6 { nlri, .. }) => unreach_of(nlri),
                _ => None,
            },
            Part::Nlri | Part::NlriGone | Part::Reached => None,
        }
    }

    /// The attribute of a type that isn't of routes or their next hop.
    fn other(&self, kind: u8) -> Option<AttrView<'a>>
        requires next_hop { (kind == NEXT_HOP) ≡ false }
        requires reach { (kind == MP_REACH_NLRI) ≡ false }
        requires unreach { (kind == MP_UNREACH_NLRI) ≡ false }
        ensures { present attr_value result ≡ slot (part_value self.now).attrs kind }
    {
        if self.announces() {
            self.chosen.attribute(kind)
        } else {
            None
        }
    }

    /// The routes of the classic fields.
    fn routes(&self) -> ClassicRoutes<'a>
        ensures withdrawn { prefixes_left result.withdrawn ++ prefixes_left result.gone ≡ (part_value self.now).withdrawn }
        ensures nlri { prefixes_left result.nlri ≡ (part_value self.now).nlri }
    {
        let view = self.view();
        let (withdrawn, gone, nlri) = match self.part {
            Part::Gone => (view.withdrawn(), gone4(view), none4()),
            Part::Nlri => (none4(), none4(), view.nlri()),
            Part::NlriGone => (view.nlri(), none4(), none4()),
            Part::Reached => (none4(), none4(), reached4(view)),
            Part::ReachedGone => (reached4(view), none4(), none4()),
        };
        ClassicRoutes {
            withdrawn,
            gone,
            nlri,
        }
    }

    /// Whether the part is all of the UPDATE (the common case), which is written in fewer steps.
    fn is_whole(&self) -> bool
        ensures { result ≡ true → part_value self.now ≡ chosen_update self.now.chosen.now }
    {
        let view = self.view();
        if view.withdrawn().has_next() || view.unreach().is_some() {
            return false;
        }
        match (self.part, view.reach()) {
            (Part::Nlri, None) => true,
            (Part::Reached, Some(MpReachView::Ip6 { .. })) => {
                !view.nlri().has_next() && view.kept().next_hop().is_none()
            }
            _ => false,
        }
    }

    /// Appends the body.
    ///
    /// # Errors
    /// `AllocError` where there was no room; nothing is appended then.
    pub(crate) fn write<O: Output>(&self, ctx: &Context, out: &mut O) -> Result<(), AllocError>
        requires { CanBePut ctx.now (part_value self.now) }
        ensures ok { OnOk result (O.written out.new ≡ O.written out.old ++ written_body ctx.now (part_value self.now)) }
        ensures err { OnErr result (O.written out.new ≡ O.written out.old) }
        ensures full { OnErr result (O.room < length (O.written out.old) + length (written_body ctx.now (part_value self.now))) }
    {
        if self.is_whole() {
            self.chosen.write(ctx, out)
        } else {
            write_body(ctx, &self.routes(), self, out)
        }
    }
}

impl<'a> HasAttributes<'a> for PartView<'_, '_, 'a> {
    ghost use Rattle.bgp_clean.specs.steps.Parts.{part_value};

    ghost attrs = { λ p. (part_value p).attrs };

    fn attribute(&self, kind: u8) -> Option<AttrView<'a>> {
        match kind {
            attribute::NEXT_HOP => hop_attr(self.next_hop()),
            attribute::MP_REACH_NLRI => reach_attr(self.reach()),
            attribute::MP_UNREACH_NLRI => unreach_attr(self.unreach()),
            _ => self.other(kind),
        }
    }

    fn types(&self) -> &'static [u8] {
        if self.announces() {
            self.chosen.written_types()
        } else {
            &[attribute::MP_UNREACH_NLRI]
        }
    }
}
