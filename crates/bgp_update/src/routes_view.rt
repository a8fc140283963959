//! The routes of a message, borrowed.

ghost use Rattle.std.specs.Prelude.{◌≡◌, [], IfOk, option_map};
ghost use Rattle.bgp_attr.specs.Prelude.{reach_value, unreach_value};
ghost use Rattle.bgp_prefix.specs.Prelude.{prefixes_left};
ghost use Rattle.bgp_update.specs.Notes.{gone_ip4, gone_ip6, reached_ip4, reached_ip6};
ghost use Rattle.bgp_update.specs.Prelude.{routes_value};

use crate::add_routes::add_routes;
use crate::routes::Routes;
use crate::view::UpdateView;
use bgp_attr::{MpReachView, MpUnreachView};
use bgp_prefix::{Prefix4, Prefix6, PrefixIter, PrefixIter4, PrefixIter6};
use bgp_wire::List;
use std::alloc::{AllocError, Global};

/// All routes of a message, borrowed: a [`Routes`] by the fields and attributes that contain them.
#[derive(Clone, Copy)]
pub(crate) struct RoutesView<'a> {
    pub(crate) withdrawn: PrefixIter4<'a>,
    pub(crate) gone: AttributeRoutes<'a>,
    pub(crate) reached: AttributeRoutes<'a>,
    pub(crate) nlri: PrefixIter4<'a>,
}

/// The routes of an attribute, which are of one family.
#[derive(Clone, Copy)]
pub(crate) struct AttributeRoutes<'a> {
    pub(crate) ip4: PrefixIter4<'a>,
    pub(crate) ip6: PrefixIter6<'a>,
}

/// No route.
#[inline(always)]
fn none<'a, const W: usize>() -> PrefixIter<'a, W>
    ensures { prefixes_left result ≡ [] }
{
    PrefixIter::new(&[])
}

/// The routes of MP_UNREACH_NLRI.
#[inline(always)]
fn gone(unreach: Option<MpUnreachView<'_>>) -> AttributeRoutes<'_>
    ensures ip4 { prefixes_left result.ip4 ≡ gone_ip4 (option_map unreach_value unreach.entry) }
    ensures ip6 { prefixes_left result.ip6 ≡ gone_ip6 (option_map unreach_value unreach.entry) }
{
    match unreach {
        Some(MpUnreachView::Ip4(ip4)) => AttributeRoutes { ip4, ip6: none() },
        Some(MpUnreachView::Ip6(ip6)) => AttributeRoutes { ip4: none(), ip6 },
        None => AttributeRoutes {
            ip4: none(),
            ip6: none(),
        },
    }
}

/// The routes of MP_REACH_NLRI.
#[inline(always)]
fn reached(reach: Option<MpReachView<'_>>) -> AttributeRoutes<'_>
    ensures ip4 { prefixes_left result.ip4 ≡ reached_ip4 (option_map reach_value reach.entry) }
    ensures ip6 { prefixes_left result.ip6 ≡ reached_ip6 (option_map reach_value reach.entry) }
{
    match reach {
        Some(MpReachView::Ip4 { nlri, .. }) => AttributeRoutes {
            ip4: nlri,
            ip6: none(),
        },
        Some(MpReachView::Ip6 { nlri, .. }) => AttributeRoutes {
            ip4: none(),
            ip6: nlri,
        },
        None => AttributeRoutes {
            ip4: none(),
            ip6: none(),
        },
    }
}

impl<'a> RoutesView<'a> {
    ghost use Rattle.bgp_update.specs.steps.RoutesView.{all_routes};

    /// Those of an UPDATE.
    #[inline(always)]
    pub(crate) fn of(view: &UpdateView<'a>) -> RoutesView<'a>
        ensures { all_routes result ≡ routes_value view.now }
    {
        RoutesView {
            withdrawn: view.withdrawn(),
            gone: gone(view.unreach()),
            reached: reached(view.reach()),
            nlri: view.nlri(),
        }
    }

    /// IPv4 routes, with memory of their own.
    fn own_ip4(self, alloc: Global) -> Result<List<Prefix4>, AllocError>
        ensures { IfOk result (λ routes. routes ≡ (all_routes self.entry).ip4) }
    {
        let mut routes = Vec::new(alloc);
        add_routes(self.withdrawn, &mut routes)?;
        add_routes(self.gone.ip4, &mut routes)?;
        add_routes(self.reached.ip4, &mut routes)?;
        add_routes(self.nlri, &mut routes)?;
        Ok(List::from_vec(routes))
    }

    /// IPv6 routes, with memory of their own.
    fn own_ip6(self, alloc: Global) -> Result<List<Prefix6>, AllocError>
        ensures { IfOk result (λ routes. routes ≡ (all_routes self.entry).ip6) }
    {
        let mut routes = Vec::new(alloc);
        add_routes(self.gone.ip6, &mut routes)?;
        add_routes(self.reached.ip6, &mut routes)?;
        Ok(List::from_vec(routes))
    }

    /// The routes, with memory of their own.
    pub(crate) fn own(self, alloc: Global) -> Result<Routes, AllocError>
        ensures { IfOk result (λ r. r ≡ all_routes self.entry) }
    {
        let ip4 = self.own_ip4(alloc)?;
        let ip6 = self.own_ip6(alloc)?;
        Ok(Routes { ip4, ip6 })
    }
}
