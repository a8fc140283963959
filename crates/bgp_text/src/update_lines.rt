//! The lines of an UPDATE, and of withdrawn routes.

ghost use Rattle.std.specs.Prelude.{◌≡◌, ◌++◌, option_map, codes, OnOk};
ghost use Rattle.bgp_text.specs.Below.{flat_map, string_bytes, reach_value, unreach_value, ipv4_text, ipv6_text};
ghost use Rattle.bgp_text.specs.Below.{gone_ip4, gone_ip6, reached_ip4, reached_ip6, routes_value};
ghost use Rattle.bgp_text.specs.Lines.{line_of};
ghost use Rattle.bgp_text.specs.UpdateLines.{routes_lines};

use crate::attribute_lines::{put_attribute, put_others};
use crate::members::Form;
use crate::short::put_lines;
use bgp_attr::{AttrView, MpReachView, MpUnreachView, OpaqueView};
use bgp_prefix::PrefixIter4;
use bgp_update::UpdateView;
use std::alloc::{AllocError, Global};

/// Lines of text.
pub(crate) struct Lines;

impl Form for Lines {
    ghost use Rattle.bgp_text.specs.UpdateLines.{in_lines};

    ghost shown = { λ _. in_lines };

    #[inline(always)]
    fn put_withdrawn(&self, text: &mut String, routes: PrefixIter4<'_>) -> Result<(), AllocError> {
        put_lines(text, "  withdrawn ", routes)
    }

    #[inline(always)]
    fn put_attribute(
        &self,
        alloc: Global,
        text: &mut String,
        attr: &AttrView<'_>,
    ) -> Result<(), AllocError> {
        put_attribute(alloc, text, attr)
    }

    fn put_others(
        &self,
        alloc: Global,
        text: &mut String,
        others: &[OpaqueView<'_>],
    ) -> Result<(), AllocError> {
        put_others(alloc, text, others)
    }

    #[inline(always)]
    fn put_nlri(&self, text: &mut String, routes: PrefixIter4<'_>) -> Result<(), AllocError> {
        put_lines(text, "  nlri ", routes)
    }
}

/// The IPv4 routes of attributes.
fn put_ip4_routes(
    text: &mut String,
    unreach: Option<MpUnreachView<'_>>,
    reach: Option<MpReachView<'_>>,
) -> Result<(), AllocError>
    ensures { OnOk result (string_bytes text.new ≡ string_bytes text.old
        ++ (flat_map (line_of (codes "  route ") ipv4_text) (gone_ip4 (option_map unreach_value unreach.entry))
        ++ flat_map (line_of (codes "  route ") ipv4_text) (reached_ip4 (option_map reach_value reach.entry)))) }
{
    if let Some(MpUnreachView::Ip4(routes)) = unreach {
        put_lines(text, "  route ", routes)?;
    }
    if let Some(MpReachView::Ip4 { nlri, .. }) = reach {
        put_lines(text, "  route ", nlri)?;
    }
    Ok(())
}

/// The IPv6 routes of attributes.
fn put_ip6_routes(
    text: &mut String,
    unreach: Option<MpUnreachView<'_>>,
    reach: Option<MpReachView<'_>>,
) -> Result<(), AllocError>
    ensures { OnOk result (string_bytes text.new ≡ string_bytes text.old
        ++ (flat_map (line_of (codes "  route ") ipv6_text) (gone_ip6 (option_map unreach_value unreach.entry))
        ++ flat_map (line_of (codes "  route ") ipv6_text) (reached_ip6 (option_map reach_value reach.entry)))) }
{
    if let Some(MpUnreachView::Ip6(routes)) = unreach {
        put_lines(text, "  route ", routes)?;
    }
    if let Some(MpReachView::Ip6 { nlri, .. }) = reach {
        put_lines(text, "  route ", nlri)?;
    }
    Ok(())
}

/// Adds a line for each withdrawn route.
pub(crate) fn put_routes(text: &mut String, view: &UpdateView<'_>) -> Result<(), AllocError>
    ensures { OnOk result (string_bytes text.new ≡ string_bytes text.old ++ routes_lines (routes_value view.now)) }
{
    let unreach = view.unreach();
    let reach = view.reach();
    put_lines(text, "  route ", view.withdrawn())?;
    put_ip4_routes(text, unreach, reach)?;
    put_lines(text, "  route ", view.nlri())?;
    put_ip6_routes(text, unreach, reach)
}
