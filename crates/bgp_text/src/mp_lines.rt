//! The lines of MP_REACH_NLRI and MP_UNREACH_NLRI.

ghost use Rattle.std.specs.Prelude.{◌≡◌, ◌+◌, ◌≤◌, ◌++◌, codes, OnOk};
ghost use Rattle.bgp_text.specs.Below.{flat_map, string_bytes, reach_value, unreach_value};
ghost use Rattle.bgp_text.specs.Lines.{line_of};
ghost use Rattle.bgp_text.specs.MpLines.{ip6_next_line, family_line, reach_lines, unreach_lines};

use crate::short::{Short, put_line, put_lines, put_one};
use crate::source::Source;
use bgp_attr::{MpReachView, MpUnreachView};
use bgp_prefix::Address;
use std::alloc::AllocError;

/// The next hop of IPv6 routes: its global address, and its link-local one.
pub(crate) fn put_ip6_next(
    text: &mut String,
    next_hop: [u8; 16],
    link_local: Option<[u8; 16]>,
) -> Result<(), AllocError>
    ensures { OnOk result (string_bytes text.new ≡ string_bytes text.old ++ ip6_next_line next_hop link_local) }
{
    let Some(link_local) = link_local else {
        return put_line(text, "  mp_reach ip6 next ", Address(next_hop));
    };
    text.push_str("  mp_reach ip6 next ")?;
    put_one(text, Address(next_hop))?;
    put_line(text, " link ", Address(link_local))
}

/// Adds the lines of an MP_REACH_NLRI.
pub(crate) fn put_reach(text: &mut String, reach: MpReachView<'_>) -> Result<(), AllocError>
    ensures { OnOk result (string_bytes text.new ≡ string_bytes text.old ++ reach_lines (reach_value reach.entry)) }
{
    match reach {
        MpReachView::Ip4 { next_hop, nlri } => {
            put_line(text, "  mp_reach ip4 next ", Address(next_hop))?;
            put_lines(text, "  mp_nlri ", nlri)
        }
        MpReachView::Ip6 {
            next_hop,
            link_local,
            nlri,
        } => {
            put_ip6_next(text, next_hop, link_local)?;
            put_lines(text, "  mp_nlri ", nlri)
        }
    }
}

/// The family of withdrawn routes.
pub(crate) fn put_family(text: &mut String, family: &str) -> Result<(), AllocError>
    ensures { OnOk result (string_bytes text.new ≡ string_bytes text.old ++ family_line family.now) }
{
    write!(text, "  mp_unreach {family}\n")
}

/// Adds a family, and its withdrawn routes.
#[inline(always)]
fn put_gone<T: Short, S: Source<Item = T>>(
    text: &mut String,
    family: &str,
    routes: S,
) -> Result<(), AllocError>
    requires { 15 + (T.most + 3) ≤ 72 }
    ensures { OnOk result (string_bytes text.new ≡ string_bytes text.old
        ++ (family_line family.now ++ flat_map (line_of (codes "  mp_withdrawn ") T.text) (S.left routes))) }
{
    put_family(text, family)?;
    put_lines(text, "  mp_withdrawn ", routes)
}

/// Adds the lines of an MP_UNREACH_NLRI.
pub(crate) fn put_unreach(text: &mut String, unreach: MpUnreachView<'_>) -> Result<(), AllocError>
    ensures { OnOk result (string_bytes text.new ≡ string_bytes text.old ++ unreach_lines (unreach_value unreach.entry)) }
{
    match unreach {
        MpUnreachView::Ip4(routes) => put_gone(text, "ip4", routes),
        MpUnreachView::Ip6(routes) => put_gone(text, "ip6", routes),
    }
}
