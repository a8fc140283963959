//! MP_REACH_NLRI and MP_UNREACH_NLRI as JSON.

ghost use Rattle.std.specs.Prelude.{◌≡◌, ◌++◌, codes, OnOk};
ghost use Rattle.bgp_text.specs.Below.{string_bytes, reach_value, unreach_value, prefixes_left};
ghost use Rattle.bgp_attr.specs.declared.mp.MpReach.TheVariants as reach;
ghost use Rattle.bgp_attr.specs.declared.mp.MpUnreach.TheVariants as unreach;
ghost use Rattle.bgp_text.specs.Json.{member};
ghost use Rattle.bgp_text.specs.JsonAddress.{ip6_json};
ghost use Rattle.bgp_text.specs.JsonMp.{family_json, reach_json, unreach_json};
ghost use Rattle.bgp_text.specs.Lines.{where_there};

use crate::json::{put_decimal, put_name, put_number_member};
use crate::json_addresses::{put_ip4_member, put_ip6_member};
use crate::json_list::put_list_member;
use bgp_attr::{MpReachView, MpUnreachView};
use bgp_numbers::{afi, safi};
use bgp_prefix::{PrefixIter4, PrefixIter6};
use std::alloc::AllocError;

/// Adds the beginning of an object: an address family, unicast.
#[tactic(auto, unfolding(crate::specs::JsonMp::family_json))]
pub(crate) fn put_family(text: &mut String, family: u16) -> Result<(), AllocError>
    ensures { OnOk result (string_bytes text.new ≡ string_bytes text.old ++ family_json family) }
{
    text.push_str("{\"afi\":")?;
    put_decimal(text, u32::from(family))?;
    put_number_member(text, "safi", u32::from(safi::UNICAST))
}

/// Adds a next hop and IPv4 routes.
#[tactic(auto, unfolding(crate::specs::JsonMp::reach_json))]
fn put_ip4_reach(
    text: &mut String,
    next_hop: [u8; 4],
    nlri: PrefixIter4<'_>,
) -> Result<(), AllocError>
    ensures { OnOk result (string_bytes text.new ≡ string_bytes text.old ++ reach_json (reach.Ip4 next_hop (prefixes_left nlri.entry))) }
{
    put_family(text, afi::IPV4)?;
    put_ip4_member(text, "next_hop", next_hop)?;
    put_list_member(text, "nlri", nlri)?;
    text.push_str("}")
}

/// Adds the link-local next hop, if it is present.
pub(crate) fn put_link_local(
    text: &mut String,
    link_local: Option<[u8; 16]>,
) -> Result<(), AllocError>
    ensures { OnOk result (string_bytes text.new ≡ string_bytes text.old ++ where_there (member (codes "link_local") ip6_json) link_local) }
{
    match link_local {
        None => Ok(()),
        Some(link_local) => put_ip6_member(text, "link_local", link_local),
    }
}

/// Adds the next hops and IPv6 routes.
#[tactic(auto, unfolding(crate::specs::JsonMp::reach_json))]
fn put_ip6_reach(
    text: &mut String,
    next_hop: [u8; 16],
    link_local: Option<[u8; 16]>,
    nlri: PrefixIter6<'_>,
) -> Result<(), AllocError>
    ensures { OnOk result (string_bytes text.new ≡ string_bytes text.old ++ reach_json (reach.Ip6 next_hop link_local (prefixes_left nlri.entry))) }
{
    put_family(text, afi::IPV6)?;
    put_ip6_member(text, "next_hop", next_hop)?;
    put_link_local(text, link_local)?;
    put_list_member(text, "nlri", nlri)?;
    text.push_str("}")
}

/// Adds MP_REACH_NLRI.
pub(crate) fn put_reach(text: &mut String, reach: MpReachView<'_>) -> Result<(), AllocError>
    ensures { OnOk result (string_bytes text.new ≡ string_bytes text.old ++ member (codes "mp_reach") reach_json (reach_value reach.entry)) }
{
    put_name(text, "mp_reach")?;
    match reach {
        MpReachView::Ip4 { next_hop, nlri } => put_ip4_reach(text, next_hop, nlri),
        MpReachView::Ip6 {
            next_hop,
            link_local,
            nlri,
        } => put_ip6_reach(text, next_hop, link_local, nlri),
    }
}

/// Adds withdrawn IPv4 routes.
#[tactic(auto, unfolding(crate::specs::JsonMp::unreach_json))]
fn put_ip4_unreach(text: &mut String, routes: PrefixIter4<'_>) -> Result<(), AllocError>
    ensures { OnOk result (string_bytes text.new ≡ string_bytes text.old ++ unreach_json (unreach.Ip4 (prefixes_left routes.entry))) }
{
    put_family(text, afi::IPV4)?;
    put_list_member(text, "withdrawn", routes)?;
    text.push_str("}")
}

/// Adds withdrawn IPv6 routes.
#[tactic(auto, unfolding(crate::specs::JsonMp::unreach_json))]
fn put_ip6_unreach(text: &mut String, routes: PrefixIter6<'_>) -> Result<(), AllocError>
    ensures { OnOk result (string_bytes text.new ≡ string_bytes text.old ++ unreach_json (unreach.Ip6 (prefixes_left routes.entry))) }
{
    put_family(text, afi::IPV6)?;
    put_list_member(text, "withdrawn", routes)?;
    text.push_str("}")
}

/// Adds MP_UNREACH_NLRI.
pub(crate) fn put_unreach(text: &mut String, unreach: MpUnreachView<'_>) -> Result<(), AllocError>
    ensures { OnOk result (string_bytes text.new ≡ string_bytes text.old ++ member (codes "mp_unreach") unreach_json (unreach_value unreach.entry)) }
{
    put_name(text, "mp_unreach")?;
    match unreach {
        MpUnreachView::Ip4(routes) => put_ip4_unreach(text, routes),
        MpUnreachView::Ip6(routes) => put_ip6_unreach(text, routes),
    }
}
