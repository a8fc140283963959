//! An UPDATE, and withdrawn routes, as JSON.

ghost use Rattle.std.specs.Prelude.{◌≡◌, ◌++◌, codes, map, OnOk};
ghost use Rattle.bgp_text.specs.Below.{flat_map, string_bytes, routes_value};
ghost use Rattle.bgp_text.specs.Json.{member, behind_comma, joined};
ghost use Rattle.bgp_text.specs.JsonAddress.{prefix4_json, prefix6_json};
ghost use Rattle.bgp_text.specs.JsonUpdate.{routes_json};

use crate::json::put_name;
use crate::json_attributes::{put_attribute, put_others};
use crate::json_list::{put_further, put_joined, put_list_member};
use crate::members::Form;
use bgp_attr::{AttrView, OpaqueView};
use bgp_prefix::PrefixIter4;
use bgp_update::{Routes, UpdateView};
use std::alloc::{AllocError, Global};

/// Members of an object of JSON.
pub(crate) struct Json;

impl Form for Json {
    ghost use Rattle.bgp_text.specs.JsonUpdate.{in_json};

    ghost shown = { λ _. in_json };

    fn put_withdrawn(&self, text: &mut String, routes: PrefixIter4<'_>) -> Result<(), AllocError> {
        put_list_member(text, "withdrawn", routes)
    }

    #[inline(always)]
    fn put_attribute(
        &self,
        _alloc: Global,
        text: &mut String,
        attr: &AttrView<'_>,
    ) -> Result<(), AllocError> {
        put_attribute(text, attr)
    }

    fn put_others(
        &self,
        _alloc: Global,
        text: &mut String,
        others: &[OpaqueView<'_>],
    ) -> Result<(), AllocError> {
        put_others(text, others)
    }

    fn put_nlri(&self, text: &mut String, routes: PrefixIter4<'_>) -> Result<(), AllocError> {
        put_list_member(text, "nlri", routes)
    }
}

/// Adds routes of both families, IPv4 first, with commas between them.
fn put_joined_routes(text: &mut String, routes: &Routes) -> Result<(), AllocError>
    ensures { OnOk result (string_bytes text.new ≡ string_bytes text.old ++ joined (λ route. route) (map prefix4_json routes.now.ip4 ++ map prefix6_json routes.now.ip6)) }
{
    let ip6 = routes.ip6.as_slice();
    if routes.ip4.is_empty() {
        return put_joined(text, ip6);
    }
    put_joined(text, routes.ip4.as_slice())?;
    put_further(text, ip6)
}

/// Adds these routes as a list.
#[tactic(auto, unfolding(crate::specs::JsonUpdate::routes_json))]
pub(crate) fn put_routes_of(text: &mut String, routes: &Routes) -> Result<(), AllocError>
    ensures { OnOk result (string_bytes text.new ≡ string_bytes text.old ++ member (codes "routes") routes_json routes.now) }
{
    put_name(text, "routes")?;
    text.push_str("[")?;
    put_joined_routes(text, routes)?;
    text.push_str("]")
}

/// Adds the routes of an UPDATE that is treated as a withdrawal. They are collected first: such an UPDATE is rare.
pub(crate) fn put_routes_member(
    alloc: Global,
    text: &mut String,
    view: &UpdateView<'_>,
) -> Result<(), AllocError>
    ensures { OnOk result (string_bytes text.new ≡ string_bytes text.old ++ member (codes "routes") routes_json (routes_value view.now)) }
{
    let routes = view.routes(alloc)?;
    put_routes_of(text, &routes)
}
