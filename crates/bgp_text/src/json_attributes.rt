//! Attributes as JSON.

ghost use Rattle.std.specs.Prelude.{◌≡◌, ◌++◌, map, codes, OnOk};
ghost use Rattle.bgp_text.specs.Below.{string_bytes, attr_value, opaque_value, triples_left, communities_left};
ghost use Rattle.bgp_text.specs.Json.{member, listed};
ghost use Rattle.bgp_text.specs.JsonAttributes.{aggregator_json, community_json, large_json, others_member, attribute_member};

use crate::attribute_lines::origin_name;
use crate::json::{
    put_decimal, put_flag_member, put_name, put_name_member, put_number_member, put_octets_member,
    put_word_member,
};
use crate::json_addresses::put_ip4_member;
use crate::json_list::{Element, put_list_member};
use crate::json_mp::{put_reach, put_unreach};
use crate::json_path::put_path_member;
use crate::word::Word;
use bgp_attr::{Aggregator, AttrView, CommIter, LargeCommIter, OpaqueView};
use bgp_names::attribute_name;
use std::alloc::AllocError;

/// A community.
impl Element for u32 {
    ghost use Rattle.bgp_text.specs.JsonAttributes.{community_json};

    ghost json = { community_json };

    #[tactic(auto, unfolding(crate::specs::JsonAttributes::community_json, crate::specs::Json::quoted))]
    fn put_json(&self, text: &mut String) -> Result<(), AllocError> {
        let community = *self;
        let mut word = Word::new();
        word.character(b'"');
        word.marked(b':', community % 65536);
        word.number(community / 65536);
        word.character(b'"');
        text.push_str(word.text())
    }
}

/// A large community.
impl Element for [u32; 3] {
    ghost use Rattle.bgp_text.specs.JsonAttributes.{large_json};

    ghost json = { large_json };

    #[tactic(auto, unfolding(crate::specs::JsonAttributes::large_json, crate::specs::Json::quoted))]
    fn put_json(&self, text: &mut String) -> Result<(), AllocError> {
        let [global, first, second] = *self;
        let mut word = Word::new();
        word.character(b'"');
        word.marked(b':', second);
        word.marked(b':', first);
        word.number(global);
        word.character(b'"');
        text.push_str(word.text())
    }
}

/// An attribute whose type isn't recognised.
impl Element for OpaqueView<'_> {
    ghost use Rattle.bgp_attr.specs.AttrView.{opaque_value};
    ghost use Rattle.bgp_text.specs.JsonAttributes.{opaque_json};

    ghost json = { λ o. opaque_json (opaque_value o) };

    #[tactic(auto, unfolding(crate::specs::JsonAttributes::opaque_json))]
    fn put_json(&self, text: &mut String) -> Result<(), AllocError> {
        text.push_str("{\"type\":")?;
        put_decimal(text, u32::from(self.kind))?;
        put_flag_member(text, "transitive", self.transitive)?;
        put_flag_member(text, "partial", self.partial)?;
        put_octets_member(text, "value", self.value)?;
        put_name_member(text, "name", attribute_name(self.kind))?;
        text.push_str("}")
    }
}

/// An aggregator's AS number and address, as a member.
#[tactic(auto, unfolding(crate::specs::JsonAttributes::aggregator_json))]
fn put_aggregator(text: &mut String, name: &str, aggregator: Aggregator) -> Result<(), AllocError>
    ensures { OnOk result (string_bytes text.new ≡ string_bytes text.old ++ member name.now aggregator_json aggregator) }
{
    put_name(text, name)?;
    text.push_str("{\"as\":")?;
    put_decimal(text, aggregator.asn.0)?;
    put_ip4_member(text, "address", aggregator.addr)?;
    text.push_str("}")
}

/// COMMUNITIES.
fn put_communities(text: &mut String, communities: CommIter<'_>) -> Result<(), AllocError>
    ensures { OnOk result (string_bytes text.new ≡ string_bytes text.old ++ member (codes "communities") (listed community_json) (communities_left communities.entry)) }
{
    put_list_member(text, "communities", communities)
}

/// LARGE_COMMUNITY.
fn put_large(text: &mut String, communities: LargeCommIter<'_>) -> Result<(), AllocError>
    ensures { OnOk result (string_bytes text.new ≡ string_bytes text.old ++ member (codes "large_communities") (listed large_json) (triples_left communities.entry)) }
{
    put_list_member(text, "large_communities", communities)
}

/// Attributes whose types aren't recognised.
#[tactic(auto, using(crate::proofs::JsonLists::listed_map))]
pub(crate) fn put_others(text: &mut String, others: &[OpaqueView<'_>]) -> Result<(), AllocError>
    ensures { OnOk result (string_bytes text.new ≡ string_bytes text.old ++ others_member (map opaque_value others.now)) }
{
    put_list_member(text, "others", others)
}

/// Adds the member of an attribute.
#[tactic(auto, unfolding(crate::specs::JsonAttributes::attribute_member))]
#[inline(always)]
pub(crate) fn put_attribute(text: &mut String, attr: &AttrView<'_>) -> Result<(), AllocError>
    ensures { OnOk result (string_bytes text.new ≡ string_bytes text.old ++ attribute_member (attr_value attr.now)) }
{
    match *attr {
        AttrView::Origin(origin) => put_word_member(text, "origin", origin_name(origin)),
        AttrView::AsPath(path) => put_path_member(text, "as_path", &path),
        AttrView::NextHop(next_hop) => put_ip4_member(text, "next_hop", next_hop),
        AttrView::Med(metric) => put_number_member(text, "med", metric),
        AttrView::LocalPref(preference) => put_number_member(text, "local_pref", preference),
        AttrView::Atomic => put_flag_member(text, "atomic_aggregate", true),
        AttrView::Aggregator(aggregator) => put_aggregator(text, "aggregator", aggregator),
        AttrView::Communities(communities) => put_communities(text, communities.values),
        AttrView::MpReach(reach) => put_reach(text, reach),
        AttrView::MpUnreach(unreach) => put_unreach(text, unreach),
        AttrView::As4Path(as4_path) => put_path_member(text, "as4_path", &as4_path.path),
        AttrView::As4Aggregator(aggregator) => put_aggregator(text, "as4_aggregator", aggregator),
        AttrView::Large(communities) => put_large(text, communities.values),
        AttrView::Opaque(opaque) => put_others(text, &[opaque]),
    }
}
