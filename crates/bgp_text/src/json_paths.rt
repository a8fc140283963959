//! An UPDATE whose routes have path identifiers, as JSON.

ghost use Rattle.std.specs.Prelude.{◌≡◌, ◌++◌, codes, OnOk};
ghost use Rattle.bgp_paths.specs.Prelude.{numbers4, numbers6, path_numbers, shifted};
ghost use Rattle.bgp_text.specs.Below.{string_bytes, notes_value, outcome_value, reach_value, routes_value, unreach_value, update_value};
ghost use Rattle.bgp_attr.specs.declared.mp.MpReach.TheVariants as reach;
ghost use Rattle.bgp_attr.specs.declared.mp.MpUnreach.TheVariants as unreach;
ghost use Rattle.bgp_text.specs.Below.{prefixes_left};
ghost use Rattle.bgp_text.specs.Json.{member, listed};
ghost use Rattle.bgp_text.specs.JsonPaths.{beside_paths, cell_json, path_outcome_json, path_outcome_members, path_reach_json, path_routes_members, path_unreach_json, path_update_members, path_withdraw_members, paths_member, placed_member};

use crate::beside::{Beside, BesideIter, Both};
use crate::json::{put_line_end, put_name, put_object_end};
use crate::json_addresses::{put_ip4_member, put_ip6_member};
use crate::json_attributes::{put_attribute, put_others};
use crate::json_list::{Element, put_list_member};
use crate::json_mp::{put_family, put_link_local};
use crate::json_outcome::{put_judged, put_viewed_members};
use crate::json_update::put_routes_of;
use crate::members::{Form, put_members};
use crate::path_lines::{ip4_numbers, ip6_numbers};
use crate::placed_notes::PlacedNotes;
use crate::short::{Decimal, put_one};
use crate::source::Source;
use bgp_attr::{AttrView, MpReachView, MpUnreachView, OpaqueView};
use bgp_fields::Span;
use bgp_msg::OutcomeView;
use bgp_numbers::afi;
use bgp_paths::{PathRun, PathRuns, PathShifts};
use bgp_prefix::{PrefixIter4, PrefixIter6};
use bgp_update::UpdateView;
use std::alloc::{AllocError, Global};

/// The path identifiers beside routes: that of each, or none.
#[derive(Clone, Copy)]
struct BesidePaths<S, N> {
    beside: BesideIter<S, N>,
}

impl<T: Copy, S: Source<Item = T>, N: Source<Item = u32>> Source for BesidePaths<S, N> {
    ghost use Rattle.bgp_text.specs.JsonPaths.{beside_paths};

    type Item = Option<u32>;

    ghost left = { λ s. beside_paths (S.left s.beside.routes) (N.left s.beside.numbers) };

    fn step(&mut self) -> Option<Option<u32>> {
        let beside = self.beside.step()?;
        Some(beside.path)
    }
}

/// A path identifier, or null.
impl Element for Option<u32> {
    ghost use Rattle.bgp_text.specs.JsonPaths.{cell_json};

    ghost json = { cell_json };

    fn put_json(&self, text: &mut String) -> Result<(), AllocError> {
        match *self {
            None => text.push_str("null"),
            Some(number) => put_one(text, Decimal(number)),
        }
    }
}

/// Adds the path identifiers of these routes, as a list.
fn put_paths_member<T: Copy, S: Source<Item = T>, N: Source<Item = u32>>(
    text: &mut String,
    name: &str,
    routes: S,
    numbers: N,
) -> Result<(), AllocError>
    ensures { OnOk result (string_bytes text.new ≡ string_bytes text.old ++ paths_member name.now (S.left routes) (N.left numbers)) }
{
    let beside = BesideIter { routes, numbers };
    put_list_member(text, name, BesidePaths { beside })
}

/// Adds a next hop and IPv4 routes.
#[tactic(auto, unfolding(crate::specs::JsonPaths::path_reach_json))]
fn put_ip4_reach(
    text: &mut String,
    next_hop: [u8; 4],
    nlri: PrefixIter4<'_>,
    run: PathRun<'_>,
) -> Result<(), AllocError>
    ensures { OnOk result (string_bytes text.new ≡ string_bytes text.old ++ path_reach_json (numbers4 run.entry) (numbers6 run.entry) (reach.Ip4 next_hop (prefixes_left nlri.entry))) }
{
    put_family(text, afi::IPV4)?;
    put_ip4_member(text, "next_hop", next_hop)?;
    put_list_member(text, "nlri", nlri)?;
    put_paths_member(text, "nlri_paths", nlri, run.of_ip4())?;
    text.push_str("}")
}

/// Adds the next hops and IPv6 routes.
#[tactic(auto, unfolding(crate::specs::JsonPaths::path_reach_json))]
fn put_ip6_reach(
    text: &mut String,
    next_hop: [u8; 16],
    link_local: Option<[u8; 16]>,
    nlri: PrefixIter6<'_>,
    run: PathRun<'_>,
) -> Result<(), AllocError>
    ensures { OnOk result (string_bytes text.new ≡ string_bytes text.old ++ path_reach_json (numbers4 run.entry) (numbers6 run.entry) (reach.Ip6 next_hop link_local (prefixes_left nlri.entry))) }
{
    put_family(text, afi::IPV6)?;
    put_ip6_member(text, "next_hop", next_hop)?;
    put_link_local(text, link_local)?;
    put_list_member(text, "nlri", nlri)?;
    put_paths_member(text, "nlri_paths", nlri, run.of_ip6())?;
    text.push_str("}")
}

/// Adds MP_REACH_NLRI.
fn put_reach(text: &mut String, reach: MpReachView<'_>, run: PathRun<'_>) -> Result<(), AllocError>
    ensures { OnOk result (string_bytes text.new ≡ string_bytes text.old
        ++ member (codes "mp_reach") (path_reach_json (numbers4 run.entry) (numbers6 run.entry)) (reach_value reach.entry)) }
{
    put_name(text, "mp_reach")?;
    match reach {
        MpReachView::Ip4 { next_hop, nlri } => put_ip4_reach(text, next_hop, nlri, run),
        MpReachView::Ip6 {
            next_hop,
            link_local,
            nlri,
        } => put_ip6_reach(text, next_hop, link_local, nlri, run),
    }
}

/// Adds withdrawn IPv4 routes.
#[tactic(auto, unfolding(crate::specs::JsonPaths::path_unreach_json))]
fn put_ip4_unreach(
    text: &mut String,
    routes: PrefixIter4<'_>,
    run: PathRun<'_>,
) -> Result<(), AllocError>
    ensures { OnOk result (string_bytes text.new ≡ string_bytes text.old ++ path_unreach_json (numbers4 run.entry) (numbers6 run.entry) (unreach.Ip4 (prefixes_left routes.entry))) }
{
    put_family(text, afi::IPV4)?;
    put_list_member(text, "withdrawn", routes)?;
    put_paths_member(text, "withdrawn_paths", routes, run.of_ip4())?;
    put_object_end(text)
}

/// Adds withdrawn IPv6 routes.
#[tactic(auto, unfolding(crate::specs::JsonPaths::path_unreach_json))]
fn put_ip6_unreach(
    text: &mut String,
    routes: PrefixIter6<'_>,
    run: PathRun<'_>,
) -> Result<(), AllocError>
    ensures { OnOk result (string_bytes text.new ≡ string_bytes text.old ++ path_unreach_json (numbers4 run.entry) (numbers6 run.entry) (unreach.Ip6 (prefixes_left routes.entry))) }
{
    put_family(text, afi::IPV6)?;
    put_list_member(text, "withdrawn", routes)?;
    put_paths_member(text, "withdrawn_paths", routes, run.of_ip6())?;
    put_object_end(text)
}

/// Adds MP_UNREACH_NLRI.
fn put_unreach(
    text: &mut String,
    unreach: MpUnreachView<'_>,
    run: PathRun<'_>,
) -> Result<(), AllocError>
    ensures { OnOk result (string_bytes text.new ≡ string_bytes text.old
        ++ member (codes "mp_unreach") (path_unreach_json (numbers4 run.entry) (numbers6 run.entry)) (unreach_value unreach.entry)) }
{
    put_name(text, "mp_unreach")?;
    match unreach {
        MpUnreachView::Ip4(routes) => put_ip4_unreach(text, routes, run),
        MpUnreachView::Ip6(routes) => put_ip6_unreach(text, routes, run),
    }
}

/// Members of an object of JSON, with these path identifiers beside the routes.
#[derive(Clone, Copy)]
struct PathJson<'a> {
    runs: PathRuns<'a>,
}

impl<'a> Form for PathJson<'a> {
    ghost use Rattle.bgp_text.specs.JsonPaths.{in_path_json};

    ghost shown = { λ form. in_path_json (path_numbers form.runs) };

    fn put_withdrawn(&self, text: &mut String, routes: PrefixIter4<'_>) -> Result<(), AllocError> {
        put_list_member(text, "withdrawn", routes)?;
        put_paths_member(text, "withdrawn_paths", routes, self.runs.withdrawn)
    }

    fn put_attribute(
        &self,
        _alloc: Global,
        text: &mut String,
        attr: &AttrView<'_>,
    ) -> Result<(), AllocError> {
        match *attr {
            AttrView::MpReach(reach) => put_reach(text, reach, self.runs.reached),
            AttrView::MpUnreach(unreach) => put_unreach(text, unreach, self.runs.unreached),
            _ => put_attribute(text, attr),
        }
    }

    fn put_others(
        &self,
        _alloc: Global,
        text: &mut String,
        others: &[OpaqueView<'_>],
    ) -> Result<(), AllocError> {
        put_others(text, others)
    }

    fn put_nlri(&self, text: &mut String, routes: PrefixIter4<'_>) -> Result<(), AllocError> {
        put_list_member(text, "nlri", routes)?;
        put_paths_member(text, "nlri_paths", routes, self.runs.nlri)
    }
}

/// Adds the routes of an UPDATE that is treated as a withdrawal, and their path identifiers.
fn put_path_routes(
    alloc: Global,
    text: &mut String,
    view: &UpdateView<'_>,
    runs: &PathRuns<'_>,
) -> Result<(), AllocError>
    ensures { OnOk result (string_bytes text.new ≡ string_bytes text.old ++ path_routes_members (path_numbers runs.now) (routes_value view.now)) }
{
    let all = view.routes(alloc)?;
    put_routes_of(text, &all)?;
    let routes = all.ip4.as_slice();
    let numbers = ip4_numbers(runs);
    let first = BesidePaths {
        beside: BesideIter { routes, numbers },
    };
    let routes = all.ip6.as_slice();
    let numbers = ip6_numbers(runs);
    let second = BesidePaths {
        beside: BesideIter { routes, numbers },
    };
    put_list_member(text, "paths", Both { first, second })
}

/// Adds the notes on an UPDATE, at the offsets of its body as it was received.
fn put_notes(
    text: &mut String,
    shifts: &PathShifts,
    view: &UpdateView<'_>,
) -> Result<(), AllocError>
    ensures { OnOk result (string_bytes text.new ≡ string_bytes text.old ++ placed_member (shifted shifts.now) (notes_value view.now)) }
{
    let notes = view.notes();
    put_list_member(
        text,
        "notes",
        PlacedNotes {
            notes,
            shifts: *shifts,
        },
    )
}

/// An accepted UPDATE.
fn put_update(
    alloc: Global,
    text: &mut String,
    place: u64,
    len: u16,
    runs: &PathRuns<'_>,
    shifts: &PathShifts,
    view: &UpdateView<'_>,
) -> Result<(), AllocError>
    ensures { OnOk result (string_bytes text.new ≡ string_bytes text.old
        ++ path_update_members (path_numbers runs.now) (shifted shifts.now) place len (update_value view.now) (notes_value view.now)) }
{
    put_judged(text, place, len, "UPDATE", "take")?;
    put_members(&PathJson { runs: *runs }, alloc, text, view)?;
    put_notes(text, shifts, view)
}

/// An UPDATE that is treated as a withdrawal.
fn put_withdrawn(
    alloc: Global,
    text: &mut String,
    place: u64,
    len: u16,
    runs: &PathRuns<'_>,
    shifts: &PathShifts,
    view: &UpdateView<'_>,
) -> Result<(), AllocError>
    ensures { OnOk result (string_bytes text.new ≡ string_bytes text.old
        ++ path_withdraw_members (path_numbers runs.now) (shifted shifts.now) place len (routes_value view.now) (notes_value view.now)) }
{
    put_judged(text, place, len, "UPDATE", "withdraw")?;
    put_path_routes(alloc, text, view, runs)?;
    put_notes(text, shifts, view)
}

/// Adds the object of an outcome except its end.
#[tactic(auto, unfolding(crate::specs::JsonOutcome::outcome_members, crate::specs::JsonOutcome::took_members))]
pub(crate) fn put_path_members(
    alloc: Global,
    text: &mut String,
    place: u64,
    len: u16,
    runs: &PathRuns<'_>,
    shifts: &PathShifts,
    outcome: &OutcomeView<'_>,
) -> Result<(), AllocError>
    ensures { OnOk result (string_bytes text.new ≡ string_bytes text.old
        ++ path_outcome_members (path_numbers runs.now) (shifted shifts.now) place len (outcome_value outcome.now)) }
{
    match outcome {
        OutcomeView::Update(view) => put_update(alloc, text, place, len, runs, shifts, view),
        OutcomeView::Withdraw(view) => put_withdrawn(alloc, text, place, len, runs, shifts, view),
        _ => put_viewed_members(alloc, text, place, len, None, outcome),
    }
}

/// Adds the outcome of a message without path identifiers as a JSON object on a line, as [`put_viewed_json`](crate::put_viewed_json) does, with the path
/// identifiers of its routes in lists as long as those of the routes, null where a route has none, and with the offsets of notes in the body as it was
/// received (RFC 7911, section 3). A reset has no octets that cause it.
///
/// # Errors
/// `AllocError` where an allocation failed.
pub fn put_path_json(
    alloc: Global,
    text: &mut String,
    place: u64,
    len: u16,
    runs: &PathRuns<'_>,
    shifts: &PathShifts,
    outcome: &OutcomeView<'_>,
) -> Result<(), AllocError>
    ensures { OnOk result (string_bytes text.new ≡ string_bytes text.old
        ++ path_outcome_json (path_numbers runs.now) (shifted shifts.now) place len (outcome_value outcome.now)) }
{
    put_path_members(alloc, text, place, len, runs, shifts, outcome)?;
    put_line_end(text)
}
