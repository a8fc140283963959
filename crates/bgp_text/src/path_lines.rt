//! The lines of an UPDATE whose routes have path identifiers.

ghost use Rattle.std.specs.Prelude.{true, ◌≡◌, ◌+◌, ◌≤◌, ◌++◌, length, OnOk};
ghost use Rattle.bgp_paths.specs.Prelude.{numbers4, numbers6, numbers_left, path_numbers};
ghost use Rattle.bgp_text.specs.Below.{flat_map, is_ascii, list_all, string_bytes, reach_value, routes_value, unreach_value};
ghost use Rattle.bgp_text.specs.Beside.{numbers_ip4, numbers_ip6};
ghost use Rattle.bgp_text.specs.PathLines.{beside_line, path_reach_lines, path_routes_lines, path_unreach_lines};

use crate::attribute_lines::{put_attribute, put_others};
use crate::beside::{Beside, BesideIter, Both};
use crate::members::Form;
use crate::mp_lines::{put_family, put_ip6_next};
use crate::short::{Decimal, Short, put_line, put_one};
use crate::source::Source;
use bgp_attr::{AttrView, MpReachView, MpUnreachView, OpaqueView};
use bgp_paths::{PathRun, PathRuns};
use bgp_prefix::{Address, PrefixIter4};
use bgp_update::UpdateView;
use std::alloc::{AllocError, Global};

/// Lines of text, with these path identifiers beside the routes.
#[derive(Clone, Copy)]
pub(crate) struct PathLines<'a> {
    pub(crate) runs: PathRuns<'a>,
}

/// Adds a line of a route and its path identifier, after a label of ASCII.
fn put_beside_line<T: Short>(
    text: &mut String,
    label: &str,
    beside: Beside<T>,
) -> Result<(), AllocError>
    requires room { length label.now + (T.most + 3) ≤ 72 }
    requires ascii { list_all is_ascii label.now ≡ true }
    ensures { OnOk result (string_bytes text.new ≡ string_bytes text.old ++ beside_line label.now T.text beside) }
{
    match beside.path {
        None => put_line(text, label, beside.route),
        Some(path) => {
            text.push_str(label)?;
            put_one(text, beside.route)?;
            put_line(text, " path ", Decimal(path))
        }
    }
}

/// Adds a line of each route.
fn put_beside_lines<T: Short, S: Source<Item = Beside<T>>>(
    text: &mut String,
    label: &str,
    routes: S,
) -> Result<(), AllocError>
    requires room { length label.now + (T.most + 3) ≤ 72 }
    requires ascii { list_all is_ascii label.now ≡ true }
    ensures { OnOk result (string_bytes text.new ≡ string_bytes text.old ++ flat_map (beside_line label.now T.text) (S.left routes)) }
{
    let mut left = routes;
    'run: while let Some(beside) = left.step() {
        put_beside_line(text, label, beside)?;
    }
    Ok(())
}

/// Adds the lines of an MP_REACH_NLRI.
fn put_path_reach(
    text: &mut String,
    reach: MpReachView<'_>,
    run: PathRun<'_>,
) -> Result<(), AllocError>
    ensures { OnOk result (string_bytes text.new ≡ string_bytes text.old ++ path_reach_lines (numbers4 run.entry) (numbers6 run.entry) (reach_value reach.entry)) }
{
    match reach {
        MpReachView::Ip4 { next_hop, nlri } => {
            put_line(text, "  mp_reach ip4 next ", Address(next_hop))?;
            let numbers = run.of_ip4();
            let routes = BesideIter {
                routes: nlri,
                numbers,
            };
            put_beside_lines(text, "  mp_nlri ", routes)
        }
        MpReachView::Ip6 {
            next_hop,
            link_local,
            nlri,
        } => {
            put_ip6_next(text, next_hop, link_local)?;
            let numbers = run.of_ip6();
            let routes = BesideIter {
                routes: nlri,
                numbers,
            };
            put_beside_lines(text, "  mp_nlri ", routes)
        }
    }
}

/// Adds the lines of an MP_UNREACH_NLRI.
fn put_path_unreach(
    text: &mut String,
    unreach: MpUnreachView<'_>,
    run: PathRun<'_>,
) -> Result<(), AllocError>
    ensures { OnOk result (string_bytes text.new ≡ string_bytes text.old ++ path_unreach_lines (numbers4 run.entry) (numbers6 run.entry) (unreach_value unreach.entry)) }
{
    match unreach {
        MpUnreachView::Ip4(routes) => {
            put_family(text, "ip4")?;
            let numbers = run.of_ip4();
            put_beside_lines(text, "  mp_withdrawn ", BesideIter { routes, numbers })
        }
        MpUnreachView::Ip6(routes) => {
            put_family(text, "ip6")?;
            let numbers = run.of_ip6();
            put_beside_lines(text, "  mp_withdrawn ", BesideIter { routes, numbers })
        }
    }
}

impl<'a> Form for PathLines<'a> {
    ghost use Rattle.bgp_text.specs.PathLines.{in_path_lines};

    ghost shown = { λ form. in_path_lines (path_numbers form.runs) };

    fn put_withdrawn(&self, text: &mut String, routes: PrefixIter4<'_>) -> Result<(), AllocError> {
        let numbers = self.runs.withdrawn;
        put_beside_lines(text, "  withdrawn ", BesideIter { routes, numbers })
    }

    fn put_attribute(
        &self,
        alloc: Global,
        text: &mut String,
        attr: &AttrView<'_>,
    ) -> Result<(), AllocError> {
        match *attr {
            AttrView::MpReach(reach) => put_path_reach(text, reach, self.runs.reached),
            AttrView::MpUnreach(unreach) => put_path_unreach(text, unreach, self.runs.unreached),
            _ => put_attribute(alloc, text, attr),
        }
    }

    fn put_others(
        &self,
        alloc: Global,
        text: &mut String,
        others: &[OpaqueView<'_>],
    ) -> Result<(), AllocError> {
        put_others(alloc, text, others)
    }

    fn put_nlri(&self, text: &mut String, routes: PrefixIter4<'_>) -> Result<(), AllocError> {
        let numbers = self.runs.nlri;
        put_beside_lines(text, "  nlri ", BesideIter { routes, numbers })
    }
}

/// The path identifiers of a field of IPv4 routes, and of those of an attribute.
pub(crate) type FieldNumbers<'a> = Both<PathRun<'a>, PathRun<'a>>;

/// The path identifiers of all IPv4 routes.
pub(crate) fn ip4_numbers<'a>(runs: &PathRuns<'a>) -> Both<FieldNumbers<'a>, FieldNumbers<'a>>
    ensures { (numbers_left result.first.first ++ numbers_left result.first.second) ++ (numbers_left result.second.first ++ numbers_left result.second.second)
        ≡ numbers_ip4 (path_numbers runs.now) }
{
    Both {
        first: Both {
            first: runs.withdrawn,
            second: runs.unreached.of_ip4(),
        },
        second: Both {
            first: runs.reached.of_ip4(),
            second: runs.nlri,
        },
    }
}

/// Those of all IPv6 routes.
pub(crate) fn ip6_numbers<'a>(runs: &PathRuns<'a>) -> FieldNumbers<'a>
    ensures { numbers_left result.first ++ numbers_left result.second ≡ numbers_ip6 (path_numbers runs.now) }
{
    Both {
        first: runs.unreached.of_ip6(),
        second: runs.reached.of_ip6(),
    }
}

/// Adds a line for each withdrawn route. They are collected first: such an UPDATE is rare.
pub(crate) fn put_path_routes(
    alloc: Global,
    text: &mut String,
    view: &UpdateView<'_>,
    runs: &PathRuns<'_>,
) -> Result<(), AllocError>
    ensures { OnOk result (string_bytes text.new ≡ string_bytes text.old ++ path_routes_lines (path_numbers runs.now) (routes_value view.now)) }
{
    let all = view.routes(alloc)?;
    let numbers = ip4_numbers(runs);
    let routes = all.ip4.as_slice();
    put_beside_lines(text, "  route ", BesideIter { routes, numbers })?;
    let numbers = ip6_numbers(runs);
    let routes = all.ip6.as_slice();
    put_beside_lines(text, "  route ", BesideIter { routes, numbers })
}
