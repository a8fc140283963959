//! The routes of messages in rows.

ghost use Rattle.std.specs.Prelude.{◌≡◌, ◌+◌, ◌≤◌, length, option_map};
ghost use Rattle.bgp_prefix.specs.Prelude.{prefixes_left};
ghost use Rattle.bgp_attr.specs.Prelude.{reach_value, unreach_value};
ghost use Rattle.bgp_update.specs.Prelude.{parts_of, update_value};
ghost use Rattle.bgp_msg.specs.Prelude.{outcome_value};
ghost use Rattle.ristulva_c.specs.Batch.{IsBatch};
ghost use Rattle.ristulva_c.specs.Context.{context_of};
ghost use Rattle.ristulva_c.specs.Facts.{paths_told};
ghost use Rattle.ristulva_c.specs.RouteRows.{GivesRoutes, place_of, withdrawn_row, announced_row};
ghost use Rattle.ristulva_c.specs.steps.Batch.{Adds};
ghost use Rattle.ristulva_c.specs.steps.RouteRows.{AreWithin, no_prefix, prefix_rows, reached_rows, unreached_rows, update_rows};

use crate::batch::{Batch, take_all};
use crate::context::SessionContext;
use crate::facts::{Paths, paths_told};
use crate::judge::{UPDATE, WITHDRAW};
use crate::prefixes::{RoutePrefix, prefix_row};
use crate::rows_left::{Rows, put_rows};
use crate::span::Span;
use bgp_attr::{MpReachView, MpUnreachView};
use bgp_msg::OutcomeView;
use bgp_numbers::afi;
use bgp_prefix::PrefixIter;
use bgp_update::UpdateView;
use bgp_wire::are_octets;

/// A span in a message: empty, at 0, where there is none.
#[repr(C)]
#[derive(Clone, Copy)]
pub struct Place {
    /// Their offset from the first octet of the message.
    pub at: u16,
    /// Their number.
    pub len: u16,
}

/// A route of a message.
#[repr(C)]
#[derive(Clone, Copy)]
pub struct RouteRow {
    /// The offset of its message in the octets given.
    pub message: u64,
    /// Its origin AS, where there is one.
    pub origin_as: u32,
    /// The value of AS_PATH.
    pub as_path: Place,
    /// The value of AS4_PATH.
    pub as4_path: Place,
    /// The value of COMMUNITIES.
    pub communities: Place,
    /// The value of LARGE_COMMUNITY.
    pub large_communities: Place,
    /// Its destinations.
    pub prefix: RoutePrefix,
    /// Whether it is announced: 1, or 0 where it is withdrawn.
    pub announced: u8,
    /// The verdict on its message: `UPDATE` or `WITHDRAW`.
    pub verdict: u8,
    /// Whether there is an origin AS: 1, or 0 for no.
    pub has_origin_as: u8,
    /// Unused: zeros.
    pub reserved: [u8; 5],
}

/// An empty span.
const NOWHERE: Place = Place { at: 0, len: 0 };

/// A span in a message.
fn place_of(span: Span) -> Place
    requires { span.at + span.len ≤ 4096 }
    ensures { result ≡ place_of span }
{
    Place {
        at: span.at as u16,
        len: span.len as u16,
    }
}

/// The row of a route that is withdrawn, but for its prefix.
fn withdrawn_row(message: u64, verdict: u8) -> RouteRow
    ensures { result ≡ withdrawn_row message verdict no_prefix }
{
    RouteRow {
        message,
        origin_as: 0,
        as_path: NOWHERE,
        as4_path: NOWHERE,
        communities: NOWHERE,
        large_communities: NOWHERE,
        prefix: RoutePrefix {
            afi: 0,
            len: 0,
            addr: [0; 16],
        },
        announced: 0,
        verdict,
        has_origin_as: 0,
        reserved: [0; 5],
    }
}

/// The row of a route that is announced with these paths, but for its prefix.
fn announced_row(message: u64, verdict: u8, paths: &Paths) -> RouteRow
    requires { AreWithin paths.now }
    ensures { result ≡ announced_row message verdict paths.now no_prefix }
{
    RouteRow {
        origin_as: paths.origin_as,
        as_path: place_of(paths.as_path),
        as4_path: place_of(paths.as4_path),
        communities: place_of(paths.communities),
        large_communities: place_of(paths.large_communities),
        announced: 1,
        has_origin_as: paths.has_origin_as,
        ..withdrawn_row(message, verdict)
    }
}

/// The remaining prefixes of a field, and a row with all but the prefix.
#[derive(Clone, Copy)]
struct PrefixesLeft<'a, const W: usize> {
    afi: u16,
    prefixes: PrefixIter<'a, W>,
    row: RouteRow,
    ghost short: { W ≤ 16 },
}

impl<'a, const W: usize> Rows for PrefixesLeft<'a, W> {
    ghost use Rattle.std.specs.Prelude.{map};
    ghost use Rattle.bgp_prefix.specs.Prelude.{prefixes_left};
    ghost use Rattle.ristulva_c.specs.steps.RouteRows.{with_prefix};

    type Row = RouteRow;

    ghost left = { λ rows. map (with_prefix rows.row rows.afi) (prefixes_left rows.prefixes) };

    #[tactic(auto, using(crate::proofs::Rows::told_first, crate::proofs::Rows::told_none))]
    fn next_row(&mut self) -> Option<RouteRow> {
        let prefix = self.prefixes.next()?;
        Some(RouteRow {
            prefix: prefix_row(self.afi, &prefix),
            ..self.row
        })
    }
}

/// Writes rows of prefixes from an index of a list on. Answers the index after them.
fn put_prefixes<const W: usize>(
    afi: u16,
    prefixes: PrefixIter<'_, W>,
    row: &RouteRow,
    list: &mut [RouteRow],
    from: usize,
) -> usize
    requires width { W ≤ 16 }
    requires room { from + length (prefix_rows row.now afi (prefixes_left prefixes)) ≤ length list.old }
    ensures adds { Adds (prefix_rows row.now afi (prefixes_left prefixes.entry)) from result list.old list.new }
    ensures to { result ≡ from + length (prefix_rows row.now afi (prefixes_left prefixes.entry)) }
{
    let left = PrefixesLeft {
        afi,
        prefixes,
        row: *row,
    };
    put_rows(left, list, from)
}

/// Writes the rows of MP_REACH_NLRI.
fn put_reached(
    reach: Option<MpReachView<'_>>,
    row: &RouteRow,
    list: &mut [RouteRow],
    from: usize,
) -> usize
    requires { from + length (reached_rows row.now (option_map reach_value reach)) ≤ length list.old }
    ensures adds { Adds (reached_rows row.now (option_map reach_value reach.entry)) from result list.old list.new }
    ensures to { result ≡ from + length (reached_rows row.now (option_map reach_value reach.entry)) }
{
    match reach {
        None => from,
        Some(MpReachView::Ip4 { nlri, .. }) => put_prefixes(afi::IPV4, nlri, row, list, from),
        Some(MpReachView::Ip6 { nlri, .. }) => put_prefixes(afi::IPV6, nlri, row, list, from),
    }
}

/// Writes the rows of MP_UNREACH_NLRI.
fn put_unreached(
    unreach: Option<MpUnreachView<'_>>,
    row: &RouteRow,
    list: &mut [RouteRow],
    from: usize,
) -> usize
    requires { from + length (unreached_rows row.now (option_map unreach_value unreach)) ≤ length list.old }
    ensures adds { Adds (unreached_rows row.now (option_map unreach_value unreach.entry)) from result list.old list.new }
    ensures to { result ≡ from + length (unreached_rows row.now (option_map unreach_value unreach.entry)) }
{
    match unreach {
        None => from,
        Some(MpUnreachView::Ip4(routes)) => put_prefixes(afi::IPV4, routes, row, list, from),
        Some(MpUnreachView::Ip6(routes)) => put_prefixes(afi::IPV6, routes, row, list, from),
    }
}

/// Writes the rows of all routes of an UPDATE: those that it withdraws, and the others.
fn put_routes(
    update: &UpdateView<'_>,
    away: &RouteRow,
    come: &RouteRow,
    list: &mut [RouteRow],
    from: usize,
) -> usize
    requires { from + length (update_rows away.now come.now (update_value update.now)) ≤ length list.old }
    ensures { Adds (update_rows away.now come.now (update_value update.now)) from result list.old list.new }
{
    let withdrawn = put_prefixes(afi::IPV4, update.withdrawn(), away, list, from);
    let unreached = put_unreached(update.unreach(), away, list, withdrawn);
    let reached = put_reached(update.reach(), come, list, unreached);
    put_prefixes(afi::IPV4, update.nlri(), come, list, reached)
}

/// The number of routes of MP_REACH_NLRI.
fn count_reached(reach: Option<MpReachView<'_>>) -> usize
    ensures { (row : RouteRow) → result ≡ length (reached_rows row (option_map reach_value reach.entry)) }
{
    match reach {
        None => 0,
        Some(MpReachView::Ip4 { nlri, .. }) => nlri.left(),
        Some(MpReachView::Ip6 { nlri, .. }) => nlri.left(),
    }
}

/// The number of routes of MP_UNREACH_NLRI.
fn count_unreached(unreach: Option<MpUnreachView<'_>>) -> usize
    ensures { (row : RouteRow) → result ≡ length (unreached_rows row (option_map unreach_value unreach.entry)) }
{
    match unreach {
        None => 0,
        Some(MpUnreachView::Ip4(routes)) => routes.left(),
        Some(MpUnreachView::Ip6(routes)) => routes.left(),
    }
}

/// The number of routes of an UPDATE.
fn count_routes(update: &UpdateView<'_>) -> usize
    requires { (away come : RouteRow) → length (update_rows away come (update_value update.now)) ≤ 4073 }
    ensures { (away come : RouteRow) → result ≡ length (update_rows away come (update_value update.now)) }
{
    update.withdrawn().left()
        + count_unreached(update.unreach())
        + count_reached(update.reach())
        + update.nlri().left()
}

/// The routes of messages.
pub(crate) struct Routes;

impl Batch for Routes {
    ghost use Rattle.ristulva_c.specs.RouteRows.{GivesRoutes};
    ghost use Rattle.ristulva_c.specs.steps.RouteRows.{rows_seen};

    type Row = RouteRow;

    ghost gives = { GivesRoutes };

    ghost rows = { rows_seen };

    fn fit(body: &[u8], outcome: &OutcomeView<'_>, room: usize) -> bool {
        are_octets(body);
        if body.len() <= room {
            return true;
        }
        match outcome {
            OutcomeView::Update(update) | OutcomeView::Withdraw(update) => {
                count_routes(update) <= room
            }
            _ => true,
        }
    }

    fn put(
        at: u64,
        body: &[u8],
        outcome: &OutcomeView<'_>,
        list: &mut [RouteRow],
        from: usize,
    ) -> usize {
        match outcome {
            OutcomeView::Update(update) => {
                let away = withdrawn_row(at, UPDATE);
                let come = announced_row(at, UPDATE, &paths_told(body, update));
                put_routes(update, &away, &come, list, from)
            }
            OutcomeView::Withdraw(update) => {
                let away = withdrawn_row(at, WITHDRAW);
                put_routes(update, &away, &away, list, from)
            }
            _ => from,
        }
    }
}

/// Writes the routes of messages in sequence to rows of a list, for as many whole messages as fit.
#[unsafe(no_mangle)]
pub extern "C" fn ristulva_routes(
    ctx: &SessionContext,
    octets: &[u8],
    list: &mut [RouteRow],
    written: &mut usize,
    taken: &mut usize,
) -> u32
    ensures { IsBatch GivesRoutes (context_of ctx.now) octets.now (record { status = result; before = list.old; behind = list.new; written_before = written.old; written_behind = written.new; taken_before = taken.old; taken_behind = taken.new }) }
{
    take_all::<Routes>(ctx, octets, list, written, taken)
}
