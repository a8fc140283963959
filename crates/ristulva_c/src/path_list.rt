//! The path identifiers of a message's routes (RFC 7911, section 3).

ghost use Rattle.std.specs.Prelude.{◌≡◌, ◌+◌, ◌≤◌, ◌++◌, length};
ghost use Rattle.bgp_frame.specs.Prelude.{IsFrame, IsLength};
ghost use Rattle.bgp_frame.specs.declared.kind.Kind.{Kind};
ghost use Rattle.bgp_paths.specs.Prelude.{numbers_left};
ghost use Rattle.ristulva_c.specs.Context.{context_of};
ghost use Rattle.ristulva_c.specs.Copied.{copied};
ghost use Rattle.ristulva_c.specs.Paths.{ArePathsBy, ListsBody, ListsUpdate, families_in, is_update};
ghost use Rattle.ristulva_c.specs.Prelude.{IsCursor, prefixes_left};
ghost use Rattle.ristulva_c.specs.Terms.{plain_terms_in};
ghost use Rattle.ristulva_c.specs.steps.Batch.{Adds};
ghost use Rattle.ristulva_c.specs.steps.Paths.{AreFound, all_counted, all_of, counted_numbers};

use crate::context::{SessionContext, context_of};
use crate::paths::{MESSAGE, families_in, is_update, put_update};
use crate::prefixes::{Prefixes, ristulva_count_prefixes};
use crate::route_list::cursor_in;
use crate::rows_left::{Rows, put_rows};
use crate::status::{INCOMPLETE, OK, RANGE, REFUSED, ROOM};
use crate::terms::{SessionTerms, plain_terms_in};
use bgp_frame::{Frame, Kind, Step};
use bgp_msg::view_frame;
use bgp_paths::{PathFamilies, PathRun, PathRuns, PlainBody, path_runs};
use bgp_update::UpdateView;
use bgp_wide::front_in;
use bgp_wire::{Page, are_octets};

/// The path identifiers of routes that are left, and the number of these routes.
#[derive(Clone, Copy)]
struct NumbersLeft<'a> {
    run: PathRun<'a>,
    left: usize,
}

impl<'a> Rows for NumbersLeft<'a> {
    ghost use Rattle.bgp_paths.specs.Prelude.{numbers_left};
    ghost use Rattle.ristulva_c.specs.steps.Paths.{counted_numbers};

    type Row = u32;

    ghost left = { λ rows. counted_numbers (numbers_left rows.run) rows.left };

    fn next_row(&mut self) -> Option<u32> {
        if self.left == 0 {
            return None;
        }
        self.left -= 1;
        Some(self.run.step())
    }
}

/// How many routes an UPDATE has, by the fields that they are in.
#[derive(Clone, Copy)]
pub(crate) struct RouteCounts {
    pub(crate) withdrawn: usize,
    pub(crate) unreached: usize,
    pub(crate) reached: usize,
    pub(crate) nlri: usize,
}

/// The number of prefixes at a cursor.
fn count_at(octets: &[u8], at: &Prefixes) -> usize
    requires { IsCursor octets.now at.now }
    ensures { result ≡ length (prefixes_left octets.now at.now) }
{
    let mut count = 0;
    ristulva_count_prefixes(octets, at, &mut count);
    count
}

/// How many routes an UPDATE has. None where it ends the session.
fn counts_of(ctx: &SessionContext, message: &[u8], body: &[u8]) -> Option<RouteCounts>
    requires frame { IsFrame (record { kind = Kind.Update; body = body.now }) message.now }
    requires short { length message.now ≤ 4096 }
    requires allowed { IsLength Kind.Update (19 + length body.now) }
    ensures { AreFound (context_of ctx.now) body.now result }
{
    are_octets(message);
    let frame = Frame {
        kind: Kind::Update,
        body,
        len: message.len() as u16,
    };
    let mut view = UpdateView::empty();
    if view_frame(&context_of(ctx), frame, &mut view).is_reset() {
        return None;
    }
    let cursor = cursor_in(&context_of(ctx), true, body);
    Some(RouteCounts {
        withdrawn: count_at(message, &cursor.withdrawn),
        unreached: count_at(message, &cursor.unreached),
        reached: count_at(message, &cursor.reached),
        nlri: count_at(message, &cursor.nlri),
    })
}

/// Writes the path identifiers of `left` routes from an index of a list on. Answers the index after them.
fn put_run(run: PathRun<'_>, left: usize, list: &mut [u32], from: usize) -> usize
    requires { from + left ≤ length list.old }
    ensures adds { Adds (counted_numbers (numbers_left run.entry) left) from result list.old list.new }
    ensures to { result ≡ from + left }
{
    put_rows(NumbersLeft { run, left }, list, from)
}

/// Writes the path identifiers of all routes.
fn put_all(runs: &PathRuns<'_>, counts: &RouteCounts, list: &mut [u32])
    requires { all_of counts.now ≤ length list.old }
    ensures { list.new ≡ copied (all_counted runs.now counts.now) list.old }
{
    let withdrawn = put_run(runs.withdrawn, counts.withdrawn, list, 0);
    let unreached = put_run(runs.unreached, counts.unreached, list, withdrawn);
    let reached = put_run(runs.reached, counts.reached, list, unreached);
    put_run(runs.nlri, counts.nlri, list, reached);
}

/// Writes the path identifiers of an UPDATE's routes, where there is room for all.
fn list_update(
    ctx: &SessionContext,
    families: PathFamilies,
    body: &[u8],
    list: &mut [u32],
    written: &mut usize,
) -> u32
    requires { IsLength Kind.Update (19 + length body.now) }
    ensures { ListsUpdate (context_of ctx.now) families body.now (record { status = result; before = list.old; behind = list.new; len_before = written.old; len_behind = written.new }) }
{
    are_octets(body);
    let mut plain = PlainBody::new();
    plain.fill(families, body);
    let mut message = Page::<MESSAGE>::new();
    put_update(plain.as_slice(), &mut message);
    let Some(counts) = counts_of(ctx, message.as_slice(), plain.as_slice()) else {
        return REFUSED;
    };
    let runs = path_runs(families, body);
    let count = counts.withdrawn + counts.unreached + counts.reached + counts.nlri;
    *written = count;
    if count > list.len() {
        return ROOM;
    }
    put_all(&runs, &counts, list);
    OK
}

/// Writes the path identifiers of the routes of the message that octets begin with to the beginning of a list, by terms. Octets after it are ignored.
#[unsafe(no_mangle)]
pub extern "C" fn ristulva_paths(
    terms: &SessionTerms,
    octets: &[u8],
    list: &mut [u32],
    written: &mut usize,
) -> u32
    ensures { ArePathsBy (plain_terms_in terms.now) (families_in terms.now) octets.now
        (record { status = result; before = list.old; behind = list.new; len_before = written.old; len_behind = written.new }) }
{
    let Some(agreed) = plain_terms_in(terms) else {
        return RANGE;
    };
    match front_in(&agreed, octets) {
        Step::More => INCOMPLETE,
        Step::Frame(frame) => {
            if is_update(frame.kind) {
                return list_update(
                    &terms.context,
                    families_in(terms),
                    frame.body,
                    list,
                    written,
                );
            }
            *written = 0;
            OK
        }
        Step::Fault(_) => REFUSED,
    }
}
