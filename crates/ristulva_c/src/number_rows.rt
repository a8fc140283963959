//! The AS numbers of paths in rows.

ghost use Rattle.std.specs.Prelude.{◌≡◌, ◌+◌, ◌≤◌, length};
ghost use Rattle.bgp_update.specs.Prelude.{joined_value};
ghost use Rattle.ristulva_c.specs.Batch.{IsBatch};
ghost use Rattle.ristulva_c.specs.Context.{context_of};
ghost use Rattle.ristulva_c.specs.NumberRows.{set_flag, number_row, segment_rows, path_rows, GivesNumbers};
ghost use Rattle.ristulva_c.specs.steps.Batch.{Adds};
ghost use Rattle.ristulva_c.specs.steps.NumberRows.{numbers_in};

use crate::batch::{Batch, take_all};
use crate::context::SessionContext;
use crate::rows_left::{Rows, put_rows};
use bgp_attr::{AsNumberIter, SegKind};
use bgp_msg::OutcomeView;
use bgp_update::JoinedPathView;
use bgp_wire::are_octets;

/// An AS number of a path.
#[repr(C)]
#[derive(Clone, Copy)]
pub struct NumberRow {
    /// The offset of its message in the octets given.
    pub message: u64,
    /// The AS number.
    pub number: u32,
    /// The index of its segment in the path: 0 for the first.
    pub segment: u16,
    /// Whether the segment is an AS_SET: 1, or 0 for an AS_SEQUENCE.
    pub set: u8,
    /// Unused: 0.
    pub reserved: u8,
}

/// Whether a segment is a set: 1, or 0 for no.
fn set_flag(kind: SegKind) -> u8
    ensures { result ≡ set_flag kind }
{
    match kind {
        SegKind::Set => 1,
        SegKind::Seq => 0,
    }
}

/// The remaining numbers of a segment, and a row with all but the number.
#[derive(Clone, Copy)]
struct NumbersLeft<'a> {
    numbers: AsNumberIter<'a>,
    row: NumberRow,
}

impl<'a> Rows for NumbersLeft<'a> {
    ghost use Rattle.std.specs.Prelude.{map};
    ghost use Rattle.bgp_attr.specs.Prelude.{as_numbers_left};
    ghost use Rattle.ristulva_c.specs.steps.NumberRows.{with_number};

    type Row = NumberRow;

    ghost left = { λ rows. map (with_number rows.row) (as_numbers_left rows.numbers) };

    #[tactic(auto, using(crate::proofs::Rows::told_first, crate::proofs::Rows::told_none))]
    fn next_row(&mut self) -> Option<NumberRow> {
        let number = self.numbers.next()?;
        Some(NumberRow {
            number: number.0,
            ..self.row
        })
    }
}

/// Writes the numbers of a path.
fn put_path(message: u64, path: &JoinedPathView<'_>, list: &mut [NumberRow], from: usize) -> usize
    requires room { from + length (segment_rows message 0 (joined_value path.now).segments) ≤ length list.old }
    requires few { length (joined_value path.now).segments ≤ 4073 }
    ensures { Adds (segment_rows message 0 (joined_value path.now).segments) from result list.old list.new }
{
    let mut to = from;
    let mut segment: u16 = 0;
    let mut left = path.segments();
    'path: while let Some(found) = left.next() {
        let row = NumberRow {
            message,
            number: 0,
            segment,
            set: set_flag(found.kind),
            reserved: 0,
        };
        let numbers = NumbersLeft {
            numbers: found.numbers,
            row,
        };
        to = put_rows(numbers, list, to);
        segment += 1;
    }
    to
}

/// The count of a path's numbers.
fn count_path(path: &JoinedPathView<'_>) -> usize
    requires { numbers_in (joined_value path.now).segments ≤ 4073 }
    ensures { result ≡ numbers_in (joined_value path.now).segments }
{
    let mut count = 0;
    let mut left = path.segments();
    'path: while let Some(found) = left.next() {
        count += found.numbers.left();
    }
    count
}

/// The numbers of paths.
pub(crate) struct PathNumbers;

impl Batch for PathNumbers {
    ghost use Rattle.ristulva_c.specs.NumberRows.{GivesNumbers, number_rows};
    ghost use Rattle.ristulva_c.specs.Facts.{attrs_in};
    ghost use Rattle.bgp_msg.specs.OutcomeView.{outcome_value};

    type Row = NumberRow;

    ghost gives = { GivesNumbers };

    ghost rows = { λ at parts v. number_rows at (attrs_in (outcome_value v)) };

    fn fit(body: &[u8], outcome: &OutcomeView<'_>, room: usize) -> bool {
        are_octets(body);
        if body.len() <= room {
            return true;
        }
        match outcome {
            OutcomeView::Update(update) => match &update.path_info().path {
                None => true,
                Some(path) => count_path(path) <= room,
            },
            _ => true,
        }
    }

    fn put(
        at: u64,
        body: &[u8],
        outcome: &OutcomeView<'_>,
        list: &mut [NumberRow],
        from: usize,
    ) -> usize {
        are_octets(body);
        match outcome {
            OutcomeView::Update(update) => match &update.path_info().path {
                None => from,
                Some(path) => put_path(at, path, list, from),
            },
            _ => from,
        }
    }
}

/// Writes the numbers of the paths that AS_PATH and AS4_PATH give together, of messages in sequence, to rows of a list,
/// for as many whole messages as fit.
#[unsafe(no_mangle)]
pub extern "C" fn ristulva_path_numbers(
    ctx: &SessionContext,
    octets: &[u8],
    list: &mut [NumberRow],
    written: &mut usize,
    taken: &mut usize,
) -> u32
    ensures { IsBatch GivesNumbers (context_of ctx.now) octets.now (record { status = result; before = list.old; behind = list.new; written_before = written.old; written_behind = written.new; taken_before = taken.old; taken_behind = taken.new }) }
{
    take_all::<PathNumbers>(ctx, octets, list, written, taken)
}
