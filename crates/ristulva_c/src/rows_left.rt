//! Rows in the caller's list, in sequence.

ghost use Rattle.std.specs.Prelude.{◌≡◌, ◌+◌, ◌≤◌, length};
ghost use Rattle.ristulva_c.specs.steps.Batch.{Adds};

/// Remaining rows.
pub(crate) trait Rows {
    ghost use Rattle.std.specs.Prelude.{◌≡◌, List, [], ◌∷◌, MatchOption};

    /// A row of the list.
    type Row: Copy;

    /// All remaining rows.
    ghost left: { Self → List Self.Row };

    /// The first of them.
    fn next_row(&mut self) -> Option<Self::Row>
        ensures { MatchOption result (left self.old ≡ []) (λ row. left self.old ≡ row ∷ left self.new) };
}

/// The number of remaining rows.
pub(crate) fn count_rows<R: Rows + Copy>(rows: R) -> usize
    requires { length (R.left rows) ≤ 4073 }
    ensures { result ≡ length (R.left rows) }
{
    let mut count = 0;
    let mut left = rows;
    'rows: while left.next_row().is_some() {
        count += 1;
    }
    count
}

/// Writes rows from an index of a list on. Answers the index after them.
pub(crate) fn put_rows<R: Rows + Copy>(rows: R, list: &mut [R::Row], from: usize) -> usize
    requires { from + length (R.left rows) ≤ length list.old }
    ensures adds { Adds (R.left rows) from result list.old list.new }
    ensures to { result ≡ from + length (R.left rows) }
{
    let mut to = from;
    let mut left = rows;
    'rows: while let Some(row) = left.next_row() {
        list[to] = row;
        to += 1;
    }
    to
}
