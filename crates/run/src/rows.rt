// One answer's rows: where the values and the slopes of the constraints and of the sum stand, and a view that reads
// them.
ghost use Rattle.std.specs.Prelude.{◌≤◌, ◌+◌, ◌*◌, ◌<◌, List, ◌≡◌, Float, drop};
ghost use Rattle.linear.specs.Flat.{at};
ghost use Rattle.run.specs.Limits.{VARIABLES};
ghost use Rattle.run.specs.Area.{standing_counts, landed_counts};
ghost use Rattle.run.specs.Rows.{row_counts, constraint_set, sum_set, rows_in, first_rows, value_at, slope_at};
ghost use Rattle.run.specs.program.Rows.{Small, FewRows};

use crate::state::{Sizes, State};
use interval::Scalar;
use linear::along;

// How many variables, constraint rows and sum rows one answer has.
#[derive(Clone, Copy)]
pub struct RowCounts {
    pub n: usize,
    pub m: usize,
    pub s: usize,
}

// The counts of an answer with m constraint rows in a run of these sizes.
pub fn row_counts(z: Sizes, m: usize) -> RowCounts
    ensures { result ≡ row_counts z m }
{
    RowCounts { n: z.n, m, s: z.s }
}

// The counts of the standing answer in this state.
pub fn standing_counts(st: State) -> RowCounts
    ensures { result ≡ standing_counts st }
{
    row_counts(st.sizes, st.contents.standing_m)
}

// The counts of the landed answer.
pub fn landed_counts(st: State) -> RowCounts
    ensures { result ≡ landed_counts st }
{
    row_counts(st.sizes, st.contents.landed_m)
}

// Rows of one kind: `count` values from the place `values` on, and n slopes for each from the place `slopes` on.
#[derive(Clone, Copy)]
pub struct RowSet {
    pub n: usize,
    pub count: usize,
    pub values: usize,
    pub slopes: usize,
}

// The constraints' rows, which come first.
pub fn constraints(c: RowCounts) -> RowSet
    ensures { result ≡ constraint_set c }
{
    RowSet {
        n: c.n,
        count: c.m,
        values: 0,
        slopes: c.m,
    }
}

// The sum's rows, behind the constraints'.
pub fn sum(c: RowCounts) -> RowSet
    requires { FewRows c }
    ensures { result ≡ sum_set c }
{
    let values = c.m * (c.n + 1);
    RowSet {
        n: c.n,
        count: c.s,
        values,
        slopes: values + c.s,
    }
}

// The first k of the rows, or all where there are fewer.
pub fn first_rows(e: RowSet, k: usize) -> RowSet
    ensures { (xs : List Float) → rows_in xs result ≡ first_rows k (rows_in xs e) }
{
    if k < e.count {
        return RowSet { count: k, ..e };
    }
    e
}

// Rows of one kind in the slice that a caller lent.
#[derive(Clone, Copy)]
pub struct RowView<'a> {
    pub rows: &'a [f64],
    pub set: RowSet,
}

// ---- the work

// Value i of those from the place `values` on.
fn value_at(rows: &[f64], values: usize, i: usize) -> Scalar
    ensures { result ≡ at rows.now (values + i) }
{
    along(rows, values, 1, i)
}

// Slope j of row i, of rows of n from the place `slopes` on.
fn slope_at(rows: &[f64], slopes: usize, n: usize, i: usize, j: usize) -> Scalar
    requires { (slopes < 1000) × ((n ≤ VARIABLES) × (i < 65536)) }
    ensures { result ≡ at rows.now (slopes + i * n + j) }
{
    along(rows, slopes + i * n, 1, j)
}

// What stands from the place `slopes` on.
fn slopes_from<'a>(rows: &'a [f64], slopes: usize) -> &'a [f64]
    ensures { result.now ≡ drop (2 * slopes) rows.now }
{
    if slopes <= rows.len() / 2 {
        return &rows[2 * slopes..];
    }
    &rows[rows.len()..]
}

// ---- the view, taken apart

impl<'a> RowView<'a> {
    fn value(self, i: usize) -> Scalar
        ensures { result ≡ value_at (rows_in self.entry.rows.now self.entry.set) i }
    {
        value_at(self.rows, self.set.values, i)
    }

    fn slope(self, i: usize, j: usize) -> Scalar
        requires { Small self.set × (i < 65536) }
        ensures { result ≡ slope_at (rows_in self.entry.rows.now self.entry.set) i j }
    {
        slope_at(self.rows, self.set.slopes, self.set.n, i, j)
    }

    fn slopes(self) -> &'a [f64]
        ensures { result.now ≡ drop (2 * self.entry.set.slopes) self.entry.rows.now }
    {
        slopes_from(self.rows, self.set.slopes)
    }
}

// ---- with plain parameters

// The value of row i.
pub fn value_of(xs: &[f64], e: RowSet, i: usize) -> Scalar
    ensures { result ≡ value_at (rows_in xs.now e) i }
{
    RowView { rows: xs, set: e }.value(i)
}

// The slope of row i by variable j.
pub fn slope_of(xs: &[f64], e: RowSet, i: usize, j: usize) -> Scalar
    requires { Small e × (i < 65536) }
    ensures { result ≡ slope_at (rows_in xs.now e) i j }
{
    RowView { rows: xs, set: e }.slope(i, j)
}

// The slopes and what stands behind them, for sums over many: row i from i n on, those by variable j from j on by steps
// of n.
pub fn slopes_of(xs: &[f64], e: RowSet) -> &[f64]
    ensures { result.now ≡ drop (2 * e.slopes) xs.now }
{
    RowView { rows: xs, set: e }.slopes()
}
