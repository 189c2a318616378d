// What the residuals of an answer say: their linearization, the sum of squares, the violation, and which variables
// move.
ghost use Rattle.std.specs.Prelude.{◌<◌, ◌≤◌, ◌*◌, ◌||◌, ◌≡◌, length};
ghost use Rattle.linear.specs.LinearResult.{result_of};
ghost use Rattle.run.specs.Limits.{CONSTRAINTS};
ghost use Rattle.run.specs.Area.{Memory, standing_counts, landed_counts, standing_at, landed_at, HasRoom};
ghost use Rattle.run.specs.Area.{numbers_in};
ghost use Rattle.run.specs.Residuals.{linearized_at, squared_of, transposed_at, sum_squared, violation_of};
ghost use Rattle.run.specs.Residuals.{predicted_of, depends_on, moving_of};
ghost use Rattle.run.specs.Rows.{rows_in, sum_of, value_at, constraints_of, evaluation_of};
ghost use Rattle.run.specs.Vectors.{fill_to, chosen_of};
ghost use Rattle.run.specs.program.Area.{Holds};
ghost use Rattle.run.specs.program.Rows.{Small, FewRows};

use crate::area;
use crate::rows::{
    RowCounts, RowSet, constraints, landed_counts, slope_of, slopes_of, standing_counts, sum,
    value_of,
};
use crate::state::State;
use crate::vectors::norm_of;
use interval::Scalar;
use linear::{LinearError, choose, in_column, in_row, plus_dot, put, row_dot};

// value + slopes delta, of row i, over the first d variables.
pub fn linearized_at(xs: &[f64], e: RowSet, delta: &[f64], d: usize, i: usize) -> Scalar
    requires { Small e × (i < 65536) }
    ensures { result ≡ linearized_at (rows_in xs.now e) delta.now d i }
{
    let slopes = slopes_of(xs, e);
    let total = row_dot(slopes, i * e.n, delta, 0, d);
    value_of(xs, e, i).add(total)
}

// |values + slopes delta|², over the first d variables: with d = 0, the sum of squares.
pub fn squared(xs: &[f64], e: RowSet, delta: &[f64], d: usize) -> Scalar
    requires { Small e }
    ensures { result ≡ squared_of (rows_in xs.now e) delta.now d }
{
    let count = e.count;
    let mut out = [0.0; 48];
    linearized(xs, e, delta, d, &mut out);
    row_dot(&out, 0, &out, 0, count)
}

// The slopes by variable j, each times its weight.
pub fn transposed_at(xs: &[f64], e: RowSet, w: &[f64], j: usize) -> Scalar
    requires { Small e × (j < 65536) }
    ensures { result ≡ transposed_at (rows_in xs.now e) w.now j }
{
    let slopes = slopes_of(xs, e);
    let p = in_column(j, e.n);
    plus_dot(slopes, p, w, in_row(0), Scalar::ZERO, e.count)
}

// f of a point, from its rows.
pub fn sum_squared(xs: &[f64], c: RowCounts) -> Scalar
    requires { FewRows c }
    ensures { result ≡ sum_squared (sum_of c xs.now) }
{
    squared(xs, sum(c), xs, 0)
}

// Writes all values, from the start of `out` on.
fn values(xs: &[f64], e: RowSet, out: &mut [f64])
    ensures { out.new ≡ fill_to out.old 0 (value_at (rows_in xs.now e)) e.count }
{
    let count = e.count;
    for i in 0..count {
        put(out, i, value_of(xs, e, i));
    }
}

// Writes all values, chosen, from the start of `out` on.
pub fn chosen_values(xs: &[f64], e: RowSet, out: &mut [f64])
    ensures { out.new ≡ chosen_of out.old xs.now e.values e.count }
{
    let count = e.count;
    for i in 0..count {
        put(out, i, choose(value_of(xs, e, i)));
    }
}

// Writes all slopes, row by row, chosen.
pub fn chosen_slopes(xs: &[f64], e: RowSet, out: &mut [f64])
    requires { Small e }
    ensures { out.new ≡ chosen_of out.old xs.now e.slopes (e.count * e.n) }
{
    let n = e.n;
    let count = e.count * n;
    for p in 0..count {
        put(out, p, choose(slope_of(xs, e, p / n, p % n)));
    }
}

// The violation of a point, from its rows.
pub fn violation(xs: &[f64], c: RowCounts) -> Result<Scalar, LinearError>
    requires { c.m ≤ CONSTRAINTS }
    ensures { result_of result ≡ violation_of (constraints_of c xs.now) }
{
    let mut out = [0.0; 24];
    values(xs, constraints(c), &mut out);
    norm_of(&out, c.m)
}

// Writes all rows linearized, from the start of `out` on.
fn linearized(xs: &[f64], e: RowSet, delta: &[f64], d: usize, out: &mut [f64])
    requires { Small e }
    ensures { out.new
        ≡ fill_to out.old 0 (linearized_at (rows_in xs.now e) delta.now d) e.count }
{
    let count = e.count;
    for i in 0..count {
        put(out, i, linearized_at(xs, e, delta, d, i));
    }
}

// The violation that a step leads to, to first order.
pub fn predicted(xs: &[f64], c: RowCounts, delta: &[f64]) -> Result<Scalar, LinearError>
    requires { FewRows c }
    ensures { result_of result ≡ predicted_of (constraints_of c xs.now) delta.now }
{
    let mut out = [0.0; 24];
    linearized(xs, constraints(c), delta, c.n, &mut out);
    norm_of(&out, c.m)
}

// Whether some slope by variable j is definitely not zero.
pub fn depends_on(xs: &[f64], e: RowSet, j: usize) -> bool
    requires { Small e × (j < 65536) }
    ensures { result ≡ depends_on (rows_in xs.now e) j }
{
    let count = e.count;
    for i in 0..count {
        if slope_of(xs, e, i, j).definitely_not_equal(Scalar::ZERO) {
            return true;
        }
    }
    false
}

// Whether some residual definitely depends on variable j.
fn moves(xs: &[f64], c: RowCounts, j: usize) -> bool
    requires { FewRows c × (j < 65536) }
    ensures { result
        ≡ depends_on (sum_of c xs.now) j || depends_on (constraints_of c xs.now) j }
{
    depends_on(xs, sum(c), j) || depends_on(xs, constraints(c), j)
}

// Marks of the variables that some residual definitely depends on.
pub fn moving(xs: &[f64], c: RowCounts) -> [bool; 12]
    requires { FewRows c }
    ensures { result ≡ moving_of c.n (evaluation_of c xs.now) }
{
    let n = c.n;
    let mut marks = [false; 12];
    for j in 0..n {
        marks[j] = moves(xs, c, j);
    }
    marks
}

// The violation of the standing point, from its rows in the area.
pub fn standing_violation(st: State, area: &[f64]) -> Result<Scalar, LinearError>
    requires { HasRoom st.sizes area.now × FewRows (standing_counts st) }
    ensures { (w : Memory) → Holds st.sizes w area.now →
        length w.standing_rows ≡ (numbers_in st).standing_rows →
        result_of result ≡ violation_of (standing_at st w).constraints }
{
    let c = standing_counts(st);
    violation(area::standing_rows(area, st.sizes, c), c)
}

// The violation of the landed point, from its rows in the area.
pub fn landed_violation(st: State, area: &[f64]) -> Result<Scalar, LinearError>
    requires { HasRoom st.sizes area.now × FewRows (landed_counts st) }
    ensures { (w : Memory) → Holds st.sizes w area.now →
        length w.landed_rows ≡ (numbers_in st).landed_rows →
        result_of result ≡ violation_of (landed_at st w).constraints }
{
    let c = landed_counts(st);
    violation(area::landed_rows(area, st.sizes, c), c)
}
