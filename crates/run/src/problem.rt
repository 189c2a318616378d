// The problem that a step solves: the slopes by the variables that move, J_rᵀ J_r + B, the scaling D and the gradient.
// Whatever no damping changes is worked out once for all dampings of a search; a damping then only adds mu D to the
// diagonal.
ghost use Rattle.std.specs.Prelude.{◌<◌, ◌≤◌, ◌+◌, ◌*◌, ℕ, true, ◌≡◌, length, replicate, get_or};
ghost use Rattle.linear.specs.Flat.{at, zeros};
ghost use Rattle.run.specs.Limits.{VARIABLES};
ghost use Rattle.run.specs.Problem.{keep_next, kept_to, scaling_at, squeezed_of, problem_of};
ghost use Rattle.run.specs.Rows.{rows_in, slope_at, constraints_of, evaluation_of, value_at};
ghost use Rattle.run.specs.Vectors.{fill_to, fill_rows, matrix, chosen_of};
ghost use Rattle.run.specs.program.Problem.{kept_by, KeptFits, chosen_if, squeezed_as, undamped_at, undamped_between};
ghost use Rattle.run.specs.program.Problem.{damped_entry, damped_from, gradient_at, problem_in, gradient_in};
ghost use Rattle.run.specs.program.Rows.{Small, FewRows};

use crate::residuals::{chosen_values, transposed_at};
use crate::rows::{RowCounts, RowSet, constraints, slope_of, sum};
use crate::vectors::chosen;
use interval::Scalar;
use linear::{along, at, choose, in_column, plus_dot, put};

// The first scalar of D and of the gradient, behind J_rᵀ J_r + B, in the slice of what is undamped.
const FIRST_SCALING: usize = 144;

const FIRST_GRADIENT: usize = 156;

// ---- the variables that move

// Keeps variable i where it moves, behind the `count` that are kept already. Returns how many are kept then.
fn keep_next(moves: bool, index: &mut [usize], count: usize, i: usize) -> usize
    requires { (count < length index.old) × (count < 12) }
    ensures { kept_by result index.new ≡ keep_next moves (kept_by count index.old) i }
{
    if moves {
        index[count] = i;
        return count + 1;
    }
    count
}

// The variables that move, in order, into a clear slice. Returns how many. One that no residual depends on has no slope
// and no scaling, so no damping would make H positive along it: it is left out.
pub fn keep(moving: &[bool], n: usize, index: &mut [usize]) -> usize
    requires { (n ≤ VARIABLES) × (length moving.now ≡ 12) × (index.old ≡ replicate 12 0) }
    ensures { kept_by result index.new ≡ kept_to moving.now n }
{
    let mut count = 0;
    for i in 0..n {
        count = keep_next(moving[i], index, count, i);
    }
    count
}

// ---- slopes

// The slope of row i by variable j, chosen where that is asked for.
fn kept_slope(xs: &[f64], e: RowSet, i: usize, j: usize, is_chosen: bool) -> Scalar
    requires { Small e × (i < 65536) }
    ensures { result ≡ chosen_if is_chosen (slope_at (rows_in xs.now e) i j) }
{
    let v = slope_of(xs, e, i, j);
    if is_chosen {
        return choose(v);
    }
    v
}

// The kept slopes of row i, from t0 on in `to`.
fn squeeze_row(
    xs: &[f64],
    e: RowSet,
    i: usize,
    index: &[usize],
    k: usize,
    is_chosen: bool,
    to: &mut [f64],
    t0: usize,
)
    requires { Small e × (i < 65536) × (k ≤ VARIABLES) × (length index.now ≡ 12) × (t0 < 65536) }
    ensures { to.new ≡ fill_to to.old t0 (λ p. chosen_if is_chosen
        (slope_at (rows_in xs.now e) i (get_or index.now p 0))) k }
{
    for p in 0..k {
        put(to, t0 + p, kept_slope(xs, e, i, index[p], is_chosen));
    }
}

// The slopes by the kept variables, chosen as they are read where only the choices are used.
pub fn squeeze(xs: &[f64], e: RowSet, index: &[usize], k: usize, is_chosen: bool, to: &mut [f64])
    requires { Small e × (k ≤ VARIABLES) × (length index.now ≡ 12) }
    ensures { to.new ≡ squeezed_as is_chosen (kept_by k index.now)
        (rows_in xs.now e) to.old }
{
    let count = e.count;
    for i in 0..count {
        squeeze_row(xs, e, i, index, k, is_chosen, to, 12 * i);
    }
}

// ---- the curvature

// D's entry for the i-th kept variable: the squares of its slopes in all rows, so that a damping means the same
// whatever unit a variable has.
fn scaling(jr: &[f64], s: usize, jc: &[f64], m: usize, i: usize) -> Scalar
    ensures { result ≡ scaling_at jr.now s jc.now m i }
{
    let p = in_column(i, 12);
    let d = plus_dot(jr, p, jr, p, Scalar::ZERO, s);
    plus_dot(jc, p, jc, p, d, m)
}

// D over the kept variables, at its place.
fn scalings(k: usize, jr: &[f64], s: usize, jc: &[f64], m: usize, undamped: &mut [f64])
    requires { k ≤ VARIABLES }
    ensures { undamped.new
        ≡ fill_to undamped.old 144 (scaling_at jr.now s jc.now m) k }
{
    for i in 0..k {
        put(undamped, FIRST_SCALING + i, scaling(jr, s, jc, m, i));
    }
}

// An entry of J_rᵀ J_r + B, from B's entry b. Off the diagonal it is chosen at once; on the diagonal mu D is still to
// be added.
fn undamped_at(jr: &[f64], s: usize, b: Scalar, i: usize, j: usize) -> Scalar
    ensures { result ≡ undamped_at jr.now s b i j }
{
    let v = plus_dot(jr, in_column(i, 12), jr, in_column(j, 12), b, s);
    if i == j {
        return v;
    }
    choose(v)
}

// Whether two numbers have the same bits. A NaN equals nothing, so its bits, which no rule fixes, are never asked.
fn is_same(x: f64, y: f64) -> bool
    ensures { result ≡ true → x ≡ y }
{
    x == y && x.to_bits() == y.to_bits()
}

// Whether two scalars have the same bits at both ends.
fn are_same(x: Scalar, y: Scalar) -> bool
    ensures { result ≡ true → x ≡ y }
{
    is_same(x.lo, y.lo) && is_same(x.hi, y.hi)
}

// Whether (i, j) is below the diagonal, and B's entries b there and `across` it are the same.
fn is_mirrored(b: Scalar, across: Scalar, i: usize, j: usize) -> bool
    ensures { result ≡ true → (j < i) × (b ≡ across) }
{
    j < i && are_same(b, across)
}

// Entry (i, j) of J_rᵀ J_r + B, from B's entry b: the entry across the diagonal, which h has, where B's entry there is
// the same, since products commute.
fn undamped_from(
    jr: &[f64],
    s: usize,
    b: Scalar,
    across: Scalar,
    h: &[f64],
    i: usize,
    j: usize,
) -> Scalar
    requires { (i < 12) × (j < 12) × (j < i → at h.now (12 * j + i) ≡ undamped_at jr.now s across j i) }
    ensures { result ≡ undamped_at jr.now s b i j }
{
    if is_mirrored(b, across, i, j) {
        return at(h, 12 * j + i);
    }
    undamped_at(jr, s, b, i, j)
}

// Row i of J_rᵀ J_r + B, where h has the rows before it.
fn undamped_row(
    n: usize,
    index: &[usize],
    k: usize,
    jr: &[f64],
    s: usize,
    b: &[f64],
    h: &mut [f64],
    i: usize,
)
    requires { (k ≤ VARIABLES) × (length index.now ≡ 12) × (i < k) ×
        ((t j : ℕ) → t < i → j < k →
        at h.old (12 * t + j) ≡ undamped_between n index.now jr.now s b.now t j) }
    ensures { h.new
        ≡ fill_to h.old (12 * i)
        (undamped_between n index.now jr.now s b.now i) k }
{
    let row = index[i];
    for j in 0..k {
        let column = index[j];
        let start = along(b, column, n, row);
        let across = along(b, row, n, column);
        let v = undamped_from(jr, s, start, across, h, i, j);
        put(h, 12 * i + j, v);
    }
}

// J_rᵀ J_r + B over the kept variables, at the start of a clear slice.
fn fill_undamped(
    n: usize,
    index: &[usize],
    k: usize,
    jr: &[f64],
    s: usize,
    b: &[f64],
    undamped: &mut [f64],
)
    requires { (k ≤ VARIABLES) × (length index.now ≡ 12) × (undamped.old ≡ zeros 336) }
    ensures { undamped.new
        ≡ fill_rows (zeros 336)
        (undamped_between n index.now jr.now s b.now) k k }
{
    for i in 0..k {
        undamped_row(n, index, k, jr, s, b, undamped, i);
    }
}

// ---- with a damping

// H's entry, from the entry v before it is damped and D's entry d: mu D is added on the diagonal alone.
fn damped_at(v: Scalar, d: Scalar, mu: Scalar, i: usize, j: usize) -> Scalar
    ensures { result ≡ damped_entry v d mu i j }
{
    if i == j {
        return choose(v.add(mu.mul(d)));
    }
    v
}

// Row i of H.
fn damped_row(k: usize, undamped: &[f64], mu: Scalar, h: &mut [f64], i: usize)
    requires { (k ≤ VARIABLES) × (i < k) }
    ensures { h.new
        ≡ fill_to h.old (12 * i)
        (λ j. damped_entry (at undamped.now (12 * i + j)) (at undamped.now (144 + i)) mu i j) k }
{
    let scale = at(undamped, FIRST_SCALING + i);
    for j in 0..k {
        let p = 12 * i + j;
        put(h, p, damped_at(at(undamped, p), scale, mu, i, j));
    }
}

// H = J_rᵀ J_r + B + mu D, from the slice that begins with what is undamped, into a clear matrix.
pub fn damped(k: usize, undamped: &[f64], mu: Scalar, h: &mut [f64])
    requires { (k ≤ VARIABLES) × (336 ≤ length undamped.now) × (h.old ≡ matrix) }
    ensures { h.new ≡ damped_from k undamped.now mu }
{
    for i in 0..k {
        damped_row(k, undamped, mu, h, i);
    }
}

// ---- the gradient

// The gradient of the sum, J_rᵀ r over the kept variables, chosen, at its place.
fn gradient(xs: &[f64], e: RowSet, index: &[usize], k: usize, undamped: &mut [f64])
    requires { Small e × KeptFits k index.now }
    ensures { undamped.new
        ≡ fill_to undamped.old 156
        (gradient_at (kept_by k index.now) (rows_in xs.now e)) k }
{
    let mut r = [0.0; 48];
    chosen_values(xs, e, &mut r);
    for p in 0..k {
        put(
            undamped,
            FIRST_GRADIENT + p,
            choose(transposed_at(xs, e, &r, index[p])),
        );
    }
}

// ---- the problem

// The slopes by the kept variables as they are, and the same chosen.
fn slopes(xs: &[f64], e: RowSet, index: &[usize], k: usize, wide: &mut [f64], narrow: &mut [f64])
    requires { Small e × (k ≤ VARIABLES) × (length index.now ≡ 12) }
    ensures { (wide.new
        ≡ squeezed_of (kept_by k index.now) (rows_in xs.now e) wide.old) ×
        (narrow.new ≡ chosen_of narrow.old wide.new 0 (12 * e.count)) }
{
    squeeze(xs, e, index, k, false, wide);
    chosen(wide, 0, 12 * e.count, narrow);
}

// The problem over the k kept variables, from an answer's rows, before it is damped: the constraints' slopes, the same
// chosen, and what is undamped (J_rᵀ J_r + B, D and the gradient, one behind the other), into clear slices.
pub fn problem(
    c: RowCounts,
    index: &[usize],
    k: usize,
    xs: &[f64],
    b: &[f64],
    wide: &mut [f64],
    jc: &mut [f64],
    undamped: &mut [f64],
)
    requires few_rows { FewRows c × KeptFits k index.now }
    requires wide_value { (wide.old ≡ matrix) × (jc.old ≡ matrix) × (undamped.old ≡ zeros 336) }
    ensures { (mu : Scalar) →
        problem_in k c.m (value_at (constraints_of c xs.now)) wide.new jc.new
        (damped_from k undamped.new mu) (gradient_in undamped.new)
        ≡ problem_of c.n (kept_by k index.now) (evaluation_of c xs.now) b.now mu }
{
    let e = sum(c);
    let mut jr = [0.0; 576];
    slopes(xs, constraints(c), index, k, wide, jc);
    squeeze(xs, e, index, k, true, &mut jr);
    fill_undamped(c.n, index, k, &jr, e.count, b, undamped);
    scalings(k, &jr, e.count, jc, c.m, undamped);
    gradient(xs, e, index, k, undamped);
}
