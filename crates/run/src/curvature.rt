// The curvature that Gauss-Newton leaves out, n rows of n: that of the constraints, weighted by how hard the sum pulls
// against them. It is learned from the steps taken, along the constraints only, and is as often negative as positive.
// Without it, where the sum cannot reach zero against curved constraints, steps along them overshoot and a run goes in
// zigzags.
ghost use Rattle.std.specs.Prelude.{◌≤◌, ◌*◌, ◌<◌, not, ◌||◌, List, ◌≡◌, Float, length};
ghost use Rattle.interval.specs.Result as scalar;
ghost use Rattle.interval.specs.Scalar.{zero_s, is_sharp, definitely_not_equal, inverse_of, sub_of};
ghost use Rattle.linear.specs.LinearResult.{done_of};
ghost use Rattle.linear.specs.Cholesky.{factor_of};
ghost use Rattle.linear.specs.Choose.{choose_of};
ghost use Rattle.linear.specs.Dot.{dot_to};
ghost use Rattle.linear.specs.Flat.{at, along};
ghost use Rattle.linear.specs.Substitution.{store_r};
ghost use Rattle.run.specs.Limits.{VARIABLES};
ghost use Rattle.run.specs.Area.{point_len};
ghost use Rattle.run.specs.Curvature.{learned_of, along_of, lagrangian_change_at, lagrangian_change, chosen_sum};
ghost use Rattle.run.specs.Curvature.{rank_one_step, rank_one_of, corrected_by, updated_by, update_curvature};
ghost use Rattle.run.specs.Rows.{constraints_of, evaluation_of};
ghost use Rattle.run.specs.Vectors.{fill_to, vector};
ghost use Rattle.run.specs.program.Curvature.{AlongLengths, UpdateLengths, Factored, updated_along};
ghost use Rattle.run.specs.program.Rows.{FewRows};

use crate::residuals::{chosen_slopes, chosen_values, transposed_at};
use crate::rows::{RowCounts, constraints, first_rows, sum};
use crate::vectors::quotient;
use interval::{GeopError, Scalar};
use linear::{LinearError, at, choose, gram_factor, minus_factored, minus_solved, put, row_dot};

// Whether an entry bends the model: not sharp, or definitely not zero.
fn bends(v: Scalar) -> bool
    ensures { result ≡ (not (is_sharp v) || definitely_not_equal v zero_s) }
{
    !v.is_sharp() || v.definitely_not_equal(Scalar::ZERO)
}

// Whether any curvature was learned.
pub fn learned(n: usize, b: &[f64]) -> bool
    requires { n ≤ VARIABLES }
    ensures { result ≡ learned_of n b.now }
{
    let q = n * n;
    for p in 0..q {
        if bends(at(b, p)) {
            return true;
        }
    }
    false
}

// The first n products of two lists.
fn dot_of(a: &[f64], b: &[f64], n: usize) -> Scalar
    ensures { result ≡ dot_to (at a.now) (at b.now) n }
{
    row_dot(a, 0, b, 0, n)
}

// The first k rows of n, each times v, from the start of `out` on.
pub fn products(n: usize, k: usize, rows: &[f64], v: &[f64], out: &mut [f64])
    requires { (n ≤ VARIABLES) × (k ≤ VARIABLES) }
    ensures { out.new
        ≡ fill_to out.old 0
        (λ i. dot_to (along rows.now (i * n) 1) (at v.now) n) k }
{
    for i in 0..k {
        put(out, i, row_dot(rows, i * n, v, 0, n));
    }
}

// The part of v along the constraints, that is, square to their slopes.
pub fn along_constraints(
    c: RowCounts,
    xs: &[f64],
    v: &[f64],
    out: &mut [f64],
) -> Result<(), LinearError>
    requires { AlongLengths c (length v.now) (length out.old) }
    ensures { done_of result out.new ≡ along_of (constraints_of c xs.now) v.now }
{
    let n = c.n;
    let m = c.m;
    let q = 2 * (m * n);
    let k = 2 * m;
    let w = 2 * n;
    let mut jc = [0.0; 288];
    let mut rhs = [0.0; 24];
    chosen_slopes(xs, constraints(c), &mut jc[..q]);
    let slopes = &jc[..q];
    products(n, m, slopes, v, &mut rhs[..k]);
    minus_solved(m, n, slopes, &rhs[..k], &v[..w], out)
}

// The same by the constraints' slopes, chosen, and the factor of their products, so that these are worked out once for
// several vectors.
fn along_factored(
    c: RowCounts,
    slopes: &[f64],
    l: &[f64],
    left_out: &[bool],
    v: &[f64],
    out: &mut [f64],
) -> Result<(), LinearError>
    requires { AlongLengths c (length v.now) (length out.old) }
    ensures { (xs : List Float) →
        Factored (constraints_of c xs) slopes.now (factor_of l.now left_out.now) →
        done_of result out.new ≡ along_of (constraints_of c xs) v.now }
{
    let n = c.n;
    let m = c.m;
    let k = 2 * m;
    let w = 2 * n;
    let mut rhs = [0.0; 24];
    products(n, m, slopes, v, &mut rhs[..k]);
    minus_factored(m, n, slopes, l, left_out, &rhs[..k], &v[..w], out)
}

// One entry of how far the gradient of the Lagrangian turned; r has the sum's new values, chosen. There is a multiplier
// for each constraint of xs, so of those of `next` no more are weighed.
fn lagrangian_change_at(
    c: RowCounts,
    xs: &[f64],
    d: RowCounts,
    next: &[f64],
    lambda: &[f64],
    r: &[f64],
    j: usize,
) -> Scalar
    requires { FewRows c × FewRows d × (j < 65536) }
    ensures { result
        ≡ lagrangian_change_at (evaluation_of c xs.now) (evaluation_of d next.now)
        lambda.now r.now j }
{
    let held = transposed_at(next, first_rows(constraints(d), c.m), lambda, j);
    let a = held.sub(transposed_at(xs, constraints(c), lambda, j));
    let b = a.add(transposed_at(next, sum(d), r, j));
    b.sub(transposed_at(xs, sum(c), r, j))
}

// By how much the gradient of the Lagrangian turned between two points with their rows, beyond what the sum's slopes
// explain, into a clear vector.
fn lagrangian_change(
    c: RowCounts,
    xs: &[f64],
    d: RowCounts,
    next: &[f64],
    lambda: &[f64],
    y: &mut [f64],
)
    requires { FewRows c × FewRows d × (y.old ≡ vector) }
    ensures { y.new
        ≡ lagrangian_change c.n (evaluation_of c xs.now) (evaluation_of d next.now)
        lambda.now }
{
    let n = c.n;
    let mut r = [0.0; 48];
    chosen_values(next, sum(d), &mut r);
    let values: &[f64] = &r;
    for j in 0..n {
        put(
            y,
            j,
            lagrangian_change_at(c, xs, d, next, lambda, values, j),
        );
    }
}

// Adds to the p-th scalar, chosen, or hands a refusal on.
fn add_chosen(b: &mut [f64], p: usize, q: Result<Scalar, GeopError>) -> Result<(), LinearError>
    ensures { done_of result b.new
        ≡ store_r b.old p (chosen_sum (at b.old p) (scalar.result_of q)) }
{
    let v = q?;
    let a = at(b, p);
    put(b, p, choose(a.add(v)));
    Ok(())
}

// Entry p of b + v vᵀ / vs, by the inverse of vs.
fn rank_one_at(
    n: usize,
    b: &mut [f64],
    v: &[f64],
    inverse: Result<Scalar, GeopError>,
    p: usize,
) -> Result<(), LinearError>
    requires { 0 < n }
    ensures { (vs : Scalar) → scalar.result_of inverse ≡ inverse_of vs →
        done_of result b.new ≡ rank_one_step n v.now vs b.old p }
{
    let x = at(v, p / n);
    let y = x.mul(at(v, p % n));
    add_chosen(b, p, quotient(y, inverse))
}

// b + v vᵀ / vs, each entry chosen.
pub fn rank_one(n: usize, b: &mut [f64], v: &[f64], vs: Scalar) -> Result<(), LinearError>
    requires { n ≤ VARIABLES }
    ensures { done_of result b.new ≡ rank_one_of n b.old v.now vs }
{
    let q = n * n;
    let inverse = vs.inverse();
    for p in 0..q {
        rank_one_at(n, b, v, inverse, p)?;
    }
    Ok(())
}

// The first n of y less those of bs, chosen, into a clear vector.
fn less_chosen(n: usize, y: &[f64], bs: &[f64], v: &mut [f64])
    requires { v.old ≡ vector }
    ensures { v.new
        ≡ fill_to vector 0 (λ i. choose_of (sub_of (at y.now i) (at bs.now i))) n }
{
    for i in 0..n {
        let x = at(y, i);
        put(v, i, choose(x.sub(at(bs, i))));
    }
}

// The update, with y along the constraints.
pub fn corrected_by(
    n: usize,
    b: &mut [f64],
    y: &[f64],
    bs: &[f64],
    s: &[f64],
) -> Result<(), LinearError>
    requires { n ≤ VARIABLES }
    ensures { done_of result b.new
        ≡ corrected_by n b.old y.now bs.now s.now }
{
    let mut v = [0.0; 24];
    less_chosen(n, y, bs, &mut v);
    let less: &[f64] = &v;
    let vs = choose(dot_of(less, s, n));
    if vs.definitely_not_equal(Scalar::ZERO) {
        return rank_one(n, b, less, vs);
    }
    Ok(())
}

// The update, from y and the step s along the constraints. There is none where the curvature may explain y already, and
// none where what it lacks may be square to the step, since its size is then not known.
fn updated(
    c: RowCounts,
    slopes: &[f64],
    l: &[f64],
    left_out: &[bool],
    b: &mut [f64],
    y: &[f64],
    s: &[f64],
) -> Result<(), LinearError>
    requires { FewRows c × (length y.now ≡ point_len) }
    ensures { (xs : List Float) →
        Factored (constraints_of c xs) slopes.now (factor_of l.now left_out.now) →
        done_of result b.new
        ≡ updated_by c.n (constraints_of c xs) b.old y.now s.now }
{
    let n = c.n;
    let w = 2 * n;
    let mut bs = [0.0; 24];
    let mut y_along = [0.0; 24];
    products(n, n, b, s, &mut bs);
    let bent: &[f64] = &bs;
    let d = dot_of(y, s, n).sub(dot_of(bent, s, n));
    if !d.definitely_not_equal(Scalar::ZERO) {
        return Ok(());
    }
    along_factored(c, slopes, l, left_out, y, &mut y_along[..w])?;
    corrected_by(n, b, &y_along[..w], bent, s)
}

// The curvature b, updated from a step and y, by the constraints' slopes and the factor of their products.
fn update_factored(
    c: RowCounts,
    slopes: &[f64],
    l: &[f64],
    left_out: &[bool],
    b: &mut [f64],
    y: &[f64],
    step: &[f64],
) -> Result<(), LinearError>
    requires { UpdateLengths c (length y.now) (length step.now) }
    ensures { (xs : List Float) →
        Factored (constraints_of c xs) slopes.now (factor_of l.now left_out.now) →
        done_of result b.new
        ≡ updated_along c.n (constraints_of c xs) b.old y.now step.now }
{
    let w = 2 * c.n;
    let mut s_along = [0.0; 24];
    along_factored(c, slopes, l, left_out, step, &mut s_along[..w])?;
    updated(c, slopes, l, left_out, b, y, &s_along[..w])
}

// The curvature b, updated from the step between two points with their rows and counts, so that along the step it turns
// the gradient as the step did.
pub fn update_curvature(
    c: RowCounts,
    step: &[f64],
    xs: &[f64],
    d: RowCounts,
    next: &[f64],
    lambda: &[f64],
    b: &mut [f64],
) -> Result<(), LinearError>
    requires { FewRows c × FewRows d × (2 * c.n ≤ length step.now) }
    ensures { done_of result b.new
        ≡ update_curvature c.n b.old step.now (evaluation_of c xs.now)
        (evaluation_of d next.now) lambda.now }
{
    let n = c.n;
    let m = c.m;
    let q = 2 * (m * n);
    let e = 2 * (m * m);
    let mut y = [0.0; 24];
    let mut jc = [0.0; 288];
    let mut g = [0.0; 288];
    let mut l = [0.0; 288];
    let mut left_out = [false; 12];
    lagrangian_change(c, xs, d, next, lambda, &mut y);
    chosen_slopes(xs, constraints(c), &mut jc[..q]);
    gram_factor(m, n, &jc[..q], &mut g[..e], &mut l[..e], &mut left_out[..m])?;
    update_factored(c, &jc[..q], &l[..e], &left_out[..m], b, &y, step)
}
