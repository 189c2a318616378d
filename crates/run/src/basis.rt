// An orthonormal basis Q of the constraints' rows, by modified Gram-Schmidt, and each row's coefficients in it. Both
// are the model's own numbers and are chosen. Whether a row is independent of those before it is asked of its intervals
// as they were answered: what chosen vectors leave of a row that depends on them is rounding and not zero, while what
// is left of its intervals could be zero. Q is orthonormal only up to its rounding, so a row is projected through the
// factor of Q's Gram matrix, which is near the identity and keeps the intervals narrow.
ghost use Rattle.std.specs.Prelude.{◌*◌, ◌≤◌, ◌<◌, ◌+◌, ℕ, ◌/◌, ◌%◌, List, [], ◌≡◌, Float, length, take, set, drop};
ghost use Rattle.interval.specs.Result as scalar;
ghost use Rattle.interval.specs.Scalar.{zero_s, neg_of};
ghost use Rattle.interval.specs.declared.Scalar as value;
ghost use Rattle.linear.specs.LinearResult.{done_of, result_of};
ghost use Rattle.linear.specs.Choose.{choose_of};
ghost use Rattle.linear.specs.Dot.{dot_to, minus_to};
ghost use Rattle.linear.specs.Flat.{list_to, at, put};
ghost use Rattle.linear.specs.Results.{fold_r, bind};
ghost use Rattle.run.specs.Limits.{VARIABLES, CONSTRAINTS};
ghost use Rattle.run.specs.Basis.{packed, coefficients_in, parts_out, gram_step, gram_row, extended, Basis};
ghost use Rattle.run.specs.Basis.{row_step, basis_of, coefficient_at, order_at, correction_of, multiplier_step};
ghost use Rattle.run.specs.Basis.{multipliers_of};
ghost use Rattle.run.specs.Rows.{rows_in, value_at};
ghost use Rattle.run.specs.Vectors.{entry, row, column, fill_to};
ghost use Rattle.run.specs.program.Basis.{taken_by, basis_by, ranked_of, problem_by, row_problem, measured_by};
ghost use Rattle.run.specs.program.Basis.{without_gram, NextRow, FreshBasis, ForCorrection};

use crate::rows::{RowSet, value_of};
use crate::vectors::{combine, norm_of, spread, unit};
use interval::{GeopError, Scalar};
use linear::{
    LinearError, at, choose, clear, in_column, in_row, minus_dot, minus_scaled, put, row_dot,
    store, two_minus,
};

// Counts that go together: of the constraints' first m rows, over k variables, r are independent.
#[derive(Clone, Copy)]
pub struct Shape {
    pub k: usize,
    pub m: usize,
    pub r: usize,
}

// How many scalars Q has: where the coefficients stand behind it, they begin there.
const Q_LEN: usize = 144;

// ---- a row's coefficients in the basis

// The first r rows and columns of a matrix, packed.
fn pack(r: usize, a: &[f64], to: &mut [f64])
    requires { (r ≤ CONSTRAINTS) × (length to.old ≡ 2 * (r * r)) }
    ensures { to.new ≡ packed r a.now }
{
    let n = r * r;
    for p in 0..n {
        put(to, p, at(a, 12 * (p / r) + p % r));
    }
}

// The product of row i of `wide` with each of r vectors.
fn projections(k: usize, r: usize, i: usize, wide: &[f64], q: &[f64], b: &mut [f64])
    requires { (r ≤ CONSTRAINTS) × ((i < 12) × (length b.old ≡ 2 * r)) }
    ensures { b.new
        ≡ list_to (λ j. dot_to (row wide.now i) (row q.now j) k) r }
{
    for j in 0..r {
        put(b, j, row_dot(wide, 12 * i, q, 12 * j, k));
    }
}

// The coefficients of the row behind the first m, at the start of a.
fn coefficients(
    passed: Shape,
    wide: &[f64],
    q: &[f64],
    gram: &[f64],
    a: &mut [f64],
) -> Result<(), LinearError>
    requires { NextRow passed × (length a.old ≡ 24) }
    ensures { done_of result (take (2 * passed.r) a.new)
        ≡ coefficients_in (row_problem passed.k wide.now [])
        (basis_by passed.r q.now gram.now [] [] []) passed.m }
{
    let r = passed.r;
    let e = 2 * r;
    let s = 2 * (r * r);
    let mut l = [0.0; 288];
    let none = [false; 12];
    let mut b = [0.0; 24];
    pack(r, gram, &mut l[..s]);
    projections(passed.k, r, passed.m, wide, q, &mut b[..e]);
    linear::solve_cholesky(r, &l[..s], &none[..r], &b[..e], &mut a[..e])
}

// ---- what is left of a row

// Entries p and p + 1 of row i of `wide` without its coefficients a: two sums at a time, since neither waits for the
// other.
fn two_outside(r: usize, i: usize, wide: &[f64], q: &[f64], a: &[f64], out: &mut [f64], p: usize)
    requires { (i < 12) × (p < 11) }
    ensures { out.new ≡ put (put out.old p
        (minus_to (at a.now) (column q.now p) (entry wide.now i p) r)) (p + 1)
        (minus_to (at a.now) (column q.now (p + 1)) (entry wide.now i (p + 1)) r) }
{
    let y = at(wide, 12 * i + p);
    let z = at(wide, 12 * i + (p + 1));
    let d = two_minus(q, p, p + 1, 12, a, 0, y, z, r);
    put(out, p, d.first);
    put(out, p + 1, d.second);
}

// Row i of `wide` without its coefficients a, from the start of `out` on, two entries at a time.
fn outside(k: usize, r: usize, i: usize, wide: &[f64], q: &[f64], a: &[f64], out: &mut [f64])
    requires { (k ≤ VARIABLES) × (i < 12) }
    ensures { out.new ≡ fill_to out.old 0
        (λ p. minus_to (at a.now) (column q.now p) (entry wide.now i p) r) k }
{
    let half = k / 2;
    for h in 0..half {
        two_outside(r, i, wide, q, a, out, 2 * h);
    }
    if 2 * half == k {
        return;
    }
    let p = 2 * half;
    let z = at(wide, 12 * i + p);
    put(out, p, minus_dot(a, in_row(0), q, in_column(p, 12), z, r));
}

// ---- an independent row

// v without its parts along r vectors, one after the other, which row r of the coefficients keeps.
fn parts_out(k: usize, r: usize, q: &[f64], v: &mut [f64], coefficients: &mut [f64])
    requires { (k ≤ VARIABLES) × (r ≤ CONSTRAINTS) }
    ensures { taken_by v.new coefficients.new
        ≡ parts_out k r q.now (taken_by v.old coefficients.old) r }
{
    for j in 0..r {
        let a = choose(row_dot(v, 0, q, 12 * j, k));
        minus_scaled(v, 0, a, q, 12 * j, k);
        put(coefficients, 12 * r + j, a);
    }
}

// Entry j of the Gram factor's row r, below its diagonal.
fn gram_entry(k: usize, r: usize, q: &[f64], gram: &mut [f64], j: usize) -> Result<(), LinearError>
    requires { (r ≤ CONSTRAINTS) × (j < r) }
    ensures { done_of result gram.new ≡ gram_step k r q.now gram.old j }
{
    let z = row_dot(q, 12 * r, q, 12 * j, k);
    let s = minus_dot(gram, in_row(12 * r), gram, in_row(12 * j), z, j);
    let d = at(gram, 12 * j + j);
    store(gram, 12 * r + j, s.div(d))
}

// The entries of the Gram factor's row r, below its diagonal.
fn gram_entries(k: usize, r: usize, q: &[f64], gram: &mut [f64]) -> Result<(), LinearError>
    requires { r ≤ CONSTRAINTS }
    ensures { done_of result gram.new ≡ fold_r (gram_step k r q.now) gram.old r }
{
    for j in 0..r {
        gram_entry(k, r, q, gram, j)?;
    }
    Ok(())
}

// Row r of the Gram factor, of the newest vector.
fn gram_row(k: usize, r: usize, q: &[f64], gram: &mut [f64]) -> Result<(), LinearError>
    requires { r ≤ CONSTRAINTS }
    ensures { done_of result gram.new ≡ gram_row k r q.now gram.old }
{
    gram_entries(k, r, q, gram)?;
    let z = row_dot(q, 12 * r, q, 12 * r, k);
    let s = minus_dot(gram, in_row(12 * r), gram, in_row(12 * r), z, r);
    store(gram, 12 * r + r, s.sqrt())
}

// Row i of `jc`, from the start of v on.
fn row_of(k: usize, i: usize, jc: &[f64], v: &mut [f64])
    requires { (k ≤ VARIABLES) × (i < 12) }
    ensures { v.new ≡ fill_to v.old 0 (row jc.now i) k }
{
    for p in 0..k {
        put(v, p, at(jc, 12 * i + p));
    }
}

// ---- one row after the other

// The row of `jc` behind the first m is independent of those in the basis and is its newest vector. The caller writes
// the order.
fn add_row(
    passed: Shape,
    jc: &[f64],
    q: &mut [f64],
    gram: &mut [f64],
    coefficients: &mut [f64],
) -> Result<usize, LinearError>
    requires { NextRow passed }
    ensures { (w : List Float) (o : List ℕ)
        → ranked_of result q.new gram.new coefficients.new w
        (set o passed.r passed.m)
        ≡ extended (row_problem passed.k [] jc.now)
        (basis_by passed.r q.old gram.old coefficients.old w o) passed.m }
{
    let k = passed.k;
    let r = passed.r;
    let mut v = [0.0; 24];
    row_of(k, passed.m, jc, &mut v);
    parts_out(k, r, q, &mut v, coefficients);
    let length = norm_of(&v, k)?.sharpen();
    unit(&v, 0, length, k, q, 12 * r);
    put(coefficients, 12 * r + r, length);
    gram_row(k, r, q, gram)?;
    Ok(r + 1)
}

// r scalars of a, each chosen, from t0 on in `to`.
fn chosen_at(r: usize, a: &[f64], to: &mut [f64], t0: usize)
    requires { (r ≤ CONSTRAINTS) × (t0 < 65536) }
    ensures { to.new ≡ fill_to to.old t0 (λ j. choose_of (at a.now j)) r }
{
    for j in 0..r {
        put(to, t0 + j, choose(at(a, j)));
    }
}

// The length of what is left of the row behind the first m, with its coefficients in a.
fn measure(
    passed: Shape,
    wide: &[f64],
    q: &[f64],
    gram: &[f64],
    a: &mut [f64],
) -> Result<Scalar, LinearError>
    requires { NextRow passed × (length a.old ≡ 24) }
    ensures { (f : List Float → value.Scalar → scalar.Res Basis)
        → bind (result_of result) (f (take (2 * passed.r) a.new))
        ≡ measured_by (row_problem passed.k wide.now [])
        (basis_by passed.r q.now gram.now [] [] []) passed.m f }
{
    let mut out = [0.0; 24];
    coefficients(passed, wide, q, gram, a)?;
    outside(passed.k, passed.r, passed.m, wide, q, a, &mut out);
    norm_of(&out, passed.k)
}

// Takes the row behind the first m, row m, into the basis, or its coefficients among those of the dependent rows, which
// the correction reads too.
fn next_row(
    passed: Shape,
    wide: &[f64],
    jc: &[f64],
    q: &mut [f64],
    gram: &mut [f64],
    coefficients: &mut [f64],
    dependent: &mut [f64],
    order: &mut [usize],
) -> Result<usize, LinearError>
    requires { NextRow passed × (length order.old ≡ 24) }
    ensures { ranked_of result q.new gram.new coefficients.new dependent.new
        order.new
        ≡ row_step (row_problem passed.k wide.now jc.now)
        (basis_by passed.r q.old gram.old coefficients.old
        dependent.old order.old) passed.m }
{
    let i = passed.m;
    let r = passed.r;
    let mut a = [0.0; 24];
    let length = measure(passed, wide, q, gram, &mut a)?;
    if length.definitely_greater(Scalar::ZERO) {
        order[r] = i;
        return add_row(passed, jc, q, gram, coefficients);
    }
    let d = i - r;
    order[12 + d] = i;
    chosen_at(r, &a, dependent, 12 * d);
    Ok(r)
}

// The basis of m rows, from clear slices. The Gram factor only serves the rows that follow, so no caller sees it.
pub fn basis(
    k: usize,
    m: usize,
    wide: &[f64],
    jc: &[f64],
    q: &mut [f64],
    coefficients: &mut [f64],
    dependent: &mut [f64],
    order: &mut [usize],
) -> Result<usize, LinearError>
    requires { FreshBasis k m q.old coefficients.old dependent.old order.old }
    ensures { ranked_of result q.new [] coefficients.new dependent.new
        order.new
        ≡ without_gram (basis_of (problem_by k m (λ _. zero_s) wide.now jc.now)) }
{
    let mut gram = [0.0; 288];
    let mut r = 0;
    for i in 0..m {
        r = next_row(
            Shape { k, m: i, r },
            wide,
            jc,
            q,
            &mut gram,
            coefficients,
            dependent,
            order,
        )?;
    }
    Ok(r)
}

// ---- the least-squares correction of every row

// Coefficient j of the t-th row in the order of the basis and then of the others.
fn coefficient_at(r: usize, coefficients: &[f64], dependent: &[f64], t: usize, j: usize) -> Scalar
    requires { (t < 65536) × (j < 65536) }
    ensures { result ≡ coefficient_at (basis_by r [] [] coefficients.now dependent.now []) t j }
{
    if t < r {
        return at(coefficients, 12 * t + j);
    }
    at(dependent, 12 * (t - r) + j)
}

// The coefficients of all rows in that order, packed.
fn coefficient_rows(m: usize, r: usize, coefficients: &[f64], dependent: &[f64], rows: &mut [f64])
    requires { (m ≤ CONSTRAINTS) × ((r ≤ CONSTRAINTS) × (length rows.old ≡ 2 * (m * r))) }
    ensures { rows.new ≡ list_to
        (λ p. coefficient_at (basis_by r [] [] coefficients.now dependent.now []) (p / r) (p % r))
        (m * r) }
{
    let n = m * r;
    for p in 0..n {
        put(
            rows,
            p,
            coefficient_at(r, coefficients, dependent, p / r, p % r),
        );
    }
}

// Which row is the t-th in that order.
fn order_at(r: usize, order: &[usize], t: usize) -> usize
    requires { (t < 12) × (length order.now ≡ 24) }
    ensures { result ≡ order_at (basis_by r [] [] [] [] order.now) t }
{
    if t < r {
        return order[t];
    }
    order[12 + (t - r)]
}

// The right-hand side: the constraint values in that order, chosen, negated.
fn sides(m: usize, r: usize, order: &[usize], xs: &[f64], e: RowSet, rhs: &mut [f64])
    requires { (m ≤ CONSTRAINTS) × ((length order.now ≡ 24) × (length rhs.old ≡ 2 * m)) }
    ensures { rhs.new ≡ list_to
        (λ t. neg_of (choose_of (value_at (rows_in xs.now e)
        (order_at (basis_by r [] [] [] [] order.now) t)))) m }
{
    for t in 0..m {
        let c = value_of(xs, e, order_at(r, order, t));
        put(rhs, t, choose(c).neg());
    }
}

// The least-squares correction of every row, for the constraint values in xs, by reflections: normal equations would
// square how ill-conditioned the rows are. Where it is refused, what delta holds has no meaning.
pub fn correction(
    shape: Shape,
    q: &[f64],
    coefficients: &[f64],
    dependent: &[f64],
    order: &[usize],
    xs: &[f64],
    e: RowSet,
    delta: &mut [f64],
) -> Result<(), LinearError>
    requires { ForCorrection shape (length order.now) (length delta.old) }
    ensures { done_of result delta.new
        ≡ correction_of (problem_by shape.k shape.m (value_at (rows_in xs.now e)) [] [])
        (basis_by shape.r q.now [] coefficients.now dependent.now
        order.now) }
{
    let k = shape.k;
    let m = shape.m;
    let r = shape.r;
    let s = 2 * (m * r);
    let u = 2 * m;
    let w = 2 * r;
    let mut rows = [0.0; 288];
    let mut rhs = [0.0; 24];
    let mut y = [0.0; 24];
    let mut weights = [0.0; 24];
    coefficient_rows(m, r, coefficients, dependent, &mut rows[..s]);
    sides(m, r, order, xs, e, &mut rhs[..u]);
    linear::least_squares(m, r, &rows[..s], &rhs[..u], &mut y[..w])?;
    linear::sharp(r, &y[..w], &mut weights[..w])?;
    clear(delta);
    combine(k, &weights[..w], q, delta, r);
    Ok(())
}

// ---- the multipliers

// Stores a value, chosen, or hands its refusal on.
fn store_chosen(xs: &mut [f64], i: usize, q: Result<Scalar, GeopError>) -> Result<(), LinearError>
    ensures { done_of result xs.new
        ≡ bind (scalar.result_of q) (λ v. scalar.ok (put xs.old i (choose_of v))) }
{
    put(xs, i, choose(q?));
    Ok(())
}

// The multiplier of vector r - 1 - u, from those behind it; the coefficients stand behind Q.
fn multiplier(
    k: usize,
    r: usize,
    q: &[f64],
    pull: &[f64],
    by_row: &mut [f64],
    u: usize,
) -> Result<(), LinearError>
    requires { (r ≤ CONSTRAINTS) × (u < r) }
    ensures { done_of result by_row.new
        ≡ multiplier_step k (basis_by r q.now [] (drop 288 q.now) [] []) pull.now
        by_row.old u }
{
    let t = r - 1 - u;
    let c = Q_LEN + 13 * t;
    let z = row_dot(q, 12 * t, pull, 0, k);
    let s = minus_dot(q, in_column(c + 12, 12), by_row, in_row(t + 1), z, u);
    store_chosen(by_row, t, s.div(at(q, c)))
}

// The multipliers by vector, from the last to the first.
fn multipliers_by_row(
    k: usize,
    r: usize,
    q: &[f64],
    pull: &[f64],
    by_row: &mut [f64],
) -> Result<(), LinearError>
    requires { r ≤ CONSTRAINTS }
    ensures { done_of result by_row.new
        ≡ fold_r (multiplier_step k (basis_by r q.now [] (drop 288 q.now) [] []) pull.now)
        by_row.old r }
{
    for u in 0..r {
        multiplier(k, r, q, pull, by_row, u)?;
    }
    Ok(())
}

// The constraints' multipliers, against a pull; the coefficients stand behind Q. Where they are refused, what lambda
// holds has no meaning.
pub fn multipliers(
    k: usize,
    r: usize,
    q: &[f64],
    order: &[usize],
    pull: &[f64],
    lambda: &mut [f64],
) -> Result<(), LinearError>
    requires { (r ≤ CONSTRAINTS) × ((length order.now ≡ 24) × (length lambda.old ≡ 24)) }
    ensures { done_of result lambda.new
        ≡ multipliers_of k (basis_by r q.now [] (drop 288 q.now) [] order.now)
        pull.now }
{
    let mut by_row = [0.0; 24];
    multipliers_by_row(k, r, q, pull, &mut by_row)?;
    spread(order, &by_row, r, lambda);
    Ok(())
}
