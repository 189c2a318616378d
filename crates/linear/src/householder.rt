// Least squares by Householder reflections: each takes a column onto its diagonal, and is applied to the columns from
// it on and to the right-hand side. Every number is chosen, since these are the model's own. A column with nothing left
// of it after the reflections before is left out, as a pivot that could be zero is: its value is zero.
ghost use Rattle.std.specs.Prelude.{◌≡◌, ◌+◌, ◌*◌, ◌-◌, ◌<◌, ◌≤◌, length};
ghost use Rattle.interval.specs.Result as scalar;
ghost use Rattle.linear.specs.LinearResult.{done_of};
ghost use Rattle.linear.specs.Calls.{least_squares_reply};
ghost use Rattle.linear.specs.Cholesky.{factor_of};
ghost use Rattle.linear.specs.Flat.{zeros};
ghost use Rattle.linear.specs.Householder.{column_entry, columns_of, tail_of, alpha_of, normal_of, reflect_step};
ghost use Rattle.linear.specs.Householder.{reflect_to, reflect_by, reflect_with, householder_step, chosen, value_step};
ghost use Rattle.linear.specs.Householder.{least_squares_of};
ghost use Rattle.linear.specs.Lengths.{Counts, OutputLengths, Column, MarkedColumns};
ghost use Rattle.linear.specs.Replies.{replied, reply_of};
ghost use Rattle.linear.specs.Results.{fold_r};

use crate::choices::choose;
use crate::dots::{dot_of, minus_dot, row_dot};
use crate::flat::{at, clear, in_column, in_row, put};
use crate::norms::norm_of;
use crate::results::LinearError;
use crate::scaled::minus_scaled;
use crate::stored::store;
use crate::substitution::cleared;
use interval::{GeopError, Scalar};

// The p-th scalar of the columns.
fn column_entry(m: usize, r: usize, rows: &[f64], rhs: &[f64], p: usize) -> Scalar
    requires { Counts m r × (0 < m) × (p < 600) }
    ensures { result ≡ column_entry m r rows.now rhs.now p }
{
    let t = p / m;
    let i = p % m;
    if t < r {
        return at(rows, i * r + t);
    }
    at(rhs, i)
}

// The rows by columns, the right-hand side the last.
fn columns(m: usize, r: usize, rows: &[f64], rhs: &[f64], cols: &mut [f64])
    requires { Counts m r × (length cols.old ≡ 2 * ((r + 1) * m)) }
    ensures { cols.new ≡ columns_of m r rows.now rhs.now }
{
    let n = (r + 1) * m;
    for p in 0..n {
        put(cols, p, column_entry(m, r, rows, rhs, p));
    }
}

// Column j from its diagonal on.
fn tail(m: usize, cols: &[f64], j: usize, x: &mut [f64])
    requires { (j < m) × (m ≤ 24) × (length x.old ≡ 2 * (m - j)) }
    ensures { x.new ≡ tail_of m cols.now j }
{
    let base = j * m + j;
    let n = m - j;
    for k in 0..n {
        put(x, k, at(cols, base + k));
    }
}

// Where the reflection takes the column: its length, with the sign that x0 does not have. So x0 - alpha adds two sizes,
// and no digits cancel.
fn alpha(x0: Scalar, length: Scalar) -> Scalar
    ensures { result ≡ alpha_of x0 length }
{
    if x0.definitely_less(Scalar::ZERO) {
        return length;
    }
    length.neg()
}

// The reflection's normal, in place of the column.
fn normal(x: &mut [f64], length: Scalar)
    ensures { x.new ≡ normal_of x.old length }
{
    let x0 = at(x, 0);
    put(x, 0, choose(x0.sub(alpha(x0, length))));
}

// One column reflected.
fn reflect(
    v: &[f64],
    vv: Scalar,
    n: usize,
    base: usize,
    cols: &mut [f64],
) -> Result<(), LinearError>
    ensures { done_of result cols.new ≡ reflect_step v.now vv n base cols.old }
{
    let s = row_dot(v, 0, cols, base, n);
    let q = s.mul(Scalar::TWO).div(vv)?;
    minus_scaled(cols, base, q, v, 0, n);
    Ok(())
}

// k columns from column j on reflected.
fn reflect_all(
    m: usize,
    j: usize,
    v: &[f64],
    vv: Scalar,
    cols: &mut [f64],
    k: usize,
) -> Result<(), LinearError>
    requires { (j < m) × (m ≤ 24) × (j + k ≤ 25) }
    ensures { done_of result cols.new ≡ reflect_to m j v.now vv cols.old k }
{
    let n = m - j;
    for t in 0..k {
        reflect(v, vv, n, (j + t) * m + j, cols)?;
    }
    Ok(())
}

// The columns from j on reflected by the normal v, unless v could be zero.
fn reflect_by(m: usize, r: usize, j: usize, v: &[f64], cols: &mut [f64]) -> Result<(), LinearError>
    requires { Column m r j }
    ensures { done_of result cols.new ≡ reflect_by m r j v.now cols.old }
{
    let vv = choose(dot_of(v, v, m - j));
    if vv.definitely_greater(Scalar::ZERO) {
        return reflect_all(m, j, v, vv, cols, r + 1 - j);
    }
    Ok(())
}

// Column j's reflection, for its length; v holds the column.
fn reflect_with(
    m: usize,
    r: usize,
    j: usize,
    cols: &mut [f64],
    left_out: &mut [bool],
    v: &mut [f64],
    len: Scalar,
) -> Result<(), LinearError>
    requires { Column m r j × (length left_out.old ≡ r) × (v.old ≡ tail_of m cols.old j) }
    ensures { done_of result (factor_of cols.new left_out.new)
        ≡ reflect_with m r j (factor_of cols.old left_out.old) (scalar.ok len) }
{
    if len.definitely_greater(Scalar::ZERO) {
        normal(v, len);
        return reflect_by(m, r, j, v, cols);
    }
    left_out[j] = true;
    Ok(())
}

// Column j's reflection, where it asks for one.
fn householder_step(
    m: usize,
    r: usize,
    j: usize,
    cols: &mut [f64],
    left_out: &mut [bool],
    v: &mut [f64],
) -> Result<(), LinearError>
    requires { Column m r j × (length left_out.old ≡ r) × (length v.old ≡ 2 * (m - j)) }
    ensures { done_of result (factor_of cols.new left_out.new)
        ≡ householder_step m r (factor_of cols.old left_out.old) j }
{
    tail(m, cols, j, v);
    let length = norm_of(v, m - j)?;
    reflect_with(m, r, j, cols, left_out, v, length)
}

// The reflections of the first k columns.
fn reflections(
    m: usize,
    r: usize,
    k: usize,
    cols: &mut [f64],
    left_out: &mut [bool],
    v: &mut [f64],
) -> Result<(), LinearError>
    requires { MarkedColumns m r k (length left_out.old) × (2 * m ≤ length v.old) }
    ensures { done_of result (factor_of cols.new left_out.new)
        ≡ fold_r (householder_step m r) (factor_of cols.old left_out.old) k }
{
    for j in 0..k {
        let e = 2 * (m - j);
        householder_step(m, r, j, cols, left_out, &mut v[..e])?;
    }
    Ok(())
}

// A quotient's value, chosen.
fn chosen_of(q: Result<Scalar, GeopError>) -> Result<Scalar, GeopError>
    ensures { scalar.result_of result ≡ chosen (scalar.result_of q) }
{
    let v = q?;
    Ok(choose(v))
}

// The value of column j = k - 1 - t, from those behind it.
fn value_row(
    m: usize,
    r: usize,
    k: usize,
    cols: &[f64],
    left_out: &[bool],
    y: &mut [f64],
    t: usize,
) -> Result<(), LinearError>
    requires { MarkedColumns m r k (length left_out.now) × (t < k) }
    ensures { done_of result y.new
        ≡ value_step m r k (factor_of cols.now left_out.now) y.old t }
{
    let j = k - 1 - t;
    let d = at(cols, j * m + j);
    if left_out[j] {
        return Ok(());
    }
    if !d.definitely_not_equal(Scalar::ZERO) {
        return Ok(());
    }
    let z = at(cols, r * m + j);
    let p = in_column((j + 1) * m + j, m);
    let known = minus_dot(cols, p, y, in_row(j + 1), z, r - 1 - j);
    store(y, j, chosen_of(known.div(d)))
}

// The values, from the last column to the first.
fn values(
    m: usize,
    r: usize,
    k: usize,
    cols: &[f64],
    left_out: &[bool],
    y: &mut [f64],
) -> Result<(), LinearError>
    requires { MarkedColumns m r k (length left_out.now) }
    ensures { done_of result y.new
        ≡ fold_r (value_step m r k (factor_of cols.now left_out.now)) y.old k }
{
    for t in 0..k {
        value_row(m, r, k, cols, left_out, y, t)?;
    }
    Ok(())
}

// The whole, with scratch slices of the right lengths; y is clear where it is refused.
fn squares_in(
    m: usize,
    r: usize,
    rows: &[f64],
    rhs: &[f64],
    y: &mut [f64],
    cols: &mut [f64],
    left_out: &mut [bool],
    v: &mut [f64],
) -> Result<(), LinearError>
    requires { OutputLengths m r (length y.old) × (length cols.old ≡ 2 * ((r + 1) * m))
        × (length left_out.old ≡ r) × (2 * m ≤ length v.old) }
    ensures { replied result y.new
        ≡ reply_of (zeros (2 * r)) (least_squares_of m r rows.now rhs.now) }
{
    clear(y);
    left_out.fill(false);
    columns(m, r, rows, rhs, cols);
    let k = r.min(m);
    reflections(m, r, k, cols, left_out, v)?;
    cleared(values(m, r, k, cols, left_out, y), y)
}

// The same with arrays of its own, of these lengths.
fn squares_by<const COLUMNS: usize, const MARKS: usize, const NORMAL: usize>(
    m: usize,
    r: usize,
    rows: &[f64],
    rhs: &[f64],
    y: &mut [f64],
) -> Result<(), LinearError>
    requires { OutputLengths m r (length y.old) × (2 * ((r + 1) * m) ≤ COLUMNS) × (COLUMNS ≤ 1200)
        × (r ≤ MARKS) × (MARKS ≤ 24) × (2 * m ≤ NORMAL) × (NORMAL ≤ 48) }
    ensures { replied result y.new
        ≡ reply_of (zeros (2 * r)) (least_squares_of m r rows.now rhs.now) }
{
    let mut cols = [0.0; COLUMNS];
    let mut left_out = [false; MARKS];
    let mut v = [0.0; NORMAL];
    let e = 2 * ((r + 1) * m);
    squares_in(
        m,
        r,
        rows,
        rhs,
        y,
        &mut cols[..e],
        &mut left_out[..r],
        &mut v,
    )
}

// The same of at most 24 rows and columns; at most 12, as a run has them, have arrays a quarter of those for 24.
fn squares_sized(
    m: usize,
    r: usize,
    rows: &[f64],
    rhs: &[f64],
    y: &mut [f64],
) -> Result<(), LinearError>
    requires { OutputLengths m r (length y.old) }
    ensures { replied result y.new
        ≡ reply_of (zeros (2 * r)) (least_squares_of m r rows.now rhs.now) }
{
    if m <= 12 && r <= 12 {
        return squares_by::<312, 12, 24>(m, r, rows, rhs, y);
    }
    squares_by::<1200, 24, 48>(m, r, rows, rhs, y)
}

// The y with |rows y - rhs| least, for m rows of r columns.
pub fn least_squares(
    m: usize,
    r: usize,
    rows: &[f64],
    rhs: &[f64],
    y: &mut [f64],
) -> Result<(), LinearError>
    ensures { replied result y.new
        ≡ least_squares_reply m r rows.now rhs.now y.old }
{
    if m > 24 {
        return Err(LinearError::TooMany);
    }
    if r > 24 {
        return Err(LinearError::TooMany);
    }
    if rows.len() != 2 * (m * r) {
        return Err(LinearError::WrongLength);
    }
    if rhs.len() != 2 * m {
        return Err(LinearError::WrongLength);
    }
    if y.len() != 2 * r {
        return Err(LinearError::WrongLength);
    }
    squares_sized(m, r, rows, rhs, y)
}
