// The factor of a symmetric matrix, row by row. A row is left out where its pivot could be zero or less: as far as the
// intervals tell, it says nothing that the rows before it do not. So is one whose pivot is positive by so little that
// its reciprocal is not finite, since a solve through it would overflow.
ghost use Rattle.std.specs.Prelude.{◌≡◌, ◌*◌, ◌<◌, ◌≤◌, length};
ghost use Rattle.interval.specs.Result as scalar;
ghost use Rattle.linear.specs.LinearResult.{done_of};
ghost use Rattle.linear.specs.Calls.{cholesky_reply, blank};
ghost use Rattle.linear.specs.Cholesky.{usable, root_pivot, pivot_of, cholesky_of, factor_of};
ghost use Rattle.linear.specs.CholeskyRows.{pivot_result, entry_step, clear_row, settle, pivot_step, row_step};
ghost use Rattle.linear.specs.Lengths.{FactorLengths};
ghost use Rattle.linear.specs.Replies.{replied, reply_of};
ghost use Rattle.linear.specs.Results.{fold_r};

use crate::dots::rows_minus;
use crate::flat::{at, clear, put};
use crate::results::LinearError;
use crate::stored::store;
use interval::{GeopError, Scalar};

// Whether a quotient is there and finite.
fn is_usable(q: Result<Scalar, GeopError>) -> bool
    ensures { result ≡ usable (scalar.result_of q) }
{
    match q {
        Ok(v) => v.is_finite(),
        Err(_) => false,
    }
}

// The pivot by its root: none to divide by, and it is left out.
fn root_pivot(q: Result<Scalar, GeopError>) -> Result<Option<Scalar>, GeopError>
    ensures { pivot_result result ≡ root_pivot (scalar.result_of q) }
{
    let root = q?;
    if is_usable(Scalar::ONE.div(root)) {
        return Ok(Some(root));
    }
    Ok(None)
}

// The pivot by what the rows before it leave of the diagonal.
fn pivot_of(s: Scalar) -> Result<Option<Scalar>, GeopError>
    ensures { pivot_result result ≡ pivot_of s }
{
    if s.definitely_greater(Scalar::ZERO) {
        return root_pivot(s.sqrt());
    }
    Ok(None)
}

// The entry of row i and column j, below the diagonal.
fn entry(
    n: usize,
    a: &[f64],
    l: &mut [f64],
    left_out: &[bool],
    i: usize,
    j: usize,
) -> Result<(), LinearError>
    requires { (i < n) × (j < i) × FactorLengths n (length l.old) (length left_out.now) }
    ensures { done_of result l.new
        ≡ entry_step n a.now left_out.now i l.old j }
{
    if left_out[j] {
        return Ok(());
    }
    let row = i * n;
    let top = j * n;
    let s = rows_minus(l, row, top, at(a, row + j), j);
    store(l, row + j, s.div(at(l, top + j)))
}

// The entries of row i below the diagonal.
fn entries(
    n: usize,
    a: &[f64],
    l: &mut [f64],
    left_out: &[bool],
    i: usize,
) -> Result<(), LinearError>
    requires { (i < n) × FactorLengths n (length l.old) (length left_out.now) }
    ensures { done_of result l.new
        ≡ fold_r (entry_step n a.now left_out.now i) l.old i }
{
    for j in 0..i {
        entry(n, a, l, left_out, i, j)?;
    }
    Ok(())
}

// Row i made zero, so that the terms of a row that is left out are zero.
fn clear_row(n: usize, l: &mut [f64], i: usize)
    requires { (i < n) × (n ≤ 24) }
    ensures { l.new ≡ clear_row n i l.old n }
{
    for k in 0..n {
        put(l, i * n + k, Scalar::ZERO);
    }
}

// Stores a pivot, or leaves its row out.
fn store_pivot(
    n: usize,
    l: &mut [f64],
    left_out: &mut [bool],
    i: usize,
    p: Result<Option<Scalar>, GeopError>,
) -> Result<(), LinearError>
    requires { (i < n) × FactorLengths n (length l.old) (length left_out.old) }
    ensures { done_of result (factor_of l.new left_out.new)
        ≡ settle n left_out.old i l.old (pivot_result p) }
{
    if let Some(root) = p? {
        put(l, i * n + i, root);
    } else {
        clear_row(n, l, i);
        left_out[i] = true;
    }
    Ok(())
}

// The pivot of row i, whose entries below the diagonal are stored.
fn pivot_row(
    n: usize,
    a: &[f64],
    l: &mut [f64],
    left_out: &mut [bool],
    i: usize,
) -> Result<(), LinearError>
    requires { (i < n) × FactorLengths n (length l.old) (length left_out.old) }
    ensures { done_of result (factor_of l.new left_out.new)
        ≡ pivot_step n a.now left_out.old i l.old }
{
    let row = i * n;
    let s = rows_minus(l, row, row, at(a, row + i), i);
    store_pivot(n, l, left_out, i, pivot_of(s))
}

// Row i of the factor.
fn factor_row(
    n: usize,
    a: &[f64],
    l: &mut [f64],
    left_out: &mut [bool],
    i: usize,
) -> Result<(), LinearError>
    requires { (i < n) × FactorLengths n (length l.old) (length left_out.old) }
    ensures { done_of result (factor_of l.new left_out.new)
        ≡ row_step n a.now (factor_of l.old left_out.old) i }
{
    entries(n, a, l, left_out, i)?;
    pivot_row(n, a, l, left_out, i)
}

// All rows, until a root is refused.
fn factor_rows(n: usize, a: &[f64], l: &mut [f64], left_out: &mut [bool]) -> Result<(), LinearError>
    requires { FactorLengths n (length l.old) (length left_out.old) }
    ensures { done_of result (factor_of l.new left_out.new)
        ≡ fold_r (row_step n a.now) (factor_of l.old left_out.old) n }
{
    for i in 0..n {
        factor_row(n, a, l, left_out, i)?;
    }
    Ok(())
}

// The factor from clear slices, and clear slices where it is refused; the lengths are checked.
pub fn factor_sized(
    n: usize,
    a: &[f64],
    l: &mut [f64],
    left_out: &mut [bool],
) -> Result<(), LinearError>
    requires { FactorLengths n (length l.old) (length left_out.old) }
    ensures { replied result (factor_of l.new left_out.new)
        ≡ reply_of (blank n) (cholesky_of n a.now) }
{
    clear(l);
    left_out.fill(false);
    let end = factor_rows(n, a, l, left_out);
    if end.is_err() {
        clear(l);
        left_out.fill(false);
    }
    end
}

// L with L Lᵀ = a, of which the lower triangle is read; a pivot that is not definitely positive is left out.
pub fn cholesky(
    n: usize,
    a: &[f64],
    l: &mut [f64],
    left_out: &mut [bool],
) -> Result<(), LinearError>
    ensures { replied result (factor_of l.new left_out.new)
        ≡ cholesky_reply n a.now (factor_of l.old left_out.old) }
{
    if n > 24 {
        return Err(LinearError::TooMany);
    }
    if a.len() != 2 * (n * n) {
        return Err(LinearError::WrongLength);
    }
    if l.len() != 2 * (n * n) {
        return Err(LinearError::WrongLength);
    }
    if left_out.len() != n {
        return Err(LinearError::WrongLength);
    }
    factor_sized(n, a, l, left_out)
}
