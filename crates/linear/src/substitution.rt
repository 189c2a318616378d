// Solving through a factor: L y = b from the first row on, then Lᵀ x = y from the last. A place that is left out stays
// +0, and its zero terms are subtracted as in the Rust, where each of them widens the sum by a step.
ghost use Rattle.std.specs.Prelude.{◌≡◌, ◌*◌, ◌<◌, ◌≤◌, length};
ghost use Rattle.linear.specs.LinearResult.{done_of};
ghost use Rattle.linear.specs.Calls.{solve_reply};
ghost use Rattle.linear.specs.Flat.{zeros};
ghost use Rattle.linear.specs.Lengths.{OutputLengths};
ghost use Rattle.linear.specs.Replies.{replied, reply_of};
ghost use Rattle.linear.specs.Results.{fold_r};
ghost use Rattle.linear.specs.Substitution.{forward_step, back_step, solve_of};

use crate::dots::minus_dot;
use crate::flat::{at, clear, in_column, in_row};
use crate::results::LinearError;
use crate::stored::store;

// y[i], from those before it.
fn forward_row(
    n: usize,
    l: &[f64],
    left_out: &[bool],
    b: &[f64],
    y: &mut [f64],
    i: usize,
) -> Result<(), LinearError>
    requires { (i < n) × (n ≤ 24) × (length left_out.now ≡ n) }
    ensures { done_of result y.new
        ≡ forward_step n l.now left_out.now b.now y.old i }
{
    if left_out[i] {
        return Ok(());
    }
    let row = i * n;
    let s = minus_dot(l, in_row(row), y, in_row(0), at(b, i), i);
    store(y, i, s.div(at(l, row + i)))
}

// L y = b.
fn forward(
    n: usize,
    l: &[f64],
    left_out: &[bool],
    b: &[f64],
    y: &mut [f64],
) -> Result<(), LinearError>
    requires { (n ≤ 24) × (length left_out.now ≡ n) }
    ensures { done_of result y.new
        ≡ fold_r (forward_step n l.now left_out.now b.now) y.old n }
{
    for i in 0..n {
        forward_row(n, l, left_out, b, y, i)?;
    }
    Ok(())
}

// x[i] for i = n - 1 - t, from those behind it.
fn back_row(
    n: usize,
    l: &[f64],
    left_out: &[bool],
    y: &[f64],
    x: &mut [f64],
    t: usize,
) -> Result<(), LinearError>
    requires { (t < n) × (n ≤ 24) × (length left_out.now ≡ n) }
    ensures { done_of result x.new
        ≡ back_step n l.now left_out.now y.now x.old t }
{
    let i = n - 1 - t;
    if left_out[i] {
        return Ok(());
    }
    let p = in_column((i + 1) * n + i, n);
    let s = minus_dot(l, p, x, in_row(i + 1), at(y, i), t);
    store(x, i, s.div(at(l, i * n + i)))
}

// Lᵀ x = y.
fn back(n: usize, l: &[f64], left_out: &[bool], y: &[f64], x: &mut [f64]) -> Result<(), LinearError>
    requires { (n ≤ 24) × (length left_out.now ≡ n) }
    ensures { done_of result x.new
        ≡ fold_r (back_step n l.now left_out.now y.now) x.old n }
{
    for t in 0..n {
        back_row(n, l, left_out, y, x, t)?;
    }
    Ok(())
}

// Both substitutions, from clear slices.
fn solve_in(
    n: usize,
    l: &[f64],
    left_out: &[bool],
    b: &[f64],
    x: &mut [f64],
    y: &mut [f64],
) -> Result<(), LinearError>
    requires { OutputLengths n n (length x.old) × (length left_out.now ≡ n) × (length y.old ≡ 2 * n) }
    ensures { replied result x.new
        ≡ reply_of (zeros (2 * n)) (solve_of n l.now left_out.now b.now) }
{
    clear(x);
    clear(y);
    forward(n, l, left_out, b, y)?;
    cleared(back(n, l, left_out, y, x), x)
}

// Clears the output of a step that was refused.
pub fn cleared(d: Result<(), LinearError>, x: &mut [f64]) -> Result<(), LinearError>
    ensures { replied result x.new
        ≡ reply_of (zeros (length x.old)) (done_of d x.old) }
{
    if d.is_err() {
        clear(x);
    }
    d
}

// The same with an array of its own; the lengths are checked.
pub fn solve_sized(
    n: usize,
    l: &[f64],
    left_out: &[bool],
    b: &[f64],
    x: &mut [f64],
) -> Result<(), LinearError>
    requires { OutputLengths n n (length x.old) × (length left_out.now ≡ n) }
    ensures { replied result x.new
        ≡ reply_of (zeros (2 * n)) (solve_of n l.now left_out.now b.now) }
{
    let mut y = [0.0; 48];
    solve_with(n, l, left_out, b, x, &mut y)
}

// The same with a scratch slice that is long enough.
fn solve_with(
    n: usize,
    l: &[f64],
    left_out: &[bool],
    b: &[f64],
    x: &mut [f64],
    y: &mut [f64],
) -> Result<(), LinearError>
    requires { OutputLengths n n (length x.old) × (length left_out.now ≡ n) × (2 * n ≤ length y.old) }
    ensures { replied result x.new
        ≡ reply_of (zeros (2 * n)) (solve_of n l.now left_out.now b.now) }
{
    let m = 2 * n;
    solve_in(n, l, left_out, b, x, &mut y[..m])
}

// x with L Lᵀ x = b for the factor of `cholesky`; a place that is left out is +0.
pub fn solve_cholesky(
    n: usize,
    l: &[f64],
    left_out: &[bool],
    b: &[f64],
    x: &mut [f64],
) -> Result<(), LinearError>
    ensures { replied result x.new
        ≡ solve_reply n l.now left_out.now b.now x.old }
{
    if n > 24 {
        return Err(LinearError::TooMany);
    }
    if l.len() != 2 * (n * n) {
        return Err(LinearError::WrongLength);
    }
    if left_out.len() != n {
        return Err(LinearError::WrongLength);
    }
    if b.len() != 2 * n {
        return Err(LinearError::WrongLength);
    }
    if x.len() != 2 * n {
        return Err(LinearError::WrongLength);
    }
    solve_sized(n, l, left_out, b, x)
}
