// The lists and small matrices for C and Rust: each function of the crate linear, by name. A slice is
// passed as its pointer and count. Every function takes every number and every length, and equals the
// definition of the call beneath it.
ghost use Rattle.std.specs.Prelude.{◌≡◌};
ghost use Rattle.yadzvego.specs.ScalarResult.{scalar_result_of};
ghost use Rattle.linear.specs.LinearResult.{number_of, result_of, done_of};
ghost use Rattle.linear.specs.Calls.{dot_reply, norm_reply, sharp_reply, cholesky_reply, solve_reply, least_squares_reply};
ghost use Rattle.linear.specs.Calls.{minus_solved_reply};
ghost use Rattle.linear.specs.Cholesky.{factor_of};
ghost use Rattle.linear.specs.Choose.{choose_of};
ghost use Rattle.yadzvego.specs.Written.{number_of_end, written, written_of};

use crate::scalars::ScalarResult;
use interval::Scalar;
use linear::LinearError;

pub fn number_of(e: LinearError) -> u64
    ensures { result ≡ number_of e }
{
    usize::from(e) as u64
}

// Number 0 and the value, or the number of the refusal and zero.
pub fn scalar_result_of(r: Result<Scalar, LinearError>) -> ScalarResult
    ensures { result ≡ scalar_result_of (result_of r) }
{
    match r {
        Ok(x) => ScalarResult {
            number: 0,
            value: x,
        },
        Err(e) => ScalarResult {
            number: number_of(e),
            value: Scalar::ZERO,
        },
    }
}

// 0 where the output is written, or the number of the refusal.
pub fn number_of_done(d: Result<(), LinearError>) -> u64
    ensures { result ≡ number_of_end (done_of d tt) }
{
    match d {
        Ok(()) => 0,
        Err(e) => number_of(e),
    }
}

pub fn yadzvego_linear_dot(n: usize, a: &[f64], b: &[f64]) -> ScalarResult
    ensures { result ≡ scalar_result_of (dot_reply n a.now b.now) }
{
    scalar_result_of(linear::dot(n, a, b))
}

pub fn yadzvego_linear_norm(n: usize, v: &[f64]) -> ScalarResult
    ensures { result ≡ scalar_result_of (norm_reply n v.now) }
{
    scalar_result_of(linear::norm(n, v))
}

pub fn yadzvego_linear_choose(v: Scalar) -> Scalar
    ensures { result ≡ choose_of v }
{
    linear::choose(v)
}

pub fn yadzvego_linear_sharp(n: usize, v: &[f64], out: &mut [f64]) -> u64
    ensures { written result out.new ≡ written_of (sharp_reply n v.now out.old) }
{
    number_of_done(linear::sharp(n, v, out))
}

pub fn yadzvego_linear_cholesky(n: usize, a: &[f64], l: &mut [f64], left_out: &mut [bool]) -> u64
    ensures { written result (factor_of l.new left_out.new)
        ≡ written_of (cholesky_reply n a.now (factor_of l.old left_out.old)) }
{
    number_of_done(linear::cholesky(n, a, l, left_out))
}

pub fn yadzvego_linear_solve_cholesky(
    n: usize,
    l: &[f64],
    left_out: &[bool],
    b: &[f64],
    x: &mut [f64],
) -> u64
    ensures { written result x.new
        ≡ written_of (solve_reply n l.now left_out.now b.now x.old) }
{
    number_of_done(linear::solve_cholesky(n, l, left_out, b, x))
}

pub fn yadzvego_linear_least_squares(
    m: usize,
    r: usize,
    rows: &[f64],
    rhs: &[f64],
    y: &mut [f64],
) -> u64
    ensures { written result y.new
        ≡ written_of (least_squares_reply m r rows.now rhs.now y.old) }
{
    number_of_done(linear::least_squares(m, r, rows, rhs, y))
}

pub fn yadzvego_linear_minus_solved(
    m: usize,
    n: usize,
    jc: &[f64],
    rhs: &[f64],
    from: &[f64],
    out: &mut [f64],
) -> u64
    ensures { written result out.new ≡ written_of
        (minus_solved_reply m n jc.now rhs.now from.now out.old) }
{
    number_of_done(linear::minus_solved(m, n, jc, rhs, from, out))
}
