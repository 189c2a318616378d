// The lists and small matrices of the archive, each by name.
ghost use Rattle.std.specs.Prelude.{◌≡◌};
ghost use Rattle.yadzvego.specs.ScalarResult.{scalar_result_of};
ghost use Rattle.linear.specs.LinearResult.{number_of, result_of, done_of};
ghost use Rattle.linear.specs.Calls.{dot_reply, norm_reply, sharp_reply, cholesky_reply, solve_reply, least_squares_reply};
ghost use Rattle.linear.specs.Calls.{minus_solved_reply};
ghost use Rattle.linear.specs.Cholesky.{factor_of};
ghost use Rattle.linear.specs.Choose.{choose_of};
ghost use Rattle.yadzvego.specs.Written.{number_of_end, written, written_of};

use interval::Scalar;
use yadzvego::lists;
use yadzvego::scalars::ScalarResult;

#[unsafe(no_mangle)]
pub extern "C" fn yadzvego_linear_dot(n: usize, a: &[f64], b: &[f64]) -> ScalarResult
    ensures { result ≡ scalar_result_of (dot_reply n a.now b.now) }
{
    lists::yadzvego_linear_dot(n, a, b)
}

#[unsafe(no_mangle)]
pub extern "C" fn yadzvego_linear_norm(n: usize, v: &[f64]) -> ScalarResult
    ensures { result ≡ scalar_result_of (norm_reply n v.now) }
{
    lists::yadzvego_linear_norm(n, v)
}

#[unsafe(no_mangle)]
pub extern "C" fn yadzvego_linear_choose(v: Scalar) -> Scalar
    ensures { result ≡ choose_of v }
{
    lists::yadzvego_linear_choose(v)
}

#[unsafe(no_mangle)]
pub extern "C" fn yadzvego_linear_sharp(n: usize, v: &[f64], out: &mut [f64]) -> u64
    ensures { written result out.new ≡ written_of (sharp_reply n v.now out.old) }
{
    lists::yadzvego_linear_sharp(n, v, out)
}

#[unsafe(no_mangle)]
pub extern "C" fn yadzvego_linear_cholesky(
    n: usize,
    a: &[f64],
    l: &mut [f64],
    left_out: &mut [bool],
) -> u64
    ensures { written result (factor_of l.new left_out.new)
        ≡ written_of (cholesky_reply n a.now (factor_of l.old left_out.old)) }
{
    lists::yadzvego_linear_cholesky(n, a, l, left_out)
}

#[unsafe(no_mangle)]
pub extern "C" fn yadzvego_linear_solve_cholesky(
    n: usize,
    l: &[f64],
    left_out: &[bool],
    b: &[f64],
    x: &mut [f64],
) -> u64
    ensures { written result x.new
        ≡ written_of (solve_reply n l.now left_out.now b.now x.old) }
{
    lists::yadzvego_linear_solve_cholesky(n, l, left_out, b, x)
}

#[unsafe(no_mangle)]
pub extern "C" fn yadzvego_linear_least_squares(
    m: usize,
    r: usize,
    rows: &[f64],
    rhs: &[f64],
    y: &mut [f64],
) -> u64
    ensures { written result y.new
        ≡ written_of (least_squares_reply m r rows.now rhs.now y.old) }
{
    lists::yadzvego_linear_least_squares(m, r, rows, rhs, y)
}

#[unsafe(no_mangle)]
pub extern "C" fn yadzvego_linear_minus_solved(
    m: usize,
    n: usize,
    jc: &[f64],
    rhs: &[f64],
    from: &[f64],
    out: &mut [f64],
) -> u64
    ensures { written result out.new ≡ written_of
        (minus_solved_reply m n jc.now rhs.now from.now out.old) }
{
    lists::yadzvego_linear_minus_solved(m, n, jc, rhs, from, out)
}
