// The length of a list. Its numbers are divided by the greatest size among them before they are squared: the square of
// a very small number loses its digits below the least float, and that of a great one is infinite, while the quotients
// are about 1 at most, and one of them is. The size is a free choice, so it is made sharp.
ghost use Rattle.std.specs.Prelude.{◌≡◌, ◌<◌};
ghost use Rattle.interval.specs.Result as scalar;
ghost use Rattle.linear.specs.LinearResult.{result_of};
ghost use Rattle.linear.specs.Calls.{norm_reply};
ghost use Rattle.linear.specs.Dot.{dot_to};
ghost use Rattle.linear.specs.Flat.{at};
ghost use Rattle.linear.specs.Norm.{largest_to, times, scaled_squares, scaled_root, norm_of};

use crate::bounds::{bounds_of, plus_square, scalar_of};
use crate::dots::dot_of;
use crate::flat::at;
use crate::results::LinearError;
use interval::{GeopError, Scalar, greater_of};

// The greatest size among the first n, by two upper bounds: both ends are worked out at once, whatever their signs.
fn largest(v: &[f64], n: usize) -> Scalar
    ensures { result ≡ largest_to (at v.now) n }
{
    let mut below = 0.0;
    let mut above = 0.0;
    for i in 0..n {
        let x = at(v, i);
        below = greater_of(below, -x.lo);
        above = greater_of(above, x.hi);
    }
    Scalar::degenerate(greater_of(below, above))
}

// The sum of the squares of the first n, each times i.
fn squares_times(v: &[f64], i: Scalar, n: usize) -> Scalar
    ensures { result ≡ dot_to (times (at v.now) i) (times (at v.now) i) n }
{
    let mut sum = bounds_of(Scalar::ZERO);
    for j in 0..n {
        sum = plus_square(sum, at(v, j).mul(i));
    }
    scalar_of(sum)
}

// The sum of the squares of the first n, each over g. A quotient is the product with the divisor's inverse, so one
// inverse serves them all.
fn scaled_squares(v: &[f64], g: Scalar, n: usize) -> Result<Scalar, GeopError>
    requires { 0 < n }
    ensures { scalar.result_of result ≡ scaled_squares (at v.now) g n }
{
    let i = g.inverse()?;
    Ok(squares_times(v, i, n))
}

// The root of the sum of squares, scaled back.
fn scaled_root(g: Scalar, squares: Result<Scalar, GeopError>) -> Result<Scalar, GeopError>
    ensures { scalar.result_of result ≡ scaled_root g (scalar.result_of squares) }
{
    let root = squares?.sqrt()?;
    Ok(g.mul(root))
}

// The length of the first n. Where no size is definitely positive there is nothing to divide by.
pub fn norm_of(v: &[f64], n: usize) -> Result<Scalar, GeopError>
    ensures { scalar.result_of result ≡ norm_of (at v.now) n }
{
    let g = largest(v, n);
    if g.definitely_greater(Scalar::ZERO) {
        return scaled_root(g, scaled_squares(v, g, n));
    }
    dot_of(v, v, n).sqrt()
}

// The root of the sum of squares of v.
pub fn norm(n: usize, v: &[f64]) -> Result<Scalar, LinearError>
    ensures { result_of result ≡ norm_reply n v.now }
{
    if n > 24 {
        return Err(LinearError::TooMany);
    }
    if v.len() != 2 * n {
        return Err(LinearError::WrongLength);
    }
    Ok(norm_of(v, n)?)
}
