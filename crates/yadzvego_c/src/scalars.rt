// The interval arithmetic of the archive, each by name. A scalar is passed and returned as its two ends.
ghost use Rattle.std.specs.Prelude.{◌≡◌};
ghost use Rattle.interval.specs.Result.{result_of, number_of};
ghost use Rattle.interval.specs.Step.{next_up, next_down};
ghost use Rattle.interval.specs.Scalar.{zero_s, one64, two64, degenerate, from_i64, from_ratio};
ghost use Rattle.interval.specs.Scalar.{add_of, sub_of, mul_of, neg_of, div_of, abs_of, sqrt_of, max_of};
ghost use Rattle.interval.specs.Scalar.{could_be_equal, definitely_not_equal, could_be_greater, definitely_greater};
ghost use Rattle.interval.specs.Scalar.{could_be_less, definitely_less};
ghost use Rattle.interval.specs.Scalar.{is_zero, is_finite, midpoint, is_sharp, lower, upper, sharpen};
ghost use Rattle.yadzvego.specs.ScalarResult.{scalar_result_of};

use interval::Scalar;
use yadzvego::scalars;
use yadzvego::scalars::ScalarResult;

#[unsafe(no_mangle)]
pub extern "C" fn yadzvego_interval_zero() -> Scalar
    ensures { result ≡ zero_s }
{
    scalars::yadzvego_interval_zero()
}

#[unsafe(no_mangle)]
pub extern "C" fn yadzvego_interval_one() -> Scalar
    ensures { result ≡ degenerate one64 }
{
    scalars::yadzvego_interval_one()
}

#[unsafe(no_mangle)]
pub extern "C" fn yadzvego_interval_two() -> Scalar
    ensures { result ≡ degenerate two64 }
{
    scalars::yadzvego_interval_two()
}

#[unsafe(no_mangle)]
pub extern "C" fn yadzvego_interval_next_up(x: f64) -> f64
    ensures { result ≡ next_up x }
{
    scalars::yadzvego_interval_next_up(x)
}

#[unsafe(no_mangle)]
pub extern "C" fn yadzvego_interval_next_down(x: f64) -> f64
    ensures { result ≡ next_down x }
{
    scalars::yadzvego_interval_next_down(x)
}

#[unsafe(no_mangle)]
pub extern "C" fn yadzvego_interval_degenerate(v: f64) -> Scalar
    ensures { result ≡ degenerate v }
{
    scalars::yadzvego_interval_degenerate(v)
}

#[unsafe(no_mangle)]
pub extern "C" fn yadzvego_interval_from_i64(v: i64) -> Scalar
    ensures { result ≡ from_i64 v }
{
    scalars::yadzvego_interval_from_i64(v)
}

#[unsafe(no_mangle)]
pub extern "C" fn yadzvego_interval_from_ratio(num: i64, den: i64) -> ScalarResult
    ensures { result ≡ scalar_result_of (from_ratio num den) }
{
    scalars::yadzvego_interval_from_ratio(num, den)
}

#[unsafe(no_mangle)]
pub extern "C" fn yadzvego_interval_add(x: Scalar, y: Scalar) -> Scalar
    ensures { result ≡ add_of x y }
{
    scalars::yadzvego_interval_add(x, y)
}

#[unsafe(no_mangle)]
pub extern "C" fn yadzvego_interval_sub(x: Scalar, y: Scalar) -> Scalar
    ensures { result ≡ sub_of x y }
{
    scalars::yadzvego_interval_sub(x, y)
}

#[unsafe(no_mangle)]
pub extern "C" fn yadzvego_interval_mul(x: Scalar, y: Scalar) -> Scalar
    ensures { result ≡ mul_of x y }
{
    scalars::yadzvego_interval_mul(x, y)
}

#[unsafe(no_mangle)]
pub extern "C" fn yadzvego_interval_neg(x: Scalar) -> Scalar
    ensures { result ≡ neg_of x }
{
    scalars::yadzvego_interval_neg(x)
}

#[unsafe(no_mangle)]
pub extern "C" fn yadzvego_interval_div(x: Scalar, y: Scalar) -> ScalarResult
    ensures { result ≡ scalar_result_of (div_of x y) }
{
    scalars::yadzvego_interval_div(x, y)
}

#[unsafe(no_mangle)]
pub extern "C" fn yadzvego_interval_abs(x: Scalar) -> Scalar
    ensures { result ≡ abs_of x }
{
    scalars::yadzvego_interval_abs(x)
}

#[unsafe(no_mangle)]
pub extern "C" fn yadzvego_interval_sqrt(x: Scalar) -> ScalarResult
    ensures { result ≡ scalar_result_of (sqrt_of x) }
{
    scalars::yadzvego_interval_sqrt(x)
}

#[unsafe(no_mangle)]
pub extern "C" fn yadzvego_interval_could_be_equal(x: Scalar, y: Scalar) -> bool
    ensures { result ≡ could_be_equal x y }
{
    scalars::yadzvego_interval_could_be_equal(x, y)
}

#[unsafe(no_mangle)]
pub extern "C" fn yadzvego_interval_definitely_not_equal(x: Scalar, y: Scalar) -> bool
    ensures { result ≡ definitely_not_equal x y }
{
    scalars::yadzvego_interval_definitely_not_equal(x, y)
}

#[unsafe(no_mangle)]
pub extern "C" fn yadzvego_interval_could_be_greater(x: Scalar, y: Scalar) -> bool
    ensures { result ≡ could_be_greater x y }
{
    scalars::yadzvego_interval_could_be_greater(x, y)
}

#[unsafe(no_mangle)]
pub extern "C" fn yadzvego_interval_definitely_greater(x: Scalar, y: Scalar) -> bool
    ensures { result ≡ definitely_greater x y }
{
    scalars::yadzvego_interval_definitely_greater(x, y)
}

#[unsafe(no_mangle)]
pub extern "C" fn yadzvego_interval_could_be_less(x: Scalar, y: Scalar) -> bool
    ensures { result ≡ could_be_less x y }
{
    scalars::yadzvego_interval_could_be_less(x, y)
}

#[unsafe(no_mangle)]
pub extern "C" fn yadzvego_interval_definitely_less(x: Scalar, y: Scalar) -> bool
    ensures { result ≡ definitely_less x y }
{
    scalars::yadzvego_interval_definitely_less(x, y)
}

#[unsafe(no_mangle)]
pub extern "C" fn yadzvego_interval_is_zero(x: Scalar) -> bool
    ensures { result ≡ is_zero x }
{
    scalars::yadzvego_interval_is_zero(x)
}

#[unsafe(no_mangle)]
pub extern "C" fn yadzvego_interval_is_finite(x: Scalar) -> bool
    ensures { result ≡ is_finite x }
{
    scalars::yadzvego_interval_is_finite(x)
}

#[unsafe(no_mangle)]
pub extern "C" fn yadzvego_interval_midpoint(x: Scalar) -> Scalar
    ensures { result ≡ midpoint x }
{
    scalars::yadzvego_interval_midpoint(x)
}

#[unsafe(no_mangle)]
pub extern "C" fn yadzvego_interval_is_sharp(x: Scalar) -> bool
    ensures { result ≡ is_sharp x }
{
    scalars::yadzvego_interval_is_sharp(x)
}

#[unsafe(no_mangle)]
pub extern "C" fn yadzvego_interval_lower(x: Scalar) -> Scalar
    ensures { result ≡ lower x }
{
    scalars::yadzvego_interval_lower(x)
}

#[unsafe(no_mangle)]
pub extern "C" fn yadzvego_interval_upper(x: Scalar) -> Scalar
    ensures { result ≡ upper x }
{
    scalars::yadzvego_interval_upper(x)
}

#[unsafe(no_mangle)]
pub extern "C" fn yadzvego_interval_sharpen(x: Scalar) -> Scalar
    ensures { result ≡ sharpen x }
{
    scalars::yadzvego_interval_sharpen(x)
}

#[unsafe(no_mangle)]
pub extern "C" fn yadzvego_interval_max(x: Scalar, y: Scalar) -> Scalar
    ensures { result ≡ max_of x y }
{
    scalars::yadzvego_interval_max(x, y)
}
