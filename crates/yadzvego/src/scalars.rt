// The interval arithmetic for C and Rust: each public function of the crate interval, by name. A scalar
// is passed and returned as its two ends. Every function takes every number, and equals the definition
// of the function beneath it.
ghost use Rattle.std.specs.Prelude.{◌≡◌};
ghost use Rattle.interval.specs.Result.{result_of, number_of};
ghost use Rattle.interval.specs.Step.{next_up, next_down};
ghost use Rattle.interval.specs.Scalar.{zero_s, one64, two64, degenerate, from_i64, from_ratio};
ghost use Rattle.interval.specs.Scalar.{add_of, sub_of, mul_of, neg_of, div_of, abs_of, sqrt_of, max_of};
ghost use Rattle.interval.specs.Scalar.{could_be_equal, definitely_not_equal, could_be_greater, definitely_greater};
ghost use Rattle.interval.specs.Scalar.{could_be_less, definitely_less};
ghost use Rattle.interval.specs.Scalar.{is_zero, is_finite, midpoint, is_sharp, lower, upper, sharpen};
ghost use Rattle.yadzvego.specs.ScalarResult.{scalar_result_of};

use interval::{GeopError, Scalar};

// What an operation gives that may refuse: number 0 and the value, or the number of the refusal, 5 for
// the root and 6 for the quotients, and zero.
#[repr(C)]
#[derive(Clone, Copy)]
pub struct ScalarResult {
    pub number: u64,
    pub value: Scalar,
}

pub fn number_of(e: GeopError) -> u64
    ensures { result ≡ number_of e }
{
    usize::from(e) as u64
}

fn scalar_result_of(r: Result<Scalar, GeopError>) -> ScalarResult
    ensures { result ≡ scalar_result_of (result_of r) }
{
    match r {
        Ok(x) => ScalarResult {
            number: 0,
            value: x,
        },
        Err(e) => ScalarResult {
            number: number_of(e),
            value: Scalar::ZERO,
        },
    }
}

pub fn yadzvego_interval_zero() -> Scalar
    ensures { result ≡ zero_s }
{
    Scalar::ZERO
}

pub fn yadzvego_interval_one() -> Scalar
    ensures { result ≡ degenerate one64 }
{
    Scalar::ONE
}

pub fn yadzvego_interval_two() -> Scalar
    ensures { result ≡ degenerate two64 }
{
    Scalar::TWO
}

pub fn yadzvego_interval_next_up(x: f64) -> f64
    ensures { result ≡ next_up x }
{
    interval::next_up(x)
}

pub fn yadzvego_interval_next_down(x: f64) -> f64
    ensures { result ≡ next_down x }
{
    interval::next_down(x)
}

pub fn yadzvego_interval_degenerate(v: f64) -> Scalar
    ensures { result ≡ degenerate v }
{
    Scalar::degenerate(v)
}

pub fn yadzvego_interval_from_i64(v: i64) -> Scalar
    ensures { result ≡ from_i64 v }
{
    Scalar::from_i64(v)
}

pub fn yadzvego_interval_from_ratio(num: i64, den: i64) -> ScalarResult
    ensures { result ≡ scalar_result_of (from_ratio num den) }
{
    scalar_result_of(Scalar::from_ratio(num, den))
}

pub fn yadzvego_interval_add(x: Scalar, y: Scalar) -> Scalar
    ensures { result ≡ add_of x y }
{
    x.add(y)
}

pub fn yadzvego_interval_sub(x: Scalar, y: Scalar) -> Scalar
    ensures { result ≡ sub_of x y }
{
    x.sub(y)
}

pub fn yadzvego_interval_mul(x: Scalar, y: Scalar) -> Scalar
    ensures { result ≡ mul_of x y }
{
    x.mul(y)
}

pub fn yadzvego_interval_neg(x: Scalar) -> Scalar
    ensures { result ≡ neg_of x }
{
    x.neg()
}

pub fn yadzvego_interval_div(x: Scalar, y: Scalar) -> ScalarResult
    ensures { result ≡ scalar_result_of (div_of x y) }
{
    scalar_result_of(x.div(y))
}

pub fn yadzvego_interval_abs(x: Scalar) -> Scalar
    ensures { result ≡ abs_of x }
{
    x.abs()
}

pub fn yadzvego_interval_sqrt(x: Scalar) -> ScalarResult
    ensures { result ≡ scalar_result_of (sqrt_of x) }
{
    scalar_result_of(x.sqrt())
}

pub fn yadzvego_interval_could_be_equal(x: Scalar, y: Scalar) -> bool
    ensures { result ≡ could_be_equal x y }
{
    x.could_be_equal(y)
}

pub fn yadzvego_interval_definitely_not_equal(x: Scalar, y: Scalar) -> bool
    ensures { result ≡ definitely_not_equal x y }
{
    x.definitely_not_equal(y)
}

pub fn yadzvego_interval_could_be_greater(x: Scalar, y: Scalar) -> bool
    ensures { result ≡ could_be_greater x y }
{
    x.could_be_greater(y)
}

pub fn yadzvego_interval_definitely_greater(x: Scalar, y: Scalar) -> bool
    ensures { result ≡ definitely_greater x y }
{
    x.definitely_greater(y)
}

pub fn yadzvego_interval_could_be_less(x: Scalar, y: Scalar) -> bool
    ensures { result ≡ could_be_less x y }
{
    x.could_be_less(y)
}

pub fn yadzvego_interval_definitely_less(x: Scalar, y: Scalar) -> bool
    ensures { result ≡ definitely_less x y }
{
    x.definitely_less(y)
}

pub fn yadzvego_interval_is_zero(x: Scalar) -> bool
    ensures { result ≡ is_zero x }
{
    x.is_zero()
}

pub fn yadzvego_interval_is_finite(x: Scalar) -> bool
    ensures { result ≡ is_finite x }
{
    x.is_finite()
}

pub fn yadzvego_interval_midpoint(x: Scalar) -> Scalar
    ensures { result ≡ midpoint x }
{
    x.midpoint()
}

pub fn yadzvego_interval_is_sharp(x: Scalar) -> bool
    ensures { result ≡ is_sharp x }
{
    x.is_sharp()
}

pub fn yadzvego_interval_lower(x: Scalar) -> Scalar
    ensures { result ≡ lower x }
{
    x.lower()
}

pub fn yadzvego_interval_upper(x: Scalar) -> Scalar
    ensures { result ≡ upper x }
{
    x.upper()
}

pub fn yadzvego_interval_sharpen(x: Scalar) -> Scalar
    ensures { result ≡ sharpen x }
{
    x.sharpen()
}

pub fn yadzvego_interval_max(x: Scalar, y: Scalar) -> Scalar
    ensures { result ≡ max_of x y }
{
    x.max(y)
}
