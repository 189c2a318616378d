// Arithmetic, absolute value and root.
//
// A result is rounded to the nearest float, which may lie on either side of the exact one. So each end is stepped
// outward by one float: the exact result is then inside, and no rounding mode has to be set. Where a result needs no
// rounding, as a negation or an absolute value, nothing is stepped.
ghost use Rattle.std.specs.Prelude.{◌≡◌, ◌+ℤ◌, ◌-ℤ◌};
ghost use Rattle.interval.specs.Enclosure.{Gives, GivesResult, Encloses, EnclosesProduct, EnclosesNegation};
ghost use Rattle.interval.specs.Enclosure.{EnclosesQuotient, EnclosesSize, EnclosesRoot};
ghost use Rattle.interval.specs.Result.{result_of};
ghost use Rattle.interval.specs.Scalar.{add_of, sub_of, mul_of, neg_of, div_of, abs_of, sqrt_of, spread, holds_zero};
ghost use Rattle.interval.specs.Scalar.{inverse_of, clamped};

use crate::float::{greatest_of, least_of, max_of};
use crate::root::nearest_root;
use crate::step::{next_down, next_up};
use crate::{GeopError, Scalar};

// The least and the greatest of four products, stepped outward. A product of two intervals is least and greatest where
// both factors are ends, and which ends depends on the signs, so all four products are compared.
fn spread_of(p: f64, q: f64, r: f64, s: f64) -> Scalar
    ensures { result ≡ spread p q r s }
{
    Scalar {
        lo: next_down(least_of(p, q, r, s)),
        hi: next_up(greatest_of(p, q, r, s)),
    }
}

// A lower end below zero counts as zero: an interval around a number that is not negative may reach below zero by
// rounding alone, and a root of what is left encloses that number's root.
fn clamped_at_zero(x: f64) -> f64
    ensures { result ≡ clamped x }
{
    if x < 0.0 {
        return 0.0;
    }
    x
}

impl Scalar {
    pub fn add(self, other: Scalar) -> Scalar
        ensures { Gives (add_of self other) (Encloses ◌+ℤ◌ self other) result }
    {
        Scalar {
            lo: next_down(self.lo + other.lo),
            hi: next_up(self.hi + other.hi),
        }
    }

    pub fn sub(self, other: Scalar) -> Scalar
        ensures { Gives (sub_of self other) (Encloses ◌-ℤ◌ self other) result }
    {
        Scalar {
            lo: next_down(self.lo - other.hi),
            hi: next_up(self.hi - other.lo),
        }
    }

    pub fn mul(self, other: Scalar) -> Scalar
        ensures { Gives (mul_of self other) (EnclosesProduct self other) result }
    {
        spread_of(
            self.lo * other.lo,
            self.lo * other.hi,
            self.hi * other.lo,
            self.hi * other.hi,
        )
    }

    pub fn neg(self) -> Scalar
        ensures { Gives (neg_of self) (EnclosesNegation self) result }
    {
        Scalar {
            lo: -self.hi,
            hi: -self.lo,
        }
    }

    fn holds_zero(self) -> bool
        ensures { result ≡ holds_zero self }
    {
        self.lo <= 0.0 && self.hi >= 0.0
    }

    // The reciprocals of the ends, exchanged and stepped outward. Refused where the interval could be zero.
    pub fn inverse(self) -> Result<Scalar, GeopError>
        ensures { result_of result ≡ inverse_of self }
    {
        if self.holds_zero() {
            return Err(GeopError::DivisorContainsZero);
        }
        Ok(Scalar {
            lo: next_down(1.0 / self.hi),
            hi: next_up(1.0 / self.lo),
        })
    }

    // The product with the divisor's inverse, as in the Rust: a quotient of the ends would round otherwise. Refused
    // where the divisor could be zero, since the quotient could then be any number.
    pub fn div(self, other: Scalar) -> Result<Scalar, GeopError>
        ensures { GivesResult (div_of self other) (EnclosesQuotient self other) result }
    {
        let inverse = other.inverse()?;
        Ok(self.mul(inverse))
    }

    pub fn abs(self) -> Scalar
        ensures { Gives (abs_of self) (EnclosesSize self) result }
    {
        if self.lo >= 0.0 {
            return self;
        }
        if self.hi <= 0.0 {
            return Scalar {
                lo: -self.hi,
                hi: -self.lo,
            };
        }
        Scalar {
            lo: 0.0,
            hi: max_of(-self.lo, self.hi),
        }
    }

    // Refused where the interval is definitely negative. The lower end is stepped down last, so it may lie below zero.
    pub fn sqrt(self) -> Result<Scalar, GeopError>
        ensures { GivesResult (sqrt_of self) (EnclosesRoot self) result }
    {
        if self.hi < 0.0 {
            return Err(GeopError::SqrtOfNegative);
        }
        Ok(Scalar {
            lo: next_down(nearest_root(clamped_at_zero(self.lo))),
            hi: next_up(nearest_root(self.hi)),
        })
    }
}
