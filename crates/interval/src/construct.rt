// Construction.
ghost use Rattle.std.specs.Prelude.{◌≡◌};
ghost use Rattle.interval.specs.Result.{result_of};
ghost use Rattle.interval.specs.Scalar.{degenerate, from_i64, from_ratio};

use crate::step::{next_down, next_up};
use crate::{GeopError, Scalar};

impl Scalar {
    pub const ZERO: Scalar = Scalar { lo: 0.0, hi: 0.0 };

    pub const ONE: Scalar = Scalar { lo: 1.0, hi: 1.0 };

    pub const TWO: Scalar = Scalar { lo: 2.0, hi: 2.0 };

    // The point interval.
    pub fn degenerate(v: f64) -> Scalar
        ensures { result ≡ degenerate v }
    {
        Scalar { lo: v, hi: v }
    }

    // The nearest float: sharp, so it encloses v only where v is a float.
    pub fn from_i64(v: i64) -> Scalar
        ensures { result ≡ from_i64 v }
    {
        Scalar::degenerate(std::num::nearest_i64_to_f64(v))
    }

    // The quotient of the nearest floats, stepped outward, so it encloses num / den where both are floats.
    pub fn from_ratio(num: i64, den: i64) -> Result<Scalar, GeopError>
        ensures { result_of result ≡ from_ratio num den }
    {
        if den == 0 {
            return Err(GeopError::DivisorContainsZero);
        }
        let exact = std::num::nearest_i64_to_f64(num) / std::num::nearest_i64_to_f64(den);
        Ok(Scalar {
            lo: next_down(exact),
            hi: next_up(exact),
        })
    }
}
