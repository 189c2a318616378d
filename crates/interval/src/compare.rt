// Three-valued comparisons, and finiteness. Intervals that overlap decide nothing about the numbers inside: what is
// definite holds for every choice of the two, what could be holds for some, and neither is the other's negation where
// an end is NaN.
ghost use Rattle.std.specs.Prelude.{◌≡◌};
ghost use Rattle.interval.specs.Scalar.{could_be_equal, definitely_not_equal, could_be_greater, definitely_greater};
ghost use Rattle.interval.specs.Scalar.{could_be_less, definitely_less, is_zero, is_finite};

use crate::Scalar;

impl Scalar {
    pub fn could_be_equal(self, other: Scalar) -> bool
        ensures { result ≡ could_be_equal self other }
    {
        self.lo <= other.hi && other.lo <= self.hi
    }

    pub fn definitely_not_equal(self, other: Scalar) -> bool
        ensures { result ≡ definitely_not_equal self other }
    {
        self.hi < other.lo || self.lo > other.hi
    }

    pub fn could_be_greater(self, other: Scalar) -> bool
        ensures { result ≡ could_be_greater self other }
    {
        self.hi > other.lo
    }

    pub fn definitely_greater(self, other: Scalar) -> bool
        ensures { result ≡ definitely_greater self other }
    {
        self.lo > other.hi
    }

    pub fn could_be_less(self, other: Scalar) -> bool
        ensures { result ≡ could_be_less self other }
    {
        self.lo < other.hi
    }

    pub fn definitely_less(self, other: Scalar) -> bool
        ensures { result ≡ definitely_less self other }
    {
        self.hi < other.lo
    }

    // Whether no value it could be is less or more than zero: true of a NaN end too.
    pub fn is_zero(self) -> bool
        ensures { result ≡ is_zero self }
    {
        !(self.lo < 0.0) && !(self.hi > 0.0)
    }

    pub fn is_finite(self) -> bool
        ensures { result ≡ is_finite self }
    {
        self.lo.is_finite() && self.hi.is_finite()
    }
}
