// What an interval is as a set: its ends, its middle, and the greater of two.
ghost use Rattle.std.specs.Prelude.{◌≡◌};
ghost use Rattle.interval.specs.Enclosure.{Gives, Encloses, maxℤ};
ghost use Rattle.interval.specs.Scalar.{midpoint, is_sharp, lower, upper, sharpen, union, max_of};

use crate::Scalar;
use crate::float::{greater_of, max_of, min_of};

impl Scalar {
    // (lo + hi) / 2 at both ends, by two roundings: infinite where the sum overflows.
    pub fn midpoint(self) -> Scalar
        ensures { result ≡ midpoint self }
    {
        Scalar::degenerate((self.lo + self.hi) / 2.0)
    }

    pub fn is_sharp(self) -> bool
        ensures { result ≡ is_sharp self }
    {
        self.lo == self.hi
    }

    pub fn lower(self) -> Scalar
        ensures { result ≡ lower self }
    {
        Scalar::degenerate(self.lo)
    }

    pub fn upper(self) -> Scalar
        ensures { result ≡ upper self }
    {
        Scalar::degenerate(self.hi)
    }

    // The midpoint, where any value within would do: a step of the solver is such a choice, and a sharp one does not
    // widen what is worked out from it.
    pub fn sharpen(self) -> Scalar
        ensures { result ≡ sharpen self }
    {
        self.midpoint()
    }

    // The smallest interval with both in it; a NaN end is passed over.
    fn union_of(self, other: Scalar) -> Scalar
        ensures { result ≡ union self other }
    {
        Scalar {
            lo: min_of(self.lo, other.lo),
            hi: max_of(self.hi, other.hi),
        }
    }

    // The greater lower end and the greater upper end, joined, which sorts them where an argument's ends are inverted.
    pub fn max(self, other: Scalar) -> Scalar
        ensures { Gives (max_of self other) (Encloses maxℤ self other) result }
    {
        let lo = Scalar::degenerate(greater_of(self.lo, other.lo));
        let hi = Scalar::degenerate(greater_of(self.hi, other.hi));
        lo.union_of(hi)
    }
}
