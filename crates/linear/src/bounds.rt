// An interval by two upper bounds: that of its numbers with their signs turned, -lo, and hi. To step the lower end down
// is to step -lo up, so both ends are worked out alike, side by side, and by no test of a sign.
ghost use Rattle.std.specs.Prelude.{◌≡◌, not, T};
ghost use Rattle.std.specs.Float.{binary64};
ghost use Rattle.std.specs.Float.Ieee.{add, is_nan};
ghost use Rattle.interval.specs.Scalar.{zero64, add_of, sub_of, mul_of, is_sharp};
ghost use Rattle.interval.specs.Step.{next_up};
ghost use Rattle.interval.specs.declared.Scalar.{Scalar};
ghost use Rattle.linear.specs.Bounds.{bounds_of, scalar_of, is_proper, unsigned, Bounding, OfProduct};

use interval::{Scalar, greater_of, greatest_of};

// -lo and hi.
#[derive(Clone, Copy)]
pub struct Bounds {
    pub below: f64,
    pub above: f64,
}

// The least float above 0.
const LEAST: f64 = 5e-324;

// The next float up from a number that is not -0: one pattern less for a negative number, one more for another, and
// infinity stays.
fn step_on(x: f64) -> f64
    requires { T (not (is_nan x)) × (add binary64 x zero64 ≡ x) }
    ensures { result ≡ next_up x }
{
    let b = f64::to_bits(x);
    f64::from_bits(b - 2 * (b / 9223372036854775808) + u64::from(x <= f64::MAX))
}

// The next float up from a number: a +0 added makes +0 of -0 and changes no other.
fn step_up(x: f64) -> f64
    requires { T (not (is_nan x)) }
    ensures { result ≡ next_up x }
{
    step_on(x + 0.0)
}

// The bounds of x y, with -0 made +0, so that no sum with them is -0.
fn product(x: Scalar, y: Scalar) -> Bounds
    ensures { result ≡ unsigned (bounds_of (mul_of x y)) }
{
    let nl = -x.lo;
    let nh = -x.hi;
    Bounds {
        below: step_up(greatest_of(nl * y.lo, nl * y.hi, nh * y.lo, nh * y.hi)) + 0.0,
        above: step_up(greatest_of(x.lo * y.lo, x.lo * y.hi, x.hi * y.lo, x.hi * y.hi)) + 0.0,
    }
}

// The same for points x and y: one product in place of four.
fn point_product(x: Scalar, y: Scalar) -> Bounds
    requires { T (is_sharp x) × T (is_sharp y) }
    ensures { result ≡ unsigned (bounds_of (mul_of x y)) }
{
    let p = x.lo * y.lo;
    Bounds {
        below: step_up(greater_of(f64::NEG_INFINITY, -p)) + 0.0,
        above: step_up(greater_of(f64::NEG_INFINITY, p)) + 0.0,
    }
}

// The same of q q. A zero over a number is [-2^-1074, 2^-1074], and so is its square, which needs no product of
// subnormal numbers.
fn square(q: Scalar) -> Bounds
    ensures { result ≡ unsigned (bounds_of (mul_of q q)) }
{
    if q.hi == LEAST && q.lo == -LEAST {
        return Bounds {
            below: LEAST,
            above: LEAST,
        };
    }
    product(q, q)
}

// The bounds of an interval.
pub fn bounds_of(x: Scalar) -> Bounds
    ensures { result ≡ bounds_of x }
{
    Bounds {
        below: -x.lo,
        above: x.hi,
    }
}

// The interval of its bounds.
pub fn scalar_of(b: Bounds) -> Scalar
    ensures { result ≡ scalar_of b }
{
    Scalar {
        lo: -b.below,
        hi: b.above,
    }
}

// Whether both bounds are numbers above minus infinity. Then a product's bounds, which are so too, can be added with no
// infinities of two signs meeting, and a sum needs no test for NaN.
pub fn is_proper(b: Bounds) -> bool
    ensures { result ≡ is_proper b }
{
    b.below > f64::NEG_INFINITY && b.above > f64::NEG_INFINITY
}

// The bounds of z plus a product, from those of the product. No sum here is -0, so step_on is enough, and a loop that
// adds products waits for one addition the less in each turn.
fn plus(z: Bounds, p: Bounds) -> Bounds
    requires { T (is_proper z) × OfProduct p }
    ensures { (x y : Scalar) → p ≡ unsigned (bounds_of (mul_of x y)) →
        Bounding (add_of (scalar_of z) (mul_of x y)) result }
{
    Bounds {
        below: step_on(z.below + p.below),
        above: step_on(z.above + p.above),
    }
}

// The bounds of z less a product.
fn minus(z: Bounds, p: Bounds) -> Bounds
    requires { T (is_proper z) × OfProduct p }
    ensures { (x y : Scalar) → p ≡ unsigned (bounds_of (mul_of x y)) →
        Bounding (sub_of (scalar_of z) (mul_of x y)) result }
{
    Bounds {
        below: step_on(z.below + p.above),
        above: step_on(z.above + p.below),
    }
}

// The bounds of z + x y.
pub fn plus_product(z: Bounds, x: Scalar, y: Scalar) -> Bounds
    requires { T (is_proper z) }
    ensures { Bounding (add_of (scalar_of z) (mul_of x y)) result }
{
    plus(z, product(x, y))
}

// The bounds of z - x y.
pub fn minus_product(z: Bounds, x: Scalar, y: Scalar) -> Bounds
    requires { T (is_proper z) }
    ensures { Bounding (sub_of (scalar_of z) (mul_of x y)) result }
{
    minus(z, product(x, y))
}

// The bounds of z + x y for points x and y.
pub fn plus_points(z: Bounds, x: Scalar, y: Scalar) -> Bounds
    requires { T (is_proper z) × T (is_sharp x) × T (is_sharp y) }
    ensures { Bounding (add_of (scalar_of z) (mul_of x y)) result }
{
    plus(z, point_product(x, y))
}

// The bounds of z - x y for points x and y.
pub fn minus_points(z: Bounds, x: Scalar, y: Scalar) -> Bounds
    requires { T (is_proper z) × T (is_sharp x) × T (is_sharp y) }
    ensures { Bounding (sub_of (scalar_of z) (mul_of x y)) result }
{
    minus(z, point_product(x, y))
}

// The bounds of z + q q.
pub fn plus_square(z: Bounds, q: Scalar) -> Bounds
    requires { T (is_proper z) }
    ensures { Bounding (add_of (scalar_of z) (mul_of q q)) result }
{
    plus(z, square(q))
}

// The bounds of x y, by the sign of y: the ends of x are read one by one, which is faster where they were just stored.
fn product_fresh(x: Scalar, y: Scalar) -> Bounds
    ensures { Bounding (mul_of x y) result }
{
    let nl = -y.lo;
    let nh = -y.hi;
    Bounds {
        below: step_up(greatest_of(x.lo * nl, x.lo * nh, x.hi * nl, x.hi * nh)),
        above: step_up(greatest_of(x.lo * y.lo, x.lo * y.hi, x.hi * y.lo, x.hi * y.hi)),
    }
}

// The bounds of z - x y, where x was just stored.
pub fn minus_fresh(z: Bounds, x: Scalar, y: Scalar) -> Bounds
    requires { T (is_proper z) }
    ensures { Bounding (sub_of (scalar_of z) (mul_of x y)) result }
{
    let p = product_fresh(x, y);
    Bounds {
        below: step_up(z.below + p.above),
        above: step_up(z.above + p.below),
    }
}
