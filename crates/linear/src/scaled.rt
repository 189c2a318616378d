// A run of scalars less a multiple of another, each chosen: what a reflection does to a column. The choice is made by
// the two upper bounds of the difference, which have to be worked out for it anyway.
ghost use Rattle.std.specs.Prelude.{◌≡◌, ◌≤◌, T, length};
ghost use Rattle.interval.specs.Scalar.{degenerate, sub_of, mul_of};
ghost use Rattle.linear.specs.Bounds.{scalar_of, is_proper};
ghost use Rattle.linear.specs.Choose.{choose_of};
ghost use Rattle.linear.specs.Lengths.{BothInside};
ghost use Rattle.linear.specs.Scaled.{minus_scaled};

use crate::bounds::{Bounds, bounds_of, is_proper, minus_points, minus_product};
use crate::choices::choose;
use crate::dots::are_points;
use crate::flat::{ahead, at, at_inside, both_inside, put, put_inside};
use interval::{Scalar, lesser_of};

// The number chosen from an interval, by its bounds: zero is within where neither bound is negative, and the middle is
// half of above - below.
fn chosen(b: Bounds) -> f64
    requires { T (is_proper b) }
    ensures { degenerate result ≡ choose_of (scalar_of b) }
{
    let m = (b.above - b.below) / 2.0;
    if lesser_of(b.below, b.above) >= 0.0 {
        return 0.0;
    }
    m
}

// z - x y, chosen.
fn minus_chosen(z: Scalar, x: Scalar, y: Scalar) -> Scalar
    ensures { result ≡ choose_of (sub_of z (mul_of x y)) }
{
    let b = bounds_of(z);
    if is_proper(b) {
        return Scalar::degenerate(chosen(minus_product(b, x, y)));
    }
    choose(z.sub(x.mul(y)))
}

// minus_scaled where every place is inside, up to the first term whose factors are not both points or whose start is
// not proper; how many terms are done.
fn scaled_points_inside(
    v: &mut [f64],
    v0: usize,
    a: Scalar,
    w: &[f64],
    w0: usize,
    k: usize,
) -> usize
    requires { BothInside v0 1 (length v.old) w0 1 (length w.now) k }
    ensures { (result ≤ k) × (v.new ≡ minus_scaled v.old v0 a w.now w0 result) }
{
    for p in 0..k {
        let z = bounds_of(at_inside(v, v0 + p));
        let y = at_inside(w, w0 + p);
        if !are_points(a, y) {
            return p;
        }
        if !is_proper(z) {
            return p;
        }
        put_inside(v, v0 + p, Scalar::degenerate(chosen(minus_points(z, a, y))));
    }
    k
}

// minus_scaled where every place is inside.
fn scaled_inside(v: &mut [f64], v0: usize, a: Scalar, w: &[f64], w0: usize, k: usize)
    requires { BothInside v0 1 (length v.old) w0 1 (length w.now) k }
    ensures { v.new ≡ minus_scaled v.old v0 a w.now w0 k }
{
    let done = scaled_points_inside(v, v0, a, w, w0, k);
    for p in done..k {
        let x = minus_chosen(at_inside(v, v0 + p), a, at_inside(w, w0 + p));
        put_inside(v, v0 + p, x);
    }
}

// minus_scaled for every place.
fn scaled_cut(v: &mut [f64], v0: usize, a: Scalar, w: &[f64], w0: usize, k: usize)
    ensures { v.new ≡ minus_scaled v.old v0 a w.now w0 k }
{
    let mut i = v0;
    let mut j = w0;
    for _ in 0..k {
        let x = at(v, i).sub(a.mul(at(w, j)));
        put(v, i, choose(x));
        i = ahead(i, 1, v.len());
        j = ahead(j, 1, w.len());
    }
}

// minus_scaled by the ends of a: a caller has just worked them out, and to read them from memory as a pair waits until
// both are stored.
fn scaled_by(v: &mut [f64], v0: usize, lo: f64, hi: f64, w: &[f64], w0: usize, k: usize)
    ensures { v.new
        ≡ minus_scaled v.old v0 (record { lo = lo; hi = hi }) w.now w0 k }
{
    let a = Scalar { lo, hi };
    if both_inside(v0, 1, v.len(), w0, 1, w.len(), k) {
        scaled_inside(v, v0, a, w, w0, k);
    } else {
        scaled_cut(v, v0, a, w, w0, k);
    }
}

// k places of v from v0 on, less a times those of w from w0 on, each chosen.
pub fn minus_scaled(v: &mut [f64], v0: usize, a: Scalar, w: &[f64], w0: usize, k: usize)
    ensures { v.new ≡ minus_scaled v.old v0 a w.now w0 k }
{
    scaled_by(v, v0, a.lo, a.hi, w, w0, k);
}
