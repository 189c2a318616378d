// Vectors of at most 12 scalars as the steps of `minimize` use them, a point moved by one, and whether two points are
// the same.
ghost use Rattle.std.specs.Prelude.{◌*◌, ◌≤◌, ◌<◌, ◌≡◌, length};
ghost use Rattle.interval.specs.Result as scalar;
ghost use Rattle.interval.specs.Scalar.{pick, zero_s, inverse_of, div_of};
ghost use Rattle.linear.specs.LinearResult.{result_of};
ghost use Rattle.linear.specs.Choose.{choose_of};
ghost use Rattle.linear.specs.Flat.{at, along};
ghost use Rattle.linear.specs.Norm.{norm_of};
ghost use Rattle.run.specs.Vectors.{all_finite, chosen_of, or_zero, fill_to, unit_at, combined_to, spread_to, moved_of};
ghost use Rattle.run.specs.Vectors.{same_of};

use interval::{GeopError, Scalar};
use linear::{LinearError, at, choose, clear, minus_scaled, norm, put};

// Whether the first k scalars are finite.
pub fn all_finite(xs: &[f64], k: usize) -> bool
    ensures { result ≡ all_finite xs.now k }
{
    for i in 0..k {
        if !at(xs, i).is_finite() {
            return false;
        }
    }
    true
}

// The length of the first k scalars.
pub fn norm_of(xs: &[f64], k: usize) -> Result<Scalar, LinearError>
    requires { (k ≤ 24) × (2 * k ≤ length xs.now) }
    ensures { result_of result ≡ norm_of (at xs.now) k }
{
    let q = 2 * k;
    norm(k, &xs[..q])
}

// k scalars of xs from base on, each chosen, from the start of `to` on.
pub fn chosen(xs: &[f64], base: usize, k: usize, to: &mut [f64])
    requires { (base < 65536) × (k < 65536) }
    ensures { to.new ≡ chosen_of to.old xs.now base k }
{
    for i in 0..k {
        put(to, i, choose(at(xs, base + i)));
    }
}

// Chosen, or zero where it is not in use.
pub fn choose_if(in_use: bool, v: Scalar) -> Scalar
    ensures { result ≡ pick in_use (choose_of v) zero_s }
{
    if in_use {
        return choose(v);
    }
    Scalar::ZERO
}

// The value, or zero where a division is refused.
pub fn or_zero(q: Result<Scalar, GeopError>) -> Scalar
    ensures { result ≡ or_zero (scalar.result_of q) }
{
    q.unwrap_or(Scalar::ZERO)
}

// x over what `inverse` is of: one inverse serves many quotients.
pub fn quotient(x: Scalar, inverse: Result<Scalar, GeopError>) -> Result<Scalar, GeopError>
    ensures { (y : Scalar) → scalar.result_of inverse ≡ inverse_of y → scalar.result_of result ≡ div_of x y }
{
    Ok(x.mul(inverse?))
}

// k scalars of v from v0 on over a length, chosen, zero where that is refused, from t0 on in `to`.
pub fn unit(v: &[f64], v0: usize, length: Scalar, k: usize, to: &mut [f64], t0: usize)
    requires { (v0 < 65536) × ((t0 < 65536) × (k < 65536)) }
    ensures { to.new ≡ fill_to to.old t0 (unit_at (along v.now v0 1) length) k }
{
    let inverse = length.inverse();
    for p in 0..k {
        let x = at(v, v0 + p);
        put(to, t0 + p, choose(or_zero(quotient(x, inverse))));
    }
}

// d and the first `count` rows, each times its weight, chosen after each.
pub fn combine(k: usize, weights: &[f64], rows: &[f64], d: &mut [f64], count: usize)
    requires { (k < 65536) × (count < 4096) }
    ensures { d.new ≡ combined_to k weights.now rows.now d.old count }
{
    for t in 0..count {
        let w = at(weights, t);
        minus_scaled(d, 0, w.neg(), rows, 12 * t, k);
    }
}

// The first `count` scalars of `from`, each at the place that `places` names, into a clear vector.
pub fn spread(places: &[usize], from: &[f64], count: usize, to: &mut [f64])
    requires { (length to.old ≡ 24) × (count ≤ length places.now) }
    ensures { to.new ≡ spread_to places.now from.now count }
{
    clear(to);
    for t in 0..count {
        put(to, places[t], at(from, t));
    }
}

// Where d takes the point x, sharp, into a clear vector.
pub fn moved(n: usize, x: &[f64], d: &[f64], out: &mut [f64])
    requires { length out.old ≡ 24 }
    ensures { out.new ≡ moved_of n x.now d.now }
{
    clear(out);
    for i in 0..n {
        let v = at(x, i);
        let w = v.add(at(d, i));
        put(out, i, w.sharpen());
    }
}

// Whether no variable of two points is told apart: a step that moves none by more than its rounding is no step.
pub fn same(n: usize, a: &[f64], b: &[f64]) -> bool
    ensures { result ≡ same_of n a.now b.now }
{
    for i in 0..n {
        let v = at(a, i);
        if !v.could_be_equal(at(b, i)) {
            return false;
        }
    }
    true
}
