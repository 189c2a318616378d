// Z, an orthonormal basis of what the constraints leave free: the unit directions with what Q leaves of them, taken one
// at a time by the longest remainder, of which rounding spoils the least. Two remainders are worked on at a time, since
// neither waits for the other. Matrices have rows of 12.
ghost use Rattle.std.specs.Prelude.{◌<◌, ◌≤◌, ◌+◌, ◌-◌, ◌≡◌};
ghost use Rattle.interval.specs.Scalar.{pick, definitely_greater};
ghost use Rattle.run.specs.Limits.{VARIABLES, CONSTRAINTS};
ghost use Rattle.run.specs.NullSpace.{part_off, left_after, remainders_to, without_to, square_of, directions_to};
ghost use Rattle.run.specs.NullSpace.{directions_of};
ghost use Rattle.run.specs.Vectors.{matrix};
ghost use Rattle.run.specs.program.NullSpace.{longest_in, directions_in, span_of, next_of, found_of};

use crate::vectors::unit;
use interval::Scalar;
use linear::{LinearError, choose, minus_scaled, put, row_dot, two_rows};

// Which remainder, and its square.
#[derive(Clone, Copy)]
pub struct Remainder {
    pub place: usize,
    pub square: Scalar,
}

// Row p of `left` without its part along row t of w.
fn part_off(k: usize, w: &[f64], t: usize, left: &mut [f64], p: usize)
    requires { (k ≤ VARIABLES) × ((t < 12) × (p < 12)) }
    ensures { left.new ≡ part_off k w.now t left.old p }
{
    let a = choose(row_dot(left, 12 * p, w, 12 * t, k));
    minus_scaled(left, 12 * p, a, w, 12 * t, k);
}

// The same of rows p and p + 1, whose parts do not wait for each other.
fn two_parts_off(k: usize, w: &[f64], t: usize, left: &mut [f64], p: usize)
    requires { (k ≤ VARIABLES) × ((t < 12) × (p < 11)) }
    ensures { left.new
        ≡ part_off k w.now t (part_off k w.now t left.old p) (p + 1) }
{
    let d = two_rows(left, 12 * p, 12 * p + 12, w, 12 * t, k);
    minus_scaled(left, 12 * p, choose(d.first), w, 12 * t, k);
    minus_scaled(left, 12 * p + 12, choose(d.second), w, 12 * t, k);
}

// Row p without its parts along the first r of q, one after the other.
fn left_after(k: usize, r: usize, q: &[f64], left: &mut [f64], p: usize)
    requires { (k ≤ VARIABLES) × ((r ≤ CONSTRAINTS) × (p < 12)) }
    ensures { left.new ≡ left_after k q.now left.old p r }
{
    for t in 0..r {
        part_off(k, q, t, left, p);
    }
}

// The same of rows p and p + 1.
fn two_left_after(k: usize, r: usize, q: &[f64], left: &mut [f64], p: usize)
    requires { (k ≤ VARIABLES) × ((r ≤ CONSTRAINTS) × (p < 11)) }
    ensures { left.new
        ≡ left_after k q.now (left_after k q.now left.old p r) (p + 1) r }
{
    for t in 0..r {
        two_parts_off(k, q, t, left, p);
    }
}

// The unit directions, with what is left of them after Q, into a clear matrix.
fn remainders(k: usize, r: usize, q: &[f64], left: &mut [f64])
    requires { (k ≤ VARIABLES) × ((r ≤ CONSTRAINTS) × (left.old ≡ matrix)) }
    ensures { left.new ≡ remainders_to k r q.now k }
{
    let half = k / 2;
    for h in 0..half {
        let p = 2 * h;
        put(left, 12 * p + p, Scalar::ONE);
        put(left, 12 * (p + 1) + (p + 1), Scalar::ONE);
        two_left_after(k, r, q, left, p);
    }
    if 2 * half == k {
        return;
    }
    let p = 2 * half;
    put(left, 12 * p + p, Scalar::ONE);
    left_after(k, r, q, left, p);
}

// The remainders without their parts along row t of z.
fn without(k: usize, z: &[f64], t: usize, left: &mut [f64])
    requires { (k ≤ VARIABLES) × (t < 12) }
    ensures { left.new ≡ without_to k z.now t left.old k }
{
    let half = k / 2;
    for h in 0..half {
        two_parts_off(k, z, t, left, 2 * h);
    }
    if 2 * half == k {
        return;
    }
    part_off(k, z, t, left, 2 * half);
}

// The square of the length of remainder p.
fn square(k: usize, left: &[f64], p: usize) -> Scalar
    requires { p < 12 }
    ensures { result ≡ square_of k left.now p }
{
    row_dot(left, 12 * p, left, 12 * p, k)
}

// The choice so far, or the remainder p where it is definitely longer.
fn longer(best: Remainder, p: usize, square: Scalar) -> Remainder
    ensures { result ≡ pick (definitely_greater square best.square) (record { place = p; square = square }) best }
{
    if square.definitely_greater(best.square) {
        return Remainder { place: p, square };
    }
    best
}

// The longest remainder.
fn longest(k: usize, left: &[f64]) -> Remainder
    requires { k ≤ VARIABLES }
    ensures { result ≡ longest_in k left.now (k - 1) }
{
    let mut best = Remainder {
        place: 0,
        square: square(k, left, 0),
    };
    for p in 1..k {
        best = longer(best, p, square(k, left, p));
    }
    best
}

// The longest remainder as one more direction, of at most `most`; whether it was long enough to be one.
fn take_longest(
    k: usize,
    count: usize,
    most: usize,
    z: &mut [f64],
    left: &mut [f64],
) -> Result<bool, LinearError>
    requires { (k ≤ VARIABLES) × ((count < most) × (most ≤ 12)) }
    ensures { next_of k (most - (count + 1)) result count z.new left.new
        ≡ span_of (directions_to k (most - count) (directions_in count z.old left.old)) }
{
    let best = longest(k, left);
    let length = best.square.sqrt()?.sharpen();
    if !length.definitely_greater(Scalar::ZERO) {
        return Ok(false);
    }
    unit(left, 12 * best.place, length, k, z, 12 * count);
    if count + 1 < most {
        without(k, z, count, left);
    }
    Ok(true)
}

// Z, from the first r rows of Q over k variables, into a clear matrix.
pub fn free_directions(k: usize, r: usize, q: &[f64], z: &mut [f64]) -> Result<usize, LinearError>
    requires { (k ≤ VARIABLES) × ((r ≤ CONSTRAINTS) × (z.old ≡ matrix)) }
    ensures { found_of result z.new ≡ span_of (directions_of k r q.now) }
{
    let mut left = [0.0; 288];
    let most = k.saturating_sub(r);
    remainders(k, r, q, &mut left);
    for count in 0..most {
        let is_longer = take_longest(k, count, most, z, &mut left)?;
        if !is_longer {
            return Ok(count);
        }
    }
    Ok(most)
}
