// The system reduced to the free directions, and the step along them: what it adds to the correction changes no
// constraint to first order, and the damped curvature need be positive along them alone. Vectors have 12 scalars,
// matrices rows of 12.
ghost use Rattle.std.specs.Prelude.{◌<◌, ◌≤◌, ◌+◌, ◌*◌, ◌/◌, ◌%◌, ◌≡◌, length};
ghost use Rattle.interval.specs.Scalar.{add_of, neg_of};
ghost use Rattle.linear.specs.Choose.{choose_of};
ghost use Rattle.linear.specs.Dot.{dot_to};
ghost use Rattle.linear.specs.Flat.{along, at, put, list_to};
ghost use Rattle.run.specs.Limits.{VARIABLES};
ghost use Rattle.run.specs.Reduced.{h_times_at, force_of, pull_of, reduced_of, against_of};
ghost use Rattle.run.specs.Vectors.{row, vector, fill_to, matrix, fill_rows};
ghost use Rattle.run.specs.program.Reduced.{curved, lower_at, weights_result, solved_with, spanned, free_part};

use crate::vectors::combine;
use interval::Scalar;
use linear::{LinearError, at, choose, put, row_dot, two_rows};

// Row i of H times the vector that starts at v0 in v, chosen.
fn h_times_at(k: usize, h: &[f64], v: &[f64], v0: usize, i: usize) -> Scalar
    requires { i < 12 }
    ensures { result ≡ choose_of (dot_to (row h.now i) (along v.now v0 1) k) }
{
    choose(row_dot(h, 12 * i, v, v0, k))
}

// Entry i of g + H v.
fn slope_at(k: usize, h: &[f64], g: &[f64], v: &[f64], i: usize) -> Scalar
    requires { i < 12 }
    ensures { result ≡ add_of (at g.now i)
        (h_times_at (curved k h.now g.now) (at v.now) i) }
{
    at(g, i).add(h_times_at(k, h, v, 0, i))
}

// g + H v, chosen, into a clear vector.
fn force(k: usize, h: &[f64], g: &[f64], v: &[f64], out: &mut [f64])
    requires { (k ≤ VARIABLES) × (out.old ≡ vector) }
    ensures { out.new ≡ force_of (curved k h.now g.now) v.now }
{
    for i in 0..k {
        put(out, i, choose(slope_at(k, h, g, v, i)));
    }
}

// -(g + H v), chosen, into a clear vector.
pub fn pull(k: usize, h: &[f64], g: &[f64], v: &[f64], out: &mut [f64])
    requires { (k ≤ VARIABLES) × (out.old ≡ vector) }
    ensures { out.new ≡ pull_of (curved k h.now g.now) v.now }
{
    for i in 0..k {
        put(out, i, choose(slope_at(k, h, g, v, i).neg()));
    }
}

// Entries i and i + 1 of row t of hz: H times row t of z.
fn two_h_times(k: usize, h: &[f64], z: &[f64], t: usize, hz: &mut [f64], i: usize)
    requires { (t < 12) × (i < 11) }
    ensures { hz.new ≡ put (put hz.old (12 * t + i)
        (choose_of (dot_to (row h.now i) (row z.now t) k))) (12 * t + (i + 1))
        (choose_of (dot_to (row h.now (i + 1)) (row z.now t) k)) }
{
    let d = two_rows(h, 12 * i, 12 * i + 12, z, 12 * t, k);
    put(hz, 12 * t + i, choose(d.first));
    put(hz, 12 * t + (i + 1), choose(d.second));
}

// H times row t of z, as row t of hz.
fn h_times_row(k: usize, h: &[f64], z: &[f64], t: usize, hz: &mut [f64])
    requires { (k ≤ VARIABLES) × (t < 12) }
    ensures { hz.new ≡ fill_to hz.old (12 * t)
        (λ i. choose_of (dot_to (row h.now i) (row z.now t) k)) k }
{
    let half = k / 2;
    for p in 0..half {
        two_h_times(k, h, z, t, hz, 2 * p);
    }
    if 2 * half == k {
        return;
    }
    let i = 2 * half;
    put(hz, 12 * t + i, h_times_at(k, h, z, 12 * t, i));
}

// H times each direction, into a clear matrix.
fn h_times_rows(k: usize, count: usize, h: &[f64], z: &[f64], hz: &mut [f64])
    requires { (k ≤ VARIABLES) × ((count ≤ 12) × (hz.old ≡ matrix)) }
    ensures { hz.new ≡ fill_rows matrix
        (λ t i. choose_of (dot_to (row h.now i) (row z.now t) k)) k count }
{
    for t in 0..count {
        h_times_row(k, h, z, t, hz);
    }
}

// The product of direction i and of H times direction j, chosen; zero above the diagonal, where no factor reads it.
fn reduced_at(k: usize, z: &[f64], hz: &[f64], i: usize, j: usize) -> Scalar
    requires { (i < 12) × (j < 12) }
    ensures { result ≡ lower_at k z.now hz.now i j }
{
    if i < j {
        return Scalar::ZERO;
    }
    choose(row_dot(z, 12 * i, hz, 12 * j, k))
}

// The products of the directions and of H times each, packed, the lower triangle.
fn reduced(k: usize, count: usize, z: &[f64], hz: &[f64], out: &mut [f64])
    requires { (count ≤ 12) × (length out.old ≡ 2 * (count * count)) }
    ensures { out.new
        ≡ list_to (λ p. lower_at k z.now hz.now (p / count) (p % count)) (count * count) }
{
    let q = count * count;
    for p in 0..q {
        put(out, p, reduced_at(k, z, hz, p / count, p % count));
    }
}

// -Zᵀ force, chosen.
fn against(k: usize, count: usize, z: &[f64], force: &[f64], out: &mut [f64])
    requires { (count ≤ 12) × (length out.old ≡ 2 * count) }
    ensures { out.new
        ≡ list_to (λ t. choose_of (neg_of (dot_to (row z.now t) (at force.now) k))) count }
{
    for t in 0..count {
        let x = row_dot(z, 12 * t, force, 0, k);
        put(out, t, choose(x.neg()));
    }
}

// The weights for a reduced matrix, in place of the right-hand side; whether there are any: none where a pivot of its
// factor is left out.
fn weights_for(t: usize, a: &[f64], w: &mut [f64]) -> Result<bool, LinearError>
    requires { (t ≤ 12) × ((length a.now ≡ 2 * (t * t)) × (length w.old ≡ 2 * t)) }
    ensures { weights_result result w.new ≡ solved_with t a.now w.old }
{
    let q = 2 * t;
    let e = 2 * (t * t);
    let mut x = [0.0; 24];
    let mut l = [0.0; 288];
    let mut left_out = [false; 12];
    linear::cholesky(t, a, &mut l[..e], &mut left_out[..t])?;
    let marks = &left_out[..t];
    if marks.contains(&true) {
        return Ok(false);
    }
    linear::solve_cholesky(t, &l[..e], marks, w, &mut x[..q])?;
    linear::sharp(t, &x[..q], w)?;
    Ok(true)
}

// The weights along Z against a force; whether there are any.
fn weigh(
    k: usize,
    count: usize,
    h: &[f64],
    z: &[f64],
    force: &[f64],
    w: &mut [f64],
) -> Result<bool, LinearError>
    requires { (k ≤ VARIABLES) × ((count ≤ 12) × (length w.old ≡ 2 * count)) }
    ensures { weights_result result w.new
        ≡ solved_with count (reduced_of (curved k h.now vector) (spanned count z.now))
        (against_of (curved k h.now vector) (spanned count z.now) force.now) }
{
    let e = 2 * (count * count);
    let mut hz = [0.0; 288];
    let mut a = [0.0; 288];
    h_times_rows(k, count, h, z, &mut hz);
    reduced(k, count, z, &hz, &mut a[..e]);
    against(k, count, z, force, w);
    weights_for(count, &a[..e], w)
}

// delta with the step along Z that is least for the model there; whether there is one: none where the damped curvature
// is not positive along Z.
pub fn free_part(
    k: usize,
    count: usize,
    h: &[f64],
    g: &[f64],
    z: &[f64],
    delta: &mut [f64],
) -> Result<bool, LinearError>
    requires { (k ≤ VARIABLES) × (count ≤ 12) }
    ensures { weights_result result delta.new
        ≡ free_part (curved k h.now g.now) delta.old
        (spanned count z.now) }
{
    let q = 2 * count;
    let mut f = [0.0; 24];
    let mut w = [0.0; 24];
    force(k, h, g, delta, &mut f);
    let is_positive = weigh(k, count, h, z, &f, &mut w[..q])?;
    if !is_positive {
        return Ok(false);
    }
    combine(k, &w[..q], z, delta, count);
    Ok(true)
}
