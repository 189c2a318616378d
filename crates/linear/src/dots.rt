// Sums of products. A sum whose places are all inside its slices is worked out with no test of a place, by the two
// upper bounds of an interval, and with one product for each term as long as both factors are points; the tests before
// it and the walk that is cut off at the slice's end give the same for every start, base, step and count.
//
// A slice that is handed on to a function which the compiler calls is made anew, `&a[..la]`: handed on as it came it is
// copied at the entry, ahead of every test, from where the caller has only just stored its two halves, and the machine
// waits for them (8 % of whole runs).
ghost use Rattle.std.specs.Prelude.{true, ◌&&◌, ◌≡◌, ◌≤◌, length};
ghost use Rattle.interval.specs.Scalar.{is_sharp};
ghost use Rattle.linear.specs.LinearResult.{result_of};
ghost use Rattle.linear.specs.Bounds.{bounds_of, scalar_of, Bounding, Plain, PlainTwo};
ghost use Rattle.linear.specs.Calls.{dot_reply};
ghost use Rattle.linear.specs.Dot.{plus_to, dot_to, minus_to, points_from};
ghost use Rattle.linear.specs.Flat.{at, along, scalars_at};
ghost use Rattle.linear.specs.Lengths.{BothInside, ThreeInside};

use crate::bounds::{
    Bounds, bounds_of, is_proper, minus_fresh, plus_points, plus_product, scalar_of,
};
use crate::flat::{Places, ahead, at, at_inside, both_inside, in_column, in_row, is_row_inside};
use crate::results::LinearError;
use interval::Scalar;

// The bounds of the first terms of a sum, and how many they are.
#[derive(Clone, Copy)]
struct Begun {
    sum: Bounds,
    done: usize,
}

// Whether both are points, so that their product is one and not four.
pub fn are_points(x: Scalar, y: Scalar) -> bool
    ensures { result ≡ (is_sharp x && is_sharp y) }
{
    x.is_sharp() && y.is_sharp()
}

// Whether k places of two runs are found to be inside, and the bounds of z are proper.
fn is_plain(i: Places, a: usize, j: Places, b: usize, z: Scalar, k: usize) -> bool
    ensures { result ≡ true → Plain i a j b k (bounds_of z) }
{
    both_inside(i.base, i.step, a, j.base, j.step, b, k) && is_proper(bounds_of(z))
}

// The terms of plus_dot up to the first whose factors are not both points.
fn plus_points_inside(a: &[f64], i: Places, b: &[f64], j: Places, z: Bounds, k: usize) -> Begun
    requires { Plain i (length a.now) j (length b.now) k z }
    ensures { (result.done ≡ points_from (scalars_at a.now i) (scalars_at b.now j) 0 k)
        × Bounding (plus_to (scalars_at a.now i) (scalars_at b.now j) (scalar_of z) result.done)
        result.sum }
{
    let mut sum = z;
    for t in 0..k {
        let x = at_inside(a, i.base + t * i.step);
        let y = at_inside(b, j.base + t * j.step);
        if !are_points(x, y) {
            return Begun { sum, done: t };
        }
        sum = plus_points(sum, x, y);
    }
    Begun { sum, done: k }
}

// plus_dot where every place is inside and the bounds of z are proper.
fn plus_inside(a: &[f64], i: Places, b: &[f64], j: Places, z: Scalar, k: usize) -> Scalar
    requires { Plain i (length a.now) j (length b.now) k (bounds_of z) }
    ensures { result ≡ plus_to (scalars_at a.now i) (scalars_at b.now j) z k }
{
    let begun = plus_points_inside(a, i, b, j, bounds_of(z), k);
    let mut sum = begun.sum;
    let done = begun.done;
    for t in done..k {
        let x = at_inside(a, i.base + t * i.step);
        sum = plus_product(sum, x, at_inside(b, j.base + t * j.step));
    }
    scalar_of(sum)
}

// plus_dot for every place.
fn plus_cut(a: &[f64], i: Places, b: &[f64], j: Places, z: Scalar, k: usize) -> Scalar
    ensures { result ≡ plus_to (scalars_at a.now i) (scalars_at b.now j) z k }
{
    let mut sum = z;
    let mut p = i.base;
    let mut q = j.base;
    for _ in 0..k {
        sum = sum.add(at(a, p).mul(at(b, q)));
        p = ahead(p, i.step, a.len());
        q = ahead(q, j.step, b.len());
    }
    sum
}

// z and k products of a run of a and one of b.
pub fn plus_dot(a: &[f64], i: Places, b: &[f64], j: Places, z: Scalar, k: usize) -> Scalar
    ensures { result ≡ plus_to (scalars_at a.now i) (scalars_at b.now j) z k }
{
    if is_plain(i, a.len(), j, b.len(), z, k) {
        return plus_inside(a, i, b, j, z, k);
    }
    plus_cut(a, i, b, j, z, k)
}

// z less k products of two such runs: -(-z + ..), which has the same bits.
pub fn minus_dot(a: &[f64], i: Places, b: &[f64], j: Places, z: Scalar, k: usize) -> Scalar
    ensures { result ≡ minus_to (scalars_at a.now i) (scalars_at b.now j) z k }
{
    let la = a.len();
    let lb = b.len();
    plus_dot(&a[..la], i, &b[..lb], j, z.neg(), k).neg()
}

// rows_minus where the bounds of z are proper.
fn rows_inside(l: &[f64], i0: usize, j0: usize, z: Scalar, k: usize) -> Scalar
    requires { Plain (record { base = i0; step = 1 }) (length l.now) (record { base = j0; step = 1 })
        (length l.now) k (bounds_of z) }
    ensures { result ≡ minus_to (along l.now i0 1) (along l.now j0 1) z k }
{
    let mut sum = bounds_of(z);
    for t in 0..k {
        sum = minus_fresh(sum, at_inside(l, i0 + t), at_inside(l, j0 + t));
    }
    scalar_of(sum)
}

// z less k products of two rows of one slice, the first of which was just stored; all places are inside.
pub fn rows_minus(l: &[f64], i0: usize, j0: usize, z: Scalar, k: usize) -> Scalar
    requires { BothInside i0 1 (length l.now) j0 1 (length l.now) k }
    ensures { result ≡ minus_to (along l.now i0 1) (along l.now j0 1) z k }
{
    if is_proper(bounds_of(z)) {
        return rows_inside(l, i0, j0, z, k);
    }
    minus_dot(l, in_row(i0), l, in_row(j0), z, k)
}

// The terms of row_dot up to the first whose factors are not both points.
fn row_points_inside(a: &[f64], a0: usize, b: &[f64], b0: usize, k: usize) -> Begun
    requires { BothInside a0 1 (length a.now) b0 1 (length b.now) k }
    ensures { (result.done ≤ k)
        × Bounding (dot_to (along a.now a0 1) (along b.now b0 1) result.done) result.sum }
{
    let mut sum = bounds_of(Scalar::ZERO);
    for t in 0..k {
        let x = at_inside(a, a0 + t);
        let y = at_inside(b, b0 + t);
        if !are_points(x, y) {
            return Begun { sum, done: t };
        }
        sum = plus_points(sum, x, y);
    }
    Begun { sum, done: k }
}

// row_dot where every place is inside.
fn row_inside(a: &[f64], a0: usize, b: &[f64], b0: usize, k: usize) -> Scalar
    requires { BothInside a0 1 (length a.now) b0 1 (length b.now) k }
    ensures { result ≡ dot_to (along a.now a0 1) (along b.now b0 1) k }
{
    let begun = row_points_inside(a, a0, b, b0, k);
    let mut sum = begun.sum;
    let done = begun.done;
    for t in done..k {
        sum = plus_product(sum, at_inside(a, a0 + t), at_inside(b, b0 + t));
    }
    scalar_of(sum)
}

// k products of a row of a, from a0 on, and one of b: plus_dot from zero by steps of 1, with a loop of its own, since
// most sums are such.
pub fn row_dot(a: &[f64], a0: usize, b: &[f64], b0: usize, k: usize) -> Scalar
    ensures { result ≡ dot_to (along a.now a0 1) (along b.now b0 1) k }
{
    if is_row_inside(a0, k, a.len()) && is_row_inside(b0, k, b.len()) {
        return row_inside(a, a0, b, b0, k);
    }
    let la = a.len();
    let lb = b.len();
    plus_dot(&a[..la], in_row(a0), &b[..lb], in_row(b0), Scalar::ZERO, k)
}

// Two sums.
#[derive(Clone, Copy)]
pub struct Two {
    pub first: Scalar,
    pub second: Scalar,
}

// The bounds of the first terms of two sums, and how many they are.
#[derive(Clone, Copy)]
struct BegunTwo {
    first: Bounds,
    second: Bounds,
    done: usize,
}

fn are_three_points(x: Scalar, y: Scalar, z: Scalar) -> bool
    ensures { result ≡ (is_sharp x && (is_sharp y && is_sharp z)) }
{
    x.is_sharp() && are_points(y, z)
}

// The terms of two sums with the same second factors, up to the first term whose factors are not all points.
fn two_points_inside(
    a: &[f64],
    i: Places,
    j: Places,
    b: &[f64],
    b0: usize,
    y: Bounds,
    z: Bounds,
    k: usize,
) -> BegunTwo
    requires { PlainTwo i j (length a.now) b0 (length b.now) k y z }
    ensures { (result.done ≤ k)
        × Bounding (plus_to (scalars_at a.now i) (along b.now b0 1) (scalar_of y) result.done)
        result.first
        × Bounding (plus_to (scalars_at a.now j) (along b.now b0 1) (scalar_of z) result.done)
        result.second }
{
    let mut first = y;
    let mut second = z;
    for t in 0..k {
        let u = at_inside(a, i.base + t * i.step);
        let v = at_inside(a, j.base + t * j.step);
        let w = at_inside(b, b0 + t);
        if !are_three_points(u, v, w) {
            return BegunTwo {
                first,
                second,
                done: t,
            };
        }
        first = plus_points(first, u, w);
        second = plus_points(second, v, w);
    }
    BegunTwo {
        first,
        second,
        done: k,
    }
}

// y and z, and k products of two runs of a with a row of b, where every place is inside: the factors of the row are
// read once, and neither sum waits for the other. Its runs come as numbers: a struct is handed on in memory, and to
// read it there takes 1 % of whole runs.
fn two_inside(
    a: &[f64],
    a0: usize,
    a1: usize,
    sa: usize,
    b: &[f64],
    b0: usize,
    y: Bounds,
    z: Bounds,
    k: usize,
) -> Two
    requires { PlainTwo (record { base = a0; step = sa }) (record { base = a1; step = sa }) (length a.now) b0
        (length b.now) k y z }
    ensures { (result.first ≡ plus_to (along a.now a0 sa) (along b.now b0 1) (scalar_of y) k)
        × (result.second ≡ plus_to (along a.now a1 sa) (along b.now b0 1) (scalar_of z) k) }
{
    let i = Places { base: a0, step: sa };
    let j = Places { base: a1, step: sa };
    let begun = two_points_inside(a, i, j, b, b0, y, z, k);
    let mut first = begun.first;
    let mut second = begun.second;
    let done = begun.done;
    for t in done..k {
        let w = at_inside(b, b0 + t);
        first = plus_product(first, at_inside(a, a0 + t * sa), w);
        second = plus_product(second, at_inside(a, a1 + t * sa), w);
    }
    Two {
        first: scalar_of(first),
        second: scalar_of(second),
    }
}

// Whether k places of two rows of a and of one of b are inside.
fn are_rows_inside(a0: usize, a1: usize, a: usize, b0: usize, b: usize, k: usize) -> bool
    ensures { result ≡ true → ThreeInside a0 a1 1 a b0 b k }
{
    is_row_inside(a0, k, a) && is_row_inside(a1, k, a) && is_row_inside(b0, k, b)
}

// row_dot of two rows of a with one of b.
pub fn two_rows(a: &[f64], a0: usize, a1: usize, b: &[f64], b0: usize, k: usize) -> Two
    ensures { (result.first ≡ dot_to (along a.now a0 1) (along b.now b0 1) k)
        × (result.second ≡ dot_to (along a.now a1 1) (along b.now b0 1) k) }
{
    let la = a.len();
    let lb = b.len();
    if are_rows_inside(a0, a1, la, b0, lb, k) {
        let zero = bounds_of(Scalar::ZERO);
        return two_inside(&a[..la], a0, a1, 1, &b[..lb], b0, zero, zero, k);
    }
    Two {
        first: row_dot(&a[..la], a0, &b[..lb], b0, k),
        second: row_dot(&a[..la], a1, &b[..lb], b0, k),
    }
}

// Whether k places of two runs of a, sa apart, and of a row of b are found to be inside.
fn are_runs_inside(a0: usize, a1: usize, sa: usize, a: usize, b0: usize, b: usize, k: usize) -> bool
    ensures { result ≡ true → ThreeInside a0 a1 sa a b0 b k }
{
    both_inside(a0, sa, a, a1, sa, a, k) && is_row_inside(b0, k, b)
}

// y and z, each less k products of a run of a with the same row of b: by the loop of two_rows, with the signs turned.
pub fn two_minus(
    a: &[f64],
    a0: usize,
    a1: usize,
    sa: usize,
    b: &[f64],
    b0: usize,
    y: Scalar,
    z: Scalar,
    k: usize,
) -> Two
    ensures { (result.first ≡ minus_to (along a.now a0 sa) (along b.now b0 1) y k)
        × (result.second ≡ minus_to (along a.now a1 sa) (along b.now b0 1) z k) }
{
    let la = a.len();
    let lb = b.len();
    let first = bounds_of(y.neg());
    let second = bounds_of(z.neg());
    if are_runs_inside(a0, a1, sa, la, b0, lb, k) && is_proper(first) && is_proper(second) {
        let sums = two_inside(&a[..la], a0, a1, sa, &b[..lb], b0, first, second, k);
        return Two {
            first: sums.first.neg(),
            second: sums.second.neg(),
        };
    }
    let p = in_row(b0);
    Two {
        first: minus_dot(&a[..la], in_column(a0, sa), &b[..lb], p, y, k),
        second: minus_dot(&a[..la], in_column(a1, sa), &b[..lb], p, z, k),
    }
}

// The first n products.
pub fn dot_of(a: &[f64], b: &[f64], n: usize) -> Scalar
    ensures { result ≡ dot_to (at a.now) (at b.now) n }
{
    row_dot(a, 0, b, 0, n)
}

// Σ a b, folded from zero.
pub fn dot(n: usize, a: &[f64], b: &[f64]) -> Result<Scalar, LinearError>
    ensures { result_of result ≡ dot_reply n a.now b.now }
{
    if n > 24 {
        return Err(LinearError::TooMany);
    }
    if a.len() != 2 * n {
        return Err(LinearError::WrongLength);
    }
    if b.len() != 2 * n {
        return Err(LinearError::WrongLength);
    }
    Ok(dot_of(a, b, n))
}
