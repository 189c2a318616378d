// Scalars in a flat slice: the i-th has its lower end at 2 i and its upper end at 2 i + 1. Outside the slice `at` reads
// NaN and `put` changes nothing, so that neither asks anything of its caller. Where a whole run of places was found to
// be inside beforehand, `at_inside` and `put_inside` read and write with no test of their own.
ghost use Rattle.std.specs.Prelude.{◌≡◌, true, ◌+◌, ◌*◌, ◌<◌, min, length};
ghost use Rattle.linear.specs.Flat.{at, put, zeros, along};
ghost use Rattle.linear.specs.Lengths.{Inside, BothInside};

use interval::Scalar;

// Where the scalars of a run stand: the first at base, and each step behind the one before it.
#[derive(Clone, Copy)]
pub struct Places {
    pub base: usize,
    pub step: usize,
}

// Neighbours, as in a row of a matrix.
pub fn in_row(base: usize) -> Places
    ensures { result ≡ record { base = base; step = 1 } }
{
    Places { base, step: 1 }
}

// Every step-th scalar, as in a column of a matrix with rows of that length.
pub fn in_column(base: usize, step: usize) -> Places
    ensures { result ≡ record { base = base; step = step } }
{
    Places { base, step }
}

// The i-th scalar; NaN outside the slice.
pub fn at(xs: &[f64], i: usize) -> Scalar
    ensures { result ≡ at xs.now i }
{
    if i < xs.len() / 2 {
        let k = 2 * i;
        return Scalar {
            lo: xs[k],
            hi: xs[k + 1],
        };
    }
    Scalar::degenerate(f64::NAN)
}

// The i-th scalar of those inside.
pub fn at_inside(xs: &[f64], i: usize) -> Scalar
    requires { 2 * i + 1 < length xs.now }
    ensures { result ≡ at xs.now i }
{
    let k = 2 * i;
    Scalar {
        lo: xs[k],
        hi: xs[k + 1],
    }
}

// Whether k scalars from base on, step apart, are found to be inside len numbers. A step or a count above 65535 is
// never found inside, so that their product does not overflow.
fn is_inside(base: usize, step: usize, k: usize, len: usize) -> bool
    ensures { result ≡ true → Inside base step k len }
{
    if k == 0 {
        return true;
    }
    if k > 65535 || step > 65535 {
        return false;
    }
    let reach = (k - 1) * step;
    let half = len / 2;
    reach < half && base < half - reach
}

// The same of two runs.
pub fn both_inside(a0: usize, sa: usize, a: usize, b0: usize, sb: usize, b: usize, k: usize) -> bool
    ensures { result ≡ true → BothInside a0 sa a b0 sb b k }
{
    is_inside(a0, sa, k, a) && is_inside(b0, sb, k, b)
}

// Whether k scalars from base on are inside len numbers: a step of 1 needs no product.
pub fn is_row_inside(base: usize, k: usize, len: usize) -> bool
    ensures { result ≡ true → Inside base 1 k len }
{
    let half = len / 2;
    k <= half && base <= half - k
}

// i + step, or len where that is beyond it.
pub fn ahead(i: usize, step: usize, len: usize) -> usize
    ensures { result ≡ min (i + step) len }
{
    i.saturating_add(step).min(len)
}

// base + j * step, or len where that is beyond it: a place at len is outside, as those behind it are, and nothing
// overflows.
fn place(base: usize, step: usize, j: usize, len: usize) -> usize
    ensures { result ≡ min (base + j * step) len }
{
    ahead(base, j.saturating_mul(step), len)
}

// The j-th scalar from base on, step apart; NaN outside the slice.
pub fn along(xs: &[f64], base: usize, step: usize, j: usize) -> Scalar
    ensures { result ≡ along xs.now base step j }
{
    at(xs, place(base, step, j, xs.len()))
}

// Stores the i-th scalar; outside the slice nothing changes.
pub fn put(xs: &mut [f64], i: usize, v: Scalar)
    ensures { xs.new ≡ put xs.old i v }
{
    if i < xs.len() / 2 {
        let k = 2 * i;
        xs[k] = v.lo;
        xs[k + 1] = v.hi;
    }
}

// Stores the i-th scalar of those inside.
pub fn put_inside(xs: &mut [f64], i: usize, v: Scalar)
    requires { 2 * i + 1 < length xs.old }
    ensures { xs.new ≡ put xs.old i v }
{
    let k = 2 * i;
    xs[k] = v.lo;
    xs[k + 1] = v.hi;
}

// Sets every number to +0.
pub fn clear(xs: &mut [f64])
    ensures { xs.new ≡ zeros (length xs.old) }
{
    xs.fill(0.0);
}
