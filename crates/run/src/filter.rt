// The filter: f and the violation of every point that stood before the present one. A step is progress only where it is
// definitely lower in one of the two than each of them, so a run cannot come back to where it was. The two are not
// weighed against each other: a weight would have to grow without bound where the constraints are singular.
ghost use Rattle.std.specs.Prelude.{◌<◌, ◌≤◌, ◌||◌, ◌&&◌, ◌≡◌, take};
ghost use Rattle.interval.specs.Scalar.{definitely_less};
ghost use Rattle.run.specs.Filter.{filter_sum, filter_violation, beats_to, pair_numbers};
ghost use Rattle.run.specs.Limits.{ITERATIONS};
ghost use Rattle.run.specs.program.Filter.{beats_pair, beats_pairs, pair_at, pairs_to};

use crate::limits::ITERATIONS;
use interval::Scalar;
use linear::at;

// Whether f or theta is definitely less than in pair i.
fn beats_pair(filter: &[f64], f: Scalar, theta: Scalar, i: usize) -> bool
    requires { i < 65536 }
    ensures { result ≡ definitely_less f (filter_sum filter.now i)
        || definitely_less theta (filter_violation filter.now i) }
{
    f.definitely_less(at(filter, 2 * i)) || theta.definitely_less(at(filter, 2 * i + 1))
}

// Whether f or theta is definitely less than in each of the filter's first pairs.
pub fn beats(filter: &[f64], f: Scalar, theta: Scalar, count: usize) -> bool
    requires { count < 65536 }
    ensures { result ≡ beats_to filter.now f theta count }
{
    for i in 0..count {
        if !beats_pair(filter, f, theta, i) {
            return false;
        }
    }
    true
}

// f and the violation of a point that stood before.
#[derive(Clone, Copy)]
pub struct Pair {
    pub f: Scalar,
    pub violation: Scalar,
}

// Whether the pairs before this one are beaten, and this one is.
fn still_beats(so_far: bool, p: Pair, f: Scalar, theta: Scalar) -> bool
    ensures { result ≡ so_far && beats_pair p f theta }
{
    so_far && (f.definitely_less(p.f) || theta.definitely_less(p.violation))
}

// Whether f or theta is definitely less than in each pair.
fn beats_pairs(pairs: &[Pair], f: Scalar, theta: Scalar) -> bool
    ensures { result ≡ beats_pairs pairs.now f theta }
{
    let mut so_far = true;
    for pair in pairs {
        so_far = still_beats(so_far, *pair, f, theta);
    }
    so_far
}

// The same of the first pairs of an array, which are lent.
fn beats_first(pairs: [Pair; ITERATIONS], count: usize, f: Scalar, theta: Scalar) -> bool
    requires { count ≤ ITERATIONS }
    ensures { result ≡ beats_pairs (take count pairs) f theta }
{
    beats_pairs(&pairs[..count], f, theta)
}

// Pair i of the flat filter.
fn pair_at(filter: &[f64], i: usize) -> Pair
    requires { i < 65536 }
    ensures { result ≡ pair_at filter.now i }
{
    Pair {
        f: at(filter, 2 * i),
        violation: at(filter, 2 * i + 1),
    }
}

// Its first pairs, as an array.
fn pairs_of(filter: &[f64], count: usize) -> [Pair; ITERATIONS]
    requires { count ≤ ITERATIONS }
    ensures { take count result ≡ pairs_to filter.now count }
{
    let none = Pair {
        f: Scalar::ZERO,
        violation: Scalar::ZERO,
    };
    let mut pairs = [none; ITERATIONS];
    for i in 0..count {
        pairs[i] = pair_at(filter, i);
    }
    pairs
}

// Whether f or theta is definitely less than in each of the flat filter's first pairs, asked of the pairs. A filter has
// at most one for each iteration: more, which no run has, are asked of the flat numbers.
pub fn beats_as_pairs(filter: &[f64], f: Scalar, theta: Scalar, count: usize) -> bool
    requires { count < 65536 }
    ensures { result ≡ beats_to filter.now f theta count }
{
    if count > ITERATIONS {
        return beats(filter, f, theta, count);
    }
    beats_first(pairs_of(filter, count), count, f, theta)
}

// The numbers of a pair, as the filter keeps them.
pub fn pair_numbers(f: Scalar, theta: Scalar) -> [f64; 4]
    ensures { result ≡ pair_numbers f theta }
{
    [f.lo, f.hi, theta.lo, theta.hi]
}
