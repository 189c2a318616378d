// Rust's f64::min and f64::max: a NaN is passed over, and of two equal numbers the first is taken.
ghost use Rattle.std.specs.Prelude.{◌≡◌};
ghost use Rattle.interval.specs.Float.{fmin, fmax, lesser, greater, least, greatest};

// fmin for an a that is a number.
pub fn lesser_of(a: f64, b: f64) -> f64
    ensures { result ≡ lesser a b }
{
    if b < a { b } else { a }
}

// fmax for an a that is a number. It is also the choice that `max` makes between two ends.
pub fn greater_of(a: f64, b: f64) -> f64
    ensures { result ≡ greater a b }
{
    if b > a { b } else { a }
}

pub fn min_of(a: f64, b: f64) -> f64
    ensures { result ≡ fmin a b }
{
    if a.is_nan() {
        return b;
    }
    lesser_of(a, b)
}

pub fn max_of(a: f64, b: f64) -> f64
    ensures { result ≡ fmax a b }
{
    if a.is_nan() {
        return b;
    }
    greater_of(a, b)
}

// The four, folded from infinity: the start is a number, so each step takes a number, and a NaN among the four, as
// 0 times infinity gives it, is passed over.
pub fn least_of(p: f64, q: f64, r: f64, s: f64) -> f64
    ensures { result ≡ least p q r s }
{
    lesser_of(lesser_of(lesser_of(lesser_of(f64::INFINITY, p), q), r), s)
}

pub fn greatest_of(p: f64, q: f64, r: f64, s: f64) -> f64
    ensures { result ≡ greatest p q r s }
{
    greater_of(
        greater_of(greater_of(greater_of(f64::NEG_INFINITY, p), q), r),
        s,
    )
}
