// The float nearest to a square root, worked out from the bits, since the language has no root of an f64. The
// significand is brought to 53 or 54 digits with an even exponent, and 54 digits of its root are found exactly: one
// more than a float has, so the last decides the rounding, and a root never lies halfway between two floats. The first
// 27 digits come from an f64 estimate, of which nothing is assumed, corrected in whole numbers; one division gives the
// other 27. So the loops take a step or two, and a proof needs no bound on the estimate's error.
ghost use Rattle.std.specs.Prelude.{◌≡◌, ◌+◌, ◌*◌, ◌^◌, ◌<◌, ◌≤◌, from_bits};
ghost use Rattle.std.specs.Float.{binary64};
ghost use Rattle.std.specs.Float.Ieee.{low};
ghost use Rattle.interval.specs.Pattern.{magnitude, inf_bits};
ghost use Rattle.interval.specs.Root.{IsRoot, rounded_root, nearest_root};
ghost use Rattle.interval.specs.RootSteps.{Decomposed, Normalizable, Normalized, EvenExponent, Significand};
ghost use Rattle.interval.specs.RootSteps.{Extendable, Extended};

// The greatest whole number up to `start` whose square is at most c.
fn lower_to_root(c: u64, start: u64) -> u64
    requires { start < 2 ^ 28 }
    ensures { (result * result ≤ c) × (result ≤ start) }
{
    let mut q = start;
    while q * q > c {
        q -= 1;
    }
    q
}

// The whole part of the root of c, from a start that is not above it.
fn raise_to_root(c: u64, start: u64) -> u64
    requires { (c < 2 ^ 54) × (start < 2 ^ 28) × (start * start ≤ c) }
    ensures { IsRoot c result }
{
    let mut q = start;
    while (q + 1) * (q + 1) <= c {
        q += 1;
    }
    q
}

// A root q and what its square leaves.
#[derive(Clone, Copy)]
struct PartialRoot {
    q: u64,
    r: u64,
}

// 27 digits more: the root of (s * s + r) * 2 ^ 54.
fn extend_root(s: u64, r: u64) -> PartialRoot
    requires { Extendable s r }
    ensures { Extended ((s * s + r) * 2 ^ 54) result.q result.r }
{
    let t = r * 134217728;
    let d = s * 2;
    let u = t / d;
    let v = t % d;
    let p = v * 134217728;
    let q = s * 134217728 + u;
    let w = u * u;
    if w <= p {
        return PartialRoot { q, r: p - w };
    }
    PartialRoot {
        q: q - 1,
        r: p + q * 2 - 1 - w,
    }
}

// The pattern of the float c / 2 ^ 52.
fn pattern_of(c: u64) -> u64
    requires { c < 2 ^ 54 }
    ensures { result < 2047 * 2 ^ 52 }
{
    if c >= 9007199254740992 {
        return c / 2 + 4607182418800017408;
    }
    c + 4602678819172646912
}

// About the root of c: a quadratic start y0 and two steps of Heron's rule, doubled and then doubled again, which needs
// no halving. The sum rounds to the nearest whole number: with a half taken off it is rarely above the root, so the
// branches of the loops that correct it are predicted.
fn estimate(c: u64) -> u64
    requires { Significand c }
    ensures { result < 2 ^ 28 }
{
    let m = pattern_of(c);
    let z = f64::from_bits(m);
    let y0 = (0.5260096847824647 - z * 0.03954011134266244) * z + 0.5185546318243788;
    let y1 = y0 + z / y0;
    let y2 = y1 + z * 4.0 / y1;
    let w = y2 * 16777216.0 + 4503599627370495.5;
    if w == w {
        return f64::to_bits(w) % 268435456;
    }
    0
}

// The root of c * 2 ^ 54.
fn root_digits(c: u64) -> u64
    requires { Significand c }
    ensures { IsRoot (c * 2 ^ 54) result }
{
    let s = raise_to_root(c, lower_to_root(c, estimate(c)));
    let p = extend_root(s, c - s * s);
    p.q
}

// The number c * 2 ^ e.
#[derive(Clone, Copy)]
struct Scaled {
    c: u64,
    e: u64,
}

// The number of units that the pattern b stands for, times 2 ^ 52.
fn decompose(b: u64) -> Scaled
    requires { (0 < b) × (b < inf_bits binary64) }
    ensures { Decomposed (magnitude binary64 b) result.c result.e × (result.c < 2 ^ 53) }
{
    let t = b % 4503599627370496;
    let field = b / 4503599627370496;
    if field == 0 {
        return Scaled { c: t, e: 52 };
    }
    Scaled {
        c: t + 4503599627370496,
        e: field + 51,
    }
}

// The same number, with 53 digits in c.
fn normalize(s: Scaled) -> Scaled
    requires { Normalizable s.c s.e }
    ensures { Normalized s.c s.e result.c result.e }
{
    let mut c = s.c;
    let mut e = s.e;
    while c < 4503599627370496 {
        c *= 2;
        e -= 1;
    }
    Scaled { c, e }
}

// The same number, with an even exponent.
fn even_exponent(s: Scaled) -> Scaled
    requires { s.c < 2 ^ 53 }
    ensures { EvenExponent s.c s.e result.c result.e }
{
    if s.e % 2 == 0 {
        return s;
    }
    Scaled {
        c: s.c * 2,
        e: s.e - 1,
    }
}

// The pattern of the root of the number that the pattern b stands for.
fn root_bits(b: u64) -> u64
    requires { (0 < b) × (b < inf_bits binary64) }
    ensures { (result < inf_bits binary64)
        × (from_bits binary64 result ≡ rounded_root binary64 (magnitude binary64 b * 2 ^ low binary64)) }
{
    let s = even_exponent(normalize(decompose(b)));
    let q = root_digits(s.c);
    (s.e / 2 + 485) * 4503599627370496 + (q + 1) / 2
}

// Rust's f64::sqrt: of a number below zero there is none.
pub fn nearest_root(x: f64) -> f64
    ensures { result ≡ nearest_root x }
{
    if x != x {
        return x;
    }
    if x == 1.0 / 0.0 {
        return x;
    }
    if x > 0.0 {
        return f64::from_bits(root_bits(f64::to_bits(x)));
    }
    if x == 0.0 {
        return x;
    }
    0.0 / 0.0
}
