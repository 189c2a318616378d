// The rows of a sheet at a point: of each rule its value and its slopes, and of the sum each coordinate less what it
// aims at. A host need not write slopes.
ghost use Rattle.std.specs.Prelude.{◌+◌, ◌*◌, ◌/◌, ◌%◌, ◌≤◌, ◌≡◌, eqb, length};
ghost use Rattle.interval.specs.Scalar.{sub_of, mul_of, zero_s, pick};
ghost use Rattle.linear.specs.Flat.{at, fill_to};
ghost use Rattle.sheet.specs.Rows.{difference_of, square_of, value_of, slope_by, one_s, two_s, slope_of, rule_at, rows_of};
ghost use Rattle.sheet.specs.Sheet.{most_rules};
ghost use Rattle.sheet.specs.program.Rows.{Near, FewNear};
ghost use Rattle.sheet.specs.program.Sheet.{list_in};

use crate::sheet::{Kind, Rule, Rules};
use interval::Scalar;
use linear::{at, put};

fn difference(x: &[f64], i: usize, j: usize) -> Scalar
    ensures { result ≡ difference_of x.now i j }
{
    at(x, i).sub(at(x, j))
}

fn square(s: Scalar) -> Scalar
    ensures { result ≡ square_of s }
{
    s.mul(s)
}

// A rule names two of at most 6 points.
fn value(x: &[f64], rule: Rule) -> Scalar
    requires { Near rule }
    ensures { result ≡ value_of x.now rule }
{
    let xi = 2 * rule.first;
    let xj = 2 * rule.second;
    match rule.kind {
        Kind::Span => {
            let dx = square(difference(x, xi, xj));
            let dy = square(difference(x, xi + 1, xj + 1));
            dx.add(dy).sub(square(Scalar::from_i64(rule.length as i64)))
        }
        Kind::Level => difference(x, xi + 1, xj + 1),
        Kind::Plumb => difference(x, xi, xj),
    }
}

// The slope by variable v, where that by variable i is s, that by j its negation, and the others are given.
fn slope_by(i: usize, j: usize, s: Scalar, v: usize, other: Scalar) -> Scalar
    ensures { result ≡ slope_by i j s v other }
{
    if v == i {
        return s;
    }
    if v == j {
        return s.neg();
    }
    other
}

// Two times the difference of variables i and j, as a slope.
fn slope_apart(x: &[f64], i: usize, j: usize, v: usize, other: Scalar) -> Scalar
    ensures { result ≡ slope_by i j (mul_of two_s (difference_of x.now i j)) v other }
{
    slope_by(i, j, Scalar::TWO.mul(difference(x, i, j)), v, other)
}

fn slope(x: &[f64], rule: Rule, v: usize) -> Scalar
    requires { Near rule }
    ensures { result ≡ slope_of x.now rule v }
{
    let xi = 2 * rule.first;
    let xj = 2 * rule.second;
    match rule.kind {
        Kind::Span => {
            let by_y = slope_apart(x, xi + 1, xj + 1, v, Scalar::ZERO);
            slope_apart(x, xi, xj, v, by_y)
        }
        Kind::Level => slope_by(xi + 1, xj + 1, Scalar::ONE, v, Scalar::ZERO),
        Kind::Plumb => slope_by(xi, xj, Scalar::ONE, v, Scalar::ZERO),
    }
}

// The values of the rules, from the start of `rows` on.
fn values(rules: Rules, x: &[f64], rows: &mut [f64])
    requires { FewNear rules }
    ensures { rows.new
        ≡ fill_to rows.old 0 (λ k. value_of x.now (rule_at (list_in rules) k))
        rules.count }
{
    for k in 0..rules.count {
        let rule = rules.list[k];
        put(rows, k, value(x, rule));
    }
}

// The slopes of the rules row by row, from a place on.
fn slopes(n: usize, rules: Rules, x: &[f64], rows: &mut [f64], base: usize)
    requires { FewNear rules × (n ≤ 12) × (base ≤ most_rules) }
    ensures { rows.new
        ≡ fill_to rows.old base (λ p. slope_of x.now (rule_at (list_in rules) (p / n)) (p % n))
        (rules.count * n) }
{
    for p in 0..rules.count * n {
        let rule = rules.list[p / n];
        put(rows, base + p, slope(x, rule, p % n));
    }
}

// The values of the sum, from a place on.
fn sum_values(n: usize, x: &[f64], aims: &[f64], rows: &mut [f64], base: usize)
    requires { (n ≤ 12) × (base ≤ 1000) }
    ensures { rows.new
        ≡ fill_to rows.old base (λ i. sub_of (at x.now i) (at aims.now i)) n }
{
    for i in 0..n {
        put(rows, base + i, at(x, i).sub(at(aims, i)));
    }
}

// The slopes of the sum row by row, from a place on.
fn sum_slopes(n: usize, rows: &mut [f64], base: usize)
    requires { (n ≤ 12) × (base ≤ 1000) }
    ensures { rows.new
        ≡ fill_to rows.old base (λ p. pick (eqb (p / n) (p % n)) one_s zero_s) (n * n) }
{
    for p in 0..n * n {
        let mut slope = Scalar::ZERO;
        if p / n == p % n {
            slope = Scalar::ONE;
        }
        put(rows, base + p, slope);
    }
}

// All rows at the point x: of the rules, and of a sum that aims at `aims`.
pub fn rows_at(n: usize, rules: Rules, x: &[f64], aims: &[f64], rows: &mut [f64])
    requires { FewNear rules × (n ≤ 12) ×
        (length rows.old ≡ 2 * ((rules.count + n) * (n + 1))) }
    ensures { rows.new
        ≡ rows_of n (list_in rules) x.now aims.now }
{
    let m = rules.count;
    let sum = m * (n + 1);
    values(rules, x, rows);
    slopes(n, rules, x, rows, m);
    sum_values(n, x, aims, rows, sum);
    sum_slopes(n, rows, sum + n);
}
