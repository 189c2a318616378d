// The shortest step onto linear constraints. Sums are worked out two at a time, since neither waits for the other, and
// the factor is a call of its own, since it serves several right-hand sides.
ghost use Rattle.std.specs.Prelude.{◌≡◌, ◌+◌, ◌*◌, ◌<◌, ◌≤◌, length, take};
ghost use Rattle.linear.specs.Calls.{blank, minus_solved_reply, gram_factor_reply, minus_factored_reply};
ghost use Rattle.linear.specs.Cholesky.{factor_of};
ghost use Rattle.linear.specs.Flat.{zeros, put};
ghost use Rattle.linear.specs.Lengths.{Counts, OutputLengths, FactorLengths, SolvedLengths};
ghost use Rattle.linear.specs.Replies.{replied, reply_of};
ghost use Rattle.linear.specs.Solved.{gram_at, LowerRows, minus_at, minus_of, minus_solved_of, gram_factor_of};
ghost use Rattle.linear.specs.Substitution.{solve_of};

use crate::choices::choose;
use crate::dots::{minus_dot, row_dot, two_minus, two_rows};
use crate::factor::factor_sized;
use crate::flat::{at, clear, in_column, in_row, put};
use crate::results::LinearError;
use crate::substitution::{cleared, solve_sized};
use interval::Scalar;

// Rows i and i + 1 of the products, two of a column at a time, up to the second's diagonal.
fn gram_rows(m: usize, n: usize, jc: &[f64], g: &mut [f64], i: usize)
    requires { Counts m n × (length g.old ≡ 2 * (m * m)) × (i + 1 < m)
        × LowerRows (gram_at n jc.now) m i g.old }
    ensures { LowerRows (gram_at n jc.now) m (i + 2) g.new }
{
    let top = i * n;
    let row = i * m;
    for j in 0..i + 2 {
        let d = two_rows(jc, top, top + n, jc, j * n, n);
        put(g, row + j, d.first);
        put(g, row + m + j, d.second);
    }
}

// Row i of the products, up to the diagonal.
fn gram_row(m: usize, n: usize, jc: &[f64], g: &mut [f64], i: usize)
    requires { Counts m n × (length g.old ≡ 2 * (m * m)) × (i < m)
        × LowerRows (gram_at n jc.now) m i g.old }
    ensures { LowerRows (gram_at n jc.now) m (i + 1) g.new }
{
    let top = i * n;
    let row = i * m;
    for j in 0..i + 1 {
        put(g, row + j, row_dot(jc, top, jc, j * n, n));
    }
}

// The products of the rows, the lower triangle, which is all that a factor reads.
fn gram(m: usize, n: usize, jc: &[f64], g: &mut [f64])
    requires { Counts m n × (length g.old ≡ 2 * (m * m)) }
    ensures { LowerRows (gram_at n jc.now) m m g.new }
{
    let half = m / 2;
    for h in 0..half {
        gram_rows(m, n, jc, g, 2 * h);
    }
    let i = 2 * half;
    if i < m {
        gram_row(m, n, jc, g, i);
    }
}

// Value i of those, once k is solved for.
fn minus_at(m: usize, n: usize, jc: &[f64], from: &[f64], k: &[f64], i: usize) -> Scalar
    ensures { result ≡ minus_at m n jc.now from.now k.now i }
{
    choose(minus_dot(jc, in_column(i, n), k, in_row(0), at(from, i), m))
}

// Values i and i + 1, stored.
fn minus_two(m: usize, n: usize, jc: &[f64], from: &[f64], k: &[f64], out: &mut [f64], i: usize)
    requires { i < 24 }
    ensures { out.new
        ≡ put (put out.old i (minus_at m n jc.now from.now k.now i))
        (i + 1) (minus_at m n jc.now from.now k.now (i + 1)) }
{
    let d = two_minus(jc, i, i + 1, n, k, 0, at(from, i), at(from, i + 1), m);
    put(out, i, choose(d.first));
    put(out, i + 1, choose(d.second));
}

// The values, two at a time.
fn minus(m: usize, n: usize, jc: &[f64], from: &[f64], k: &[f64], out: &mut [f64])
    requires { OutputLengths m n (length out.old) }
    ensures { out.new ≡ minus_of m n jc.now from.now k.now }
{
    let half = n / 2;
    for h in 0..half {
        minus_two(m, n, jc, from, k, out, 2 * h);
    }
    let i = 2 * half;
    if i < n {
        put(out, i, minus_at(m, n, jc, from, k, i));
    }
}

// The factor of J Jᵀ into l and left_out, clear slices where it is refused; g is scratch, and the lengths are checked.
fn gram_factor_sized(
    m: usize,
    n: usize,
    jc: &[f64],
    g: &mut [f64],
    l: &mut [f64],
    left_out: &mut [bool],
) -> Result<(), LinearError>
    requires { Counts m n × (length g.old ≡ 2 * (m * m))
        × FactorLengths m (length l.old) (length left_out.old) }
    ensures { replied result (factor_of l.new left_out.new)
        ≡ reply_of (blank m) (gram_factor_of m n jc.now) }
{
    gram(m, n, jc, g);
    factor_sized(m, g, l, left_out)
}

// k, at the start of a slice that is long enough.
fn multipliers(
    m: usize,
    l: &[f64],
    left_out: &[bool],
    rhs: &[f64],
    k: &mut [f64],
) -> Result<(), LinearError>
    requires { (m ≤ 24) × (length left_out.now ≡ m) × (2 * m ≤ length k.old) }
    ensures { replied result (take (2 * m) k.new)
        ≡ reply_of (zeros (2 * m)) (solve_of m l.now left_out.now rhs.now) }
{
    let e = 2 * m;
    solve_sized(m, l, left_out, rhs, &mut k[..e])
}

// L with L Lᵀ = J Jᵀ, for several right-hand sides by minus_factored; J has m rows of n, and g is scratch, clear
// afterwards.
pub fn gram_factor(
    m: usize,
    n: usize,
    jc: &[f64],
    g: &mut [f64],
    l: &mut [f64],
    left_out: &mut [bool],
) -> Result<(), LinearError>
    ensures { replied result (g.new, factor_of l.new left_out.new)
        ≡ gram_factor_reply m n jc.now g.old
        (factor_of l.old left_out.old) }
{
    if m > 24 {
        return Err(LinearError::TooMany);
    }
    if n > 24 {
        return Err(LinearError::TooMany);
    }
    if jc.len() != 2 * (m * n) {
        return Err(LinearError::WrongLength);
    }
    if g.len() != 2 * (m * m) {
        return Err(LinearError::WrongLength);
    }
    if l.len() != 2 * (m * m) {
        return Err(LinearError::WrongLength);
    }
    if left_out.len() != m {
        return Err(LinearError::WrongLength);
    }
    let d = gram_factor_sized(m, n, jc, g, l, left_out);
    clear(g);
    d
}

// minus_solved by the factor of gram_factor: from - Jᵀ k with L Lᵀ k = rhs.
pub fn minus_factored(
    m: usize,
    n: usize,
    jc: &[f64],
    l: &[f64],
    left_out: &[bool],
    rhs: &[f64],
    from: &[f64],
    out: &mut [f64],
) -> Result<(), LinearError>
    ensures { replied result out.new
        ≡ minus_factored_reply m n jc.now (factor_of l.now left_out.now)
        rhs.now from.now out.old }
{
    if m > 24 {
        return Err(LinearError::TooMany);
    }
    if n > 24 {
        return Err(LinearError::TooMany);
    }
    if jc.len() != 2 * (m * n) {
        return Err(LinearError::WrongLength);
    }
    if l.len() != 2 * (m * m) {
        return Err(LinearError::WrongLength);
    }
    if left_out.len() != m {
        return Err(LinearError::WrongLength);
    }
    if rhs.len() != 2 * m {
        return Err(LinearError::WrongLength);
    }
    if from.len() != 2 * n {
        return Err(LinearError::WrongLength);
    }
    if out.len() != 2 * n {
        return Err(LinearError::WrongLength);
    }
    let mut k = [0.0; 48];
    let d = multipliers(m, l, left_out, rhs, &mut k);
    minus(m, n, jc, from, &k, out);
    cleared(d, out)
}

// The whole, with scratch slices of the right lengths; out is clear where it is refused.
fn solved_in(
    m: usize,
    n: usize,
    jc: &[f64],
    rhs: &[f64],
    from: &[f64],
    out: &mut [f64],
    g: &mut [f64],
    l: &mut [f64],
    left_out: &mut [bool],
) -> Result<(), LinearError>
    requires { SolvedLengths m n (length jc.now) (length rhs.now) (length from.now) (length out.old)
        × (length g.old ≡ 2 * (m * m)) × FactorLengths m (length l.old) (length left_out.old) }
    ensures { replied result out.new
        ≡ reply_of (zeros (2 * n)) (minus_solved_of m n jc.now rhs.now from.now) }
{
    let end = gram_factor_sized(m, n, jc, g, l, left_out);
    if end.is_err() {
        clear(out);
        return end;
    }
    minus_factored(m, n, jc, l, left_out, rhs, from, out)
}

// The same with arrays of its own, of these lengths.
fn solved_by<const ENTRIES: usize, const MARKS: usize>(
    m: usize,
    n: usize,
    jc: &[f64],
    rhs: &[f64],
    from: &[f64],
    out: &mut [f64],
) -> Result<(), LinearError>
    requires { SolvedLengths m n (length jc.now) (length rhs.now) (length from.now) (length out.old)
        × (2 * (m * m) ≤ ENTRIES) × (ENTRIES ≤ 1152) × (m ≤ MARKS) × (MARKS ≤ 24) }
    ensures { replied result out.new
        ≡ reply_of (zeros (2 * n)) (minus_solved_of m n jc.now rhs.now from.now) }
{
    let mut g = [0.0; ENTRIES];
    let mut l = [0.0; ENTRIES];
    let mut left_out = [false; MARKS];
    let s = 2 * (m * m);
    solved_in(
        m,
        n,
        jc,
        rhs,
        from,
        out,
        &mut g[..s],
        &mut l[..s],
        &mut left_out[..m],
    )
}

// The same of at most 24 rows; at most 12, as a run has them, have arrays a quarter of those for 24.
fn solved_sized(
    m: usize,
    n: usize,
    jc: &[f64],
    rhs: &[f64],
    from: &[f64],
    out: &mut [f64],
) -> Result<(), LinearError>
    requires { SolvedLengths m n (length jc.now) (length rhs.now) (length from.now) (length out.old) }
    ensures { replied result out.new
        ≡ reply_of (zeros (2 * n)) (minus_solved_of m n jc.now rhs.now from.now) }
{
    if m <= 12 {
        return solved_by::<288, 12>(m, n, jc, rhs, from, out);
    }
    solved_by::<1152, 24>(m, n, jc, rhs, from, out)
}

// from - Jᵀ k with J Jᵀ k = rhs, each value chosen; J has m rows of n.
pub fn minus_solved(
    m: usize,
    n: usize,
    jc: &[f64],
    rhs: &[f64],
    from: &[f64],
    out: &mut [f64],
) -> Result<(), LinearError>
    ensures { replied result out.new
        ≡ minus_solved_reply m n jc.now rhs.now from.now out.old }
{
    if m > 24 {
        return Err(LinearError::TooMany);
    }
    if n > 24 {
        return Err(LinearError::TooMany);
    }
    if jc.len() != 2 * (m * n) {
        return Err(LinearError::WrongLength);
    }
    if rhs.len() != 2 * m {
        return Err(LinearError::WrongLength);
    }
    if from.len() != 2 * n {
        return Err(LinearError::WrongLength);
    }
    if out.len() != 2 * n {
        return Err(LinearError::WrongLength);
    }
    solved_sized(m, n, jc, rhs, from, out)
}
