// The pieces of a run as calls of their own, so that each can be compared with the Rust's. They are total: 1 where a
// count is above its limit, then 2 where a slice has the wrong length, with nothing written; and 5 or 6 in the Rust's
// order of operations, with what is written all +0. Rows have 2 (m + s) (n + 1) numbers, points and steps 24.
ghost use Rattle.std.specs.Prelude.{◌≡◌, length};
ghost use Rattle.linear.specs.LinearResult.{done_of, result_of};
ghost use Rattle.linear.specs.Flat.{zeros};
ghost use Rattle.linear.specs.Replies.{replied, reply_of};
ghost use Rattle.run.specs.Pieces.{sized_of, both_sized, wants_of, fits_two, variables_read, squared_reply};
ghost use Rattle.run.specs.Pieces.{predicted_reply};
ghost use Rattle.run.specs.Pieces.{transposed_reply, moving_reply, judge_reply, expects_reply, cut_reply};
ghost use Rattle.run.specs.Pieces.{along_reply, shift_reply, update_reply, step_replied, step_reply, learned_reply};
ghost use Rattle.run.specs.Results.{truth_of};
ghost use Rattle.run.specs.program.Judgement.{judgement_of};

use crate::area::{CURVATURE_LEN, FILTER_LEN, POINT_LEN};
use crate::checks::sizes_fit;
use crate::judgement::{Baseline, Judged};
use crate::limits::{CONSTRAINTS, ITERATIONS, VARIABLES};
use crate::proposal::StandingPoint;
use crate::radius::cut_within;
use crate::rows::RowCounts;
use crate::state::Sizes;
use crate::{corrected, curvature, judgement, proposal, residuals, rows, step};
use interval::Scalar;
use linear::{LinearError, clear, put};

// Whether the counts fit, and so many numbers are those of their rows.
fn sized(c: RowCounts, count: usize) -> Result<(), LinearError>
    ensures { done_of result tt ≡ sized_of c count }
{
    let sizes = Sizes {
        n: c.n,
        s: c.s,
        limit: 0,
    };
    if !sizes_fit(sizes) {
        return Err(LinearError::TooMany);
    }
    if c.m > CONSTRAINTS {
        return Err(LinearError::TooMany);
    }
    if count != 2 * ((c.m + c.s) * (c.n + 1)) {
        return Err(LinearError::WrongLength);
    }
    Ok(())
}

// Whether the counts of both answers fit, and each has the numbers of its rows; the second has an m of its own.
fn both_sized(c: RowCounts, xs: &[f64], m: usize, next: &[f64]) -> Result<(), LinearError>
    ensures { done_of result tt ≡ both_sized c xs.now m next.now }
{
    if m > CONSTRAINTS {
        return Err(LinearError::TooMany);
    }
    sized(c, xs.len())?;
    sized(RowCounts { m, ..c }, next.len())
}

// What was checked before, then that a count is the one wanted.
fn wants(before: Result<(), LinearError>, count: usize, wanted: usize) -> Result<(), LinearError>
    ensures { done_of result tt ≡ wants_of (done_of before tt) count wanted }
{
    before?;
    if count != wanted {
        return Err(LinearError::WrongLength);
    }
    Ok(())
}

// The counts and the rows, then two further counts.
fn fits(
    c: RowCounts,
    xs: &[f64],
    a: usize,
    wanted_a: usize,
    b: usize,
    wanted_b: usize,
) -> Result<(), LinearError>
    ensures { done_of result tt ≡ fits_two c xs.now a wanted_a b wanted_b }
{
    wants(wants(sized(c, xs.len()), a, wanted_a), b, wanted_b)
}

// How many variables d may say are read: none, or all.
fn variables_read(n: usize, d: usize) -> usize
    ensures { result ≡ variables_read n d }
{
    if d == 0 {
        return 0;
    }
    n
}

// |values + slopes delta|² of the sum's rows, over the first d variables: d is n, or 0 for the sum of squares.
pub fn squared(c: RowCounts, xs: &[f64], delta: &[f64], d: usize) -> Result<Scalar, LinearError>
    ensures { result_of result ≡ squared_reply c xs.now delta.now d }
{
    fits(c, xs, delta.len(), POINT_LEN, d, variables_read(c.n, d))?;
    Ok(residuals::squared(xs, rows::sum(c), delta, d))
}

// The violation that a step leads to, to first order.
pub fn predicted(c: RowCounts, xs: &[f64], delta: &[f64]) -> Result<Scalar, LinearError>
    ensures { result_of result ≡ predicted_reply c xs.now delta.now }
{
    wants(sized(c, xs.len()), delta.len(), POINT_LEN)?;
    residuals::predicted(xs, c, delta)
}

// The slopes of the sum's rows by each variable, times their weights: 48 numbers in w, 24 in out.
pub fn transposed(c: RowCounts, xs: &[f64], w: &[f64], out: &mut [f64]) -> Result<(), LinearError>
    ensures { replied result out.new
        ≡ transposed_reply c xs.now w.now out.old }
{
    fits(c, xs, w.len(), 48, out.len(), POINT_LEN)?;
    let n = c.n;
    clear(out);
    for j in 0..n {
        put(out, j, residuals::transposed_at(xs, rows::sum(c), w, j));
    }
    Ok(())
}

// Marks of the variables that some residual definitely depends on: 12 marks.
pub fn moving(c: RowCounts, xs: &[f64], marks: &mut [bool]) -> Result<(), LinearError>
    ensures { replied result marks.new ≡ moving_reply c xs.now marks.old }
{
    wants(sized(c, xs.len()), marks.len(), VARIABLES)?;
    marks.copy_from_slice(&residuals::moving(xs, c));
    Ok(())
}

// How a step fares, from the rows xs with violation theta to the rows `next`, which have an m of their own, against the
// first pairs of the filter: at most 200 pairs, of 800 numbers.
pub fn judge(
    c: RowCounts,
    xs: &[f64],
    m: usize,
    next: &[f64],
    theta: Scalar,
    filter: &[f64],
    count: usize,
    last: Option<Scalar>,
    step: &[f64],
) -> Result<Judged, LinearError>
    ensures { judgement_of result
        ≡ judge_reply c xs.now m next.now theta filter.now count last
        step.now }
{
    if count > ITERATIONS {
        return Err(LinearError::TooMany);
    }
    let fit = wants(both_sized(c, xs, m, next), filter.len(), FILTER_LEN);
    wants(fit, step.len(), POINT_LEN)?;
    let d = RowCounts { m, ..c };
    let landed = residuals::violation(next, d);
    let base = Baseline {
        theta,
        pairs: count,
        last,
    };
    judgement::judge(c, xs, d, next, landed, base, filter, step)
}

// Whether the model expects the step to lower the sum or the violation, from f and theta: 288 numbers of curvature.
pub fn expects(
    c: RowCounts,
    xs: &[f64],
    b: &[f64],
    f: Scalar,
    theta: Scalar,
    delta: &[f64],
) -> Result<bool, LinearError>
    ensures { truth_of result
        ≡ expects_reply c xs.now b.now f theta delta.now }
{
    fits(c, xs, b.len(), CURVATURE_LEN, delta.len(), POINT_LEN)?;
    let from = StandingPoint {
        counts: c,
        f,
        theta,
    };
    proposal::expects(from, xs, b, delta)
}

// Clears what was written of a piece that was refused.
fn cleared(d: Result<(), LinearError>, x: &mut [f64]) -> Result<(), LinearError>
    ensures { replied result x.new
        ≡ reply_of (zeros (length x.old)) (done_of d x.old) }
{
    if d.is_err() {
        clear(x);
    }
    d
}

// A step cut to the radius where it is definitely longer: 24 numbers in delta.
pub fn cut(n: usize, radius: Scalar, delta: &mut [f64]) -> Result<(), LinearError>
    ensures { replied result delta.new ≡ cut_reply n radius delta.old }
{
    if n > VARIABLES {
        return Err(LinearError::TooMany);
    }
    if delta.len() != POINT_LEN {
        return Err(LinearError::WrongLength);
    }
    cleared(cut_within(n, radius, delta), delta)
}

// The part of v along the constraints, 24 numbers in v, 2 n in out.
pub fn along(c: RowCounts, xs: &[f64], v: &[f64], out: &mut [f64]) -> Result<(), LinearError>
    ensures { replied result out.new
        ≡ along_reply c xs.now v.now out.old }
{
    wants(sized(c, xs.len()), v.len(), POINT_LEN)?;
    if out.len() != 2 * c.n {
        return Err(LinearError::WrongLength);
    }
    cleared(curvature::along_constraints(c, xs, v, out), out)
}

// The shortest move that meets the linearized constraints, among the variables that move: 12 marks, 24 numbers in d.
pub fn shift(c: RowCounts, xs: &[f64], moving: &[bool], d: &mut [f64]) -> Result<(), LinearError>
    ensures { replied result d.new
        ≡ shift_reply c xs.now moving.now d.old }
{
    fits(c, xs, moving.len(), VARIABLES, d.len(), POINT_LEN)?;
    cleared(corrected::shift(c, xs, moving, d), d)
}

// The curvature b, updated from the step between two points with their rows, of which `next` has an m of its own: 288
// numbers in b, 24 in step and lambda.
pub fn update_curvature(
    c: RowCounts,
    b: &mut [f64],
    step: &[f64],
    xs: &[f64],
    m: usize,
    next: &[f64],
    lambda: &[f64],
) -> Result<(), LinearError>
    ensures { replied result b.new
        ≡ update_reply c b.old step.now xs.now m next.now
        lambda.now }
{
    let rows = wants(both_sized(c, xs, m, next), b.len(), CURVATURE_LEN);
    wants(wants(rows, step.len(), POINT_LEN), lambda.len(), POINT_LEN)?;
    let d = RowCounts { m, ..c };
    cleared(
        curvature::update_curvature(c, step, xs, d, next, lambda, b),
        b,
    )
}

// The step of the problem linearized at the rows, with curvature b and damping mu, and its multipliers: 288 numbers in
// b, 12 marks, 24 numbers in delta and lambda, which are +0 where there is none.
pub fn step_at(
    c: RowCounts,
    xs: &[f64],
    b: &[f64],
    moving: &[bool],
    mu: Scalar,
    delta: &mut [f64],
    lambda: &mut [f64],
) -> Result<Option<usize>, LinearError>
    ensures { step_replied result delta.new lambda.new
        ≡ step_reply c xs.now b.now moving.now mu delta.old
        lambda.old }
{
    let rows = fits(c, xs, b.len(), CURVATURE_LEN, moving.len(), VARIABLES);
    wants(wants(rows, delta.len(), POINT_LEN), lambda.len(), POINT_LEN)?;
    let end = step::step(c, xs, b, moving, mu, delta, lambda);
    if end.ok().flatten().is_none() {
        clear(delta);
        clear(lambda);
    }
    end
}

// Whether any of the curvature's first n rows of n was learned: 288 numbers.
pub fn learned(n: usize, b: &[f64]) -> Result<bool, LinearError>
    ensures { truth_of result ≡ learned_reply n b.now }
{
    if n > VARIABLES {
        return Err(LinearError::TooMany);
    }
    if b.len() != CURVATURE_LEN {
        return Err(LinearError::WrongLength);
    }
    Ok(curvature::learned(n, b))
}
