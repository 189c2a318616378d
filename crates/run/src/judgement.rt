// The judgement of a landed point: whether it is lower than where the step began and than every point that stood
// before, whether that can be told at all, and whether the steps contract.
ghost use Rattle.std.specs.Prelude.{◌<◌, ◌&&◌, ◌||◌, ◌≡◌, length};
ghost use Rattle.interval.specs.Scalar.{sub_of};
ghost use Rattle.linear.specs.LinearResult.{result_of};
ghost use Rattle.run.specs.Filter.{beats_to};
ghost use Rattle.run.specs.Judgement.{sum_change, indefinite, rises, contracts, judged_by, judge_of};
ghost use Rattle.run.specs.Residuals.{violation_of};
ghost use Rattle.run.specs.Rows.{rows_in, constraints_of, evaluation_of};
ghost use Rattle.run.specs.program.Judgement.{Judging, judgement_of};
ghost use Rattle.run.specs.program.Rows.{Small};

use crate::filter::beats_as_pairs;
use crate::rows::{RowCounts, RowSet, value_of};
use crate::vectors::norm_of;
use crate::{residuals, rows};
use interval::Scalar;
use linear::LinearError;

// How a step fares: its length; whether it is lower than where it began and than every point that stood before; whether
// rounding hides both changes; and whether it is less than half as long as the last step taken.
#[derive(Clone, Copy)]
pub struct Judged {
    pub length: Scalar,
    pub lower: bool,
    pub undecided: bool,
    pub contracting: bool,
}

// By how much the sum of squares falls from the rows e of xs to the rows f of ys, Σ (r - r') (r + r'). Where the sum
// stays large, as near its minimum, the difference of the two sums is lost to their rounding; here what the two values
// share goes before anything is squared.
fn sum_change(xs: &[f64], e: RowSet, ys: &[f64], f: RowSet) -> Scalar
    requires { Small e }
    ensures { result ≡ sum_change (rows_in xs.now e) (rows_in ys.now f) }
{
    let mut total = Scalar::ZERO;
    let count = e.count;
    for i in 0..count {
        let a = value_of(xs, e, i);
        let b = value_of(ys, f, i);
        total = total.add(a.sub(b).mul(a.add(b)));
    }
    total
}

// Whether rounding hides the sign.
fn is_indefinite(v: Scalar) -> bool
    ensures { result ≡ indefinite v }
{
    !v.definitely_greater(Scalar::ZERO) && !v.definitely_less(Scalar::ZERO)
}

// Whether the sum or the violation definitely falls, and every pair of the filter is beaten.
fn is_lower(change: Scalar, fall: Scalar, beaten: bool) -> bool
    ensures { result ≡ (rises change || rises fall) && beaten }
{
    (change.definitely_greater(Scalar::ZERO) || fall.definitely_greater(Scalar::ZERO)) && beaten
}

// Whether neither change can be told from its rounding.
fn is_undecided(change: Scalar, fall: Scalar) -> bool
    ensures { result ≡ indefinite change && indefinite fall }
{
    is_indefinite(change) && is_indefinite(fall)
}

// Whether a step was taken before, and twice this length is definitely less than its length. Where rounding hides both
// changes this still tells progress: steps that halve add up to a bounded way, while those that shrink by less may not.
fn contracts(last: Option<Scalar>, length: Scalar) -> bool
    ensures { result ≡ contracts last length }
{
    match last {
        Some(before) => Scalar::TWO.mul(length).definitely_less(before),
        None => false,
    }
}

// What a landed point is judged against: the violation of the point that the step left, how many pairs the filter has,
// and the last step taken.
#[derive(Clone, Copy)]
pub struct Baseline {
    pub theta: Scalar,
    pub pairs: usize,
    pub last: Option<Scalar>,
}

// The judgement of a step of that length, from the sum's change, and f and the violation where the step landed. A step
// that is lower against the present point alone could lead back to an earlier one, by trading the sum for the violation
// and back, so it is held against every pair of the filter.
fn judged_by(
    change: Scalar,
    f: Scalar,
    theta: Scalar,
    base: Baseline,
    filter: &[f64],
    length: Scalar,
) -> Judged
    requires { base.pairs < 65536 }
    ensures { result ≡ judged_by change (sub_of base.theta theta)
        (beats_to filter.now f theta base.pairs) length base.last }
{
    let last = base.last;
    let beaten = beats_as_pairs(filter, f, theta, base.pairs);
    let fall = base.theta.sub(theta);
    Judged {
        length,
        lower: is_lower(change, fall, beaten),
        undecided: is_undecided(change, fall),
        contracting: contracts(last, length),
    }
}

// How the step from the rows xs with counts c to the rows `next` with counts d and violation `landed` fares against the
// baseline and the first pairs of the filter.
pub fn judge(
    c: RowCounts,
    xs: &[f64],
    d: RowCounts,
    next: &[f64],
    landed: Result<Scalar, LinearError>,
    base: Baseline,
    filter: &[f64],
    step: &[f64],
) -> Result<Judged, LinearError>
    requires { Judging c d base (length step.now) }
    ensures { result_of landed ≡ violation_of (constraints_of d next.now) →
        judgement_of result
        ≡ judge_of c.n (evaluation_of c xs.now) (evaluation_of d next.now) base.theta
        filter.now base.pairs base.last step.now }
{
    let length = norm_of(step, c.n)?;
    let theta = landed?;
    let change = sum_change(xs, rows::sum(c), next, rows::sum(d));
    let f = residuals::sum_squared(next, d);
    Ok(judged_by(change, f, theta, base, filter, length))
}
