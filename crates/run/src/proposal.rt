// What one damping proposes: a step, cut to the radius where it is definitely longer, and the point it leads to. A step
// that the model expects nothing of is not asked about: an answer is the caller's work.
ghost use Rattle.std.specs.Prelude.{◌≤◌, List, ◌≡◌, Float, length};
ghost use Rattle.interval.specs.Result.{ok};
ghost use Rattle.interval.specs.Scalar.{zero_s, sub_of, definitely_greater};
ghost use Rattle.linear.specs.LinearResult.{result_of};
ghost use Rattle.linear.specs.Results.{bind};
ghost use Rattle.run.specs.Limits.{VARIABLES};
ghost use Rattle.run.specs.Area.{HasRoom};
ghost use Rattle.run.specs.Proposal.{curvature_along, expects_of, ask, trial_of, shortened_of, within_of, proposal_of};
ghost use Rattle.run.specs.Proposal.{tried_of};
ghost use Rattle.run.specs.Radius.{cut_of};
ghost use Rattle.run.specs.Results.{truth_of};
ghost use Rattle.run.specs.Rows.{constraints_of};
ghost use Rattle.run.specs.Vectors.{moved_of};
ghost use Rattle.run.specs.program.Proposal.{model_for, proposal_result, point_of, still_for, standing_in};
ghost use Rattle.run.specs.program.Proposal.{next_in, PreparedAt};
ghost use Rattle.run.specs.program.Rows.{FewRows};
ghost use Rattle.run.specs.program.Step.{StepLengths};

use crate::area;
use crate::curvature::products;
use crate::radius::cut;
use crate::residuals::{predicted, squared};
use crate::rows::{RowCounts, sum};
use crate::state::{Search, Sizes, Trial};
use crate::step::{Prepared, damped_step};
use crate::vectors::{choose_if, moved, norm_of, same};
use interval::Scalar;
use linear::{LinearError, at, in_row, plus_dot, put};

// The numbers of a standing point: how many variables and rows there are, the sum f and the violation theta.
#[derive(Clone, Copy)]
pub struct StandingPoint {
    pub counts: RowCounts,
    pub f: Scalar,
    pub theta: Scalar,
}

// What every damping of a search goes out from: the sizes of the run, the standing point, the variables that move,
// whether the curvature learned is left aside, and the longest step.
#[derive(Clone, Copy)]
pub struct Origin {
    pub sizes: Sizes,
    pub point: StandingPoint,
    pub moving: [bool; 12],
    pub plain: bool,
    pub max_step: Scalar,
}

// What a damping proposes: a trial, or why there is none. `NoDrop` says how many rows are independent.
#[derive(Clone, Copy)]
pub enum Proposal {
    NotPositive,
    NoDrop(usize),
    Unresolved,
    NoChange,
    Ask(Trial),
}

// The curvature along a step, deltaᵀ B delta.
fn curvature_along(n: usize, b: &[f64], delta: &[f64]) -> Scalar
    requires { n ≤ VARIABLES }
    ensures { result ≡ curvature_along n b.now delta.now }
{
    let mut rows = [0.0; 24];
    products(n, n, b, delta, &mut rows);
    plus_dot(delta, in_row(0), &rows, in_row(0), Scalar::ZERO, n)
}

// Whether the violation falls, from what it is to what is predicted.
fn falls(theta: Scalar, predicted: Result<Scalar, LinearError>) -> Result<bool, LinearError>
    ensures { truth_of result ≡ bind (result_of predicted) (λ v. ok (definitely_greater (sub_of theta v) zero_s)) }
{
    Ok(theta.sub(predicted?).definitely_greater(Scalar::ZERO))
}

// Whether the model expects the step to lower the sum or, asked only then, the violation.
pub fn expects(
    point: StandingPoint,
    rows: &[f64],
    b: &[f64],
    delta: &[f64],
) -> Result<bool, LinearError>
    requires { FewRows point.counts }
    ensures { truth_of result
        ≡ expects_of (model_for point rows.now b.now) delta.now }
{
    let c = point.counts;
    let left = squared(rows, sum(c), delta, c.n);
    let drop = point.f.sub(left).sub(curvature_along(c.n, b, delta));
    if drop.definitely_greater(Scalar::ZERO) {
        return Ok(true);
    }
    falls(point.theta, predicted(rows, c, delta))
}

// The trial, once the step's length is known or refused.
fn asked(predicted: Scalar, length: Result<Scalar, LinearError>) -> Result<Proposal, LinearError>
    ensures { (delta lambda next : List Float) →
        proposal_result result delta lambda next
        ≡ bind (result_of length) (λ tried. ok (ask (record {
          delta = delta;
          lambda = lambda;
          next = next;
          predicted = predicted;
          tried = tried;
        }))) }
{
    let tried = length?;
    Ok(Proposal::Ask(Trial { predicted, tried }))
}

// The trial of a step whose choices are made: none where the point would be the same.
fn tried(c: RowCounts, rows: &[f64], x: &[f64], delta: &[f64]) -> Result<Proposal, LinearError>
    requires { FewRows c × (length delta.now ≡ 24) }
    ensures { (lambda : List Float) →
        proposal_result result delta.now lambda (moved_of c.n x.now delta.now)
        ≡ tried_of (point_of c.n x.now (constraints_of c rows.now)) delta.now
        lambda }
{
    let n = c.n;
    let mut next = [0.0; 24];
    moved(n, x, delta, &mut next);
    let predicted = predicted(rows, c, delta)?;
    if same(n, &next, x) {
        return Ok(Proposal::NoChange);
    }
    asked(predicted, norm_of(delta, n))
}

// The trial of a step, after each of its entries is chosen in its place.
fn trial(c: RowCounts, rows: &[f64], x: &[f64], delta: &mut [f64]) -> Result<Proposal, LinearError>
    requires { FewRows c × (length delta.old ≡ 24) }
    ensures { (lambda : List Float) →
        proposal_result result delta.new lambda (moved_of c.n x.now delta.new)
        ≡ trial_of (point_of c.n x.now (constraints_of c rows.now)) delta.old
        lambda }
{
    let n = c.n;
    for i in 0..12 {
        let d = at(delta, i);
        put(delta, i, choose_if(i < n, d));
    }
    tried(c, rows, x, delta)
}

// The trial of a step once it is cut, if the model still expects something of it.
fn shortened(
    point: StandingPoint,
    rows: &[f64],
    x: &[f64],
    b: &[f64],
    shrink: Scalar,
    delta: &mut [f64],
) -> Result<Proposal, LinearError>
    requires { FewRows point.counts × (length delta.old ≡ 24) }
    ensures { (lambda : List Float) →
        proposal_result result delta.new lambda (moved_of point.counts.n x.now delta.new)
        ≡ shortened_of (still_for point rows.now b.now x.now)
        (cut_of point.counts.n delta.old shrink) lambda }
{
    let c = point.counts;
    cut(c.n, delta, shrink);
    let drop = expects(point, rows, b, delta)?;
    if drop {
        return trial(c, rows, x, delta);
    }
    Ok(Proposal::Unresolved)
}

// The trial of a step, cut where it is definitely longer than the radius: further off the model is not to be trusted.
fn within(
    point: StandingPoint,
    rows: &[f64],
    x: &[f64],
    b: &[f64],
    radius: Scalar,
    delta: &mut [f64],
) -> Result<Proposal, LinearError>
    requires { FewRows point.counts × (length delta.old ≡ 24) }
    ensures { (lambda : List Float) →
        proposal_result result delta.new lambda (moved_of point.counts.n x.now delta.new)
        ≡ within_of (still_for point rows.now b.now x.now) radius delta.old
        lambda }
{
    let c = point.counts;
    let length = norm_of(delta, c.n)?;
    if !length.definitely_greater(radius) {
        return trial(c, rows, x, delta);
    }
    let shrink = radius.div(length)?;
    shortened(point, rows, x, b, shrink, delta)
}

// What a search's damping proposes, from what was prepared, within its radius; where it asks, delta and lambda hold the
// step and its multipliers.
pub fn propose(
    origin: Origin,
    area: &[f64],
    prepared: Result<Prepared, LinearError>,
    order: &[usize],
    fixed: &[f64],
    state: Search,
    delta: &mut [f64],
    lambda: &mut [f64],
) -> Result<Proposal, LinearError>
    requires few_rows { FewRows origin.point.counts × HasRoom origin.sizes area.now ×
        (origin.sizes.n ≤ VARIABLES) × StepLengths delta.old lambda.old }
    requires prepared_at { PreparedAt origin area.now prepared order.now fixed.now }
    ensures { proposal_result result delta.new lambda.new
        (next_in origin area.now delta.new)
        ≡ proposal_of (standing_in origin area.now) state.mu state.radius }
{
    let point = origin.point;
    let moving = origin.moving;
    let step = damped_step(
        point.counts.n,
        &moving,
        prepared,
        order,
        fixed,
        state.mu,
        delta,
        lambda,
    )?;
    let Some(independent) = step else {
        return Ok(Proposal::NotPositive);
    };
    let sizes = origin.sizes;
    let rows = area::standing_rows(area, sizes, point.counts);
    let b = area::curvature_for(origin.plain, area, sizes);
    let drop = expects(point, rows, b, delta)?;
    if drop {
        let x = area::standing_point(area, sizes);
        return within(point, rows, x, b, state.radius, delta);
    }
    Ok(Proposal::NoDrop(independent))
}
