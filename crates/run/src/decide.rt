// What a judgement decides: the run stops, takes the step, tries again without the curvature, or turns the step down.
ghost use Rattle.std.specs.Prelude.{◌≤◌, ◌*◌, not, ◌&&◌, true, false, ◌||◌, ◌≡◌, length};
ghost use Rattle.interval.specs.Scaling.{is_positive};
ghost use Rattle.linear.specs.LinearResult.{result_of, done_of};
ghost use Rattle.run.specs.Limits.{VARIABLES};
ghost use Rattle.run.specs.Area.{Memory, landed_at, standing_at, curvature_of, numbers_in, pairs_in, HasRoom};
ghost use Rattle.run.specs.Area.{standing_counts, landed_counts};
ghost use Rattle.run.specs.Curvature.{learned_of, update_curvature};
ghost use Rattle.run.specs.Decide.{held, linear_of, take, was_taken, decide, judge};
ghost use Rattle.run.specs.Decide as run;
ghost use Rattle.run.specs.Judgement.{judge_of};
ghost use Rattle.run.specs.Residuals.{violation_of};
ghost use Rattle.run.specs.Results.{truth_of};
ghost use Rattle.run.specs.State.{searching, rejected_for, with_radius};
ghost use Rattle.run.specs.program.Area.{StandingKnown, ReadAll, ViolationsKnown};
ghost use Rattle.run.specs.program.Decide.{taken_with};
ghost use Rattle.run.specs.program.Endings.{Leaves, Bounded, Underway};
ghost use Rattle.run.specs.program.Judgement.{judgement_of};
ghost use Rattle.run.specs.program.Proposal.{curvature_for};
ghost use Rattle.run.specs.program.Rows.{FewRows};

use crate::area::{CURVATURE_LEN, pairs_in};
use crate::curvature::{learned, update_curvature};
use crate::damping::{Damped, damp, shrunk};
use crate::endings::{finish, refuse};
use crate::iterate::{iterate, search};
use crate::judgement::{Baseline, Judged, judge};
use crate::radius::radius_after;
use crate::rows::{landed_counts, standing_counts};
use crate::state::{Rejection, Returned, Sizes, State, Stop, reject, standing_on, with_search};
use crate::{area, residuals};
use interval::Scalar;
use linear::LinearError;

// The search goes on with that radius and more damping, while that is finite.
fn grow(
    st: State,
    area: &mut [f64],
    radius: Scalar,
    why: Rejection,
    standing: Result<Scalar, LinearError>,
) -> Returned
    requires { HasRoom st.sizes area.old × Bounded 1073741824 st }
    ensures { (w : Memory) → StandingKnown st (result_of standing) w area.old →
        Leaves (run.grow (searching st (with_radius (rejected_for st.search why) radius)) w) result area.new }
{
    match damp(st.search, radius, why) {
        Damped::On(y) => search(with_search(st, y), area, standing),
        Damped::Stop(y, stop) => finish(with_search(st, y), area, stop),
    }
}

// A step is turned down: the model was trusted too far, so a quarter of the length tried is the radius, with more
// damping.
pub fn turn_down(
    st: State,
    area: &mut [f64],
    why: Rejection,
    standing: Result<Scalar, LinearError>,
) -> Returned
    requires { HasRoom st.sizes area.old × Bounded 1073741824 st }
    ensures { (w : Memory) → StandingKnown st (result_of standing) w area.old →
        Leaves (run.turn_down st w why) result area.new }
{
    match st.trial.tried.div(Scalar::degenerate(4.0)) {
        Ok(q) => grow(st, area, q.sharpen(), why, standing),
        Err(e) => {
            let x = reject(st.search, why);
            refuse(with_search(st, x), area, LinearError::from(e))
        }
    }
}

// Whether a step that is not lower may be tried again: only where there is curvature to leave out.
fn may_retry(plain: bool, z: Sizes, area: &[f64]) -> bool
    requires { (z.n ≤ VARIABLES) × HasRoom z area.now }
    ensures { result ≡ (not plain && learned_of z.n (curvature_for z false area.now)) }
{
    !plain && learned(z.n, area::curvature_for(false, area, z))
}

// A step that is not lower is tried again without the curvature learned, once in an iteration, or turned down.
// Curvature learned from earlier steps may no longer hold here, as on the far side of a singular point, and without it
// the step is one of descent; so this comes before more damping.
pub fn not_lower(st: State, area: &mut [f64], standing: Result<Scalar, LinearError>) -> Returned
    requires { HasRoom st.sizes area.old × Bounded 1073741824 st }
    ensures { (w : Memory) → StandingKnown st (result_of standing) w area.old →
        Leaves (run.not_lower st w) result area.new }
{
    if may_retry(st.search.plain, st.sizes, area) {
        let mut y = reject(st.search, Rejection::NotLower);
        let turned_down = st.search.turned_down + 1;
        y.turned_down = turned_down;
        y.plain = true;
        return search(with_search(st, y), area, standing);
    }
    turn_down(st, area, Rejection::NotLower, standing)
}

// Whether the constraints came as near as their linearization said: the violation fell by three quarters of the drop
// that was predicted, at least.
fn held(old: Scalar, predicted: Scalar, new: Scalar) -> bool
    ensures { result ≡ held old predicted new }
{
    let fell = old.sub(new).mul(Scalar::degenerate(4.0));
    fell.definitely_greater(old.sub(predicted).mul(Scalar::degenerate(3.0)))
}

// Whether they did, by the violation of the landed point. It is asked only where there was a violation to lower, and
// then the radius may grow beyond the longest step that a caller allows at once.
fn linear_of(
    st: State,
    theta: Scalar,
    landed: Result<Scalar, LinearError>,
) -> Result<bool, LinearError>
    ensures { (w : Memory) → result_of landed ≡ violation_of (landed_at st w).constraints →
        truth_of result ≡ linear_of st w theta }
{
    if theta.definitely_greater(Scalar::ZERO) {
        return Ok(held(theta, st.trial.predicted, landed?));
    }
    Ok(false)
}

// The curvature after the step into b, which holds as many numbers as it has: from that before the step, or from none
// in plain.
fn learn(st: State, area: &[f64], b: &mut [f64]) -> Result<(), LinearError>
    requires { HasRoom st.sizes area.now × FewRows (standing_counts st) × FewRows (landed_counts st) ×
        (length b.old ≡ (numbers_in st).curvature) }
    ensures { (w : Memory) → ReadAll st w area.now →
        done_of result b.new
        ≡ update_curvature st.sizes.n (curvature_of st w) w.step (standing_at st w) (landed_at st w)
        w.multipliers }
{
    let z = st.sizes;
    let c = standing_counts(st);
    let d = landed_counts(st);
    area::write(b, 0, area::curvature_for(st.search.plain, area, z));
    update_curvature(
        c,
        area::step(area, z),
        area::standing_rows(area, z, c),
        d,
        area::landed_rows(area, z, d),
        area::multipliers(area, z, c),
        b,
    )
}

// The landed point stands, with the curvature learned from the step: the next iteration.
fn take_with(
    st: State,
    area: &mut [f64],
    theta: Scalar,
    landed: Result<Scalar, LinearError>,
    span: Scalar,
    mu: Scalar,
    radius: Scalar,
) -> Returned
    requires { HasRoom st.sizes area.old × Underway st × (is_positive mu ≡ true) }
    ensures { (w : Memory) → ViolationsKnown st theta (result_of landed) w area.old →
        Leaves (taken_with st w theta span mu radius) result area.new }
{
    let mut entries = [0.0; CURVATURE_LEN];
    let n = st.sizes.n;
    let count = 2 * (n * n);
    if let Err(e) = learn(st, area, &mut entries[..count]) {
        return refuse(st, area, e);
    }
    let c = standing_counts(st);
    let f = residuals::sum_squared(area::standing_rows(area, st.sizes, c), c);
    area::write_taken(area, st, &entries[..count], f, theta);
    iterate(standing_on(st, span, mu, radius), area, landed)
}

// The step of that length is taken, from a point with violation theta to the landed one.
pub fn take(
    st: State,
    area: &mut [f64],
    theta: Scalar,
    landed: Result<Scalar, LinearError>,
    span: Scalar,
) -> Returned
    requires { HasRoom st.sizes area.old × Underway st }
    ensures { (w : Memory) → ViolationsKnown st theta (result_of landed) w area.old →
        Leaves (take st w theta span) result area.new }
{
    match linear_of(st, theta, landed) {
        Ok(linear) => match st.search.mu.div(Scalar::degenerate(3.0)) {
            Ok(third) => {
                let mu = shrunk(st.search.mu, third);
                let radius = radius_after(span, st.search.radius, st.max_step, linear);
                take_with(st, area, theta, landed, span, mu, radius)
            }
            Err(e) => refuse(st, area, LinearError::from(e)),
        },
        Err(e) => refuse(st, area, e),
    }
}

// Whether a first proposal is undecided after a step taken, and does not contract. Then rounding alone would decide
// what follows, and the run stops rather than take rounding for progress.
fn is_stuck(first: bool, last: Option<Scalar>, j: Judged) -> bool
    ensures { result ≡ (first && j.undecided && was_taken last && not j.contracting) }
{
    first && j.undecided && last.is_some() && !j.contracting
}

// Whether the step is lower, or a first proposal that is undecided and contracts: steps that halve come to an end, so
// they may be taken though no order of the sums can be told.
fn is_better(first: bool, j: Judged) -> bool
    ensures { result ≡ (j.lower || (first && j.undecided && j.contracting)) }
{
    j.lower || first && j.undecided && j.contracting
}

// What follows a judgement, from a standing point with violation theta to the landed one.
fn decide(
    st: State,
    area: &mut [f64],
    theta: Scalar,
    landed: Result<Scalar, LinearError>,
    j: Judged,
) -> Returned
    requires { HasRoom st.sizes area.old × Underway st }
    ensures { (w : Memory) → ViolationsKnown st theta (result_of landed) w area.old →
        Leaves (decide st w theta j) result area.new }
{
    let last = st.last;
    if is_stuck(st.search.first, last, j) {
        return finish(st, area, Stop::Undecided);
    }
    if is_better(st.search.first, j) {
        return take(st, area, theta, landed, j.length);
    }
    not_lower(st, area, Ok(theta))
}

// The judgement of the landed point, from a standing point with violation theta.
fn judge_in(
    st: State,
    area: &[f64],
    theta: Scalar,
    landed: Result<Scalar, LinearError>,
) -> Result<Judged, LinearError>
    requires { HasRoom st.sizes area.now × Underway st }
    ensures { (w : Memory) → ViolationsKnown st theta (result_of landed) w area.now →
        judgement_of result ≡ judge_of st.sizes.n (standing_at st w) (landed_at st w) theta w.filter
        (pairs_in st) st.last w.step }
{
    let last = st.last;
    let z = st.sizes;
    let pairs = pairs_in(st);
    let base = Baseline { theta, pairs, last };
    let c = standing_counts(st);
    let d = landed_counts(st);
    judge(
        c,
        area::standing_rows(area, z, c),
        d,
        area::landed_rows(area, z, d),
        landed,
        base,
        area::filter(area, z, pairs),
        area::step(area, z),
    )
}

// The landed point is judged, from a standing point with violation theta.
pub fn judge_landed(
    st: State,
    area: &mut [f64],
    theta: Scalar,
    landed: Result<Scalar, LinearError>,
) -> Returned
    requires { HasRoom st.sizes area.old × Underway st }
    ensures { (w : Memory) → ViolationsKnown st theta (result_of landed) w area.old →
        Leaves (judge st w theta) result area.new }
{
    match judge_in(st, area, theta, landed) {
        Ok(j) => decide(st, area, theta, landed, j),
        Err(e) => refuse(st, area, e),
    }
}
