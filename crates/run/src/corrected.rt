// Corrections (geop's `corrected`). A step follows the constraints' slopes, so along a curved one it lands off it by
// the square of its length, and would be turned down for that, again and again, at ever shorter lengths. So a landed
// point that is further off the constraints is shifted back onto them, at most 4 times, before it is judged.
ghost use Rattle.std.specs.Prelude.{◌*◌, ◌/◌, ◌%◌, ◌≤◌, ◌≡◌, length};
ghost use Rattle.interval.specs.Result.{ok};
ghost use Rattle.interval.specs.Scalar.{pick, sharpen};
ghost use Rattle.linear.specs.LinearResult.{done_of, result_of};
ghost use Rattle.linear.specs.Flat.{list_to, at};
ghost use Rattle.run.specs.Limits.{CORRECTIONS};
ghost use Rattle.run.specs.declared.state.Kind.TheVariants as kinds;
ghost use Rattle.run.specs.Answered.{answered_none};
ghost use Rattle.run.specs.Area.{point_len, Memory, rows_at, HasRoom, numbers_in};
ghost use Rattle.run.specs.Corrected.{moving_slope, to, shift_of, shift_from, shifted_step, correct, keep};
ghost use Rattle.run.specs.Corrected.{land_correction, land_trial};
ghost use Rattle.run.specs.Decide.{judge};
ghost use Rattle.run.specs.Residuals.{violation_of};
ghost use Rattle.run.specs.Results.{truth_of};
ghost use Rattle.run.specs.Rows.{constraints_of};
ghost use Rattle.run.specs.Vectors.{vector, fill_to};
ghost use Rattle.run.specs.program.Area.{ViolationsKnown, StandingKnown, Working, StandingWhole};
ghost use Rattle.run.specs.program.Area.{TrialWhole, LandedWhole};
ghost use Rattle.run.specs.program.Corrected.{MarkedCounts, RowsToLand, shifted_of, nearer_of};
ghost use Rattle.run.specs.program.Endings.{Leaves, Underway};

use crate::decide::judge_landed;
use crate::endings::{ask, refuse};
use crate::limits::CORRECTIONS;
use crate::residuals::{chosen_values, landed_violation, standing_violation};
use crate::rows::{RowCounts, constraints, landed_counts, row_counts, slope_of};
use crate::state::{Kind, Returned, State, with_landed};
use crate::vectors::{all_finite, choose_if, moved, same};
use crate::{area, residuals};
use interval::Scalar;
use linear::{LinearError, at, clear, minus_solved, put};

// The slopes of the constraints by the variables that move, chosen, and zero by the others.
fn moving_slopes(c: RowCounts, xs: &[f64], moving: &[bool], jc: &mut [f64])
    requires { MarkedCounts c (length moving.now) × (length jc.old ≡ 2 * (c.m * c.n)) }
    ensures { jc.new ≡ list_to
        (λ p. moving_slope moving.now (constraints_of c xs.now) (p / c.n) (p % c.n))
        (c.m * c.n) }
{
    let n = c.n;
    let e = constraints(c);
    let q = c.m * n;
    for p in 0..q {
        let v = slope_of(xs, e, p / n, p % n);
        put(jc, p, choose_if(moving[p % n], v));
    }
}

// The first n of `from`, sharp, into a clear vector.
fn sharpened(n: usize, from: &[f64], to: &mut [f64])
    requires { length to.old ≡ point_len }
    ensures { to.new ≡ fill_to vector 0 (λ i. sharpen (at from.now i)) n }
{
    clear(to);
    for i in 0..n {
        let v = at(from, i);
        put(to, i, v.sharpen());
    }
}

// The shortest move that meets the linearized constraints, among the variables that move.
pub fn shift(c: RowCounts, xs: &[f64], moving: &[bool], d: &mut [f64]) -> Result<(), LinearError>
    requires { MarkedCounts c (length moving.now) × (length d.old ≡ point_len) }
    ensures { done_of result d.new ≡ shift_of moving.now (constraints_of c xs.now) }
{
    let n = c.n;
    let m = c.m;
    let q = 2 * (m * n);
    let k = 2 * m;
    let w = 2 * n;
    let mut jc = [0.0; 288];
    let mut values = [0.0; 24];
    let zero = [0.0; 24];
    let mut out = [0.0; 24];
    moving_slopes(c, xs, moving, &mut jc[..q]);
    chosen_values(xs, constraints(c), &mut values[..k]);
    minus_solved(m, n, &jc[..q], &values[..k], &zero[..w], &mut out[..w])?;
    sharpened(n, &out[..w], d);
    Ok(())
}

// Whether the shift takes the landed point, with its rows xs, to another, which is then in `next`.
pub fn shift_from(
    c: RowCounts,
    xs: &[f64],
    moving: &[bool],
    landed: &[f64],
    next: &mut [f64],
) -> Result<bool, LinearError>
    requires { MarkedCounts c (length moving.now) × (length next.old ≡ point_len) }
    ensures { shifted_of result next.new
        ≡ shift_from moving.now (constraints_of c xs.now) landed.now }
{
    let n = c.n;
    let mut d = [0.0; 24];
    shift(c, xs, moving, &mut d)?;
    let by: &[f64] = &d;
    if !all_finite(by, 12) {
        return Ok(false);
    }
    moved(n, landed, by, next);
    Ok(!same(n, next, landed))
}

// The step with a shift added, sharp.
pub fn shifted_step(n: usize, step: &mut [f64], d: &[f64])
    ensures { step.new ≡ shifted_step n step.old d.now }
{
    for i in 0..n {
        let v = at(step, i);
        let w = v.add(at(d, i));
        put(step, i, w.sharpen());
    }
}

// The landed point is shifted back onto the constraints, and that point asked, or it is judged.
fn correct(
    st: State,
    area: &mut [f64],
    theta: Scalar,
    landed: Result<Scalar, LinearError>,
) -> Returned
    requires { HasRoom st.sizes area.old × Underway st }
    ensures { (w : Memory) → ViolationsKnown st theta (result_of landed) w area.old →
        Leaves (correct st w theta) result area.new }
{
    let moving = st.moving;
    let mut next = [0.0; 24];
    let shifted = shift_from(
        landed_counts(st),
        area::landed_rows(area, st.sizes, landed_counts(st)),
        &moving,
        area::landed_point(area, st.sizes),
        &mut next,
    );
    match shifted {
        Ok(true) => {
            area::write_asked(area, st.sizes, &next);
            ask(st, Kind::Correction, st.counts.corrections)
        }
        Ok(false) => judge_landed(st, area, theta, landed),
        Err(e) => refuse(st, area, e),
    }
}

// A correction is asked for where it is due, or the landed point is judged.
fn correct_or_judge(
    st: State,
    area: &mut [f64],
    theta: Scalar,
    landed: Result<Scalar, LinearError>,
    corrects: bool,
) -> Returned
    requires { HasRoom st.sizes area.old × Underway st }
    ensures { (w : Memory) → ViolationsKnown st theta (result_of landed) w area.old →
        Leaves (pick corrects (correct st w theta) (judge st w theta)) result area.new }
{
    if corrects {
        return correct(st, area, theta, landed);
    }
    judge_landed(st, area, theta, landed)
}

// A correction's rows that are nearer the constraints are kept, and the step is shifted as well, since its length and
// the curvature are taken from where it led.
fn keep(
    st: State,
    area: &mut [f64],
    m: usize,
    rows: &[f64],
    theta: Scalar,
    landed: Result<Scalar, LinearError>,
) -> Returned
    requires { RowsToLand st area.old m (length rows.now) × (st.counts.corrections ≤ CORRECTIONS) }
    ensures { (w : Memory) → StandingKnown st (ok theta) w area.old →
        TrialWhole (numbers_in st) w → LandedWhole (numbers_in st) w →
        result_of landed ≡ violation_of (rows_at st m rows.now).constraints →
        Leaves (keep st w m rows.now theta) result area.new }
{
    let moving = st.moving;
    let mut d = [0.0; 24];
    let c = landed_counts(st);
    let shift = shift(c, area::landed_rows(area, st.sizes, c), &moving, &mut d);
    if let Err(e) = shift {
        return refuse(st, area, e);
    }
    let at = area::places(st.sizes).step;
    let n = st.sizes.n;
    shifted_step(n, &mut area[at..at + 2 * n], &d);
    area::write_landed(area, st, rows);
    let corrections = st.counts.corrections + 1;
    let t = with_landed(st, m, corrections);
    correct_or_judge(t, area, theta, landed, corrections < CORRECTIONS)
}

// Whether a correction's rows, by their violation, are nearer the constraints than the landed ones.
fn is_nearer(
    new: Result<Scalar, LinearError>,
    old: Result<Scalar, LinearError>,
) -> Result<bool, LinearError>
    ensures { truth_of result ≡ nearer_of (result_of new) (result_of old) }
{
    Ok(new?.definitely_less(old?))
}

// A correction's rows, from a standing point with violation theta: kept where they are nearer than the landed ones.
pub fn land_correction(
    st: State,
    area: &mut [f64],
    m: usize,
    rows: &[f64],
    theta: Scalar,
) -> Returned
    requires { RowsToLand st area.old m (length rows.now) × (st.counts.corrections ≤ CORRECTIONS) }
    ensures { (w : Memory) → StandingKnown st (ok theta) w area.old →
        TrialWhole (numbers_in st) w → LandedWhole (numbers_in st) w →
        Leaves (land_correction st w m rows.now theta) result area.new }
{
    let new = residuals::violation(rows, row_counts(st.sizes, m));
    let old = landed_violation(st, area);
    match is_nearer(new, old) {
        Ok(true) => keep(st, area, m, rows, theta, new),
        Ok(false) => judge_landed(st, area, theta, old),
        Err(e) => refuse(st, area, e),
    }
}

// A trial's rows, from a standing point with violation theta: corrected where the violation rose.
pub fn land_trial(st: State, area: &mut [f64], m: usize, rows: &[f64], theta: Scalar) -> Returned
    requires { RowsToLand st area.old m (length rows.now) }
    ensures { (w : Memory) → StandingKnown st (ok theta) w area.old →
        TrialWhole (numbers_in st) w → Leaves (land_trial st w m rows.now theta) result area.new }
{
    area::write_landed(area, st, rows);
    let t = with_landed(st, m, 0);
    let landed = residuals::violation(rows, row_counts(st.sizes, m));
    match landed {
        Ok(new) => correct_or_judge(t, area, theta, landed, new.definitely_greater(theta)),
        Err(e) => refuse(t, area, e),
    }
}

// A correction that cannot be evaluated: the point that landed before it is judged.
pub fn correction_none(st: State, area: &mut [f64]) -> Returned
    requires { HasRoom st.sizes area.old × Underway st }
    ensures { (w : Memory) → Working st w area.old → StandingWhole (numbers_in st) w →
        TrialWhole (numbers_in st) w → LandedWhole (numbers_in st) w →
        Leaves (answered_none kinds.Correction st w) result area.new }
{
    match standing_violation(st, area) {
        Ok(theta) => {
            let landed = landed_violation(st, area);
            judge_landed(st, area, theta, landed)
        }
        Err(e) => refuse(st, area, e),
    }
}
