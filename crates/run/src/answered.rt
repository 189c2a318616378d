// What follows an accepted answer, by the kind of its question. A point that cannot be evaluated is no error: at the
// start there is nothing to go on from, a trial went too far and is turned down, and a correction is left out, so that
// the trial is judged as it landed.
ghost use Rattle.std.specs.Prelude.{◌≤◌, true, false, ◌≡◌, length, Some};
ghost use Rattle.interval.specs.Scalar.{pick};
ghost use Rattle.run.specs.Limits.{CONSTRAINTS, CORRECTIONS};
ghost use Rattle.run.specs.declared.state.Kind.TheVariants as kinds;
ghost use Rattle.run.specs.Answered.{started, from_standing, answered, answered_none};
ghost use Rattle.run.specs.Area.{Memory, used_in, numbers_in, HasRoom};
ghost use Rattle.run.specs.Checks.{phase_fits};
ghost use Rattle.run.specs.Corrected.{land_trial, land_correction};
ghost use Rattle.run.specs.Rows.{row_numbers, row_counts};
ghost use Rattle.run.specs.program.Area.{Uses, Working, StandingWhole, TrialWhole, LandedWhole};
ghost use Rattle.run.specs.program.Corrected.{RowsToLand};
ghost use Rattle.run.specs.program.Endings.{Leaves, Bounded};

use crate::corrected::{correction_none, land_correction, land_trial};
use crate::decide::turn_down;
use crate::endings::{finish, refuse};
use crate::iterate::iterate;
use crate::residuals::standing_violation;
use crate::rows::row_counts;
use crate::state::{Kind, Rejection, Returned, State, Stop, with_start};
use crate::{area, residuals};
use linear::LinearError;

// A start's rows: which variables they depend on is fixed for the whole run, and the first iteration follows. A
// variable that no residual definitely depends on would make the curvature singular, so it keeps its place.
fn started(st: State, area: &mut [f64], m: usize, rows: &[f64]) -> Returned
    requires { HasRoom st.sizes area.old
        × (m ≤ CONSTRAINTS)
        × (length rows.now ≡ row_numbers (row_counts st.sizes m))
        × Bounded 1073741824 st
        × (st.phase ≡ Some kinds.Start) }
    ensures { (w : Memory) → Uses st.sizes (used_in st) w area.old →
        Leaves (started st w m rows.now) result area.new }
{
    let c = row_counts(st.sizes, m);
    let moving = residuals::moving(rows, c);
    area::write_start(area, st, rows);
    let standing = residuals::violation(rows, c);
    iterate(with_start(st, m, moving), area, standing)
}

// A trial's or a correction's rows land, once the violation of the standing point is known.
fn land(st: State, area: &mut [f64], m: usize, rows: &[f64], trial: bool) -> Returned
    requires { RowsToLand st area.old m (length rows.now) × (st.counts.corrections ≤ CORRECTIONS) }
    ensures { (w : Memory) → Working st w area.old → StandingWhole (numbers_in st) w →
        TrialWhole (numbers_in st) w → (trial ≡ false → LandedWhole (numbers_in st) w) →
        Leaves (from_standing st w (λ theta. pick trial (land_trial st w m rows.now theta)
        (land_correction st w m rows.now theta))) result area.new }
{
    match standing_violation(st, area) {
        Ok(theta) => {
            if trial {
                land_trial(st, area, m, rows, theta)
            } else {
                land_correction(st, area, m, rows, theta)
            }
        }
        Err(e) => refuse(st, area, e),
    }
}

// What follows an accepted answer with rows, m constraint rows among them.
pub fn answered(kind: Kind, st: State, area: &mut [f64], m: usize, rows: &[f64]) -> Returned
    requires { HasRoom st.sizes area.old × ((m ≤ CONSTRAINTS) ×
        ((length rows.now ≡ row_numbers (row_counts st.sizes m)) ×
        (Bounded 1073741824 st × ((st.counts.corrections ≤ CORRECTIONS) ×
        ((phase_fits st (Some kind) ≡ true) × (st.phase ≡ Some kind)))))) }
    ensures { (w : Memory) → Uses st.sizes (used_in st) w area.old →
        Leaves (answered kind st w m rows.now) result area.new }
{
    match kind {
        Kind::Start => started(st, area, m, rows),
        Kind::Trial => land(st, area, m, rows, true),
        Kind::Correction => land(st, area, m, rows, false),
    }
}

// What follows an accepted answer with none.
pub fn answered_none(kind: Kind, st: State, area: &mut [f64]) -> Returned
    requires { HasRoom st.sizes area.old × (Bounded 1073741824 st ×
        ((phase_fits st (Some kind) ≡ true) × (st.phase ≡ Some kind))) }
    ensures { (w : Memory) → Uses st.sizes (used_in st) w area.old →
        Leaves (answered_none kind st w) result area.new }
{
    match kind {
        Kind::Start => finish(st, area, Stop::Infeasible),
        Kind::Trial => {
            let standing = standing_violation(st, area);
            turn_down(st, area, Rejection::Infeasible, standing)
        }
        Kind::Correction => correction_none(st, area),
    }
}
