// The search for a proposal, over dampings: left at the first question or stop. What no damping changes is worked out
// once, before the loop, so that another damping costs only what it changes.
ghost use Rattle.std.specs.Prelude.{◌^◌, ◌<◌, ◌≤◌, true, List, ◌≡◌, Float};
ghost use Rattle.interval.specs.Scaling.{is_positive};
ghost use Rattle.run.specs.Area.{HasRoom};
ghost use Rattle.run.specs.Damping.{damped};
ghost use Rattle.run.specs.Limits.{VARIABLES};
ghost use Rattle.run.specs.Search.{flat_or, follow, search_of};
ghost use Rattle.run.specs.Search as defined;
ghost use Rattle.run.specs.State.{rejected_for, with_radius};
ghost use Rattle.run.specs.program.Damping.{goes_on, stops_at};
ghost use Rattle.run.specs.program.Proposal.{proposal_result, standing_in, next_in, PreparedAt};
ghost use Rattle.run.specs.program.Rows.{FewRows};
ghost use Rattle.run.specs.program.Search.{turn_of, turn_result, found_result};
ghost use Rattle.run.specs.program.Step.{StepLengths};

use crate::area;
use crate::damping::{Damped, damp};
use crate::proposal::{Origin, Proposal, propose};
use crate::state::{Rejection, Search, Stop, Trial};
use crate::step::{FIXED_LEN, Prepared, prepare};
use interval::Scalar;
use linear::LinearError;

// Where a search is left; with a question the slices hold the step and its multipliers.
#[derive(Clone, Copy)]
pub enum Found {
    Ask(Search, Trial),
    Stop(Search, Stop),
    Refused(Search, LinearError),
}

// Whether the loop over dampings continues or ends.
#[derive(Clone, Copy)]
pub enum Turn {
    On(Search),
    Leave(Found),
}

// The stop where the model expects no drop: Flat before any damping grew, since then the point itself is the reason.
fn flat(x: Search, independent: usize, m: usize) -> Stop
    ensures { result ≡ flat_or x independent m }
{
    if x.first {
        return Stop::Flat(independent, m);
    }
    Stop::Damped(x.rejected)
}

// A proposal is rejected, with that radius from now on: the loop continues with more damping, or ends.
fn damp_or_leave(x: Search, radius: Scalar, why: Rejection) -> Turn
    requires { x.turned_down < 2 ^ 32 }
    ensures { result ≡ turn_of (damped goes_on stops_at (rejected_for (with_radius x radius) why)) }
{
    match damp(x, radius, why) {
        Damped::On(y) => Turn::On(y),
        Damped::Stop(y, s) => Turn::Leave(Found::Stop(y, s)),
    }
}

// What a proposal makes of the search: a trial or a stop ends it, and a rejected step asks for more damping. Where a
// step was rejected since its cut told nothing, the radius is the longest step again.
fn follow(p: Result<Proposal, LinearError>, x: Search, m: usize, max: Scalar) -> Turn
    requires { x.turned_down < 2 ^ 32 }
    ensures { (on : Search → defined.Found) (delta lambda next : List Float) →
        turn_result result on delta lambda next ≡ follow on m max x (proposal_result p delta lambda next) }
{
    match p {
        Ok(Proposal::Ask(t)) => Turn::Leave(Found::Ask(x, t)),
        Ok(Proposal::NoChange) => Turn::Leave(Found::Stop(x, Stop::NoChange(x.rejected))),
        Ok(Proposal::NoDrop(r)) => Turn::Leave(Found::Stop(x, flat(x, r, m))),
        Ok(Proposal::Unresolved) => damp_or_leave(x, max, Rejection::Unresolved),
        Ok(Proposal::NotPositive) => damp_or_leave(x, x.radius, Rejection::NotPositive),
        Err(e) => Turn::Leave(Found::Refused(x, e)),
    }
}

// The search, from what no damping changes.
fn seek_from(
    origin: Origin,
    area: &[f64],
    prepared: Result<Prepared, LinearError>,
    order: &[usize],
    fixed: &[f64],
    from: Search,
    delta: &mut [f64],
    lambda: &mut [f64],
) -> Found
    requires few_rows { FewRows origin.point.counts × HasRoom origin.sizes area.now ×
        (origin.sizes.n ≤ VARIABLES) × StepLengths delta.old lambda.old }
    requires prepared_at { PreparedAt origin area.now prepared order.now fixed.now }
    requires turned_down_bound { (from.turned_down < 2 ^ 31) × (is_positive from.mu ≡ true) }
    ensures { found_result result delta.new lambda.new
        (next_in origin area.now delta.new)
        ≡ search_of (standing_in origin area.now) origin.max_step from }
{
    let mut state = from;
    let found = loop {
        let p = propose(origin, area, prepared, order, fixed, state, delta, lambda);
        match follow(p, state, origin.point.counts.m, origin.max_step) {
            Turn::Leave(left) => {
                break left;
            }
            Turn::On(y) => {
                state = y;
            }
        }
    };
    found
}

// The search from a standing point, over the area that holds its rows and the curvature learned.
pub fn seek(
    origin: Origin,
    area: &[f64],
    from: Search,
    delta: &mut [f64],
    lambda: &mut [f64],
) -> Found
    requires few_rows { FewRows origin.point.counts × HasRoom origin.sizes area.now ×
        (origin.sizes.n ≤ VARIABLES) × StepLengths delta.old lambda.old }
    requires turned_down_bound { (from.turned_down < 2 ^ 31) × (is_positive from.mu ≡ true) }
    ensures { found_result result delta.new lambda.new
        (next_in origin area.now delta.new)
        ≡ search_of (standing_in origin area.now) origin.max_step from }
{
    let mut order = [0; 24];
    let mut fixed = [0.0; FIXED_LEN];
    let counts = origin.point.counts;
    let moving = origin.moving;
    let sizes = origin.sizes;
    let prepared = prepare(
        counts,
        area::standing_rows(area, sizes, counts),
        area::curvature_for(origin.plain, area, sizes),
        &moving,
        &mut order,
        &mut fixed,
    );
    seek_from(origin, area, prepared, &order, &fixed, from, delta, lambda)
}
