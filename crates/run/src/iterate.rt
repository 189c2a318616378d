// The next iteration: the search from the standing point, until a question, the finish or a refusal.
ghost use Rattle.std.specs.Prelude.{◌≡◌};
ghost use Rattle.linear.specs.LinearResult.{result_of};
ghost use Rattle.run.specs.Area.{Memory, standing_counts, numbers_in, HasRoom};
ghost use Rattle.run.specs.Iterate.{left_at};
ghost use Rattle.run.specs.Iterate as run;
ghost use Rattle.run.specs.Vectors.{moved_of};
ghost use Rattle.run.specs.program.Area.{Working, StandingKnown, StandingWhole};
ghost use Rattle.run.specs.program.Endings.{Leaves, Bounded};
ghost use Rattle.run.specs.program.Iterate.{sought_of, search_origin};
ghost use Rattle.run.specs.program.Rows.{FewRows};
ghost use Rattle.run.specs.program.Search.{found_result};
ghost use Rattle.run.specs.program.Step.{StepLengths};

use crate::area;
use crate::endings::{ask, finish, refuse};
use crate::proposal::{Origin, StandingPoint};
use crate::residuals::sum_squared;
use crate::rows::standing_counts;
use crate::search::{Found, seek};
use crate::state::{Kind, Returned, State, Stop, with_search, with_trial_of};
use interval::Scalar;
use linear::LinearError;

// The event that follows where a search was left, with the step and its multipliers.
fn left_at(st: State, area: &mut [f64], found: Found, delta: &[f64], lambda: &[f64]) -> Returned
    requires { HasRoom st.sizes area.old × Bounded 2147483648 st × StepLengths delta.now lambda.now }
    ensures { (w : Memory) → Working st w area.old → StandingWhole (numbers_in st) w →
        Leaves (left_at st w (found_result found delta.now lambda.now
        (moved_of st.sizes.n w.standing delta.now))) result area.new }
{
    match found {
        Found::Ask(x, t) => {
            area::write_trial(area, st, delta, lambda);
            ask(with_trial_of(st, x, t), Kind::Trial, 0)
        }
        Found::Stop(x, stop) => finish(with_search(st, x), area, stop),
        Found::Refused(x, e) => refuse(with_search(st, x), area, e),
    }
}

// What the search goes out from: the standing point, with the sum from its rows and their violation theta.
fn search_origin(st: State, area: &[f64], theta: Scalar) -> Origin
    requires { HasRoom st.sizes area.now × FewRows (standing_counts st) }
    ensures { result ≡ search_origin st area.now theta }
{
    let counts = standing_counts(st);
    let sizes = st.sizes;
    let f = sum_squared(area::standing_rows(area, sizes, counts), counts);
    let point = StandingPoint { counts, f, theta };
    let moving = st.moving;
    let max_step = st.max_step;
    Origin {
        sizes,
        point,
        moving,
        plain: st.search.plain,
        max_step,
    }
}

// The search from the standing point with its violation, until it is left; a violation that is refused leaves it.
fn seek_standing(
    st: State,
    area: &[f64],
    standing: Result<Scalar, LinearError>,
    delta: &mut [f64],
    lambda: &mut [f64],
) -> Found
    requires { HasRoom st.sizes area.now × Bounded 2147483648 st × StepLengths delta.old lambda.old }
    ensures { (w : Memory) → StandingKnown st (result_of standing) w area.now →
        found_result result delta.new lambda.new
        (moved_of st.sizes.n w.standing delta.new) ≡ sought_of st w }
{
    let from = st.search;
    match standing {
        Ok(theta) => seek(search_origin(st, area, theta), area, from, delta, lambda),
        Err(e) => Found::Refused(from, e),
    }
}

// The search for a proposal from the standing point with its violation, until a question, the finish or a refusal.
pub fn search(st: State, area: &mut [f64], standing: Result<Scalar, LinearError>) -> Returned
    requires { HasRoom st.sizes area.old × Bounded 2147483648 st }
    ensures { (w : Memory) → StandingKnown st (result_of standing) w area.old →
        Leaves (run.search st w) result area.new }
{
    let mut delta = [0.0; 24];
    let mut lambda = [0.0; 24];
    let found = seek_standing(st, area, standing, &mut delta, &mut lambda);
    left_at(st, area, found, &delta, &lambda)
}

// A new iteration, or the finish where the limit is reached.
pub fn iterate(st: State, area: &mut [f64], standing: Result<Scalar, LinearError>) -> Returned
    requires { HasRoom st.sizes area.old × Bounded 2147483648 st }
    ensures { (w : Memory) → StandingKnown st (result_of standing) w area.old →
        Leaves (run.iterate st w) result area.new }
{
    if st.sizes.limit <= st.counts.iterations {
        return finish(st, area, Stop::Budget);
    }
    search(st, area, standing)
}
