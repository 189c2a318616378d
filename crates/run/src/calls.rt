// The calls of a run: begin, the replies, and the point.
ghost use Rattle.std.specs.Prelude.{◌≡◌};
ghost use Rattle.run.specs.Calls.{point_of, after_call, begin_of, reply_of, reply_none_of};
ghost use Rattle.run.specs.program.Calls.{not_begun};

use crate::answered::{answered, answered_none};
use crate::area::{area_length, clear_unused, part, point_place, write_begun};
use crate::checks::check_begin;
use crate::damping::first_damping;
use crate::refusal::Refusal;
use crate::state::{Event, Kind, Returned, Sizes, State};
use crate::{checks, state};
use interval::Scalar;

// The asked point, or the standing one where no question is open. It is empty for a run that is refused as
// altered, and for an area of the wrong length.
pub fn point(st: State, area: &[f64]) -> &[f64]
    ensures { result.now ≡ point_of st area.now }
{
    if !checks::valid(st) {
        return &area[..0];
    }
    if area.len() != area_length(st.sizes) {
        return &area[..0];
    }
    part(area, point_place(st), 2 * st.sizes.n)
}

// Beside a refusal: no run, so any reply to it is refused as altered.
fn not_begun(refusal: Refusal) -> Returned
    ensures { result ≡ not_begun refusal }
{
    let z = Sizes {
        n: 0,
        s: 0,
        limit: 0,
    };
    let state = state::state_with(z, Scalar::ZERO, Scalar::ZERO, None);
    Returned {
        state,
        event: Event::Refused(refusal),
    }
}

// Begins a run of n variables and s sum rows from the point `start`, with at most `limit` iterations: its first
// question asks for the rows of `start`.
pub fn begin(
    n: usize,
    s: usize,
    limit: usize,
    start: &[f64],
    max_step: Scalar,
    area: &mut [f64],
) -> Returned
    ensures { after_call result area.new
        ≡ begin_of (record { n = n; s = s; limit = limit }) start.now max_step
        area.old }
{
    let z = Sizes { n, s, limit };
    if let Err(refusal) = check_begin(z, start, max_step, area.len()) {
        return not_begun(refusal);
    }
    write_begun(area, z, start);
    let mu = first_damping();
    let state = state::state_with(z, mu, max_step, Some(Kind::Start));
    Returned {
        state,
        event: Event::Question(0, Kind::Start, 0),
    }
}

// Answers the open question with rows, m constraint rows and then the sum's. Each answer has an m of its own.
pub fn reply(st: State, area: &mut [f64], m: usize, rows: &[f64]) -> Returned
    ensures { after_call result area.new ≡ reply_of st area.old m rows.now }
{
    let asked = match checks::check_rows(st, area.len(), m, rows) {
        Ok(kind) => kind,
        Err(refusal) => {
            return Returned {
                state: st,
                event: Event::Refused(refusal),
            };
        }
    };
    clear_unused(area, st);
    answered(asked, st, area, m, rows)
}

// Answers the open question with none: the point cannot be evaluated.
pub fn reply_none(st: State, area: &mut [f64]) -> Returned
    ensures { after_call result area.new ≡ reply_none_of st area.old }
{
    let asked = match checks::check(st, area.len()) {
        Ok(kind) => kind,
        Err(refusal) => {
            return Returned {
                state: st,
                event: Event::Refused(refusal),
            };
        }
    };
    clear_unused(area, st);
    answered_none(asked, st, area)
}
