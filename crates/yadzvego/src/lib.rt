// The calls of a run for C and Rust, each by name. A slice is passed as its pointer and count. Every function takes
// every number and every length, and equals the definition of the call beneath it.
#![tactic(auto)]

ghost use Rattle.std.specs.Prelude.{◌≡◌};
ghost use Rattle.yadzvego.specs.Exports.{after_export, begin_export, reply_export, reply_none_export, has_point};
ghost use Rattle.yadzvego.specs.Exports.{point_place, point_length};

mod c_state;
mod events;
pub mod lists;
pub mod scalars;
pub mod sheets;

use crate::c_state::{numbers_fit, state_at};
use crate::events::{altered, returned_after, returned_of};
pub use c_state::Run;
pub use events::{CReturned, EventNumbers};
use interval::Scalar;

// Begins a run: its first question asks for the rows of `start`.
pub fn yadzvego_begin(
    n: usize,
    s: usize,
    limit: usize,
    start: &[f64],
    max_step: Scalar,
    area: &mut [f64],
) -> CReturned
    ensures { after_export result area.new ≡ begin_export (record { n = n; s = s; limit = limit })
        start.now max_step area.old }
{
    returned_of(run::begin(n, s, limit, start, max_step, area))
}

// Answers the open question with rows, m constraint rows and then the sum's.
pub fn yadzvego_reply(run: Run, area: &mut [f64], m: usize, rows: &[f64]) -> CReturned
    ensures { after_export result area.new ≡ reply_export run area.old m rows.now }
{
    if !numbers_fit(run) {
        return altered(run);
    }
    returned_after(run, run::reply(state_at(run), area, m, rows))
}

// Answers the open question with none: the point cannot be evaluated.
pub fn yadzvego_reply_none(run: Run, area: &mut [f64]) -> CReturned
    ensures { after_export result area.new ≡ reply_none_export run area.old }
{
    if !numbers_fit(run) {
        return altered(run);
    }
    returned_after(run, run::reply_none(state_at(run), area))
}

fn has_point(run: Run, area: usize) -> bool
    ensures { result ≡ has_point run area }
{
    if !numbers_fit(run) {
        return false;
    }
    let st = state_at(run);
    if !run::valid(st) {
        return false;
    }
    area == run::area_length(st.sizes)
}

// Where in the area the point begins: the asked one, or the standing one where no question is open.
pub fn yadzvego_point_place(run: Run, area_len: usize) -> usize
    ensures { result ≡ point_place run area_len }
{
    if !has_point(run, area_len) {
        return 0;
    }
    run::point_place(state_at(run))
}

// How many numbers the point has: 0 where there is none.
pub fn yadzvego_point_length(run: Run, area_len: usize) -> usize
    ensures { result ≡ point_length run area_len }
{
    if !has_point(run, area_len) {
        return 0;
    }
    2 * run.n
}
