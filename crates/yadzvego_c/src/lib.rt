// The archive for C and Rust: the calls of a run, each by name. A slice is passed as its pointer and count. Every
// function takes every number and every length, and keeps the contract of the function of `yadzvego` that it calls.
#![tactic(auto)]

ghost use Rattle.std.specs.Prelude.{◌≡◌};
ghost use Rattle.yadzvego.specs.Exports.{after_export, begin_export, reply_export, reply_none_export, has_point};
ghost use Rattle.yadzvego.specs.Exports.{point_place, point_length};

mod lists;
mod scalars;
mod sheets;

use interval::Scalar;
use yadzvego::{CReturned, Run};

// Begins a run: its first question asks for the rows of `start`.
#[unsafe(no_mangle)]
pub extern "C" fn yadzvego_begin(
    n: usize,
    s: usize,
    limit: usize,
    start: &[f64],
    max_step: Scalar,
    area: &mut [f64],
) -> CReturned
    ensures { after_export result area.new ≡ begin_export (record { n = n; s = s; limit = limit })
        start.now max_step area.old }
{
    yadzvego::yadzvego_begin(n, s, limit, start, max_step, area)
}

// Answers the open question with rows, m constraint rows and then the sum's.
#[unsafe(no_mangle)]
pub extern "C" fn yadzvego_reply(run: Run, area: &mut [f64], m: usize, rows: &[f64]) -> CReturned
    ensures { after_export result area.new ≡ reply_export run area.old m rows.now }
{
    yadzvego::yadzvego_reply(run, area, m, rows)
}

// Answers the open question with none: the point cannot be evaluated.
#[unsafe(no_mangle)]
pub extern "C" fn yadzvego_reply_none(run: Run, area: &mut [f64]) -> CReturned
    ensures { after_export result area.new ≡ reply_none_export run area.old }
{
    yadzvego::yadzvego_reply_none(run, area)
}

// Where in the area the point begins: the asked one, or the standing one where no question is open.
#[unsafe(no_mangle)]
pub extern "C" fn yadzvego_point_place(run: Run, area_len: usize) -> usize
    ensures { result ≡ point_place run area_len }
{
    yadzvego::yadzvego_point_place(run, area_len)
}

// How many numbers the point has: 0 where there is none.
#[unsafe(no_mangle)]
pub extern "C" fn yadzvego_point_length(run: Run, area_len: usize) -> usize
    ensures { result ≡ point_length run area_len }
{
    yadzvego::yadzvego_point_length(run, area_len)
}
